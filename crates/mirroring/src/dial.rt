//! Connections to a server, as a client sees them: the transport of an informer.

ghost use Rattle.mirroring.specs.Turns.{LearnsReason};

use reflector::RelistReason;
use std::io;
use std::io::Read;

/// Opens connections to a server.
pub trait Dial {
    ghost use Rattle.std.specs.Prelude.{List, ℕ, IfOk, ⊤};
    ghost use Rattle.reflector.specs.declared.relist_reason.RelistReason.{RelistReason};

    /// Reads the reply. The connection ends when it is dropped.
    type Reader: Read + Drop;

    // Asked this, the first dialer answers with the reader, and is the second one then.
    ghost dials: { Self → List ℕ → Self.Reader → Self → Type 0 } = { λ _ _ _ _. ⊤ };

    // Told why it relists, the first dialer is the second one then.
    ghost learns: { Self → RelistReason → Self → Type 0 } = { λ _ _ _. ⊤ };

    /// Opens a connection and sends the request whole.
    fn dial(&mut self, request: &[u8]) -> io::Result<Self::Reader>
        ensures { IfOk result (λ reader. dials self.old request.now reader self.new) };

    /// The last reply was given up for this reason, and the next request is dialled once this returns. A program tells its
    /// user here, and waits a moment, as a server that refuses would else be asked again at once.
    fn given_up(&mut self, relist_reason: RelistReason)
        ensures { learns self.old relist_reason self.new };
}

/// Tells the dialer why the last reply was given up, if it was.
pub(crate) fn report_relist_reason<D: Dial>(dialer: &mut D, relist_reason: Option<RelistReason>)
    ensures { LearnsReason (λ a t b. D.learns a t b) relist_reason dialer.old dialer.new }
{
    if let Some(relist_reason) = relist_reason {
        dialer.given_up(relist_reason);
    }
}
