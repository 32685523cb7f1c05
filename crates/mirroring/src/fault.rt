//! Why a mirror ends before it is done.

use std::alloc::AllocError;
use std::io;
use thiserror::Error;

/// Why a mirror ends before it is done. A connection that is cut is no fault: the informer asks again.
#[derive(Debug, Drop, Error)]
pub enum MirrorFault {
    /// No connection, or the request couldn't be sent.
    #[error("connection: {0}")]
    Dial(io::Error),
    /// The text cannot be written.
    #[error("output: {0}")]
    Output(io::Error),
    /// Out of memory.
    #[error("out of memory")]
    Memory,
}

impl From<AllocError> for MirrorFault {
    ghost use Rattle.std.specs.Prelude.{◌≡◌};
    ghost use Rattle.mirroring.specs.declared.fault.MirrorFault.TheVariants.{Memory};

    ghost from_gives = { λ _ e. e ≡ Memory };

    fn from(_: AllocError) -> MirrorFault {
        MirrorFault::Memory
    }
}
