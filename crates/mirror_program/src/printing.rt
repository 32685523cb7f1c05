//! The body of `ssa-mirror` over any connections and any output: the client that the options ask for, its turns, and the
//! faults that end them.

ghost use Rattle.std.specs.Prelude.{◌≡◌, IfErr, OnErr, OnOk, None, Some};
ghost use Rattle.api_types.specs.Served.{types_view};
ghost use Rattle.reflector.specs.Requests.{Settings};
ghost use Rattle.mirroring.specs.Turns.{Answers};
ghost use Rattle.mirror_program.specs.Asked.{asked_of, settings_of};
ghost use Rattle.mirror_program.specs.Printing.{Prints, PrintsFewer, PrintsPrefix};
ghost use Rattle.mirror_program.specs.Statuses.{status_of};

use crate::arguments::MirrorOptions;
use crate::fault::{ProgramFault, ended_by};
use crate::settings::informer_of;
use api_types::Types;
use mirroring::{Dial, mirror};
use std::alloc::Global;
use std::io::Write;

/// Mirrors what the options ask for, over so many connections, and prints the revision of the first list and what changes.
pub fn print_changes<D: Dial, W: Write>(
    alloc: Global,
    types: &Types,
    options: &MirrorOptions<'_>,
    dialer: &mut D,
    out: &mut W,
) -> Result<(), ProgramFault>
    ensures emitted { OnOk result ((s : Settings) × (settings_of (types_view types.now) (asked_of options.now) ≡ Some s)
        × Prints (Answers (λ a q r b. D.dials a q r b) (λ r. D.Reader.remaining r)) (λ a t b. D.learns a t b) s options.now.turns dialer.old dialer.new (W.contents out.old) (W.contents out.new)) }
    ensures prefix { OnErr result (PrintsPrefix (Answers (λ a q r b. D.dials a q r b) (λ r. D.Reader.remaining r)) (λ a t b. D.learns a t b) (settings_of (types_view types.now) (asked_of options.now)) options.now.turns dialer.old (W.contents out.old) (W.contents out.new)) }
    ensures refused { IfErr result (λ f. status_of f ≡ 2 → (settings_of (types_view types.now) (asked_of options.now) ≡ None) × (out.new ≡ out.old)) }
    ensures undialled { IfErr result (λ f. status_of f ≡ 6 → (s : Settings) × (settings_of (types_view types.now) (asked_of options.now) ≡ Some s)
        × PrintsFewer (Answers (λ a q r b. D.dials a q r b) (λ r. D.Reader.remaining r)) (λ a t b. D.learns a t b) s options.now.turns dialer.old (W.contents out.old) (W.contents out.new)) }
{
    let mut informer = informer_of(alloc, types, options)?;
    match mirror(alloc, dialer, &mut informer, out, options.turns) {
        Ok(()) => Ok(()),
        Err(fault) => Err(ended_by(options.port, fault)),
    }
}
