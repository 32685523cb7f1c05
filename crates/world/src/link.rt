//! What carries bytes between the two ends; which bytes these are stands in `connection`.

ghost use Rattle.std.specs.Prelude.{◌≡◌, ◌≢◌, IfOk, OnOk, Bool, true, false, Err};

use crate::fault::RunFault;
use std::alloc::{AllocError, Global};

/// Why a piece wasn't carried.
#[derive(Clone, Copy, Debug, PartialEq, Eq)]
pub enum LinkFault {
    /// Out of memory.
    Memory,
    /// It didn't arrive, or arrived otherwise.
    Failed,
}

impl From<AllocError> for LinkFault {
    ghost use Rattle.std.specs.Prelude.{◌≡◌};
    ghost use Rattle.world.specs.declared.link.LinkFault.TheVariants.{Memory};

    ghost from_gives = { λ _ e. e ≡ Memory };

    fn from(_: AllocError) -> LinkFault {
        LinkFault::Memory
    }
}

/// What carries bytes from one end to the other: what arrives is what was sent.
pub trait Link: Drop {
    ghost use Rattle.std.specs.Prelude.{◌≡◌, ◌≢◌, IfOk, Bool, false, Err};

    /// Whether it may fail otherwise than for memory.
    ghost may_fail: { Bool };

    /// Carries a piece: the bytes that arrive.
    fn carry(&mut self, alloc: Global, piece: &[u8]) -> Result<Vec<u8>, LinkFault>
        ensures answers { IfOk result (λ v. v.items ≡ piece.now) }
        ensures never { may_fail ≡ false → result ≢ Err LinkFault.Failed };
}

/// A link within the process.
#[derive(Debug, Drop)]
pub struct OverMemory;

impl Link for OverMemory {
    ghost use Rattle.std.specs.Prelude.{false};

    ghost may_fail = { false };

    fn carry(&mut self, alloc: Global, piece: &[u8]) -> Result<Vec<u8>, LinkFault> {
        Ok(Vec::from_slice(alloc, piece)?)
    }
}

/// Carries a piece, with the fault of a run.
pub(crate) fn carried<L: Link>(
    alloc: Global,
    link: &mut L,
    piece: &[u8],
) -> Result<Vec<u8>, RunFault>
    ensures answers { IfOk result (λ v. v.items ≡ piece.now) }
    ensures link { L.may_fail ≡ false → result ≢ Err RunFault.Link }
{
    match link.carry(alloc, piece) {
        Ok(bytes) => Ok(bytes),
        Err(LinkFault::Memory) => Err(RunFault::Memory),
        Err(LinkFault::Failed) => Err(RunFault::Link),
    }
}
