//! Why a play of a script ends before its end. Faults of a whole program stand in `program_fault`.

use std::alloc::{AllocError, AllocFailed};
use std::io;
use thiserror::Error;
use world::WorldFault;

/// Why a play ended before its end.
#[derive(Debug, Drop, Error)]
pub enum ReplayFault {
    /// Out of memory.
    #[error("out of memory")]
    Memory,
    /// The store refused a statement, for memory or for size.
    #[error("{}", WorldFault::Store)]
    Store,
    /// Nothing can be played with these settings: the number of their fault.
    #[error("{}", WorldFault::Settings(*.0))]
    Settings(u32),
    /// The link between server and client failed.
    #[error("{}", WorldFault::Link)]
    Link,
    /// The writer refused a write.
    #[error("{0}")]
    Write(io::Error),
}

impl From<WorldFault> for ReplayFault {
    ghost use Rattle.std.specs.Prelude.{◌≡◌};
    ghost use Rattle.scripts.specs.Plays.{replay_fault_of};

    ghost from_gives = { λ f e. e ≡ replay_fault_of f };

    fn from(fault: WorldFault) -> ReplayFault {
        match fault {
            WorldFault::Memory => ReplayFault::Memory,
            WorldFault::Store => ReplayFault::Store,
            WorldFault::Settings(number) => ReplayFault::Settings(number),
            WorldFault::Link => ReplayFault::Link,
        }
    }
}

impl From<AllocError> for ReplayFault {
    ghost use Rattle.std.specs.Prelude.{◌≡◌};
    ghost use Rattle.scripts.specs.declared.replay_fault.ReplayFault.TheVariants.{Memory};

    ghost from_gives = { λ _ e. e ≡ Memory };

    fn from(_: AllocError) -> ReplayFault {
        ReplayFault::Memory
    }
}

impl<T: Drop> From<AllocFailed<T>> for ReplayFault {
    ghost use Rattle.std.specs.Prelude.{◌≡◌};
    ghost use Rattle.scripts.specs.declared.replay_fault.ReplayFault.TheVariants.{Memory};

    ghost from_gives = { λ _ e. e ≡ Memory };

    fn from(_: AllocFailed<T>) -> ReplayFault {
        ReplayFault::Memory
    }
}
