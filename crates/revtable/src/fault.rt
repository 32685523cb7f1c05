//! Why a call on the table fails. Refusals of the store's calls stand in the crate `revstore`.

use sqlite::{Error, ErrorCode};
use std::alloc::{AllocError, AllocFailed};
use thiserror::Error;

/// Why a call on the table gave no answer. It has changed nothing.
#[derive(Debug, Drop, Error)]
pub enum Fault {
    /// Out of memory.
    #[error("out of memory")]
    Memory,
    /// SQLite refused a statement, for memory or for size.
    #[error("the table refused a statement")]
    Store,
}

impl From<Error> for Fault {
    ghost use Rattle.std.specs.Prelude.{◌≡◌};
    ghost use Rattle.revtable.specs.FaultViews.{fault_of};

    ghost from_gives = { λ error fault. fault ≡ fault_of error };

    fn from(error: Error) -> Fault {
        match error {
            Error::SqliteFailure(ErrorCode::OutOfMemory) => Fault::Memory,
            _ => Fault::Store,
        }
    }
}

impl From<AllocError> for Fault {
    ghost use Rattle.std.specs.Prelude.{◌≡◌};
    ghost use Rattle.revtable.specs.declared.fault.Fault.TheVariants.{Memory};

    ghost from_gives = { λ _ fault. fault ≡ Memory };

    fn from(_: AllocError) -> Fault {
        Fault::Memory
    }
}

impl<T: Drop> From<AllocFailed<T>> for Fault {
    ghost use Rattle.std.specs.Prelude.{◌≡◌};
    ghost use Rattle.revtable.specs.declared.fault.Fault.TheVariants.{Memory};

    ghost from_gives = { λ _ fault. fault ≡ Memory };

    fn from(_: AllocFailed<T>) -> Fault {
        Fault::Memory
    }
}
