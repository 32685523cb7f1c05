//! Conflicts of an apply, and why an apply is refused; conflicts are found in `applying`.

use fieldpath::Path;
use objects::Manager;
use std::alloc::{AllocError, AllocFailed};
use thiserror::Error;

/// A path that another manager owns and to which an apply gives another value (Server-Side Apply, "Conflicts").
#[derive(Debug, Drop)]
pub struct Conflict {
    pub path: Path,
    /// Who owns it.
    pub manager: Manager,
}

/// Why an apply was not done. Nothing was changed.
#[derive(Debug, Drop, Error)]
pub enum ApplyFault {
    /// All conflicts, by manager, then path.
    #[error("the body changes paths that other managers own")]
    Conflicts(Vec<Conflict>),
    /// Out of memory.
    #[error("out of memory")]
    Memory,
}

impl From<AllocError> for ApplyFault {
    ghost use Rattle.std.specs.Prelude.{◌≡◌};
    ghost use Rattle.ownership.specs.declared.conflict.ApplyFault.TheVariants.{Memory};

    ghost from_gives = { λ _ e. e ≡ Memory };

    fn from(_: AllocError) -> ApplyFault {
        ApplyFault::Memory
    }
}

impl<T: Drop> From<AllocFailed<T>> for ApplyFault {
    ghost use Rattle.std.specs.Prelude.{◌≡◌};
    ghost use Rattle.ownership.specs.declared.conflict.ApplyFault.TheVariants.{Memory};

    ghost from_gives = { λ _ e. e ≡ Memory };

    fn from(_: AllocFailed<T>) -> ApplyFault {
        ApplyFault::Memory
    }
}
