//! The errors of a whole call, which are no refusals: memory, the store, or a stored text that is no object's.

use api_types::TypesFault;
use std::alloc::AllocError;
use thiserror::Error;

/// How the faults of this crate and of those above tell that the store failed.
pub const STORE_FAILED: &str = "the store failed";

/// Why there is no answer: the call changed nothing.
#[derive(Clone, Copy, Debug, PartialEq, Eq, Error)]
pub enum Fault {
    #[error("out of memory")]
    Memory,
    /// The store refused a statement, for memory or for size.
    #[error("{}", STORE_FAILED)]
    Store,
    /// What is stored is no object's text, which it always is in an API that stands for a machine.
    #[error("what is stored is no object's text")]
    Unreadable,
}

impl From<AllocError> for Fault {
    ghost use Rattle.std.specs.Prelude.{◌≡◌};
    ghost use Rattle.verbs.specs.declared.fault.Fault.TheVariants.{Memory};

    ghost from_gives = { λ _ e. e ≡ Memory };

    fn from(_: AllocError) -> Fault {
        Fault::Memory
    }
}

impl From<revtable::Fault> for Fault {
    ghost use Rattle.std.specs.Prelude.{◌≡◌};
    ghost use Rattle.verbs.specs.FaultViews.{fault_of};

    ghost from_gives = { λ fault e. e ≡ fault_of fault };

    fn from(fault: revtable::Fault) -> Fault {
        match fault {
            revtable::Fault::Memory => Fault::Memory,
            revtable::Fault::Store => Fault::Store,
        }
    }
}

/// Why the types stay that are served. Nothing was changed.
#[derive(Clone, Copy, Debug, PartialEq, Eq, Error)]
pub enum RetypeFault {
    /// The value is no types file.
    #[error("{0}")]
    NotTypes(TypesFault),
    /// Something differs beside sets, map lists and granular maps that have become atomic.
    #[error("not a lawful change of types")]
    NotLawful,
    /// Fewer revisions are left than objects whose text changes.
    #[error("fewer revisions are left than objects change")]
    TooFewRevisions,
    /// Out of memory, or the store failed.
    #[error("{0}")]
    Failed(Fault),
}

impl From<Fault> for RetypeFault {
    ghost use Rattle.std.specs.Prelude.{◌≡◌};
    ghost use Rattle.verbs.specs.declared.fault.RetypeFault.TheVariants.{Failed};

    ghost from_gives = { λ fault e. e ≡ Failed fault };

    fn from(fault: Fault) -> RetypeFault {
        RetypeFault::Failed(fault)
    }
}
