//! Why there is no list: a refusal, as `refusal` tells it, or what failed. Nothing has changed.

use crate::refusal::Refusal;
use revtable::Fault;
use std::alloc::AllocError;
use thiserror::Error;

/// Why there is no list.
#[derive(Debug, Drop, Error)]
pub enum ListFault {
    #[error("{0}")]
    Refused(Refusal),
    /// Out of memory, or the store refused a statement.
    #[error("{0}")]
    Failed(Fault),
}

impl From<Refusal> for ListFault {
    ghost use Rattle.std.specs.Prelude.{◌≡◌};
    ghost use Rattle.lists.specs.declared.fault.ListFault.TheVariants.{Refused};

    ghost from_gives = { λ refusal e. e ≡ Refused refusal };

    fn from(refusal: Refusal) -> ListFault {
        ListFault::Refused(refusal)
    }
}

impl From<Fault> for ListFault {
    ghost use Rattle.std.specs.Prelude.{◌≡◌};
    ghost use Rattle.lists.specs.declared.fault.ListFault.TheVariants.{Failed};

    ghost from_gives = { λ fault e. e ≡ Failed fault };

    fn from(fault: Fault) -> ListFault {
        ListFault::Failed(fault)
    }
}

impl From<AllocError> for ListFault {
    ghost use Rattle.std.specs.Prelude.{◌≡◌};
    ghost use Rattle.lists.specs.declared.fault.ListFault.TheVariants.{Failed};
    ghost use Rattle.revtable.specs.declared.fault.Fault.TheVariants.{Memory};

    ghost from_gives = { λ _ e. e ≡ Failed Memory };

    fn from(_: AllocError) -> ListFault {
        ListFault::Failed(Fault::Memory)
    }
}
