//! Why an event is refused, and what failed. Refusals of requests stand in the crate `requests`.

use api_types::TypesFault;
use std::alloc::{AllocError, AllocFailed};
use thiserror::Error;
use verbs::{RetypeFault, STORE_FAILED};

/// Why the hub refuses an event, which then changes nothing.
#[derive(Clone, Copy, Debug, PartialEq, Eq, Error)]
pub enum HubRefusal {
    /// An opening whose id is not above those of all earlier ones.
    #[error("the id is not above all earlier ones")]
    IdNotAbove,
    /// Bytes or a pump of a connection that was never opened, or its peer's going.
    #[error("there is no connection of this id")]
    UnknownId,
    /// A pump of no lines.
    #[error("a pump of no lines")]
    NoLines,
    /// A tick at an earlier time than the last one.
    #[error("the tick is earlier than the last one")]
    TickBack,
    /// A compaction below the compacted number, or past the current revision.
    #[error("the revision is compacted already, or still to come")]
    CompactionRefused,
    /// Other types, by a value that is no types file.
    #[error("{0}")]
    NotTypes(TypesFault),
    /// Other types, which differ from those that are served in more than sets, map lists and granular maps that have
    /// become atomic.
    #[error("not a lawful change of types")]
    NotLawful,
    /// Other types, under which more objects change than revisions are left.
    #[error("fewer revisions are left than objects change")]
    TooFewRevisions,
}

/// What failed in the hub.
#[derive(Clone, Copy, Debug, PartialEq, Eq, Error)]
pub enum HubFailure {
    /// Out of memory.
    #[error("out of memory")]
    Memory,
    /// The store refused a statement for memory or size, or what is stored is no object's text.
    #[error("{}", STORE_FAILED)]
    Store,
}

/// Why an event wasn't done: it was refused, or the hub failed.
#[derive(Clone, Copy, Debug, PartialEq, Eq, Error)]
pub enum HubFault {
    #[error("{0}")]
    Refused(HubRefusal),
    #[error("{0}")]
    Failed(HubFailure),
}

impl From<AllocError> for HubFailure {
    ghost use Rattle.std.specs.Prelude.{◌≡◌};
    ghost use Rattle.httpedge.specs.declared.fault.HubFailure.TheVariants.{Memory};

    ghost from_gives = { λ _ e. e ≡ Memory };

    fn from(_: AllocError) -> HubFailure {
        HubFailure::Memory
    }
}

impl From<verbs::Fault> for HubFailure {
    ghost use Rattle.std.specs.Prelude.{◌≡◌};
    ghost use Rattle.httpedge.specs.FaultViews.{hub_failure_of};

    ghost from_gives = { λ f e. e ≡ hub_failure_of f };

    fn from(fault: verbs::Fault) -> HubFailure {
        match fault {
            verbs::Fault::Memory => HubFailure::Memory,
            verbs::Fault::Store | verbs::Fault::Unreadable => HubFailure::Store,
        }
    }
}

impl From<HubRefusal> for HubFault {
    ghost use Rattle.std.specs.Prelude.{◌≡◌};
    ghost use Rattle.httpedge.specs.declared.fault.HubFault.TheVariants.{Refused};

    ghost from_gives = { λ why e. e ≡ Refused why };

    fn from(refusal: HubRefusal) -> HubFault {
        HubFault::Refused(refusal)
    }
}

impl From<HubFailure> for HubFault {
    ghost use Rattle.std.specs.Prelude.{◌≡◌};
    ghost use Rattle.httpedge.specs.declared.fault.HubFault.TheVariants.{Failed};

    ghost from_gives = { λ what e. e ≡ Failed what };

    fn from(failure: HubFailure) -> HubFault {
        HubFault::Failed(failure)
    }
}

impl From<AllocError> for HubFault {
    ghost use Rattle.std.specs.Prelude.{◌≡◌};
    ghost use Rattle.httpedge.specs.declared.fault.HubFailure.TheVariants.{Memory};
    ghost use Rattle.httpedge.specs.declared.fault.HubFault.TheVariants.{Failed};

    ghost from_gives = { λ _ e. e ≡ Failed Memory };

    fn from(_: AllocError) -> HubFault {
        HubFault::Failed(HubFailure::Memory)
    }
}

impl<T: Drop> From<AllocFailed<T>> for HubFault {
    ghost use Rattle.std.specs.Prelude.{◌≡◌};
    ghost use Rattle.httpedge.specs.declared.fault.HubFailure.TheVariants.{Memory};
    ghost use Rattle.httpedge.specs.declared.fault.HubFault.TheVariants.{Failed};

    ghost from_gives = { λ _ e. e ≡ Failed Memory };

    fn from(_: AllocFailed<T>) -> HubFault {
        HubFault::Failed(HubFailure::Memory)
    }
}

impl From<verbs::Fault> for HubFault {
    ghost use Rattle.std.specs.Prelude.{◌≡◌};
    ghost use Rattle.httpedge.specs.FaultViews.{hub_fault_of};

    ghost from_gives = { λ f e. e ≡ hub_fault_of f };

    fn from(fault: verbs::Fault) -> HubFault {
        HubFault::Failed(HubFailure::from(fault))
    }
}

impl From<RetypeFault> for HubFault {
    ghost use Rattle.std.specs.Prelude.{◌≡◌};
    ghost use Rattle.httpedge.specs.FaultViews.{retyping_fault_of};

    ghost from_gives = { λ f e. e ≡ retyping_fault_of f };

    fn from(fault: RetypeFault) -> HubFault {
        match fault {
            RetypeFault::NotTypes(fault) => HubFault::Refused(HubRefusal::NotTypes(fault)),
            RetypeFault::NotLawful => HubFault::Refused(HubRefusal::NotLawful),
            RetypeFault::TooFewRevisions => HubFault::Refused(HubRefusal::TooFewRevisions),
            RetypeFault::Failed(fault) => HubFault::from(fault),
        }
    }
}
