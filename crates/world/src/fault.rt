//! Why a run ended before its last event.

use httpedge::HubFailure;
use std::alloc::{AllocError, AllocFailed};
use summary::CountFault;
use thiserror::Error;
use verbs::{Fault, STORE_FAILED};

/// Why a run ended before its last event.
#[derive(Clone, Copy, Debug, PartialEq, Eq, Error)]
pub enum WorldFault {
    /// Out of memory.
    #[error("out of memory")]
    Memory,
    /// The store refused a statement for memory or size, or what is stored is no object's text.
    #[error("{}", STORE_FAILED)]
    Store,
    /// Nothing can be run with these settings: 1 a page has 1 to 500 objects, 2 the selector isn't read, 3 no type has the
    /// number, 4 two indexes have one name, 5 the namespace is no DNS label; of several the least.
    #[error("the settings can't be had: {0}")]
    Settings(u32),
    /// The link failed: a piece didn't arrive, or arrived otherwise.
    #[error("the link failed")]
    Link,
}

/// Why a run whose settings can be had ended before its last event.
#[derive(Clone, Copy, Debug, PartialEq, Eq)]
pub(crate) enum RunFault {
    Memory,
    Store,
    Link,
}

impl From<RunFault> for WorldFault {
    ghost use Rattle.std.specs.Prelude.{◌≡◌};
    ghost use Rattle.world.specs.FaultViews.{world_fault_of};

    ghost from_gives = { λ f e. e ≡ world_fault_of f };

    fn from(fault: RunFault) -> WorldFault {
        match fault {
            RunFault::Memory => WorldFault::Memory,
            RunFault::Store => WorldFault::Store,
            RunFault::Link => WorldFault::Link,
        }
    }
}

impl From<AllocError> for WorldFault {
    ghost use Rattle.std.specs.Prelude.{◌≡◌};
    ghost use Rattle.world.specs.declared.fault.WorldFault.TheVariants.{Memory};

    ghost from_gives = { λ _ e. e ≡ Memory };

    fn from(_: AllocError) -> WorldFault {
        WorldFault::Memory
    }
}

impl From<AllocError> for RunFault {
    ghost use Rattle.std.specs.Prelude.{◌≡◌};
    ghost use Rattle.world.specs.declared.fault.RunFault.TheVariants.{Memory};

    ghost from_gives = { λ _ e. e ≡ Memory };

    fn from(_: AllocError) -> RunFault {
        RunFault::Memory
    }
}

impl From<CountFault> for RunFault {
    ghost use Rattle.std.specs.Prelude.{◌≡◌};
    ghost use Rattle.world.specs.declared.fault.RunFault.TheVariants.{Memory};

    ghost from_gives = { λ _ e. e ≡ Memory };

    fn from(_: CountFault) -> RunFault {
        RunFault::Memory
    }
}

impl<T: Drop> From<AllocFailed<T>> for RunFault {
    ghost use Rattle.std.specs.Prelude.{◌≡◌};
    ghost use Rattle.world.specs.declared.fault.RunFault.TheVariants.{Memory};

    ghost from_gives = { λ _ e. e ≡ Memory };

    fn from(_: AllocFailed<T>) -> RunFault {
        RunFault::Memory
    }
}

impl From<HubFailure> for RunFault {
    ghost use Rattle.std.specs.Prelude.{◌≢◌};
    ghost use Rattle.world.specs.declared.fault.RunFault.TheVariants.{Link};

    ghost from_gives = { λ _ e. e ≢ Link };

    fn from(failure: HubFailure) -> RunFault {
        match failure {
            HubFailure::Memory => RunFault::Memory,
            HubFailure::Store => RunFault::Store,
        }
    }
}

impl From<Fault> for RunFault {
    ghost use Rattle.std.specs.Prelude.{◌≢◌};
    ghost use Rattle.world.specs.declared.fault.RunFault.TheVariants.{Link};

    ghost from_gives = { λ _ e. e ≢ Link };

    fn from(fault: Fault) -> RunFault {
        match fault {
            Fault::Memory => RunFault::Memory,
            Fault::Store | Fault::Unreadable => RunFault::Store,
        }
    }
}
