//! Why a store's call gave no answer. Each of these leaves the store as it was. The calls stand in `store`.

use revtable::Fault;
use thiserror::Error;

/// The message where the highest revision is taken.
pub const REVISIONS_USED_UP: &str = "revisions are used up";

const COMPACTED: &str = "the revision is compacted";

const STILL_TO_COME: &str = "the revision is past the current one";

/// Why a change was not written.
#[derive(Debug, Drop, Error)]
pub enum WriteFault {
    /// The highest revision, 9223372036854775807, is taken.
    #[error("{}", REVISIONS_USED_UP)]
    Exhausted,
    /// The table failed.
    #[error("{0}")]
    Failed(Fault),
}

impl From<Fault> for WriteFault {
    ghost use Rattle.std.specs.Prelude.{◌≡◌};
    ghost use Rattle.revstore.specs.declared.fault.WriteFault.TheVariants.{Failed};

    ghost from_gives = { λ fault e. e ≡ Failed fault };

    fn from(fault: Fault) -> WriteFault {
        WriteFault::Failed(fault)
    }
}

/// Why the objects of a revision were not listed.
#[derive(Debug, Drop, Error)]
pub enum ListFault {
    /// The revision is below the compacted number.
    #[error("{}", COMPACTED)]
    Expired,
    /// The revision is past the current one.
    #[error("{}", STILL_TO_COME)]
    TooLarge,
    /// The table failed.
    #[error("{0}")]
    Failed(Fault),
}

impl From<Fault> for ListFault {
    ghost use Rattle.std.specs.Prelude.{◌≡◌};
    ghost use Rattle.revstore.specs.declared.fault.ListFault.TheVariants.{Failed};

    ghost from_gives = { λ fault e. e ≡ Failed fault };

    fn from(fault: Fault) -> ListFault {
        ListFault::Failed(fault)
    }
}

/// Why the changes after a revision were not answered.
#[derive(Debug, Drop, Error)]
pub enum ChangesFault {
    /// The revision is below the compacted number.
    #[error("{}", COMPACTED)]
    Expired,
    /// The table failed.
    #[error("{0}")]
    Failed(Fault),
}

impl From<Fault> for ChangesFault {
    ghost use Rattle.std.specs.Prelude.{◌≡◌};
    ghost use Rattle.revstore.specs.declared.fault.ChangesFault.TheVariants.{Failed};

    ghost from_gives = { λ fault e. e ≡ Failed fault };

    fn from(fault: Fault) -> ChangesFault {
        ChangesFault::Failed(fault)
    }
}

/// Why the store was not compacted.
#[derive(Debug, Drop, Error)]
pub enum CompactFault {
    /// The revision is below the compacted number.
    #[error("{} already", COMPACTED)]
    Expired,
    /// The revision is past the current one.
    #[error("{}", STILL_TO_COME)]
    TooLarge,
    /// The table failed.
    #[error("{0}")]
    Failed(Fault),
}

impl From<Fault> for CompactFault {
    ghost use Rattle.std.specs.Prelude.{◌≡◌};
    ghost use Rattle.revstore.specs.declared.fault.CompactFault.TheVariants.{Failed};

    ghost from_gives = { λ fault e. e ≡ Failed fault };

    fn from(fault: Fault) -> CompactFault {
        CompactFault::Failed(fault)
    }
}
