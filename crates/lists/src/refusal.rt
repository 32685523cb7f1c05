//! Why a list is refused. How a call is refused by it stands in `listing` of the crate `verbs`.

use thiserror::Error;

/// Why a list is refused.
#[derive(Clone, Copy, Debug, PartialEq, Eq, Error)]
pub enum Refusal {
    /// The revision that was asked for is below the compacted number, which is the second of these.
    #[error("the revision {0} is below the compacted one, {1}")]
    Expired(u64, u64),
    /// The revision that was asked for is past the current one, which is the second of these.
    #[error("the revision {0} is past the current one, {1}")]
    TooLarge(u64, u64),
}
