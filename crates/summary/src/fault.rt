//! The error of counting several notices.

use thiserror::Error;

/// Out of memory. So many of the notices were counted, the first ones; the others can be counted later.
#[derive(Clone, Copy, Debug, PartialEq, Eq, Error)]
#[error("out of memory")]
pub struct CountFault {
    pub counted: usize,
}
