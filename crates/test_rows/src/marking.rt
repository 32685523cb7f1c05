//! The marks between which memory is refused. What is called between them stands in the crate of the test.

use std::alloc::{AllocError, Global};

/// Where the calls that `tools/failing_memory.py` refuses memory begin and end.
pub fn mark(alloc: Global) -> Result<(), AllocError> {
    Vec::<u8>::with_capacity(alloc, 1_000_003)?;
    Ok(())
}
