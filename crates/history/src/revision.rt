//! The highest revision; what a revision is stands in `specs/History`.

/// The highest revision of a change and of a store: the highest 64-bit signed integer.
pub const LAST_REVISION: u64 = i64::MAX as u64;
