//! The two numbers of a history.

/// The revision that stands now, and the one up to which old changes are forgotten.
#[derive(Clone, Copy, Debug, PartialEq)]
pub struct Marks {
    pub current: u64,
    pub compacted: u64,
}
