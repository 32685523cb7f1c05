//! What a server may do to a watch by itself. Which events that are is said in `polling`.

/// What a server does to a watch by itself, as it may at any time.
#[derive(Clone, Copy, Debug, PartialEq, Eq)]
pub enum Disturbance {
    /// It is cut.
    Cut,
    /// Its lines are held back until the next tick.
    Hold,
    /// All changes are compacted and it is cut, so that the next watch from an earlier revision is refused by 410.
    Expiry,
}
