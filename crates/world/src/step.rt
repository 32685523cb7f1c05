//! What one event adds to what a run shows. The run itself stands in `world`.

use crate::refusal::Refusal;
use crate::trace::Report;

/// What one event adds to what a run shows.
#[derive(Debug, Drop)]
pub struct Step {
    /// Why the event can't happen, if it can't.
    pub refused: Option<Refusal>,
    /// The connection that the event opened for a request of its own.
    pub opened: Option<u64>,
    /// By its id, what was written on each connection on which something was; the ids rise.
    pub written: Vec<(u64, Vec<u8>)>,
    /// The connections that ended; the ids rise.
    pub ended: Vec<u64>,
    /// What the client has, where its revision is the first, or has risen.
    pub report: Option<Report>,
}
