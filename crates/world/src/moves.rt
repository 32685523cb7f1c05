//! The moves that were made for the client to come to the server's revision. What they are stands in `moving`.

use crate::event::WorldEvent;
use crate::trace::Report;

/// The moves that were made for the client to come to the server's revision, and what it had after them.
#[derive(Debug, Drop)]
pub struct Moves {
    /// In their order. Behind the same events they lead to the same again.
    pub events: Vec<WorldEvent>,
    /// What the client had after each move by which its revision was the first, or rose.
    pub reports: Vec<Report>,
}
