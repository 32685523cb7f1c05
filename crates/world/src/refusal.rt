//! Why an event can't happen. What happens else stands in `world`.

use httpedge::HubRefusal;
use thiserror::Error;

/// Why an event can't happen. It changes nothing.
#[derive(Clone, Copy, Debug, PartialEq, Eq, Error)]
pub enum Refusal {
    /// The hub refuses it.
    #[error("{0}")]
    Hub(HubRefusal),
    /// Another peer would open, use or leave the client's connection.
    #[error("the connection is the client's")]
    ClientConnection,
    /// No id is left for a connection.
    #[error("no id is left")]
    NoId,
    /// The client has no request that is due.
    #[error("the client has nothing to ask")]
    NothingDue,
    /// No bytes wait to be carried.
    #[error("nothing waits")]
    NothingWaits,
    /// The client has no connection that could be cut.
    #[error("the client has no connection")]
    NoConnection,
    /// The client has no objects whose counts could be applied.
    #[error("the client has no revision")]
    NoRevision,
}
