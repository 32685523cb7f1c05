//! The events of a run; what each of them changes stands in `world`.

use httpedge::Event;

/// What happens next.
#[derive(Debug, Drop)]
pub enum WorldEvent {
    /// An event of the hub: of another peer's connection, of a watch, of the clock, a compaction, or other types. One that
    /// would open, use or leave the client's connection does nothing.
    Other(Event),
    /// Another peer's bytes come in one piece on a new connection.
    Request(Vec<u8>),
    /// The client asks what is due, on a new connection.
    ClientSend,
    /// So many bytes of its request come to the server, or all that are left.
    ToServer(usize),
    /// So many bytes of the reply come to the client, or all that are there.
    ToClient(usize),
    /// The client's connection is cut.
    Cut,
    /// The client forgets all, and leaves its connection.
    Restart,
    /// The counts of the client's objects are applied, on a connection of their own.
    Reconcile,
}
