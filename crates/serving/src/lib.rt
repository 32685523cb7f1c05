//! Serving connections of streams by one hub, one after another. Many at once are `polling`'s.
//!
//! Promises: what a turn reads from a stream comes on its connection, in order. What it writes on the stream is what is
//! then taken of the connection: a prefix of what the hub wrote on it, and all of it where no write failed. All that
//! happens to the hub is a run of its events, and every other connection stays as it was.
//! Stands on `httpedge` for what the events lead to, on `observing` for who is told them, and on `verbs` for the machine.
#![tactic(auto)]

mod conversing;
mod listening;
mod server;

pub use conversing::{pump, turn};
pub use listening::serve_all;
pub use server::{Limits, Server};
