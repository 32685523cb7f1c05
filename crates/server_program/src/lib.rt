//! The body of `ssa-server`: it serves the types of a file on loopback, one connection after another or many at once. What a
//! connection is answered is `httpedge`'s.
//!
//! Promises: the values of its arguments are those of `clap`'s exact matches; each fault has its exit status; the objects of
//! a file are created by POSTs in turn before the port is listened on. Who is told of events has no contract.
//! Stands on `serving` and `polling` for the turns of connections, on `event_log` for what is written of events, on `programs`
//! for what programs share, on `clap` for the arguments.
#![tactic(auto)]

mod arguments;
mod creations;
mod disturbing;
mod fault;
mod following;
mod object_fault;
mod running;
mod standard_error;
mod witness;

pub use arguments::{ServerOptions, options};
pub use creations::{BadLine, create_all};
pub use fault::ServerFault;
pub use object_fault::ObjectFault;
pub use running::ssa_server;
pub use witness::Witness;
