//! Serving many connections at once on one thread, by one hub: the system says which streams are ready. One after
//! another is `serving`'s.
//!
//! Promises: what leaves a connection's reader comes on that connection, in order; what its writer gets is taken of that
//! connection, so it is the first of what was out on it, also where the writer fails; in a turn nothing else happens. All else
//! that happens to the hub is a run of its events, none of which brings bytes. After which revisions watches are disturbed, and
//! how, is a function of the seed. Which streams the system reports, and when, has no contract.
//! Stands on `httpedge` for what the events lead to, on `observing` for who is told them, on `verbs` for the machine, on
//! `mio` for readiness, on `rand_xoshiro` for words by a seed.
#![tactic(auto)]

mod disturbances;
mod options;
mod peer;
mod peers;
mod reading;
mod server;
mod stream;
mod writing;

pub use disturbances::Disturbances;
pub use options::Options;
pub use peer::{Next, Peer};
pub use reading::{Readout, hand_over};
pub use server::Server;
pub use stream::Stream;
pub use writing::{Written, write_out};
