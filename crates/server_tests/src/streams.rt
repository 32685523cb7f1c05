//! Tests of turns of connections, one after another (`serving`) and many at once (`polling`): over memory, where streams fail,
//! and over loopback within this process.
//!
//! Each call stands in a helper with no clause, so that a test carries few facts; one function of each module holds a hub
//! or a server, and lets it go without a drop, which would be expensive to prove.

pub mod given;
mod loopback;
mod mirrored_loopback;
mod over_memory;
mod polled_loopback;
mod turns;
