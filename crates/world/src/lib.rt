//! A server and a client in one process, event by event: requests of others, the client's request and its reply in pieces,
//! watches, ticks, compactions, other types, cuts, restarts, and counts that are applied. What an event makes of both is
//! defined in `world_laws`.
//!
//! Promises: the trace of a run is that of its definition: what was written on each connection, and a report for each
//! event after which the client's revision is the first, or has risen, with the client's objects, each index of them and
//! their counts by a label. Each report is right: its objects are exactly the server's at its revision, and no report is
//! of a lower one than one before it. An event that is taken by itself adds to the trace what it did, and takes no longer
//! where there were many connections before it. One that can't happen is refused with its reason and changes nothing; a
//! value that is no types file, with its own fault. The next move by which the client comes to the server's revision is
//! that of its definition, and moves are made until it is there. What the client has can be seen after each event.
//! Settings that can't be had are refused by their least fault.
//! Stands on `httpedge` for the server, `reflector` for the client, `indexer` and `summary` for what is reported.
#![tactic(auto)]

mod connection;
mod event;
mod extents;
mod fault;
mod indexes;
mod link;
mod moves;
mod moving;
mod recording;
mod refusal;
mod reporting;
mod running;
mod server;
mod settings;
mod step;
mod stepping;
mod trace;
mod world;

pub use event::WorldEvent;
pub use fault::WorldFault;
pub use link::{Link, LinkFault, OverMemory};
pub use moves::Moves;
pub use refusal::Refusal;
pub use running::{run, run_over};
pub use settings::Settings;
pub use step::Step;
pub use stepping::steps_join;
pub use trace::{IndexShot, Report, Trace};
pub use world::World;
