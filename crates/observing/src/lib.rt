//! Hands events to a hub beside an observer, which is told each of them: for servers of streams that keep a log or a record.
//!
//! Promises: what becomes of the hub and what an event did is what `httpedge` says, whatever the observer does. Each event
//! is told to the observer before the hub has it, and what it did after that; what an observer makes of it has no contract.
//! Stands on `httpedge` for what the events lead to.
#![tactic(auto)]

mod disturbance;
mod handing;
mod observer;

pub use disturbance::Disturbance;
pub use handing::{compact, hand, step};
pub use observer::{Observer, Unobserved};
