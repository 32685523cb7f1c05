//! The server's side of the wire: the hub, whose connections get bytes and give bytes. Streams are read and written in
//! `serving` and `polling`.
//!
//! What each event makes of the hub's machine and of its connections is a function of its state and of the event; a
//! watch writes at a pump or a tick.
//!
//! Stands on `requests` for what a connection's bytes ask and for the bytes of a reply, on `api_request` for calls, on
//! `verbs` for the machine and on `watchline` for what a watch sends.
#![tactic(auto)]

mod answering;
mod connection;
mod connections;
mod effect;
mod event;
mod fault;
mod hub;
mod ids;
mod laws;
mod out;
mod shared;
mod streams;
mod ticking;
mod turns;
mod watching;

pub use effect::{Change, Effect};
pub use event::Event;
pub use fault::{HubFailure, HubFault, HubRefusal};
pub use hub::Hub;
pub use laws::{
    all_is_out, bytes_are_taken, each_changes, each_steps, ends_stay, gone_stays, machines_grow,
    machines_last, others_stay, pieces, runs_are_determined, ticks_are_for_watches, written_stays,
};
pub use streams::LINGER;
