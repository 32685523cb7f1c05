//! What an observer of a hub's events is. How events are handed on stands in `handing`.

use crate::disturbance::Disturbance;
use httpedge::{Effect, Event, Hub, HubFault};
use std::io::ErrorKind;

/// What is told all that happens to a hub.
pub trait Observer {
    /// This event is the next one: what it leads to isn't done yet.
    fn sees(&mut self, event: &Event);

    /// What the event did, or why it wasn't done, and the hub after it.
    fn learns(&mut self, hub: &Hub, event: &Event, done: &Result<Effect, HubFault>);

    /// A connection is closed because the system or memory failed its stream: what was asked on it, or what is left of its
    /// reply, is lost.
    fn loses(&mut self, id: u64, why: ErrorKind);

    /// The server disturbs the watch of a connection by itself, which is done next.
    fn disturbs(&mut self, id: u64, how: Disturbance);
}

/// Nobody is told anything.
#[derive(Clone, Copy, Debug)]
pub struct Unobserved;

impl Observer for Unobserved {
    fn sees(&mut self, _event: &Event) {}

    fn learns(&mut self, _hub: &Hub, _event: &Event, _done: &Result<Effect, HubFault>) {}

    fn loses(&mut self, _id: u64, _why: ErrorKind) {}

    fn disturbs(&mut self, _id: u64, _how: Disturbance) {}
}
