//! The events that the hub handles; what each of them changes stands in `hub`, why one is refused in `fault`.

use serde_json::Value;

/// An event; the hub handles them in the order in which they come.
#[derive(Debug, Drop)]
pub enum Event {
    /// A connection is opened; its id is above all earlier ones.
    Open(u64),
    /// Bytes come on a connection.
    In(u64, Vec<u8>),
    /// The peer of a connection has gone.
    Gone(u64),
    /// A watch may write so many lines, one or more.
    Pump(u64, u64),
    /// So many milliseconds have passed since the start.
    Tick(u64),
    /// What no answer from this revision on can show may be forgotten: a revision from the compacted number to the
    /// current one.
    Compact(u64),
    /// The types of a types file are served from here on: a JSON value, `{"types":[..]}`. Beside those that are served,
    /// some sets, map lists and granular maps have become atomic.
    Retype(Value),
}

/// What an event changes one connection by.
#[derive(Clone, Copy, Debug)]
pub(crate) enum ConnectionInput<'a> {
    /// Bytes come on it.
    Bytes(&'a [u8]),
    /// It may write so many lines.
    Lines(usize),
    /// Its peer has gone.
    Gone,
}
