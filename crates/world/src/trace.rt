//! What a run shows.

use indexer::{Object, ObjectKey};
use std::collections::BTreeMap;
use std::rc::Rc;

/// A copy of an index: its keys, and under each the keys of the objects that have it, one at least. Both strictly ascend.
#[derive(Debug, Drop)]
pub struct IndexShot {
    pub name: String,
    pub keys: Vec<(String, Vec<ObjectKey>)>,
}

/// What the client had after an event that gave it its first revision, or a higher one.
#[derive(Debug, Drop)]
pub struct Report {
    /// The event's place in the list, from 1.
    pub event: usize,
    pub revision: u64,
    /// In order of namespace, then name; shared with the client that had them.
    pub objects: Vec<Rc<Object>>,
    /// In the order in which the indexes were given.
    pub indexes: Vec<IndexShot>,
    /// How many of the objects have each value of the label.
    pub counts: BTreeMap<String, u64>,
}

/// What a run shows.
#[derive(Debug, Drop)]
pub struct Trace {
    /// By its id, all that was written on each connection that was ever opened; the ids rise.
    pub written: Vec<(u64, Vec<u8>)>,
    /// The connections that were opened for a request of another peer, oldest first.
    pub requested: Vec<u64>,
    /// In the order of their events.
    pub reports: Vec<Report>,
}
