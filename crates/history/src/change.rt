//! A change of one key. A history is a list of these.

use crate::key::Key;

/// A change of one key. Without a body it is the deletion of what stood there.
#[derive(Debug, Drop)]
pub struct Change {
    pub revision: u64,
    pub key: Key,
    pub body: Option<String>,
}
