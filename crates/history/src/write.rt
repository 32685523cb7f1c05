//! A write, as a store is asked for it. The change that it makes has a revision too.

use crate::key::Key;

/// What is written under a key: a body, or without one the deletion of what stands there.
#[derive(Debug, Drop)]
pub struct Write {
    pub key: Key,
    pub body: Option<String>,
}
