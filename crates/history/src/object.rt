//! What stands under a key. Which text an object has is decided in the crate `objects`.

use crate::key::Key;

/// What stands under a key: the revision of the key's last change, and the body of that.
#[derive(Debug, Drop)]
pub struct Object {
    pub revision: u64,
    pub body: String,
}

/// An object with its key.
#[derive(Debug, Drop)]
pub struct Entry {
    pub key: Key,
    pub object: Object,
}
