//! What the indexer keeps of an object: the object, and its keys in each index. The object alone stands in `object`.

use crate::object::Object;
use crate::texts::Texts;
use std::rc::Rc;

/// An object, and its keys in each index.
#[derive(Debug, Drop)]
pub(crate) struct Entry {
    pub(crate) object: Rc<Object>,
    pub(crate) keys: Vec<Texts>,
}
