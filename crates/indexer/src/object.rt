//! Objects, and the keys under which they are kept (namespace and name); their keys in an index stand in `texts`.

ghost use Rattle.std.specs.Prelude.{◌≡◌, IfOk};

use std::alloc::{AllocError, Global};
use std::collections::BTreeMap;
use std::rc::{Rc, RcStr};

/// Where an object stands: its namespace and its name, whose texts it shares with the object. Keys are in order of
/// namespace, then name.
#[derive(Debug, Drop, PartialEq, Eq, PartialOrd, Ord)]
pub struct ObjectKey {
    pub namespace: RcStr,
    pub name: RcStr,
}

/// An object as the client keeps it.
#[derive(Debug, Drop)]
pub struct Object {
    pub namespace: RcStr,
    pub name: RcStr,
    /// The revision of its last change (its `metadata.resourceVersion`).
    pub revision: u64,
    /// Its `metadata.labels`.
    pub labels: BTreeMap<String, String>,
    /// Its compact JSON.
    pub text: String,
}

impl Object {
    ghost use Rattle.indexer.specs.Objects.{shared_of, stored_of};

    /// The object, to be shared: each clone is one more owner of it, and copies no text.
    pub fn shared(self, alloc: Global) -> Result<Rc<Object>, AllocError>
        ensures { IfOk result (λ o. shared_of o ≡ stored_of self) }
    {
        Ok(Rc::new(alloc, self)?)
    }
}

impl ObjectKey {
    ghost use Rattle.indexer.specs.Keys.{IsKeyOf, IsCopyOf};

    /// The key of an object. No text is copied.
    pub fn of(object: &Object) -> Result<ObjectKey, AllocError>
        ensures { IfOk result (IsKeyOf object.now) }
    {
        let namespace = object.namespace.clone()?;
        let name = object.name.clone()?;
        Ok(ObjectKey { namespace, name })
    }

    /// The same key once more. No text is copied.
    pub(crate) fn try_copy(&self) -> Result<ObjectKey, AllocError>
        ensures { IfOk result (IsCopyOf self.now) }
    {
        let namespace = self.namespace.clone()?;
        let name = self.name.clone()?;
        Ok(ObjectKey { namespace, name })
    }
}
