//! The index that most clients have: by namespace. What an index is stands in `index_by`.

use crate::index_by::IndexBy;
use crate::object::Object;
use std::alloc::{AllocError, Global};

/// An index by the object's namespace; its name is `namespace`.
#[derive(Debug, Drop)]
pub struct ByNamespace;

impl IndexBy for ByNamespace {
    ghost use Rattle.std.specs.Prelude.{codes};
    ghost use Rattle.indexer.specs.Namespaces.{namespace_keys};

    ghost title = { λ _. codes "namespace" };

    ghost keys = { namespace_keys };

    fn name(&self) -> &str {
        "namespace"
    }

    fn keys_of(&self, alloc: Global, object: &Object) -> Result<Vec<String>, AllocError> {
        Ok(vec![in alloc; String::from_str(alloc, object.namespace.as_str())?]?)
    }
}
