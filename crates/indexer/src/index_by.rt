//! The functions by which objects are indexed; what an index holds stands in `postings`.

ghost use Rattle.std.specs.Prelude.{◌≡◌, List, ℕ, map, IfOk, string_bytes};
ghost use Rattle.indexer.specs.Names.{are_distinct};
ghost use Rattle.indexer.specs.Objects.{Stored, shared_of};

use crate::object::Object;
use std::alloc::{AllocError, Global};
use std::rc::Rc;

/// An index: its name, and the keys of an object, which are a function of the object; a key given twice
/// counts once.
pub trait IndexBy: Drop {
    ghost use Rattle.std.specs.Prelude.{◌≡◌, List, ℕ, map, IfOk, string_bytes};
    ghost use Rattle.indexer.specs.Objects.{Stored, stored_of};

    ghost title: { Self → List ℕ };

    ghost keys: { Self → Stored → List (List ℕ) };

    /// The name of the index.
    fn name(&self) -> &str
        ensures { result.now ≡ title self.now };

    /// The keys of an object in this index.
    fn keys_of(&self, alloc: Global, object: &Object) -> Result<Vec<String>, AllocError>
        ensures { IfOk result (λ v. map string_bytes v.items ≡ keys self.now (stored_of object.now)) };
}

impl IndexBy for Box<dyn IndexBy> {
    ghost title = { λ b. (IndexBy-box b).title b.value };

    ghost keys = { λ b o. (IndexBy-box b).keys b.value o };

    fn name(&self) -> &str {
        (**self).name()
    }

    fn keys_of(&self, alloc: Global, object: &Object) -> Result<Vec<String>, AllocError> {
        (**self).keys_of(alloc, object)
    }
}

/// The keys of an object in each index.
pub(crate) fn keys_by_each<I: IndexBy>(
    alloc: Global,
    indexes: &[I],
    object: &Rc<Object>,
) -> Result<Vec<Vec<String>>, AllocError>
    ensures { IfOk result (λ v. map (λ w. map string_bytes w.items) v.items ≡ map (λ b. I.keys b (shared_of object.now)) indexes.now) }
{
    let mut all = Vec::with_capacity(alloc, indexes.len())?;
    for index in indexes {
        all.push(index.keys_of(alloc, object)?)?;
    }
    Ok(all)
}

/// The name of each index.
pub(crate) fn names_of_each<I: IndexBy>(
    alloc: Global,
    indexes: &[I],
) -> Result<Vec<String>, AllocError>
    ensures { IfOk result (λ v. map string_bytes v.items ≡ map (λ b. I.title b) indexes.now) }
{
    let mut names = Vec::new(alloc);
    for index in indexes {
        names.push(String::from_str(alloc, index.name())?)?;
    }
    Ok(names)
}

/// Whether no name stands twice.
pub(crate) fn are_distinct(names: &[String]) -> bool
    ensures { result ≡ are_distinct (map string_bytes names.now) }
{
    for (i, name) in names.iter().enumerate() {
        if names[i + 1..].contains(name) {
            return false;
        }
    }
    true
}
