//! Copies of keys, changes and objects, each of which may find no memory; and whether keys are the same, and how long texts are.

ghost use Rattle.std.specs.Prelude.{◌≡◌, IfOk, IsTrue, option_map, string_bytes};
ghost use Rattle.std.specs.Rc.{rc_str_bytes};
ghost use Rattle.history.specs.Read.{key_of, object_of};
ghost use Rattle.revstore.specs.Shared.{object_in};
ghost use Rattle.revstore.specs.Waiting.{is_key};

use crate::shared::SharedObject;
use history::{Key, Object};
use std::alloc::{AllocError, Global};
use std::rc::RcStr;

/// A copy of a key.
pub(crate) fn copy_of_key(key: &Key) -> Result<Key, AllocError>
    ensures { IfOk result (λ k. key_of k ≡ key_of key.now) }
{
    Ok(Key {
        kind: key.kind,
        namespace: key.namespace.clone()?,
        name: key.name.clone()?,
    })
}

/// A copy of the text of a change, or of none.
pub(crate) fn copy_of_text(
    alloc: Global,
    text: &Option<RcStr>,
) -> Result<Option<String>, AllocError>
    ensures { IfOk result (λ t. option_map string_bytes t ≡ option_map rc_str_bytes text.now) }
{
    match text {
        Some(text) => Ok(Some(String::from_str(alloc, text.as_str())?)),
        None => Ok(None),
    }
}

/// A copy of what stands under a key, or of nothing.
pub(crate) fn copy_of_object(
    alloc: Global,
    object: &Option<SharedObject>,
) -> Result<Option<Object>, AllocError>
    ensures { IfOk result (λ o. option_map object_of o ≡ option_map object_in object.now) }
{
    match object {
        Some(object) => Ok(Some(Object {
            revision: object.revision,
            body: String::from_str(alloc, object.body.as_str())?,
        })),
        None => Ok(None),
    }
}

/// Whether two keys are the same.
pub(crate) fn is_same_key(key: &Key, other: &Key) -> bool
    ensures same { IsTrue result → key_of key.now ≡ key_of other.now }
    ensures is { result ≡ is_key (key_of key.now) (key_of other.now) }
{
    key.kind == other.kind
        && key.namespace.as_str() == other.namespace.as_str()
        && key.name.as_str() == other.name.as_str()
}

/// How many bytes the texts of a key have.
pub(crate) fn bytes_of_key(key: &Key) -> usize {
    key.namespace.len().saturating_add(key.name.len())
}
