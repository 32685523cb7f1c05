//! Keys and texts that several owners share: a change, what stood before it, and what is held of its key. Each clone is one
//! more owner, and copies no text.

ghost use Rattle.std.specs.Prelude.{◌≡◌, IfOk, option_map};
ghost use Rattle.std.specs.Rc.{rc_str_bytes};
ghost use Rattle.history.specs.Read.{key_of, object_of};
ghost use Rattle.revstore.specs.Shared.{object_in};

use crate::copies::copy_of_key;
use history::{Key, Object};
use std::alloc::{AllocError, Global};
use std::rc::{Rc, RcStr};

/// What stands under a key: the revision of the key's last change, and the text of that.
#[derive(Drop)]
pub(crate) struct SharedObject {
    pub(crate) revision: u64,
    pub(crate) body: RcStr,
}

/// A copy of a key, to be shared.
pub(crate) fn shared_key(key: &Key) -> Result<Rc<Key>, AllocError>
    ensures { IfOk result (λ k. key_of k.value ≡ key_of key.now) }
{
    let copy = copy_of_key(key)?;
    Ok(Rc::new(*key.namespace.allocator(), copy)?)
}

/// A copy of what a write gives a key, or of nothing, to be shared.
pub(crate) fn shared_text(alloc: Global, body: Option<&str>) -> Result<Option<RcStr>, AllocError>
    ensures { IfOk result (λ t. option_map rc_str_bytes t ≡ option_map (λ b. b.now) body.entry) }
{
    match body {
        Some(body) => Ok(Some(RcStr::from_str(alloc, body)?)),
        None => Ok(None),
    }
}

/// What stands under a key, or nothing, to be shared.
pub(crate) fn shared_object(object: Option<Object>) -> Result<Option<SharedObject>, AllocError>
    ensures { IfOk result (λ o. option_map object_in o ≡ option_map object_of object) }
{
    match object {
        Some(object) => Ok(Some(SharedObject {
            revision: object.revision,
            body: RcStr::from_string(object.body)?,
        })),
        None => Ok(None),
    }
}

/// The same once more.
pub(crate) fn same_object(object: &Option<SharedObject>) -> Result<Option<SharedObject>, AllocError>
    ensures { IfOk result (λ o. option_map object_in o ≡ option_map object_in object.now) }
{
    match object {
        Some(object) => Ok(Some(SharedObject {
            revision: object.revision,
            body: object.body.clone()?,
        })),
        None => Ok(None),
    }
}
