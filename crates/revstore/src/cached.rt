//! What is held of the objects that stand: those that were written or read last, in a table of a fixed size, in which many
//! keys share a slot. A slot holds what stands under one of them at most, and shares its key and its text with the latest changes.

ghost use Rattle.std.specs.Prelude.{◌≡◌, ℕ, suc, IfOk, IfSome, List, Option, option_map};
ghost use Rattle.std.specs.FinMap as fin;
ghost use Rattle.std.specs.Rc.{rc_str_bytes};
ghost use Rattle.history.specs.History.{History, IsRising, left_by, object_by, current_objects, written};
ghost use Rattle.history.specs.Read.{key_of, object_of};
ghost use Rattle.revstore.specs.CachedObject.{AreCached, AreIn, IsCurrent, slot_of, sum_of};
ghost use Rattle.revstore.specs.ChangeWindow.{IsBeforeNext, change_in};
ghost use Rattle.revstore.specs.Shared.{object_in};

use crate::copies::{copy_of_object, is_same_key};
use crate::shared::{SharedObject, same_object, shared_key, shared_text};
use crate::window::Latest;
use history::{Key, Object};
use revtable::Fault;
use std::alloc::{AllocError, Global};
use std::rc::{Rc, RcStr};

/// How many slots there are.
const SLOTS: usize = 64;

/// An object with a longer text is not held: with all slots full the texts have 1 MiB.
const MOST_CACHED: usize = 16384;

/// What stands under a key, or that nothing does.
#[derive(Drop)]
pub(crate) struct CachedObject {
    pub(crate) key: Rc<Key>,
    pub(crate) object: Option<SharedObject>,
}

/// All slots.
#[derive(Drop)]
pub(crate) struct ObjectCache {
    all: Vec<Option<CachedObject>>,
}

/// The sum of a text's bytes, each weighed by its place. It only spreads keys over slots: by 37 the states of numbered names
/// hardly share one, by 31 half of them do.
fn sum_of(start: u32, text: &str) -> u32
    ensures { result ≡ sum_of start text.now }
{
    let mut sum = start;
    for byte in text.as_bytes() {
        sum = sum.wrapping_mul(37).wrapping_add(*byte as u32);
    }
    sum
}

/// The number of the slot that a key has.
fn slot_of(key: &Key) -> usize
    ensures { result ≡ slot_of (key_of key.now) }
{
    let sum = sum_of(sum_of(key.kind, key.namespace.as_str()), key.name.as_str());
    sum as usize % SLOTS
}

/// Slots with nothing in them.
fn empty_slots(alloc: Global) -> Result<Vec<Option<CachedObject>>, AllocError>
    ensures { (h : History) → IfOk result (λ v. AreCached h v.items) }
{
    let mut slots = Vec::new(alloc);
    for _ in 0..SLOTS {
        slots.push(None)?;
    }
    Ok(slots)
}

/// What a slot holds of a key.
fn cached_in<'a>(slots: &'a [Option<CachedObject>], key: &Key) -> Option<&'a CachedObject>
    ensures key { IfSome result (λ cached. key_of cached.now.key.value ≡ key_of key.now) }
    ensures current { (h : History) → AreCached h slots.now → IfSome result (λ cached. IsCurrent h cached.now) }
{
    let Some(slot) = slots.get(slot_of(key)) else {
        return None;
    };
    match slot {
        Some(cached) => {
            if is_same_key(&cached.key, key) {
                Some(cached)
            } else {
                None
            }
        }
        None => None,
    }
}

/// Whether the text of an object is too long to be held.
fn is_long(object: &Option<SharedObject>) -> bool {
    match object {
        Some(object) => object.body.len() > MOST_CACHED,
        None => false,
    }
}

/// What is to be held, if its text is not too long.
fn short(cached: CachedObject) -> Option<CachedObject>
    ensures { IfSome result (λ x. x ≡ cached) }
{
    if is_long(&cached.object) {
        None
    } else {
        Some(cached)
    }
}

/// Puts this in the slot of its key, if its text is not too long; else nothing.
fn put_in(slots: &mut [Option<CachedObject>], cached: CachedObject)
    ensures same { (h : History) → AreCached h slots.old → IsCurrent h cached → AreCached h slots.new }
    ensures next { (h : History) (body : Option (List ℕ)) → IsRising 0 h.changes h.current → AreCached h slots.old → option_map object_in cached.object ≡ object_by (suc h.current) body
        → AreCached (written h (key_of cached.key.value) body) slots.new }
{
    let at = slot_of(&cached.key);
    if slots.len() <= at {
        return;
    }
    slots[at] = short(cached);
}

// ---- of a store, which has slots or none

/// What is held of a key.
fn cached_of<'a>(slots: &'a Option<ObjectCache>, key: &Key) -> Option<&'a CachedObject>
    ensures key { IfSome result (λ cached. key_of cached.now.key.value ≡ key_of key.now) }
    ensures current { (h : History) → IfSome slots.now (AreIn h) → IfSome result (λ cached. IsCurrent h cached.now) }
{
    match slots {
        Some(slots) => cached_in(&slots.all, key),
        None => None,
    }
}

/// What stands under a key, where that is held.
pub(crate) fn known_now(
    slots: &Option<ObjectCache>,
    key: &Key,
) -> Result<Option<Option<Object>>, Fault>
    ensures { (h : History) → IfSome slots.now (AreIn h)
        → IfOk result (λ known. IfSome known (λ o. option_map object_of o ≡ fin.get (current_objects h) (key_of key.now))) }
{
    match cached_of(slots, key) {
        Some(cached) => {
            let copy = copy_of_object(*key.namespace.allocator(), &cached.object)?;
            Ok(Some(copy))
        }
        None => Ok(None),
    }
}

/// The change that a write of this revision makes where this stands.
fn change_after(
    cached: &CachedObject,
    revision: u64,
    body: Option<RcStr>,
) -> Result<Latest, AllocError>
    ensures change { IfOk result (λ l. change_in l ≡ record { revision = revision; key = key_of cached.now.key.value; body = option_map rc_str_bytes body }) }
    ensures before { (h : History) → IsCurrent h cached.now → IfOk result (IsBeforeNext h) }
{
    Ok(Latest {
        revision,
        key: cached.key.clone()?,
        body,
        before: Some(same_object(&cached.object)?),
    })
}

/// The change that a write of this revision makes, with what stood under its key, where that is held.
pub(crate) fn next_change(
    slots: &Option<ObjectCache>,
    revision: u64,
    key: &Key,
    body: Option<&str>,
) -> Result<Latest, Fault>
    ensures change { IfOk result (λ l. change_in l ≡ record { revision = revision; key = key_of key.now; body = option_map (λ b. b.now) body.entry }) }
    ensures before { (h : History) → IfSome slots.now (AreIn h) → IfOk result (IsBeforeNext h) }
{
    let body = shared_text(*key.namespace.allocator(), body)?;
    match cached_of(slots, key) {
        Some(cached) => Ok(change_after(cached, revision, body)?),
        None => Ok(Latest {
            revision,
            key: shared_key(key)?,
            body,
            before: None,
        }),
    }
}

/// What a change leaves under its key.
pub(crate) fn cached_by(change: &Latest) -> Result<CachedObject, Fault>
    ensures key { IfOk result (λ cached. key_of cached.key.value ≡ key_of change.now.key.value) }
    ensures object { IfOk result (λ cached. option_map object_in cached.object ≡ left_by (change_in change.now)) }
{
    Ok(CachedObject {
        key: change.key.clone()?,
        object: change.left()?,
    })
}

/// The slots once what stands under a key is put in its slot. There are none, where there is no memory for them.
pub(crate) fn with_read(
    slots: Option<ObjectCache>,
    key: &Key,
    object: Option<SharedObject>,
) -> Option<ObjectCache>
    ensures { (h : History) → IfSome slots (AreIn h) → option_map object_in object ≡ fin.get (current_objects h) (key_of key.now) → IfSome result (AreIn h) }
{
    let mut all = match slots {
        Some(slots) => slots.all,
        None => {
            let Ok(all) = empty_slots(*key.namespace.allocator()) else {
                return None;
            };
            all
        }
    };
    let Ok(key) = shared_key(key) else {
        return None;
    };
    put_in(&mut all, CachedObject { key, object });
    Some(ObjectCache { all })
}

/// Puts what a write of the next revision leaves in the slot of its key.
pub(crate) fn put_written(slots: &mut Option<ObjectCache>, left: CachedObject)
    ensures { (h : History) (body : Option (List ℕ)) → IsRising 0 h.changes h.current → IfSome slots.old (AreIn h) → option_map object_in left.object ≡ object_by (suc h.current) body
        → IfSome slots.new (AreIn (written h (key_of left.key.value) body)) }
{
    if let Some(slots) = slots {
        put_in(&mut slots.all, left);
    }
}
