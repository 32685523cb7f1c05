//! The objects and the postings of every index, changed together. One index stands in `postings`.

ghost use Rattle.std.specs.Prelude.{◌≡◌, ◌+◌, ◌≤◌, true, ℕ, List, [], cond, length, map, IfOk, OnOk, OnErr, option_map, vec_capacity, vec_len};
ghost use Rattle.std.specs.BTreeMap.{get};
ghost use Rattle.std.specs.FinMap as fin;
ghost use Rattle.indexer.specs.Keys.{key_cmp, is_same};
ghost use Rattle.indexer.specs.Kept.{indexed_objects_in, seen_of, has_key, objects_in, HoldsPostings};
ghost use Rattle.indexer.specs.Objects.{place_of, place_of_object, shared_of, texts_of, texts_at, is_among, under_at};
ghost use Rattle.indexer.specs.declared.object.ObjectKey.{ObjectKey};

use crate::entry::Entry;
use crate::object::{Object, ObjectKey};
use crate::postings::{Postings, add_all, remove_all};
use crate::texts::{Texts, shared_by_each};
use std::alloc::{AllocError, Global};
use std::collections::{BTreeMap, btree_map};
use std::rc::Rc;

/// Moves the object from the keys that it had to these.
fn move_to(
    alloc: Global,
    postings: &mut Vec<Postings>,
    had: &[Texts],
    keys: &[Texts],
    key: &ObjectKey,
) -> Result<(), AllocError>
    requires { (i : ℕ) (k : List ℕ) (q : ObjectKey) → is_same key.now q ≡ true → under_at postings.old.items i k q ≡ is_among (texts_at had.now i) k }
    ensures ok { OnOk result ((i : ℕ) (k : List ℕ) (q : ObjectKey) → under_at postings.new.items i k q ≡ cond (is_same key.now q) (is_among (texts_at keys.now i) k) (under_at postings.old.items i k q)) }
    ensures err { OnErr result ((i : ℕ) (k : List ℕ) (q : ObjectKey) → under_at postings.new.items i k q ≡ under_at postings.old.items i k q) }
{
    if let Err(refused) = add_all(alloc, postings, keys, had, key) {
        remove_all(postings, keys, had, key);
        return Err(refused);
    }
    remove_all(postings, had, keys, key);
    Ok(())
}

/// Keeps the object under these keys, in place of what was kept where it stands, which is returned.
pub(crate) fn put(
    alloc: Global,
    objects: &mut BTreeMap<ObjectKey, Entry>,
    postings: &mut Vec<Postings>,
    object: Rc<Object>,
    keys: Vec<Vec<String>>,
) -> Result<Option<Entry>, AllocError>
    requires { HoldsPostings objects.old postings.old.items }
    ensures holds { HoldsPostings objects.new postings.new.items }
    ensures ok { OnOk result (indexed_objects_in objects.new ≡ fin.insert (indexed_objects_in objects.old) (place_of_object object.value) (shared_of object, texts_of keys.items)) }
    ensures was { IfOk result (λ o. option_map seen_of o ≡ fin.get (indexed_objects_in objects.old) (place_of_object object.value)) }
    ensures err { OnErr result (indexed_objects_in objects.new ≡ indexed_objects_in objects.old) }
{
    let kept = shared_by_each(alloc, postings.as_slice(), keys)?;
    match objects.entry(ObjectKey::of(object.as_ref())?)? {
        btree_map::Entry::Occupied(mut held) => {
            move_to(alloc, postings, &held.get().keys, &kept, held.key())?;
            Ok(Some(held.insert(Entry { object, keys: kept })))
        }
        btree_map::Entry::Vacant(room) => {
            let held = room.insert_entry(Entry { object, keys: kept });
            if let Err(refused) = move_to(alloc, postings, &[], &held.get().keys, held.key()) {
                held.remove();
                return Err(refused);
            }
            Ok(None)
        }
    }
}

/// Keeps no object at the key; what was kept is returned.
pub(crate) fn remove(
    objects: &mut BTreeMap<ObjectKey, Entry>,
    postings: &mut Vec<Postings>,
    key: &ObjectKey,
) -> Option<Entry>
    requires { HoldsPostings objects.old postings.old.items }
    ensures holds { HoldsPostings objects.new postings.new.items }
    ensures removed { indexed_objects_in objects.new ≡ fin.remove (indexed_objects_in objects.old) (place_of key.now) }
    ensures was { option_map seen_of result ≡ fin.get (indexed_objects_in objects.old) (place_of key.now) }
{
    let was = objects.remove(key);
    if let Some(entry) = &was {
        remove_all(postings, &entry.keys, &[], key);
    }
    was
}

/// The object at the key.
pub(crate) fn object_at<'a>(
    objects: &'a BTreeMap<ObjectKey, Entry>,
    key: &ObjectKey,
) -> Option<&'a Rc<Object>>
    ensures { option_map (λ o. shared_of o.now) result ≡ option_map (λ h. h.0) (fin.get (indexed_objects_in objects.now) (place_of key.now)) }
{
    match objects.get(key) {
        Some(entry) => Some(&entry.object),
        None => None,
    }
}

/// The objects, each beside its key, in order of keys.
pub(crate) fn all_of(
    alloc: Global,
    objects: &BTreeMap<ObjectKey, Entry>,
) -> Result<Vec<(&ObjectKey, &Rc<Object>)>, AllocError>
    ensures { IfOk result (λ v. map (λ e. (place_of e.0.now, shared_of e.1.now)) v.items ≡ objects_in (indexed_objects_in objects.now)) }
{
    let mut all = Vec::with_capacity(alloc, objects.len())?;
    for (key, entry) in objects.iter() {
        all.push((key, &entry.object))?;
    }
    Ok(all)
}

/// Room for as many objects as there are, each beside its key.
pub(crate) fn room_for(
    alloc: Global,
    objects: &BTreeMap<ObjectKey, Entry>,
) -> Result<Vec<(ObjectKey, Rc<Object>)>, AllocError>
    ensures none { IfOk result (λ v. v.items ≡ []) }
    ensures room { IfOk result (λ v. vec_len v + length objects.now.entries ≤ vec_capacity v) }
{
    Vec::with_capacity(alloc, objects.len())
}

/// The objects, each beside its key, in order of keys, in the room that was made for them.
pub(crate) fn handed_out(
    objects: BTreeMap<ObjectKey, Entry>,
    room: Vec<(ObjectKey, Rc<Object>)>,
) -> Vec<(ObjectKey, Rc<Object>)>
    requires none { room.items ≡ [] }
    requires room { vec_len room + length objects.entries ≤ vec_capacity room }
    ensures { map (λ e. (place_of e.0, shared_of e.1)) result.items ≡ objects_in (indexed_objects_in objects) }
{
    let mut all = room;
    for (key, entry) in objects {
        all.push_reserved((key, entry.object));
    }
    all
}
