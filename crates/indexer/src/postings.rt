//! One index: its keys, and the objects under each. All indexes and the objects change together in `kept`.

ghost use Rattle.std.specs.Prelude.{◌≡◌, ◌↔◌, IfOk, true, ℕ, Bool, List, ◌&&◌, ◌||◌, not, map, length, ◌<◌, ◌≤◌, string_bytes, OnOk, OnErr, IfSome, option_copied};
ghost use Rattle.std.specs.Rc.{rc_str_bytes};
ghost use Rattle.std.specs.Str.{bytes_eq};
ghost use Rattle.indexer.specs.Keys.{is_same};
ghost use Rattle.std.specs.BTreeSet.{btree_set_len};
ghost use Rattle.std.specs.Cmp.Lexicographic.{slice_cmp};
ghost use Rattle.std.specs.List.{position};
ghost use Rattle.std.specs.List.Sorted.{IsStrictlySortedBy};
ghost use Rattle.std.specs.Ordering.{nat_cmp};
ghost use Rattle.indexer.specs.Objects.{is_among, texts_at, under_at, under_number};
ghost use Rattle.indexer.specs.Postings.{has_in, under, under_in};
ghost use Rattle.indexer.specs.declared.object.ObjectKey.{ObjectKey};

use crate::object::ObjectKey;
use crate::texts::Texts;
use std::alloc::{AllocError, Global};
use std::collections::{BTreeMap, BTreeSet};
use std::rc::RcStr;

pub(crate) type Postings = BTreeMap<RcStr, BTreeSet<ObjectKey>>;

/// Puts the object under one key of the index.
pub(crate) fn add(
    alloc: Global,
    postings: &mut Postings,
    text: &RcStr,
    key: &ObjectKey,
) -> Result<(), AllocError>
    ensures ok { OnOk result ((k : List ℕ) (q : ObjectKey) → under postings.new k q ≡ (under postings.old k q || (bytes_eq (rc_str_bytes text.now) k && is_same key.now q))) }
    ensures err { OnErr result ((k : List ℕ) (q : ObjectKey) → under postings.new k q ≡ under postings.old k q) }
{
    let copy = key.try_copy()?;
    match postings.get_mut(text.as_str()) {
        Some(keys) => {
            keys.insert(copy)?;
        }
        None => {
            let mut keys = BTreeSet::new(alloc);
            keys.insert(copy)?;
            postings.insert(text.clone()?, keys)?;
        }
    }
    Ok(())
}

/// Removes the object from one key of the index; a key that then has no objects is removed.
pub(crate) fn remove(postings: &mut Postings, text: &str, key: &ObjectKey)
    ensures { (k : List ℕ) (q : ObjectKey) → under postings.new k q ≡ (under postings.old k q && not (bytes_eq text.now k && is_same key.now q)) }
{
    let Some(keys) = postings.get_mut(text) else {
        return;
    };
    keys.remove(key);
    if keys.is_empty() {
        postings.remove(text);
    }
}

/// Puts the object under each of these keys that isn't one of those that it had. Refused, some of them may have
/// been added.
pub(crate) fn add_each(
    alloc: Global,
    postings: &mut Postings,
    texts: &[RcStr],
    had: &[RcStr],
    key: &ObjectKey,
) -> Result<(), AllocError>
    ensures ok { OnOk result ((k : List ℕ) (q : ObjectKey) → under postings.new k q ≡ (under postings.old k q || ((is_among (map rc_str_bytes texts.now) k && not (is_among (map rc_str_bytes had.now) k)) && is_same key.now q))) }
    ensures err { OnErr result ((k : List ℕ) (q : ObjectKey) → (part : Bool) × (under postings.new k q ≡ (under postings.old k q || (((is_among (map rc_str_bytes texts.now) k && not (is_among (map rc_str_bytes had.now) k)) && part) && is_same key.now q)))) }
{
    for text in texts {
        if !had.contains(text) {
            add(alloc, postings, text, key)?;
        }
    }
    Ok(())
}

/// Removes the object from each of these keys that isn't one of those to keep.
pub(crate) fn remove_each(postings: &mut Postings, texts: &[RcStr], kept: &[RcStr], key: &ObjectKey)
    ensures { (k : List ℕ) (q : ObjectKey) → under postings.new k q ≡ (under postings.old k q && not ((is_among (map rc_str_bytes texts.now) k && not (is_among (map rc_str_bytes kept.now) k)) && is_same key.now q)) }
{
    for text in texts {
        if !kept.contains(text) {
            remove(postings, text, key);
        }
    }
}

/// An object's keys in one index.
fn keys_at(keys: &[Texts], i: usize) -> &[RcStr]
    ensures { map rc_str_bytes result.now ≡ texts_at keys.now i }
{
    match keys.get(i) {
        Some(texts) => texts.as_slice(),
        None => &[],
    }
}

/// Makes postings of index number `i`, which is at most the next, unless they are there.
fn make_room(alloc: Global, postings: &mut Vec<Postings>, i: usize) -> Result<(), AllocError>
    requires { i ≤ length postings.old.items }
    ensures room { OnOk result (i < length postings.new.items) }
    ensures same { (j : ℕ) (k : List ℕ) (q : ObjectKey) → under_at postings.new.items j k q ≡ under_at postings.old.items j k q }
{
    if i == postings.len() {
        postings.push(BTreeMap::new(alloc))?;
    }
    Ok(())
}

/// Puts the object under its keys in each index, but for those that it had; an index that has none yet begins
/// empty. Refused, some may have been added.
pub(crate) fn add_all(
    alloc: Global,
    postings: &mut Vec<Postings>,
    keys: &[Texts],
    had: &[Texts],
    key: &ObjectKey,
) -> Result<(), AllocError>
    ensures ok { OnOk result ((i : ℕ) (k : List ℕ) (q : ObjectKey) → under_at postings.new.items i k q ≡ (under_at postings.old.items i k q || ((is_among (texts_at keys.now i) k && not (is_among (texts_at had.now i) k)) && is_same key.now q))) }
    ensures err { OnErr result ((i : ℕ) (k : List ℕ) (q : ObjectKey) → (part : Bool) × (under_at postings.new.items i k q ≡ (under_at postings.old.items i k q || (((is_among (texts_at keys.now i) k && not (is_among (texts_at had.now i) k)) && part) && is_same key.now q)))) }
{
    for (i, texts) in keys.iter().enumerate() {
        make_room(alloc, postings, i)?;
        add_each(
            alloc,
            &mut postings[i],
            texts.as_slice(),
            keys_at(had, i),
            key,
        )?;
    }
    Ok(())
}

/// Removes the object from its keys in each index, but for those to keep.
pub(crate) fn remove_all(
    postings: &mut Vec<Postings>,
    keys: &[Texts],
    kept: &[Texts],
    key: &ObjectKey,
)
    ensures { (i : ℕ) (k : List ℕ) (q : ObjectKey) → under_at postings.new.items i k q ≡ (under_at postings.old.items i k q && not ((is_among (texts_at keys.now i) k && not (is_among (texts_at kept.now i) k)) && is_same key.now q)) }
{
    for i in 0..postings.len() {
        remove_each(&mut postings[i], keys_at(keys, i), keys_at(kept, i), key);
    }
}

fn number_of(names: &[String], name: &str) -> Option<usize>
    ensures { result ≡ position (λ n. bytes_eq n name.now) (map string_bytes names.now) }
{
    names.iter().position(|known| known.as_str() == name)
}

/// The postings of the index of this name.
fn postings_of<'a>(names: &[String], postings: &'a [Postings], name: &str) -> Option<&'a Postings>
    ensures { (k : List ℕ) (q : ObjectKey) → under_in (option_copied result) k q ≡ under_number postings.now (position (λ n. bytes_eq n name.now) (map string_bytes names.now)) k q }
{
    match number_of(names, name) {
        Some(i) => postings.get(i),
        None => None,
    }
}

/// The objects under a key of the index of this name, if there are some.
pub(crate) fn objects_under<'a>(
    names: &[String],
    postings: &'a [Postings],
    name: &str,
    text: &str,
) -> Option<&'a BTreeSet<ObjectKey>>
    ensures members { (q : ObjectKey) → has_in (option_copied result) q ≡ under_number postings.now (position (λ n. bytes_eq n name.now) (map string_bytes names.now)) text.now q }
    ensures some { IfSome result (λ keys. 0 < btree_set_len keys.now) }
{
    let postings = postings_of(names, postings, name)?;
    match postings.get(text) {
        Some(keys) if !keys.is_empty() => Some(keys),
        _ => None,
    }
}

/// The keys of the index of this name that have objects, in order of their bytes.
pub(crate) fn texts_in<'a>(
    alloc: Global,
    names: &[String],
    postings: &'a [Postings],
    name: &str,
) -> Result<Vec<&'a str>, AllocError>
    ensures members { IfOk result (λ v. (k : List ℕ) → (is_among (map (λ t. t.now) v.items) k ≡ true) ↔ ((q : ObjectKey) × (under_number postings.now (position (λ n. bytes_eq n name.now) (map string_bytes names.now)) k q ≡ true))) }
    ensures ascending { IfOk result (λ v. IsStrictlySortedBy (slice_cmp nat_cmp) (map (λ t. t.now) v.items)) }
{
    match postings_of(names, postings, name) {
        Some(postings) => texts_of_one(alloc, postings),
        None => Ok(Vec::new(alloc)),
    }
}

fn texts_of_one(alloc: Global, postings: &Postings) -> Result<Vec<&str>, AllocError>
    ensures members { IfOk result (λ v. (k : List ℕ) → (is_among (map (λ t. t.now) v.items) k ≡ true) ↔ ((q : ObjectKey) × (under postings.now k q ≡ true))) }
    ensures ascending { IfOk result (λ v. IsStrictlySortedBy (slice_cmp nat_cmp) (map (λ t. t.now) v.items)) }
{
    let mut texts = Vec::new(alloc);
    for (text, keys) in postings.iter() {
        if !keys.is_empty() {
            texts.push(text.as_str())?;
        }
    }
    Ok(texts)
}
