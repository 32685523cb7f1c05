//! Copies of indexes, for reports: their keys of objects share the texts. The objects are shared in `reporting`.

ghost use Rattle.std.specs.Prelude.{◌≡◌, ◌&&◌, ℕ, List, IfOk, map, string_bytes};
ghost use Rattle.std.specs.List.{All, AllByRecursion, list_any};
ghost use Rattle.std.specs.List.Sorted.{IsStrictlySortedBy};
ghost use Rattle.std.specs.Ordering.{eq_by_cmp};
ghost use Rattle.indexer.specs.Indexer.{indexed_objects_of, is_under, names_of};
ghost use Rattle.indexer.specs.Objects.{is_among, place_cmp, place_of};
ghost use Rattle.indexer.specs.declared.object.ObjectKey.{ObjectKey};
ghost use Rattle.world.specs.Shots.{IsCopied, ShowsIndex, is_listed, key_seen};

use crate::trace::IndexShot;
use indexer::{IndexBy, Indexer, ObjectKey};
use std::alloc::{AllocError, Global};
use std::collections::BTreeSet;

/// The same key once more. No text is copied.
fn copied(key: &ObjectKey) -> Result<ObjectKey, AllocError>
    ensures { IfOk result (λ k. place_of k ≡ place_of key.now) }
{
    let namespace = key.namespace.clone()?;
    let name = key.name.clone()?;
    Ok(ObjectKey { namespace, name })
}

fn copies(alloc: Global, keys: &BTreeSet<ObjectKey>) -> Result<Vec<ObjectKey>, AllocError>
    ensures places { IfOk result (λ v. map place_of v.items ≡ map place_of keys.now.keys) }
    ensures ascending { IfOk result (λ v. IsStrictlySortedBy place_cmp (map place_of v.items)) }
{
    let mut all = Vec::with_capacity(alloc, keys.len())?;
    for key in keys {
        all.push(copied(key)?)?;
    }
    Ok(all)
}

/// The keys of the objects under a key of the index of this name.
fn listed_under<I: IndexBy>(
    alloc: Global,
    indexer: &Indexer<I>,
    name: &str,
    text: &str,
) -> Result<Vec<ObjectKey>, AllocError>
    ensures members { IfOk result (λ v. (q : ObjectKey) → list_any (eq_by_cmp place_cmp (place_of q)) (map place_of v.items) ≡ is_under (indexed_objects_of indexer.now) (names_of indexer.now) name.now text.now (place_of q)) }
    ensures ascending { IfOk result (λ v. IsStrictlySortedBy place_cmp (map place_of v.items)) }
{
    match indexer.by_index(name, text) {
        Some(keys) => copies(alloc, keys),
        None => Ok(Vec::new(alloc)),
    }
}

/// These keys of the index of this name, and under each the keys of its objects.
fn listed<I: IndexBy>(
    alloc: Global,
    indexer: &Indexer<I>,
    name: &str,
    texts: &[&str],
) -> Result<Vec<(String, Vec<ObjectKey>)>, AllocError>
    ensures members { IfOk result (λ v. (key : List ℕ) (q : ObjectKey) → is_listed key (place_of q) (map key_seen v.items) ≡ (is_among (map (λ t. t.now) texts.now) key && is_under (indexed_objects_of indexer.now) (names_of indexer.now) name.now key (place_of q))) }
    ensures keys { IfOk result (λ v. map (λ e. string_bytes e.0) v.items ≡ map (λ t. t.now) texts.now) }
    ensures copied { IfOk result (λ v. AllByRecursion (IsCopied (indexed_objects_of indexer.now) (names_of indexer.now) name.now) v.items) }
{
    let mut keys = Vec::with_capacity(alloc, texts.len())?;
    for text in texts {
        let objects = listed_under(alloc, indexer, name, text)?;
        let key = String::from_str(alloc, text)?;
        keys.push((key, objects))?;
    }
    Ok(keys)
}

/// A copy of the index of this name.
fn shot_of<I: IndexBy>(
    alloc: Global,
    indexer: &Indexer<I>,
    name: &str,
) -> Result<IndexShot, AllocError>
    ensures named { IfOk result (λ s. string_bytes s.name ≡ name.now) }
    ensures shows { IfOk result (ShowsIndex (indexed_objects_of indexer.now) (names_of indexer.now)) }
{
    let texts = indexer.keys(name)?;
    let keys = listed(alloc, indexer, name, &texts)?;
    let name = String::from_str(alloc, name)?;
    Ok(IndexShot { name, keys })
}

/// Copies of all indexes.
pub(crate) fn shots<I: IndexBy>(
    alloc: Global,
    indexer: &Indexer<I>,
) -> Result<Vec<IndexShot>, AllocError>
    ensures named { IfOk result (λ v. map (λ s. string_bytes s.name) v.items ≡ names_of indexer.now) }
    ensures show { IfOk result (λ v. All (ShowsIndex (indexed_objects_of indexer.now) (names_of indexer.now)) v.items) }
{
    let names = indexer.index_names();
    let mut all = Vec::with_capacity(alloc, names.len())?;
    for name in names {
        all.push(shot_of(alloc, indexer, name.as_str())?)?;
    }
    Ok(all)
}
