//! The object of one name in one namespace, looked up by its key: no other is read.

ghost use Rattle.std.specs.Prelude.{◌≡◌, ◌≤◌, Some, IfOk, map, option_map};
ghost use Rattle.std.specs.FinMap as fin;
ghost use Rattle.history.specs.Page.{is_past, listed};
ghost use Rattle.history.specs.Read.{entry_of, key_of, object_of};
ghost use Rattle.history.specs.View.{state_in};
ghost use Rattle.selector.specs.Fields.{AsksFor};
ghost use Rattle.lists.specs.Rows.{key_in, matching, row_at};
ghost use Rattle.lists.specs.Views.{collection_of, start_of};

use crate::collection::Selected;
use crate::rows::{Start, matching};
use history::{Entry, Key, Object};
use revstore::Store;
use revtable::Fault;
use std::alloc::{AllocError, Global};

/// What stands under a key at a revision.
fn object_at(store: &mut Store, key: &Key, revision: u64) -> Result<Option<Object>, Fault>
    requires low { store.old.compacted ≤ revision }
    requires high { revision ≤ store.old.current }
    ensures object { IfOk result (λ o. option_map object_of o ≡ fin.get (state_in store.old revision) (key_of key.now)) }
    ensures same { store.new ≡ store.old }
{
    if revision == store.current() {
        store.get(key)
    } else {
        store.before(key, revision + 1)
    }
}

/// Whether a key is among those that are read from a start on.
fn is_past(start: &Start, key: &Key) -> bool
    ensures { result ≡ is_past (start_of start.now) (key_of key.now) }
{
    match start {
        Start::First => true,
        Start::After(namespace, name) => key
            .namespace
            .as_str()
            .cmp(namespace.as_str())
            .then(key.name.as_str().cmp(name.as_str()))
            .is_gt(),
    }
}

/// The row of a key at a revision, where an object stands there and the key is past the start.
fn row_at(
    alloc: Global,
    store: &mut Store,
    key: Key,
    revision: u64,
    start: &Start,
) -> Result<Vec<Entry>, Fault>
    requires low { store.old.compacted ≤ revision }
    requires high { revision ≤ store.old.current }
    ensures row { IfOk result (λ v. map entry_of v.items ≡ row_at (start_of start.now) (state_in store.old revision) (key_of key)) }
    ensures same { store.new ≡ store.old }
{
    let mut rows = Vec::new(alloc);
    if !is_past(start, &key) {
        return Ok(rows);
    }
    if let Some(object) = object_at(store, &key, revision)? {
        rows.push(Entry { key, object })?;
    }
    Ok(rows)
}

/// The key of a name in a namespace.
fn key_in(alloc: Global, kind: u32, namespace: &str, name: &str) -> Result<Key, AllocError>
    ensures { IfOk result (λ k. key_of k ≡ key_in kind namespace.now name.now) }
{
    Ok(Key {
        kind,
        namespace: String::from_str(alloc, namespace)?,
        name: String::from_str(alloc, name)?,
    })
}

/// What is selected from a start on, where it has this name and this namespace.
pub(crate) fn found_named(
    alloc: Global,
    store: &mut Store,
    selected: Selected<'_>,
    namespace: &str,
    name: &str,
    start: &Start,
) -> Result<Vec<Entry>, Fault>
    requires low { store.old.compacted ≤ selected.revision }
    requires high { selected.revision ≤ store.old.current }
    requires named { AsksFor selected.selector.now name.now }
    ensures found { IfOk result (λ v. map entry_of v.items
        ≡ matching selected.entry.selector.now (listed (collection_of selected.entry.collection).kind (Some namespace.now) (start_of start.now) (state_in store.old selected.entry.revision))) }
    ensures same { store.new ≡ store.old }
{
    let key = key_in(alloc, selected.collection.kind, namespace, name)?;
    let rows = row_at(alloc, store, key, selected.revision, start)?;
    matching(alloc, selected.selector, rows)
}
