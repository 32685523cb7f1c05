//! What a watch sees of a change: an object added, modified or deleted, or nothing. Changes are read in `batches`.

ghost use Rattle.std.specs.Prelude.{◌≡◌, ◌-◌, ◌<◌, ◌≤◌, ◌++◌, [], None, IfOk, OnOk, map, option_map, string_bytes};
ghost use Rattle.history.specs.Read.{change_of, key_of, object_of};
ghost use Rattle.history.specs.Seen.{reached, seen_by};
ghost use Rattle.history.specs.View.{state_in};
ghost use Rattle.watchline.specs.BatchViews.{AreBetween, body_if_selected, kind_of_put, seen_each, seen_by_labels};
ghost use Rattle.watchline.specs.Views.{seen_change_of, kind_seen, seen_list};

use history::{Change, Key, Object};
use lists::LabelCache;
use revstore::Store;
use revtable::Fault;
use selector::Selector;

#[derive(Clone, Copy, Debug, PartialEq, Eq)]
pub(crate) enum SeenKind {
    Added,
    Modified,
    Deleted,
}

/// A change as a watch sees it: the object is what stands after it, and of a deletion what stood before it, at the
/// change's revision.
#[derive(Debug, Drop)]
pub(crate) struct Seen {
    pub(crate) kind: SeenKind,
    pub(crate) key: Key,
    pub(crate) object: Object,
}

fn seen_as(kind: SeenKind, key: Key, revision: u64, body: String) -> Seen
    ensures { seen_change_of result ≡ record { kind = kind_seen kind; key = key_of key; object = record { revision = revision; body = string_bytes body } } }
{
    Seen {
        kind,
        key,
        object: Object { revision, body },
    }
}

/// By the bodies before and after the change, where they are selected.
fn seen_by(revision: u64, key: Key, before: Option<String>, after: Option<String>) -> Option<Seen>
    ensures { seen_list result ≡ seen_by revision (key_of key) (option_map string_bytes before) (option_map string_bytes after) }
{
    match before {
        None => match after {
            None => None,
            Some(after) => Some(seen_as(SeenKind::Added, key, revision, after)),
        },
        Some(before) => match after {
            None => Some(seen_as(SeenKind::Deleted, key, revision, before)),
            Some(after) => Some(seen_as(SeenKind::Modified, key, revision, after)),
        },
    }
}

/// The body of an object, where it is selected.
fn body_if_selected(
    labels: &mut LabelCache,
    selector: &Selector,
    key: &Key,
    object: Option<Object>,
) -> Result<Option<String>, Fault>
    ensures { IfOk result (λ o. option_map string_bytes o ≡ body_if_selected selector.now (key_of key.now) (option_map (λ o. o.body) (option_map object_of object))) }
{
    let Some(object) = object else {
        return Ok(None);
    };
    if labels.is_selected(selector, key, object.revision, object.body.as_str())? {
        Ok(Some(object.body))
    } else {
        Ok(None)
    }
}

/// What stands after a change of this revision.
fn object_after(revision: u64, body: Option<String>) -> Option<Object>
    ensures { option_map (λ o. o.body) (option_map object_of result) ≡ option_map string_bytes body }
{
    match body {
        Some(body) => Some(Object { revision, body }),
        None => None,
    }
}

/// What is seen of a change by the texts before and after it, each where it is selected.
fn seen_by_texts(
    labels: &mut LabelCache,
    store: &mut Store,
    selector: &Selector,
    change: Change,
) -> Result<Option<Seen>, Fault>
    requires above { store.old.compacted < change.revision }
    requires known { change.revision ≤ store.old.current }
    ensures seen { IfOk result (λ o. seen_list o ≡ seen_by_labels selector.now (state_in store.old (change.revision - 1)) (change_of change)) }
    ensures same { store.new ≡ store.old }
{
    let Change {
        revision,
        key,
        body,
    } = change;
    let stood = store.before(&key, revision)?;
    let before = body_if_selected(labels, selector, &key, stood)?;
    let stands = object_after(revision, body);
    let after = body_if_selected(labels, selector, &key, stands)?;
    Ok(seen_by(revision, key, before, after))
}

/// How a change that leaves an object is seen, by whether one stood before.
fn kind_of_put(stood: bool) -> SeenKind
    ensures { kind_seen result ≡ kind_of_put stood }
{
    if stood {
        SeenKind::Modified
    } else {
        SeenKind::Added
    }
}

/// A deletion as it is seen, by what stood before.
fn seen_deletion(revision: u64, key: Key, deleted: Option<Object>) -> Option<Seen>
    ensures { seen_list result ≡ seen_by revision (key_of key) (option_map (λ o. o.body) (option_map object_of deleted)) None }
{
    match deleted {
        Some(object) => Some(seen_as(SeenKind::Deleted, key, revision, object.body)),
        None => None,
    }
}

/// What is seen of a change where the object is selected, whatever its text: of what stood before the text is asked only for a deletion.
fn seen_in_all(store: &mut Store, change: Change) -> Result<Option<Seen>, Fault>
    requires above { store.old.compacted < change.revision }
    requires known { change.revision ≤ store.old.current }
    ensures seen { IfOk result (λ o. seen_list o ≡ seen_by_labels [] (state_in store.old (change.revision - 1)) (change_of change)) }
    ensures same { store.new ≡ store.old }
{
    let Change {
        revision,
        key,
        body,
    } = change;
    match body {
        Some(after) => {
            let stood = store.stood_before(&key, revision)?;
            Ok(Some(seen_as(kind_of_put(stood), key, revision, after)))
        }
        None => {
            let deleted = store.before(&key, revision)?;
            Ok(seen_deletion(revision, key, deleted))
        }
    }
}

/// What is seen of a change of the type and namespace, if anything.
fn seen_of(
    labels: &mut LabelCache,
    store: &mut Store,
    selector: &Selector,
    change: Change,
) -> Result<Option<Seen>, Fault>
    requires above { store.old.compacted < change.revision }
    requires known { change.revision ≤ store.old.current }
    ensures seen { IfOk result (λ o. seen_list o ≡ seen_by_labels selector.now (state_in store.old (change.revision - 1)) (change_of change)) }
    ensures same { store.new ≡ store.old }
{
    match selector.decided_by_name(change.key.name.as_str()) {
        Some(true) => seen_in_all(store, change),
        Some(false) => Ok(None),
        None => seen_by_texts(labels, store, selector, change),
    }
}

/// Keeps what is seen of a change.
fn push_seen(
    labels: &mut LabelCache,
    store: &mut Store,
    selector: &Selector,
    found: &mut Vec<Seen>,
    change: Change,
) -> Result<(), Fault>
    requires above { store.old.compacted < change.revision }
    requires known { change.revision ≤ store.old.current }
    ensures found { OnOk result (map seen_change_of found.new.items
        ≡ map seen_change_of found.old.items ++ seen_by_labels selector.now (state_in store.old (change.revision - 1)) (change_of change)) }
    ensures same { store.new ≡ store.old }
{
    let Some(seen) = seen_of(labels, store, selector, change)? else {
        return Ok(());
    };
    found.push(seen)?;
    Ok(())
}

/// What is seen of these changes of the type and namespace, one after the other.
pub(crate) fn seen_each(
    labels: &mut LabelCache,
    store: &mut Store,
    selector: &Selector,
    changes: Vec<Change>,
) -> Result<Vec<Seen>, Fault>
    requires between { AreBetween store.old.compacted store.old.current (map change_of changes.items) }
    ensures seen { IfOk result (λ v. map seen_change_of v.items ≡ seen_each selector.now store.old (map change_of changes.items)) }
    ensures same { store.new ≡ store.old }
{
    let mut found = Vec::new(labels.allocator());
    for change in changes {
        push_seen(labels, store, selector, &mut found, change)?;
    }
    Ok(found)
}

/// The revision of the last of these, or `from` where there is none.
pub(crate) fn reached(from: u64, changes: &[Seen]) -> u64
    ensures { result ≡ reached from (map seen_change_of changes.now) }
{
    match changes.last() {
        Some(last) => last.object.revision,
        None => from,
    }
}
