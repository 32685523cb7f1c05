//! The changes after a revision, a few at a time. What a watch sees of one stands in `seen`.

ghost use Rattle.std.specs.Prelude.{◌≡◌, ◌<◌, ◌≤◌, ◌++◌, IfOk, map, option_map, string_bytes, take};
ghost use Rattle.std.specs.Prelude as prelude;
ghost use Rattle.history.specs.History.{later};
ghost use Rattle.history.specs.Page.{changes_within};
ghost use Rattle.history.specs.Seen.{seen_in};
ghost use Rattle.history.specs.View.{IsView};
ghost use Rattle.lists.specs.Labels.{selection_of};
ghost use Rattle.history.specs.Read.{change_of};
ghost use Rattle.watchline.specs.BatchViews.{AreBetween, IsNotBelow, changes_past, revision_of_last, to_read};
ghost use Rattle.watchline.specs.Views.{seen_change_of};

use crate::cursor::WatchScope;
use crate::seen::{Seen, seen_each};
use history::Change;
use lists::LabelCache;
use revstore::{ChangesFault, Store};
use revtable::Fault;

/// How many changes are read at once at most.
const MAX_CHANGES: usize = 500;

/// The revision of the last of these.
fn revision_of_last(changes: &[Change]) -> Option<u64>
    ensures { result ≡ revision_of_last (map change_of changes.now) }
{
    match changes.last() {
        Some(last) => Some(last.revision),
        None => None,
    }
}

/// The first changes of a watch's type and namespace after a revision.
fn changes_after(
    store: &mut Store,
    scope: &WatchScope,
    after: u64,
    max: u64,
) -> Result<Vec<Change>, Fault>
    requires low { store.old.compacted ≤ after }
    ensures changes { IfOk result (λ v. map change_of v.items ≡ changes_within scope.now.kind (option_map string_bytes scope.now.namespace) max (later after store.old.changes)) }
    ensures same { store.new ≡ store.old }
{
    match store.changes(scope.kind, scope.namespace(), after, max) {
        Ok(changes) => Ok(changes),
        Err(ChangesFault::Failed(fault)) => Err(fault),
        Err(ChangesFault::Expired) => unreachable!(),
    }
}

/// The same, and the revision after which the next ones come, unless these were the last.
fn next_changes(
    store: &mut Store,
    scope: &WatchScope,
    after: u64,
    max: usize,
) -> Result<(Vec<Change>, Option<u64>), Fault>
    requires sound { IsView store.old }
    requires low { store.old.compacted ≤ after }
    requires some { 0 < max }
    ensures changes { IfOk result (λ p. changes_past scope.now.kind (option_map string_bytes scope.now.namespace) store.old (prelude.Some after)
        ≡ map change_of p.0.items ++ changes_past scope.now.kind (option_map string_bytes scope.now.namespace) store.old p.1) }
    ensures fewer { IfOk result (λ p. to_read scope.now.kind (option_map string_bytes scope.now.namespace) store.old p.1
        < to_read scope.now.kind (option_map string_bytes scope.now.namespace) store.old (prelude.Some after)) }
    ensures between { IfOk result (λ p. AreBetween store.old.compacted store.old.current (map change_of p.0.items)) }
    ensures low { IfOk result (λ p. IsNotBelow store.old.compacted p.1) }
    ensures same { store.new ≡ store.old }
{
    let changes = changes_after(store, scope, after, max as u64)?;
    if changes.len() < max {
        return Ok((changes, None));
    }
    let next = revision_of_last(&changes);
    Ok((changes, next))
}

/// How many changes are read at first: as many as are to be found.
fn first_batch(max: usize) -> usize
    ensures { 0 < result }
{
    max.min(MAX_CHANGES).max(1)
}

/// The first of these, at most so many.
fn cut(found: Vec<Seen>, max: usize) -> Vec<Seen>
    ensures { map seen_change_of result.items ≡ take max (map seen_change_of found.items) }
{
    let mut found = found;
    found.truncate(max);
    found
}

/// The first that a watch sees after a revision, at most so much. Where little is seen of what is read, more is read
/// at once: twice as many changes each time.
pub(crate) fn seen_after(
    labels: &mut LabelCache,
    store: &mut Store,
    scope: &WatchScope,
    after: u64,
    max: usize,
) -> Result<Vec<Seen>, Fault>
    requires sound { IsView store.old }
    requires low { store.old.compacted ≤ after }
    ensures seen { IfOk result (λ v. map seen_change_of v.items ≡ take max (seen_in (selection_of scope.now.kind (option_map string_bytes scope.now.namespace) scope.now.selector) store.old after store.old.current)) }
    ensures same { store.new ≡ store.old }
{
    let mut found = Vec::new(labels.allocator());
    let mut left = Some(after);
    let mut batch = first_batch(max);
    while let Some(after) = left {
        if found.len() >= max {
            return Ok(cut(found, max));
        }
        let (changes, next) = next_changes(store, scope, after, batch)?;
        let mut more = seen_each(labels, store, &scope.selector, changes)?;
        found.append(&mut more)?;
        left = next;
        batch = batch.saturating_mul(2).min(MAX_CHANGES);
    }
    Ok(cut(found, max))
}
