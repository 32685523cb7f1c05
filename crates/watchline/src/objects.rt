//! The objects that stood when a watch was opened and are still to be sent. Changes are read in `batches`.

ghost use Rattle.std.specs.Prelude.{◌≡◌, ◌≤◌, IfOk, Some, map, take};
ghost use Rattle.history.specs.View.{IsView};
ghost use Rattle.history.specs.Read.{entry_of};
ghost use Rattle.watchline.specs.Watches.{from_view, initial_left_after_count, objects_left};
ghost use Rattle.watchline.specs.Views.{cursor_of, initial_left_of, objects_at};

use crate::cursor::{Progress, WatchScope};
use history::Entry;
use lists::{Selected, Start, next_start, selected_page};
use revstore::Store;
use revtable::Fault;
use std::alloc::Global;

/// The first from a start on, at most so many, and where the others begin.
fn objects_from(
    alloc: Global,
    store: &mut Store,
    scope: &WatchScope,
    position: u64,
    start: &Start,
    max: usize,
) -> Result<(Vec<Entry>, Option<Start>), Fault>
    requires sound { IsView store.old }
    requires low { store.old.compacted ≤ position }
    ensures found { IfOk result (λ p. map entry_of p.0.items ≡ take max (objects_at store.old scope.now position start.now)) }
    ensures left { IfOk result (λ p. initial_left_of p.1 ≡ initial_left_after_count max (objects_at store.old scope.now position start.now) (initial_left_of (Some start.now))) }
    ensures same { store.new ≡ store.old }
{
    let revision = position.min(store.current());
    let selected = Selected {
        collection: scope.collection(),
        revision,
        selector: &scope.selector,
    };
    let page = selected_page(alloc, store, selected, start, max)?;
    if max == 0 {
        return Ok((page.found, Some(start.copied()?)));
    }
    let left = next_start(&page)?;
    Ok((page.found, left))
}

/// The objects that come first, at most so many, and where the others begin.
pub(crate) fn objects_sent(
    alloc: Global,
    store: &mut Store,
    scope: &WatchScope,
    progress: &Progress,
    max: usize,
) -> Result<(Vec<Entry>, Option<Start>), Fault>
    requires sound { IsView store.old }
    requires low { store.old.compacted ≤ progress.now.position }
    ensures found { IfOk result (λ p. map entry_of p.0.items ≡ take max (objects_left (from_view store.old) (cursor_of scope.now progress.now))) }
    ensures left { IfOk result (λ p. initial_left_of p.1
        ≡ initial_left_after_count max (objects_left (from_view store.old) (cursor_of scope.now progress.now)) (initial_left_of progress.now.left)) }
    ensures same { store.new ≡ store.old }
{
    match &progress.left {
        Some(start) => objects_from(alloc, store, scope, progress.position, start, max),
        None => Ok((Vec::new(alloc), None)),
    }
}
