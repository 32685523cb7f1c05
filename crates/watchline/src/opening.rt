//! Opens a watch: from which revision, and what it sends first. Its position from then on stands in `cursor`.

ghost use Rattle.std.specs.Prelude.{◌≡◌, IfOk};
ghost use Rattle.lists.specs.Views.{Returns, collection_of};
ghost use Rattle.params.specs.Views.{values_of, watch_view};
ghost use Rattle.answers.specs.Views.{watch_from};
ghost use Rattle.watchline.specs.Opening.{initial_in, started, starts};
ghost use Rattle.watchline.specs.Watches.{from_view};

use answers::{InitialEvents, WatchFrom};
use json_values::copied;
use lists::{Collection, ListFault, Refusal, Selected, Start, selected_page};
use params::{Params, Watch};
use revstore::Store;
use revtable::Fault;
use selector::Selector;
use std::alloc::Global;

/// Whether objects of the watch stand now.
fn initial_in(
    alloc: Global,
    store: &mut Store,
    of: Collection<'_>,
    selector: &Selector,
) -> Result<InitialEvents, Fault>
    ensures initial { IfOk result (λ i. i ≡ initial_in (from_view store.old) (collection_of of.entry).kind (collection_of of.entry).namespace selector.now) }
    ensures same { store.new ≡ store.old }
{
    let selected = Selected {
        collection: of,
        revision: store.current(),
        selector,
    };
    let first = selected_page(alloc, store, selected, &Start::First, 1)?;
    if first.found.is_empty() {
        Ok(InitialEvents::NoneSelected)
    } else {
        Ok(InitialEvents::Objects)
    }
}

/// The revision that a watch begins at, where it names this version, and what it sends first.
fn starts(
    alloc: Global,
    store: &mut Store,
    of: Collection<'_>,
    version: Option<u64>,
    selector: &Selector,
) -> Result<(u64, InitialEvents), ListFault>
    ensures starts { Returns (λ p. p) result (starts (from_view store.old) version
        (initial_in (from_view store.old) (collection_of of.entry).kind (collection_of of.entry).namespace selector.now)) }
    ensures same { store.new ≡ store.old }
{
    match version {
        Some(version) if version > 0 => {
            let compacted = store.compacted();
            if version < compacted {
                return Err(ListFault::Refused(Refusal::Expired(version, compacted)));
            }
            Ok((version, InitialEvents::Changes))
        }
        _ => {
            let current = store.current();
            Ok((current, initial_in(alloc, store, of, selector)?))
        }
    }
}

/// The watch that these parameters ask for, or why there is none. It changes nothing.
pub fn start_watch(
    alloc: Global,
    store: &mut Store,
    of: Collection<'_>,
    params: Params,
    watch: Watch,
) -> Result<WatchFrom, ListFault>
    ensures started { Returns watch_from result (started (from_view store.old) (collection_of of.entry).kind (collection_of of.entry).namespace (values_of params) (watch_view watch)) }
    ensures same { store.new ≡ store.old }
{
    let (position, initial) = starts(alloc, store, of, params.version, &params.selector)?;
    let namespace = copied(alloc, of.namespace)?;
    Ok(WatchFrom {
        kind: of.kind,
        namespace,
        selector: params.selector,
        position,
        initial,
        bookmarks: watch.has_bookmarks,
        timeout: watch.timeout,
    })
}
