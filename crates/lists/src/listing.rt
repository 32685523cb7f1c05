//! A list, from its parameters to its text: its revision is found in `revision`, its page in `page`, its text in `text`.
ghost use Rattle.std.specs.Prelude.{◌≡◌, string_bytes};
ghost use Rattle.history.specs.View.{state_in};
ghost use Rattle.params.specs.Views.{values_of};
ghost use Rattle.lists.specs.Lists.{list_of};
ghost use Rattle.lists.specs.Views.{Returns, collection_of};

use crate::collection::Collection;
use crate::fault::ListFault;
use crate::page::page_of;
use crate::revision::revision_of;
use crate::text::list_text;
use params::Params;
use revstore::Store;
use std::alloc::Global;

/// The text of the list that these parameters ask for, or why there is none. It changes nothing.
pub fn list(
    alloc: Global,
    store: &mut Store,
    of: Collection<'_>,
    params: &Params,
) -> Result<String, ListFault>
    ensures listed { Returns string_bytes result (list_of (collection_of of.entry) (values_of params.now) store.old.current store.old.compacted (state_in store.old)) }
    ensures same { store.new ≡ store.old }
{
    let revision = revision_of(store.current(), store.compacted(), params)?;
    let page = page_of(alloc, store, of, revision, params)?;
    Ok(list_text(alloc, of, revision, &page)?)
}
