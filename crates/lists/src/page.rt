//! The page that is asked for: the store is asked once, for one object more than the page holds. What a watch begins with, and a list
//! by names, is read in batches of rows, each twice as large as the one before up to 501. The rows are read in `rows`; one name in one
//! namespace is looked up in `named`.

ghost use Rattle.std.specs.Prelude.{◌≡◌, ◌<◌, ◌≤◌, ◌++◌, IfOk, Some, map, option_map, take};
ghost use Rattle.history.specs.History.{last_revision};
ghost use Rattle.history.specs.Page.{listed};
ghost use Rattle.history.specs.Seen.{IsLimit, limited};
ghost use Rattle.history.specs.View.{state_in};
ghost use Rattle.params.specs.Views.{token_view, values_of};
ghost use Rattle.selector.specs.Fields.{LabelsDecide};
ghost use Rattle.history.specs.Read.{entry_of};
ghost use Rattle.lists.specs.Lists.{page_limit, page_of};
ghost use Rattle.lists.specs.Rows.{asked_for, is_over, matching, place_of};
ghost use Rattle.lists.specs.Views.{collection_of, page_seen, start_of};

use crate::collection::{Collection, Selected};
use crate::labels::Labelled;
use crate::named::found_named;
use crate::rows::{Start, after, matching, next_rows};
use crate::text::next_of;
use history::{Entry, LAST_REVISION};
use params::{Params, Token};
use revstore::{ListFault, Store};
use revtable::Fault;
use std::alloc::{AllocError, Global};

/// How many items a page has at most.
const MAX_PAGE: u64 = 500;

/// How many rows are read at once at most: those of the largest page, and one to tell whether more are left.
const MAX_ROWS: u64 = MAX_PAGE + 1;

/// A page of a list.
#[derive(Debug, Drop)]
pub struct Page {
    pub found: Vec<Entry>,
    /// Whether an object is left after these.
    pub has_more: bool,
}

/// How many items the page has at most; None where the list is whole.
fn page_limit(limit: u64) -> Option<usize>
    ensures { result ≡ page_limit limit }
{
    if limit == 0 {
        None
    } else {
        Some(limit.min(MAX_PAGE) as usize)
    }
}

/// Whether these are more than a page holds.
fn is_over(limit: Option<usize>, count: usize) -> bool
    ensures { result ≡ is_over limit count }
{
    match limit {
        None => false,
        Some(limit) => limit < count,
    }
}

/// How many rows are read at first: as many as the page may have, and one more.
fn first_rows(limit: Option<usize>) -> u64
    ensures { 0 < result }
{
    match limit {
        None => MAX_ROWS,
        Some(limit) => (limit as u64).min(MAX_PAGE) + 1,
    }
}

/// The first items of these, as many as the page has at most.
fn cut(limit: Option<usize>, mut found: Vec<Entry>) -> Page
    ensures { page_seen result ≡ limited limit (map entry_of found.items) }
{
    let Some(limit) = limit else {
        return Page {
            found,
            has_more: false,
        };
    };
    let has_more = limit < found.len();
    found.truncate(limit);
    Page { found, has_more }
}

/// What is selected from a start on, of rows that are read until it is more than the page has or nothing is left.
fn found_in_rows(
    alloc: Global,
    store: &mut Store,
    selected: Selected<'_>,
    start: Start,
    limit: Option<usize>,
) -> Result<Vec<Entry>, Fault>
    requires low { store.old.compacted ≤ selected.revision }
    requires high { selected.revision ≤ store.old.current }
    ensures found { IfOk result (λ v. limited limit (map entry_of v.items)
        ≡ limited limit (matching selected.entry.selector.now (listed (collection_of selected.entry.collection).kind (collection_of selected.entry.collection).namespace (start_of start) (state_in store.old selected.entry.revision)))) }
    ensures same { store.new ≡ store.old }
{
    let mut found = Vec::new(alloc);
    let mut left = Some(start);
    let mut max = first_rows(limit);
    while let Some(start) = left {
        let (rows, next) = next_rows(store, selected.collection, selected.revision, &start, max)?;
        let mut more = matching(alloc, selected.selector, rows)?;
        found.append(&mut more)?;
        if is_over(limit, found.len()) {
            return Ok(found);
        }
        left = next;
        max = max.saturating_mul(2).min(MAX_ROWS);
    }
    Ok(found)
}

/// What is selected from a start on, until it is more than the page has or nothing is left. Where one name in one namespace is asked
/// for, that object alone is looked up.
fn found_from(
    alloc: Global,
    store: &mut Store,
    selected: Selected<'_>,
    start: Start,
    limit: Option<usize>,
) -> Result<Vec<Entry>, Fault>
    requires low { store.old.compacted ≤ selected.revision }
    requires high { selected.revision ≤ store.old.current }
    ensures found { IfOk result (λ v. limited limit (map entry_of v.items)
        ≡ limited limit (matching selected.entry.selector.now (listed (collection_of selected.entry.collection).kind (collection_of selected.entry.collection).namespace (start_of start) (state_in store.old selected.entry.revision)))) }
    ensures same { store.new ≡ store.old }
{
    match (selected.collection.namespace, selected.selector.name()) {
        (Some(namespace), Some(name)) => {
            found_named(alloc, store, selected, namespace, name, &start)
        }
        _ => found_in_rows(alloc, store, selected, start, limit),
    }
}

/// The first that are selected from a start on, at most so many, and whether more are left. Of the collection its type and
/// namespace count alone.
pub fn selected_page(
    alloc: Global,
    store: &mut Store,
    selected: Selected<'_>,
    start: &Start,
    max: usize,
) -> Result<Page, Fault>
    requires low { store.old.compacted ≤ selected.revision }
    requires high { selected.revision ≤ store.old.current }
    ensures page { IfOk result (λ p. page_seen p
        ≡ limited (Some max) (matching selected.entry.selector.now (listed (collection_of selected.entry.collection).kind (collection_of selected.entry.collection).namespace (start_of start.now) (state_in store.old selected.entry.revision)))) }
    ensures same { store.new ≡ store.old }
{
    let start = start.copied()?;
    let limit = Some(max);
    let found = found_from(alloc, store, selected, start, limit)?;
    Ok(cut(limit, found))
}

/// Where the next page begins, unless this is the last.
pub fn next_start(page: &Page) -> Result<Option<Start>, AllocError>
    ensures { IfOk result (λ o. option_map start_of o ≡ option_map place_of (page_seen page.now).next) }
{
    match next_of(page) {
        Some(key) => Ok(Some(after(key)?)),
        None => Ok(None),
    }
}

/// Where a list goes on: after its token's object, or from the first one on.
fn start_at(token: &Option<Token>) -> Result<Start, AllocError>
    ensures { IfOk result (λ s. start_of s ≡ option_map (λ t. (t.namespace, t.name)) (option_map token_view token.now)) }
{
    match token {
        Some(token) => Ok(Start::After(token.namespace.clone()?, token.name.clone()?)),
        None => Ok(Start::First),
    }
}

/// How many objects are asked for: one more than the page has room for, which tells whether one is left; or all.
fn asked_for(limit: u64) -> u64
    ensures { result ≡ asked_for limit }
{
    if limit == 0 {
        LAST_REVISION
    } else {
        limit.min(MAX_PAGE) + 1
    }
}

/// The first that are selected from a start on by their labels alone, at most so many.
fn first_selected(
    alloc: Global,
    store: &mut Store,
    selected: Selected<'_>,
    start: &Start,
    max: u64,
) -> Result<Vec<Entry>, Fault>
    requires low { store.old.compacted ≤ selected.revision }
    requires high { selected.revision ≤ store.old.current }
    requires by_labels { LabelsDecide selected.selector.now }
    ensures first { IfOk result (λ v. map entry_of v.items
        ≡ take max (matching selected.entry.selector.now (listed (collection_of selected.entry.collection).kind (collection_of selected.entry.collection).namespace (start_of start.now) (state_in store.old selected.entry.revision)))) }
    ensures whole { last_revision ≤ max → IfOk result (λ v. map entry_of v.items
        ≡ matching selected.entry.selector.now (listed (collection_of selected.entry.collection).kind (collection_of selected.entry.collection).namespace (start_of start.now) (state_in store.old selected.entry.revision))) }
    ensures same { store.new ≡ store.old }
{
    let of = selected.collection;
    let keep = Labelled::new(alloc, selected.selector);
    match store.first_kept(
        of.kind,
        of.namespace,
        selected.revision,
        start.place(),
        max,
        &keep,
    ) {
        Ok(found) => Ok(found),
        Err(ListFault::Failed(fault)) => Err(fault),
        Err(ListFault::Expired) => unreachable!(),
        Err(ListFault::TooLarge) => unreachable!(),
    }
}

/// What is selected from a start on, at least as much as the page has and one more, if there is as much. The store isn't asked for what
/// has names, since it keeps by texts.
fn found_for_page(
    alloc: Global,
    store: &mut Store,
    selected: Selected<'_>,
    start: Start,
    limit: u64,
) -> Result<Vec<Entry>, Fault>
    requires low { store.old.compacted ≤ selected.revision }
    requires high { selected.revision ≤ store.old.current }
    ensures found { IfOk result (λ v. limited (page_limit limit) (map entry_of v.items)
        ≡ limited (page_limit limit) (matching selected.entry.selector.now (listed (collection_of selected.entry.collection).kind (collection_of selected.entry.collection).namespace (start_of start) (state_in store.old selected.entry.revision)))) }
    ensures same { store.new ≡ store.old }
{
    if selected.selector.asks_name() {
        return found_from(alloc, store, selected, start, page_limit(limit));
    }
    first_selected(alloc, store, selected, &start, asked_for(limit))
}

/// The page that is asked for, at a revision.
pub(crate) fn page_of(
    alloc: Global,
    store: &mut Store,
    of: Collection<'_>,
    revision: u64,
    params: &Params,
) -> Result<Page, Fault>
    requires low { store.old.compacted ≤ revision }
    requires high { revision ≤ store.old.current }
    ensures page { IfOk result (λ p. page_seen p ≡ page_of (collection_of of.entry) (values_of params.now) (state_in store.old revision)) }
    ensures same { store.new ≡ store.old }
{
    let start = start_at(&params.token)?;
    let selected = Selected {
        collection: of,
        revision,
        selector: &params.selector,
    };
    let found = found_for_page(alloc, store, selected, start, params.limit)?;
    Ok(cut(page_limit(params.limit), found))
}
