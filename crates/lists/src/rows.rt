//! The rows of a list, a few at a time. A page is made of them in `page`.

ghost use Rattle.std.specs.Prelude.{◌≡◌, ◌<◌, ◌≤◌, ◌++◌, [], ◌∷◌, IfOk, OnOk, map, option_map};
ghost use Rattle.history.specs.Page.{listed, page};
ghost use Rattle.history.specs.Seen.{last_key};
ghost use Rattle.history.specs.View.{state_in};
ghost use Rattle.history.specs.Read.{entry_of, key_of};
ghost use Rattle.lists.specs.Rows.{matching, place_of, rows_left, to_read};
ghost use Rattle.lists.specs.Views.{collection_of, start_of};
ghost use Rattle.std.specs.Prelude as prelude;

use crate::collection::Collection;
use crate::labels::LabelReader;
use history::{Entry, Key};
use revstore::{ListFault, Store};
use revtable::Fault;
use selector::Selector;
use std::alloc::{AllocError, Global};

/// Where rows are read from: from the first one on, or after an object's namespace and name.
#[derive(Debug, Drop)]
pub enum Start {
    First,
    After(String, String),
}

impl Start {
    pub(crate) fn place(&self) -> Option<(&str, &str)>
        ensures { option_map {U = prelude.List prelude.ℕ × prelude.List prelude.ℕ} (λ p. (p.0.now, p.1.now)) result ≡ start_of self.now }
    {
        match self {
            Start::First => None,
            Start::After(namespace, name) => Some((namespace.as_str(), name.as_str())),
        }
    }

    /// The same start.
    pub fn copied(&self) -> Result<Start, AllocError>
        ensures { IfOk result (λ s. start_of s ≡ start_of self.now) }
    {
        match self {
            Start::First => Ok(Start::First),
            Start::After(namespace, name) => Ok(Start::After(namespace.clone()?, name.clone()?)),
        }
    }
}

/// The key of the last of these.
pub(crate) fn last_key(rows: &[Entry]) -> Option<&Key>
    ensures { option_map (λ k. key_of k.now) result ≡ last_key (map entry_of rows.now) }
{
    match rows.last() {
        Some(last) => Some(&last.key),
        None => None,
    }
}

/// After the object of this key.
pub(crate) fn after(key: &Key) -> Result<Start, AllocError>
    ensures { IfOk result (λ s. start_of s ≡ place_of (key_of key.now)) }
{
    Ok(Start::After(key.namespace.clone()?, key.name.clone()?))
}

/// After the last of these, where there is one.
fn after_last(rows: &[Entry]) -> Result<Option<Start>, AllocError>
    ensures { IfOk result (λ o. option_map start_of o ≡ option_map place_of (last_key (map entry_of rows.now))) }
{
    match last_key(rows) {
        Some(key) => Ok(Some(after(key)?)),
        None => Ok(None),
    }
}

/// The first rows from a start on.
fn rows_from(
    store: &mut Store,
    of: Collection<'_>,
    revision: u64,
    start: &Start,
    max: u64,
) -> Result<Vec<Entry>, Fault>
    requires low { store.old.compacted ≤ revision }
    requires high { revision ≤ store.old.current }
    ensures rows { IfOk result (λ v. map entry_of v.items ≡ page (collection_of of.entry).kind (collection_of of.entry).namespace (start_of start.now) max (state_in store.old revision)) }
    ensures same { store.new ≡ store.old }
{
    match store.list_at(of.kind, of.namespace, revision, start.place(), max) {
        Ok(rows) => Ok(rows),
        Err(ListFault::Failed(fault)) => Err(fault),
        Err(ListFault::Expired) => unreachable!(),
        Err(ListFault::TooLarge) => unreachable!(),
    }
}

/// The first rows from a start on, and where the next ones begin, unless these were the last.
pub(crate) fn next_rows(
    store: &mut Store,
    of: Collection<'_>,
    revision: u64,
    start: &Start,
    max: u64,
) -> Result<(Vec<Entry>, Option<Start>), Fault>
    requires low { store.old.compacted ≤ revision }
    requires high { revision ≤ store.old.current }
    requires some { 0 < max }
    ensures rows { IfOk result (λ p. listed (collection_of of.entry).kind (collection_of of.entry).namespace (start_of start.now) (state_in store.old revision)
        ≡ map entry_of p.0.items ++ rows_left (collection_of of.entry).kind (collection_of of.entry).namespace (state_in store.old revision) (option_map start_of p.1)) }
    ensures fewer { IfOk result (λ p. to_read (collection_of of.entry).kind (collection_of of.entry).namespace (state_in store.old revision) (option_map start_of p.1)
        < to_read (collection_of of.entry).kind (collection_of of.entry).namespace (state_in store.old revision) (prelude.Some (start_of start.now))) }
    ensures same { store.new ≡ store.old }
{
    let rows = rows_from(store, of, revision, start, max)?;
    if (rows.len() as u64) < max {
        return Ok((rows, None));
    }
    let next = after_last(&rows)?;
    Ok((rows, next))
}

/// Keeps a row that is selected.
fn push_selected(
    reader: &mut LabelReader,
    selector: &Selector,
    found: &mut Vec<Entry>,
    row: Entry,
) -> Result<(), Fault>
    ensures { OnOk result (map entry_of found.new.items ≡ map entry_of found.old.items ++ matching selector.now (entry_of row ∷ [])) }
{
    if !reader.is_selected(selector, row.key.name.as_str(), row.object.body.as_str())? {
        return Ok(());
    }
    found.push(row)?;
    Ok(())
}

/// Those of the rows that are selected.
pub(crate) fn matching(
    alloc: Global,
    selector: &Selector,
    rows: Vec<Entry>,
) -> Result<Vec<Entry>, Fault>
    ensures { IfOk result (λ v. map entry_of v.items ≡ matching selector.now (map entry_of rows.items)) }
{
    let mut reader = LabelReader::new(alloc);
    let mut found = Vec::new(alloc);
    for row in rows {
        push_selected(&mut reader, selector, &mut found, row)?;
    }
    Ok(found)
}
