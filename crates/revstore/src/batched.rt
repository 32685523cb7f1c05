//! A table with the window of the latest changes in front of it: a write puts its change there, and those that wait are written
//! together, where the table itself is asked, or where too many wait.

ghost use Rattle.std.specs.Prelude.{◌≡◌, suc, ◌+◌, ◌-◌, ◌≤◌, true, false, [], is_some, length, map, IfOk, IfSome, OnOk, OnErr, None, option_map};
ghost use Rattle.std.specs.FinMap as fin;
ghost use Rattle.std.specs.List.{list_any};
ghost use Rattle.std.specs.Rc.{rc_str_bytes};
ghost use Rattle.history.specs.History.{History, last_revision, later, current_objects, state_at, written};
ghost use Rattle.history.specs.Kept.{IsPruned, pruned};
ghost use Rattle.history.specs.Page.{changes_within, listed, page};
ghost use Rattle.history.specs.Read.{change_of, entry_of, key_of, object_of, write_of};
ghost use Rattle.history.specs.Whole.{AreThere};
ghost use Rattle.history.specs.Writes.{changes_by, written_all};
ghost use Rattle.revtable.specs.Kept.{first_kept, kept_among};
ghost use Rattle.revstore.specs.ChangeWindow.{AreLatest, IsBeforeNext};
ghost use Rattle.revstore.specs.Shared.{object_in};
ghost use Rattle.revstore.specs.Waiting.{CanFollow, is_key, waiting_in, waiting_of};

use crate::copies::copy_of_object;
use crate::shared::{SharedObject, shared_object};
use crate::window::{
    ChangeWindow, Latest, count, is_full, is_waiting, known_before, known_changes, known_to_stand,
    once_compacted, push_change, remember_before, waiting_writes,
};
use history::{Change, Entry, Key, Marks, Object, Write};
use revtable::{Fault, Keep, Table};
use std::marker::Model;
use std::mem;

/// A table, and the latest changes, of which the last wait to be written there. It is seen as the history with these.
pub(crate) struct BatchedTable {
    table: Table,
    window: Option<ChangeWindow>,
}

impl Model for BatchedTable {
    ghost use Rattle.std.specs.Prelude.{IfSome};
    ghost use Rattle.history.specs.History.{History};
    ghost use Rattle.history.specs.Kept.{IsPruned};
    ghost use Rattle.history.specs.Writes.{written_all};
    ghost use Rattle.revstore.specs.ChangeWindow.{AreLatest};
    ghost use Rattle.revstore.specs.Waiting.{CanFollow, waiting_in};

    ghost Value = { History };

    ghost view = { λ t. written_all t.table (waiting_in t.window) };

    ghost invariant = { λ t. IsPruned t.table × CanFollow t.table (waiting_in t.window) × IfSome t.window (AreLatest (written_all t.table (waiting_in t.window))) };
}

// It is written out, so that what holds it does not prove again how each part is dropped.
impl Drop for BatchedTable {
    fn drop(self) {
        let BatchedTable {
            table: _,
            window: _,
        } = self;
    }
}

// ---- where it is written

/// Writes the changes that wait: all of them, or none.
fn write_waiting(table: &mut Table, all: &ChangeWindow) -> Result<(), Fault>
    requires { CanFollow table.old (waiting_of all.now) }
    ensures ok { OnOk result (table.new ≡ written_all table.old (waiting_of all.now)) }
    ensures err { OnErr result (table.new ≡ table.old) }
{
    let writes = waiting_writes(all)?;
    if writes.is_empty() {
        return Ok(());
    }
    table.put_all(writes.as_slice())
}

/// Writes all that waits: all of it, or none.
fn flush(table: &mut Table, window: &mut Option<ChangeWindow>) -> Result<(), Fault>
    requires { CanFollow table.old (waiting_in window.old) }
    ensures all { OnOk result (table.new ≡ written_all table.old (waiting_in window.old)) }
    ensures none_left { OnOk result (waiting_in window.new ≡ []) }
    ensures err { OnErr result (table.new ≡ table.old) }
    ensures waits { OnErr result (waiting_in window.new ≡ waiting_in window.old) }
    ensures latest { (h : History) → IfSome window.old (AreLatest h) → IfSome window.new (AreLatest h) }
{
    if let Some(all) = window {
        write_waiting(table, all)?;
        all.settle();
    }
    Ok(())
}

/// Where no more may wait, writes all that does.
fn flush_if_full(table: &mut Table, window: &mut Option<ChangeWindow>) -> Result<(), Fault>
    requires fit { CanFollow table.old (waiting_in window.old) }
    requires kept { IsPruned table.old }
    ensures pruned { IsPruned table.new }
    ensures follow { CanFollow table.new (waiting_in window.new) }
    ensures same { written_all table.new (waiting_in window.new) ≡ written_all table.old (waiting_in window.old) }
    ensures latest { (h : History) → IfSome window.old (AreLatest h) → IfSome window.new (AreLatest h) }
{
    if is_full(window) {
        flush(table, window)?;
    }
    Ok(())
}

/// Where a change of this key waits, writes all that does.
fn flush_if_waiting(
    table: &mut Table,
    window: &mut Option<ChangeWindow>,
    key: &Key,
) -> Result<(), Fault>
    requires fit { CanFollow table.old (waiting_in window.old) }
    requires kept { IsPruned table.old }
    ensures pruned { IsPruned table.new }
    ensures follow { CanFollow table.new (waiting_in window.new) }
    ensures same { written_all table.new (waiting_in window.new) ≡ written_all table.old (waiting_in window.old) }
    ensures none { OnOk result (list_any (λ w. is_key (key_of key.now) w.0) (waiting_in window.new) ≡ false) }
    ensures latest { (h : History) → IfSome window.old (AreLatest h) → IfSome window.new (AreLatest h) }
{
    if is_waiting(window, key) {
        flush(table, window)?;
    }
    Ok(())
}

/// What stood under a key of a table at a revision, to be shared.
fn shared_at(table: &mut Table, key: &Key, revision: u64) -> Result<Option<SharedObject>, Fault>
    ensures ok { IfOk result (λ o. option_map object_in o ≡ fin.get (state_at table.old.changes revision) (key_of key.now)) }
    ensures same { table.new ≡ table.old }
{
    let object = table.latest_at(key, revision)?;
    Ok(shared_object(object)?)
}

/// What stands under a key of a table, to be shared.
fn shared_latest(table: &mut Table, key: &Key) -> Result<Option<SharedObject>, Fault>
    ensures ok { IfOk result (λ o. option_map object_in o ≡ fin.get (current_objects table.old) (key_of key.now)) }
    ensures same { table.new ≡ table.old }
{
    let object = table.latest(key)?;
    Ok(shared_object(object)?)
}

impl BatchedTable {
    /// The table, where nothing waits.
    pub(crate) fn new(table: Table) -> BatchedTable
        ensures { result ≡ table }
    {
        let _ = table.marks();
        BatchedTable {
            table,
            window: None,
        }
    }

    /// The revision that stands now, and the one up to which old changes are forgotten.
    pub(crate) fn marks(&self) -> Marks
        ensures current { result.current ≡ self.now.current }
        ensures compacted { result.compacted ≡ self.now.compacted }
        ensures sound { IsPruned self.now }
    {
        let Marks { current, compacted } = self.table.marks();
        Marks {
            current: current + count(&self.window),
            compacted,
        }
    }

    /// Adds the next change of a key: with a body what it now holds, without one its deletion. It waits.
    pub(crate) fn put(&mut self, change: Latest) -> Result<(), Fault>
        requires next { change.revision ≡ suc self.old.current }
        requires fits { change.revision ≤ last_revision }
        requires there { change.body ≡ None → fin.contains_key (current_objects self.old) (key_of change.key.value) ≡ true }
        requires before { IsBeforeNext self.old change }
        ensures ok { OnOk result (self.new ≡ written self.old (key_of change.key.value) (option_map rc_str_bytes change.body)) }
        ensures err { OnErr result (self.new ≡ self.old) }
    {
        flush_if_full(&mut self.table, &mut self.window)?;
        push_change(&mut self.window, change)?;
        Ok(())
    }

    /// Adds several changes, as `put` of each in turn, from the next revision on: all of them, or none. None of them waits.
    pub(crate) fn put_all(&mut self, writes: &[Write]) -> Result<(), Fault>
        requires fit { self.old.current + length writes.now ≤ last_revision }
        requires there { AreThere (current_objects self.old) (changes_by self.old.current (map write_of writes.now)) }
        ensures ok { OnOk result (self.new ≡ written_all self.old (map write_of writes.now)) }
        ensures err { OnErr result (self.new ≡ self.old) }
    {
        flush(&mut self.table, &mut self.window)?;
        self.table.put_all(writes)?;
        self.window = None;
        Ok(())
    }

    /// What stands under a key: what stood there at the current revision.
    pub(crate) fn latest(&mut self, key: &Key) -> Result<Option<SharedObject>, Fault>
        ensures ok { IfOk result (λ o. option_map object_in o ≡ fin.get (current_objects self.old) (key_of key.now)) }
        ensures same { self.new ≡ self.old }
    {
        flush_if_waiting(&mut self.table, &mut self.window, key)?;
        shared_latest(&mut self.table, key)
    }

    /// What stood under a key just before a revision.
    pub(crate) fn latest_before(
        &mut self,
        key: &Key,
        revision: u64,
    ) -> Result<Option<Object>, Fault>
        ensures ok { IfOk result (λ o. option_map object_of o ≡ fin.get (state_at self.old.changes (revision - 1)) (key_of key.now)) }
        ensures same { self.new ≡ self.old }
    {
        if let Some(before) = known_before(&self.window, key, revision)? {
            return Ok(before);
        }
        flush(&mut self.table, &mut self.window)?;
        let before = shared_at(&mut self.table, key, revision.saturating_sub(1))?;
        let copy = copy_of_object(*key.namespace.allocator(), &before)?;
        remember_before(&mut self.window, key, revision, before);
        Ok(copy)
    }

    /// Whether an object stood under a key just before a revision.
    pub(crate) fn stood_before(&mut self, key: &Key, revision: u64) -> Result<bool, Fault>
        ensures ok { IfOk result (λ b. b ≡ is_some (fin.get (state_at self.old.changes (revision - 1)) (key_of key.now))) }
        ensures same { self.new ≡ self.old }
    {
        if let Some(stood) = known_to_stand(&self.window, key, revision) {
            return Ok(stood);
        }
        let before = self.latest_before(key, revision)?;
        Ok(before.is_some())
    }

    /// The first `max` objects of a type at a revision, in the order of namespace and name: of one namespace or
    /// of all, and from after a namespace and name on. A revision past the current one counts as that.
    pub(crate) fn at(
        &mut self,
        kind: u32,
        namespace: Option<&str>,
        revision: u64,
        after: Option<(&str, &str)>,
        max: u64,
    ) -> Result<Vec<Entry>, Fault>
        ensures ok { IfOk result (λ v. map entry_of v.items
            ≡ page kind (option_map (λ b. b.now) namespace.entry) (option_map (λ p. (p.0.now, p.1.now)) after.entry) max (state_at self.old.changes revision)) }
        ensures whole { last_revision ≤ max → IfOk result (λ v. map entry_of v.items
            ≡ listed kind (option_map (λ b. b.now) namespace.entry) (option_map (λ p. (p.0.now, p.1.now)) after.entry) (state_at self.old.changes revision)) }
        ensures same { self.new ≡ self.old }
    {
        flush(&mut self.table, &mut self.window)?;
        self.table.at(kind, namespace, revision, after, max)
    }

    /// The first `max` of the objects that `at` lists whose texts are kept. With the last of them reading stops.
    pub(crate) fn first_kept<K: Keep>(
        &mut self,
        kind: u32,
        namespace: Option<&str>,
        revision: u64,
        after: Option<(&str, &str)>,
        max: u64,
        keep: &K,
    ) -> Result<Vec<Entry>, Fault>
        ensures ok { IfOk result (λ v. map entry_of v.items
            ≡ first_kept (K.Keep.kept keep.now) max (listed kind (option_map (λ b. b.now) namespace.entry) (option_map (λ p. (p.0.now, p.1.now)) after.entry) (state_at self.old.changes revision))) }
        ensures whole { last_revision ≤ max → IfOk result (λ v. map entry_of v.items
            ≡ kept_among (K.Keep.kept keep.now) (listed kind (option_map (λ b. b.now) namespace.entry) (option_map (λ p. (p.0.now, p.1.now)) after.entry) (state_at self.old.changes revision))) }
        ensures same { self.new ≡ self.old }
    {
        flush(&mut self.table, &mut self.window)?;
        self.table
            .first_kept(kind, namespace, revision, after, max, keep)
    }

    /// The first `max` changes of a type after a revision, oldest first: of one namespace or of all.
    pub(crate) fn changes(
        &mut self,
        kind: u32,
        namespace: Option<&str>,
        after: u64,
        max: u64,
    ) -> Result<Vec<Change>, Fault>
        ensures ok { IfOk result (λ v. map change_of v.items ≡ changes_within kind (option_map (λ b. b.now) namespace.entry) max (later after self.old.changes)) }
        ensures same { self.new ≡ self.old }
    {
        if let Some(changes) = known_changes(&self.window, kind, namespace, after, max)? {
            return Ok(changes);
        }
        flush(&mut self.table, &mut self.window)?;
        let to = self.table.marks().current;
        self.table.span(kind, namespace, after, to, max)
    }

    /// Forgets all but the kept changes at a revision from the compacted number to the current one.
    pub(crate) fn prune(&mut self, revision: u64) -> Result<(), Fault>
        requires low { self.old.compacted ≤ revision }
        requires high { revision ≤ self.old.current }
        ensures ok { OnOk result (self.new ≡ pruned revision self.old) }
        ensures err { OnErr result (self.new ≡ self.old) }
    {
        flush(&mut self.table, &mut self.window)?;
        self.table.prune(revision)?;
        let window = mem::replace(&mut self.window, None);
        self.window = once_compacted(window, revision);
        Ok(())
    }
}
