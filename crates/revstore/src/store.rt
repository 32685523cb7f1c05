//! The store and its calls. How changes are kept stands in `revtable`.
ghost use Rattle.std.specs.Prelude.{◌≡◌, ◌↔◌, suc, ◌+◌, ◌-◌, ◌<◌, ◌≤◌, true, is_some, length, map, Err, IfOk, OnOk, OnErr, None, option_map};
ghost use Rattle.std.specs.FinMap as fin;
ghost use Rattle.history.specs.History.{last_revision, later};
ghost use Rattle.history.specs.Page.{changes_within, listed, page, picked};
ghost use Rattle.history.specs.Read.{change_of, entry_of, key_of, object_of, write_of};
ghost use Rattle.revtable.specs.Kept.{first_kept, kept_among};
ghost use Rattle.history.specs.View.{IsView, compacted_in, state_in, view, written_in};
ghost use Rattle.history.specs.Whole.{AreThere};
ghost use Rattle.history.specs.Writes.{changes_by, written_all_in};

use crate::batched::BatchedTable;
use crate::cached::{ObjectCache, cached_by, known_now, next_change, put_written, with_read};
use crate::copies::copy_of_object;
use crate::fault::{ChangesFault, CompactFault, ListFault, WriteFault};
use history::{Change, Entry, Key, LAST_REVISION, Object, Write};
use revtable::{Fault, Keep, Table};
use std::marker::Model;
use std::mem;

/// The objects of all types, by key, and their changes.
pub struct Store {
    table: BatchedTable,
    /// What stands under the keys that were written or read last, where it is held.
    cached: Option<ObjectCache>,
}

impl Model for Store {
    ghost use Rattle.std.specs.Prelude.{IfSome};
    ghost use Rattle.history.specs.Kept.{IsPruned};
    ghost use Rattle.revstore.specs.CachedObject.{AreIn};
    ghost use Rattle.history.specs.Codes.{view_code};
    ghost use Rattle.history.specs.View.{View, view as view_of};

    ghost Value = { View };

    ghost coded = { view_code };

    ghost view = { λ s. view_of s.table };

    ghost invariant = { λ s. IsPruned s.table × IfSome s.cached (AreIn s.table) };
}

// It is written out, so that what holds a store does not prove again how each part is dropped.
impl Drop for Store {
    fn drop(self) {
        let Store {
            table: _,
            cached: _,
        } = self;
    }
}

impl Store {
    /// The store that a table keeps.
    pub fn new(table: Table) -> Store
        ensures { result ≡ view table }
    {
        Store {
            table: BatchedTable::new(table),
            cached: None,
        }
    }

    /// The revision that stands now.
    pub fn current(&self) -> u64
        ensures current { result ≡ self.now.current }
        ensures sound { IsView self.now }
    {
        self.table.marks().current
    }

    /// The revision below which nothing is answered.
    pub fn compacted(&self) -> u64
        ensures { result ≡ self.now.compacted }
    {
        self.table.marks().compacted
    }

    /// Adds the next change of a key, and answers its revision. Without a body it is the deletion of what stands there.
    pub fn write(&mut self, key: &Key, body: Option<&str>) -> Result<u64, WriteFault>
        requires there { body ≡ None → fin.contains_key (state_in self.old self.old.current) (key_of key.now) ≡ true }
        ensures ok { OnOk result (self.new ≡ written_in self.old (key_of key.now) (option_map (λ b. b.now) body.entry)) }
        ensures revision { IfOk result (λ r. r ≡ suc self.old.current) }
        ensures exhausted { (result ≡ Err WriteFault.Exhausted) ↔ (self.old.current ≡ last_revision) }
        ensures err { OnErr result (self.new ≡ self.old) }
    {
        let current = self.table.marks().current;
        if current == LAST_REVISION {
            return Err(WriteFault::Exhausted);
        }
        let revision = current + 1;
        let change = next_change(&self.cached, revision, key, body)?;
        let left = cached_by(&change)?;
        self.table.put(change)?;
        put_written(&mut self.cached, left);
        Ok(revision)
    }

    /// Adds several changes, as `write` of each in turn, and answers the revision that is current then: all of them, or none.
    pub fn write_all(&mut self, writes: &[Write]) -> Result<u64, WriteFault>
        requires there { AreThere (state_in self.old self.old.current) (changes_by self.old.current (map write_of writes.now)) }
        ensures ok { OnOk result (self.new ≡ written_all_in self.old (map write_of writes.now)) }
        ensures revision { IfOk result (λ r. r ≡ self.old.current + length writes.now) }
        ensures exhausted { (result ≡ Err WriteFault.Exhausted) ↔ (last_revision < self.old.current + length writes.now) }
        ensures err { OnErr result (self.new ≡ self.old) }
    {
        let current = self.table.marks().current;
        let count = writes.len() as u64;
        if count > LAST_REVISION - current {
            return Err(WriteFault::Exhausted);
        }
        self.table.put_all(writes)?;
        self.cached = None;
        Ok(current + count)
    }

    /// What stands under a key.
    pub fn get(&mut self, key: &Key) -> Result<Option<Object>, Fault>
        ensures ok { IfOk result (λ o. option_map object_of o ≡ fin.get (state_in self.old self.old.current) (key_of key.now)) }
        ensures same { self.new ≡ self.old }
    {
        if let Some(object) = known_now(&self.cached, key)? {
            return Ok(object);
        }
        let object = self.table.latest(key)?;
        let copy = copy_of_object(*key.namespace.allocator(), &object)?;
        let cached = mem::replace(&mut self.cached, None);
        self.cached = with_read(cached, key, object);
        Ok(copy)
    }

    /// The first `max` objects of a type at a revision, in the order of namespace and name: of one namespace or
    /// of all, and from after a namespace and name on.
    pub fn list_at(
        &mut self,
        kind: u32,
        namespace: Option<&str>,
        revision: u64,
        after: Option<(&str, &str)>,
        max: u64,
    ) -> Result<Vec<Entry>, ListFault>
        ensures ok { IfOk result (λ v. map entry_of v.items
            ≡ page kind (option_map (λ b. b.now) namespace.entry) (option_map (λ p. (p.0.now, p.1.now)) after.entry) max (state_in self.old revision)) }
        ensures whole { last_revision ≤ max → IfOk result (λ v. map entry_of v.items
            ≡ listed kind (option_map (λ b. b.now) namespace.entry) (option_map (λ p. (p.0.now, p.1.now)) after.entry) (state_in self.old revision)) }
        ensures expired { (result ≡ Err ListFault.Expired) ↔ (revision < self.old.compacted) }
        ensures too_large { (result ≡ Err ListFault.TooLarge) ↔ (self.old.current < revision) }
        ensures same { self.new ≡ self.old }
    {
        let marks = self.table.marks();
        if revision < marks.compacted {
            return Err(ListFault::Expired);
        }
        if revision > marks.current {
            return Err(ListFault::TooLarge);
        }
        Ok(self.table.at(kind, namespace, revision, after, max)?)
    }

    /// The first `max` of the objects that `list_at` lists whose texts are kept. With the last of them reading stops.
    pub fn first_kept<K: Keep>(
        &mut self,
        kind: u32,
        namespace: Option<&str>,
        revision: u64,
        after: Option<(&str, &str)>,
        max: u64,
        keep: &K,
    ) -> Result<Vec<Entry>, ListFault>
        ensures ok { IfOk result (λ v. map entry_of v.items
            ≡ first_kept (K.Keep.kept keep.now) max (listed kind (option_map (λ b. b.now) namespace.entry) (option_map (λ p. (p.0.now, p.1.now)) after.entry) (state_in self.old revision))) }
        ensures whole { last_revision ≤ max → IfOk result (λ v. map entry_of v.items
            ≡ kept_among (K.Keep.kept keep.now) (listed kind (option_map (λ b. b.now) namespace.entry) (option_map (λ p. (p.0.now, p.1.now)) after.entry) (state_in self.old revision))) }
        ensures expired { (result ≡ Err ListFault.Expired) ↔ (revision < self.old.compacted) }
        ensures too_large { (result ≡ Err ListFault.TooLarge) ↔ (self.old.current < revision) }
        ensures same { self.new ≡ self.old }
    {
        let marks = self.table.marks();
        if marks.compacted > revision {
            return Err(ListFault::Expired);
        }
        if marks.current < revision {
            return Err(ListFault::TooLarge);
        }
        Ok(
            self.table
                .first_kept(kind, namespace, revision, after, max, keep)?,
        )
    }

    /// The first `max` changes of a type after a revision, oldest first: of one namespace or of all.
    pub fn changes(
        &mut self,
        kind: u32,
        namespace: Option<&str>,
        after: u64,
        max: u64,
    ) -> Result<Vec<Change>, ChangesFault>
        ensures ok { IfOk result (λ v. map change_of v.items ≡ changes_within kind (option_map (λ b. b.now) namespace.entry) max (later after self.old.changes)) }
        ensures whole { last_revision ≤ max → IfOk result (λ v. map change_of v.items ≡ picked kind (option_map (λ b. b.now) namespace.entry) (later after self.old.changes)) }
        ensures expired { (result ≡ Err ChangesFault.Expired) ↔ (after < self.old.compacted) }
        ensures same { self.new ≡ self.old }
    {
        let marks = self.table.marks();
        if after < marks.compacted {
            return Err(ChangesFault::Expired);
        }
        Ok(self.table.changes(kind, namespace, after, max)?)
    }

    /// What stood under a key just before a revision.
    pub fn before(&mut self, key: &Key, revision: u64) -> Result<Option<Object>, Fault>
        requires above { self.old.compacted < revision }
        requires known { revision ≤ self.old.current }
        ensures ok { IfOk result (λ o. option_map object_of o ≡ fin.get (state_in self.old (revision - 1)) (key_of key.now)) }
        ensures same { self.new ≡ self.old }
    {
        self.table.latest_before(key, revision)
    }

    /// Whether an object stood under a key just before a revision: `before` without a copy.
    pub fn stood_before(&mut self, key: &Key, revision: u64) -> Result<bool, Fault>
        requires above { self.old.compacted < revision }
        requires known { revision ≤ self.old.current }
        ensures ok { IfOk result (λ b. b ≡ is_some (fin.get (state_in self.old (revision - 1)) (key_of key.now))) }
        ensures same { self.new ≡ self.old }
    {
        self.table.stood_before(key, revision)
    }

    /// Forgets what no answer from this revision on can show.
    pub fn compact(&mut self, revision: u64) -> Result<(), CompactFault>
        ensures ok { OnOk result (self.new ≡ compacted_in revision self.old) }
        ensures expired { (result ≡ Err CompactFault.Expired) ↔ (revision < self.old.compacted) }
        ensures too_large { (result ≡ Err CompactFault.TooLarge) ↔ (self.old.current < revision) }
        ensures err { OnErr result (self.new ≡ self.old) }
    {
        let marks = self.table.marks();
        if revision < marks.compacted {
            return Err(CompactFault::Expired);
        }
        if revision > marks.current {
            return Err(CompactFault::TooLarge);
        }
        self.table.prune(revision)?;
        Ok(())
    }
}
