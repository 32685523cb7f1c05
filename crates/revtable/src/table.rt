//! The table and its calls. The SELECT statements stand in `statements`, their rows in `reading`.
ghost use Rattle.std.specs.Prelude.{◌≡◌, suc, ◌+◌, ◌≤◌, true, map, IfOk, OnOk, OnErr, Some, None, option_map, length, false};
ghost use Rattle.std.specs.FinMap as fin;
ghost use Rattle.history.specs.History.{fresh, last_revision, later, current_objects, state_at, up_to, written};
ghost use Rattle.history.specs.Kept.{IsPruned, between_marks, pruned, with_body};
ghost use Rattle.history.specs.Page.{changes_within, listed, page, picked};
ghost use Rattle.history.specs.Read.{change_of, entry_of, key_of, object_of, write_of};
ghost use Rattle.history.specs.Whole.{AreThere};
ghost use Rattle.history.specs.Writes.{changes_by, written_all};
ghost use Rattle.revtable.specs.Kept.{first_kept, kept_among, AreFirstKept, IsBare};
ghost use Rattle.revtable.specs.Rows.{the_schema, command_in, IsAnswer};
ghost use Rattle.revtable.specs.Spans.{stored_of};
ghost use Rattle.sqlite.specs.Given.{IsPlain};
ghost use Rattle.sqlite.specs.Listing.{reads_listing, understood};
ghost use Rattle.sqlite.specs.Values.{bound};

use crate::fault::Fault;
use crate::keep::{Every, Keep};
use crate::memory::{self, MemoryLog};
use crate::merging::{merged, reached};
use crate::paging::{self, Wanted};
use crate::reading::read_object;
use history::{Change, Entry, Key, LAST_REVISION, Marks, Object, Write};
use sqlite::Row;
use sqlite::types::ValueRef;
use std::alloc::{AllocError, Global};
use std::marker::Model;
use std::slice;

/// The most rows that a statement is asked for.
const MOST_ROWS: u64 = LAST_REVISION;

/// A table of changes in memory. A contract sees it as a history of which only the kept changes are left.
pub struct Table {
    alloc: Global,
    log: MemoryLog,
    /// The two numbers, as they stand in their table.
    current: u64,
    compacted: u64,
}

impl Model for Table {
    ghost use Rattle.std.specs.Prelude.{◌≡◌};
    ghost use Rattle.history.specs.History.{History};
    ghost use Rattle.revtable.specs.Spans.{history_of, IsWritten};

    ghost Value = { History };

    ghost view = { λ t. history_of t.log };

    ghost invariant = { λ t. IsWritten t.log × (t.current ≡ t.log.current) × (t.compacted ≡ t.log.compacted) };
}

// It is written out, so that what holds a table does not prove again how each part is dropped.
impl Drop for Table {
    fn drop(self) {
        let Table {
            alloc: _,
            log: _,
            current: _,
            compacted: _,
        } = self;
    }
}

/// A write with copies of a key and of a body.
fn write_of(alloc: Global, key: &Key, body: Option<&str>) -> Result<Write, AllocError>
    ensures { IfOk result (λ w. write_of w ≡ (key_of key.now, option_map (λ b. b.now) body.entry)) }
{
    let key = Key {
        kind: key.kind,
        namespace: key.namespace.clone()?,
        name: key.name.clone()?,
    };
    let body = match body {
        Some(body) => Some(String::from_str(alloc, body)?),
        None => None,
    };
    Ok(Write { key, body })
}

impl Table {
    /// An empty table whose two numbers are 1.
    pub fn open(alloc: Global) -> Result<Table, Fault>
        ensures { IfOk result (λ t. t ≡ fresh 1) }
    {
        Table::open_at(alloc, 1)
    }

    /// An empty table whose two numbers are this revision, from 1 to 9223372036854775807.
    pub fn open_at(alloc: Global, revision: u64) -> Result<Table, Fault>
        requires from { 1 ≤ revision }
        requires to { revision ≤ last_revision }
        ensures { IfOk result (λ t. t ≡ fresh revision) }
    {
        let mut log = memory::open(alloc, revision)?;
        let Marks { current, compacted } = log.marks()?;
        Ok(Table {
            alloc,
            log,
            current,
            compacted,
        })
    }

    /// The revision that stands now, and the one up to which old changes are forgotten.
    pub fn marks(&self) -> Marks
        ensures current { result.current ≡ self.now.current }
        ensures compacted { result.compacted ≡ self.now.compacted }
        ensures sound { IsPruned self.now }
    {
        Marks {
            current: self.current,
            compacted: self.compacted,
        }
    }

    /// Adds the next change of a key: with a body what it now holds, without one its deletion.
    pub fn put(&mut self, revision: u64, key: &Key, body: Option<&str>) -> Result<(), Fault>
        requires next { revision ≡ suc self.old.current }
        requires fits { revision ≤ last_revision }
        requires there { body ≡ None → fin.contains_key (current_objects self.old) (key_of key.now) ≡ true }
        ensures ok { OnOk result (self.new ≡ written self.old (key_of key.now) (option_map (λ b. b.now) body.entry)) }
        ensures err { OnErr result (self.new ≡ self.old) }
    {
        let write = write_of(self.alloc, key, body)?;
        self.put_all(slice::from_ref(&write))
    }

    /// Adds several changes, as `put` of each in turn, from the next revision on: all of them, or none.
    pub fn put_all(&mut self, writes: &[Write]) -> Result<(), Fault>
        requires fit { self.old.current + length writes.now ≤ last_revision }
        requires there { AreThere (current_objects self.old) (changes_by self.old.current (map write_of writes.now)) }
        ensures ok { OnOk result (self.new ≡ written_all self.old (map write_of writes.now)) }
        ensures err { OnErr result (self.new ≡ self.old) }
    {
        let marks = self.marks();
        self.log.put_all(marks, writes)?;
        self.current = marks.current + writes.len() as u64;
        Ok(())
    }

    /// What stands under a key: what stood there at the current revision.
    pub fn latest(&mut self, key: &Key) -> Result<Option<Object>, Fault>
        ensures ok { IfOk result (λ o. option_map object_of o ≡ fin.get (current_objects self.old) (key_of key.now)) }
        ensures same { self.new ≡ self.old }
    {
        self.latest_at(key, self.current)
    }

    /// What stood under a key at a revision, which counts as the current one if it is past it.
    pub fn latest_at(&mut self, key: &Key, revision: u64) -> Result<Option<Object>, Fault>
        ensures ok { IfOk result (λ o. option_map object_of o ≡ fin.get (state_at self.old.changes revision) (key_of key.now)) }
        ensures same { self.new ≡ self.old }
    {
        let revision = revision.min(self.current);
        let rows = self.newest(key, revision)?;
        match rows.first() {
            None => Ok(None),
            Some(row) => Ok(Some(read_object(row)?)),
        }
    }

    /// The first `max` objects of a type at a revision, in the order of namespace and name: of one namespace or
    /// of all, and from after a namespace and name on. A revision past the current one counts as that.
    pub fn at(
        &mut self,
        kind: u32,
        namespace: Option<&str>,
        revision: u64,
        after: Option<(&str, &str)>,
        max: u64,
    ) -> Result<Vec<Entry>, Fault>
        ensures ok { IfOk result (λ v. map entry_of v.items
            ≡ page kind (option_map (λ b. b.now) namespace.entry) (option_map (λ p. (p.0.now, p.1.now)) after.entry) max (state_at self.old.changes revision)) }
        ensures whole { last_revision ≤ max → IfOk result (λ v. map entry_of v.items
            ≡ listed kind (option_map (λ b. b.now) namespace.entry) (option_map (λ p. (p.0.now, p.1.now)) after.entry) (state_at self.old.changes revision)) }
        ensures same { self.new ≡ self.old }
    {
        self.first_kept(kind, namespace, revision, after, max, &Every)
    }

    /// The first `max` of the objects that `at` lists whose texts are kept. With the last of them reading stops.
    pub fn first_kept<K: Keep>(
        &mut self,
        kind: u32,
        namespace: Option<&str>,
        revision: u64,
        after: Option<(&str, &str)>,
        max: u64,
        keep: &K,
    ) -> Result<Vec<Entry>, Fault>
        ensures ok { IfOk result (λ v. map entry_of v.items
            ≡ first_kept (K.Keep.kept keep.now) max (listed kind (option_map (λ b. b.now) namespace.entry) (option_map (λ p. (p.0.now, p.1.now)) after.entry) (state_at self.old.changes revision))) }
        ensures whole { last_revision ≤ max → IfOk result (λ v. map entry_of v.items
            ≡ kept_among (K.Keep.kept keep.now) (listed kind (option_map (λ b. b.now) namespace.entry) (option_map (λ p. (p.0.now, p.1.now)) after.entry) (state_at self.old.changes revision))) }
        ensures same { self.new ≡ self.old }
    {
        let wanted = Wanted {
            kind,
            revision: revision.min(self.current),
            max,
        };
        paging::listed(self.alloc, self, wanted, namespace, after, keep)
    }

    /// The first `max` changes of a type after one revision up to another, oldest first: of one namespace or of all.
    pub fn span(
        &mut self,
        kind: u32,
        namespace: Option<&str>,
        from: u64,
        to: u64,
        max: u64,
    ) -> Result<Vec<Change>, Fault>
        ensures ok { IfOk result (λ v. map change_of v.items ≡ changes_within kind (option_map (λ b. b.now) namespace.entry) max (up_to to (later from self.old.changes))) }
        ensures whole { last_revision ≤ max → IfOk result (λ v. map change_of v.items ≡ picked kind (option_map (λ b. b.now) namespace.entry) (up_to to (later from self.old.changes))) }
        ensures same { self.new ≡ self.old }
    {
        let from = from.min(self.current);
        let to = to.min(self.current);
        if from >= to {
            return Ok(Vec::new(self.alloc));
        }
        let max = max.min(MOST_ROWS);
        let made = self.made_in(kind, namespace, from, to, max)?;
        let to = reached(&made, max, to)?;
        let deleted = self.deleted_in(kind, namespace, from, to, max)?;
        merged(self.alloc, &made, &deleted, max)
    }

    /// How many rows the objects' table has: as many as there are kept changes with a body, since a deletion has none.
    pub fn rows(&mut self) -> Result<u64, Fault>
        ensures ok { IfOk result (λ n. n ≡ length (with_body self.old.changes)) }
        ensures same { self.new ≡ self.old }
    {
        let rows = self.counted()?;
        match rows.first() {
            None => unreachable!(),
            Some(row) => Ok(row.get(0)?),
        }
    }

    /// Forgets all but the kept changes at a revision. One below the compacted number counts as that number, and one above the
    /// current revision as that revision.
    pub fn prune(&mut self, revision: u64) -> Result<(), Fault>
        ensures ok { OnOk result (self.new ≡ pruned (between_marks self.old revision) self.old) }
        ensures err { OnErr result (self.new ≡ self.old) }
    {
        let to = revision.min(self.current).max(self.compacted);
        let marks = Marks {
            current: self.current,
            compacted: to,
        };
        self.log.prune(marks)?;
        self.compacted = to;
        Ok(())
    }

    /// What a SELECT over the rows of the kept changes shows. Each of `statements` asks here: so it sees a history, and this call alone
    /// is proved at the store that `memory` names.
    pub(crate) fn ask(&mut self, sql: &str, params: &[ValueRef<'_>]) -> Result<Vec<Row>, Fault>
        requires plain { IsPlain (understood the_schema sql.now) }
        requires unlisted { reads_listing the_schema sql.now ≡ false }
        ensures ok { IfOk result (λ rows. IsAnswer sql.now (bound params.now) (stored_of self.old) rows.items) }
        ensures same { self.new ≡ self.old }
        ensures sound { IsPruned self.old }
        ensures there { AreThere fin.empty self.old.changes }
    {
        Ok(self.log.ask(sql, params)?)
    }

    /// The first objects that a SELECT over the same rows shows and that are kept; `first_kept` asks here, as
    /// `statements` ask above.
    pub(crate) fn ask_kept<K: Keep>(
        &mut self,
        sql: &str,
        params: &[ValueRef<'_>],
        max: u64,
        keep: &K,
    ) -> Result<Vec<Entry>, Fault>
        requires plain { IsPlain (understood the_schema sql.now) }
        requires unlisted { reads_listing the_schema sql.now ≡ false }
        requires bare { IsBare (command_in (understood the_schema sql.now)) }
        ensures ok { IfOk result (λ v. AreFirstKept sql.now (bound params.now) (stored_of self.old) (K.Keep.kept keep.now) max (map entry_of v.items)) }
        ensures same { self.new ≡ self.old }
        ensures sound { IsPruned self.old }
    {
        self.log.ask_kept(self.alloc, sql, params, max, keep)
    }
}
