//! What stands in the two tables of a database. Its store is any that never lost a page (`IsAlwaysClean`): the proofs say what
//! they need of it, and the prover is faster than where the store is named. `memory` has the one that a table stands on.

ghost use Rattle.std.specs.Prelude.{◌≡◌, [], ℕ, ◌+◌, ◌^◌, ◌<◌, IfOk, OnOk, OnErr, length, map, false};
ghost use Rattle.history.specs.History.{IsRising};
ghost use Rattle.history.specs.Read.{entry_of, write_of};
ghost use Rattle.history.specs.Writes.{written_all};
ghost use Rattle.revtable.specs.Kept.{AreFirstKept, IsBare};
ghost use Rattle.revtable.specs.Rows.{the_schema, command_in, IsAlwaysClean, IsAnswer, IsOrdered};
ghost use Rattle.revtable.specs.Spans.{changes_in, history_of, pruned_in, spans_of, stored_of};
ghost use Rattle.sqlite.specs.Given.{IsPlain};
ghost use Rattle.sqlite.specs.Held.{state};
ghost use Rattle.sqlite.specs.Listing.{reads_listing, understood};
ghost use Rattle.sqlite.specs.Steps.{IsEmpty};
ghost use Rattle.sqlite.specs.Values.{bound};

use crate::fault::Fault;
use crate::keep::Keep;
use crate::reading::read_marks;
use crate::tables::{begin_marks, make_index, make_marks, make_objects};
use crate::{compaction, first_kept, writing};
use history::{Entry, Marks, Write};
use sqlite::types::ValueRef;
use sqlite::{Alter, Connection, Error, Row};
use std::alloc::Global;
use std::marker::Model;
use std::snapshot::Snapshot;

/// The tables of a database, seen as what stands in them. A store that fails may shut the database for good. From then on each
/// call answers an error, and the rows are still seen as they were.
pub(crate) struct ChangeLog<S: Alter> {
    base: Connection<S>,
    /// The connection as it was after the last change.
    seen: Snapshot<Connection<S>>,
}

impl<S: Alter> Model for ChangeLog<S> {
    ghost use Rattle.sqlite.specs.Held.{state};
    ghost use Rattle.revtable.specs.Rows.{stored_in, IsAlwaysClean, Keeps};
    ghost use Rattle.revtable.specs.Spans.{Stored};

    ghost Value = { Stored };

    ghost view = { λ l. stored_in (state S.Store l.seen.value).now };

    ghost invariant = { λ l. IsAlwaysClean S.Store × Keeps (stored_in (state S.Store l.seen.value).now) (state S.Store l.base) };
}

// It is written out, so that what holds a log does not prove again how each part is dropped.
impl<S: Alter + Drop> Drop for ChangeLog<S> {
    fn drop(self) {
        let ChangeLog { base: _, seen: _ } = self;
    }
}

impl<S: Alter + Drop> ChangeLog<S> {
    /// The tables of an empty database, made anew: no row, and both numbers are this revision.
    pub(crate) fn new(mut base: Connection<S>, revision: u64) -> Result<ChangeLog<S>, Error>
        requires clean { IsAlwaysClean S.Store }
        requires empty { IsEmpty (state S.Store base) }
        requires fits { revision < 2 ^ 63 }
        ensures { IfOk result (λ log. log ≡ record { spans = []; current = revision; compacted = revision }) }
    {
        make_objects(&mut base)?;
        make_index(&mut base)?;
        make_marks(&mut base)?;
        begin_marks(&mut base, revision)?;
        let seen = Snapshot::of(&base);
        Ok(ChangeLog { base, seen })
    }
}

// These ask no `Drop` of the store, which each caller that names one would have to prove.
impl<S: Alter> ChangeLog<S> {
    /// Writes several changes, one after the other, from these numbers on: all of them, or none.
    pub(crate) fn put_all(&mut self, marks: Marks, writes: &[Write]) -> Result<(), Fault>
        requires current { marks.current ≡ self.old.current }
        requires compacted { marks.compacted ≡ self.old.compacted }
        requires fits { marks.current + length writes.now < 2 ^ 63 }
        requires low { marks.compacted < 2 ^ 63 }
        requires rising { IsRising 0 (changes_in self.old.spans) self.old.current }
        requires rows { self.old.spans ≡ spans_of (changes_in self.old.spans) }
        ensures ok { OnOk result (self.new ≡ stored_of (written_all (history_of self.old) (map write_of writes.now))) }
        ensures err { OnErr result (self.new ≡ self.old) }
    {
        writing::put_all(&mut self.base, marks, writes)?;
        self.seen = Snapshot::of(&self.base);
        Ok(())
    }

    /// Deletes the rows that ended up to the new compacted number: all of them, or none.
    pub(crate) fn prune(&mut self, marks: Marks) -> Result<(), Error>
        requires current { marks.current < 2 ^ 63 }
        requires compacted { marks.compacted < 2 ^ 63 }
        requires ordered { IsOrdered self.old.spans }
        ensures ok { OnOk result (self.new ≡ pruned_in marks.current marks.compacted self.old) }
        ensures err { OnErr result (self.new ≡ self.old) }
    {
        compaction::prune(&mut self.base, marks)?;
        self.seen = Snapshot::of(&self.base);
        Ok(())
    }

    /// What a SELECT over the tables shows. Its clause speaks of what stands in them, where `query_all` speaks of a database; it
    /// is proved over any store.
    pub(crate) fn ask(&mut self, sql: &str, params: &[ValueRef<'_>]) -> Result<Vec<Row>, Error>
        requires plain { IsPlain (understood the_schema sql.now) }
        requires unlisted { reads_listing the_schema sql.now ≡ false }
        ensures ok { IfOk result (λ rows. IsAnswer sql.now (bound params.now) self.old rows.items) }
        ensures same { self.new ≡ self.old }
    {
        self.base.query_all(sql, params)
    }

    /// The first objects that a SELECT over the table shows and that are kept. With the last of them reading stops.
    pub(crate) fn ask_kept<K: Keep>(
        &mut self,
        alloc: Global,
        sql: &str,
        params: &[ValueRef<'_>],
        max: u64,
        keep: &K,
    ) -> Result<Vec<Entry>, Fault>
        requires plain { IsPlain (understood the_schema sql.now) }
        requires unlisted { reads_listing the_schema sql.now ≡ false }
        requires bare { IsBare (command_in (understood the_schema sql.now)) }
        ensures ok { IfOk result (λ v. AreFirstKept sql.now (bound params.now) self.old (K.Keep.kept keep.now) max (map entry_of v.items)) }
        ensures same { self.new ≡ self.old }
    {
        first_kept::read(alloc, &mut self.base, sql, params, max, keep)
    }

    /// The two numbers, read from their table.
    pub(crate) fn marks(&mut self) -> Result<Marks, Fault>
        ensures current { IfOk result (λ m. m.current ≡ self.old.current) }
        ensures compacted { IfOk result (λ m. m.compacted ≡ self.old.compacted) }
        ensures same { self.new ≡ self.old }
    {
        let rows = self.ask("SELECT current, compacted FROM marks", &[])?;
        match rows.first() {
            None => unreachable!(),
            Some(row) => Ok(read_marks(row)?),
        }
    }
}
