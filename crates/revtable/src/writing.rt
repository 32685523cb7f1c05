//! Writes as one transaction: for each the row that stands under its key ends, and a row is added for the new object; then the two
//! numbers are set. If a statement fails, those before it are undone. It is written over any store that never lost a page
//! (`IsAlwaysClean`); the table's, over files in memory, is one. The code here doesn't name that one, so the proofs say what
//! they need of a store, and the prover is done sooner.

ghost use Rattle.std.specs.Prelude.{◌≡◌, [], ◌∷◌, ◌++◌, ℕ, ◌+◌, ◌^◌, ◌<◌, List, length, map, pos, IfOk, OnOk, OnErr, None, false, option_map};
ghost use Rattle.std.specs.Option.{option_to_list};
ghost use Rattle.history.specs.History.{Change, History, IsRising};
ghost use Rattle.history.specs.Read.{key_of, write_of};
ghost use Rattle.history.specs.Writes.{written_all};
ghost use Rattle.revtable.specs.Rows.{stored_in, Amid, AreBelow, IsAlwaysClean, IsOrdered, Keeps, Undone};
ghost use Rattle.revtable.specs.Spans.{Stored, ended_by, ended_from, last_span, rows_put, spans_of, spans_until, stored_of};
ghost use Rattle.sqlite.specs.Held.{state};
ghost use Rattle.sqlite.specs.declared.types.Value.TheVariants.{Int};

use crate::fault::Fault;
use history::{Key, Marks, Write};
use sqlite::{Alter, Connection, Error, Row, Transaction, params};

/// The revision that the last row of a key began at, if there is one: the index by key and revision ends with it.
fn last_first<S: Alter>(writing: &mut Transaction<'_, S>, key: &Key) -> Result<Vec<Row>, Error>
    requires clean { IsAlwaysClean S.Store }
    ensures same_reference { writing.new.conn.ghost_name ≡ writing.old.conn.ghost_name }
    ensures ok { (start st : Stored) → IsOrdered st.spans → Amid start st (state S.Store writing.old.conn.now)
        → IfOk result (λ rows. (rows.items ≡ map (λ s. Int (pos s.first) ∷ []) (option_to_list (last_span (key_of key.now) st.spans))) × Amid start st (state S.Store writing.new.conn.now)) }
    ensures err { (start st : Stored) → Amid start st (state S.Store writing.old.conn.now) → OnErr result (Undone start (state S.Store writing.new.conn.now)) }
{
    writing.query_all(
        "SELECT first FROM object WHERE kind = ?1 AND namespace = ?2 AND name = ?3 ORDER BY first DESC LIMIT 1",
        params![key.kind, &key.namespace, &key.name],
    )
}

/// Ends the row that began at a revision, unless it has ended before.
fn end_row<S: Alter>(
    writing: &mut Transaction<'_, S>,
    first: i64,
    revision: u64,
    gone: bool,
) -> Result<(), Error>
    requires clean { IsAlwaysClean S.Store }
    requires fits { revision < 2 ^ 63 }
    ensures same_reference { writing.new.conn.ghost_name ≡ writing.old.conn.ghost_name }
    ensures ok { (start st : Stored) (n : ℕ) → first ≡ pos n → IsOrdered st.spans → Amid start st (state S.Store writing.old.conn.now)
        → OnOk result (Amid start (record { spans = ended_from n revision gone st.spans; current = st.current; compacted = st.compacted }) (state S.Store writing.new.conn.now)) }
    ensures err { (start st : Stored) → Amid start st (state S.Store writing.old.conn.now) → OnErr result (Undone start (state S.Store writing.new.conn.now)) }
{
    writing.execute(
        "UPDATE object SET ended = ?2, gone = ?3 WHERE first = ?1 AND ended IS NULL",
        params![first, revision as i64, gone],
    )?;
    Ok(())
}

/// Ends the row that stands under a key, if one does.
fn end_current_objects<S: Alter>(
    writing: &mut Transaction<'_, S>,
    key: &Key,
    revision: u64,
    gone: bool,
) -> Result<(), Fault>
    requires clean { IsAlwaysClean S.Store }
    requires fits { revision < 2 ^ 63 }
    ensures same_reference { writing.new.conn.ghost_name ≡ writing.old.conn.ghost_name }
    ensures ok { (start st : Stored) (cs : List Change) (top : ℕ) → IsRising 0 cs top → st.spans ≡ spans_of cs → Amid start st (state S.Store writing.old.conn.now)
        → OnOk result (Amid start (record { spans = ended_by (key_of key.now) revision gone st.spans; current = st.current; compacted = st.compacted }) (state S.Store writing.new.conn.now)) }
    ensures err { (start st : Stored) (cs : List Change) (top : ℕ) → IsRising 0 cs top → st.spans ≡ spans_of cs → Amid start st (state S.Store writing.old.conn.now)
        → OnErr result (Undone start (state S.Store writing.new.conn.now)) }
{
    let rows = last_first(writing, key)?;
    let Some(row) = rows.first() else {
        return Ok(());
    };
    let first: i64 = row.get(0)?;
    end_row(writing, first, revision, gone)?;
    Ok(())
}

/// Adds the row of an object that a change makes.
fn add_row<S: Alter>(
    writing: &mut Transaction<'_, S>,
    revision: u64,
    key: &Key,
    body: &str,
) -> Result<(), Error>
    requires clean { IsAlwaysClean S.Store }
    requires fits { revision < 2 ^ 63 }
    ensures same_reference { writing.new.conn.ghost_name ≡ writing.old.conn.ghost_name }
    ensures ok { (start st : Stored) → AreBelow revision st.spans → Amid start st (state S.Store writing.old.conn.now)
        → OnOk result (Amid start (record { spans = st.spans ++ record { first = revision; key = key_of key.now; ended = None; gone = false; body = body.now } ∷ []; current = st.current; compacted = st.compacted }) (state S.Store writing.new.conn.now)) }
    ensures err { (start st : Stored) → Amid start st (state S.Store writing.old.conn.now) → OnErr result (Undone start (state S.Store writing.new.conn.now)) }
{
    writing.execute(
        "INSERT INTO object (first, kind, namespace, name, ended, gone, body) VALUES (?1, ?2, ?3, ?4, NULL, 0, ?5)",
        params![revision as i64, key.kind, &key.namespace, &key.name, body],
    )?;
    Ok(())
}

/// Adds the row of what a change leaves: none, if it is a deletion.
fn begin_row<S: Alter>(
    writing: &mut Transaction<'_, S>,
    revision: u64,
    key: &Key,
    body: Option<&str>,
) -> Result<(), Error>
    requires clean { IsAlwaysClean S.Store }
    requires fits { revision < 2 ^ 63 }
    ensures same_reference { writing.new.conn.ghost_name ≡ writing.old.conn.ghost_name }
    ensures ok { (start st : Stored) → AreBelow revision st.spans → Amid start st (state S.Store writing.old.conn.now)
        → OnOk result (Amid start (record { spans = st.spans ++ spans_until (key_of key.now) revision (option_map (λ b. b.now) body.entry) None; current = st.current; compacted = st.compacted }) (state S.Store writing.new.conn.now)) }
    ensures err { (start st : Stored) → Amid start st (state S.Store writing.old.conn.now) → OnErr result (Undone start (state S.Store writing.new.conn.now)) }
{
    match body {
        None => Ok(()),
        Some(body) => add_row(writing, revision, key, body),
    }
}

/// Sets the two numbers.
pub(crate) fn set_marks<S: Alter>(
    writing: &mut Transaction<'_, S>,
    marks: Marks,
) -> Result<(), Error>
    requires clean { IsAlwaysClean S.Store }
    requires current { marks.current < 2 ^ 63 }
    requires compacted { marks.compacted < 2 ^ 63 }
    ensures same_reference { writing.new.conn.ghost_name ≡ writing.old.conn.ghost_name }
    ensures ok { (start st : Stored) → Amid start st (state S.Store writing.old.conn.now)
        → OnOk result (Amid start (record { spans = st.spans; current = marks.current; compacted = marks.compacted }) (state S.Store writing.new.conn.now)) }
    ensures err { (start st : Stored) → Amid start st (state S.Store writing.old.conn.now) → OnErr result (Undone start (state S.Store writing.new.conn.now)) }
{
    writing.execute(
        "UPDATE marks SET current = ?1, compacted = ?2",
        params![marks.current as i64, marks.compacted as i64],
    )?;
    Ok(())
}

/// Writes the rows of the next change.
fn write_rows<S: Alter>(
    writing: &mut Transaction<'_, S>,
    revision: u64,
    key: &Key,
    body: Option<&str>,
) -> Result<(), Fault>
    requires clean { IsAlwaysClean S.Store }
    requires fits { revision < 2 ^ 63 }
    ensures same_reference { writing.new.conn.ghost_name ≡ writing.old.conn.ghost_name }
    ensures ok { (start st : Stored) (cs : List Change) (top : ℕ) → IsRising 0 cs top → top < revision → st.spans ≡ spans_of cs → Amid start st (state S.Store writing.old.conn.now)
        → OnOk result (Amid start (rows_put revision (key_of key.now) (option_map (λ b. b.now) body.entry) st) (state S.Store writing.new.conn.now)) }
    ensures err { (start st : Stored) (cs : List Change) (top : ℕ) → IsRising 0 cs top → top < revision → st.spans ≡ spans_of cs → Amid start st (state S.Store writing.old.conn.now)
        → OnErr result (Undone start (state S.Store writing.new.conn.now)) }
{
    end_current_objects(writing, key, revision, body.is_none())?;
    begin_row(writing, revision, key, body)?;
    Ok(())
}

/// Writes several changes, each at the revision after the one before; the first is the one after these numbers, which are set once.
fn write_changes<S: Alter>(
    writing: &mut Transaction<'_, S>,
    marks: Marks,
    writes: &[Write],
) -> Result<(), Fault>
    requires clean { IsAlwaysClean S.Store }
    requires current { marks.current + length writes.now < 2 ^ 63 }
    requires compacted { marks.compacted < 2 ^ 63 }
    ensures same_reference { writing.new.conn.ghost_name ≡ writing.old.conn.ghost_name }
    ensures ok { (start : Stored) (h : History) → IsRising 0 h.changes h.current → h.current ≡ marks.current → h.compacted ≡ marks.compacted → Amid start (stored_of h) (state S.Store writing.old.conn.now)
        → OnOk result (Amid start (stored_of (written_all h (map write_of writes.now))) (state S.Store writing.new.conn.now)) }
    ensures err { (start : Stored) (h : History) → IsRising 0 h.changes h.current → h.current ≡ marks.current → h.compacted ≡ marks.compacted → Amid start (stored_of h) (state S.Store writing.old.conn.now)
        → OnErr result (Undone start (state S.Store writing.new.conn.now)) }
{
    let Marks {
        mut current,
        compacted,
    } = marks;
    for write in writes {
        current += 1;
        write_rows(writing, current, &write.key, write.body.as_deref())?;
    }
    set_marks(writing, Marks { current, compacted })?;
    Ok(())
}

/// The same as one transaction: if a statement fails, those before it are undone.
pub(crate) fn put_all<S: Alter>(
    base: &mut Connection<S>,
    marks: Marks,
    writes: &[Write],
) -> Result<(), Fault>
    requires clean { IsAlwaysClean S.Store }
    requires current { marks.current + length writes.now < 2 ^ 63 }
    requires compacted { marks.compacted < 2 ^ 63 }
    requires settled { base.old.in_transaction ≡ false }
    ensures ok { (h : History) → IsRising 0 h.changes h.current → h.current ≡ marks.current → h.compacted ≡ marks.compacted → Keeps (stored_of h) (state S.Store base.old)
        → OnOk result (Keeps (stored_of (written_all h (map write_of writes.now))) (state S.Store base.new)
        × (stored_in (state S.Store base.new).now ≡ stored_of (written_all h (map write_of writes.now)))) }
    ensures err { (h : History) → IsRising 0 h.changes h.current → h.current ≡ marks.current → h.compacted ≡ marks.compacted → Keeps (stored_of h) (state S.Store base.old)
        → OnErr result (Keeps (stored_of h) (state S.Store base.new)) }
{
    let mut writing = base.transaction();
    write_changes(&mut writing, marks, writes)?;
    writing.commit()?;
    Ok(())
}
