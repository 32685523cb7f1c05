//! Makes the two tables in an empty database: the objects', with an index by key and first revision and one by the revision that
//! ended a row, and that of the two numbers, which has one row. As a write, it is written over any store that never lost a page.

ghost use Rattle.std.specs.Prelude.{◌≡◌, [], ℕ, ◌^◌, ◌<◌, OnOk};
ghost use Rattle.revtable.specs.Rows.{indexed_schema, marks_tree, object_schema, stored_in, the_schema, IsAlwaysClean, IsMade, Keeps};
ghost use Rattle.sqlite.specs.Held.{state};
ghost use Rattle.sqlite.specs.Steps.{IsEmpty};

use sqlite::{Alter, Connection, Error, params};

pub(crate) fn make_objects<S: Alter>(base: &mut Connection<S>) -> Result<(), Error>
    requires clean { IsAlwaysClean S.Store }
    requires empty { IsEmpty (state S.Store base.old) }
    ensures { OnOk result (IsMade object_schema (state S.Store base.new)) }
{
    base.execute(
        "CREATE TABLE object (first INTEGER PRIMARY KEY, kind INTEGER NOT NULL, namespace TEXT NOT NULL, name TEXT NOT NULL, ended INTEGER, gone INTEGER NOT NULL, body TEXT NOT NULL, UNIQUE (kind, namespace, name, first)) STRICT",
        &[],
    )?;
    Ok(())
}

/// It is not UNIQUE, though no revision ends two rows: with each row the library would look through all that nothing ended.
pub(crate) fn make_index<S: Alter>(base: &mut Connection<S>) -> Result<(), Error>
    requires clean { IsAlwaysClean S.Store }
    requires objects { IsMade object_schema (state S.Store base.old) }
    ensures { OnOk result (IsMade indexed_schema (state S.Store base.new)) }
{
    base.execute("CREATE INDEX object_ended ON object (ended)", &[])?;
    Ok(())
}

pub(crate) fn make_marks<S: Alter>(base: &mut Connection<S>) -> Result<(), Error>
    requires clean { IsAlwaysClean S.Store }
    requires objects { IsMade indexed_schema (state S.Store base.old) }
    ensures made { OnOk result (IsMade the_schema (state S.Store base.new)) }
    ensures none { OnOk result ((state S.Store base.new).now.trees marks_tree ≡ []) }
{
    base.execute(
        "CREATE TABLE marks (current INTEGER PRIMARY KEY, compacted INTEGER NOT NULL) STRICT",
        &[],
    )?;
    Ok(())
}

/// Both numbers are this revision.
pub(crate) fn begin_marks<S: Alter>(base: &mut Connection<S>, revision: u64) -> Result<(), Error>
    requires clean { IsAlwaysClean S.Store }
    requires fits { revision < 2 ^ 63 }
    requires made { IsMade the_schema (state S.Store base.old) }
    requires none { (state S.Store base.old).now.trees marks_tree ≡ [] }
    ensures kept { OnOk result (Keeps (record { spans = []; current = revision; compacted = revision }) (state S.Store base.new)) }
    ensures value { OnOk result (stored_in (state S.Store base.new).now ≡ record { spans = []; current = revision; compacted = revision }) }
{
    base.execute(
        "INSERT INTO marks (current, compacted) VALUES (?1, ?1)",
        params![revision as i64],
    )?;
    Ok(())
}
