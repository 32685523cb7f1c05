//! Reads rows as changes and objects. The statements that give the rows stand in `statements`.

ghost use Rattle.std.specs.Prelude.{◌≡◌, IfOk, map};
ghost use Rattle.revtable.specs.Decoded.{key_shown, change_shown, marks_shown, object_shown};
ghost use Rattle.history.specs.Read.{change_of, key_of, object_of};

use crate::fault::Fault;
use history::{Change, Key, Marks, Object};
use sqlite::{Error, Row};
use std::alloc::Global;

pub(crate) fn read_key(row: &Row) -> Result<Key, Error>
    ensures { IfOk result (λ k. key_of k ≡ key_shown row.now) }
{
    Ok(Key {
        kind: row.get(1)?,
        namespace: row.get(2)?,
        name: row.get(3)?,
    })
}

fn read_change(row: &Row) -> Result<Change, Error>
    ensures { IfOk result (λ c. change_of c ≡ change_shown row.now) }
{
    Ok(Change {
        revision: row.get(0)?,
        key: read_key(row)?,
        body: row.get(4)?,
    })
}

pub(crate) fn read_object(row: &Row) -> Result<Object, Error>
    ensures { IfOk result (λ o. object_of o ≡ object_shown row.now) }
{
    Ok(Object {
        revision: row.get(0)?,
        body: row.get(4)?,
    })
}

pub(crate) fn read_changes(alloc: Global, rows: &[Row]) -> Result<Vec<Change>, Fault>
    ensures { IfOk result (λ v. map change_of v.items ≡ map change_shown rows.now) }
{
    let mut all = Vec::new(alloc);
    for row in rows {
        all.push(read_change(row)?)?;
    }
    Ok(all)
}

pub(crate) fn read_marks(row: &Row) -> Result<Marks, Error>
    ensures { IfOk result (λ m. (m.current ≡ (marks_shown row.now).0) × (m.compacted ≡ (marks_shown row.now).1)) }
{
    Ok(Marks {
        current: row.get(0)?,
        compacted: row.get(1)?,
    })
}
