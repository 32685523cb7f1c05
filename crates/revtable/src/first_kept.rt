//! The first objects of an answer whose texts are kept. The rows of a query are read one at a time, and where enough are found
//! no more are. What is kept stands in `keep`.

ghost use Rattle.std.specs.Prelude.{◌≡◌, [], ◌∷◌, ◌++◌, false, map, IfOk, OnOk};
ghost use Rattle.revtable.specs.Decoded.{entry_shown};
ghost use Rattle.revtable.specs.Kept.{kept_among, AreFirstKept, IsBare};
ghost use Rattle.history.specs.Read.{entry_of};
ghost use Rattle.revtable.specs.Rows.{the_schema, command_in, IsAlwaysClean, Keeps};
ghost use Rattle.revtable.specs.Spans.{Stored};
ghost use Rattle.sqlite.specs.Given.{IsPlain};
ghost use Rattle.sqlite.specs.Held.{state};
ghost use Rattle.sqlite.specs.Listing.{reads_listing, understood};
ghost use Rattle.sqlite.specs.Values.{bound};

use crate::fault::Fault;
use crate::keep::Keep;
use crate::reading::read_key;
use history::{Entry, LAST_REVISION, Object};
use sqlite::types::ValueRef;
use sqlite::{Alter, Connection, Row};
use std::alloc::Global;

/// Adds the object of a row, if its text is kept.
fn push_kept<K: Keep>(found: &mut Vec<Entry>, row: &Row, keep: &K) -> Result<(), Fault>
    ensures { OnOk result (map entry_of found.new.items ≡ map entry_of found.old.items ++ kept_among (K.Keep.kept keep.now) (entry_shown row.now ∷ [])) }
{
    let body: String = row.get(4)?;
    if !keep.keeps(body.as_str())? {
        return Ok(());
    }
    let revision = row.get(0)?;
    let key = read_key(row)?;
    found.push(Entry {
        key,
        object: Object { revision, body },
    })?;
    Ok(())
}

/// The first objects that a SELECT shows and that are kept.
pub(crate) fn read<S: Alter, K: Keep>(
    alloc: Global,
    base: &mut Connection<S>,
    sql: &str,
    params: &[ValueRef<'_>],
    max: u64,
    keep: &K,
) -> Result<Vec<Entry>, Fault>
    requires clean { IsAlwaysClean S.Store }
    requires plain { IsPlain (understood the_schema sql.now) }
    requires unlisted { reads_listing the_schema sql.now ≡ false }
    requires bare { IsBare (command_in (understood the_schema sql.now)) }
    ensures keeps { (st : Stored) → Keeps st (state S.Store base.old) → Keeps st (state S.Store base.new) }
    ensures found { (st : Stored) → Keeps st (state S.Store base.old)
        → IfOk result (λ v. AreFirstKept sql.now (bound params.now) st (K.Keep.kept keep.now) max (map entry_of v.items)) }
{
    let mut found = Vec::new(alloc);
    let mut rows = base.query(sql, params)?;
    'rows: for _ in 0..LAST_REVISION {
        if found.len() as u64 >= max {
            return Ok(found);
        }
        let Some(row) = rows.next()? else {
            return Ok(found);
        };
        push_kept(&mut found, row, keep)?;
    }
    Ok(found)
}
