//! Compaction, as one transaction: the rows that ended up to a revision are deleted, by the index over the revisions that ended
//! them, and the two numbers are set. If a statement fails, what was deleted stands again. As a write, it is written over any
//! store that never lost a page.

ghost use Rattle.std.specs.Prelude.{◌≡◌, ℕ, ◌^◌, ◌<◌, List, false, OnOk, OnErr};
ghost use Rattle.revtable.specs.Rows.{stored_in, Amid, IsAlwaysClean, IsOrdered, Keeps, Undone};
ghost use Rattle.revtable.specs.Spans.{Stored, pruned_in, without_ended};
ghost use Rattle.sqlite.specs.Held.{state};

use crate::writing::set_marks;
use history::Marks;
use sqlite::{Alter, Connection, Error, Transaction, params};

/// Deletes the rows that ended up to a revision. Without a lower bound the index would be read from its front, where the
/// rows stand that nothing ended.
fn delete_ended<S: Alter>(deleting: &mut Transaction<'_, S>, revision: u64) -> Result<(), Error>
    requires clean { IsAlwaysClean S.Store }
    requires fits { revision < 2 ^ 63 }
    ensures same_reference { deleting.new.conn.ghost_name ≡ deleting.old.conn.ghost_name }
    ensures ok { (start st : Stored) → IsOrdered st.spans → Amid start st (state S.Store deleting.old.conn.now)
        → OnOk result (Amid start (record { spans = without_ended revision st.spans; current = st.current; compacted = st.compacted }) (state S.Store deleting.new.conn.now)) }
    ensures err { (start st : Stored) → Amid start st (state S.Store deleting.old.conn.now) → OnErr result (Undone start (state S.Store deleting.new.conn.now)) }
{
    deleting.execute(
        "DELETE FROM object WHERE ended > 0 AND ended <= ?1",
        params![revision as i64],
    )?;
    Ok(())
}

/// Deletes what a compaction to the new compacted number forgets.
fn forget<S: Alter>(deleting: &mut Transaction<'_, S>, marks: Marks) -> Result<(), Error>
    requires clean { IsAlwaysClean S.Store }
    requires current { marks.current < 2 ^ 63 }
    requires compacted { marks.compacted < 2 ^ 63 }
    ensures same_reference { deleting.new.conn.ghost_name ≡ deleting.old.conn.ghost_name }
    ensures ok { (start st : Stored) → IsOrdered st.spans → Amid start st (state S.Store deleting.old.conn.now)
        → OnOk result (Amid start (pruned_in marks.current marks.compacted st) (state S.Store deleting.new.conn.now)) }
    ensures err { (start st : Stored) → IsOrdered st.spans → Amid start st (state S.Store deleting.old.conn.now) → OnErr result (Undone start (state S.Store deleting.new.conn.now)) }
{
    delete_ended(deleting, marks.compacted)?;
    set_marks(deleting, marks)?;
    Ok(())
}

/// The same as one transaction.
pub(crate) fn prune<S: Alter>(base: &mut Connection<S>, marks: Marks) -> Result<(), Error>
    requires clean { IsAlwaysClean S.Store }
    requires current { marks.current < 2 ^ 63 }
    requires compacted { marks.compacted < 2 ^ 63 }
    requires settled { base.old.in_transaction ≡ false }
    ensures ok { (st : Stored) → IsOrdered st.spans → Keeps st (state S.Store base.old)
        → OnOk result (Keeps (pruned_in marks.current marks.compacted st) (state S.Store base.new)
        × (stored_in (state S.Store base.new).now ≡ pruned_in marks.current marks.compacted st)) }
    ensures err { (st : Stored) → IsOrdered st.spans → Keeps st (state S.Store base.old) → OnErr result (Keeps st (state S.Store base.new)) }
{
    let mut deleting = base.transaction();
    forget(&mut deleting, marks)?;
    deleting.commit()?;
    Ok(())
}
