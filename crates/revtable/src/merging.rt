//! The changes of a span, merged by revision: the objects that changes left, and the deletions. Each statement gives its part, by
//! an index of its own.

ghost use Rattle.std.specs.Prelude.{◌≡◌, ◌≤◌, ℕ, List, map, take, IfOk};
ghost use Rattle.history.specs.History.{Change as TheChange, IsRising, up_to};
ghost use Rattle.history.specs.Kept.{with_body};
ghost use Rattle.revtable.specs.Asked.{deletions};
ghost use Rattle.history.specs.Read.{change_of};
ghost use Rattle.revtable.specs.Rows.{shown};

use crate::fault::Fault;
use crate::reading::read_changes;
use history::Change;
use sqlite::{Error, Row};
use std::alloc::Global;

/// The revision up to which the objects' part is whole, where it has at most `max` rows: that of its last row, if it has so
/// many, and else `to`. Deletions after it aren't asked for, so that a statement doesn't read all that ended since.
pub(crate) fn reached(made: &[Row], max: u64, to: u64) -> Result<u64, Error>
    ensures within { IfOk result (λ t. t ≤ to) }
    ensures ok { (cs : List TheChange) → IsRising 0 cs to → made.now ≡ map shown (take max (with_body cs))
        → IfOk result (λ t. (take max (up_to t cs) ≡ take max cs) × (take max (with_body (up_to t cs)) ≡ take max (with_body cs))) }
{
    match made.get(max.saturating_sub(1) as usize) {
        None => Ok(to),
        Some(row) => {
            let last: u64 = row.get(0)?;
            Ok(last.min(to))
        }
    }
}

/// The first `max` of the changes of which these are the first `max` that left an object and the first `max` deletions.
pub(crate) fn merged(
    alloc: Global,
    made: &[Row],
    deleted: &[Row],
    max: u64,
) -> Result<Vec<Change>, Fault>
    ensures { (cs : List TheChange) (top : ℕ) → IsRising 0 cs top → made.now ≡ map shown (take max (with_body cs)) → deleted.now ≡ map shown (take max (deletions cs))
        → IfOk result (λ v. map change_of v.items ≡ take max cs) }
{
    let mut changes = read_changes(alloc, made)?;
    let mut others = read_changes(alloc, deleted)?;
    changes.append(&mut others)?;
    changes.sort_unstable_by_key(|change| change.revision);
    changes.truncate(max as usize);
    Ok(changes)
}
