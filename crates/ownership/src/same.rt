//! Whether two objects have the same content and the same owners. What a write does by that stands in `outcome`.

ghost use Rattle.std.specs.Prelude.{◌≡◌, ◌↔◌, IsTrue};
ghost use Rattle.objects.specs.Managers.{pair, pairs};
ghost use Rattle.objects.specs.Views.{state_of};
ghost use Rattle.ownership.specs.Sameness.{same_content, same_entries, same_entry, same_state};

use objects::{Entry, Owned, is_unchanged_from};
use typed::Tree;

fn is_same_entry(mine: &Entry, theirs: &Entry) -> bool
    ensures { result ≡ same_entry (pair mine.now) (pair theirs.now) }
{
    mine.manager.is_same(&theirs.manager)
        && mine.paths.is_within(&theirs.paths)
        && theirs.paths.is_within(&mine.paths)
}

fn are_same_entries(mine: &[Entry], theirs: &[Entry]) -> bool
    ensures { result ≡ same_entries (pairs mine.now) (pairs theirs.now) }
{
    if mine.len() != theirs.len() {
        return false;
    }
    for (one, other) in mine.iter().zip(theirs.iter()) {
        if !is_same_entry(one, other) {
            return false;
        }
    }
    true
}

fn is_same_content(mine: &Tree, theirs: &Tree) -> bool
    ensures { result ≡ same_content mine.now theirs.now }
{
    is_unchanged_from(mine, theirs) && is_unchanged_from(theirs, mine)
}

/// Whether both have the same content and the same owners.
pub fn is_same(one: &Owned, other: &Owned) -> bool
    ensures value { result ≡ same_state (state_of one.now) (state_of other.now) }
    ensures same { IsTrue result ↔ (state_of one.now ≡ state_of other.now) }
{
    is_same_content(&one.tree, &other.tree)
        && are_same_entries(one.managers.entries(), other.managers.entries())
}
