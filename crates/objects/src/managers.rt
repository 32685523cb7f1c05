//! Who owns which paths, over all managers of an object. One manager stands in `manager`.

ghost use Rattle.std.specs.Prelude.{◌≡◌, IfOk, IfSome, filter, not, option_map};
ghost use Rattle.std.specs.List.{insert};
ghost use Rattle.std.specs.FinMap.{find};
ghost use Rattle.std.specs.FinMap as fin;
ghost use Rattle.objects.specs.Owners.{HavePaths, is_same, less, manager_cmp, taken_over};
ghost use Rattle.objects.specs.Carried.{carried_entries, carried_owners, carried_paths};
ghost use Rattle.objects.specs.Managers.{pairs, manager_view};
ghost use Rattle.objects.specs.Parts.{owners_of};
ghost use Rattle.objects.specs.Ranks.{have_paths, rank, rising};

use crate::manager::Manager;
use fieldset::FieldSet;
use std::alloc::{AllocError, Global};
use std::cmp::Ordering;
use std::marker::Model;

/// What one manager owns.
#[derive(Drop)]
pub struct Entry {
    pub manager: Manager,
    /// Never empty in `Managers`.
    pub paths: FieldSet,
}

/// Each manager's paths, in the order of managers; a manager without paths has no entry.
#[derive(Drop)]
pub struct Managers {
    entries: Vec<Entry>,
}

impl Model for Managers {
    ghost use Rattle.std.specs.Prelude.{◌≡◌};
    ghost use Rattle.std.specs.FinMap as fin;
    ghost use Rattle.objects.specs.Codes.{coded_owners};
    ghost use Rattle.objects.specs.Owners.{HavePaths, Owners, manager_cmp};
    ghost use Rattle.objects.specs.Managers.{pairs};

    ghost Value = { Owners };

    ghost coded = { coded_owners };

    ghost view = { λ m. fin.from_entries (pairs m.entries.items) };

    ghost invariant = { λ m. (fin.entries (fin.from_entries {R = manager_cmp} (pairs m.entries.items)) ≡ pairs m.entries.items) × HavePaths (fin.from_entries {R = manager_cmp} (pairs m.entries.items)) };
}

fn rank(entries: &[Entry], manager: &Manager) -> usize
    ensures { result ≡ rank (manager_view manager.now) (pairs entries.now) }
{
    let mut rank = 0;
    for entry in entries {
        if manager.compare(&entry.manager) != Ordering::Greater {
            return rank;
        }
        rank += 1;
    }
    rank
}

/// Whether each entry's manager is above the one before it.
fn are_rising(entries: &[Entry]) -> bool
    ensures { result ≡ rising (pairs entries.now) }
{
    entries.is_sorted_by(|one, next| one.manager.compare(&next.manager).is_lt())
}

fn have_paths(entries: &[Entry]) -> bool
    ensures { result ≡ have_paths (pairs entries.now) }
{
    for entry in entries {
        if entry.paths.is_empty() {
            return false;
        }
    }
    true
}

/// All entries but the manager's, each without some paths; one that is then empty is removed.
fn less_others(
    entries: &[Entry],
    alloc: Global,
    manager: &Manager,
    lost: &FieldSet,
) -> Result<Vec<Entry>, AllocError>
    ensures { IfOk result (λ v. pairs v.items ≡ less lost.now (filter (λ e. not (is_same (manager_view manager.now) e.0)) (pairs entries.now))) }
{
    let mut left = Vec::new(alloc);
    for entry in entries {
        if !manager.is_same(&entry.manager) {
            let paths = entry.paths.minus(alloc, lost)?;
            if !paths.is_empty() {
                left.push(Entry {
                    manager: entry.manager.try_copy()?,
                    paths,
                })?;
            }
        }
    }
    Ok(left)
}

/// What a manager owns where new paths stand in the place of what was below them: those of its paths that still stand,
/// and each new one at or below which it owned one.
fn carried_paths(
    owned: &FieldSet,
    alloc: Global,
    present: &FieldSet,
    new: &FieldSet,
) -> Result<FieldSet, AllocError>
    ensures { IfOk result (λ s. s ≡ carried_paths present.now new.now owned.now) }
{
    let mine = new.minus(alloc, &new.clear_of(alloc, owned)?)?;
    owned.common(alloc, present)?.union(alloc, &mine)
}

/// All entries, each with what its manager owns then; one that is empty is removed.
fn carried_entries(
    entries: &[Entry],
    alloc: Global,
    present: &FieldSet,
    new: &FieldSet,
) -> Result<Vec<Entry>, AllocError>
    ensures { IfOk result (λ v. pairs v.items ≡ carried_entries present.now new.now (pairs entries.now)) }
{
    let mut carried = Vec::new(alloc);
    for entry in entries {
        let paths = carried_paths(&entry.paths, alloc, present, new)?;
        if !paths.is_empty() {
            carried.push(Entry {
                manager: entry.manager.try_copy()?,
                paths,
            })?;
        }
    }
    Ok(carried)
}

fn paths_of<'a>(entries: &'a [Entry], manager: &Manager) -> Option<&'a FieldSet>
    ensures { option_map (λ s. s.now) result ≡ find manager_cmp (manager_view manager.now) (pairs entries.now) }
{
    for entry in entries {
        if manager.is_same(&entry.manager) {
            return Some(&entry.paths);
        }
    }
    None
}

/// The entries with one more, in its place.
fn with_entry(
    entries: Vec<Entry>,
    manager: Manager,
    paths: FieldSet,
) -> Result<Vec<Entry>, AllocError>
    ensures { IfOk result (λ v. pairs v.items ≡ insert (pairs entries.items) (rank (manager_view manager) (pairs entries.items)) (manager_view manager, paths)) }
{
    let place = rank(&entries, &manager);
    let mut all = entries;
    all.insert(place, Entry { manager, paths })?;
    Ok(all)
}

impl Managers {
    /// Nobody owns anything.
    pub fn new(alloc: Global) -> Managers
        ensures { result ≡ fin.empty }
    {
        Managers {
            entries: Vec::new(alloc),
        }
    }

    /// The owners that have these entries, if any: they stand in order, and each has a path.
    pub(crate) fn with_entries(entries: Vec<Entry>) -> Option<Managers>
        ensures owners { result ≡ owners_of (pairs entries.items) }
        ensures entries { IfSome result (λ m. fin.entries m ≡ pairs entries.items) }
    {
        if are_rising(&entries) && have_paths(&entries) {
            Some(Managers { entries })
        } else {
            None
        }
    }

    /// The entries, in order; each has a path.
    pub fn entries(&self) -> &[Entry]
        ensures entries { pairs result.now ≡ fin.entries self.now }
        ensures have_paths { HavePaths self.now }
    {
        &self.entries
    }

    /// What a manager owns; nothing where it has no entry.
    pub fn get(&self, manager: &Manager) -> Option<&FieldSet>
        ensures { option_map (λ s. s.now) result ≡ fin.get self.now (manager_view manager.now) }
    {
        paths_of(&self.entries, manager)
    }

    /// The owners after the others have lost some paths; the manager then owns just the given ones.
    pub fn taken_over(
        &self,
        alloc: Global,
        manager: Manager,
        lost: &FieldSet,
        mine: FieldSet,
    ) -> Result<Managers, AllocError>
        ensures { IfOk result (λ w. w ≡ taken_over self.now (manager_view manager) lost.now mine) }
    {
        let left = less_others(&self.entries, alloc, &manager, lost)?;
        let entries = if mine.is_empty() {
            left
        } else {
            with_entry(left, manager, mine)?
        };
        Ok(Managers { entries })
    }

    /// The owners once new paths stand in the place of what was below them; `present` has all paths that stand then.
    /// Who owned a path at or below a new one owns the new one.
    pub fn carried(
        &self,
        alloc: Global,
        present: &FieldSet,
        new: &FieldSet,
    ) -> Result<Managers, AllocError>
        ensures { IfOk result (λ w. w ≡ carried_owners present.now new.now self.now) }
    {
        let entries = carried_entries(&self.entries, alloc, present, new)?;
        Ok(Managers { entries })
    }
}
