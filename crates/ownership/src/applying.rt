//! Server-Side Apply: conflicts, what force takes over, and the object afterwards. Updates stand in `updating`.

ghost use Rattle.std.specs.Prelude.{◌≡◌, ◌++◌, IfOk, OnOk, false, map};
ghost use Rattle.std.specs.FinSet as set;
ghost use Rattle.schema.specs.Shape.{Shape};
ghost use Rattle.pathmap.specs.Beside.{changed as changed_paths};
ghost use Rattle.pathmap.specs.Contents.{Content, dom, in_order};
ghost use Rattle.typed.specs.Fitting.{IsContent};
ghost use Rattle.objects.specs.Owners.{apply_operation, manager_by, others};
ghost use Rattle.ownership.specs.Apply.{applied, clear_of_all, conflicts_with, dropped, is_refused};
ghost use Rattle.ownership.specs.Keeping.{HasPlaces, IsSettled, LeavesOwned, OthersKeep};
ghost use Rattle.objects.specs.WellTyped.{IsWellTypedState, OwnedArePresent};
ghost use Rattle.objects.specs.Managers.{manager_view};
ghost use Rattle.ownership.specs.Results.{Applies, conflict_of};
ghost use Rattle.ownership.specs.Sides.{OtherSideStays, OwnSides, own_part};
ghost use Rattle.objects.specs.Views.{state_of};

use crate::conflict::{ApplyFault, Conflict};
use crate::parts::own_part;
use fieldset::FieldSet;
use objects::{
    Entry, Manager, Managers, Operation, Owned, Subresource, changed_from, paths_in, without,
};
use std::alloc::{AllocError, Global};
use typed::Tree;

/// The paths at or below which no other manager owns one.
fn clear_of_others(
    managers: &Managers,
    alloc: Global,
    manager: &Manager,
    paths: FieldSet,
) -> Result<FieldSet, AllocError>
    ensures { IfOk result (λ s. s ≡ clear_of_all paths (others managers.now (manager_view manager.now))) }
{
    let entries = managers.entries();
    let mut clear = paths;
    for entry in entries {
        if !manager.is_same(&entry.manager) {
            clear = clear.clear_of(alloc, &entry.paths)?;
        }
    }
    Ok(clear)
}

/// Adds a conflict for each of these paths that the entry's manager owns.
fn add_conflicts(
    all: &mut Vec<Conflict>,
    alloc: Global,
    entry: &Entry,
    changed: &FieldSet,
) -> Result<(), AllocError>
    ensures { OnOk result (map conflict_of all.new.items ≡ map conflict_of all.old.items ++ map (λ p. (p, manager_view entry.now.manager)) (in_order (set.intersection entry.now.paths changed.now))) }
{
    let paths = changed.common(alloc, &entry.paths)?.paths(alloc)?;
    for path in paths {
        all.push(Conflict {
            path,
            manager: entry.manager.try_copy()?,
        })?;
    }
    Ok(())
}

/// The paths of a set that other managers own, each with its manager, in order.
fn conflicts_with_others(
    managers: &Managers,
    alloc: Global,
    manager: &Manager,
    changed: &FieldSet,
) -> Result<Vec<Conflict>, AllocError>
    ensures { IfOk result (λ v. map conflict_of v.items ≡ conflicts_with changed.now (others managers.now (manager_view manager.now))) }
{
    let entries = managers.entries();
    let mut all = Vec::new(alloc);
    for entry in entries {
        if !manager.is_same(&entry.manager) {
            add_conflicts(&mut all, alloc, entry, changed)?;
        }
    }
    Ok(all)
}

/// The paths that the manager owned, at or below which neither another manager nor the body has one.
fn dropped(
    alloc: Global,
    live: &Owned,
    manager: &Manager,
    body: &FieldSet,
) -> Result<FieldSet, AllocError>
    ensures { (config : Content) → body.now ≡ dom config → IfOk result (λ s. s ≡ dropped (state_of live.now) config (manager_view manager.now)) }
{
    match live.managers.get(manager) {
        Some(owned) => {
            let left = owned.clear_of(alloc, body)?;
            clear_of_others(&live.managers, alloc, manager, left)
        }
        None => Ok(FieldSet::new(alloc)),
    }
}

/// The object after an apply that nothing refuses; `changed` is what the body has and the object lacks, or has another
/// value at.
fn applied(
    alloc: Global,
    live: &Owned,
    manager: Manager,
    config: Tree,
    changed: &FieldSet,
) -> Result<Owned, AllocError>
    ensures { changed.now ≡ changed_paths config live.now.tree → IfOk result (λ o. state_of o ≡ applied (state_of live.now) config (manager_view manager)) }
{
    let owned = paths_in(&config, alloc)?;
    let dropped = dropped(alloc, live, &manager, &owned)?;
    let tree = without(config.laid_over(alloc, &live.tree)?, &dropped);
    let managers = live.managers.taken_over(alloc, manager, changed, owned)?;
    Ok(Owned { tree, managers })
}

fn is_refused(conflicts: &[Conflict], force: bool) -> bool
    ensures { result ≡ is_refused (map conflict_of conflicts.now) force }
{
    !force && !conflicts.is_empty()
}

/// Applies a body (Server-Side Apply, "Field management"): `live` is the object before, empty where there is none,
/// `manager` the name of who applies, `subresource` by what, `config` the body's content, of which only what the subresource
/// writes counts, which `is_apart` says: whether the type's status is apart. Without `force` a conflict refuses it.
pub fn apply(
    alloc: Global,
    live: &Owned,
    manager: &str,
    is_apart: bool,
    subresource: Subresource,
    config: Tree,
    force: bool,
) -> Result<Owned, ApplyFault>
    ensures applies { Applies (state_of live.now) (own_part is_apart subresource config) (manager_by manager.now apply_operation subresource) force result }
    ensures others { force ≡ false → IfOk result (λ o. OthersKeep (state_of live.now) (state_of o) (manager_by manager.now apply_operation subresource)) }
    ensures sides { OwnSides is_apart (state_of live.now) → IfOk result (λ o. OwnSides is_apart (state_of o)) }
    ensures apart { OwnSides is_apart (state_of live.now) → IfOk result (λ o. OtherSideStays is_apart subresource (state_of live.now) (state_of o)) }
    ensures places { (s : Shape) → HasPlaces s live.now.tree → HasPlaces s config → IfOk result (λ o. HasPlaces s o.tree) }
    ensures stand { OwnedArePresent (state_of live.now) → IfOk result (λ o. OwnedArePresent (state_of o)) }
    ensures leaves { (s : Shape) → HasPlaces s live.now.tree → HasPlaces s config → OwnedArePresent (state_of live.now) → IfOk result (λ o. LeavesOwned s (state_of live.now) (state_of o)) }
    ensures well_typed { (s : Shape) → IsContent s config → IsWellTypedState s (state_of live.now) → IfOk result (λ o. IsWellTypedState s (state_of o)) }
    ensures again { IfOk result (λ o. IsSettled (state_of o) (own_part is_apart subresource config) (manager_by manager.now apply_operation subresource)) }
{
    let manager = Manager::by(alloc, manager, Operation::Apply, subresource)?;
    let config = own_part(alloc, is_apart, subresource, config);
    let changed = changed_from(&config, alloc, &live.tree)?;
    let conflicts = conflicts_with_others(&live.managers, alloc, &manager, &changed)?;
    if is_refused(&conflicts, force) {
        return Err(ApplyFault::Conflicts(conflicts));
    }
    Ok(applied(alloc, live, manager, config, &changed)?)
}
