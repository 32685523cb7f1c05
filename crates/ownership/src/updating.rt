//! Updates (POST and PUT): the new content, and who owns what afterwards. Applies stand in `applying`.

ghost use Rattle.std.specs.Prelude.{◌≡◌, IfOk};
ghost use Rattle.std.specs.FinSet as set;
ghost use Rattle.objects.specs.Owners.{manager_by, owned_by, taken_over, update_operation};
ghost use Rattle.schema.specs.Shape.{Shape};
ghost use Rattle.typed.specs.Fitting.{IsContent};
ghost use Rattle.objects.specs.WellTyped.{IsWellTypedState, OwnedArePresent};
ghost use Rattle.ownership.specs.Keeping.{LeavesOwned};
ghost use Rattle.objects.specs.Managers.{manager_view};
ghost use Rattle.objects.specs.Views.{state_of};
ghost use Rattle.ownership.specs.Sides.{OtherSideStays, OwnSides, beside_others};
ghost use Rattle.ownership.specs.Update.{removed, updated};

use crate::parts::beside_others;
use fieldset::FieldSet;
use objects::{Manager, Managers, Operation, Owned, Subresource, changed_from, lacking, paths_in};
use std::alloc::{AllocError, Global};
use typed::Tree;

/// The paths that were there and are no more.
fn removed(alloc: Global, live: &Tree, new: &Tree) -> Result<FieldSet, AllocError>
    ensures { IfOk result (λ s. s ≡ removed live.now new.now) }
{
    lacking(new, alloc, &paths_in(live, alloc)?)
}

/// What the manager owned and is not gone, and what it changed.
fn owned_then(
    managers: &Managers,
    alloc: Global,
    manager: &Manager,
    gone: &FieldSet,
    changed: &FieldSet,
) -> Result<FieldSet, AllocError>
    ensures { IfOk result (λ s. s ≡ set.union (set.difference (owned_by managers.now (manager_view manager.now)) gone.now) changed.now) }
{
    match managers.get(manager) {
        Some(owned) => owned.minus(alloc, gone)?.union(alloc, changed),
        None => changed.try_copy(alloc),
    }
}

/// Who owns what after a manager changed some paths and left others out.
fn owners_then(
    managers: &Managers,
    alloc: Global,
    manager: Manager,
    changed: FieldSet,
    gone: &FieldSet,
) -> Result<Managers, AllocError>
    ensures { IfOk result (λ w. w ≡ taken_over managers.now (manager_view manager) (set.union changed gone.now) (set.union (set.difference (owned_by managers.now (manager_view manager)) gone.now) changed)) }
{
    let owned = owned_then(managers, alloc, &manager, gone, &changed)?;
    let lost = changed.union(alloc, gone)?;
    managers.taken_over(alloc, manager, &lost, owned)
}

/// Replaces the content (Server-Side Apply, "Field management"): `live` is the object before, empty where there is none,
/// `manager` the name of who updates, `subresource` by what, `new` the whole content, of which only what the subresource
/// writes counts, which `is_apart` says: whether the type's status is apart. The rest of what stands stays. Who updates owns what it changed, and keeps what it owned and still stands;
/// the others lose what was changed or removed. An update has no conflict.
pub fn update(
    alloc: Global,
    live: &Owned,
    manager: &str,
    is_apart: bool,
    subresource: Subresource,
    new: Tree,
) -> Result<Owned, AllocError>
    ensures updates { IfOk result (λ o. state_of o ≡ updated (state_of live.now) (beside_others is_apart subresource new live.now.tree) (manager_by manager.now update_operation subresource)) }
    ensures sides { OwnSides is_apart (state_of live.now) → IfOk result (λ o. OwnSides is_apart (state_of o)) }
    ensures apart { OwnSides is_apart (state_of live.now) → IfOk result (λ o. OtherSideStays is_apart subresource (state_of live.now) (state_of o)) }
    ensures stand { OwnedArePresent (state_of live.now) → IfOk result (λ o. OwnedArePresent (state_of o)) }
    ensures well_typed { (s : Shape) → IsContent s new → IsWellTypedState s (state_of live.now) → IfOk result (λ o. IsWellTypedState s (state_of o)) }
    ensures leaves { (s : Shape) → IfOk result (λ o. LeavesOwned s (state_of live.now) (state_of o)) }
{
    let manager = Manager::by(alloc, manager, Operation::Update, subresource)?;
    let new = beside_others(alloc, is_apart, subresource, new, &live.tree)?;
    let changed = changed_from(&new, alloc, &live.tree)?;
    let gone = removed(alloc, &live.tree, &new)?;
    let managers = owners_then(&live.managers, alloc, manager, changed, &gone)?;
    Ok(Owned {
        tree: new,
        managers,
    })
}
