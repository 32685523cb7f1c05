//! Carries objects over to another schema of their type: who owns the leaves that are made of what stood below them.
//! What becomes of the content stands in `typed`.

ghost use Rattle.std.specs.Prelude.{IfOk};
ghost use Rattle.schema.specs.Shape.{shape};
ghost use Rattle.objects.specs.WellTyped.{IsWellTypedState};
ghost use Rattle.objects.specs.Views.{state_of};
ghost use Rattle.ownership.specs.Carry.{Carries};

use objects::{Owned, lacking, paths_in};
use schema::NewSchema;
use std::alloc::{AllocError, Global};

/// A change of a type, under which its objects are carried over.
pub trait Carry {
    ghost use Rattle.std.specs.Prelude.{IfOk};
    ghost use Rattle.objects.specs.State.{State};
    ghost use Rattle.objects.specs.Views.{state_of};

    /// Whether an object is one that the change is for.
    ghost takes: { Self → State → Type 0 };

    /// What becomes of an object.
    ghost carries: { Self → State → State → Type 0 };

    /// The object under the new schema.
    fn carry(&self, alloc: Global, object: &Owned) -> Result<Owned, AllocError>
        requires { takes self.now (state_of object.now) }
        ensures { IfOk result (λ o. carries self.now (state_of object.now) (state_of o)) };
}

/// The object under the new schema. Who owned a path at or below a leaf that is made owns that leaf.
fn carried(alloc: Global, object: &Owned, schemas: NewSchema<'_>) -> Result<Owned, AllocError>
    requires { IsWellTypedState (shape schemas.old.now) (state_of object.now) }
    ensures { IfOk result (λ o. Carries (shape schemas.entry.old.now) (shape schemas.entry.new.now) (state_of object.now) (state_of o)) }
{
    let tree = object.tree.carried(alloc, schemas)?;
    let present = paths_in(&tree, alloc)?;
    let made = lacking(&object.tree, alloc, &present)?;
    let managers = object.managers.carried(alloc, &present, &made)?;
    Ok(Owned { tree, managers })
}

impl Carry for NewSchema<'_> {
    ghost use Rattle.schema.specs.Shape.{shape};
    ghost use Rattle.objects.specs.WellTyped.{IsWellTypedState};
    ghost use Rattle.ownership.specs.Carry.{Carries};

    ghost takes = { λ n state. IsWellTypedState (shape n.old.now) state };

    ghost carries = { λ n old new. Carries (shape n.old.now) (shape n.new.now) old new };

    fn carry(&self, alloc: Global, object: &Owned) -> Result<Owned, AllocError> {
        carried(alloc, object, *self)
    }
}
