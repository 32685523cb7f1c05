//! The types that are served, and of some of their objects the states that their texts say. These states only save time:
//! a write that finds none reads the object's text, with the same result. They are kept in the slots of `slot`.

use crate::cached::CachedState;
use crate::slot::{Slot, empty_slots, put_in, slot_of, taken_from};
use api_request::{Plan, Scope, Target};
use api_types::Types;
use std::alloc::{AllocError, Global};
use std::marker::Model;

/// The types. Beside them the state that a write read or stored last is cached with its text, so that the next write of the
/// object need not read it back. The model's value is the types alone, so no contract of the API tells what is cached; that
/// each state is the one which its text says is the invariant.
#[derive(Drop)]
pub struct Catalog {
    types: Types,
    slots: Vec<Slot>,
}

impl Model for Catalog {
    ghost use Rattle.std.specs.Prelude.{List};
    ghost use Rattle.api_types.specs.Served.{types_view};
    ghost use Rattle.api_types.specs.TypesFile.{ServedShape};
    ghost use Rattle.verbs.specs.CachedStateViews.{AreCoherent};
    ghost use Rattle.verbs.specs.TypeCodeViews.{coded_types};

    ghost Value = { List ServedShape };

    ghost coded = { coded_types };

    ghost view = { λ c. types_view c.types };

    ghost invariant = { λ c. AreCoherent (types_view c.types) c.slots.items };
}

/// The slot of the only object that a call changes, or else of the one that it names: a POST names none, and its change does.
fn slot_in(kind: u32, scope: &Scope, plan: &Plan) -> Option<usize> {
    let Some(key) = plan.changes.only_key() else {
        return slot_at(kind, scope);
    };
    Some(slot_of(key.kind, key.namespace.as_str(), key.name.as_str()))
}

/// The slot of the object that a call is of, if it names one.
fn slot_at(kind: u32, scope: &Scope) -> Option<usize> {
    match scope {
        Scope::Object(namespace, name, _) => Some(slot_of(kind, namespace.as_str(), name.as_str())),
        Scope::All | Scope::Namespace(_) => None,
    }
}

impl Catalog {
    ghost use Rattle.std.specs.Prelude.{◌≡◌, IfOk, IfSome};
    ghost use Rattle.api_types.specs.Served.{types_view};
    ghost use Rattle.api_request.specs.Views.{target_of};
    ghost use Rattle.verbs.specs.CachedStateViews.{IsCoherentAt, IsCoherentFor};

    /// These types, of whose objects nothing is cached.
    pub(crate) fn new(alloc: Global, types: Types) -> Result<Catalog, AllocError>
        ensures { IfOk result (λ c. c ≡ types_view types) }
    {
        let slots = empty_slots(alloc)?;
        Ok(Catalog { types, slots })
    }

    /// The types.
    pub(crate) fn types(&self) -> &Types
        ensures { types_view result.now ≡ self.now }
    {
        &self.types
    }

    /// What the slot of the object that a call names holds, if it is of the same type: it is returned, and no longer kept
    /// here. It may be of another object of the type; whoever takes it compares the text.
    pub(crate) fn take(&mut self, target: &Target) -> Option<CachedState>
        ensures coherent { IfSome result (IsCoherentFor self.old (target_of target.now)) }
        ensures same { self.new ≡ self.old }
    {
        let Target::Objects(kind, scope, _) = target else {
            return None;
        };
        let at = slot_at(*kind, scope)?;
        self.take_from(at, *kind)
    }

    /// What a slot holds of an object of the type.
    fn take_from(&mut self, at: usize, kind: u32) -> Option<CachedState>
        ensures coherent { IfSome result (IsCoherentAt self.old kind) }
        ensures same { self.new ≡ self.old }
    {
        taken_from(&mut self.slots, at, kind)
    }

    /// Keeps what is cached of an object of the type, if anything is, in a slot.
    fn keep_in(&mut self, at: usize, kind: u32, cached: Option<CachedState>)
        requires { IfSome cached (IsCoherentAt self.old kind) }
        ensures { self.new ≡ self.old }
    {
        if cached.is_some() {
            put_in(&mut self.slots, at, Slot { kind, cached });
        }
    }

    /// Keeps what is to be cached after a call with this plan. Where that is nothing, the slot stays as `take` left
    /// it.
    pub(crate) fn keep(&mut self, target: &Target, plan: &Plan, cached: Option<CachedState>)
        requires { IfSome cached (IsCoherentFor self.old (target_of target.now)) }
        ensures { self.new ≡ self.old }
    {
        let Target::Objects(kind, scope, _) = target else {
            return;
        };
        let Some(at) = slot_in(*kind, scope, plan) else {
            return;
        };
        self.keep_in(at, *kind, cached);
    }
}
