//! What a write starts from: the object that stands, and what its text says. What is cached stands in `cached`.

ghost use Rattle.std.specs.Prelude.{◌≡◌, ◌≢◌, Err, IfOk, IfSome, Some, option_map};
ghost use Rattle.api_types.specs.Served as types;
ghost use Rattle.objects.specs.WellTyped.{IsWellTypedState};
ghost use Rattle.objects.specs.Views.{state_of, system_of};
ghost use Rattle.schema.specs.ObjectShape.{IsObjectShape};
ghost use Rattle.api_types.specs.TypesFile.{ServedShape};
ghost use Rattle.history.specs.Read.{key_of};
ghost use Rattle.verbs.specs.ExistingViews.{IsWellDecoded, object_in};
ghost use Rattle.verbs.specs.Machine.{IsReadable, decoded_state, decoded_system, state_of_existing, system_of_existing};
ghost use Rattle.verbs.specs.CachedStateViews.{IsCoherent};
ghost use Rattle.verbs.specs.Views.{object_of};

use crate::cached::CachedState;
use crate::fault::Fault;
use crate::identity::identity_of;
use api_types::Served;
use api_validation::api_version_of;
use history::{Key, Object};
use ownership::{ObjectFault, Owned, Stored, System};
use std::alloc::Global;

/// What stands under a key, and what its text says: an empty state where nothing stands.
#[derive(Drop)]
pub struct Existing {
    pub object: Option<Object>,
    pub state: Owned,
    /// What the system says of it beside the version.
    pub system: Option<System>,
}

impl Existing {
    /// The state that stands, if an object does.
    pub(crate) fn before(&self) -> Option<&Owned>
        ensures { option_map (λ s. state_of s.now) result ≡ option_map (λ o. state_of self.now.state) self.now.object }
    {
        match &self.object {
            Some(_) => Some(&self.state),
            None => None,
        }
    }

    /// What is to be cached of the object, where one stands.
    pub(crate) fn into_cached(self) -> Option<CachedState>
        ensures { (t : ServedShape) → IsWellDecoded t self → IfSome result (IsCoherent t) }
    {
        let Existing {
            object,
            state,
            system,
        } = self;
        match object {
            Some(Object { body, .. }) => Some(CachedState {
                text: body,
                state,
                system,
            }),
            None => None,
        }
    }
}

/// What an object's text says.
pub(crate) fn read_stored(
    alloc: Global,
    served: &Served,
    key: &Key,
    stored: &Object,
) -> Result<Stored, Fault>
    requires { IsObjectShape (types.served served.now).shape }
    ensures state { IfOk result (λ o. state_of o.owned ≡ decoded_state (types.served served.now).shape (object_of stored.now).body) }
    ensures system { IfOk result (λ o. option_map system_of o.system ≡ decoded_system (types.served served.now).shape (object_of stored.now).body) }
    ensures well_typed { IfOk result (λ o. IsWellTypedState (types.served served.now).shape (state_of o.owned)) }
    ensures readable { IsReadable (types.served served.now) (key_of key.now) (Some (object_of stored.now)) → result ≢ Err Fault.Unreadable }
{
    let api_version = api_version_of(alloc, served)?;
    let identity = identity_of(served, key, api_version.as_str());
    match Owned::from_object(alloc, &served.schema, identity, stored.body.as_str()) {
        Ok(read) => Ok(read),
        Err(ObjectFault::NotCanonical) => Err(Fault::Unreadable),
        Err(ObjectFault::Memory) => Err(Fault::Memory),
    }
}

/// What the text of the object that stands says, or nothing: as it is cached of this very text, or else as it is read.
fn said_before(
    alloc: Global,
    served: &Served,
    key: &Key,
    object: Option<&Object>,
    cached: Option<CachedState>,
) -> Result<(Owned, Option<System>), Fault>
    requires shaped { IsObjectShape (types.served served.now).shape }
    requires coherent { IfSome cached (IsCoherent (types.served served.now)) }
    ensures state { IfOk result (λ p. state_of p.0 ≡ state_of_existing (types.served served.now) (option_map (λ o. object_of o.now) object.entry)) }
    ensures system { IfOk result (λ p. option_map system_of p.1 ≡ system_of_existing (types.served served.now) (option_map (λ o. object_of o.now) object.entry)) }
    ensures well_typed { IfOk result (λ p. IsWellTypedState (types.served served.now).shape (state_of p.0)) }
    ensures readable { IsReadable (types.served served.now) (key_of key.now) (option_map (λ o. object_of o.now) object.entry) → result ≢ Err Fault.Unreadable }
{
    let Some(stored) = object else {
        return Ok((Owned::empty(alloc), None));
    };
    match cached {
        Some(known) if known.text == stored.body => Ok((known.state, known.system)),
        _ => {
            let Stored { owned, system, .. } = read_stored(alloc, served, key, stored)?;
            Ok((owned, system))
        }
    }
}

/// What stands under the key, with what its text says.
pub(crate) fn existing_at(
    alloc: Global,
    served: &Served,
    key: &Key,
    object: Option<Object>,
    cached: Option<CachedState>,
) -> Result<Existing, Fault>
    requires shaped { IsObjectShape (types.served served.now).shape }
    requires coherent { IfSome cached (IsCoherent (types.served served.now)) }
    ensures object { IfOk result (λ l. object_in l ≡ option_map object_of object) }
    ensures existing { IfOk result (IsWellDecoded (types.served served.now)) }
    ensures readable { IsReadable (types.served served.now) (key_of key.now) (option_map object_of object) → result ≢ Err Fault.Unreadable }
{
    let (state, system) = said_before(alloc, served, key, object.as_ref(), cached)?;
    Ok(Existing {
        object,
        state,
        system,
    })
}
