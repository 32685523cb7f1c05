//! What is cached of an object's text: what it says. It is kept in the slots of `slot`.

ghost use Rattle.std.specs.Prelude.{◌≡◌, IfSome, List, option_map, string_bytes};
ghost use Rattle.api_types.specs.TypesFile.{ServedShape};
ghost use Rattle.api_request.specs.Calls.{Target};
ghost use Rattle.objects.specs.Views.{state_of, system_of};
ghost use Rattle.verbs.specs.CachedStateViews.{AreCoherentFor, IsCoherent, IsCoherentFor, IsDecodedFrom, IsSystemFrom};

use api_request::Plan;
use ownership::{Owned, System};

/// An object's text, and what it says: the state, and what the system says beside the version.
#[derive(Drop)]
pub struct CachedState {
    pub text: String,
    pub state: Owned,
    pub system: Option<System>,
}

/// The plan of a write, and the state that its text says: none where it changes nothing, or deletes.
#[derive(Drop)]
pub struct WritePlan {
    pub plan: Plan,
    pub cached: Option<CachedState>,
}

/// What is cached of the object of a call while the call is planned: the state that stands, and the one that the plan's change
/// stores.
#[derive(Drop)]
pub struct PlannedStates {
    pub standing: Option<CachedState>,
    pub stored: Option<CachedState>,
}

impl PlannedStates {
    /// What is cached after the call: where it changes nothing, the state that stands.
    pub(crate) fn after(self, plan: &Plan) -> Option<CachedState>
        ensures { (types : List ServedShape) (target : Target) → AreCoherentFor types target self → IfSome result (IsCoherentFor types target) }
    {
        let PlannedStates { standing, stored } = self;
        if plan.changes.is_none() {
            standing
        } else {
            stored
        }
    }
}

/// What a text says, under the text; nothing if there is no room in memory for the text's copy.
pub(crate) fn cache_state(
    text: &String,
    state: Owned,
    system: Option<System>,
) -> Option<CachedState>
    ensures { (t : ServedShape) → IsDecodedFrom t (string_bytes text.now) (state_of state) → IsSystemFrom t (string_bytes text.now) (option_map system_of system)
        → IfSome result (IsCoherent t) }
{
    match text.clone() {
        Ok(text) => Some(CachedState {
            text,
            state,
            system,
        }),
        Err(_) => None,
    }
}
