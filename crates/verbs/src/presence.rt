//! Refuses a call whose object isn't there, or is there already. What stands is read in `existing`.

ghost use Rattle.std.specs.Prelude.{codes, option_map};
ghost use Rattle.history.specs.Read.{key_of};
ghost use Rattle.api_request.specs.declared.reason.Reason.TheVariants.{AlreadyExists, NotFound};
ghost use Rattle.verbs.specs.PlannerViews.{type_of};
ghost use Rattle.api_request.specs.Views.{Returns, RefusesFor};
ghost use Rattle.verbs.specs.Views.{object_of};
ghost use Rattle.verbs.specs.Step.{said_of_object, require_object_of_status};

use crate::planner::Planner;
use api_request::{CallError, Reason};
use history::{Key, Object};
use ownership::Subresource;

impl Planner<'_> {
    /// The refusal of a call whose object isn't there.
    pub(crate) fn not_found(self, key: &Key) -> CallError
        ensures { RefusesFor result NotFound (said_of_object (type_of self.entry) (key_of key.now).name (codes " not found")) }
    {
        let plural = &self.served.plural;
        let group = &self.served.group;
        let name = &key.name;
        let message = format!(in self.alloc; "{plural}.{group} \"{name}\" not found");
        CallError::reported(self.alloc, Reason::NotFound, message)
    }

    /// A status is written of an object that is there.
    pub(crate) fn check_object_of_status(
        self,
        subresource: Subresource,
        key: &Key,
        existing: Option<&Object>,
    ) -> Result<(), CallError>
        ensures { Returns (λ u. u) result (require_object_of_status subresource (type_of self.entry) (key_of key.now).name (option_map (λ o. object_of o.now) existing.entry)) }
    {
        match (subresource, existing) {
            (Subresource::Status, None) => Err(self.not_found(key)),
            _ => Ok(()),
        }
    }

    /// The refusal of a creation whose object is there already.
    pub(crate) fn already_exists(self, key: &Key) -> CallError
        ensures { RefusesFor result AlreadyExists (said_of_object (type_of self.entry) (key_of key.now).name (codes " already exists")) }
    {
        let plural = &self.served.plural;
        let group = &self.served.group;
        let name = &key.name;
        let message = format!(in self.alloc; "{plural}.{group} \"{name}\" already exists");
        CallError::reported(self.alloc, Reason::AlreadyExists, message)
    }
}
