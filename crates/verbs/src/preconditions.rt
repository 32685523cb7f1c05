//! What a change takes that is to be stored: the version that it names, a revision that is left, and the text of the object. The
//! checks in their order stand in `validating`; the store is written in `writing`.

ghost use Rattle.std.specs.Prelude.{◌≡◌, ◌<◌, IfOk, OnOk, option_map, string_bytes};
ghost use Rattle.history.specs.History.{last_revision};
ghost use Rattle.history.specs.Read.{key_of};
ghost use Rattle.schema.specs.ObjectShape.{IsObjectShape};
ghost use Rattle.typed.specs.Fitting.{IsContent};
ghost use Rattle.objects.specs.Labels.{HasLabels};
ghost use Rattle.objects.specs.Views.{state_of};
ghost use Rattle.api_request.specs.declared.reason.Reason.TheVariants.{Conflict};
ghost use Rattle.verbs.specs.PlannerViews.{type_of};
ghost use Rattle.api_request.specs.Views.{Returns, RefusesFor};
ghost use Rattle.verbs.specs.Views.{object_of};
ghost use Rattle.verbs.specs.Step.{no_object_message, other_version_message, revisions_left, text_at, version_checked};

use crate::identity::identity_of;
use crate::planner::Planner;
use api_request::{CallError, Reason};
use api_validation::api_version_of;
use history::{Key, LAST_REVISION, Object};
use ownership::{Owned, Stamp};
use revstore::REVISIONS_USED_UP;
use std::alloc::{AllocError, Global};

fn no_object(alloc: Global, given: u64) -> CallError
    ensures { RefusesFor result Conflict (no_object_message given) }
{
    let message = format!(in alloc; "version {given} was given and there is no object");
    CallError::reported(alloc, Reason::Conflict, message)
}

fn other_version(alloc: Global, given: u64, stored: u64) -> CallError
    ensures { RefusesFor result Conflict (other_version_message given stored) }
{
    let message = format!(in alloc; "version {given} is not the stored one, {stored}");
    CallError::reported(alloc, Reason::Conflict, message)
}

/// The version that a body names is that of the object that stands.
pub fn check_version(
    alloc: Global,
    version: Option<u64>,
    existing: Option<&Object>,
) -> Result<(), CallError>
    ensures { Returns (λ u. u) result (version_checked version (option_map (λ o. object_of o.now) existing.entry)) }
{
    let Some(given) = version else {
        return Ok(());
    };
    let Some(stored) = existing else {
        return Err(no_object(alloc, given));
    };
    if given == stored.revision {
        return Ok(());
    }
    Err(other_version(alloc, given, stored.revision))
}

impl Planner<'_> {
    /// The text of the object at the key, as compact JSON, and how many labels it has.
    pub(crate) fn printed(
        self,
        key: &Key,
        revision: u64,
        owned: &Owned,
    ) -> Result<(String, usize), AllocError>
        requires shaped { IsObjectShape (type_of self).shape }
        requires content { IsContent (type_of self).shape owned.now.tree }
        ensures text { IfOk result (λ p. string_bytes p.0 ≡ text_at (type_of self.entry) (key_of key.now) revision (state_of owned.now)) }
        ensures labels { IfOk result (λ p. HasLabels p.1 (type_of self.entry).shape (state_of owned.now)) }
    {
        let api_version = api_version_of(self.alloc, self.served)?;
        let identity = identity_of(self.served, key, api_version.as_str());
        let stamp = Stamp::plain(revision);
        owned.to_object_with_labels(self.alloc, &self.served.schema, identity, stamp)
    }

    /// Refuses a change where no revision is left for it.
    pub(crate) fn check_revisions(self) -> Result<(), CallError>
        ensures validated { Returns (λ u. u) result (revisions_left self.entry.current) }
        ensures left { OnOk result (self.entry.current < last_revision) }
    {
        if self.current < LAST_REVISION {
            return Ok(());
        }
        let reason = Reason::ServiceUnavailable;
        Err(CallError::refused_for(self.alloc, reason, REVISIONS_USED_UP))
    }
}
