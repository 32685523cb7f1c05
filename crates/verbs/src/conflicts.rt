//! An apply over what stands, and its refusal for conflicts. Conflicts are found in the crate `ownership`.

ghost use Rattle.std.specs.Prelude.{◌≡◌, IfOk, map};
ghost use Rattle.serde_json.specs.View.{items_view, view};
ghost use Rattle.schema.specs.Shape.{Shape};
ghost use Rattle.typed.specs.Fitting.{IsContent};
ghost use Rattle.objects.specs.WellTyped.{IsWellTypedState};
ghost use Rattle.objects.specs.Owners.{apply_operation};
ghost use Rattle.ownership.specs.Results.{conflict_of};
ghost use Rattle.ownership.specs.Sides.{own_part};
ghost use Rattle.objects.specs.Views.{state_of};
ghost use Rattle.api_types.specs.Subresources.{is_apart};
ghost use Rattle.api_validation.specs.Envelope.{api_version_of};
ghost use Rattle.verbs.specs.PlannerViews.{type_of};
ghost use Rattle.api_request.specs.Views.{Returns, call_refusal_of};
ghost use Rattle.verbs.specs.Views.{intent_seen};
ghost use Rattle.verbs.specs.Step.{cause_of, causes_of, conflict_refusal, manager_for, ownership_validated};

use crate::planner::Planner;
use crate::validating::Intent;
use api_request::{CallError, CallRefusal, Reason};
use api_validation::api_version_of;
use ownership::{ApplyFault, Conflict, Owned, apply};
use serde_json::{Value, json};
use std::alloc::{AllocError, Global};

fn cause_of(alloc: Global, api_version: &str, conflict: &Conflict) -> Result<Value, AllocError>
    ensures { IfOk result (λ v. view v ≡ cause_of api_version.now (conflict_of conflict.now)) }
{
    let manager = &conflict.manager.name;
    let message = format!(in alloc; "conflict with \"{manager}\" using {api_version}")?;
    let field = conflict.path.shown(alloc)?;
    json!(in alloc; {
        "field": field,
        "message": message,
        "reason": "FieldManagerConflict"
    })
}

/// Each conflict as a cause (Server-Side Apply, "Conflicts").
fn causes_of(
    alloc: Global,
    api_version: &str,
    conflicts: &[Conflict],
) -> Result<Vec<Value>, AllocError>
    ensures { IfOk result (λ v. items_view v.items ≡ causes_of api_version.now (map conflict_of conflicts.now)) }
{
    let mut causes = Vec::new(alloc);
    for conflict in conflicts {
        causes.push(cause_of(alloc, api_version, conflict)?)?;
    }
    Ok(causes)
}

fn conflict_refusal(
    alloc: Global,
    api_version: &str,
    conflicts: &[Conflict],
) -> Result<CallRefusal, AllocError>
    ensures { IfOk result (λ d. call_refusal_of d ≡ conflict_refusal api_version.now (map conflict_of conflicts.now)) }
{
    let causes = causes_of(alloc, api_version, conflicts)?;
    let count = conflicts.len();
    let message = format!(in alloc; "Apply failed with {count} conflict(s)")?;
    Ok(CallRefusal {
        reason: Reason::Conflict,
        message,
        at: None,
        about: None,
        causes,
    })
}

impl Planner<'_> {
    fn conflicting(self, conflicts: &[Conflict]) -> Result<CallRefusal, AllocError>
        ensures { IfOk result (λ d. call_refusal_of d ≡ conflict_refusal (api_version_of (type_of self.entry)) (map conflict_of conflicts.now)) }
    {
        let api_version = api_version_of(self.alloc, self.served)?;
        conflict_refusal(self.alloc, api_version.as_str(), conflicts)
    }

    /// Applies what is intended over what stands, unless other managers own what it changes.
    pub(crate) fn applied(self, existing: &Owned, intent: Intent<'_>) -> Result<Owned, CallError>
        ensures validated { let i = intent_seen intent.entry in
            Returns state_of result (ownership_validated (api_version_of (type_of self.entry)) (state_of existing.now) (own_part (is_apart (type_of self.entry)) i.subresource i.content) (manager_for apply_operation i) i.is_forced) }
        ensures well_typed { (s : Shape) → IsContent s intent.entry.content → IsWellTypedState s (state_of existing.now) → IfOk result (λ o. IsWellTypedState s (state_of o)) }
    {
        let Intent {
            content,
            manager,
            subresource,
            is_forced,
            ..
        } = intent;
        match apply(
            self.alloc,
            existing,
            manager.as_str(),
            self.served.is_apart(),
            subresource,
            content,
            is_forced,
        ) {
            Ok(owned) => Ok(owned),
            Err(ApplyFault::Conflicts(conflicts)) => {
                Err(CallError::Refused(self.conflicting(&conflicts)?))
            }
            Err(ApplyFault::Memory) => Err(CallError::Memory),
        }
    }
}
