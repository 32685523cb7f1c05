//! Dry runs of types that clients discover: writes that are answered, and change nothing (Kubernetes docs, "Kubernetes API
//! Concepts", "Dry-run"). What a call comes to otherwise stands in `plans`.

ghost use Rattle.std.specs.Prelude.{◌≡◌, ◌≢◌, Err, IfOk, option_map};
ghost use Rattle.api_types.specs.Served.{types_view};
ghost use Rattle.api_request.specs.Calls.{type_at};
ghost use Rattle.api_request.specs.Views.{answer_of, body_seen, call_of, plan_of};
ghost use Rattle.verbs.specs.DryRuns.{asks_in_body, is_dry_run, run_by, shown_over, tried};
ghost use Rattle.verbs.specs.Views.{object_of, objects_in};

use crate::fault::Fault;
use api_request::{Answer, Body, Call, Changes, Plan, Target, Verb};
use api_types::Types;
use api_validation::is_dry_deletion;
use history::Object;
use revstore::Store;
use std::alloc::{AllocError, Global};
use watchline::text_at_version;

/// Whether a body asks for a dry run: only that of a deletion may.
fn asks_in_body(verb: Verb, body: Option<&Body>) -> bool
    ensures { result ≡ asks_in_body verb (option_map (λ b. body_seen b.now) body.entry) }
{
    match verb {
        Verb::Delete => is_dry_deletion(body),
        _ => false,
    }
}

/// Whether a call asks for a dry run, of a type that clients discover.
fn is_dry_run(alloc: Global, types: &Types, call: &Call) -> Result<bool, AllocError>
    ensures { IfOk result (λ b. b ≡ is_dry_run (type_at (types_view types.now) (call_of call.now).target) (call_of call.now)) }
{
    let Target::Objects(kind, _, verb) = &call.target else {
        return Ok(false);
    };
    let Some(served) = types.get(*kind) else {
        return Ok(false);
    };
    if !served.profile.is_discovered() {
        return Ok(false);
    }
    if params::is_dry_run(alloc, &call.query)? {
        return Ok(true);
    }
    Ok(asks_in_body(*verb, call.body.as_ref()))
}

/// An answer with the version of the object that stands, where one does.
fn shown_over(alloc: Global, existing: Option<Object>, answer: Answer) -> Result<Answer, Fault>
    ensures answer { IfOk result (λ a. answer_of a ≡ shown_over (option_map object_of existing) (answer_of answer)) }
    ensures readable { result ≢ Err Fault.Unreadable }
{
    let Some(object) = existing else {
        return Ok(answer);
    };
    let Answer {
        status,
        body,
        watch,
    } = answer;
    let body = text_at_version(alloc, body.as_str(), object.revision)?;
    Ok(Answer {
        status,
        body,
        watch,
    })
}

/// What a dry run of a plan comes to: its answer, and no change.
fn tried(alloc: Global, store: &mut Store, plan: Plan) -> Result<Plan, Fault>
    ensures tried { IfOk result (λ p. plan_of p ≡ tried (objects_in store.old) (plan_of plan)) }
    ensures readable { result ≢ Err Fault.Unreadable }
    ensures same { store.new ≡ store.old }
{
    let Plan { answer, changes } = plan;
    let Some(key) = changes.only_key() else {
        return Ok(Plan {
            answer,
            changes: Changes::None,
        });
    };
    let existing = store.get(key)?;
    let answer = shown_over(alloc, existing, answer)?;
    Ok(Plan {
        answer,
        changes: Changes::None,
    })
}

/// What a call comes to by its plan: a dry run changes nothing. Whether it is one is asked of plans with a change alone.
pub(crate) fn run(
    alloc: Global,
    types: &Types,
    store: &mut Store,
    call: &Call,
    plan: Plan,
) -> Result<Plan, Fault>
    ensures run { IfOk result (λ p. plan_of p ≡ run_by (is_dry_run (type_at (types_view types.now) (call_of call.now).target) (call_of call.now)) (objects_in store.old) (plan_of plan)) }
    ensures readable { result ≢ Err Fault.Unreadable }
    ensures same { store.new ≡ store.old }
{
    if plan.changes.is_none() {
        return Ok(plan);
    }
    if is_dry_run(alloc, types, call)? {
        return tried(alloc, store, plan);
    }
    Ok(plan)
}
