//! What the plans of all calls share: the body of a write, what is shown, and the plan of a refusal, whose Status is made in
//! `api_request`.

ghost use Rattle.std.specs.Prelude.{◌≡◌, ◌≢◌, Err, IfOk, None, option_map, string_bytes};
ghost use Rattle.serde_json.specs.View.{view};
ghost use Rattle.api_request.specs.Json.{IsJson};
ghost use Rattle.api_request.specs.Calls as calls;
ghost use Rattle.api_request.specs.Views.{Returns, answer_of, call_of, call_refusal_of, plan_of};
ghost use Rattle.verbs.specs.Step.{body_of, plan_for, refused};
ghost use Rattle.api_request.specs.Validated.{Validated, refused_for};
ghost use Rattle.answers.specs.Views.{watch_from};

use crate::fault::Fault;
use answers::WatchFrom;
use api_request::{Answer, Call, CallError, CallRefusal, Changes, NOT_JSON, OK, Plan, Reason};
use serde_json::Value;
use std::alloc::{AllocError, Global};

/// The answer 200: a body, or the watch that begins.
pub(crate) fn ok_answer(body: String, watch: Option<WatchFrom>) -> Answer
    ensures { answer_of result ≡ record { status = 200; body = string_bytes body; watch = option_map watch_from watch } }
{
    Answer {
        status: OK,
        body,
        watch,
    }
}

/// The body of a write.
pub fn body_of(alloc: Global, call: &Call) -> Result<&Value, CallError>
    ensures validated { Returns (λ v. view v.now) result (body_of (call_of call.now).body) }
    ensures json { IfOk result (λ v. IsJson (view v.now)) }
{
    match &call.body {
        Some(body) => Ok(&body.value),
        None => Err(CallError::refused_for(alloc, Reason::BadRequest, NOT_JSON)),
    }
}

/// The answer of a refusal.
pub fn refused(alloc: Global, call_refusal: CallRefusal) -> Result<Plan, AllocError>
    ensures { IfOk result (λ p. plan_of p ≡ refused (call_refusal_of call_refusal)) }
{
    let status = call_refusal.reason.code();
    let body = call_refusal.into_text(alloc)?;
    Ok(Plan {
        answer: Answer {
            status,
            body,
            watch: None,
        },
        changes: Changes::None,
    })
}

/// The plan of what was validated: a refusal is answered too.
pub fn plan_for(alloc: Global, validated: Result<Plan, CallError>) -> Result<Plan, Fault>
    ensures plan_for { (answer : Validated calls.Plan) → Returns plan_of validated answer → IfOk result (λ p. plan_of p ≡ plan_for answer) }
    ensures readable { result ≢ Err Fault.Unreadable }
{
    match validated {
        Ok(plan) => Ok(plan),
        Err(CallError::Refused(call_refusal)) => Ok(refused(alloc, call_refusal)?),
        Err(CallError::Memory) => Err(Fault::Memory),
    }
}

/// The plan of a refusal without causes.
pub(crate) fn refused_for(alloc: Global, reason: Reason, message: &str) -> Result<Plan, Fault>
    ensures planned { IfOk result (λ p. plan_of p ≡ plan_for (refused_for reason message.now)) }
    ensures readable { result ≢ Err Fault.Unreadable }
{
    plan_for(alloc, Err(CallError::refused_for(alloc, reason, message)))
}
