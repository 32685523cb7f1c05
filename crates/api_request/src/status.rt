//! Status objects: the JSON bodies of replies that refuse a request. Their reasons stand in `reason`, what they say of an object
//! and a field in `details`; what each Status has stands in the crate `answers`.

ghost use Rattle.std.specs.Prelude.{◌≡◌, IfOk, codes};
ghost use Rattle.serde_json.specs.Data.{object, put};
ghost use Rattle.serde_json.specs.View.{items_view, view};
ghost use Rattle.api_request.specs.Status.{put_causes, status_members, status_value, with_causes};

use crate::reason::Reason;
use json_values::into_object;
use serde_json::{Value, json};
use std::alloc::{AllocError, Global};

/// The Status object that tells a refusal without causes (Kubernetes API conventions, "Response Status Kind").
pub fn status_value(alloc: Global, reason: Reason, message: &str) -> Result<Value, AllocError>
    ensures { IfOk result (λ v. view v ≡ status_value reason message.now) }
{
    answers::status_value(alloc, reason.code(), reason.text(), message)
}

/// The same, with details.
pub(crate) fn status_with_details(
    alloc: Global,
    reason: Reason,
    message: &str,
    details: Value,
) -> Result<Value, AllocError>
    ensures { IfOk result (λ v. view v ≡ object (put (codes "details") (view details) (status_members reason message.now))) }
{
    let status = status_value(alloc, reason, message)?;
    let Some(mut members) = into_object(status) else {
        unreachable!()
    };
    serde_json::put(&mut members, alloc, "details", details)?;
    Ok(Value::Object(members))
}

/// The same, with causes alone.
fn status_with_some(
    alloc: Global,
    reason: Reason,
    message: &str,
    causes: Vec<Value>,
) -> Result<Value, AllocError>
    ensures { IfOk result (λ v. view v ≡ object (put_causes (items_view causes.items) (status_members reason message.now))) }
{
    let details = json!(in alloc; {"causes": causes})?;
    status_with_details(alloc, reason, message, details)
}

/// The same, with causes, where there are some.
pub(crate) fn status_with_causes(
    alloc: Global,
    reason: Reason,
    message: &str,
    causes: Vec<Value>,
) -> Result<Value, AllocError>
    ensures { IfOk result (λ v. view v ≡ object (with_causes (items_view causes.items) (status_members reason message.now))) }
{
    if causes.is_empty() {
        return status_value(alloc, reason, message);
    }
    status_with_some(alloc, reason, message, causes)
}
