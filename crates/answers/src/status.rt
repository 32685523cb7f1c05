//! A failure's Status. The one that ends a watch stands in the crate `watchline`, those of calls' refusals in `api_request`.

ghost use Rattle.std.specs.Prelude.{◌≡◌, IfOk};
ghost use Rattle.serde_json.specs.View.{view};
ghost use Rattle.answers.specs.Status.{status_value};

use serde_json::{Value, json};
use std::alloc::{AllocError, Global};

/// The code of what is no longer kept (RFC 9110, section 15.5.11).
pub const GONE: u16 = 410;

/// The reason where changes were forgotten (Kubernetes API Concepts, "410 Gone responses").
pub const EXPIRED: &str = "Expired";

/// The Status object that reports a failure (Kubernetes API conventions, "Response Status Kind").
pub fn status_value(
    alloc: Global,
    code: u16,
    reason: &str,
    message: &str,
) -> Result<Value, AllocError>
    ensures { IfOk result (λ v. view v ≡ status_value code reason.now message.now) }
{
    json!(in alloc; {
        "apiVersion": "v1",
        "code": code,
        "kind": "Status",
        "message": message,
        "metadata": {},
        "reason": reason,
        "status": "Failure"
    })
}
