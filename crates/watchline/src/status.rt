//! The Status that ends a watch. The refusals of calls, which are reported by a Status too, stand in the crate
//! `api_request`.

ghost use Rattle.std.specs.Prelude.{◌≡◌, IfOk, string_bytes};
ghost use Rattle.serde_json.specs.Written.{compact_text};
ghost use Rattle.watchline.specs.Lines.{expired_message, expired_value};

use answers::{EXPIRED, GONE, status_value};
use std::alloc::{AllocError, Global};

/// The message of the Status that ends a watch: changes after this revision were forgotten, up to the compacted number.
pub fn expired_message(alloc: Global, revision: u64, compacted: u64) -> Result<String, AllocError>
    ensures { IfOk result (λ s. string_bytes s ≡ expired_message revision compacted) }
{
    let revision = revision.to_string(alloc)?;
    let compacted = compacted.to_string(alloc)?;
    let mut message = String::from_str(alloc, "too old resource version: ")?;
    message.push_str(revision.as_str())?;
    message.push_str(" (")?;
    message.push_str(compacted.as_str())?;
    message.push_str(")")?;
    Ok(message)
}

/// The text of the Status: changes after this revision were forgotten.
pub(crate) fn expired_text(
    alloc: Global,
    revision: u64,
    compacted: u64,
) -> Result<String, AllocError>
    ensures { IfOk result (λ s. string_bytes s ≡ compact_text (expired_value (expired_message revision compacted))) }
{
    let message = expired_message(alloc, revision, compacted)?;
    let status = status_value(alloc, GONE, EXPIRED, message.as_str())?;
    Ok(status.to_string(alloc)?)
}
