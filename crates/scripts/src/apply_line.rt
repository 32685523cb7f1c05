//! The request that an apply line makes. The line's text is read in `script`.
ghost use Rattle.std.specs.Prelude.{◌≡◌, IfOk, string_bytes};
ghost use Rattle.scripts.specs.Views.{apply_of};
ghost use Rattle.scripts.specs.Requests.{IsRequestOf, query_of, request_target_of};

use api_request::APPLY_TYPE;
use form_urlencoded::Serializer;
use serde_json::Value;
use std::alloc::{AllocError, Global};
use wireclient::request_bytes;

/// One apply of a body.
#[derive(Debug, Drop)]
pub(crate) struct ApplyLine {
    /// The object's content and envelope.
    pub(crate) body: Value,
    /// Whether conflicts are overridden.
    pub(crate) force: bool,
    /// The name of who applies.
    pub(crate) manager: String,
    /// The object's path, as it stands in a request.
    pub(crate) target: String,
}

/// The query of an apply line: its manager, and whether it takes over what others own.
fn query_of(alloc: Global, line: &ApplyLine) -> Result<String, AllocError>
    ensures { IfOk result (λ s. string_bytes s ≡ query_of (apply_of line.now)) }
{
    let mut query = Serializer::new(String::new(alloc));
    query.append_pair("fieldManager", line.manager.as_str())?;
    if line.force {
        query.append_pair("force", "true")?;
    }
    Ok(query.finish())
}

fn request_target_of(alloc: Global, line: &ApplyLine) -> Result<String, AllocError>
    ensures { IfOk result (λ s. string_bytes s ≡ request_target_of (apply_of line.now)) }
{
    let query = query_of(alloc, line)?;
    let path = line.target.as_str();
    format!(in alloc; "{path}?{query}")
}

/// The request of an apply line.
pub(crate) fn request_of(alloc: Global, line: &ApplyLine) -> Result<Vec<u8>, AllocError>
    ensures { IfOk result (λ v. IsRequestOf (apply_of line.now) v.items) }
{
    let request_target = request_target_of(alloc, line)?;
    let body = line.body.to_string(alloc)?;
    request_bytes(
        alloc,
        "PATCH",
        request_target.as_str(),
        APPLY_TYPE,
        Some(body.as_bytes()),
    )
}
