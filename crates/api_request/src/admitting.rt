//! The checks before a body is read: route, method, media type. What stands in a body is checked in the crate
//! `api_validation`.

ghost use Rattle.std.specs.Prelude.{◌≡◌, IfOk, Err, option_map};
ghost use Rattle.api_types.specs.Served.{types_view};
ghost use Rattle.discovery.specs.Paths.{document_in};
ghost use Rattle.api_request.specs.Admit.{document_admitted, not_admitted, method_served, place_admitted, scope_at, target_at};
ghost use Rattle.api_request.specs.Views.{Admits, place_seen, scope_seen, target_of};

use crate::calls::{Scope, Target};
use crate::method::Method;
use crate::place::RequestInfo;
use crate::reason::Reason;
use crate::resource::Resource;
use crate::verb::Verb;
use api_types::Types;
use discovery::document_in;
use std::alloc::{AllocError, Global};
use thiserror::Error;

/// The message where a path leads nowhere.
pub const NO_PATH: &str = "no such path";

/// The message where a path doesn't serve a method.
pub const NOT_SERVED: &str = "method not served here";

/// Why a request is refused before a call is made of it: by its route, method or media type here, and by the same form for its
/// head, its body, or too many connections.
#[derive(Clone, Copy, Debug, PartialEq, Eq)]
pub struct Denied {
    pub reason: Reason,
    pub message: &'static str,
    /// The value of the field `Allow`, where the method is not served (RFC 9110, section 10.2.1).
    pub allow: Option<&'static str>,
}

/// Why a request was not admitted.
#[derive(Clone, Copy, Debug, PartialEq, Eq, Error)]
pub enum AdmitFault {
    #[error("the request is refused: {}", .0.message)]
    Denied(Denied),
    #[error("out of memory")]
    Memory,
}

impl From<AllocError> for AdmitFault {
    ghost use Rattle.std.specs.Prelude.{◌≡◌};
    ghost use Rattle.api_request.specs.declared.admitting.AdmitFault.TheVariants.{Memory};

    ghost from_gives = { λ _ e. e ≡ Memory };

    fn from(_: AllocError) -> AdmitFault {
        AdmitFault::Memory
    }
}

fn refused(reason: Reason, message: &'static str, allow: Option<&'static str>) -> AdmitFault
    ensures { Admits (Err result) (not_admitted reason message.now (option_map (λ s. s.now) allow.entry)) }
{
    AdmitFault::Denied(Denied {
        reason,
        message,
        allow,
    })
}

/// Which objects a place names.
fn scope_at(alloc: Global, place: RequestInfo<'_>) -> Result<Scope, AllocError>
    ensures { IfOk result (λ s. scope_seen s ≡ scope_at (place_seen place.entry)) }
{
    let Some(namespace) = place.namespace else {
        return Ok(Scope::All);
    };
    let namespace = String::from_str(alloc, namespace)?;
    let Some(name) = place.name else {
        return Ok(Scope::Namespace(namespace));
    };
    let name = String::from_str(alloc, name)?;
    Ok(Scope::Object(namespace, name, place.resource.subresource()))
}

fn target_at(alloc: Global, place: RequestInfo<'_>, verb: Verb) -> Result<Target, AllocError>
    ensures { IfOk result (λ t. target_of t ≡ target_at (place_seen place.entry) verb) }
{
    Ok(Target::Objects(place.kind, scope_at(alloc, place)?, verb))
}

fn method_served(resource: Resource, method: Option<Method>) -> Option<Method>
    ensures { result ≡ method_served resource method }
{
    match method {
        Some(method) if resource.serves(method) => Some(method),
        _ => None,
    }
}

/// What a request of a place asks, by its method and its media type.
pub fn admitted(
    alloc: Global,
    place: RequestInfo<'_>,
    method: Option<Method>,
    media: Option<&[u8]>,
) -> Result<Target, AdmitFault>
    ensures { Admits result (place_admitted (place_seen place.entry) method (option_map (λ b. b.now) media.entry)) }
{
    let Some(method) = method_served(place.resource, method) else {
        let allowed = place.resource.allowed();
        return Err(refused(Reason::MethodNotAllowed, NOT_SERVED, Some(allowed)));
    };
    let Some(verb) = Verb::asked_by(method, media) else {
        return Err(refused(Reason::UnsupportedMediaType, "media type not served", None));
    };
    Ok(target_at(alloc, place, verb)?)
}

/// What a request asks whose path leads to no place: a document of discovery, if there is one.
pub fn document_admitted(
    types: &Types,
    method: Option<Method>,
    path: &str,
) -> Result<Target, AdmitFault>
    ensures { Admits result (document_admitted (document_in (types_view types.now) path.now) method) }
{
    let Some(document) = document_in(types, path) else {
        return Err(refused(Reason::NotFound, NO_PATH, None));
    };
    match method {
        Some(Method::Get) => Ok(Target::Document(document)),
        _ => Err(refused(Reason::MethodNotAllowed, NOT_SERVED, Some("GET"))),
    }
}
