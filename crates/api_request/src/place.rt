//! The place in the routes that a path leads to. The routes stand in `route`.

ghost use Rattle.std.specs.Prelude.{◌≡◌, option_map};
ghost use Rattle.matchit.specs.Params.{AllText};
ghost use Rattle.api_types.specs.Served.{types_view};
ghost use Rattle.api_request.specs.Admit.{Parts, has_status, kind_in, kind_with, place_in};
ghost use Rattle.api_request.specs.Parts.{AreParts};
ghost use Rattle.api_request.specs.Views.{parts_of, place_seen};

use crate::parts::{PathParts, parts_in};
use crate::resource::Resource;
use api_types::Types;
use matchit::Params;

/// The place that a path leads to.
#[derive(Clone, Copy, Debug)]
pub struct RequestInfo<'p> {
    pub resource: Resource,
    /// The number of the type.
    pub kind: u32,
    pub namespace: Option<&'p str>,
    pub name: Option<&'p str>,
}

/// The number of the type that the parts of a path name.
fn kind_in(types: &Types, parts: PathParts<'_>) -> Option<u32>
    ensures { (all : Parts) → AreParts parts.entry all → result ≡ kind_in (types_view types.now) all }
{
    types.find(parts.group?, parts.version?, parts.plural?)
}

/// Whether objects of the type with this number have a status.
fn has_status(types: &Types, kind: u32) -> bool
    ensures { result ≡ has_status (types_view types.now) kind }
{
    match types.get(kind) {
        Some(served) => served.has_status(),
        None => false,
    }
}

/// A type, where it has the resource.
fn kind_with(types: &Types, resource: Resource, kind: Option<u32>) -> Option<u32>
    ensures { result ≡ kind_with (types_view types.now) resource kind }
{
    match kind {
        Some(kind) if resource.is_status() && !has_status(types, kind) => None,
        _ => kind,
    }
}

/// The type, namespace and name that a route's parameters name, if the type is served and has the
/// resource.
pub fn place_in<'p>(
    types: &Types,
    resource: Resource,
    params: &Params<'_, 'p>,
) -> Option<RequestInfo<'p>>
    requires { AllText (parts_of params.now) }
    ensures { option_map place_seen result ≡ place_in (types_view types.now) resource (parts_of params.now) }
{
    let parts = parts_in(params);
    Some(RequestInfo {
        resource,
        kind: kind_with(types, resource, kind_in(types, parts))?,
        namespace: parts.namespace,
        name: parts.name,
    })
}
