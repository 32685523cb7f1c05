//! The paths of a type and its objects, as routes. What a path leads to stands in `place` and `resource`.

ghost use Rattle.std.specs.Prelude.{◌≡◌, OnOk};
ghost use Rattle.matchit.specs.Route.{parse_route};
ghost use Rattle.api_request.specs.Admit.{FitsIn, routes, with_route};

use crate::admitting::{AdmitFault, admitted, document_admitted};
use crate::calls::Target;
use crate::method::Method;
use crate::place::{RequestInfo, place_in};
use crate::resource::Resource;
use api_types::Types;
use matchit::{InsertError, Router};
use std::alloc::{AllocError, Global};

/// The path of all objects of a type, in all namespaces.
const ALL_NAMESPACES: &str = "/apis/{group}/{version}/{plural}";

/// The path of all objects of a type in a namespace.
const COLLECTION: &str = "/apis/{group}/{version}/namespaces/{namespace}/{plural}";

/// An object's path.
const OBJECT: &str = "/apis/{group}/{version}/namespaces/{namespace}/{plural}/{name}";

/// The path of an object's status.
const STATUS: &str = "/apis/{group}/{version}/namespaces/{namespace}/{plural}/{name}/status";

/// Adds a route that can be read and that none conflicts with, so that the router refuses it for memory alone.
fn add(router: &mut Router<Resource>, path: &str, resource: Resource) -> Result<(), AllocError>
    requires { FitsIn router.now (parse_route path.now) }
    ensures { OnOk result (router.new ≡ with_route path.now resource router.old) }
{
    match router.insert(path, resource) {
        Ok(()) => Ok(()),
        Err(InsertError::OutOfMemory) => Err(AllocError),
        Err(InsertError::Conflict { with: _ }) => unreachable!(),
        Err(InsertError::InvalidParamSegment) => unreachable!(),
        Err(InsertError::InvalidParam) => unreachable!(),
        Err(InsertError::InvalidCatchAll) => unreachable!(),
    }
}

/// The routes of the API.
#[derive(Drop)]
pub struct Routes {
    router: Router<Resource>,
    ghost table: { router ≡ routes },
}

impl Routes {
    ghost use Rattle.std.specs.Prelude.{◌≡◌, option_map};
    ghost use Rattle.api_types.specs.Served.{types_view};
    ghost use Rattle.api_request.specs.Admit.{admitted, place_of};
    ghost use Rattle.api_request.specs.Views.{Admits, place_seen};

    /// The four routes.
    pub fn new(alloc: Global) -> Result<Routes, AllocError> {
        let mut router = Router::new(alloc);
        add(&mut router, ALL_NAMESPACES, Resource::AllNamespaces)?;
        add(&mut router, COLLECTION, Resource::Collection)?;
        add(&mut router, OBJECT, Resource::Object)?;
        add(&mut router, STATUS, Resource::Status)?;
        Ok(Routes { router })
    }

    /// What a path leads to; it is of ASCII characters alone, and nothing in it is percent-decoded.
    pub fn place<'p>(&self, types: &Types, path: &'p str) -> Option<RequestInfo<'p>>
        ensures { option_map place_seen result ≡ place_of (types_view types.now) path.now }
    {
        if !path.is_ascii() {
            return None;
        }
        match self.router.at(path) {
            Ok(found) => place_in(types, *found.value, &found.params),
            Err(_) => None,
        }
    }

    /// What a request asks, by its method, its path and the value of its `Content-Type`: the route is validated first,
    /// then the method, then the media type. Of discovered types the path may be a document's, which GET alone serves.
    pub fn admit(
        &self,
        alloc: Global,
        types: &Types,
        method: Option<Method>,
        path: &str,
        media: Option<&[u8]>,
    ) -> Result<Target, AdmitFault>
        ensures { Admits result (admitted (types_view types.now) method path.now (option_map (λ b. b.now) media.entry)) }
    {
        match self.place(types, path) {
            Some(place) => admitted(alloc, place, method, media),
            None => document_admitted(types, method, path),
        }
    }
}
