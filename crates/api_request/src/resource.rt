//! What a path leads to, one object, its status or all of a type, and the methods that it serves. The paths stand in `route`.

ghost use Rattle.std.specs.Prelude.{◌≡◌};
ghost use Rattle.api_request.specs.Admit.{allowed, is_status, serves, subresource_at};

use crate::method::Method;
use objects::Subresource;

/// What a path leads to (Kubernetes docs, "Kubernetes API Concepts", "Resource URIs").
#[derive(Clone, Copy, Debug, PartialEq, Eq)]
pub enum Resource {
    /// All objects of a type, in all namespaces.
    AllNamespaces,
    /// All objects of a type in a namespace.
    Collection,
    /// An object in a namespace.
    Object,
    /// Its status (Kubernetes docs, "Custom Resources", "Status subresource").
    Status,
}

impl Resource {
    /// Whether the method is served on it.
    pub fn serves(self, method: Method) -> bool
        ensures { result ≡ serves self method }
    {
        match self {
            Resource::AllNamespaces => method == Method::Get,
            Resource::Collection => method == Method::Get || method == Method::Post,
            Resource::Object => method != Method::Post,
            Resource::Status => method != Method::Post && method != Method::Delete,
        }
    }

    /// The methods that are served on it, as they stand in `Allow`.
    pub fn allowed(self) -> &'static str
        ensures { result.now ≡ allowed self }
    {
        match self {
            Resource::AllNamespaces => "GET",
            Resource::Collection => "GET, POST",
            Resource::Object => "DELETE, GET, PATCH, PUT",
            Resource::Status => "GET, PATCH, PUT",
        }
    }

    /// Whether it is the status of an object.
    pub fn is_status(self) -> bool
        ensures { result ≡ is_status self }
    {
        match self {
            Resource::Status => true,
            Resource::AllNamespaces | Resource::Collection | Resource::Object => false,
        }
    }

    /// Which subresource of an object it is.
    pub fn subresource(self) -> Subresource
        ensures { result ≡ subresource_at self }
    {
        match self {
            Resource::Status => Subresource::Status,
            Resource::AllNamespaces | Resource::Collection | Resource::Object => Subresource::Main,
        }
    }
}
