//! What is asked of objects, by the method of a request and the media type of its body. Which methods a path serves stands in
//! `resource`.

ghost use Rattle.std.specs.Prelude.{◌≡◌, option_map};
ghost use Rattle.api_request.specs.Admit.{verb_asked};

use crate::media::{is_apply, is_json};
use crate::method::Method;

/// Kubernetes docs, "Kubernetes API Concepts", "API Verbs".
#[derive(Clone, Copy, Debug, PartialEq, Eq)]
pub enum Verb {
    /// An object, or a list or a watch of several.
    Get,
    Create,
    Update,
    /// Kubernetes docs, "Server-Side Apply".
    Apply,
    Delete,
}

impl Verb {
    /// What a method asks with a body of this media type; None where that is not accepted.
    pub fn asked_by(method: Method, media: Option<&[u8]>) -> Option<Verb>
        ensures { result ≡ verb_asked method (option_map (λ b. b.now) media.entry) }
    {
        match method {
            Method::Get => Some(Verb::Get),
            Method::Post => is_json(media).then_some(Verb::Create),
            Method::Put => is_json(media).then_some(Verb::Update),
            Method::Patch => is_apply(media).then_some(Verb::Apply),
            Method::Delete => is_json(media).then_some(Verb::Delete),
        }
    }
}
