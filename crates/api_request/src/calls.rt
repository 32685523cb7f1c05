//! Calls, answers and plans as data. How a call is planned stands in `plans` of the crate `verbs`.

ghost use Rattle.std.specs.Prelude.{string_bytes};
ghost use Rattle.api_request.specs.Stored.{IsAnswered, IsAnswered-prop};

use crate::body::Body;
use crate::changes::Changes;
use crate::verb::Verb;
use answers::WatchFrom;
use discovery::Document;
use objects::Subresource;

/// The status code of what is shown or changed (RFC 9110, section 15.3.1).
pub const OK: u16 = 200;

/// The status code of a creation (RFC 9110, section 15.3.2).
pub const CREATED: u16 = 201;

/// Which objects of its type a call is of.
#[derive(Debug, Drop)]
pub enum Scope {
    /// All, in all namespaces.
    All,
    /// All in a namespace.
    Namespace(String),
    /// One, by its namespace and its name, and by a subresource (Kubernetes docs, "Custom Resources", "Status subresource").
    Object(String, String, Subresource),
}

/// What a call is of (Kubernetes docs, "Kubernetes API Concepts", "Resource URIs").
#[derive(Debug, Drop)]
pub enum Target {
    /// Objects of the type with this number, and what is asked of them.
    Objects(u32, Scope, Verb),
    /// A document of discovery, which is got.
    Document(Document),
}

/// What a request asks, once it is read.
#[derive(Debug, Drop)]
pub struct Call {
    pub target: Target,
    /// The query as it stands in the request, without the `?`.
    pub query: Vec<u8>,
    pub body: Option<Body>,
    /// What the client calls itself (RFC 9110, section 10.1.5).
    pub agent: Option<Vec<u8>>,
    /// The time of the last tick before the call, in milliseconds.
    pub ticked: u64,
}

impl Call {
    ghost use Rattle.std.specs.Prelude.{◌≡◌};
    ghost use Rattle.api_request.specs.Calls.{at_tick};
    ghost use Rattle.api_request.specs.Views.{call_of};

    /// The same call after this tick.
    pub fn at_tick(self, ms: u64) -> Call
        ensures { call_of result ≡ at_tick ms (call_of self) }
    {
        Call { ticked: ms, ..self }
    }
}

/// What a call answers: status and body, and the watch that begins, if one does.
#[derive(Debug, Drop)]
pub struct Answer {
    pub status: u16,
    /// The text of an object, of a list or of a Status, as compact JSON; empty where a watch begins.
    pub body: String,
    /// What a watch begins from, whose lines come after the answer.
    pub watch: Option<WatchFrom>,
}

/// The result of a call: the answer, and the changes that it makes, all or none.
#[derive(Drop)]
pub struct Plan {
    pub answer: Answer,
    pub changes: Changes,
    pub ghost answered: { IsAnswered (string_bytes answer.body) changes } by { IsAnswered-prop (string_bytes answer.body) changes },
}

impl Plan {
    ghost use Rattle.std.specs.Prelude.{◌≡◌, option_and_then, option_map};
    ghost use Rattle.api_request.specs.Calls.{only_change};
    ghost use Rattle.api_request.specs.Views.{plan_of};

    /// The text that is stored by the change that is the only one; None where that deletes, and where there isn't one alone.
    pub fn change_body(&self) -> Option<&str>
        ensures { option_map (λ b. b.now) result ≡ option_and_then (λ c. c.body) (only_change (plan_of self.now).changes) }
    {
        match &self.changes {
            Changes::Answered(change) if change.text.is_some() => Some(self.answer.body.as_str()),
            Changes::Each(each) => each.only_body(),
            _ => None,
        }
    }
}
