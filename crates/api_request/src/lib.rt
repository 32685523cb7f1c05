//! Calls on objects, their answers, plans and refusals, as data: what a request asks by its path, its method and its media type.
//! What is checked of a body stands in the crate `api_validation`, what a call comes to in `verbs`.
//!
//! Promises: a path leads where its parts say; a request is refused for its route first, then for its method, then for its
//! media type; documents are there for discovered types alone; a refusal is told by the Status of its reason.
//! Stands on `api_types` for the types that paths name, `discovery` for documents, `objects` for subresources, `history` for
//! keys, `answers` for where a watch begins and for Status objects, `json_values` for values, and on `matchit` for routes.
#![tactic(auto)]

mod admitting;
mod body;
mod call_error;
mod call_refusal;
mod calls;
mod cause_type;
mod change;
mod changes;
mod details;
mod media;
mod method;
mod parts;
mod place;
mod reason;
mod resource;
mod route;
mod route_laws;
mod status;
mod verb;

pub use admitting::{AdmitFault, Denied, NO_PATH, NOT_SERVED};
pub use body::{Body, NOT_JSON};
pub use call_error::CallError;
pub use call_refusal::CallRefusal;
pub use calls::{Answer, CREATED, Call, OK, Plan, Scope, Target};
pub use cause_type::CauseType;
pub use change::Change;
pub use changes::{Changes, Writes};
pub use details::{About, FieldFault, plain_refusals_stay};
pub use media::{APPLY_TYPE, JSON_TYPE};
pub use method::Method;
pub use place::RequestInfo;
pub use reason::Reason;
pub use resource::Resource;
pub use route::Routes;
pub use route_laws::{documents_leave_places, paths_lead_by_parts};
pub use status::status_value;
pub use verb::Verb;
