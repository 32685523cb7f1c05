//! Calls on objects: what each answers and changes at what stands. Calls as data stand in the crate `api_request`, the checks of
//! what they give in `api_validation`, the bytes of requests and replies in `requests`.
//!
//! Promises: what a call answers and changes is the step of the machine, with its checks in their order;
//! a refused call changes nothing, and the subresource `status` alone writes an object's status. The machine is a history
//! whose bodies are texts of objects. A watch tells what is seen of the machine.
//! Stands on `api_request` for calls, `api_validation` for what is checked of them alone, `history` for changes, `revstore` for what
//! stands, `lists` for lists, `watchline` for watches, `objects` for objects and their texts, `ownership` for apply, `typed` for
//! contents, `schema` for types and `params` for parameters.
#![tactic(auto)]

mod answering;
mod api;
mod cached;
mod catalog;
mod conflicts;
mod dry_run;
mod existing;
mod fault;
mod identity;
mod laws;
mod listing;
mod planner;
mod plans;
mod preconditions;
mod presence;
mod retyping;
mod slot;
mod validating;
mod watching;
mod writing;

pub use api::Api;
pub use fault::{Fault, RetypeFault, STORE_FAILED};
pub use laws::{
    applies_keep_others, calls_change_one_object, documents_tell_types, dry_runs_change_nothing,
    errors_are_refusals, machines_stay, other_types_carry, plans_by_views, status_is_apart,
    texts_say_states, updates_take_changes,
};
