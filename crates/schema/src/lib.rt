//! Schemas as values: what stands at each path of an object, and what a schema may become. Types and their file are
//! `api_types`', values under a schema `typed`'s.
//!
//! Promises: a schema gives each path at most one place.
//! Stands on `fieldpath` for elements.
#![tactic(auto)]

mod among;
mod new_schema;
mod place;
mod schema;
mod step;

pub use among::is_in;
pub use new_schema::NewSchema;
pub use place::Place;
pub use schema::{ListKind, Schema};
pub use step::{TypeRef, field_at, is_key};
