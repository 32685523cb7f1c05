//! Discovery: the documents by which a client finds out which types are served. What a request of one comes to is `verbs`'; types,
//! their file, and whether documents tell of them are `api_types`'; requests are read by who has them.
//!
//! Promises: the text of each document is that of its definition, of the types as they are given; a path has at most one,
//! and none where documents don't tell of the types.
//! Stands on `api_types` for types, on `schema` for schemas, on `json` for writing.
#![tactic(auto)]

mod discovered;
mod document;
mod groups;
mod key_names;
mod likeness;
mod open_api;
mod operations;
mod put;
mod resources;
mod schemas;
mod type_schema;
mod version;

pub use discovered::{document_in, text_in};
pub use document::{Document, ServerDocument, TypeDocument};
