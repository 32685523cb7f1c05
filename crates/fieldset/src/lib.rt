//! Sets of field paths: what a manager owns. The managers stand in the crate `objects`.
//!
//! Promises: each call is its equation on sets of paths; a FieldsV1 value reads as the one set that it is written of, or
//! as its first fault.
//! Stands on `pathmap` for the trie that holds a set, and on `fieldpath` for paths and their order.
#![tactic(auto)]

mod both_ways;
mod fault;
mod fields_v1;
mod fieldset;
mod values;

pub use both_ways::{readings_are_written, readings_have_places, written_is_read};
pub use fault::FieldsV1Fault;
pub use fieldset::FieldSet;
