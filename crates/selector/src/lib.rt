//! Selectors: which objects a list or a watch asks for, by their labels and names (Kubernetes documentation, "Labels and
//! Selectors", "Field Selectors"). The labels of an object are read in `lists` and `decoder`.
//!
//! A text is read as its one list of requirements, or refused with its first fault from the left; an object
//! is selected where its labels and its name meet every requirement.
//!
//! Stands on `names` for names, and keys and values of labels.
#![tactic(auto)]

mod fault;
mod fields;
mod requirement;
mod selector;
mod text;

pub use fault::{Fault, ReadError};
pub use selector::Selector;
