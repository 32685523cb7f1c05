//! What a write does to an object: Server-Side Apply, update, and when two objects are one. Which body is a write, and
//! where its object is stored, is `verbs`'.
//!
//! Promises: an apply is refused for all its conflicts or changes content and owners exactly as defined;
//! without force it changes no path that another manager owns. A write by the main resource leaves `.status` and who owns
//! it as they are, and one by the subresource `status` leaves all else.
//! Stands on `objects` for objects and their owners, on `fieldset` for sets of paths and on `typed` for contents.
#![tactic(auto)]

mod applying;
mod carry;
mod conflict;
mod laws;
mod outcome;
mod parts;
mod same;
mod updating;

pub use applying::apply;
pub use carry::Carry;
pub use conflict::{ApplyFault, Conflict};
pub use laws::same_values_are_shared;
pub use objects::{
    Entry, Identity, Manager, Managers, ObjectFault, Operation, Owned, Stamp, Stored, Subresource,
    System, objects_are_one_for_one,
};
pub use outcome::{Outcome, written_over};
pub use same::is_same;
pub use updating::update;
