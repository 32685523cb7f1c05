//! Histories: every change of named objects, one after the other, each with its revision ("Resource versions" of the
//! Kubernetes "API Concepts"). What an object's text says is `objects`'.
//!
//! Here stand the words that the store, the watches and the client share: the objects at a revision, the changes
//! after one, pages of objects, what a compaction keeps and what is still seen after it; and the values that a store takes
//! and answers. The laws of these words are functions with an empty body, and the clauses of each are the law.
//!
//! Stands on std alone.
#![tactic(auto)]

mod change;
mod key;
mod laws;
mod marks;
mod object;
mod page_laws;
mod revision;
mod seen_laws;
mod write;

pub use change::Change;
pub use key::Key;
pub use laws::{
    histories_stay_whole, kept_is_enough, several_writes_at_once, view_of_calls, view_of_kept,
};
pub use marks::Marks;
pub use object::{Entry, Object};
pub use page_laws::{lists_come_in_pages, pages_make_the_list, rows_lead_on};
pub use revision::LAST_REVISION;
pub use seen_laws::{seen_changes_lead_on, seen_changes_one_by_one, seen_stays, types_stand_apart};
pub use write::Write;
