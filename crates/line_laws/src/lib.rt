//! Laws of the lines of watches and of the pages of lists: what the server prints, the client reads, what a watch sends
//! is all there was to send, and what selects an object is what it holds. Each function does nothing; what it promises
//! is the law. The bytes around lines and pages are `wire_laws`'.
//!
//! Stands on `watchline` for the lines, `lists` for the pages and for the labels that an object's text gives, `decoder`
//! for what either says to a client, `objects` for the texts of objects.
#![tactic(auto)]

mod deletions;
mod following;
mod label_laws;
mod lines;
mod page_laws;

pub use deletions::deletions_show_the_object;
pub use following::{bookmarks_come_behind, watches_send_all};
pub use label_laws::{
    keys_name_texts, label_selectors_ask_labels, labels_are_of_contents, names_are_of_objects,
    names_select_objects, readers_agree,
};
pub use lines::{lines_are_lines, lines_are_read, objects_are_read};
pub use page_laws::pages_are_read;
