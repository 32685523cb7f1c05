//! Lists of objects: page by page, of a revision, by selectors (Kubernetes documentation, "Kubernetes API
//! Concepts", "Retrieving large results sets in chunks"). Watches are `watchline`'s.
//!
//! The answer to a list is the text of the page that is asked for: of the objects that are seen at the list's
//! revision, in the order of keys, those after a key, as many as a page holds; it names a next page exactly where
//! an object that is seen is left. Refused is exactly a revision that is compacted or past the current one. For those that
//! ask for the labels of one text after another, as watches do, the labels of the last texts are kept.
//!
//! Stands on `history` for what is seen, `revstore` for the rows, `selector` and `params` for what is asked,
//! `json_values` for labels and names, and `form_urlencoded` for the queries of its laws.
#![tactic(auto)]

mod collection;
mod fault;
mod finding;
mod label_cache;
mod labels;
mod laws;
mod listing;
mod named;
mod page;
mod passing;
mod refusal;
mod revision;
mod rows;
mod text;
mod token_laws;

pub use collection::{Collection, Selected};
pub use fault::ListFault;
pub use label_cache::LabelCache;
pub use laws::lists_are_json;
pub use listing::list;
pub use page::{Page, next_start, selected_page};
pub use refusal::Refusal;
pub use rows::Start;
pub use token_laws::{pages_go_on, tokens_are_read};
