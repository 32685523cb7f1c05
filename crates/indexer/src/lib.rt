//! The client's cache of objects, with indexes that follow every change. Which objects come in is `reflector`'s.
//!
//! After any list of calls the objects are the map of those put and not removed since, and each index has,
//! for each of its keys, just the objects to which its function gives this key. A refused call leaves the
//! objects and every index.
//!
//! Stands on std alone.
#![tactic(auto)]

mod by_namespace;
mod entry;
mod index_by;
mod indexer;
mod kept;
mod law;
mod object;
mod postings;
mod texts;

pub use by_namespace::ByNamespace;
pub use index_by::IndexBy;
pub use indexer::{Indexer, IndexerFault};
pub use law::indexes_follow;
pub use object::{Object, ObjectKey};
