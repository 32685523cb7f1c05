//! The revisioned store: objects by key, with one counter of revisions for all of them.
//!
//! A store is seen as a view: the current revision, the compacted number, the objects that stood there, and the
//! changes after it. Each answer is a filter of that view, `Expired` and `TooLarge` come exactly outside its
//! range, and a call that fails leaves it as it was. It stands on `history` and `revtable` and names no SQL. The latest
//! changes are answered from memory, in `window`, and so is what was written or read last, in `cached`. The last of them wait, and go
//! into the table together, in `batched`.
#![tactic(auto)]

mod batched;
mod cached;
mod copies;
mod fault;
mod shared;
mod store;
mod window;

pub use fault::{ChangesFault, CompactFault, ListFault, REVISIONS_USED_UP, WriteFault};
pub use store::Store;
