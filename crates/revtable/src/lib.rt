//! The changes of named objects, one after the other, in a table over SQL in memory. Which revisions a caller may ask
//! for is `revstore`'s.
//!
//! A table is seen as its history: the changes that are kept, oldest first, with the revision that stands now
//! and the one up to which old changes are forgotten. Each call's answer is a filter of that history, and a call
//! that fails leaves it as it was. It stands on `history` for these words, and on `sqlite` and that crate's promises
//! over files in memory.
#![tactic(auto)]

mod change_log;
mod compaction;
mod fault;
mod file;
mod first_kept;
mod keep;
mod memory;
mod merging;
mod paging;
mod reading;
mod statements;
mod table;
mod tables;
mod writing;

pub use fault::Fault;
pub use keep::Keep;
pub use table::Table;
