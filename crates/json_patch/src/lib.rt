//! Patches of JSON values: JSON Patch (RFC 6902), JSON Merge Patch (RFC 7386), and JSON Pointer (RFC 6901).
//!
//! Each call's contract is by the data that a value represents (`Data` of `serde_json`), and by the RFCs' own definitions.
//!
//! Stands on `serde_json` and `json_values`.
#![tactic(auto)]

mod applying;
mod copied_size;
mod equality;
mod members;
mod merge_laws;
mod merging;
mod nesting;
mod numbers;
mod operation;
mod patch_laws;
mod places;
mod placing;
mod pointer;
mod reading_patches;
mod removing;

pub use applying::apply;
pub use merge_laws::{merging_twice_is_merging_once, unnamed_members_stay};
pub use merging::merge_patch;
pub use operation::Operation;
pub use patch_laws::{nothing_is_done_after_a_failure, tests_change_nothing};
pub use pointer::Pointer;
pub use reading_patches::{NoPatch, read_patch};
