//! What the system says in an object's metadata (Kubernetes API conventions, "Metadata"): the moment of its creation, its uid,
//! and a name that is made of its `generateName`.
//!
//! Each is a function of the epoch, of ticks and of revisions alone, so the same events give the same bytes. Laws say that
//! moments never fall, that no two creations have one uid, and that the names of a round differ (`laws`).
//!
//! Stands on std, `names` and `jiff`.
#![tactic(auto)]

mod digits;
mod generated;
mod laws;
mod moments;
mod taken_names;
mod uids;

pub use generated::{NAMES, free_name, generated_name, is_name_prefix};
pub use laws::{generated_names_differ, moments_have_one_text, moments_never_fall, uids_differ};
pub use moments::{LAST_SECOND, moment, second_at};
pub use taken_names::TakenNames;
pub use uids::uid;
