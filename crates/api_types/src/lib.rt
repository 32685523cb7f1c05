//! Types and their schemas, as a types file declares them, and changes of the types. What a schema says of paths is
//! `schema`'s.
//!
//! Promises: a types file reads as exactly the types that it declares, or as its first fault,
//! of which the type and the part of its schema can be told;
//! types may take the place of others just where only sets, map lists and granular maps have become atomic;
//! discovered types differ from the same ones of which no document tells in that mark alone;
//! what a file is refused for is the same for each profile.
//! Stands on `schema` for schemas, on `names` for names, on `serde_json` and `json_values` for the file.
#![tactic(auto)]

mod becoming;
mod change_laws;
mod discovered;
mod fault;
mod fault_place;
mod file;
mod forms;
mod keywords;
mod lawful;
mod locate;
mod profile;
mod profile_laws;
mod read;
mod retyping;
mod served;
mod subresources;
mod type_names;
mod types;

pub use change_laws::{files_mark_none, lawful_changes};
pub use fault::TypesFault;
pub use fault_place::{FaultPlace, LocatedFault, Part, Step};
pub use lawful::is_lawful;
pub use locate::all_places;
pub use profile::Profile;
pub use profile_laws::profiles_are_read;
pub use retyping::{ChangeFault, Retyping};
pub use served::Served;
pub use types::Types;
