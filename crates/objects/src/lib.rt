//! An object, its content and who owns which paths of it, and its text both ways. What a write does to it is
//! `ownership`'s.
//!
//! Promises: an object's text says one version (and what else the system says), content and owners, and every text that
//! is none is refused;
//! how one content differs from another is its equation on sets of paths.
//! Stands on `fieldset` for sets of paths, on `typed` for contents, on `json_texts` for texts read as values, and written.
#![tactic(auto)]

mod changes;
mod envelope;
mod fault;
mod labels;
mod laws;
mod managed_fields;
mod managed_text;
mod manager;
mod managers;
mod metadata;
mod object;
mod object_text;
mod owned;
mod read_back;
mod system;
mod system_read;

pub use changes::{
    Changes, changed_from, compare, has_all, is_unchanged_from, lacking, paths_in, without,
};
pub use fault::ObjectFault;
pub use laws::{fields_v1_are_textual, objects_are_one_for_one};
pub use manager::{Manager, Operation, Subresource};
pub use managers::{Entry, Managers};
pub use object::Identity;
pub use owned::Owned;
pub use system::{Stamp, Stored, System};
