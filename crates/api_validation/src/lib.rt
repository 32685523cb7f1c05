//! The checks of what a request gives, whatever stands: the envelope and the shape of its body, names with labels and annotations,
//! parameters, the options of a deletion, and the size of an object. Checks against what stands are in the crate `verbs`, which
//! has the order of all.
//!
//! Promises: each check passes, or refuses with exactly the reason and the message that the definitions say.
//! Stands on `api_request` for refusals, `typed` for the content of a body, `schema` for types, `params` for parameters, `names`
//! for names and versions, `objects` for subresources, `history` for keys and `json_values` for the parts of a body.
#![tactic(auto)]

mod envelope;
mod naming;
mod options;
mod parameters;
mod reading;
mod size;

pub use envelope::{Expected, api_version_of, name_in, validate};
pub use naming::{require_name, validate_labels_and_annotations_by, validate_names};
pub use options::{is_dry_deletion, validate_options};
pub use parameters::{read_parameters, words_are_read};
pub use reading::read_config;
pub use size::validate_size;
