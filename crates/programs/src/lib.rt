//! What all programs share: arguments, command lines, types files, faults and exit statuses. What only one program does
//! stands in its own crate; scripts and their play stand in `scripts`.
//!
//! Promises: the text of a types file gives the types that it declares, or a fault that names the file and its refusals;
//! each fault has its exit status. The number of an option is read exactly where its text tells one in the option's
//! range.
//! Stands on `api_types` for the types file, on `clap` for the arguments.
#![tactic(auto)]

mod arguments;
mod commands;
mod numbers;
mod resource;
mod run_fault;
mod standard_streams;
mod types_file;
mod types_refusal;

pub use arguments::read_arguments;
pub use commands::{
    DISCOVERY, DISCOVERY_HELP, TYPES, TYPES_HELP, TextOption, file_option, flag_option, program,
    required_option, text_option,
};
pub use numbers::{NumberOption, count_of, number, number_option, port_of};
pub use resource::{Resource, resource_in};
pub use run_fault::{RunFault, WRONG_USAGE, end_with, unread_path};
pub use standard_streams::hold_standard_streams;
pub use types_file::{profile_asked, read_types, types_in, types_text};
pub use types_refusal::{RefusedTypes, TypesRefusal};
