//! Names, keys and values of labels, and versions, as the Kubernetes documentation gives them ("Object Names and IDs";
//! "Labels and Selectors", "Syntax and character set"; "Annotations"; "Resource versions"). Where a request has them is
//! `verbs`'.
//!
//! Each call answers exactly whether a text is of its form, or which number it writes; none takes memory.
//!
//! Stands on std alone.
#![tactic(auto)]

mod decimal;
mod dns;
mod label;

pub use decimal::{LAST_VERSION, decimal_up_to, version_of};
pub use dns::{is_dns_label, is_dns_subdomain};
pub use label::{is_label_key, is_label_value};
