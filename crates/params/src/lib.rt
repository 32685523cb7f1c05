//! The parameters of a request's query (Kubernetes documentation, "Kubernetes API Concepts"). The grammar of label
//! selectors is `selector`'s.
//!
//! A query is read as exactly the values that its verb knows, or refused with the first parameter at fault.
//! A parameter that the verb doesn't know is ignored; given twice it counts at its first place; an empty
//! value is absence.
//!
//! Stands on `names` for versions, `selector` for label selectors, `form_urlencoded` for the query's pairs.
#![tactic(auto)]

mod fault;
mod lenient;
mod parameter;
mod params;
mod query;
mod texts;

pub use fault::ParamsFault;
pub use lenient::lenient_reads_all;
pub use parameter::Parameter;
pub use params::{Asked, Params, Token, VersionMatch, Watch, is_dry_run, is_strict};
pub use texts::BAD_MANAGER;
