//! What answers are made of: a failure's Status (Kubernetes API conventions, "Response Status Kind"), and what a watch begins
//! from (Kubernetes documentation, "Kubernetes API Concepts", "Semantics for watch"). Calls, which are answered by them, stand
//! in `api_request`, watches in `watchline`.
//!
//! A Status has its code, its reason and its message.
//!
//! Stands on `selector` for what a watch asks for, and on `serde_json`.
#![tactic(auto)]

mod status;
mod watch_from;

pub use status::{EXPIRED, GONE, status_value};
pub use watch_from::{InitialEvents, WatchFrom};
