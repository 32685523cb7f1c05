//! What is written of a hub's events: the lines of a log, and the lines of a script by which they happen again.
//!
//! Promises: the line of a script is exactly the text of its event, unless other types have a float in them; what the log tells of
//! a reply, or of the end of a watch, has the status, the bytes and the lines of the hub's effects. How a line of the log reads
//! has no contract.
//! Stands on `httpedge` for events and what they do, on `observing` for how a watch is disturbed, on `requests` for what a request
//! asks, on `hex` for the digits of bytes.
#![tactic(auto)]

mod line;
mod log;
mod record;
mod script;

pub use line::{Line, LogCall, Moment, Sink, Told};
pub use log::Log;
pub use record::Record;
pub use script::script_line;
