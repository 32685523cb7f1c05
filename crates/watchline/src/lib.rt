//! Watches of objects, line by line (Kubernetes documentation, "Kubernetes API Concepts", "Efficient detection of
//! changes"). The chunks around the lines are `requests`'.
//!
//! A watch sends first the objects that stood when it was opened, if it names no version, and then each change that
//! its selection sees after its position. A pump sends the first so many of what is still to be sent and moves the
//! position; a watch that has missed forgotten changes ends with an error; a bookmark sends the position alone. A
//! call that fails leaves the cursor where it stood. Where two cursors stand alike, the lines of one are the other's,
//! which then moves to where the first stands.
//!
//! Stands on `history` for what is seen, `revstore` for the changes, `lists` for the objects and their labels, `answers`
//! for what a watch begins from and for Status objects, `json_values` for the parts of an object's value and for copies.
#![tactic(auto)]

mod batches;
mod cursor;
mod event;
mod laws;
mod lines;
mod objects;
mod opening;
mod seen;
mod sending;
mod status;
mod version;

pub use cursor::{Pumped, ResumePoint, WatchCursor};
pub use event::EventType;
pub use laws::{positions_skip_nothing, turns_send_in_order, watches_by_views};
pub use lines::line;
pub use opening::start_watch;
pub use status::expired_message;
pub use version::text_at_version;
