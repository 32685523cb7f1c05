//! Laws that join the two ends of the wire: what each end prints, the other reads; and that the owned leaves of an object
//! stay owned. Each function does nothing; what it promises is the law. What lines and pages say is `line_laws`'.
//!
//! Stands on `httpedge` for the bytes of a reply and of a watch and what a request's bytes say, on `wireclient` for the
//! bytes of a request and the items that a reply's bytes hold, on `verbs` for what a call is answered, on `line_laws` for
//! what a client reads in a page, and on `ownership` for who owns what.
#![tactic(auto)]

mod answering;
mod calls;
mod heads;
mod malformed;
mod owners;
mod plans;
mod replies;
mod turn_lines;
mod watch_lines;
mod watches;

pub use answering::{connections_begin, refused_stay, replies_are_written};
pub use calls::{
    bodies_are_read, long_requests_are_refused, queries_are_read, requests_are_read, requests_ask,
};
pub use heads::heads_end;
pub use malformed::malformed_is_final;
pub use owners::owned_leaves_stay_owned;
pub use plans::{lists_are_planned, watches_are_planned};
pub use replies::{answers_are_read, lists_are_read, refusals_are_read, replies_are_read};
pub use turn_lines::{answers_are_written, turns_are_lines};
pub use watch_lines::watches_write_changes;
pub use watches::{
    ends_are_silent, texts_are_lines, turns_are_read, turns_are_written, watches_are_read,
    watches_begin, watches_write_chunks,
};
