//! What the bytes of a connection ask, and the bytes that answer them.
//!
//! What a connection asks depends on the bytes that came and on nothing else, however they were cut; a reply is written
//! byte for byte as the definitions say, and so is a watch, a chunk for each line. Connections, and what they do one
//! after the other, are the crate above (`httpedge`).
//!
//! Stands on `wire` for what both ends say alike, on `api_request` for calls, answers and refusals, on `api_types` for
//! the types that a request is admitted by, on `httparse` for the grammar of a head (RFC 9112), on `http` for phrases
//! and on `serde_json`.
#![tactic(auto)]

mod answering;
mod asking;
mod body;
mod decision;
mod head;
mod head_end;
mod laws;
mod persistence;
mod read_buffer;
mod refusal;
mod reply;
mod request;
mod request_target;
mod watch_chunks;

pub use answering::{answer_bytes, answer_bytes_by, refusal_reply, refusal_reply_by};
pub use asking::{Asked, Pending, Progress, ask, ask_on, ask_sized};
pub use body::{BODY_TOO_LARGE, MAX_BODY};
pub use decision::Decision;
pub use head::{Head, Length, RequestLine, read_head};
pub use laws::{last_replies, one_asked, one_size};
pub use persistence::Persistence;
pub use read_buffer::ReadBuffer;
pub use refusal::Refusal;
pub use reply::{reply_bytes, reply_bytes_by};
pub use request::Request;
pub use request_target::{checked_media, path_of, query_of};
pub use watch_chunks::{chunks, push_chunk, push_end};
