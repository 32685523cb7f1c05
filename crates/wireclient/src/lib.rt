//! The client's side of the wire: the bytes of a request, and a reader of replies that is fed in pieces. What a body or
//! a line says is `decoder`'s.
//!
//! However a reply is cut, the items emitted so far are those of the bytes that came: a head, then a body or
//! whole lines, then the end, or what came before a bad byte and then `Malformed`. What is emitted of a prefix of the
//! bytes is emitted of them all.
//!
//! Stands on `wire` for what both ends say alike, `httparse` for the grammar of a head (RFC 9112), `memchr` for the end of
//! a line.
#![tactic(auto)]

mod head;
mod item;
mod laws;
mod reader;
mod request;
mod state;
mod taking;

pub use item::Item;
pub use laws::{
    chunks_read_back, each_reads, long_lines_are_malformed, long_replies_are_malformed,
    one_reading, prefixes_stand, reply_reads_back, watch_reads_back,
};
pub use reader::{ReadFault, ReplyReader};
pub use request::request_bytes;
