//! What both ends of the wire do alike: pieces are read and bytes are written over any reader and writer; and what both
//! say alike (RFC 9112): the limits of a head, where it ends, its fields by their names, and lengths in digits. In
//! `specs/` also how chunks are printed. What a request says is `requests`', what a reply says `wireclient`'s.
//!
//! Promises: each byte that left a reader is in the piece, in order, also where memory is refused. What a writer got is
//! a prefix of the bytes, and all of them where no write failed.
//! Stands on `httparse` for where a head's fields stand.
#![tactic(auto)]

mod field;
mod head_end;
mod length;
mod place;
mod reading;
mod writing;

pub use field::{MAX_FIELDS, has_name, is_content_length, is_transfer_encoding};
pub use head_end::{MAX_HEAD, place_after};
pub use length::{decimal_value, is_length};
pub use place::ScanState;
pub use reading::{PIECE, read_piece};
pub use writing::{write_prefix, write_whole};
