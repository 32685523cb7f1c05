//! How servers of streams end a connection. What an event changes stands in `hub`; how streams are read and written, in
//! the crate `wire`.

/// How many milliseconds at most a connection is read on after its reply: a close with bytes unread may lose the reply
/// (RFC 9112, section 9.6).
pub const LINGER: u64 = 2000;
