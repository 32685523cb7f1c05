//! The items of a reply, in the order in which they come. What their bytes say is read in the crate `decoder`.

/// RFC 9112, sections 4, 6.2 and 7.1.
#[derive(Debug, Drop, PartialEq, Eq)]
pub enum Item {
    /// The head, with its status code.
    Head(u16),
    /// The whole body of a reply with a `Content-Length`.
    Body(Vec<u8>),
    /// A line of a chunked reply, without its line feed.
    Line(Vec<u8>),
    /// The end of the reply; what comes after it is ignored.
    End,
    /// The next byte broke a rule, and nothing more is emitted.
    Malformed,
}
