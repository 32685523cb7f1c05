//! Why a reply was given up. It is found where an item doesn't fit: in `response`, `pages` and `receiving`.

use decoder::Malformed;
use thiserror::Error;

/// Why a reply was given up: the next request is a first page. A connection that is cut, or a watch that ends, is none of
/// these.
#[derive(Clone, Copy, Debug, PartialEq, Eq, Error)]
pub enum RelistReason {
    /// The reply has another status than 200.
    #[error("status {0}")]
    Status(u16),
    /// The reply breaks a rule of HTTP/1.1 (RFC 9112), or is longer than a client takes.
    #[error("malformed HTTP reply")]
    MalformedHttp,
    /// A list was not answered by one body.
    #[error("not the answer of a list")]
    NotAList,
    /// A watch was not answered by lines.
    #[error("not the answer of a watch")]
    NotAWatch,
    /// A list's body or a watch's line isn't what was asked for, for this reason.
    #[error("malformed page or line: {0}")]
    Malformed(Malformed),
    /// A page is of another revision than the first one.
    #[error("a page of another revision than the first")]
    InconsistentList,
    /// The objects of a list aren't in the order of namespace and name, or one comes twice.
    #[error("objects of a list that do not ascend by namespace and name")]
    NotAscending,
    /// There would be more than 4,294,967,295 objects.
    #[error("too many objects")]
    TooManyObjects,
    /// A watch sent a change whose version isn't above the reported revision.
    #[error("a change at a version that is not above the reported one")]
    StaleEvent,
    /// A watch sent a bookmark whose version is below the reported revision.
    #[error("a bookmark at a version below the reported one")]
    StaleBookmark,
    /// The watch sent an error, as of a revision that the server doesn't have any more.
    #[error("the watch told an error")]
    ErrorEvent,
    /// Out of memory while the reply was read.
    #[error("out of memory")]
    OutOfMemory,
}
