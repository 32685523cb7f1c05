//! Undecided, refused or accepted: how far bytes were read. It is decided in `head`, `body` and `asking`.

use api_request::Denied;

/// What the bytes that came on a connection decide.
#[derive(Debug, Drop)]
pub enum Decision<A> {
    /// More bytes are needed.
    Undecided,
    Refused(Denied),
    Accepted(A),
}
