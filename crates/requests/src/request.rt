//! A request whose bytes decided what it asks. What is asked is read in `asking`.

ghost use Rattle.std.specs.Prelude.{◌≡◌, ℕ, List, Some, option_map};
ghost use Rattle.requests.specs.Decision.{accepted};
ghost use Rattle.requests.specs.Heads as heads;
ghost use Rattle.requests.specs.Heads.{ReadsHead, ReadsLine};
ghost use Rattle.requests.specs.ReadBufferViews.{request_bytes};
ghost use Rattle.requests.specs.Views.{line_seen};

use crate::head::{RequestLine, line_of};
use crate::head_end::end_of;

/// All the bytes that came on a connection when these decided what it asks.
#[derive(Debug, Drop)]
pub struct Request {
    bytes: Vec<u8>,
}

impl Request {
    pub fn new(bytes: Vec<u8>) -> Request
        ensures { request_bytes result ≡ bytes.items }
    {
        Request { bytes }
    }

    /// Its method and its request target, also where it was refused; none where its bytes begin with no head.
    pub fn line(&self) -> Option<RequestLine<'_>>
        ensures reads { ReadsLine (request_bytes self.now) (option_map line_seen result) }
        ensures known { (request : heads.Request) (rest : List ℕ) → ReadsHead (request_bytes self.now) (accepted (request, rest)) → option_map line_seen result ≡ Some (request.method, request.request_target) }
    {
        let end = end_of(&self.bytes)?;
        line_of(&self.bytes[..end])
    }
}
