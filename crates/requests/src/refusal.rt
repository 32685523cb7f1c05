//! Requests that are refused before a call is made of them. Refusals of calls stand in the crate `api_request`.

ghost use Rattle.std.specs.Prelude.{◌≡◌};
ghost use Rattle.requests.specs.Refusals.{as_denied, reason_of, message_of};
ghost use Rattle.requests.specs.Views.{refusal_seen};
ghost use Rattle.api_request.specs.Views.{denied_of};

use crate::body::BODY_TOO_LARGE;
use api_request::{Denied, NOT_JSON, Reason};

/// For its head (RFC 9112, sections 2, 3 and 6), its body, or as too many connections are open.
#[derive(Clone, Copy, Debug, PartialEq, Eq)]
pub enum Refusal {
    HeadTooLarge,
    BadHead,
    WrongVersion,
    NotOneHost,
    TransferEncoding,
    NoLength,
    BadLength,
    BodyTooLarge,
    NotJson,
    TooManyConnections,
}

impl Refusal {
    /// The reason in the Status, which has the status code (RFC 9110, section 15; RFC 6585, section 5).
    pub fn reason(self) -> Reason
        ensures { result ≡ reason_of (refusal_seen self) }
    {
        match self {
            Refusal::BadHead | Refusal::NotOneHost | Refusal::BadLength | Refusal::NotJson => {
                Reason::BadRequest
            }
            Refusal::NoLength => Reason::LengthRequired,
            Refusal::BodyTooLarge => Reason::RequestEntityTooLarge,
            Refusal::HeadTooLarge => Reason::RequestHeaderFieldsTooLarge,
            Refusal::TransferEncoding => Reason::NotImplemented,
            Refusal::TooManyConnections => Reason::ServiceUnavailable,
            Refusal::WrongVersion => Reason::HttpVersionNotSupported,
        }
    }

    /// The message in the Status.
    pub fn message(self) -> &'static str
        ensures { result.now ≡ message_of (refusal_seen self) }
    {
        match self {
            Refusal::HeadTooLarge => "request head too large",
            Refusal::BadHead => "bad request head",
            Refusal::WrongVersion => "HTTP/1.1 is needed",
            Refusal::NotOneHost => "one Host field is needed",
            Refusal::TransferEncoding => "Transfer-Encoding is not served",
            Refusal::NoLength => "Content-Length is needed",
            Refusal::BadLength => "bad Content-Length",
            Refusal::BodyTooLarge => BODY_TOO_LARGE,
            Refusal::NotJson => NOT_JSON,
            Refusal::TooManyConnections => "too many connections",
        }
    }

    /// The refusal as a call is denied.
    pub fn denied(self) -> Denied
        ensures { denied_of result ≡ as_denied (refusal_seen self) }
    {
        Denied {
            reason: self.reason(),
            message: self.message(),
            allow: None,
        }
    }
}
