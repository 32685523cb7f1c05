//! The reasons of refusals, their status codes and texts. A whole refusal stands in `call_refusal`.

ghost use Rattle.std.specs.Prelude.{◌≡◌};
ghost use Rattle.api_request.specs.Reasons.{code_of, is_invalid, reason_text};

use answers::{EXPIRED, GONE};

/// The reasons of refusals (Kubernetes API conventions, "Response Status Kind").
#[derive(Clone, Copy, Debug, PartialEq, Eq)]
pub enum Reason {
    BadRequest,
    NotFound,
    MethodNotAllowed,
    AlreadyExists,
    Conflict,
    Expired,
    LengthRequired,
    RequestEntityTooLarge,
    UnsupportedMediaType,
    Invalid,
    RequestHeaderFieldsTooLarge,
    NotImplemented,
    ServiceUnavailable,
    Timeout,
    HttpVersionNotSupported,
}

impl Reason {
    /// The status code of its replies (RFC 9110, section 15; RFC 6585, section 5).
    pub fn code(self) -> u16
        ensures { result ≡ code_of self }
    {
        match self {
            Reason::BadRequest => 400,
            Reason::NotFound => 404,
            Reason::MethodNotAllowed => 405,
            Reason::AlreadyExists | Reason::Conflict => 409,
            Reason::Expired => GONE,
            Reason::LengthRequired => 411,
            Reason::RequestEntityTooLarge => 413,
            Reason::UnsupportedMediaType => 415,
            Reason::Invalid => 422,
            Reason::RequestHeaderFieldsTooLarge => 431,
            Reason::NotImplemented => 501,
            Reason::ServiceUnavailable => 503,
            Reason::Timeout => 504,
            Reason::HttpVersionNotSupported => 505,
        }
    }

    /// The reason as it stands in a Status.
    pub fn text(self) -> &'static str
        ensures { result.now ≡ reason_text self }
    {
        match self {
            Reason::BadRequest => "BadRequest",
            Reason::NotFound => "NotFound",
            Reason::MethodNotAllowed => "MethodNotAllowed",
            Reason::AlreadyExists => "AlreadyExists",
            Reason::Conflict => "Conflict",
            Reason::Expired => EXPIRED,
            Reason::LengthRequired => "LengthRequired",
            Reason::RequestEntityTooLarge => "RequestEntityTooLarge",
            Reason::UnsupportedMediaType => "UnsupportedMediaType",
            Reason::Invalid => "Invalid",
            Reason::RequestHeaderFieldsTooLarge => "RequestHeaderFieldsTooLarge",
            Reason::NotImplemented => "NotImplemented",
            Reason::ServiceUnavailable => "ServiceUnavailable",
            Reason::Timeout => "Timeout",
            Reason::HttpVersionNotSupported => "HTTPVersionNotSupported",
        }
    }

    /// Whether it is that of a request which is well formed and breaks a rule of the object.
    pub fn is_invalid(self) -> bool
        ensures { result ≡ is_invalid self }
    {
        matches!(self, Reason::Invalid)
    }
}
