//! The path and the query of a request target, and the media type that is checked with them. The head that has them
//! stands in `head`.

ghost use Rattle.std.specs.Prelude.{◌≡◌, option_map};
ghost use Rattle.requests.specs.Bodies.{has_length, checked_media_by, path_of, query_of};
ghost use Rattle.requests.specs.Views.{length_of, request_in};

use crate::body::{MAX_BODY, may_have_body};
use crate::head::{Head, Length};
use api_request::Method;
use wire::decimal_value;

/// What stands before the first question mark (RFC 9112, section 3.2.1).
pub fn path_of(request_target: &str) -> &str
    ensures { result.now ≡ path_of request_target.now }
{
    match request_target.split_once('?') {
        Some((path, _)) => path,
        None => request_target,
    }
}

/// What stands after the first question mark.
pub fn query_of(request_target: &str) -> &str
    ensures { result.now ≡ query_of request_target.now }
{
    match request_target.split_once('?') {
        Some((_, query)) => query,
        None => "",
    }
}

/// Whether a length is there and other than 0.
fn has_length(length: Length<'_>) -> bool
    ensures { result ≡ has_length (length_of length.entry) }
{
    match length {
        Length::Missing => false,
        Length::Malformed => true,
        Length::Digits(digits) => decimal_value(digits, MAX_BODY) != Some(0),
    }
}

/// The media type that is validated: a DELETE without a body has none.
pub fn checked_media<'b>(method: Option<Method>, head: &Head<'b>) -> Option<&'b [u8]>
    ensures { option_map (λ m. m.now) result ≡ checked_media_by method (request_in head.now) }
{
    if may_have_body(method) && !has_length(head.length) {
        None
    } else {
        head.media
    }
}
