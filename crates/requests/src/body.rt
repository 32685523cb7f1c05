//! The body of a request: whether there may be one, how long it is, and its JSON. It is received in `asking`, and the
//! head is read in `head`.

ghost use Rattle.std.specs.Prelude.{◌≡◌, IfOk};
ghost use Rattle.wire.specs.Lengths.{decimal_value};
ghost use Rattle.requests.specs.Bodies.{writes_by_body, deletes, json_in, some_json, sized, needed_length, optional_length, declared_length_by, body_of};
ghost use Rattle.requests.specs.Views.{data_of, decision_of, declared_of, length_of, request_in};

use crate::decision::Decision;
use crate::head::{Head, Length};
use crate::refusal::Refusal;
use api_request::{Body, Denied, Method};
use std::alloc::{AllocError, Global};
use wire::decimal_value;

/// How many bytes a body has at most.
pub const MAX_BODY: usize = 262_144;

/// The message where a body is longer.
pub const BODY_TOO_LARGE: &str = "body over 262144 bytes";

fn needs_body(method: Option<Method>) -> bool
    ensures { result ≡ writes_by_body method }
{
    matches!(method, Some(Method::Post | Method::Put | Method::Patch))
}

pub(crate) fn may_have_body(method: Option<Method>) -> bool
    ensures { result ≡ deletes method }
{
    matches!(method, Some(Method::Delete))
}

fn json_in(alloc: Global, bytes: &[u8]) -> Result<Decision<Option<Body>>, AllocError>
    ensures { IfOk result (λ f. decision_of data_of f ≡ some_json (json_in bytes.now)) }
{
    match Body::read(alloc, bytes) {
        Ok(body) => Ok(Decision::Accepted(Some(body))),
        Err(error) if error.is_memory() => Err(AllocError),
        Err(_) => Ok(Decision::Refused(Refusal::NotJson.denied())),
    }
}

fn sized(digits: &[u8]) -> Result<Option<usize>, Denied>
    ensures { declared_of result ≡ sized (decimal_value digits.now) }
{
    match decimal_value(digits, MAX_BODY) {
        None => Err(Refusal::BodyTooLarge.denied()),
        Some(length) => Ok(Some(length)),
    }
}

fn needed_length(length: Length<'_>) -> Result<Option<usize>, Denied>
    ensures { declared_of result ≡ needed_length (length_of length.entry) }
{
    match length {
        Length::Missing => Err(Refusal::NoLength.denied()),
        Length::Malformed => Err(Refusal::BadLength.denied()),
        Length::Digits(digits) => sized(digits),
    }
}

fn optional_length(length: Length<'_>) -> Result<Option<usize>, Denied>
    ensures { declared_of result ≡ optional_length (length_of length.entry) }
{
    match length {
        Length::Missing => Ok(None),
        Length::Malformed => Err(Refusal::BadLength.denied()),
        Length::Digits(digits) => match sized(digits) {
            Ok(Some(0)) => Ok(None),
            sized => sized,
        },
    }
}

/// How many bytes of a body a head declares, or that there is none: only POST, PUT, PATCH and DELETE have one,
/// and only DELETE may go without.
pub(crate) fn declared_length(
    method: Option<Method>,
    head: &Head<'_>,
) -> Result<Option<usize>, Denied>
    ensures { declared_of result ≡ declared_length_by method (request_in head.now) }
{
    let needs = needs_body(method);
    if !needs && !may_have_body(method) {
        return Ok(None);
    }
    if head.is_transfer_encoded {
        return Err(Refusal::TransferEncoding.denied());
    }
    if needs {
        needed_length(head.length)
    } else {
        optional_length(head.length)
    }
}

/// A body of so many bytes, of which these came.
pub(crate) fn body_of(
    alloc: Global,
    length: usize,
    rest: &[u8],
) -> Result<Decision<Option<Body>>, AllocError>
    ensures { IfOk result (λ f. decision_of data_of f ≡ body_of length rest.now) }
{
    if rest.len() < length {
        return Ok(Decision::Undecided);
    }
    json_in(alloc, &rest[..length])
}
