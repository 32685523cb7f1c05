//! What the head of a request says, and when it has come. The search for its end stands in `head_end`.

ghost use Rattle.std.specs.Prelude.{◌≡◌, ◌≢◌, ◌≤◌, ◌<◌, ◌++◌, ◌==◌, ℕ, List, true, Some, None, [], length, take, drop, map, option_map, IfSome, IsUtf8};
ghost use Rattle.std.specs.List.{All, before_first, filter};
ghost use Rattle.httparse.specs.Grammar.{RequestHead, ReadsRequest};
ghost use Rattle.httparse.specs.Spans.{header_bytes, span_bytes, IsHeaderWithin, IsWithin, IsRequestWithin};
ghost use Rattle.wire.specs.Heads.{head_end, max_head};
ghost use Rattle.wire.specs.Lengths.{decimal_value, length_in};
ghost use Rattle.requests.specs.Heads.{is_host, media_in, agent_in, is_transfer_encoded, agreed, length_after, length_said, missing, number, validated, IsLineOf, ReadsWholeHead, HeadDecision, ReadsHead, with_more};
ghost use Rattle.requests.specs.Decision.{undecided};
ghost use Rattle.requests.specs.Views.{decision_of, head_of, is_plain, length_of, line_seen, without_zeros, EndsIn, IsPlain, IsWholeAt};

use crate::decision::Decision;
use crate::head_end::end_of;
use crate::refusal::Refusal;
use httparse::Status;
use httparse::spans::{EMPTY_HEADER_SPAN, HeaderSpan, RequestSpans, parse_request};
use wire::{MAX_FIELDS, MAX_HEAD, has_name, is_content_length, is_length, is_transfer_encoding};

/// More fields than a head can hold: each takes at least three bytes.
const ROOM: usize = MAX_HEAD / 3 + 1;

/// What the Content-Length fields of a head say.
#[derive(Clone, Copy, Debug, PartialEq, Eq)]
pub enum Length<'b> {
    /// There is none.
    Missing,
    /// They say no one number.
    Malformed,
    /// The number's digits, without leading zeros.
    Digits(&'b [u8]),
}

/// What a request's first line says (RFC 9112, section 3), but for the version.
#[derive(Clone, Copy, Debug, PartialEq, Eq)]
pub struct RequestLine<'b> {
    pub method: &'b str,
    pub request_target: &'b str,
}

/// What the server takes from a head (RFC 9112, sections 3, 5 and 6), and the bytes that came after it.
#[derive(Clone, Copy, Debug)]
pub struct Head<'b> {
    /// How many bytes it has.
    pub size: usize,
    pub method: &'b str,
    pub request_target: &'b str,
    /// The value of the first Content-Type.
    pub media: Option<&'b [u8]>,
    /// What the client calls itself: the first User-Agent, up to its first slash (RFC 9110, section 10.1.5).
    pub agent: Option<&'b [u8]>,
    /// Whether there is a Transfer-Encoding.
    pub is_transfer_encoded: bool,
    pub length: Length<'b>,
    pub rest: &'b [u8],
}

fn hosts_in(head: &[u8], fields: &[HeaderSpan]) -> usize
    requires { All (IsHeaderWithin (length head.now)) fields.now }
    ensures { result ≡ length (filter is_host (map (header_bytes head.now) fields.now)) }
{
    let mut hosts = 0;
    for field in fields {
        if has_name(head, field, b"host") {
            hosts += 1;
        }
    }
    hosts
}

fn media_in<'b>(head: &'b [u8], fields: &[HeaderSpan]) -> Option<&'b [u8]>
    requires { All (IsHeaderWithin (length head.now)) fields.now }
    ensures { option_map (λ m. m.now) result ≡ media_in (map (header_bytes head.now) fields.now) }
{
    for field in fields {
        if has_name(head, field, b"content-type") {
            return Some(field.value.of(head));
        }
    }
    None
}

/// What stands before the first slash.
fn before_slash(value: &[u8]) -> &[u8]
    ensures { result.now ≡ before_first (λ b. b == 47) value.now }
{
    match value.iter().position(|byte| *byte == b'/') {
        Some(place) => &value[..place],
        None => value,
    }
}

fn agent_in<'b>(head: &'b [u8], fields: &[HeaderSpan]) -> Option<&'b [u8]>
    requires { All (IsHeaderWithin (length head.now)) fields.now }
    ensures { option_map (λ a. a.now) result ≡ agent_in (map (header_bytes head.now) fields.now) }
{
    for field in fields {
        if has_name(head, field, b"user-agent") {
            return Some(before_slash(field.value.of(head)));
        }
    }
    None
}

fn is_transfer_encoded(head: &[u8], fields: &[HeaderSpan]) -> bool
    requires { All (IsHeaderWithin (length head.now)) fields.now }
    ensures { result ≡ is_transfer_encoded (map (header_bytes head.now) fields.now) }
{
    for field in fields {
        if is_transfer_encoding(head, field) {
            return true;
        }
    }
    false
}

fn without_zeros(digits: &[u8]) -> &[u8]
    ensures { result.now ≡ without_zeros digits.now }
{
    for (i, digit) in digits.iter().enumerate() {
        if *digit != b'0' {
            return &digits[i..];
        }
    }
    &digits[digits.len()..]
}

fn length_said(value: &[u8]) -> Length<'_>
    ensures value { length_of result ≡ length_said (length_in value.now) }
    ensures plain { IsPlain result }
{
    if !is_length(value) {
        return Length::Malformed;
    }
    Length::Digits(without_zeros(value))
}

/// What a field says after one that said these digits.
fn agreed_with<'b>(said: &'b [u8], other: Length<'b>) -> Length<'b>
    requires said { is_plain said.now ≡ true }
    requires other { IsPlain other }
    ensures value { length_of result ≡ agreed (number (decimal_value said.now)) (length_of other.entry) }
    ensures plain { IsPlain result }
{
    match other {
        Length::Missing => Length::Digits(said),
        Length::Malformed => Length::Malformed,
        Length::Digits(others) => {
            if said == others {
                Length::Digits(said)
            } else {
                Length::Malformed
            }
        }
    }
}

/// What two fields say together.
fn agreed<'b>(said: Length<'b>, other: Length<'b>) -> Length<'b>
    requires said { IsPlain said }
    requires other { IsPlain other }
    ensures value { length_of result ≡ agreed (length_of said.entry) (length_of other.entry) }
    ensures plain { IsPlain result }
{
    match said {
        Length::Missing => other,
        Length::Malformed => Length::Malformed,
        Length::Digits(digits) => agreed_with(digits, other),
    }
}

fn length_of<'b>(head: &'b [u8], fields: &[HeaderSpan]) -> Length<'b>
    requires { All (IsHeaderWithin (length head.now)) fields.now }
    ensures { length_of result ≡ length_after missing (map (header_bytes head.now) fields.now) }
{
    let mut length = Length::Missing;
    for field in fields {
        if is_content_length(head, field) {
            length = agreed(length, length_said(field.value.of(head)));
        }
    }
    length
}

fn text_of(bytes: &[u8]) -> &str
    requires { IsUtf8 bytes.now }
    ensures { result.now ≡ bytes.now }
{
    match str::from_utf8(bytes) {
        Ok(text) => text,
        Err(_) => "",
    }
}

/// The validation of a head of the grammar.
fn validated<'b>(
    head: &'b [u8],
    parts: RequestSpans,
    fields: &[HeaderSpan],
    rest: &'b [u8],
) -> Decision<Head<'b>>
    requires method { IsWithin (length head.now) parts.method }
    requires path { IsWithin (length head.now) parts.path }
    requires method_text { IsUtf8 (span_bytes head.now parts.method) }
    requires path_text { IsUtf8 (span_bytes head.now parts.path) }
    requires fields { All (IsHeaderWithin (length head.now)) fields.now }
    ensures says { decision_of head_of result ≡ validated (span_bytes head.now parts.method) (span_bytes head.now parts.path) parts.version (map (header_bytes head.now) fields.now) rest.now }
    ensures ends { EndsIn (head.now ++ rest.now) result }
{
    if fields.len() > MAX_FIELDS {
        return Decision::Refused(Refusal::HeadTooLarge.denied());
    }
    if parts.version != 1 {
        return Decision::Refused(Refusal::WrongVersion.denied());
    }
    if hosts_in(head, fields) != 1 {
        return Decision::Refused(Refusal::NotOneHost.denied());
    }
    let request_target = parts.path.of(head);
    if !request_target.starts_with(b"/") {
        return Decision::Refused(Refusal::BadHead.denied());
    }
    Decision::Accepted(Head {
        size: head.len(),
        method: text_of(parts.method.of(head)),
        request_target: text_of(request_target),
        media: media_in(head, fields),
        agent: agent_in(head, fields),
        is_transfer_encoded: is_transfer_encoded(head, fields),
        length: length_of(head, fields),
        rest,
    })
}

/// The offsets of a head's parts, where these bytes are a head whose fields have room.
fn parts_of(head: &[u8], spans: &mut [HeaderSpan]) -> Option<RequestSpans>
    ensures within { IfSome result (λ parts. IsRequestWithin head.now spans.new parts) }
    ensures whole { IfSome result (λ parts. IsWholeAt head.now spans.new parts) }
    ensures none { result ≡ None → (h : RequestHead) → ReadsRequest head.now h [] → length spans.old < length h.fields }
{
    match parse_request(head, spans) {
        Ok(Status::Complete(parts)) => {
            if parts.len == head.len() {
                Some(parts)
            } else {
                None
            }
        }
        Ok(Status::Partial) => None,
        Err(_) => None,
    }
}

/// The validation of these bytes, however many fields they have.
fn validate_long<'b>(head: &'b [u8], rest: &'b [u8]) -> Decision<Head<'b>>
    requires { length head.now ≤ max_head }
    ensures says { ReadsWholeHead head.now rest.now (decision_of head_of result) }
    ensures ends { EndsIn (head.now ++ rest.now) result }
{
    let mut spans = [EMPTY_HEADER_SPAN; ROOM];
    match parts_of(head, &mut spans) {
        Some(parts) => validated(head, parts, &spans[..parts.headers], rest),
        None => Decision::Refused(Refusal::BadHead.denied()),
    }
}

/// The validation of the bytes up to the first empty line. Room for the fields of a head that is served comes first,
/// since it costs as much to clear the room for all that there may be as to read a short head.
fn validate<'b>(head: &'b [u8], rest: &'b [u8]) -> Decision<Head<'b>>
    requires { length head.now ≤ max_head }
    ensures says { ReadsWholeHead head.now rest.now (decision_of head_of result) }
    ensures ends { EndsIn (head.now ++ rest.now) result }
{
    let mut spans = [EMPTY_HEADER_SPAN; MAX_FIELDS];
    match parts_of(head, &mut spans) {
        Some(parts) => validated(head, parts, &spans[..parts.headers], rest),
        None => validate_long(head, rest),
    }
}

/// The request line of these bytes, where they are a head, whatever it says.
pub(crate) fn line_of(head: &[u8]) -> Option<RequestLine<'_>>
    requires { length head.now ≤ max_head }
    ensures { IsLineOf head.now (option_map line_seen result) }
{
    let mut spans = [EMPTY_HEADER_SPAN; ROOM];
    let parts = parts_of(head, &mut spans)?;
    Some(RequestLine {
        method: text_of(parts.method.of(head)),
        request_target: text_of(parts.path.of(head)),
    })
}

/// What these bytes say of a head that has so many bytes, or none while it hasn't come whole.
pub(crate) fn read_to(bytes: &[u8], end: Option<usize>) -> Decision<Head<'_>>
    requires { end ≡ head_end (take max_head bytes.now) }
    ensures says { ReadsHead bytes.now (decision_of head_of result) }
    ensures ends { EndsIn bytes.now result }
{
    match end {
        Some(end) => {
            let (head, rest) = bytes.split_at(end);
            validate(head, rest)
        }
        None if bytes.len() > MAX_HEAD => Decision::Refused(Refusal::HeadTooLarge.denied()),
        None => Decision::Undecided,
    }
}

/// What the bytes that came on a connection say of the request's head, however they were cut: once decided,
/// bytes that come later change nothing but what stands after the head.
pub fn read_head(bytes: &[u8]) -> Decision<Head<'_>>
    ensures says { ReadsHead bytes.now (decision_of head_of result) }
    ensures alone { (said : HeadDecision) → ReadsHead bytes.now said → said ≡ decision_of head_of result }
    ensures stays { (more : List ℕ) → decision_of head_of result ≢ undecided → ReadsHead (bytes.now ++ more) (with_more more (decision_of head_of result)) }
{
    read_to(bytes, end_of(bytes))
}
