//! The head of a reply: its status, and how its body is framed. The body is read in `state`.

ghost use Rattle.std.specs.Prelude.{◌≡◌, map, length, option_map};
ghost use Rattle.std.specs.List.{All};
ghost use Rattle.httparse.specs.Spans.{header_bytes, IsHeaderWithin};
ghost use Rattle.wire.specs.Lengths.{length_in};
ghost use Rattle.wireclient.specs.Reads.{Checked, framed_by_length, frames, framing_by, framing_of};
ghost use Rattle.wireclient.specs.Views.{framing_in, check_of};

use crate::state::Framing;
use httparse::Status;
use httparse::spans::{EMPTY_HEADER_SPAN, HeaderSpan, parse_response};
use wire::{MAX_FIELDS, decimal_value, is_content_length, is_length, is_transfer_encoding};

const MAX_REPLY_BODY: usize = 1_073_741_824;

fn framed_by_length(value: &[u8]) -> Option<Framing>
    ensures { option_map framing_in result ≡ framed_by_length (length_in value.now) }
{
    if !is_length(value) {
        return None;
    }
    match decimal_value(value, MAX_REPLY_BODY) {
        Some(length) => Some(Framing::Length(length as u64)),
        None => None,
    }
}

fn frames(head: &[u8], field: &HeaderSpan) -> bool
    requires { IsHeaderWithin (length head.now) field.now }
    ensures { result ≡ frames (header_bytes head.now field.now) }
{
    is_content_length(head, field) || is_transfer_encoding(head, field)
}

fn framing_by(head: &[u8], field: &HeaderSpan) -> Option<Framing>
    requires { IsHeaderWithin (length head.now) field.now }
    ensures { option_map framing_in result ≡ framing_by (header_bytes head.now field.now) }
{
    if is_content_length(head, field) {
        framed_by_length(field.value.of(head))
    } else if field.value.of(head).eq_ignore_ascii_case(b"chunked") {
        Some(Framing::Chunks)
    } else {
        None
    }
}

fn framing_of(head: &[u8], fields: &[HeaderSpan]) -> Option<Framing>
    requires { All (IsHeaderWithin (length head.now)) fields.now }
    ensures { option_map framing_in result ≡ framing_of (map (header_bytes head.now) fields.now) }
{
    let mut framing: Option<Option<Framing>> = None;
    for field in fields {
        if frames(head, field) {
            if framing.is_some() {
                return None;
            }
            framing = Some(framing_by(head, field));
        }
    }
    framing.unwrap_or(None)
}

/// The status of a whole head and how its body is framed, if it is no more than the reader takes.
pub(crate) fn check_head(head: &[u8]) -> Option<(u16, Framing)>
    ensures { Checked head.now (check_of result) }
{
    let mut spans = [EMPTY_HEADER_SPAN; MAX_FIELDS];
    match parse_response(head, &mut spans) {
        Ok(Status::Complete(parts)) if parts.len == head.len() => {
            match framing_of(head, &spans[..parts.headers]) {
                Some(framing) => Some((parts.code, framing)),
                None => None,
            }
        }
        _ => None,
    }
}
