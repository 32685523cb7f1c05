//! The bytes of a reply, and those that a watch begins with. The chunks of a watch stand in `watch_chunks`.

ghost use Rattle.std.specs.Prelude.{◌≡◌, [], IfOk, option_map, unwrap_or, string_bytes};
ghost use Rattle.http.specs.StatusCode.{reason_phrase};
ghost use Rattle.requests.specs.KeptReplies.{reply_by, watch_head_by};
ghost use Rattle.requests.specs.ReplyBytes.{phrase_of, allow_field, reply};

use crate::persistence::Persistence;
use api_request::JSON_TYPE;
use http::StatusCode;
use std::alloc::{AllocError, Global};

fn standard_phrase(status: StatusCode) -> &'static str
    ensures { result.now ≡ unwrap_or (reason_phrase status) [] }
{
    status.canonical_reason().unwrap_or("")
}

/// The phrase of a status code (RFC 9110, section 15), empty for a number that is none.
fn phrase_of(code: u16) -> &'static str
    ensures { result.now ≡ phrase_of code }
{
    match StatusCode::from_u16(code) {
        Ok(status) => standard_phrase(status),
        Err(_) => "",
    }
}

fn allow_field(alloc: Global, allow: Option<&str>) -> Result<String, AllocError>
    ensures { IfOk result (λ s. string_bytes s ≡ allow_field (option_map (λ m. m.now) allow.entry)) }
{
    match allow {
        None => Ok(String::new(alloc)),
        Some(methods) => format!(in alloc; "Allow: {methods}\r\n"),
    }
}

/// The bytes of a reply (RFC 9112, sections 4 and 6): the status line, `Content-Type`, `Content-Length`,
/// `Connection: close` where it is the last one, `Allow` where methods are given, an empty line and the body.
pub fn reply_bytes_by(
    alloc: Global,
    persistence: Persistence,
    code: u16,
    allow: Option<&str>,
    body: &str,
) -> Result<Vec<u8>, AllocError>
    ensures { IfOk result (λ v. v.items ≡ reply_by persistence code (option_map (λ m. m.now) allow.entry) body.now) }
{
    let phrase = phrase_of(code);
    let length = body.len();
    let field = persistence.connection_field();
    let allow = allow_field(alloc, allow)?;
    let head = format!(in alloc;
        "HTTP/1.1 {code} {phrase}\r\nContent-Type: {JSON_TYPE}\r\nContent-Length: {length}\r\n{field}{allow}\r\n"
    )?;
    let mut bytes = head.into_bytes();
    bytes.extend_from_slice(body.as_bytes())?;
    Ok(bytes)
}

/// The bytes of the only reply on a connection, with `Connection: close`.
pub fn reply_bytes(
    alloc: Global,
    code: u16,
    allow: Option<&str>,
    body: &str,
) -> Result<Vec<u8>, AllocError>
    ensures { IfOk result (λ v. v.items ≡ reply code (option_map (λ m. m.now) allow.entry) body.now) }
{
    reply_bytes_by(alloc, Persistence::Last, code, allow, body)
}

/// The bytes that a watch begins with: the status line, `Content-Type`, `Transfer-Encoding: chunked`,
/// `Connection: close` where nothing follows its last chunk, and an empty line.
pub(crate) fn watch_head(
    alloc: Global,
    persistence: Persistence,
    code: u16,
) -> Result<Vec<u8>, AllocError>
    ensures { IfOk result (λ v. v.items ≡ watch_head_by persistence code) }
{
    let phrase = phrase_of(code);
    let field = persistence.connection_field();
    let head = format!(in alloc;
        "HTTP/1.1 {code} {phrase}\r\nContent-Type: {JSON_TYPE}\r\nTransfer-Encoding: chunked\r\n{field}\r\n"
    )?;
    Ok(head.into_bytes())
}
