//! The bytes of a request. Replies are read in `reader`.

ghost use Rattle.std.specs.Prelude.{◌≡◌, ◌++◌, Some, None, IfOk, option_map, string_bytes};
ghost use Rattle.wireclient.specs.Request.{request};

use std::alloc::{AllocError, Global};

fn without_body(alloc: Global, method: &str, target: &str) -> Result<Vec<u8>, AllocError>
    ensures { IfOk result (λ v. v.items ≡ request method.now target.now None) }
{
    let head = format!(in alloc; "{method} {target} HTTP/1.1\r\nHost: localhost\r\n\r\n")?;
    Ok(head.into_bytes())
}

fn with_body(
    alloc: Global,
    method: &str,
    target: &str,
    media: &str,
    body: &[u8],
) -> Result<Vec<u8>, AllocError>
    ensures { IfOk result (λ v. v.items ≡ request method.now target.now (Some (media.now, body.now))) }
{
    let length = body.len();
    let head = format!(in alloc;
        "{method} {target} HTTP/1.1\r\nHost: localhost\r\nContent-Type: {media}\r\nContent-Length: {length}\r\n\r\n"
    )?;
    let mut bytes = head.into_bytes();
    bytes.extend_from_slice(body)?;
    Ok(bytes)
}

/// The bytes of a request over HTTP/1.1 (RFC 9112, sections 3 and 5): the request line, `Host: localhost`,
/// of a body its `Content-Type` (`media`) and `Content-Length`, an empty line and the body. A request without a body
/// says neither, whatever `media` is. The texts go on the wire as they are: a blank, CR or LF in the method or the target,
/// or a CR or LF in `media`, makes it another request, so check what a user wrote.
pub fn request_bytes(
    alloc: Global,
    method: &str,
    target: &str,
    media: &str,
    body: Option<&[u8]>,
) -> Result<Vec<u8>, AllocError>
    ensures { IfOk result (λ v. v.items ≡ request method.now target.now (option_map (λ b. (media.now, b.now)) body.entry)) }
{
    match body {
        Some(body) => with_body(alloc, method, target, media, body),
        None => without_body(alloc, method, target),
    }
}
