//! The fields of a head: how many there may be, and their names. Lengths stand in `length`.

ghost use Rattle.std.specs.Prelude.{◌≡◌, length};
ghost use Rattle.httparse.specs.Spans.{header_bytes, IsHeaderWithin};
ghost use Rattle.wire.specs.Heads.{has_name, is_content_length, is_transfer_encoding};

use httparse::spans::HeaderSpan;

/// The most fields that a head may have.
pub const MAX_FIELDS: usize = 64;

/// Whether a field has this name, without regard to case (RFC 9110, section 5.1).
pub fn has_name(head: &[u8], field: &HeaderSpan, word: &[u8]) -> bool
    requires { IsHeaderWithin (length head.now) field.now }
    ensures { result ≡ has_name word.now (header_bytes head.now field.now) }
{
    field.name.of(head).eq_ignore_ascii_case(word)
}

/// Whether a field tells the length of what follows the head (RFC 9112, section 6.2).
pub fn is_content_length(head: &[u8], field: &HeaderSpan) -> bool
    requires { IsHeaderWithin (length head.now) field.now }
    ensures { result ≡ is_content_length (header_bytes head.now field.now) }
{
    has_name(head, field, b"content-length")
}

/// Whether a field tells how what follows the head is coded (RFC 9112, section 6.1).
pub fn is_transfer_encoding(head: &[u8], field: &HeaderSpan) -> bool
    requires { IsHeaderWithin (length head.now) field.now }
    ensures { result ≡ is_transfer_encoding (header_bytes head.now field.now) }
{
    has_name(head, field, b"transfer-encoding")
}
