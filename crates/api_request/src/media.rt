//! Media types of bodies. What is asked by them stands in `verb`.

ghost use Rattle.std.specs.Prelude.{◌≡◌, ◌==◌, option_map};
ghost use Rattle.std.specs.List.{before_first};
ghost use Rattle.api_request.specs.Admit.{is_apply, is_json, media_type, without_leading, without_trailing, is_blank};

/// The media type of an apply (Kubernetes docs, "Server-Side Apply", "Serialization").
pub const APPLY_TYPE: &str = "application/apply-patch+yaml";

/// The media type of every other body, and of each reply.
pub const JSON_TYPE: &str = "application/json";

fn is_blank(byte: u8) -> bool
    ensures { result ≡ is_blank byte }
{
    byte == b' ' || byte == b'\t'
}

/// The bytes before the first `;`, or all.
fn before_parameters(field: &[u8]) -> &[u8]
    ensures { result.now ≡ before_first (λ b. b == 59) field.now }
{
    match field.iter().position(|byte| *byte == b';') {
        Some(place) => &field[..place],
        None => field,
    }
}

fn without_leading(field: &[u8]) -> &[u8]
    ensures { result.now ≡ without_leading field.now }
{
    match field {
        [first, rest @ ..] if is_blank(*first) => without_leading(rest),
        _ => field,
    }
}

fn without_trailing(field: &[u8]) -> &[u8]
    ensures { result.now ≡ without_trailing field.now }
{
    match field {
        [prefix @ .., last] if is_blank(*last) => without_trailing(prefix),
        _ => field,
    }
}

/// What stands before the parameters, without blanks at its ends (RFC 9110, section 8.3.1).
fn media_type(field: &[u8]) -> &[u8]
    ensures { result.now ≡ media_type field.now }
{
    without_trailing(without_leading(before_parameters(field)))
}

pub fn is_apply(field: Option<&[u8]>) -> bool
    ensures { result ≡ is_apply (option_map (λ b. b.now) field.entry) }
{
    match field {
        Some(field) => media_type(field).eq_ignore_ascii_case(APPLY_TYPE.as_bytes()),
        None => false,
    }
}

/// JSON, or no media type at all.
pub fn is_json(field: Option<&[u8]>) -> bool
    ensures { result ≡ is_json (option_map (λ b. b.now) field.entry) }
{
    match field {
        Some(field) => media_type(field).eq_ignore_ascii_case(JSON_TYPE.as_bytes()),
        None => true,
    }
}
