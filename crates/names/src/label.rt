//! Keys and values of labels (Kubernetes documentation, "Labels and Selectors", "Syntax and character set"), and keys
//! of annotations, which are of the same form. Names of objects are checked in `dns`, which also has the prefix of a
//! key.

ghost use Rattle.std.specs.Prelude.{◌≡◌};
ghost use Rattle.names.specs.Names.{is_name_byte, is_name, is_label_key, is_label_value};

use crate::dns::{has_alphanumeric_ends, is_dns_subdomain};

const MAX_NAME: usize = 63;

fn is_name_byte(byte: u8) -> bool
    ensures { result ≡ is_name_byte byte }
{
    byte.is_ascii_alphanumeric() || byte == b'-' || byte == b'.' || byte == b'_'
}

fn is_name(text: &str) -> bool
    ensures { result ≡ is_name text.now }
{
    text.len() <= MAX_NAME
        && has_alphanumeric_ends(text)
        && text.as_bytes().iter().all(|byte| is_name_byte(*byte))
}

/// Whether a text is a label's or an annotation's key: a name of 1 to 63 ASCII letters, digits, `-`, `.` and
/// `_` with alphanumeric ends, which a DNS subdomain and `/` may precede.
pub fn is_label_key(text: &str) -> bool
    ensures { result ≡ is_label_key text.now }
{
    match text.split_once('/') {
        Some((prefix, name)) => is_dns_subdomain(prefix) && is_name(name),
        None => is_name(text),
    }
}

/// Whether a text is a label's value: empty, or a name as in a key.
pub fn is_label_value(text: &str) -> bool
    ensures { result ≡ is_label_value text.now }
{
    text.is_empty() || is_name(text)
}
