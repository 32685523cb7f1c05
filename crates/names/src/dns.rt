//! DNS labels and subdomains (Kubernetes documentation, "Object Names and IDs"). Keys and values of labels are checked
//! in `label`.

ghost use Rattle.std.specs.Prelude.{◌≡◌};
ghost use Rattle.names.specs.Names.{has_alphanumeric_ends, is_dns_byte, is_dns_part, is_dns_label, is_dns_subdomain};

const MAX_LABEL: usize = 63;

const MAX_SUBDOMAIN: usize = 253;

pub(crate) fn has_alphanumeric_ends(text: &str) -> bool
    ensures { result ≡ has_alphanumeric_ends text.now }
{
    match (text.as_bytes().first(), text.as_bytes().last()) {
        (Some(first), Some(last)) => first.is_ascii_alphanumeric() && last.is_ascii_alphanumeric(),
        _ => false,
    }
}

fn is_dns_byte(byte: u8) -> bool
    ensures { result ≡ is_dns_byte byte }
{
    byte.is_ascii_lowercase() || byte.is_ascii_digit() || byte == b'-'
}

fn is_dns_part(text: &str) -> bool
    ensures { result ≡ is_dns_part text.now }
{
    has_alphanumeric_ends(text) && text.as_bytes().iter().all(|byte| is_dns_byte(*byte))
}

/// Whether a text is a DNS label: 1 to 63 of a-z, 0-9 and `-`, with alphanumeric ends. Namespaces are.
pub fn is_dns_label(text: &str) -> bool
    ensures { result ≡ is_dns_label text.now }
{
    text.len() <= MAX_LABEL && is_dns_part(text)
}

/// Whether a text is a DNS subdomain: at most 253 bytes, of a-z, 0-9 and `-` with alphanumeric ends between
/// its dots. Names of objects are.
pub fn is_dns_subdomain(text: &str) -> bool
    ensures { result ≡ is_dns_subdomain text.now }
{
    text.len() <= MAX_SUBDOMAIN && text.split('.').all(|part| is_dns_part(part))
}
