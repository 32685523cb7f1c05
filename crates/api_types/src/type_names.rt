//! The names of a type (Kubernetes docs, "Object Names and IDs"). Names of objects stand in the crate `names`.
ghost use Rattle.std.specs.Prelude.{◌≡◌};
ghost use Rattle.std.specs.Char.{is_ascii_alphanumeric};
ghost use Rattle.std.specs.List.{list_all};
ghost use Rattle.api_types.specs.Names.{is_kind_name, is_plural};

use names::is_dns_label;

fn is_alphanumeric(name: &[u8]) -> bool
    ensures { result ≡ list_all is_ascii_alphanumeric name.now }
{
    name.iter().all(|byte| byte.is_ascii_alphanumeric())
}

/// Whether a text is one or more ASCII letters and digits.
pub(crate) fn is_kind_name(name: &str) -> bool
    ensures { result ≡ is_kind_name name.now }
{
    !name.is_empty() && is_alphanumeric(name.as_bytes())
}

/// Whether a text is a DNS label and can stand for a type in a path.
pub(crate) fn is_plural(name: &str) -> bool
    ensures { result ≡ is_plural name.now }
{
    is_dns_label(name) && name != "namespaces"
}
