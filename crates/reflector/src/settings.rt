//! The settings of an informer: which objects it mirrors, and how many a page has. It is made with them in `informer`.

ghost use Rattle.std.specs.Prelude.{◌≡◌, option_map, string_bytes};
ghost use Rattle.names.specs.Names.{is_dns_label};
ghost use Rattle.reflector.specs.Faults.{fault_in, is_page_size, is_namespace_or_all};
ghost use Rattle.reflector.specs.Views.{settings_of};

use decoder::Wanted;
use names::is_dns_label;
use thiserror::Error;

/// How many objects a page has at most.
const MAX_PAGE: u32 = 500;

/// The wanted objects that the selector's text selects, in pages of so many.
#[derive(Debug, Drop)]
pub(crate) struct Settings {
    pub(crate) wanted: Wanted,
    pub(crate) selector: String,
    pub(crate) page: u32,
}

/// Why nothing can be mirrored so: the first of these.
#[derive(Clone, Copy, Debug, PartialEq, Eq, Error)]
pub enum SettingsFault {
    /// A page has 1 to 500 objects.
    #[error("a page has 1 to 500 objects")]
    Page,
    /// The namespace is no DNS label (RFC 1123).
    #[error("the namespace is no DNS label")]
    Namespace,
}

fn is_page_size(size: u32) -> bool
    ensures { result ≡ is_page_size size }
{
    1 <= size && size <= MAX_PAGE
}

fn is_namespace_or_all(namespace: &Option<String>) -> bool
    ensures { result ≡ is_namespace_or_all (option_map string_bytes namespace.now) }
{
    match namespace {
        Some(namespace) => is_dns_label(namespace.as_str()),
        None => true,
    }
}

pub(crate) fn fault_in(settings: &Settings) -> Option<SettingsFault>
    ensures { result ≡ fault_in (settings_of settings.now) }
{
    if !is_page_size(settings.page) {
        return Some(SettingsFault::Page);
    }
    if !is_namespace_or_all(&settings.wanted.namespace) {
        return Some(SettingsFault::Namespace);
    }
    None
}
