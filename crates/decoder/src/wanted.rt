//! Which objects a client asks for: their type and namespace. A reply is checked against these in `kinds` and `object`.

ghost use Rattle.std.specs.Prelude.{◌≡◌, ◌++◌, codes, option_map};
ghost use Rattle.std.specs.Str.{bytes_eq};
ghost use Rattle.decoder.specs.Views.{wanted_of};
ghost use Rattle.decoder.specs.Wanted.{api_version_of, is_in};

/// A type of objects, as a server serves it: below `/apis/{group}/{version}`, where `plural` stands in the path.
#[derive(Debug, Drop)]
pub struct Source {
    pub group: String,
    pub version: String,
    pub kind: String,
    pub plural: String,
}

/// The objects of a type, in a namespace or, without one, in all.
#[derive(Debug, Drop)]
pub struct Wanted {
    pub source: Source,
    pub namespace: Option<String>,
}

/// Whether a text is these two, one after the other.
fn is_joined(text: &str, prefix: &str, end: &str) -> bool
    ensures { result ≡ bytes_eq text.now (prefix.now ++ end.now) }
{
    match text.strip_prefix(prefix) {
        Some(rest) => rest == end,
        None => false,
    }
}

/// Whether a text is these two with `/` between.
fn is_group_and_version(text: &str, group: &str, version: &str) -> bool
    ensures { result ≡ bytes_eq text.now (group.now ++ codes "/" ++ version.now) }
{
    match text.strip_prefix(group) {
        Some(rest) => is_joined(rest, "/", version),
        None => false,
    }
}

pub(crate) fn is_api_version(wanted: &Wanted, text: &str) -> bool
    ensures { result ≡ bytes_eq text.now (api_version_of (wanted_of wanted.now)) }
{
    is_group_and_version(
        text,
        wanted.source.group.as_str(),
        wanted.source.version.as_str(),
    )
}

pub(crate) fn is_kind(wanted: &Wanted, text: &str) -> bool
    ensures { result ≡ bytes_eq text.now (wanted_of wanted.now).kind }
{
    text == wanted.source.kind.as_str()
}

/// Whether a text is the kind of a list of them.
pub(crate) fn is_list_kind(wanted: &Wanted, text: &str) -> bool
    ensures { result ≡ bytes_eq text.now ((wanted_of wanted.now).kind ++ codes "List") }
{
    is_joined(text, wanted.source.kind.as_str(), "List")
}

pub(crate) fn is_in(wanted: &Wanted, namespace: &str) -> bool
    ensures { result ≡ is_in (wanted_of wanted.now).namespace namespace.now }
{
    match &wanted.namespace {
        Some(asked) => namespace == asked.as_str(),
        None => true,
    }
}
