//! What the text of a single parameter says: a truth value, a match, a manager's name or a token. Parameters are found in
//! `query`.

ghost use Rattle.std.specs.Prelude.{◌≡◌, option_map};
ghost use Rattle.std.specs.List.{list_all};
ghost use Rattle.params.specs.Texts.{cut_at_dot, is_manager, is_printable, match_of, token_of, token_with, truth_of};
ghost use Rattle.params.specs.Views.{place_of};

use crate::params::VersionMatch;
use names::version_of;

/// The length of the longest name of a manager.
const MAX_MANAGER: usize = 128;

/// The message where a manager's name is missing, too long or not printable.
pub const BAD_MANAGER: &str = "fieldManager: 1 to 128 printable characters";

pub(crate) fn truth_of(text: &str) -> Option<bool>
    ensures { result ≡ truth_of text.now }
{
    match text {
        "true" | "1" => Some(true),
        "false" | "0" => Some(false),
        _ => None,
    }
}

pub(crate) fn match_of(text: &str) -> Option<VersionMatch>
    ensures { result ≡ match_of text.now }
{
    match text {
        "Exact" => Some(VersionMatch::Exact),
        "NotOlderThan" => Some(VersionMatch::NotOlderThan),
        _ => None,
    }
}

fn is_printable(text: &str) -> bool
    ensures { result ≡ list_all is_printable text.now }
{
    text.as_bytes()
        .iter()
        .all(|byte| (b' '..=b'~').contains(byte))
}

/// Whether a text has 1 to 128 printable characters of ASCII.
pub(crate) fn is_manager(text: &str) -> bool
    ensures { result ≡ is_manager text.now }
{
    !text.is_empty() && text.len() <= MAX_MANAGER && is_printable(text)
}

/// The two texts that the first dot parts.
fn cut_at_dot(text: &str) -> Option<(&str, &str)>
    ensures { option_map (λ cut. (cut.0.now, cut.1.now)) result ≡ cut_at_dot text.now }
{
    text.split_once('.')
}

/// A revision and two texts, unless one of the three is missing.
fn token_with<'a>(
    revision: Option<u64>,
    namespace: &'a str,
    name: &'a str,
) -> Option<(u64, &'a str, &'a str)>
    ensures { option_map (λ t. place_of t.0 t.1.now t.2.now) result ≡ token_with revision namespace.now name.now }
{
    if namespace.is_empty() || name.is_empty() {
        return None;
    }
    Some((revision?, namespace, name))
}

/// Revision, namespace and name of `<revision>.<namespace>.<name>`.
pub(crate) fn token_of(text: &str) -> Option<(u64, &str, &str)>
    ensures { option_map (λ t. place_of t.0 t.1.now t.2.now) result ≡ token_of text.now }
{
    let (revision, place) = cut_at_dot(text)?;
    let (namespace, name) = cut_at_dot(place)?;
    token_with(version_of(revision), namespace, name)
}
