//! One type that is served, and whether types have the same names. All types stand in `types`.
ghost use Rattle.std.specs.Prelude.{◌≡◌, map};
ghost use Rattle.std.specs.List.{list_any};
ghost use Rattle.api_types.specs.Served.{served};
ghost use Rattle.api_types.specs.TypesFile.{is_named, names_differ};

use crate::profile::Profile;
use schema::Schema;

/// A type that a types file declares. Its names are those of the Kubernetes docs, "Kubernetes API Concepts", "Resource URIs".
#[derive(Debug, Drop)]
pub struct Served {
    /// A DNS subdomain.
    pub group: String,
    /// A DNS label.
    pub version: String,
    /// ASCII letters and digits.
    pub kind: String,
    /// A DNS label.
    pub plural: String,
    /// A granular struct.
    pub schema: Schema,
    /// What it follows beside, which its file was read for.
    pub profile: Profile,
}

impl Served {
    pub(crate) fn is_named(&self, group: &str, version: &str, plural: &str) -> bool
        ensures { result ≡ is_named group.now version.now plural.now (served self.now) }
    {
        group == self.group.as_str()
            && version == self.version.as_str()
            && plural == self.plural.as_str()
    }
}

/// Whether one of the types has the names of the other one.
fn is_among(types: &[Served], other: &Served) -> bool
    ensures { let t = served other.now in result ≡ list_any (is_named t.group t.version t.plural) (map served types.now) }
{
    let group = other.group.as_str();
    let version = other.version.as_str();
    let plural = other.plural.as_str();
    types
        .iter()
        .any(|served| served.is_named(group, version, plural))
}

/// Whether no two types have the same group, version and plural.
pub(crate) fn names_differ(types: &[Served]) -> bool
    ensures { result ≡ names_differ (map served types.now) }
{
    for (number, served) in types.iter().enumerate() {
        if is_among(&types[number + 1..], served) {
            return false;
        }
    }
    true
}
