//! The identity of an object, by its type and key: what its text names. What a body has to name stands in `api_validation`.

ghost use Rattle.std.specs.Prelude.{◌≡◌};
ghost use Rattle.api_types.specs.Served as types;
ghost use Rattle.objects.specs.Views as objects;
ghost use Rattle.history.specs.Read.{key_of};
ghost use Rattle.api_validation.specs.Envelope.{api_version_of};
ghost use Rattle.verbs.specs.Machine.{identity_of};

use api_types::Served;
use history::Key;
use ownership::Identity;

/// The identity of an object of the type and the key; the text of its `group/version` is given.
pub fn identity_of<'a>(served: &'a Served, key: &'a Key, api_version: &'a str) -> Identity<'a>
    ensures { api_version.now ≡ api_version_of (types.served served.now) → objects.identity_of result ≡ identity_of (types.served served.now) (key_of key.now) }
{
    Identity {
        api_version,
        kind: served.kind.as_str(),
        namespace: key.namespace.as_str(),
        name: key.name.as_str(),
    }
}
