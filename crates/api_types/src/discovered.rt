//! Types of which documents tell clients. The documents are those of the crate `discovery`.
ghost use Rattle.std.specs.Prelude.{◌≡◌, map};
ghost use Rattle.api_types.specs.Discovered.{are_discovered};
ghost use Rattle.api_types.specs.ServedViews.{served};

use crate::served::Served;

/// Whether documents tell of one of the types.
pub(crate) fn are_discovered(types: &[Served]) -> bool
    ensures { result ≡ are_discovered (map served types.now) }
{
    types.iter().any(|one| one.profile.is_discovered())
}
