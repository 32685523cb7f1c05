//! The revision that a list is of, by what is asked and what the store still has; the rows at it are read in `rows`.

ghost use Rattle.std.specs.Prelude.{◌≡◌, option_map};
ghost use Rattle.params.specs.Views.{token_view, values_of};
ghost use Rattle.lists.specs.Revision.{is_exact, revision_by, revision_of, wanted_by, wanted_by_version};
ghost use Rattle.lists.specs.Views.{wanted_seen};

use crate::refusal::Refusal;
use params::{Params, VersionMatch};

/// The revision that stands, if it is not below a version; or exactly a version.
#[derive(Clone, Copy, Debug, PartialEq, Eq)]
pub(crate) enum WantedRevision {
    NotOlderThan(u64),
    Exactly(u64),
}

/// Without a match, a version is exact where the list is cut into pages.
fn is_exact(version_match: Option<VersionMatch>, limit: u64) -> bool
    ensures { result ≡ is_exact version_match limit }
{
    match version_match {
        None => limit > 0,
        Some(VersionMatch::Exact) => true,
        Some(VersionMatch::NotOlderThan) => false,
    }
}

fn wanted_by_version(
    version: Option<u64>,
    version_match: Option<VersionMatch>,
    limit: u64,
) -> WantedRevision
    ensures { wanted_seen result ≡ wanted_by_version version version_match limit }
{
    let Some(version) = version else {
        return WantedRevision::NotOlderThan(0);
    };
    if version == 0 {
        WantedRevision::NotOlderThan(0)
    } else if is_exact(version_match, limit) {
        WantedRevision::Exactly(version)
    } else {
        WantedRevision::NotOlderThan(version)
    }
}

fn wanted_by(params: &Params) -> WantedRevision
    ensures { wanted_seen result ≡ wanted_by (option_map token_view params.now.token) (values_of params.now) }
{
    match &params.token {
        Some(token) => WantedRevision::Exactly(token.revision),
        None => wanted_by_version(params.version, params.version_match, params.limit),
    }
}

fn revision_by(current: u64, compacted: u64, wanted: WantedRevision) -> Result<u64, Refusal>
    ensures { result ≡ revision_by current compacted (wanted_seen wanted) }
{
    match wanted {
        WantedRevision::NotOlderThan(version) if version <= current => Ok(current),
        WantedRevision::NotOlderThan(version) => Err(Refusal::TooLarge(version, current)),
        WantedRevision::Exactly(version) if version < compacted => {
            Err(Refusal::Expired(version, compacted))
        }
        WantedRevision::Exactly(version) if version <= current => Ok(version),
        WantedRevision::Exactly(version) => Err(Refusal::TooLarge(version, current)),
    }
}

/// The revision that a list is of, where these are the current and the compacted number.
pub(crate) fn revision_of(current: u64, compacted: u64, params: &Params) -> Result<u64, Refusal>
    ensures { result ≡ revision_of current compacted (values_of params.now) }
{
    revision_by(current, compacted, wanted_by(params))
}
