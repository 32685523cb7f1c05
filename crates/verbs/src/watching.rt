//! Bookmarks of watches of served types (Kubernetes docs, "Kubernetes API Concepts", "Watch bookmarks"). A watch's position
//! stands in the crate `watchline`.

ghost use Rattle.std.specs.Prelude.{◌≡◌, ◌≢◌, Err, IfOk, None, Ok, OnErr, false};
ghost use Rattle.api_types.specs.Served.{types_view};
ghost use Rattle.watchline.specs.Views.{bookmark_turn};
ghost use Rattle.watchline.specs.Watches.{is_bookmark_due};
ghost use Rattle.verbs.specs.Watching.{bookmarked_in};

use crate::fault::Fault;
use api_types::Types;
use api_validation::api_version_of;
use std::alloc::Global;
use watchline::WatchCursor;

/// The line of a bookmark, where one is due.
pub(crate) fn bookmarked(
    alloc: Global,
    types: &Types,
    cursor: &mut WatchCursor,
) -> Result<Option<String>, Fault>
    ensures bookmarked { IfOk result (λ o. bookmark_turn o cursor.new ≡ bookmarked_in (types_view types.now) cursor.old) }
    ensures err { OnErr result (cursor.new ≡ cursor.old) }
    ensures needs { is_bookmark_due cursor.old ≡ false → result ≡ Ok None }
    ensures readable { result ≢ Err Fault.Unreadable }
{
    if !cursor.is_bookmark_due() {
        return Ok(None);
    }
    let Some(served) = types.get(cursor.kind()) else {
        return Ok(None);
    };
    let api_version = api_version_of(alloc, served)?;
    Ok(cursor.bookmark(alloc, api_version.as_str(), served.kind.as_str())?)
}
