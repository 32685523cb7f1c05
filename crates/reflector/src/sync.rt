//! What an informer asks for, now or next: a page of a list, or a watch. The bytes of the request stand in `requests`.

ghost use Rattle.std.specs.Prelude.{◌≡◌};
ghost use Rattle.reflector.specs.Client.{list_revision};
ghost use Rattle.reflector.specs.ReceivedViews.{is_streaming};
ghost use Rattle.reflector.specs.Views.{sync_of};

use crate::paged_list::PagedList;

#[derive(Drop)]
pub(crate) enum SyncPhase {
    /// The first page of a list.
    First,
    /// The page of this list, of this revision, where the token goes on behind the objects that are set aside.
    Next(u64, String, PagedList),
    /// A watch from the cache's revision.
    Streaming,
}

impl SyncPhase {
    /// Whether it is a watch, and no list.
    pub(crate) fn is_streaming(&self) -> bool
        ensures { result ≡ is_streaming (sync_of self.now) }
    {
        matches!(self, SyncPhase::Streaming)
    }

    /// The revision of the list in whose middle it is.
    pub(crate) fn list_revision(&self) -> Option<u64>
        ensures { result ≡ list_revision (sync_of self.now) }
    {
        match self {
            SyncPhase::Next(revision, _, _) => Some(*revision),
            SyncPhase::First | SyncPhase::Streaming => None,
        }
    }
}
