//! What an informer keeps: the server's objects, their revision, and the notices that wait. It is changed in `notifying`,
//! by a watch's lines in `taking`.

ghost use Rattle.std.specs.Prelude.{◌≡◌};
ghost use Rattle.indexer.specs.Indexer.{indexes_of, names_of};
ghost use Rattle.reflector.specs.Client.{fresh};
ghost use Rattle.reflector.specs.MirrorRepresentsViews.{SameIndexes, MirrorRepresents};

use crate::notice::Notice;
use indexer::{IndexBy, Indexer};
use std::alloc::Global;

/// The objects, the revision that they are of, and the notices that were not taken yet.
#[derive(Drop)]
pub(crate) struct Mirror<I: Drop> {
    pub(crate) indexer: Indexer<I>,
    pub(crate) revision: Option<u64>,
    pub(crate) notices: Vec<Notice>,
}

impl<I: IndexBy> Mirror<I> {
    /// The indexer's functions, and nothing kept.
    pub(crate) fn new(alloc: Global, indexer: Indexer<I>) -> Mirror<I>
        ensures fresh { MirrorRepresents I.keys result fresh }
        ensures indexes { indexes_of result.indexer ≡ indexes_of indexer }
        ensures names { names_of result.indexer ≡ names_of indexer }
    {
        let mut indexer = indexer;
        indexer.clear();
        Mirror {
            indexer,
            revision: None,
            notices: Vec::new(alloc),
        }
    }

    /// Keeps nothing, as at the start.
    pub(crate) fn forget(&mut self, alloc: Global)
        ensures fresh { MirrorRepresents I.keys self.new fresh }
        ensures setup { SameIndexes self.old self.new }
    {
        self.indexer.clear();
        self.revision = None;
        self.notices = Vec::new(alloc);
    }
}
