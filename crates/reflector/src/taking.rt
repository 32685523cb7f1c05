//! Takes a line of a watch: a change or a bookmark. Pages of a list are taken in `pages`.

ghost use Rattle.std.specs.Prelude.{◌≡◌, ◌+◌, Some, IfOk, OnErr, cond, nat_le, nat_lt};
ghost use Rattle.indexer.specs.Indexer.{indexed_objects_of};
ghost use Rattle.indexer.specs.Objects.{place_of_object, shared_of, stored_of};
ghost use Rattle.decoder.specs.Views.{line_seen};
ghost use Rattle.reflector.specs.Client.{Cache, Client, max_objects};
ghost use Rattle.reflector.specs.Items as items;
ghost use Rattle.reflector.specs.Run.{with_bookmark, with_deleted, with_line, with_put, with_watch};
ghost use Rattle.reflector.specs.MirrorViews.{len_with};
ghost use Rattle.reflector.specs.MirrorRepresentsViews.{SameIndexes, MirrorRepresents};
ghost use Rattle.reflector.specs.RelistReasons.{bookmark_reason, deleted_reason, line_reason, put_reason};

use crate::mirror::Mirror;
use crate::paged_list::MAX_OBJECTS;
use crate::relist_reason::RelistReason;
use decoder::Line;
use indexer::{IndexBy, Object, ObjectKey};
use std::alloc::AllocError;
use std::rc::Rc;

fn is_above(revision: u64, now: u64) -> bool
    ensures { result ≡ nat_lt now revision }
{
    now < revision
}

/// Whether there is room for an object, beside so many or in place of one.
fn has_room(len: usize, is_there: bool) -> bool
    ensures { result ≡ nat_le (cond is_there len (len + 1)) max_objects }
{
    if is_there {
        len <= MAX_OBJECTS
    } else {
        len < MAX_OBJECTS
    }
}

impl<I: IndexBy> Mirror<I> {
    /// Whether there is room for this object.
    fn has_room_for(&self, object: &Rc<Object>) -> Result<bool, AllocError>
        ensures { IfOk result (λ b. b ≡ nat_le (len_with (indexed_objects_of self.now.indexer) (place_of_object object.now.value)) max_objects) }
    {
        if self.indexer.len() < MAX_OBJECTS {
            return Ok(true);
        }
        let key = ObjectKey::of(object)?;
        Ok(has_room(self.indexer.len(), self.indexer.get(&key).is_some()))
    }

    /// Puts the object, if its revision is above this one and there is room; answers the rule that it breaks. Out of memory,
    /// it changes nothing.
    fn take_put(&mut self, now: u64, object: Rc<Object>) -> Result<Option<RelistReason>, AllocError>
        ensures taken { (c : Client) (cache : Cache) → MirrorRepresents I.keys self.old c → c.cache ≡ Some cache → now ≡ cache.revision
            → IfOk result (λ broken. MirrorRepresents I.keys self.new (with_put c cache (shared_of object)) × (broken ≡ put_reason cache (shared_of object))) }
        ensures refused { (c : Client) → MirrorRepresents I.keys self.old c → OnErr result (MirrorRepresents I.keys self.new c) }
        ensures setup { SameIndexes self.old self.new }
    {
        let revision = object.revision;
        if !is_above(revision, now) {
            return Ok(Some(RelistReason::StaleEvent));
        }
        if !self.has_room_for(&object)? {
            return Ok(Some(RelistReason::TooManyObjects));
        }
        self.put(object)?;
        self.revision = Some(revision);
        Ok(None)
    }

    /// Takes the object away, if its revision is above this one; answers the rule that it breaks. Out of memory, it changes
    /// nothing.
    fn take_deleted(&mut self, now: u64, object: Object) -> Result<Option<RelistReason>, AllocError>
        ensures taken { (c : Client) (cache : Cache) → MirrorRepresents I.keys self.old c → c.cache ≡ Some cache → now ≡ cache.revision
            → IfOk result (λ broken. MirrorRepresents I.keys self.new (with_deleted c cache (stored_of object)) × (broken ≡ deleted_reason cache (stored_of object))) }
        ensures refused { (c : Client) → MirrorRepresents I.keys self.old c → OnErr result (MirrorRepresents I.keys self.new c) }
        ensures setup { SameIndexes self.old self.new }
    {
        let revision = object.revision;
        if !is_above(revision, now) {
            return Ok(Some(RelistReason::StaleEvent));
        }
        let key = ObjectKey {
            namespace: object.namespace,
            name: object.name,
        };
        self.remove(&key)?;
        self.revision = Some(revision);
        Ok(None)
    }

    /// Goes on to this revision, if it isn't below the other one; answers the rule that it breaks.
    fn take_bookmark(&mut self, now: u64, revision: u64) -> Option<RelistReason>
        ensures taken { (c : Client) (cache : Cache) → MirrorRepresents I.keys self.old c → c.cache ≡ Some cache → now ≡ cache.revision
            → MirrorRepresents I.keys self.new (with_bookmark c cache revision) × (result ≡ bookmark_reason cache revision) }
        ensures setup { SameIndexes self.old self.new }
    {
        if is_above(now, revision) {
            return Some(RelistReason::StaleBookmark);
        }
        self.revision = Some(revision);
        None
    }

    fn take_line_at(&mut self, now: u64, line: Line) -> Result<Option<RelistReason>, AllocError>
        ensures taken { (c : Client) (cache : Cache) → MirrorRepresents I.keys self.old c → c.cache ≡ Some cache → now ≡ cache.revision
            → IfOk result (λ broken. MirrorRepresents I.keys self.new (with_line c cache (line_seen line)) × (broken ≡ line_reason (Some cache) (line_seen line))) }
        ensures refused { (c : Client) → MirrorRepresents I.keys self.old c → OnErr result (MirrorRepresents I.keys self.new c) }
        ensures setup { SameIndexes self.old self.new }
    {
        match line {
            Line::Put(object) => self.take_put(now, object),
            Line::Deleted(object) => self.take_deleted(now, object),
            Line::Bookmark(revision) => Ok(self.take_bookmark(now, revision)),
            Line::Error => Ok(Some(RelistReason::ErrorEvent)),
        }
    }

    /// Takes a watch's line; answers the rule that it breaks, and then it changes nothing. Out of memory, it changes nothing.
    pub(crate) fn take_line(&mut self, line: Line) -> Result<Option<RelistReason>, AllocError>
        ensures taken { (c : Client) → MirrorRepresents I.keys self.old c
            → IfOk result (λ broken. MirrorRepresents I.keys self.new (with_watch c c.cache (items.line (line_seen line))) × (broken ≡ line_reason c.cache (line_seen line))) }
        ensures refused { (c : Client) → MirrorRepresents I.keys self.old c → OnErr result (MirrorRepresents I.keys self.new c) }
        ensures setup { SameIndexes self.old self.new }
    {
        match self.revision {
            Some(now) => self.take_line_at(now, line),
            None => Ok(Some(RelistReason::NotAList)),
        }
    }
}
