//! Changes of what is kept, each with its notice. What a notice says stands in `notice`.

ghost use Rattle.std.specs.Prelude.{◌≡◌, ◌++◌, None, Some, OnOk, OnErr, map};
ghost use Rattle.std.specs.FinMap as fin;
ghost use Rattle.indexer.specs.Indexer.{indexed_objects_of, indexes_of};
ghost use Rattle.indexer.specs.Kept.{objects_in};
ghost use Rattle.indexer.specs.Objects.{place_of, place_of_object, shared_of};
ghost use Rattle.indexer.specs.PutAll.{put_all};
ghost use Rattle.reflector.specs.PagedListViews.{paged_list_of};
ghost use Rattle.reflector.specs.BetweenViews.{between};
ghost use Rattle.reflector.specs.Client.{by_place, notice_of};
ghost use Rattle.reflector.specs.Views.{notice_seen, object_in};
ghost use Rattle.reflector.specs.MirrorRepresentsViews.{SameIndexes};

use crate::merging::notify_of_differences;
use crate::mirror::Mirror;
use crate::notice::{notify, put_notice, removed_notice};
use crate::paged_list::PagedList;
use indexer::{IndexBy, Object, ObjectKey};
use std::alloc::{AllocError, Global};
use std::rc::Rc;

impl<I: IndexBy> Mirror<I> {
    /// Keeps the object where it stands, and adds the notice. Out of memory, it changes nothing.
    pub(crate) fn put(&mut self, object: Rc<Object>) -> Result<(), AllocError>
        ensures held { OnOk result (indexed_objects_of self.new.indexer ≡ fin.insert (indexed_objects_of self.old.indexer) (place_of_object object.value) (shared_of object, map (λ b. I.keys b (shared_of object)) (indexes_of self.old.indexer))) }
        ensures emitted { OnOk result (map notice_seen self.new.notices.items ≡ map notice_seen self.old.notices.items ++ notice_of (object_in (indexed_objects_of self.old.indexer) (place_of_object object.value)) (Some (shared_of object))) }
        ensures kept { OnErr result (indexed_objects_of self.new.indexer ≡ indexed_objects_of self.old.indexer) }
        ensures unchanged { OnErr result (self.new.notices.items ≡ self.old.notices.items) }
        ensures revision { self.new.revision ≡ self.old.revision }
        ensures setup { SameIndexes self.old self.new }
    {
        let copy = object.clone()?;
        self.notices.reserve(1)?;
        let was = self.indexer.put(object)?;
        notify(&mut self.notices, put_notice(was, copy));
        Ok(())
    }

    /// Keeps no object at the key, and adds the notice. Out of memory, it changes nothing.
    pub(crate) fn remove(&mut self, key: &ObjectKey) -> Result<(), AllocError>
        ensures held { OnOk result (indexed_objects_of self.new.indexer ≡ fin.remove (indexed_objects_of self.old.indexer) (place_of key.now)) }
        ensures emitted { OnOk result (map notice_seen self.new.notices.items ≡ map notice_seen self.old.notices.items ++ notice_of (object_in (indexed_objects_of self.old.indexer) (place_of key.now)) None) }
        ensures kept { OnErr result (indexed_objects_of self.new.indexer ≡ indexed_objects_of self.old.indexer) }
        ensures unchanged { OnErr result (self.new.notices.items ≡ self.old.notices.items) }
        ensures revision { self.new.revision ≡ self.old.revision }
        ensures setup { SameIndexes self.old self.new }
    {
        self.notices.reserve(1)?;
        notify(&mut self.notices, removed_notice(self.indexer.remove(key)));
        Ok(())
    }

    /// Keeps just these objects, and adds a notice of each difference. Out of memory, it changes nothing.
    pub(crate) fn replace(&mut self, alloc: Global, all: PagedList) -> Result<(), AllocError>
        ensures held { OnOk result (indexed_objects_of self.new.indexer ≡ put_all (λ o. map (λ b. I.keys b o) (indexes_of self.old.indexer)) (paged_list_of all) fin.empty) }
        ensures emitted { OnOk result (map notice_seen self.new.notices.items ≡ map notice_seen self.old.notices.items ++ between (objects_in (indexed_objects_of self.old.indexer)) (by_place (paged_list_of all))) }
        ensures kept { OnErr result (indexed_objects_of self.new.indexer ≡ indexed_objects_of self.old.indexer) }
        ensures unchanged { OnErr result (self.new.notices.items ≡ self.old.notices.items) }
        ensures revision { self.new.revision ≡ self.old.revision }
        ensures setup { SameIndexes self.old self.new }
    {
        let new = all.shares(alloc)?;
        self.notices
            .reserve(self.indexer.len().saturating_add(new.len()))?;
        let old = self.indexer.replace(all.objects)?;
        notify_of_differences(old, new, &mut self.notices);
        Ok(())
    }
}
