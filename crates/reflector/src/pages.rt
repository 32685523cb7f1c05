//! Takes a page of a list: its objects are set aside, or kept with the last page. Lines of a watch are taken in `taking`.

ghost use Rattle.std.specs.Prelude.{◌≡◌, ◌++◌, None, length, map, nat_le, option_map, string_bytes, if◌then◌else◌, OnErr, OnOk};
ghost use Rattle.std.specs.FinMap as fin;
ghost use Rattle.indexer.specs.Objects.{shared_of};
ghost use Rattle.decoder.specs.Views.{page_seen};
ghost use Rattle.reflector.specs.PagedListViews.{paged_list_of};
ghost use Rattle.reflector.specs.Client.{by_place, Client, max_objects};
ghost use Rattle.reflector.specs.ReceivedViews.{page_reason_after, with_page_after};
ghost use Rattle.reflector.specs.InformerViews.{RepresentsExceptReader, SameSetup};
ghost use Rattle.reflector.specs.ReadingViews.{ReadsOn};
ghost use Rattle.reflector.specs.Run.{listed, keep_paged, with_next, with_page};
ghost use Rattle.reflector.specs.Views.{sync_of};
ghost use Rattle.reflector.specs.MirrorRepresentsViews.{SameIndexes, MirrorRepresents};
ghost use Rattle.reflector.specs.RelistReasons.{next_page_reason, page_reason};
ghost use Rattle.reflector.specs.declared.relist_reason.RelistReason.TheVariants.{NotAscending, TooManyObjects};

use crate::informer::Informer;
use crate::mirror::Mirror;
use crate::paged_list::{MAX_OBJECTS, PagedList};
use crate::relist_reason::RelistReason;
use crate::sync::SyncPhase;
use decoder::Page;
use indexer::{IndexBy, Object};
use std::alloc::{AllocError, Global};
use std::mem;
use std::rc::Rc;

/// The rule that these objects break, if they don't go on behind those that are set aside.
fn refused_by(paged_list: &[Rc<Object>], found: &[Rc<Object>]) -> RelistReason
    ensures { result ≡ (if nat_le (length (map shared_of paged_list.now ++ map shared_of found.now)) max_objects then NotAscending else TooManyObjects) }
{
    if paged_list.len().saturating_add(found.len()) <= MAX_OBJECTS {
        RelistReason::NotAscending
    } else {
        RelistReason::TooManyObjects
    }
}

impl<I: IndexBy> Mirror<I> {
    /// Keeps the whole list. Out of memory, it changes nothing.
    fn keep_list(&mut self, alloc: Global, revision: u64, all: PagedList) -> Result<(), AllocError>
        ensures taken { (c : Client) → MirrorRepresents I.keys self.old c → OnOk result (MirrorRepresents I.keys self.new (listed c revision (fin.from_sorted (by_place (paged_list_of all))))) }
        ensures refused { (c : Client) → MirrorRepresents I.keys self.old c → OnErr result (MirrorRepresents I.keys self.new c) }
        ensures setup { SameIndexes self.old self.new }
    {
        self.replace(alloc, all)?;
        self.revision = Some(revision);
        Ok(())
    }
}

impl<I: IndexBy> Informer<I> {
    /// Sets these objects aside, or keeps them, where the list ends with them.
    fn keep_paged(
        &mut self,
        revision: u64,
        token: Option<String>,
        all: PagedList,
    ) -> Result<(), AllocError>
        ensures taken { (c : Client) → MirrorRepresents I.keys self.old.mirror c → OnOk result (RepresentsExceptReader I.keys self.new (keep_paged c revision (paged_list_of all) (option_map string_bytes token)) None) }
        ensures refused { (c : Client) → MirrorRepresents I.keys self.old.mirror c → OnErr result (MirrorRepresents I.keys self.new.mirror c) }
        ensures read { ReadsOn self.old.reply self.new.reply }
        ensures setup { SameSetup self.old self.new }
    {
        match token {
            Some(token) => self.ask_next(SyncPhase::Next(revision, token, all)),
            None => {
                self.mirror.keep_list(self.alloc, revision, all)?;
                self.ask_next(SyncPhase::Streaming);
            }
        }
        Ok(())
    }

    /// Takes a page behind what is set aside.
    fn take_after(&mut self, paged_list: PagedList, page: Page) -> Result<(), AllocError>
        ensures taken { (c : Client) → MirrorRepresents I.keys self.old.mirror c → OnOk result (RepresentsExceptReader I.keys self.new (with_page c (paged_list_of paged_list) (page_seen page)) (page_reason (paged_list_of paged_list) (page_seen page))) }
        ensures refused { (c : Client) → MirrorRepresents I.keys self.old.mirror c → OnErr result (MirrorRepresents I.keys self.new.mirror c) }
        ensures read { ReadsOn self.old.reply self.new.reply }
        ensures setup { SameSetup self.old self.new }
    {
        let Page {
            revision,
            token,
            objects,
        } = page;
        let refused = refused_by(&paged_list.objects, &objects);
        let Some(all) = paged_list.with(objects)? else {
            self.give_up(refused);
            return Ok(());
        };
        self.keep_paged(revision, token, all)
    }

    /// Takes a later page, if it is of the first one's revision.
    fn take_next(
        &mut self,
        revision: u64,
        paged_list: PagedList,
        page: Page,
    ) -> Result<(), AllocError>
        ensures taken { (c : Client) → MirrorRepresents I.keys self.old.mirror c → OnOk result (RepresentsExceptReader I.keys self.new (with_next c revision (paged_list_of paged_list) (page_seen page)) (next_page_reason revision (paged_list_of paged_list) (page_seen page))) }
        ensures refused { (c : Client) → MirrorRepresents I.keys self.old.mirror c → OnErr result (MirrorRepresents I.keys self.new.mirror c) }
        ensures read { ReadsOn self.old.reply self.new.reply }
        ensures setup { SameSetup self.old self.new }
    {
        if page.revision == revision {
            return self.take_after(paged_list, page);
        }
        self.give_up(RelistReason::InconsistentList);
        Ok(())
    }

    /// Takes a page of the list that is asked. Out of memory, what is kept stays.
    pub(crate) fn take_page(&mut self, page: Page) -> Result<(), AllocError>
        ensures taken { (c : Client) → MirrorRepresents I.keys self.old.mirror c → OnOk result (RepresentsExceptReader I.keys self.new (with_page_after c (sync_of self.old.sync) (page_seen page)) (page_reason_after (sync_of self.old.sync) (page_seen page))) }
        ensures refused { (c : Client) → MirrorRepresents I.keys self.old.mirror c → OnErr result (MirrorRepresents I.keys self.new.mirror c) }
        ensures read { ReadsOn self.old.reply self.new.reply }
        ensures setup { SameSetup self.old self.new }
    {
        match mem::replace(&mut self.sync, SyncPhase::First) {
            SyncPhase::Next(revision, _, paged_list) => self.take_next(revision, paged_list, page),
            SyncPhase::First | SyncPhase::Streaming => self.take_after(
                PagedList::new(self.alloc),
                page,
            ),
        }
    }
}
