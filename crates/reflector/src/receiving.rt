//! Takes the items of a reply, which change what is kept and what is asked. Pages are taken in `pages`, lines in
//! `taking`.

ghost use Rattle.std.specs.Prelude.{◌≡◌, ◌++◌, ℕ, List, Option, None, Some, Ok, map, true, false, IfOk, OnErr, OnOk};
ghost use Rattle.wireclient.specs.Reads.{Items};
ghost use Rattle.wireclient.specs.Reply.{ReplyItem};
ghost use Rattle.wireclient.specs.Views.{reply_item_of};
ghost use Rattle.decoder.specs.Views.{line_seen};
ghost use Rattle.reflector.specs.Client.{Client, streaming};
ghost use Rattle.reflector.specs.ReceivedViews.{ReceivedSome, list_relist_reason, response_of, page_reason_after, watch_relist_reason, with_page_after};
ghost use Rattle.reflector.specs.InformerViews.{RepresentsExceptReader, InformerRepresents, SameSetup, settings_in, relist_reason_in};
ghost use Rattle.reflector.specs.Items as items;
ghost use Rattle.reflector.specs.ReadingViews.{AreReceived, IsRead, ReadsOn, reader_of};
ghost use Rattle.reflector.specs.Run.{relisting, receives, receives_all, with_list, with_watch};
ghost use Rattle.reflector.specs.Views.{sync_of};
ghost use Rattle.reflector.specs.MirrorRepresentsViews.{MirrorRepresents};
ghost use Rattle.reflector.specs.RelistReasons.{line_reason, relist_reason_after, relist_reason_with};

use crate::informer::Informer;
use crate::relist_reason::RelistReason;
use crate::reply::Reply;
use crate::response::{Response, list_response, watch_response};
use crate::sync::SyncPhase;
use decoder::Line;
use indexer::IndexBy;
use std::alloc::AllocError;
use wireclient::{Item, ReadFault, ReplyReader};

/// The items that a piece of the reply completes. A reader that has emitted a malformed reply isn't fed again, so this fails
/// only out of memory.
fn read(reader: &mut ReplyReader, piece: &[u8]) -> Result<Vec<Item>, AllocError>
    ensures { (bytes : List ℕ) (emitted : List ReplyItem) → IsRead (Some reader.old) bytes emitted → IfOk result (λ items. IsRead (Some reader.new) (bytes ++ piece.now) (emitted ++ map reply_item_of items.items)) }
{
    match reader.feed(piece) {
        Ok(items) => Ok(items),
        Err(ReadFault::Malformed | ReadFault::Memory) => Err(AllocError),
    }
}

impl<I: IndexBy> Informer<I> {
    /// The reply is given up, and a first page is asked next.
    pub(crate) fn give_up(&mut self, relist_reason: RelistReason)
        ensures given_up { (c : Client) → MirrorRepresents I.keys self.old.mirror c → RepresentsExceptReader I.keys self.new (relisting c) (Some relist_reason) }
        ensures relist_reason { relist_reason_in self.new ≡ Some relist_reason }
        ensures read { ReadsOn self.old.reply self.new.reply }
        ensures setup { SameSetup self.old self.new }
    {
        self.sync = SyncPhase::First;
        self.reply = Reply::GivenUp(relist_reason);
    }

    /// The reply has brought all that was asked, and this is asked next.
    pub(crate) fn ask_next(&mut self, next: SyncPhase)
        ensures kept { (c : Client) → MirrorRepresents I.keys self.old.mirror c → sync_of next ≡ c.sync → c.is_awaiting_reply ≡ false → RepresentsExceptReader I.keys self.new c None }
        ensures read { ReadsOn self.old.reply self.new.reply }
        ensures setup { SameSetup self.old self.new }
    {
        self.sync = next;
        self.reply = Reply::Over;
    }

    fn receive_list(&mut self, response: Response) -> Result<(), AllocError>
        ensures received { (c : Client) → RepresentsExceptReader I.keys self.old c None
            → OnOk result (RepresentsExceptReader I.keys self.new (with_list c (with_page_after c c.sync) (response_of response)) (list_relist_reason (page_reason_after c.sync) response)) }
        ensures refused { (c : Client) → MirrorRepresents I.keys self.old.mirror c → OnErr result (MirrorRepresents I.keys self.new.mirror c) }
        ensures read { ReadsOn self.old.reply self.new.reply }
        ensures setup { SameSetup self.old self.new }
    {
        match response {
            Response::Begun => {}
            Response::Page(page) => self.take_page(page)?,
            Response::Line(_) | Response::Over => self.give_up(RelistReason::NotAList),
            Response::Unexpected(relist_reason) => self.give_up(relist_reason),
        }
        Ok(())
    }

    /// Takes a watch's line; the reply is given up, if it breaks a rule.
    fn receive_line(&mut self, line: Line) -> Result<(), AllocError>
        ensures received { (c : Client) → RepresentsExceptReader I.keys self.old c None → c.sync ≡ streaming → c.is_awaiting_reply ≡ true
            → OnOk result (RepresentsExceptReader I.keys self.new (with_watch c c.cache (items.line (line_seen line))) (line_reason c.cache (line_seen line))) }
        ensures refused { (c : Client) → MirrorRepresents I.keys self.old.mirror c → OnErr result (MirrorRepresents I.keys self.new.mirror c) }
        ensures read { ReadsOn self.old.reply self.new.reply }
        ensures setup { SameSetup self.old self.new }
    {
        if let Some(broken) = self.mirror.take_line(line)? {
            self.give_up(broken);
        }
        Ok(())
    }

    fn receive_watch(&mut self, response: Response) -> Result<(), AllocError>
        ensures received { (c : Client) → RepresentsExceptReader I.keys self.old c None → c.sync ≡ streaming → c.is_awaiting_reply ≡ true
            → OnOk result (RepresentsExceptReader I.keys self.new (with_watch c c.cache (response_of response)) (watch_relist_reason c.cache response)) }
        ensures refused { (c : Client) → MirrorRepresents I.keys self.old.mirror c → OnErr result (MirrorRepresents I.keys self.new.mirror c) }
        ensures read { ReadsOn self.old.reply self.new.reply }
        ensures setup { SameSetup self.old self.new }
    {
        match response {
            Response::Begun => Ok(()),
            Response::Line(line) => self.receive_line(line),
            Response::Over => {
                self.ask_next(SyncPhase::Streaming);
                Ok(())
            }
            Response::Page(_) => {
                self.give_up(RelistReason::NotAWatch);
                Ok(())
            }
            Response::Unexpected(relist_reason) => {
                self.give_up(relist_reason);
                Ok(())
            }
        }
    }

    /// Takes an item of the reply, if it is still under way. Out of memory, what is kept stays.
    fn receive(&mut self, item: &Item) -> Result<(), AllocError>
        ensures received { (c : Client) (t : Option RelistReason) → RepresentsExceptReader I.keys self.old c t
            → OnOk result (RepresentsExceptReader I.keys self.new (receives (settings_in self.old).wanted c (reply_item_of item.now)) (relist_reason_with (settings_in self.old).wanted c t (reply_item_of item.now))) }
        ensures refused { (c : Client) → MirrorRepresents I.keys self.old.mirror c → OnErr result (MirrorRepresents I.keys self.new.mirror c) }
        ensures read { ReadsOn self.old.reply self.new.reply }
        ensures setup { SameSetup self.old self.new }
    {
        if !self.reply.is_open() {
            return Ok(());
        }
        if self.sync.is_streaming() {
            let response = watch_response(self.alloc, &self.settings.wanted, item)?;
            return self.receive_watch(response);
        }
        let response = list_response(self.alloc, &self.settings.wanted, item)?;
        self.receive_list(response)
    }

    /// Takes the items of a reply, one after the other. Refused, it has taken some of them, each whole or not at all.
    fn receive_all(&mut self, items: &[Item]) -> Result<(), AllocError>
        ensures received { (c : Client) (t : Option RelistReason) → RepresentsExceptReader I.keys self.old c t
            → OnOk result (RepresentsExceptReader I.keys self.new (receives_all (settings_in self.old).wanted c (map reply_item_of items.now)) (relist_reason_after (settings_in self.old).wanted c t (map reply_item_of items.now))) }
        ensures some { (c : Client) (t : Option RelistReason) → RepresentsExceptReader I.keys self.old c t → OnErr result (ReceivedSome I.keys (settings_in self.old).wanted self.new.mirror c (map reply_item_of items.now)) }
        ensures read { ReadsOn self.old.reply self.new.reply }
        ensures setup { SameSetup self.old self.new }
    {
        for item in items {
            self.receive(item)?;
        }
        Ok(())
    }

    /// Takes the items that a piece of the reply under way completes; with none under way it changes nothing. Refused, it
    /// has taken some of them.
    pub(crate) fn receive_piece(&mut self, piece: &[u8]) -> Result<(), AllocError>
        ensures received { (c : Client) (bytes : List ℕ) (emitted : List ReplyItem) → InformerRepresents I.keys self.old c bytes emitted → c.is_awaiting_reply ≡ true
            → OnOk result ((response : List ReplyItem) × IsRead (reader_of self.new.reply) (bytes ++ piece.now) (emitted ++ response) × Items (bytes ++ piece.now) (emitted ++ response)
            × RepresentsExceptReader I.keys self.new (receives_all (settings_in self.old).wanted c response) (relist_reason_after (settings_in self.old).wanted c None response)) }
        ensures idle { (c : Client) (bytes : List ℕ) (emitted : List ReplyItem) → InformerRepresents I.keys self.old c bytes emitted → c.is_awaiting_reply ≡ false → (result ≡ Ok tt) × (self.new ≡ self.old) }
        ensures some { (c : Client) (bytes : List ℕ) (emitted : List ReplyItem) → InformerRepresents I.keys self.old c bytes emitted
            → OnErr result ((received : List ReplyItem) × AreReceived bytes emitted piece.now received × MirrorRepresents I.keys self.new.mirror (receives_all (settings_in self.old).wanted c received)) }
        ensures setup { SameSetup self.old self.new }
    {
        let Reply::Open(reader) = &mut self.reply else {
            return Ok(());
        };
        let items = read(reader, piece)?;
        self.receive_all(&items)
    }
}
