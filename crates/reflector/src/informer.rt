//! The informer: a client that mirrors a server's objects, and the calls on it. How a reply changes it stands in
//! `receiving`.

use crate::mirror::Mirror;
use crate::notice::Notice;
use crate::relist_reason::RelistReason;
use crate::reply::Reply;
use crate::requests::request_of;
use crate::settings::{Settings, SettingsFault, fault_in};
use crate::sync::SyncPhase;
use decoder::{Source, Wanted};
use indexer::{IndexBy, Indexer};
use std::alloc::{AllocError, Global};
use std::mem;
use wireclient::ReplyReader;

/// A client that mirrors a server's objects: it lists them in pages, then follows a watch. It opens no connection: the
/// caller sends each request on a new connection, hands in what comes on it, and says when it has ended. A piece or an
/// end of an older connection would count for the request under way, so that one is dropped first.
#[derive(Drop)]
pub struct Informer<I: Drop> {
    pub(crate) settings: Settings,
    pub(crate) mirror: Mirror<I>,
    pub(crate) sync: SyncPhase,
    pub(crate) reply: Reply,
    pub(crate) alloc: Global,
}

impl<I: IndexBy> Informer<I> {
    ghost use Rattle.reflector.specs.declared.relist_reason.RelistReason.TheVariants.{OutOfMemory};
    ghost use Rattle.std.specs.Prelude.{◌≡◌, ◌++◌, ℕ, List, [], Ok, true, false, map, option_map, string_bytes, IfErr, IfOk, OnErr, OnOk, None, Some};
    ghost use Rattle.indexer.specs.Indexer.{indexed_objects_of, indexes_of, names_of};
    ghost use Rattle.wireclient.specs.Reads.{Items};
    ghost use Rattle.wireclient.specs.Reply.{ReplyItem};
    ghost use Rattle.reflector.specs.Client.{Client, fresh, kept, list_revision};
    ghost use Rattle.reflector.specs.Faults.{fault_in};
    ghost use Rattle.reflector.specs.InformerViews.{InformerRepresents, due, indexes_in, names_in, settings_in, relist_reason_in};
    ghost use Rattle.reflector.specs.MirrorViews.{keyed};
    ghost use Rattle.reflector.specs.ReadingViews.{AreReceived};
    ghost use Rattle.reflector.specs.Run.{relisting, asked, closed, receives_all, taken};
    ghost use Rattle.reflector.specs.Views.{notice_seen, settings_from};
    ghost use Rattle.reflector.specs.MirrorRepresentsViews.{keys_in};
    ghost use Rattle.reflector.specs.RelistReasons.{relist_reason_after};

    /// An informer of the source's objects, in a namespace or in all, that the label selector selects: the empty text
    /// selects all. A page has at most `page` objects, 1 to 500. It keeps nothing yet: objects that the indexer holds are
    /// dropped without notices, its functions stay. Group, version and plural stand in each request as they are, and
    /// aren't checked: a blank, CR or LF in one makes it another request.
    pub fn new(
        alloc: Global,
        source: Source,
        namespace: Option<String>,
        selector: String,
        page: u32,
        indexer: Indexer<I>,
    ) -> Result<Informer<I>, SettingsFault>
        ensures fresh { IfOk result (λ i. InformerRepresents I.keys i fresh [] []) }
        ensures settings { IfOk result (λ i. settings_in i ≡ settings_from source namespace selector page) }
        ensures indexes { IfOk result (λ i. indexes_in i ≡ indexes_of indexer) }
        ensures names { IfOk result (λ i. names_in i ≡ names_of indexer) }
        ensures lawful { OnOk result (fault_in (settings_from source namespace selector page) ≡ None) }
        ensures fault { IfErr result (λ f. fault_in (settings_from source namespace selector page) ≡ Some f) }
        ensures relist_reason { IfOk result (λ i. relist_reason_in i ≡ None) }
    {
        let settings = Settings {
            wanted: Wanted { source, namespace },
            selector,
            page,
        };
        if let Some(fault) = fault_in(&settings) {
            return Err(fault);
        }
        Ok(Informer {
            settings,
            mirror: Mirror::new(alloc, indexer),
            sync: SyncPhase::First,
            reply: Reply::Over,
            alloc,
        })
    }

    /// The bytes to send next, on a new connection: the request is under way then, and the old connection is dropped. None
    /// while a request is under way. Out of memory, it changes nothing.
    pub fn next_request(&mut self) -> Result<Option<Vec<u8>>, AllocError>
        ensures due { (c : Client) (bytes : List ℕ) (emitted : List ReplyItem) → InformerRepresents I.keys self.old c bytes emitted → IfOk result (λ r. option_map (λ v. v.items) r ≡ due (settings_in self.old) c) }
        ensures asked { (c : Client) (bytes : List ℕ) (emitted : List ReplyItem) → InformerRepresents I.keys self.old c bytes emitted → c.is_awaiting_reply ≡ false → OnOk result (InformerRepresents I.keys self.new (asked c) [] []) }
        ensures waits { (c : Client) (bytes : List ℕ) (emitted : List ReplyItem) → InformerRepresents I.keys self.old c bytes emitted → c.is_awaiting_reply ≡ true → self.new ≡ self.old }
        ensures refused { OnErr result (self.new ≡ self.old) }
        ensures relist_reason { (c : Client) (bytes : List ℕ) (emitted : List ReplyItem) → InformerRepresents I.keys self.old c bytes emitted → c.is_awaiting_reply ≡ false → OnOk result (relist_reason_in self.new ≡ None) }
        ensures settings { settings_in self.new ≡ settings_in self.old }
        ensures indexes { indexes_in self.new ≡ indexes_in self.old }
        ensures names { names_in self.new ≡ names_in self.old }
    {
        if self.reply.is_open() {
            return Ok(None);
        }
        let request = request_of(self.alloc, &self.settings, &self.sync, self.mirror.revision)?;
        self.reply = Reply::Open(ReplyReader::new(self.alloc));
        Ok(Some(request))
    }

    /// Takes the next piece of the reply to the last request, cut anywhere: each item that it completes whole or not at
    /// all. What doesn't fit ends the request (`is_awaiting_reply`), is told by `relist_reason`, and makes the next request a first page;
    /// objects and revision stay. With no request under way it changes nothing. Out of memory, the reply is given up; what
    /// was taken of this piece before, with its notices, counts.
    pub fn feed(&mut self, piece: &[u8]) -> Result<(), AllocError>
        ensures received { (c : Client) (bytes : List ℕ) (emitted : List ReplyItem) → InformerRepresents I.keys self.old c bytes emitted → c.is_awaiting_reply ≡ true
            → OnOk result ((response : List ReplyItem) × Items (bytes ++ piece.now) (emitted ++ response) × InformerRepresents I.keys self.new (receives_all (settings_in self.old).wanted c response) (bytes ++ piece.now) (emitted ++ response)) }
        ensures idle { (c : Client) (bytes : List ℕ) (emitted : List ReplyItem) → InformerRepresents I.keys self.old c bytes emitted → c.is_awaiting_reply ≡ false → (result ≡ Ok tt) × (self.new ≡ self.old) }
        ensures relist_reason { (c : Client) (bytes : List ℕ) (emitted response : List ReplyItem) → InformerRepresents I.keys self.old c bytes emitted → c.is_awaiting_reply ≡ true → Items (bytes ++ piece.now) (emitted ++ response)
            → OnOk result (relist_reason_in self.new ≡ relist_reason_after (settings_in self.old).wanted c None response) }
        ensures memory { OnErr result (relist_reason_in self.new ≡ Some OutOfMemory) }
        ensures given_up { (c : Client) (bytes : List ℕ) (emitted : List ReplyItem) → InformerRepresents I.keys self.old c bytes emitted
            → OnErr result ((received : List ReplyItem) × AreReceived bytes emitted piece.now received × InformerRepresents I.keys self.new (relisting (receives_all (settings_in self.old).wanted c received)) [] []) }
        ensures settings { settings_in self.new ≡ settings_in self.old }
        ensures indexes { indexes_in self.new ≡ indexes_in self.old }
        ensures names { names_in self.new ≡ names_in self.old }
    {
        match self.receive_piece(piece) {
            Ok(()) => Ok(()),
            Err(fault) => {
                self.give_up(RelistReason::OutOfMemory);
                Err(fault)
            }
        }
    }

    /// The connection of the last request has ended or was cut. A list begins again at its first page, a watch goes on
    /// from the revision that it reached. With no request under way it changes nothing.
    pub fn closed(&mut self)
        ensures closed { (c : Client) (bytes : List ℕ) (emitted : List ReplyItem) → InformerRepresents I.keys self.old c bytes emitted → InformerRepresents I.keys self.new (closed c) bytes emitted }
        ensures relist_reason { relist_reason_in self.new ≡ relist_reason_in self.old }
        ensures settings { settings_in self.new ≡ settings_in self.old }
        ensures indexes { indexes_in self.new ≡ indexes_in self.old }
        ensures names { names_in self.new ≡ names_in self.old }
    {
        if let Reply::Open(_) = &self.reply {
            self.reply = Reply::Over;
            if let SyncPhase::Next(_, _, _) = &self.sync {
                self.sync = SyncPhase::First;
            }
        }
    }

    /// Forgets objects, revision and notices, and what is under way, whose connection is dropped; the index functions
    /// stay. No notice tells that objects are gone, so what was built from notices, as a `Summary`, begins anew too. A
    /// server that was started anew asks for this: where its revisions are lower than the kept one, nothing that it
    /// sends tells so, and a watch would wait.
    pub fn restart(&mut self)
        ensures restarted { InformerRepresents I.keys self.new fresh [] [] }
        ensures relist_reason { relist_reason_in self.new ≡ None }
        ensures settings { settings_in self.new ≡ settings_in self.old }
        ensures indexes { indexes_in self.new ≡ indexes_in self.old }
        ensures names { names_in self.new ≡ names_in self.old }
    {
        self.mirror.forget(self.alloc);
        self.sync = SyncPhase::First;
        self.reply = Reply::Over;
    }

    /// Whether a request is under way: pieces of its reply are still awaited.
    pub fn is_awaiting_reply(&self) -> bool
        ensures { (c : Client) (bytes : List ℕ) (emitted : List ReplyItem) → InformerRepresents I.keys self.now c bytes emitted → result ≡ c.is_awaiting_reply }
    {
        self.reply.is_open()
    }

    /// Why the reply to the last request was given up. None while a request is under way, before the first one, and where
    /// the reply fitted or was cut. How long to wait before the next request is the caller's to say.
    pub fn relist_reason(&self) -> Option<RelistReason>
        ensures { result ≡ relist_reason_in self.now }
    {
        self.reply.relist_reason()
    }

    /// The revision of the server whose objects these are; None before the first whole list, and after a restart until
    /// the next. That there is one is what client-go calls `HasSynced`.
    pub fn revision(&self) -> Option<u64>
        ensures { (c : Client) (bytes : List ℕ) (emitted : List ReplyItem) → InformerRepresents I.keys self.now c bytes emitted → result ≡ option_map (λ now. now.revision) c.cache }
    {
        self.mirror.revision
    }

    /// The revision of the list in whose middle it is, between two pages or in one; None where it asks for the first page, and
    /// where it watches.
    pub fn list_revision(&self) -> Option<u64>
        ensures { (c : Client) (bytes : List ℕ) (emitted : List ReplyItem) → InformerRepresents I.keys self.now c bytes emitted → result ≡ list_revision c.sync }
    {
        self.sync.list_revision()
    }

    /// What was added, updated and deleted since the last call, the start or the last restart, in order and each once.
    pub fn take_notices(&mut self) -> Vec<Notice>
        ensures notices { (c : Client) (bytes : List ℕ) (emitted : List ReplyItem) → InformerRepresents I.keys self.old c bytes emitted → map notice_seen result.items ≡ c.notices }
        ensures taken { (c : Client) (bytes : List ℕ) (emitted : List ReplyItem) → InformerRepresents I.keys self.old c bytes emitted → InformerRepresents I.keys self.new (taken c) bytes emitted }
        ensures relist_reason { relist_reason_in self.new ≡ relist_reason_in self.old }
        ensures settings { settings_in self.new ≡ settings_in self.old }
        ensures indexes { indexes_in self.new ≡ indexes_in self.old }
        ensures names { names_in self.new ≡ names_in self.old }
    {
        mem::replace(&mut self.mirror.notices, Vec::new(self.alloc))
    }

    /// The objects, and their indexes.
    pub fn indexer(&self) -> &Indexer<I>
        ensures objects { (c : Client) (bytes : List ℕ) (emitted : List ReplyItem) → InformerRepresents I.keys self.now c bytes emitted → indexed_objects_of result.now ≡ keyed (keys_in I.keys (indexes_of result.now)) (kept c.cache) }
        ensures indexes { indexes_of result.now ≡ indexes_in self.now }
        ensures names { names_of result.now ≡ names_in self.now }
    {
        &self.mirror.indexer
    }
}
