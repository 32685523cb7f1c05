//! The cursor of a watch: its selection and its position, and the calls on it. What a pump sends stands in `sending`.

ghost use Rattle.std.specs.Prelude.{◌≡◌, false, IfOk, IfSome, IsTrue, None, Ok, OnErr, Some, is_some, nat_lt, option_map, string_bytes};
ghost use Rattle.answers.specs.Views.{watch_from};
ghost use Rattle.watchline.specs.Opening.{first_cursor, left_of, sent_of};
ghost use Rattle.watchline.specs.Watches.{bookmarked, from_view, is_bookmark_due, is_none_left, moved, pumped, with_bookmarks};
ghost use Rattle.watchline.specs.Views.{initial_left_of, bookmark_turn, turn_of};

use crate::lines::bookmark_line;
use crate::sending::{expired, next_turn};
use answers::{InitialEvents, WatchFrom};
use json_values::copied;
use lists::{Collection, LabelCache, Start};
use revstore::Store;
use revtable::Fault;
use selector::Selector;
use std::alloc::{AllocError, Global};
use std::marker::Model;

/// What a watch is of, and whether it sends bookmarks.
#[derive(Debug, Drop)]
pub(crate) struct WatchScope {
    pub(crate) kind: u32,
    pub(crate) namespace: Option<String>,
    pub(crate) selector: Selector,
    pub(crate) bookmarks: bool,
}

impl WatchScope {
    pub(crate) fn namespace(&self) -> Option<&str>
        ensures { option_map (λ s. s.now) result ≡ option_map string_bytes self.now.namespace }
    {
        match &self.namespace {
            Some(namespace) => Some(namespace.as_str()),
            None => None,
        }
    }

    /// Its objects; they are looked up by number of type and namespace, and the names of the type aren't shown.
    pub(crate) fn collection(&self) -> Collection<'_>
        ensures kind { result.kind ≡ self.now.kind }
        ensures namespace { option_map (λ s. s.now) result.namespace ≡ option_map string_bytes self.now.namespace }
    {
        Collection {
            kind: self.kind,
            namespace: self.namespace(),
            api_version: "",
            item_kind: "",
        }
    }

    fn is_of_namespace(&self, other: Option<&str>) -> bool
        ensures { IsTrue result → option_map string_bytes self.now.namespace ≡ option_map (λ s. s.now) other.entry }
    {
        match (self.namespace(), other) {
            (Some(namespace), Some(other)) => namespace == other,
            (None, None) => true,
            (Some(_), None) | (None, Some(_)) => false,
        }
    }

    /// Whether both select the same objects: those of one type and namespace that meet the same requirements.
    fn is_alike(&self, other: &WatchScope) -> bool
        ensures kind { IsTrue result → self.now.kind ≡ other.now.kind }
        ensures namespace { IsTrue result → option_map string_bytes self.now.namespace ≡ option_map string_bytes other.now.namespace }
        ensures selector { IsTrue result → self.now.selector ≡ other.now.selector }
    {
        self.kind == other.kind
            && self.selector.is_same(&other.selector)
            && self.is_of_namespace(other.namespace())
    }
}

/// What was sent.
#[derive(Debug, Drop)]
pub(crate) struct Progress {
    /// Each change up to this revision was sent, or isn't seen.
    pub(crate) position: u64,
    /// The last revision that the client was sent; 0 before there is one.
    pub(crate) sent: u64,
    /// Where the objects begin that stood when the watch was opened and are still to be sent.
    pub(crate) left: Option<Start>,
}

impl Progress {
    /// Whether both stand at the same place, with no object left to be sent.
    fn is_alike(&self, other: &Progress) -> bool
        ensures position { IsTrue result → self.now.position ≡ other.now.position }
        ensures sent { IsTrue result → self.now.sent ≡ other.now.sent }
        ensures left { IsTrue result → initial_left_of self.now.left ≡ initial_left_of other.now.left }
    {
        self.position == other.position
            && self.sent == other.sent
            && self.left.is_none()
            && other.left.is_none()
    }
}

/// Up to where a watch has sent.
#[derive(Clone, Copy, Debug, PartialEq, Eq)]
pub struct ResumePoint {
    /// Each change up to this revision was sent, or isn't seen.
    pub position: u64,
    /// The last revision that the client was sent; 0 before there is one.
    pub sent: u64,
}

/// The lines of a pump, and whether the watch has ended by them.
#[derive(Debug, Drop)]
pub struct Pumped {
    /// The lines, each with its line feed.
    pub lines: Vec<String>,
    /// Whether the watch has ended with them.
    pub ended: bool,
}

/// Where a watch stands.
#[derive(Debug, Drop)]
pub struct WatchCursor {
    scope: WatchScope,
    progress: Progress,
}

impl Model for WatchCursor {
    ghost use Rattle.watchline.specs.Watches.{Cursor};
    ghost use Rattle.watchline.specs.Views.{cursor_of};

    ghost Value = { Cursor };

    ghost view = { λ c. cursor_of c.scope c.progress };
}

/// The revision that a client was sent before its watch has sent anything: all up to the version that it names.
fn sent_of(initial: InitialEvents, position: u64) -> u64
    ensures { result ≡ sent_of initial position }
{
    match initial {
        InitialEvents::Changes => position,
        InitialEvents::Objects | InitialEvents::NoneSelected => 0,
    }
}

fn left_of(initial: InitialEvents) -> Option<Start>
    ensures { initial_left_of result ≡ left_of initial }
{
    match initial {
        InitialEvents::Objects => Some(Start::First),
        InitialEvents::Changes | InitialEvents::NoneSelected => None,
    }
}

impl WatchCursor {
    /// The cursor of a watch that has sent nothing yet. Its time is not its own: who pumps it ends it.
    pub fn new(from: WatchFrom) -> WatchCursor
        ensures { result ≡ first_cursor (watch_from from) }
    {
        let progress = Progress {
            position: from.position,
            sent: sent_of(from.initial, from.position),
            left: left_of(from.initial),
        };
        let scope = WatchScope {
            kind: from.kind,
            namespace: from.namespace,
            selector: from.selector,
            bookmarks: from.bookmarks,
        };
        WatchCursor { scope, progress }
    }

    /// The number of the type that it is of.
    pub fn kind(&self) -> u32
        ensures { result ≡ self.now.kind }
    {
        self.scope.kind
    }

    /// Whether it stands before a revision, so that changes up to there may be left to be sent.
    pub fn is_before(&self, revision: u64) -> bool
        ensures { result ≡ nat_lt self.now.position revision }
    {
        self.progress.position < revision
    }

    /// Whether a bookmark is due: the watch sends bookmarks, it stands past what the client was sent, and no object is
    /// left to be sent.
    pub fn is_bookmark_due(&self) -> bool
        ensures { result ≡ is_bookmark_due self.now }
    {
        let progress = &self.progress;
        self.scope.bookmarks && progress.left.is_none() && progress.sent < progress.position
    }

    /// Up to where it has sent; none while an object is left to be sent.
    pub fn resume_point(&self) -> Option<ResumePoint>
        ensures sent { IfSome result (λ r. (r.position ≡ self.now.position) × (r.sent ≡ self.now.sent)) }
        ensures some { is_some result ≡ is_none_left self.now.left }
    {
        let progress = &self.progress;
        if progress.left.is_some() {
            return None;
        }
        Some(ResumePoint {
            position: progress.position,
            sent: progress.sent,
        })
    }

    /// It has sent up to here.
    pub fn move_to(&mut self, resume_point: ResumePoint)
        ensures { self.new ≡ moved self.old resume_point.position resume_point.sent self.old.left }
    {
        self.progress.position = resume_point.position;
        self.progress.sent = resume_point.sent;
    }

    /// A copy, where no object is left to be sent; none of any other.
    pub fn copied(&self, alloc: Global) -> Result<Option<WatchCursor>, AllocError>
        ensures copied { IfOk result (λ o. IfSome o (λ c. c ≡ self.now)) }
        ensures some { IfOk result (λ o. is_some o ≡ is_none_left self.now.left) }
    {
        if self.progress.left.is_some() {
            return Ok(None);
        }
        let scope = WatchScope {
            kind: self.scope.kind,
            namespace: copied(alloc, self.scope.namespace())?,
            selector: self.scope.selector.try_copy(alloc)?,
            bookmarks: self.scope.bookmarks,
        };
        let progress = Progress {
            position: self.progress.position,
            sent: self.progress.sent,
            left: None,
        };
        Ok(Some(WatchCursor { scope, progress }))
    }

    /// Whether another sends the same at its next turn: both select the same, of one type and namespace, and have sent
    /// the same. One that has objects left to send is like none.
    pub fn is_alike(&self, other: &WatchCursor) -> bool
        ensures { IsTrue result → self.now ≡ with_bookmarks other.now self.now.bookmarks }
    {
        self.progress.is_alike(&other.progress) && self.scope.is_alike(&other.scope)
    }

    /// The next lines, at most `max`: of objects that are left, each as added, then of changes that are seen after
    /// the position. Where changes after it were forgotten, the one line says so and the watch has ended. Watches that are
    /// pumped with the same recent labels read a text once for its labels.
    pub fn pump(
        &mut self,
        labels: &mut LabelCache,
        store: &mut Store,
        max: usize,
    ) -> Result<Pumped, Fault>
        ensures pumped { IfOk result (λ p. turn_of p self.new ≡ pumped (from_view store.old) max self.old) }
        ensures err { OnErr result (self.new ≡ self.old) }
        ensures same { store.new ≡ store.old }
    {
        let position = self.progress.position;
        let compacted = store.compacted();
        if position < compacted {
            return Ok(expired(labels.allocator(), position, compacted)?);
        }
        let (pumped, progress) = next_turn(labels, store, &self.scope, &self.progress, max)?;
        self.progress = progress;
        Ok(pumped)
    }

    /// The line of a bookmark, where one is due: it sends the position. Where none is due it can't fail.
    pub fn bookmark(
        &mut self,
        alloc: Global,
        api_version: &str,
        kind: &str,
    ) -> Result<Option<String>, Fault>
        ensures bookmarked { IfOk result (λ o. bookmark_turn o self.new ≡ bookmarked api_version.now kind.now self.old) }
        ensures needs { is_bookmark_due self.old ≡ false → result ≡ Ok None }
        ensures stays { is_bookmark_due self.old ≡ false → self.new ≡ self.old }
        ensures err { OnErr result (self.new ≡ self.old) }
    {
        if !self.is_bookmark_due() {
            return Ok(None);
        }
        let line = bookmark_line(alloc, api_version, kind, self.progress.position)?;
        self.progress.sent = self.progress.position;
        Ok(Some(line))
    }
}
