//! The latest changes, and what stood before each. A store keeps them in front of its table, so that many who ask for one change
//! ask no statement each, and so that several changes are written together. What stands now is found by `cached`.

ghost use Rattle.std.specs.Prelude.{◌≡◌, ◌++◌, ◌∷◌, [], ℕ, suc, ◌-◌, IfOk, IfSome, IsTrue, OnOk, OnErr, drop, is_some, length, map, option_map};
ghost use Rattle.std.specs.FinMap as fin;
ghost use Rattle.std.specs.List.{list_any};
ghost use Rattle.std.specs.Rc.{rc_str_bytes};
ghost use Rattle.history.specs.History.{History, IsRising, later, left_by, state_at, written};
ghost use Rattle.history.specs.Kept.{pruned};
ghost use Rattle.history.specs.Page.{changes_within, is_within};
ghost use Rattle.history.specs.Read.{change_of, key_of, object_of, write_of};
ghost use Rattle.revstore.specs.ChangeWindow.{AreLatest, IsBeforeNext, change_in, changes_in};
ghost use Rattle.revstore.specs.Shared.{object_in};
ghost use Rattle.revstore.specs.Waiting.{is_key, waiting_in, waiting_of, write_in};

use crate::copies::{bytes_of_key, copy_of_key, copy_of_object, copy_of_text, is_same_key};
use crate::shared::{SharedObject, same_object};
use history::{Change, Key, Object, Write};
use revtable::Fault;
use std::alloc::{AllocError, Global};
use std::rc::{Rc, RcStr};

/// Of so many changes the oldest are forgotten: watchers ask for a change soon after it is written.
const MOST_CHANGES: usize = 256;

/// So many bytes of texts are too many, in all changes together: 1 MiB.
const MOST_BYTES: usize = 1048576;

/// So many changes wait at most.
const MOST_WAITING: usize = 64;

/// So many bytes of texts wait at most, but for those of the last change: 256 KiB.
const MOST_WAITING_BYTES: usize = 262144;

/// A change. Its key and its texts are shared with what is held of the key, and with the next change of the key.
#[derive(Drop)]
pub(crate) struct Latest {
    pub(crate) revision: u64,
    pub(crate) key: Rc<Key>,
    /// None, if it is a deletion.
    pub(crate) body: Option<RcStr>,
    /// What stood under its key just before it, where that is known yet.
    pub(crate) before: Option<Option<SharedObject>>,
}

/// All changes after a revision, oldest first. The last of them wait to be written.
#[derive(Drop)]
pub(crate) struct ChangeWindow {
    alloc: Global,
    from: u64,
    latest: Vec<Latest>,
    /// So many of them are in the table: the first ones.
    written: usize,
    /// How many bytes the texts of all have, each counted wherever it is shared.
    bytes: usize,
    /// How many those have that wait.
    waiting_bytes: usize,
}

// ---- changes and sizes

fn bytes_of_object(object: &Option<SharedObject>) -> usize {
    match object {
        Some(object) => object.body.len(),
        None => 0,
    }
}

/// How many bytes the texts of a change have.
fn bytes_of_change(latest: &Latest) -> usize {
    let names = bytes_of_key(&latest.key);
    match &latest.body {
        Some(body) => names.saturating_add(body.len()),
        None => names,
    }
}

fn bytes_of_latest(latest: &Latest) -> usize {
    let before = match &latest.before {
        Some(before) => bytes_of_object(before),
        None => 0,
    };
    bytes_of_change(latest).saturating_add(before)
}

fn bytes_of(all: &[Latest]) -> usize {
    let mut bytes: usize = 0;
    for latest in all {
        bytes = bytes.saturating_add(bytes_of_latest(latest));
    }
    bytes
}

/// A copy of a change.
fn change_by(alloc: Global, latest: &Latest) -> Result<Change, AllocError>
    ensures { IfOk result (λ c. change_of c ≡ change_in latest.now) }
{
    Ok(Change {
        revision: latest.revision,
        key: copy_of_key(&latest.key)?,
        body: copy_of_text(alloc, &latest.body)?,
    })
}

/// A copy of the write that made a change.
fn write_by(alloc: Global, latest: &Latest) -> Result<Write, AllocError>
    ensures { IfOk result (λ w. write_of w ≡ write_in latest.now) }
{
    Ok(Write {
        key: copy_of_key(&latest.key)?,
        body: copy_of_text(alloc, &latest.body)?,
    })
}

/// Copies of the writes that made these changes.
fn writes_by(alloc: Global, all: &[Latest]) -> Result<Vec<Write>, AllocError>
    ensures { IfOk result (λ v. map write_of v.items ≡ map write_in all.now) }
{
    let mut writes = Vec::with_capacity(alloc, all.len())?;
    for latest in all {
        writes.push(write_by(alloc, latest)?)?;
    }
    Ok(writes)
}

// ---- what is asked

fn is_of_kind(key: &Key, kind: u32, namespace: Option<&str>) -> bool
    ensures { result ≡ is_within kind (option_map (λ b. b.now) namespace.entry) (key_of key.now) }
{
    if key.kind != kind {
        return false;
    }
    match namespace {
        Some(namespace) => key.namespace.as_str() == namespace,
        None => true,
    }
}

/// The first `max` changes of a type after a revision, of one namespace or of all.
fn found_among(
    alloc: Global,
    all: &[Latest],
    kind: u32,
    namespace: Option<&str>,
    after: u64,
    max: u64,
) -> Result<Vec<Change>, AllocError>
    ensures { IfOk result (λ v. map change_of v.items ≡ changes_within kind (option_map (λ b. b.now) namespace.entry) max (later after (changes_in all.now))) }
{
    let mut found = Vec::new(alloc);
    for latest in all {
        if found.len() as u64 >= max {
            return Ok(found);
        }
        if latest.revision > after && is_of_kind(&latest.key, kind, namespace) {
            found.push(change_by(alloc, latest)?)?;
        }
    }
    Ok(found)
}

/// Those that can be after a revision. No other is looked at where the revisions rise one by one.
fn from_after(all: &[Latest], from: u64, after: u64) -> &[Latest]
    ensures { (top : ℕ) → IsRising from (changes_in all.now) top → later after (changes_in result.now) ≡ later after (changes_in all.now) }
{
    let skipped = after.saturating_sub(from) as usize;
    if skipped == 0 {
        return all;
    }
    match all.get(skipped - 1) {
        Some(last) => {
            if last.revision <= after {
                &all[skipped..]
            } else {
                all
            }
        }
        None => all,
    }
}

/// Whether one of these changes is of this key.
fn has_key(all: &[Latest], key: &Key) -> bool
    ensures { result ≡ list_any (λ w. is_key (key_of key.now) (write_in w).0) all.now }
{
    all.iter().any(|latest| is_same_key(key, &latest.key))
}

/// All but the first so many.
fn past(all: &[Latest], count: usize) -> &[Latest]
    ensures { result.now ≡ drop count all.now }
{
    let at = count.min(all.len());
    &all[at..]
}

impl Latest {
    /// What it left under its key.
    pub(crate) fn left(&self) -> Result<Option<SharedObject>, AllocError>
        ensures { IfOk result (λ o. option_map object_in o ≡ left_by (change_in self.now)) }
    {
        match &self.body {
            Some(body) => Ok(Some(SharedObject {
                revision: self.revision,
                body: body.clone()?,
            })),
            None => Ok(None),
        }
    }

    /// Whether the change is of this key and revision.
    fn is_of(&self, key: &Key, revision: u64) -> bool
        ensures { IsTrue result → (self.now.revision ≡ revision) × (key_of self.now.key.value ≡ key_of key.now) }
    {
        self.revision == revision && is_same_key(&self.key, key)
    }
}

impl ChangeWindow {
    /// No change of a history that stands at this revision.
    fn new(alloc: Global, from: u64) -> ChangeWindow
        ensures latest { (h : History) → IsRising 0 h.changes h.current → from ≡ h.current → AreLatest h result }
        ensures none { waiting_of result ≡ [] }
    {
        ChangeWindow {
            alloc,
            from,
            latest: Vec::new(alloc),
            written: 0,
            bytes: 0,
            waiting_bytes: 0,
        }
    }

    /// Where the change of a revision is, if it is there: the revisions rise one by one.
    fn place_of(&self, revision: u64) -> usize {
        revision.saturating_sub(self.from).saturating_sub(1) as usize
    }

    /// Those that wait.
    pub(crate) fn waiting(&self) -> &[Latest]
        ensures { result.now ≡ drop self.now.written self.now.latest.items }
    {
        past(&self.latest, self.written)
    }

    /// Whether no more may wait.
    fn is_full(&self) -> bool {
        self.waiting().len() >= MOST_WAITING || self.waiting_bytes >= MOST_WAITING_BYTES
    }

    /// None waits any longer: all are in the table.
    pub(crate) fn settle(&mut self)
        ensures latest { (h : History) → AreLatest h self.old → AreLatest h self.new }
        ensures none { waiting_of self.new ≡ [] }
    {
        self.written = self.latest.len();
        self.waiting_bytes = 0;
    }

    /// Adds the next change, which waits.
    fn push(&mut self, change: Latest) -> Result<(), AllocError>
        ensures ok { (h : History) → IsRising 0 h.changes h.current → change.revision ≡ suc h.current → AreLatest h self.old → IsBeforeNext h change
            → OnOk result (AreLatest (written h (key_of change.key.value) (option_map rc_str_bytes change.body)) self.new × (waiting_of self.new ≡ waiting_of self.old ++ write_in change ∷ [])) }
        ensures err { (h : History) → AreLatest h self.old → OnErr result (AreLatest h self.new × (waiting_of self.new ≡ waiting_of self.old)) }
    {
        let bytes = bytes_of_latest(&change);
        let waiting_bytes = bytes_of_change(&change);
        self.latest.push(change)?;
        self.bytes = self.bytes.saturating_add(bytes);
        self.waiting_bytes = self.waiting_bytes.saturating_add(waiting_bytes);
        Ok(())
    }

    /// Forgets the oldest so many changes of those that are in the table, or all of these.
    fn forget(&mut self, count: usize)
        ensures latest { (h : History) → IsRising 0 h.changes h.current → AreLatest h self.old → AreLatest h self.new }
        ensures waiting { waiting_of self.new ≡ waiting_of self.old }
    {
        let count = count.min(self.written);
        if count == 0 {
            return;
        }
        let Some(last) = self.latest.get(count - 1) else {
            return;
        };
        self.from = last.revision;
        let left = self.latest.len() - count;
        self.latest.rotate_left(count);
        self.latest.truncate(left);
        self.written -= count;
        self.bytes = bytes_of(&self.latest);
    }

    fn is_over(&self) -> bool {
        self.latest.len() >= MOST_CHANGES || self.bytes >= MOST_BYTES
    }

    fn forget_if_over(&mut self, count: usize)
        ensures latest { (h : History) → IsRising 0 h.changes h.current → AreLatest h self.old → AreLatest h self.new }
        ensures waiting { waiting_of self.new ≡ waiting_of self.old }
    {
        if self.is_over() {
            self.forget(count);
        }
    }

    /// Where there are too many changes, or their texts are too long, forgets the older half of those that are in the table, and all
    /// of these if that is not enough.
    fn make_room(&mut self)
        ensures latest { (h : History) → IsRising 0 h.changes h.current → AreLatest h self.old → AreLatest h self.new }
        ensures waiting { waiting_of self.new ≡ waiting_of self.old }
    {
        self.forget_if_over(self.written - self.written / 2);
        self.forget_if_over(self.written);
    }

    /// The first `max` changes of a type after a revision, where all after it are cached.
    fn changes(
        &self,
        kind: u32,
        namespace: Option<&str>,
        after: u64,
        max: u64,
    ) -> Result<Option<Vec<Change>>, AllocError>
        ensures { (h : History) → IsRising 0 h.changes h.current → AreLatest h self.now → IfOk result (λ o. IfSome o (λ v. map change_of v.items
            ≡ changes_within kind (option_map (λ b. b.now) namespace.entry) max (later after h.changes))) }
    {
        if after < self.from {
            return Ok(None);
        }
        let later = from_after(&self.latest, self.from, after);
        let found = found_among(self.alloc, later, kind, namespace, after, max)?;
        Ok(Some(found))
    }

    /// What stood under a key just before a revision, where the change of that revision is one of the key's and it is known.
    fn before(&self, key: &Key, revision: u64) -> Result<Option<Option<Object>>, AllocError>
        ensures { (h : History) → AreLatest h self.now
            → IfOk result (λ known. IfSome known (λ o. option_map object_of o ≡ fin.get (state_at h.changes (revision - 1)) (key_of key.now))) }
    {
        let Some(latest) = self.latest.get(self.place_of(revision)) else {
            return Ok(None);
        };
        if !latest.is_of(key, revision) {
            return Ok(None);
        }
        match &latest.before {
            Some(before) => Ok(Some(copy_of_object(self.alloc, before)?)),
            None => Ok(None),
        }
    }

    /// Whether an object stood under a key just before a revision, where the change of that revision is one of the key's and it is
    /// known.
    fn stood(&self, key: &Key, revision: u64) -> Option<bool>
        ensures { (h : History) → AreLatest h self.now
            → IfSome result (λ b. b ≡ is_some (fin.get (state_at h.changes (revision - 1)) (key_of key.now))) }
    {
        let latest = self.latest.get(self.place_of(revision))?;
        if !latest.is_of(key, revision) {
            return None;
        }
        match &latest.before {
            Some(before) => Some(before.is_some()),
            None => None,
        }
    }

    /// Puts aside what stood under a key just before a revision, where the change of that revision is one of the key's and
    /// there is room.
    fn remember(&mut self, key: &Key, revision: u64, before: Option<SharedObject>)
        ensures latest { (h : History) → AreLatest h self.old → option_map object_in before ≡ fin.get (state_at h.changes (revision - 1)) (key_of key.now)
            → AreLatest h self.new }
        ensures waiting { waiting_of self.new ≡ waiting_of self.old }
    {
        let at = self.place_of(revision);
        let Some(latest) = self.latest.get(at) else {
            return;
        };
        let bytes = self.bytes.saturating_add(bytes_of_object(&before));
        if bytes > MOST_BYTES || !latest.is_of(key, revision) {
            return;
        }
        self.bytes = bytes;
        self.latest[at].before = Some(before);
    }
}

// ---- of a store, which has a window or none yet

/// Adds the next change, which waits. Old changes are forgotten where there are too many.
pub(crate) fn push_change(
    window: &mut Option<ChangeWindow>,
    change: Latest,
) -> Result<(), AllocError>
    ensures ok { (h : History) → IsRising 0 h.changes h.current → change.revision ≡ suc h.current → IfSome window.old (AreLatest h) → IsBeforeNext h change
        → OnOk result (IfSome window.new (AreLatest (written h (key_of change.key.value) (option_map rc_str_bytes change.body))) × (waiting_in window.new ≡ waiting_in window.old ++ write_in change ∷ [])) }
    ensures err { (h : History) → IsRising 0 h.changes h.current → IfSome window.old (AreLatest h)
        → OnErr result (IfSome window.new (AreLatest h) × (waiting_in window.new ≡ waiting_in window.old)) }
{
    match window {
        Some(all) => {
            all.make_room();
            all.push(change)?;
        }
        None => {
            let mut all = ChangeWindow::new(
                *change.key.namespace.allocator(),
                change.revision.saturating_sub(1),
            );
            all.push(change)?;
            *window = Some(all);
        }
    }
    Ok(())
}

/// Whether no more may wait.
pub(crate) fn is_full(window: &Option<ChangeWindow>) -> bool {
    match window {
        Some(all) => all.is_full(),
        None => false,
    }
}

/// How many wait.
pub(crate) fn count(window: &Option<ChangeWindow>) -> u64
    ensures { result ≡ length (waiting_in window.now) }
{
    match window {
        Some(all) => all.waiting().len() as u64,
        None => 0,
    }
}

/// Copies of the writes of those that wait.
pub(crate) fn waiting_writes(all: &ChangeWindow) -> Result<Vec<Write>, AllocError>
    ensures { IfOk result (λ v. map write_of v.items ≡ waiting_of all.now) }
{
    writes_by(all.alloc, all.waiting())
}

/// The latest changes of the same history once it is compacted at a revision: those after it, where they are known and none of
/// them waits.
pub(crate) fn once_compacted(window: Option<ChangeWindow>, revision: u64) -> Option<ChangeWindow>
    ensures latest { (h : History) → IsRising 0 h.changes h.current → IfSome window (AreLatest h) → IfSome result (AreLatest (pruned revision h)) }
    ensures none { waiting_in window ≡ [] → waiting_in result ≡ [] }
{
    let Some(mut window) = window else {
        return None;
    };
    let gone = revision.saturating_sub(window.from) as usize;
    window.forget(gone);
    if window.from < revision {
        None
    } else {
        Some(window)
    }
}

/// The first `max` changes of a type after a revision, where all after it are there.
pub(crate) fn known_changes(
    window: &Option<ChangeWindow>,
    kind: u32,
    namespace: Option<&str>,
    after: u64,
    max: u64,
) -> Result<Option<Vec<Change>>, Fault>
    ensures { (h : History) → IsRising 0 h.changes h.current → IfSome window.now (AreLatest h) → IfOk result (λ o. IfSome o (λ v. map change_of v.items
        ≡ changes_within kind (option_map (λ b. b.now) namespace.entry) max (later after h.changes))) }
{
    match window {
        Some(window) => Ok(window.changes(kind, namespace, after, max)?),
        None => Ok(None),
    }
}

/// Whether a change of this key waits.
pub(crate) fn is_waiting(window: &Option<ChangeWindow>, key: &Key) -> bool
    ensures { result ≡ list_any (λ w. is_key (key_of key.now) w.0) (waiting_in window.now) }
{
    match window {
        Some(all) => has_key(all.waiting(), key),
        None => false,
    }
}

/// What stood under a key just before a revision, where that is known.
pub(crate) fn known_before(
    window: &Option<ChangeWindow>,
    key: &Key,
    revision: u64,
) -> Result<Option<Option<Object>>, Fault>
    ensures { (h : History) → IfSome window.now (AreLatest h)
        → IfOk result (λ known. IfSome known (λ o. option_map object_of o ≡ fin.get (state_at h.changes (revision - 1)) (key_of key.now))) }
{
    match window {
        Some(window) => Ok(window.before(key, revision)?),
        None => Ok(None),
    }
}

/// Whether an object stood under a key just before a revision, where that is known.
pub(crate) fn known_to_stand(
    window: &Option<ChangeWindow>,
    key: &Key,
    revision: u64,
) -> Option<bool>
    ensures { (h : History) → IfSome window.now (AreLatest h)
        → IfSome result (λ b. b ≡ is_some (fin.get (state_at h.changes (revision - 1)) (key_of key.now))) }
{
    match window {
        Some(window) => window.stood(key, revision),
        None => None,
    }
}

/// Puts aside what stood under a key just before a revision, where there is a place for it.
pub(crate) fn remember_before(
    window: &mut Option<ChangeWindow>,
    key: &Key,
    revision: u64,
    before: Option<SharedObject>,
)
    ensures latest { (h : History) → IfSome window.old (AreLatest h) → option_map object_in before ≡ fin.get (state_at h.changes (revision - 1)) (key_of key.now)
        → IfSome window.new (AreLatest h) }
    ensures waiting { waiting_in window.new ≡ waiting_in window.old }
{
    if let Some(window) = window {
        window.remember(key, revision, before);
    }
}
