//! What all connections share: the API, and the last turn in which a watch sent lines. How a turn changes a watch
//! stands in `watching`.

ghost use Rattle.std.specs.Prelude.{◌≡◌, ◌↔◌, ◌<◌, ◌++◌, List, Err, Ok, IfErr, IfOk, IfSome, IsTrue, OnErr, OnOk};
ghost use Rattle.api_types.specs.TypesFile.{ServedShape};
ghost use Rattle.history.specs.History.{History, compacted_to};
ghost use Rattle.serde_json.specs.View as value;
ghost use Rattle.verbs.specs.Retyping.{retyped, retyping};
ghost use Rattle.verbs.specs.Views.{IsFileFault, ApiRepresents, retype_refusal, reported_of_file};
ghost use Rattle.watchline.specs.Watches.{from_history, moved, pumped, with_bookmarks};
ghost use Rattle.httpedge.specs.ConnectionViews.{Pumps, left};
ghost use Rattle.httpedge.specs.SharedViews.{TurnSpan, IsTurnFrom, SharedRepresents};

use crate::effect::Change;
use crate::out::Out;
use requests::chunks;
use revstore::CompactFault;
use serde_json::Value;
use std::alloc::Global;
use verbs::{Api, Fault, RetypeFault};
use watchline::{ResumePoint, WatchCursor};

/// The bytes of a turn are kept up to so many: 1 MiB.
const MOST_BYTES: usize = 1048576;

/// A turn at a pump: where a watch stood and how many lines it could send, then what it wrote, what that did, and up to
/// where it had sent.
#[derive(Drop)]
pub(crate) struct CachedTurn {
    before: WatchCursor,
    max: usize,
    bytes: Vec<u8>,
    change: Change,
    resume_point: ResumePoint,
}

impl CachedTurn {
    /// Whether a watch that stands so and may send so many lines has the same turn.
    fn is_of(&self, cursor: &WatchCursor, max: usize) -> bool
        ensures max { IsTrue result → max ≡ self.now.max }
        ensures alike { IsTrue result → cursor.now ≡ with_bookmarks self.now.before cursor.now.bookmarks }
    {
        self.max == max && cursor.is_alike(&self.before)
    }
}

/// How a watch stood before it sent these bytes, and up to where it has sent; none where the turn isn't kept: it sent
/// nothing or too much, an object was left to be sent, or there is no memory for a copy.
fn span_to_cache(
    alloc: Global,
    bytes: &[u8],
    before: Option<ResumePoint>,
    cursor: &WatchCursor,
) -> Option<(WatchCursor, ResumePoint)>
    ensures { IfSome result (λ p. TurnSpan before cursor.now p.0 p.1) }
{
    if bytes.is_empty() || bytes.len() > MOST_BYTES {
        return None;
    }
    let start = before?;
    let resume_point = cursor.resume_point()?;
    let Ok(copied) = cursor.copied(alloc) else {
        return None;
    };
    let mut copy = copied?;
    copy.move_to(start);
    Some((copy, resume_point))
}

/// The API, and the last turn of a watch while what it was sent from stands. A change of a connection that may write, a
/// compaction and other types drop it.
#[derive(Drop)]
pub(crate) struct Shared {
    pub(crate) api: Api,
    pub(crate) last: Option<CachedTurn>,
}

impl Shared {
    pub(crate) fn new(api: Api) -> Shared
        ensures { (types : List ServedShape) (m : History) → ApiRepresents api types m → SharedRepresents result types m }
    {
        Shared { api, last: None }
    }

    /// The next lines of a watch are written, at most `max`; what that did. One that stands as the last one did writes
    /// what that wrote. Out of memory nothing is written.
    pub(crate) fn pump(
        &mut self,
        alloc: Global,
        cursor: &mut WatchCursor,
        out: &mut Out,
        max: usize,
    ) -> Result<Change, Fault>
        ensures ok { (types : List ServedShape) (m : History) → SharedRepresents self.old types m
            → IfOk result (λ change. Pumps (pumped (from_history m) max cursor.old) change cursor.new (left out.old) (left out.new)) }
        ensures err { OnErr result (left out.new ≡ left out.old) }
        ensures serves { (types : List ServedShape) (m : History) → SharedRepresents self.old types m → SharedRepresents self.new types m }
    {
        if let Some(last) = &self.last {
            if last.is_of(cursor, max) {
                out.add(&last.bytes)?;
                cursor.move_to(last.resume_point);
                return Ok(last.change);
            }
        }
        self.pump_anew(alloc, cursor, out, max)
    }

    fn pump_anew(
        &mut self,
        alloc: Global,
        cursor: &mut WatchCursor,
        out: &mut Out,
        max: usize,
    ) -> Result<Change, Fault>
        ensures ok { (types : List ServedShape) (m : History) → SharedRepresents self.old types m
            → IfOk result (λ change. Pumps (pumped (from_history m) max cursor.old) change cursor.new (left out.old) (left out.new)) }
        ensures err { OnErr result (left out.new ≡ left out.old) }
        ensures serves { (types : List ServedShape) (m : History) → SharedRepresents self.old types m → SharedRepresents self.new types m }
    {
        let before = cursor.resume_point();
        let pumped = self.api.pump(cursor, max)?;
        let bytes = chunks(alloc, &pumped.lines, pumped.ended)?;
        out.add(&bytes)?;
        let change = Change {
            bytes: bytes.len(),
            lines: pumped.lines.len(),
            status: None,
            has_ended: pumped.ended,
        };
        if let Some((before, resume_point)) = span_to_cache(alloc, &bytes, before, cursor) {
            self.keep(CachedTurn {
                before,
                max,
                bytes,
                change,
                resume_point,
            });
        }
        Ok(change)
    }

    /// A turn is the last one now.
    fn keep(&mut self, turn: CachedTurn)
        ensures { (types : List ServedShape) (m : History) → SharedRepresents self.old types m → IsTurnFrom m turn → SharedRepresents self.new types m }
    {
        self.last = Some(turn);
    }

    /// As the API's call, after which no turn is the last one.
    pub(crate) fn compact(&mut self, revision: u64) -> Result<(), CompactFault>
        ensures ok { (types : List ServedShape) (m : History) → SharedRepresents self.old types m → OnOk result (SharedRepresents self.new types (compacted_to revision m)) }
        ensures expired { (types : List ServedShape) (m : History) → SharedRepresents self.old types m → (result ≡ Err CompactFault.Expired) ↔ (revision < m.compacted) }
        ensures too_large { (types : List ServedShape) (m : History) → SharedRepresents self.old types m → (result ≡ Err CompactFault.TooLarge) ↔ (m.current < revision) }
        ensures err { (types : List ServedShape) (m : History) → SharedRepresents self.old types m → OnErr result (SharedRepresents self.new types m) }
        ensures unchanged { OnErr result (self.new ≡ self.old) }
    {
        match self.api.compact(revision) {
            Ok(()) => {
                self.last = None;
                Ok(())
            }
            Err(fault) => Err(fault),
        }
    }

    /// As the API's call, after which no turn is the last one.
    pub(crate) fn retype(&mut self, file: &Value) -> Result<(), RetypeFault>
        ensures ok { (types : List ServedShape) (m : History) → SharedRepresents self.old types m
            → OnOk result ((others : List ServedShape) × (retyping types m (value.view file.now) ≡ Ok others) × SharedRepresents self.new others (retyped types others m)) }
        ensures refused { (types : List ServedShape) (m : History) → SharedRepresents self.old types m
            → IfErr result (λ e. IfSome (retype_refusal e) (λ why. retyping types m (value.view file.now) ≡ Err why)) }
        ensures reported { IfErr result (λ e. IfSome (reported_of_file e) (IsFileFault (value.view file.now))) }
        ensures unchanged { OnErr result (self.new ≡ self.old) }
    {
        match self.api.retype(file) {
            Ok(()) => {
                self.last = None;
                Ok(())
            }
            Err(fault) => Err(fault),
        }
    }

    /// The current revision and the compacted number.
    pub(crate) fn marks(&self) -> Result<(u64, u64), Fault>
        ensures { (types : List ServedShape) (m : History) → SharedRepresents self.now types m → result ≡ Ok (m.current, m.compacted) }
    {
        self.api.marks()
    }
}
