//! A watch on a connection: what it writes at its turn, and when it ends. What becomes of the connection then stands in
//! `turns`, what watches share in `shared`.

ghost use Rattle.std.specs.Prelude.{◌≡◌, ◌*◌, List, length, true, IfOk, OnErr, nat_le, option_map, string_bytes};
ghost use Rattle.api_types.specs.TypesFile.{ServedShape};
ghost use Rattle.history.specs.History.{History};
ghost use Rattle.verbs.specs.Views.{ApiRepresents};
ghost use Rattle.answers.specs.Views.{watch_from};
ghost use Rattle.httpedge.specs.ConnectionViews.{Turns, left, watch_of};
ghost use Rattle.httpedge.specs.HubViews.{event_of};
ghost use Rattle.httpedge.specs.NextTurns.{turn_of};
ghost use Rattle.requests.specs.ReplyBytes.{chunks};
ghost use Rattle.httpedge.specs.SharedViews.{SharedRepresents};
ghost use Rattle.httpedge.specs.Watches.{begun_at, is_due, has_timed_out, line_list, pumped, ticked};

use crate::effect::Change;
use crate::event::Event;
use crate::out::Out;
use crate::shared::Shared;
use answers::WatchFrom;
use requests::{push_chunk, push_end};
use std::alloc::{AllocError, Global};
use verbs::{Api, Fault};
use watchline::WatchCursor;

/// A watch: where it stands, the last tick before its opening, and the seconds after which it ends.
#[derive(Debug, Drop)]
pub(crate) struct Watch {
    cursor: WatchCursor,
    opened_at: u64,
    timeout: u64,
}

/// Whether so many seconds are no more than these milliseconds.
fn has_passed(seconds: u64, milliseconds: u64) -> bool
    ensures { result ≡ nat_le (seconds * 1000) milliseconds }
{
    match seconds.checked_mul(1000) {
        Some(needed) => needed <= milliseconds,
        None => false,
    }
}

/// How many lines a tick's turn has.
fn line_count(line: &Option<String>) -> usize
    ensures { result ≡ length (line_list (option_map string_bytes line.now)) }
{
    match line {
        Some(_) => 1,
        None => 0,
    }
}

/// The bytes of a tick's turn.
fn tick_bytes(alloc: Global, line: Option<String>, has_ended: bool) -> Result<Vec<u8>, AllocError>
    ensures { IfOk result (λ v. v.items ≡ chunks (line_list (option_map string_bytes line)) has_ended) }
{
    let mut bytes = Vec::new(alloc);
    if let Some(line) = line {
        push_chunk(alloc, &mut bytes, line.as_str())?;
    }
    push_end(&mut bytes, has_ended)?;
    Ok(bytes)
}

impl Watch {
    /// A watch that opens after this tick.
    pub(crate) fn begun(last_tick: u64, from: WatchFrom) -> Watch
        ensures { watch_of result ≡ begun_at last_tick (watch_from from) }
    {
        let timeout = from.timeout;
        Watch {
            cursor: WatchCursor::new(from),
            opened_at: last_tick,
            timeout,
        }
    }

    fn has_timed_out(&self, ms: u64) -> bool
        ensures { result ≡ has_timed_out ms (watch_of self.now) }
    {
        self.timeout > 0 && has_passed(self.timeout, ms.saturating_sub(self.opened_at))
    }

    /// The event that gives it its next turn on the connection of this id, by the current revision and the last tick.
    pub(crate) fn next_turn(&self, id: u64, current: u64, last_tick: u64) -> Option<Event>
        ensures { option_map event_of result ≡ turn_of id current last_tick (watch_of self.now) }
    {
        if self.cursor.is_before(current) {
            return Some(Event::Pump(id, current));
        }
        if self.cursor.is_bookmark_due() {
            return Some(Event::Tick(last_tick));
        }
        None
    }

    /// Its turn at a pump; what that did. Out of memory, it writes nothing more.
    pub(crate) fn pump(
        &mut self,
        alloc: Global,
        shared: &mut Shared,
        out: &mut Out,
        max: usize,
    ) -> Result<Change, Fault>
        ensures ok { (types : List ServedShape) (m : History) → SharedRepresents shared.old types m
            → IfOk result (λ change. Turns (pumped m max (watch_of self.old)) change (watch_of self.new) (left out.old) (left out.new)) }
        ensures err { OnErr result (left out.new ≡ left out.old) }
        ensures serves { (types : List ServedShape) (m : History) → SharedRepresents shared.old types m → SharedRepresents shared.new types m }
    {
        shared.pump(alloc, &mut self.cursor, out, max)
    }

    /// Whether its turn at a tick is due: a bookmark, or its end.
    pub(crate) fn is_due(&self, ms: u64) -> bool
        ensures { result ≡ is_due ms (watch_of self.now) }
    {
        self.cursor.is_bookmark_due() || self.has_timed_out(ms)
    }

    /// Its turn at a tick; what that did. Out of memory, it writes nothing more; where nothing is due it needs no
    /// memory.
    pub(crate) fn tick(
        &mut self,
        alloc: Global,
        api: &Api,
        out: &mut Out,
        ms: u64,
    ) -> Result<Change, Fault>
        ensures ok { (types : List ServedShape) (m : History) → ApiRepresents api.now types m
            → IfOk result (λ change. Turns (ticked types ms (watch_of self.old)) change (watch_of self.new) (left out.old) (left out.new)) }
        ensures err { OnErr result (left out.new ≡ left out.old) }
        ensures due { OnErr result (is_due ms (watch_of self.old) ≡ true) }
    {
        let has_ended = self.has_timed_out(ms);
        let line = api.bookmark(&mut self.cursor)?;
        if line.is_none() && !has_ended {
            return Ok(Change::none());
        }
        let lines = line_count(&line);
        let bytes = tick_bytes(alloc, line, has_ended)?;
        out.add(&bytes)?;
        Ok(Change {
            bytes: bytes.len(),
            lines,
            status: None,
            has_ended,
        })
    }
}
