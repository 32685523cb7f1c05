//! One connection: what its peer keeps the server waiting for, and its turns. All connections stand in `peers`.

ghost use Rattle.std.specs.Prelude.{◌≡◌, [], List, ℕ, false};
ghost use Rattle.std.specs.Io.KnownBytes.{Appends};
ghost use Rattle.httpedge.specs.Connections.{out_on, waiting_on};
ghost use Rattle.httpedge.specs.HubViews.{HubRepresents};
ghost use Rattle.httpedge.specs.Steps.{State};
ghost use Rattle.polling.specs.Happens.{ReachesUnaskedOn, SendsBytes, Talks};
ghost use Rattle.polling.specs.ServerViews.{lingers};

use crate::reading::{Readout, hand_over};
use crate::stream::Stream;
use crate::writing::{Written, write_out};
use httpedge::{Effect, Event, Hub, HubFault, LINGER};
use observing::{Observer, step};
use std::alloc::Global;
use std::io::{self, ErrorKind, Read, Write};
use std::time::{Duration, Instant};

/// What a connection waits for after its turn.
#[derive(Debug, Drop, Clone, Copy, PartialEq, Eq)]
pub enum Next {
    /// That its peer sends something.
    Reads,
    /// That its peer takes something, or sends something.
    Writes,
    /// Nothing: it has a turn again at once.
    Again,
    /// It is over.
    Over,
    /// It is over: memory, or the system, failed its stream.
    Failed(ErrorKind),
}

impl Next {
    /// Whether the connection is over.
    pub(crate) fn is_over(self) -> bool {
        matches!(self, Next::Over | Next::Failed(_))
    }

    /// What failed its stream, if something did.
    pub(crate) fn failure(self) -> Option<ErrorKind> {
        match self {
            Next::Failed(why) => Some(why),
            _ => None,
        }
    }
}

/// How many bytes the lines of a turn may have until later turns send fewer: 256 KiB.
const TURN_BYTES: u64 = 262144;

/// How many lines the first turn of a watch sends at most, and one after a turn that sent none.
const FIRST_LINES: u64 = 8;

/// How many lines and bytes a pump wrote.
fn written_by(done: &Result<Effect, HubFault>) -> (u64, u64) {
    let Ok(effect) = done else {
        return (0, 0);
    };
    match effect.changes().first() {
        Some(entry) => (entry.1.lines as u64, entry.1.bytes as u64),
        None => (0, 0),
    }
}

/// How many lines a watch may send in its next turn, after one that sent so many of so many bytes: as many as make a turn's bytes
/// where lines are as large as these; as many as in a first turn at most, or twice as many as in this one, and one at least.
fn next_lines(lines: u64, bytes: u64) -> u64 {
    if lines == 0 || bytes == 0 {
        return FIRST_LINES;
    }
    let fitting = lines.saturating_mul(TURN_BYTES) / bytes;
    let most = lines.saturating_mul(2).max(FIRST_LINES);
    fitting.min(most).max(1)
}

/// The time now if that is asked for, or else an earlier one.
fn later_if(is_later: bool, earlier: Instant, now: Instant) -> Instant {
    if is_later { now } else { earlier }
}

/// Whether a peer that was read so sends no more.
fn is_closed(read: &io::Result<Readout>) -> bool {
    match read {
        Ok(readout) => *readout == Readout::Closed,
        Err(_) => false,
    }
}

/// What a connection waits for whose stream was read so, where writing leads to `next`. One whose peer may have sent more has a turn
/// again; one that can't be read is over.
fn after_reading(read: &io::Result<Readout>, next: Next) -> Next {
    match read {
        Ok(Readout::More) if next != Next::Over => Next::Again,
        Ok(_) => next,
        Err(error) => match error.kind() {
            ErrorKind::OutOfMemory => Next::Failed(ErrorKind::OutOfMemory),
            _ => Next::Over,
        },
    }
}

/// The stream of a connection, and how its peer stands to the server.
#[derive(Drop)]
pub struct Peer<S: Drop> {
    /// Where its bytes come from, and go to.
    pub stream: S,
    /// All was written and no more is sent: what still comes is read until the peer closes.
    is_lingering: bool,
    /// The peer sends no more.
    is_read_out: bool,
    /// The peer took no more of what waits for it.
    is_blocked: bool,
    /// It watches, and may have more lines to write.
    is_behind: bool,
    /// How many lines its next turn sends at most, beside what the server is asked for.
    lines: u64,
    /// How many bytes the lines of its last turn had.
    made: u64,
    /// Since when the peer keeps the server waiting.
    since: Instant,
}

impl<S: Read + Write + Stream + Drop> Peer<S> {
    /// A peer whose connection has just been opened.
    pub fn new(stream: S, now: Instant) -> Peer<S>
        ensures stream { result.stream ≡ stream }
        ensures lingers { lingers result ≡ false }
    {
        Peer {
            stream,
            is_lingering: false,
            is_read_out: false,
            is_blocked: false,
            is_behind: true,
            lines: FIRST_LINES,
            made: 0,
            since: now,
        }
    }

    /// Whether its watch has more lines to write, and its peer takes them.
    pub(crate) fn may_go_on(&self) -> bool {
        self.is_behind && !self.is_blocked
    }

    /// How many bytes the lines of its last turn had.
    pub(crate) fn made(&self) -> u64 {
        self.made
    }

    /// Notes what a pump wrote.
    fn note_made(&mut self, done: &Result<Effect, HubFault>) {
        let (lines, bytes) = written_by(done);
        self.made = bytes;
        self.is_behind = bytes > 0;
        self.lines = next_lines(lines, bytes);
    }

    /// Whether the server waits for the peer: for the rest of its request, to take what waits for it, or to close.
    fn keeps_waiting(&self, hub: &Hub, id: u64) -> bool
        ensures { (s : State) → HubRepresents hub.now s → waiting_on s.connections id ≡ false → out_on s.connections id ≡ [] → lingers self.now ≡ false → result ≡ false }
    {
        if self.is_lingering {
            return true;
        }
        hub.wants(id) || !hub.out(id).is_empty()
    }

    /// Whether the server has waited for the peer for more than so many milliseconds. For a watch on which nothing waits it
    /// doesn't wait.
    pub fn is_silent(&self, hub: &Hub, id: u64, now: Instant, patience: u64) -> bool
        ensures { (s : State) → HubRepresents hub.now s → waiting_on s.connections id ≡ false → out_on s.connections id ≡ [] → lingers self.now ≡ false → result ≡ false }
    {
        if !self.keeps_waiting(hub, id) {
            return false;
        }
        let limit = if self.is_lingering { LINGER } else { patience };
        now.duration_since(self.since) > Duration::from_millis(limit)
    }

    /// The turn of a connection whose stream may be ready: what its peer sent is handed to the hub, and what is out on it
    /// is written, also where its peer can't be read any more.
    pub fn look<O: Observer>(
        &mut self,
        alloc: Global,
        hub: &mut Hub,
        observer: &mut O,
        id: u64,
        now: Instant,
    ) -> Next
        ensures { (read : S) × (written : S) × Talks id (S.remaining self.old.stream) (S.remaining read) (S.contents read) (S.contents written) hub.old hub.new }
    {
        self.since = later_if(hub.wants(id), self.since, now);
        let read = hand_over(alloc, hub, observer, id, &mut self.stream);
        self.is_read_out = is_closed(&read);
        let next = self.flush(hub, id, now);
        after_reading(&read, next)
    }

    /// The turn of a watch: where nothing waits it may write so many lines at most, and fewer where those before were large.
    pub fn pump<O: Observer>(
        &mut self,
        hub: &mut Hub,
        observer: &mut O,
        id: u64,
        lines: u64,
        now: Instant,
    ) -> Next
        ensures { ReachesUnaskedOn id hub.old hub.new }
    {
        self.is_behind = true;
        self.made = 0;
        if self.is_blocked {
            return Next::Writes;
        }
        if !hub.out(id).is_empty() {
            return self.flush(hub, id, now);
        }
        let lines = lines.min(self.lines);
        let done = step(hub, observer, &Event::Pump(id, lines));
        self.note_made(&done);
        self.flush(hub, id, now)
    }

    /// Writes what is out.
    fn flush(&mut self, hub: &mut Hub, id: u64, now: Instant) -> Next
        ensures { (written : S) × (sent_bytes : List ℕ) × Appends (S.contents self.old.stream) (S.contents written) sent_bytes × SendsBytes id sent_bytes hub.old hub.new }
    {
        let waiting = hub.out(id).len();
        let written = write_out(hub, id, &mut self.stream);
        if hub.out(id).len() < waiting {
            self.since = now;
        }
        let Ok(written) = written else {
            return Next::Over;
        };
        self.after_writing(hub, id, written, now)
    }

    fn after_writing(&mut self, hub: &Hub, id: u64, written: Written, now: Instant) -> Next {
        match written {
            Written::All => self.rest(hub, id, now),
            Written::Some => Next::Again,
            Written::Blocked => {
                if !self.is_blocked {
                    self.is_blocked = true;
                    self.since = now;
                }
                Next::Writes
            }
        }
    }

    /// All was written: a connection that has ended lingers until its peer closes, and one whose peer sends no more is over.
    fn rest(&mut self, hub: &Hub, id: u64, now: Instant) -> Next {
        self.is_blocked = false;
        if self.is_read_out {
            return Next::Over;
        }
        if self.is_lingering || !hub.ended(id) {
            return Next::Reads;
        }
        if self.stream.end().is_err() {
            return Next::Over;
        }
        self.is_lingering = true;
        self.since = now;
        Next::Reads
    }
}
