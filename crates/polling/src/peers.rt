//! The connections of a listener, by their ids, which are also the tokens of what the system reports. One connection
//! stands in `peer`.

ghost use Rattle.std.specs.Prelude.{◌≡◌};
ghost use Rattle.serde_json.specs.View.{view};
ghost use Rattle.httpedge.specs.Steps.{retypes};
ghost use Rattle.polling.specs.Happens.{Answers, Reaches, ReachesUnasked, ReachesUnaskedOn};

use crate::disturbances::Disturbances;
use crate::options::Options;
use crate::peer::{Next, Peer};
use httpedge::{Effect, Event, Hub, HubFault};
use mio::net::{TcpListener, TcpStream};
use mio::{Events, Interest, Poll, Token};
use observing::{Disturbance, Observer, compact, hand, step};
use serde_json::Value;
use std::alloc::Global;
use std::collections::BTreeMap;
use std::io;
use std::io::ErrorKind;
use std::time::{Duration, Instant};

/// The token of the listener. Ids rise from 1 and are never used again, so a report of a connection that is over finds
/// nothing.
pub(crate) const LISTENER: Token = Token(0);

/// The most connections that are accepted in one turn.
const ACCEPTS: u32 = 256;

/// The milliseconds between two ticks.
const TICK: u64 = 1000;

/// How many bytes the turns of watches that have more lines make in one round, until the others have theirs later: 1 MiB.
const ROUND_BYTES: u64 = 1048576;

/// What the system reports of a connection. It is told only of those that outlive their first look.
#[derive(Debug, Drop, Clone, Copy, PartialEq, Eq)]
enum Reported {
    Nothing,
    Reads,
    ReadsAndWrites,
}

#[derive(Drop)]
struct Entry {
    peer: Peer<TcpStream>,
    reported: Reported,
    is_watch: bool,
}

impl Entry {
    /// Whether it watches and may go on; it may begin to watch.
    fn note(&mut self, begins: bool) -> bool {
        if begins {
            self.is_watch = true;
            // Lines are short and each is written at once, so none may wait until the one before was received.
            let _ = self.peer.stream.set_nodelay(true);
        }
        self.is_watch && self.peer.may_go_on()
    }
}

/// Tells what failed the stream of a connection, if something did.
fn report_loss<O: Observer>(observer: &mut O, id: u64, why: Option<ErrorKind>) {
    if let Some(why) = why {
        observer.loses(id, why);
    }
}

/// A connection is over: unless all of its reply was written, its peer has gone, or something failed its stream.
fn part<O: Observer>(hub: &mut Hub, observer: &mut O, id: u64, why: Option<ErrorKind>)
    ensures { ReachesUnaskedOn id hub.old hub.new }
{
    if hub.ended(id) && hub.out(id).is_empty() {
        return;
    }
    report_loss(observer, id, why);
    hand(hub, observer, Event::Gone(id));
}

/// How many bytes of a turn count in its round: those of a watch that had more lines.
fn counted(goes_on: bool, made: u64) -> u64 {
    if goes_on { made } else { 0 }
}

/// The connections, and what is to be done with them.
#[derive(Drop)]
pub(crate) struct Peers {
    alloc: Global,
    options: Options,
    poll: Poll,
    pub(crate) listener: TcpListener,
    pub(crate) hub: Hub,
    entries: BTreeMap<u64, Entry>,
    /// The watches, in the order in which they opened.
    watches: Vec<u64>,
    /// The connections that have a turn again at once.
    again: Vec<u64>,
    /// The watches whose lines are held back until the next tick.
    held: Vec<u64>,
    /// A watch has more lines to write, and its peer takes them.
    has_lines: bool,
    /// How many bytes the turns of watches that had more lines have made in this round.
    made: u64,
    /// The place of the first of them that had no turn in the last round.
    put_off: Option<usize>,
    /// Connections may wait to be accepted.
    accepts: bool,
    /// One couldn't be accepted: the listener isn't reported again for it, so a close or a tick tries again.
    must_accept_again: bool,
    /// The highest id so far.
    highest: u64,
    /// How many connections are over.
    closed: u64,
    /// The current revision when it was last asked.
    revision: u64,
    started: Instant,
    ticked: Instant,
}

impl Peers {
    pub(crate) fn new(
        alloc: Global,
        options: Options,
        poll: Poll,
        listener: TcpListener,
        hub: Hub,
        now: Instant,
    ) -> Peers
        ensures { result.hub ≡ hub }
    {
        let (revision, _) = hub.marks().unwrap_or((0, 0));
        Peers {
            alloc,
            options,
            poll,
            listener,
            hub,
            entries: BTreeMap::new(alloc),
            watches: Vec::new(alloc),
            again: Vec::new(alloc),
            held: Vec::new(alloc),
            has_lines: false,
            made: 0,
            put_off: None,
            accepts: true,
            must_accept_again: false,
            highest: 0,
            closed: 0,
            revision,
            started: now,
            ticked: now,
        }
    }

    /// How many connections are over.
    pub(crate) fn closed(&self) -> u64
        ensures { result ≡ self.now.closed }
    {
        self.closed
    }

    /// Waits until the system reports something, or something else is to be done.
    pub(crate) fn wait(&mut self, events: &mut Events, now: Instant) -> io::Result<()>
        ensures { self.new.hub ≡ self.old.hub }
    {
        let is_busy = self.accepts || self.has_lines || !self.again.is_empty();
        let timeout = if is_busy {
            Duration::ZERO
        } else {
            Duration::from_millis(TICK).saturating_sub(now.duration_since(self.ticked))
        };
        self.poll.poll(events, Some(timeout))
    }

    /// The system reports a connection, or the listener.
    pub(crate) fn take_report<O: Observer>(&mut self, observer: &mut O, token: Token, now: Instant)
        ensures { Reaches self.old.hub self.new.hub }
    {
        if token == LISTENER {
            self.accepts = true;
        } else {
            self.look(observer, token.0 as u64, now);
        }
    }

    /// The turns of those that have one again.
    pub(crate) fn look_again<O: Observer>(&mut self, observer: &mut O, now: Instant)
        ensures { Reaches self.old.hub self.new.hub }
    {
        let again = std::mem::replace(&mut self.again, Vec::new(self.alloc));
        for id in &again {
            self.look(observer, *id, now);
        }
    }

    /// Accepts the connections that wait.
    pub(crate) fn accept_all<O: Observer>(&mut self, observer: &mut O, now: Instant)
        ensures { Reaches self.old.hub self.new.hub }
    {
        'accepts: for _ in 0..ACCEPTS {
            if !self.accepts {
                break;
            }
            self.accept(observer, now);
        }
    }

    fn accept<O: Observer>(&mut self, observer: &mut O, now: Instant)
        ensures { Reaches self.old.hub self.new.hub }
    {
        let Some(stream) = self.next_stream() else {
            return;
        };
        self.open(observer, stream, now);
    }

    fn next_stream(&mut self) -> Option<TcpStream>
        ensures { self.new.hub ≡ self.old.hub }
    {
        match self.listener.accept() {
            Ok((stream, _)) => return Some(stream),
            Err(e) if e.kind() == ErrorKind::WouldBlock => self.accepts = false,
            // The peer went before it was accepted.
            Err(e) if e.kind() == ErrorKind::ConnectionAborted => {}
            Err(_) => {
                self.accepts = false;
                self.must_accept_again = true;
            }
        }
        None
    }

    /// What is done after the turns of connections, in this order: each second the hub's tick; a compaction, where one is due;
    /// the disturbances that are asked for; and the turns of the watches. So a watch gets what came in one turn, or is told
    /// that it is forgotten, unless more is left for it than one pump sends, its bytes still wait for its peer, or it is
    /// disturbed. Each second ends the connections whose peers are silent.
    pub(crate) fn settle<O: Observer>(&mut self, observer: &mut O, now: Instant)
        ensures { ReachesUnasked self.old.hub self.new.hub }
    {
        let is_second = self.tick(observer, now);
        let seen = self.revision;
        let is_risen = self.compact(observer, is_second);
        self.disturb(observer, seen);
        self.pump_watches(observer, is_second || is_risen, now);
        if is_second {
            self.drop_silent(observer, now);
            self.accept_anew();
        }
    }

    /// Other types are served from here on, or it is told why not. The watches get what that changed.
    pub(crate) fn retype<O: Observer>(
        &mut self,
        observer: &mut O,
        file: Value,
        now: Instant,
    ) -> Result<Effect, HubFault>
        ensures answers { Answers (retypes (view file)) result self.old.hub self.new.hub }
        ensures reaches { ReachesUnasked self.old.hub self.new.hub }
    {
        let done = step(&mut self.hub, observer, &Event::Retype(file));
        self.settle(observer, now);
        done
    }

    /// The hub's tick, each second; whether it is due.
    fn tick<O: Observer>(&mut self, observer: &mut O, now: Instant) -> bool
        ensures { ReachesUnasked self.old.hub self.new.hub }
    {
        let is_early = now.duration_since(self.ticked) < Duration::from_millis(TICK);
        if is_early {
            return false;
        }
        self.ticked = now;
        self.held.clear();
        let ms = now.duration_since(self.started).as_millis();
        let ms = u64::try_from(ms).unwrap_or(u64::MAX);
        hand(&mut self.hub, observer, Event::Tick(ms));
        true
    }

    /// Forgets what isn't kept, where that is worth a statement: each second, or once as much again is kept. Whether
    /// something was written since it was last asked.
    fn compact<O: Observer>(&mut self, observer: &mut O, is_second: bool) -> bool
        ensures { ReachesUnasked self.old.hub self.new.hub }
    {
        let keep = self.options.keep;
        let (revision, compacted) = self.hub.marks().unwrap_or((self.revision, 0));
        let is_risen = revision != self.revision;
        self.revision = revision;
        let is_due = is_second || revision.saturating_sub(compacted) > keep.saturating_mul(2);
        if is_due {
            compact(&mut self.hub, observer, keep);
        }
        is_risen
    }

    /// Disturbs watches, by what is asked for after each revision from this one on that another has followed.
    fn disturb<O: Observer>(&mut self, observer: &mut O, seen: u64)
        ensures { ReachesUnasked self.old.hub self.new.hub }
    {
        let Some(disturbances) = self.options.disturbances else {
            return;
        };
        for revision in seen..self.revision {
            self.disturb_after(observer, disturbances, revision);
        }
    }

    /// Disturbs a watch by what is asked for after a revision, if something is, and a watch is open.
    fn disturb_after<O: Observer>(
        &mut self,
        observer: &mut O,
        disturbances: Disturbances,
        revision: u64,
    )
        ensures { ReachesUnasked self.old.hub self.new.hub }
    {
        let Some((how, number)) = disturbances.after(revision) else {
            return;
        };
        let Some(id) = self.chosen(number) else {
            return;
        };
        observer.disturbs(id, how);
        match how {
            Disturbance::Cut => self.close(observer, id, None),
            Disturbance::Hold => self.hold(id),
            Disturbance::Expiry => {
                compact(&mut self.hub, observer, 0);
                self.close(observer, id, None);
            }
        }
    }

    /// The watch that a number chooses among those that are open: their places are counted over and over.
    fn chosen(&mut self, number: u64) -> Option<u64>
        ensures { self.new.hub ≡ self.old.hub }
    {
        self.drop_closed();
        let place = number.checked_rem(self.watches.len() as u64)?;
        self.watches.get(place as usize).copied()
    }

    /// Holds back the lines of a watch; out of memory, it doesn't.
    fn hold(&mut self, id: u64)
        ensures { self.new.hub ≡ self.old.hub }
    {
        let _ = self.held.push(id);
    }

    fn accept_anew(&mut self)
        ensures { self.new.hub ≡ self.old.hub }
    {
        if self.must_accept_again {
            self.must_accept_again = false;
            self.accepts = true;
        }
    }

    /// A connection has its first turn. Out of memory, it has none and is over: the peer sees it closed.
    fn open<O: Observer>(&mut self, observer: &mut O, stream: TcpStream, now: Instant)
        ensures { Reaches self.old.hub self.new.hub }
    {
        let Some(id) = self.highest.checked_add(1) else {
            return;
        };
        self.highest = id;
        if !hand(&mut self.hub, observer, Event::Open(id)) {
            self.count_closed();
            return;
        }
        let entry = Entry {
            peer: Peer::new(stream, now),
            reported: Reported::Nothing,
            is_watch: false,
        };
        if self.entries.insert(id, entry).is_err() {
            let why = Some(ErrorKind::OutOfMemory);
            part(&mut self.hub, observer, id, why);
            self.count_closed();
            return;
        }
        self.look(observer, id, now);
    }

    fn look<O: Observer>(&mut self, observer: &mut O, id: u64, now: Instant)
        ensures { Reaches self.old.hub self.new.hub }
    {
        let Some(entry) = self.entries.get_mut(&id) else {
            return;
        };
        let next = entry
            .peer
            .look(self.alloc, &mut self.hub, observer, id, now);
        let begins = !entry.is_watch && !self.hub.wants(id) && !self.hub.ended(id);
        self.has_lines |= entry.note(begins);
        let next = self.list_watch(id, begins, next);
        self.follow(observer, id, next);
    }

    /// Puts a watch that begins among the watches, and answers what the connection waits for.
    fn list_watch(&mut self, id: u64, begins: bool, next: Next) -> Next
        ensures { self.new.hub ≡ self.old.hub }
    {
        if begins && self.watches.push(id).is_err() {
            return Next::Failed(ErrorKind::OutOfMemory);
        }
        next
    }

    /// Each watch has its turn; unless all do, those alone that have more lines. These have none once such turns have made so
    /// many bytes; the next round begins with the first of them that had none.
    fn pump_watches<O: Observer>(&mut self, observer: &mut O, all: bool, now: Instant)
        ensures { ReachesUnasked self.old.hub self.new.hub }
    {
        if !all && !self.has_lines {
            return;
        }
        self.has_lines = false;
        self.made = 0;
        let first = std::mem::replace(&mut self.put_off, None).unwrap_or(0);
        let count = self.watches.len();
        self.pump_from(observer, first, count, all, now);
        self.pump_from(observer, 0, first, all, now);
        self.drop_closed();
    }

    /// The watches that are over are none any more.
    fn drop_closed(&mut self)
        ensures { self.new.hub ≡ self.old.hub }
    {
        let entries = &self.entries;
        self.watches.retain(|id| entries.contains_key(id));
    }

    /// The turns of the watches from one place to another, as far as there are any.
    fn pump_from<O: Observer>(
        &mut self,
        observer: &mut O,
        first: usize,
        end: usize,
        all: bool,
        now: Instant,
    )
        ensures { ReachesUnasked self.old.hub self.new.hub }
    {
        let end = end.min(self.watches.len());
        for at in first..end {
            self.pump_at(observer, at, all, now);
        }
    }

    fn pump_at<O: Observer>(&mut self, observer: &mut O, at: usize, all: bool, now: Instant)
        ensures { ReachesUnasked self.old.hub self.new.hub }
    {
        let Some(id) = self.watches.get(at) else {
            return;
        };
        let id = *id;
        let Some(entry) = self.entries.get(&id) else {
            return;
        };
        if self.held.contains(&id) {
            return;
        }
        let goes_on = entry.peer.may_go_on();
        if self.has_turn(at, all, goes_on) {
            self.pump_watch(observer, id, goes_on, now);
        }
    }

    /// Whether a watch has a turn: one that has more lines has, unless such turns have made enough.
    fn has_turn(&mut self, at: usize, all: bool, goes_on: bool) -> bool
        ensures { self.new.hub ≡ self.old.hub }
    {
        if !goes_on {
            return all;
        }
        if self.made < ROUND_BYTES {
            return true;
        }
        self.has_lines = true;
        self.put_off = Some(self.put_off.unwrap_or(at));
        false
    }

    /// The turn of a watch, whose bytes count where it had more lines.
    fn pump_watch<O: Observer>(&mut self, observer: &mut O, id: u64, goes_on: bool, now: Instant)
        ensures { ReachesUnasked self.old.hub self.new.hub }
    {
        let Some(entry) = self.entries.get_mut(&id) else {
            return;
        };
        let lines = self.options.lines;
        let next = entry.peer.pump(&mut self.hub, observer, id, lines, now);
        self.has_lines |= entry.peer.may_go_on();
        let made = counted(goes_on, entry.peer.made());
        self.made = self.made.saturating_add(made);
        self.follow(observer, id, next);
    }

    /// Does what a connection waits for after its turn.
    fn follow<O: Observer>(&mut self, observer: &mut O, id: u64, next: Next)
        ensures { ReachesUnasked self.old.hub self.new.hub }
    {
        let next = self.await_next(id, next);
        if next.is_over() {
            self.close(observer, id, next.failure());
        }
    }

    /// Has a connection wait for what comes next, and answers what it waits for.
    fn await_next(&mut self, id: u64, next: Next) -> Next
        ensures { self.new.hub ≡ self.old.hub }
    {
        match self.arrange(id, next) {
            Ok(()) => next,
            Err(error) => Next::Failed(error.kind()),
        }
    }

    /// Has the system report a connection, or gives it a turn again, by what comes next.
    fn arrange(&mut self, id: u64, next: Next) -> io::Result<()>
        ensures { self.new.hub ≡ self.old.hub }
    {
        match next {
            Next::Reads => self.report(id, Reported::Reads),
            Next::Writes => self.report(id, Reported::ReadsAndWrites),
            Next::Again => Ok(self.again.push(id)?),
            Next::Over | Next::Failed(_) => Ok(()),
        }
    }

    /// Has the system report this of the connection from now on, and at once what it is ready for by now. What it reports
    /// already stays.
    fn report(&mut self, id: u64, wanted: Reported) -> io::Result<()>
        ensures { self.new.hub ≡ self.old.hub }
    {
        let Some(entry) = self.entries.get_mut(&id) else {
            return Ok(());
        };
        let was = entry.reported;
        if was == wanted || was == Reported::ReadsAndWrites {
            return Ok(());
        }
        entry.reported = wanted;
        let interest = if wanted == Reported::Reads {
            Interest::READABLE
        } else {
            Interest::READABLE | Interest::WRITABLE
        };
        let registry = self.poll.registry();
        let token = Token(id as usize);
        let stream = &mut entry.peer.stream;
        if was == Reported::Nothing {
            registry.register(stream, token, interest)
        } else {
            registry.reregister(stream, token, interest)
        }
    }

    /// The connections whose peers are silent; out of memory, only some of them.
    fn silent(&self, now: Instant) -> Vec<u64> {
        let mut silent = Vec::new(self.alloc);
        for (id, entry) in &self.entries {
            let patience = self.options.patience;
            let is_silent = entry.peer.is_silent(&self.hub, *id, now, patience);
            if is_silent && silent.push(*id).is_err() {
                break;
            }
        }
        silent
    }

    fn drop_silent<O: Observer>(&mut self, observer: &mut O, now: Instant)
        ensures { ReachesUnasked self.old.hub self.new.hub }
    {
        let silent = self.silent(now);
        for id in &silent {
            self.close(observer, *id, None);
        }
    }

    /// A connection is over: its stream is closed, by which the system reports it no more.
    fn close<O: Observer>(&mut self, observer: &mut O, id: u64, why: Option<ErrorKind>)
        ensures { ReachesUnasked self.old.hub self.new.hub }
    {
        if self.entries.remove(&id).is_none() {
            return;
        }
        part(&mut self.hub, observer, id, why);
        self.count_closed();
        self.accept_anew();
    }

    fn count_closed(&mut self)
        ensures { self.new.hub ≡ self.old.hub }
    {
        self.closed = self.closed.saturating_add(1);
    }
}
