//! The log: what is told of requests, of watches and of what fails. How a line reads stands in `line`.

ghost use Rattle.std.specs.Prelude.{◌≡◌};
ghost use Rattle.event_log.specs.declared.line.Told.TheVariants as told;

use crate::line::{Line, LogCall, Moment, Sink, Told};
use httpedge::{Change, Effect, Event, Hub, HubFailure, HubFault};
use observing::Disturbance;
use requests::Request;
use std::alloc::Global;
use std::collections::BTreeMap;
use std::io::ErrorKind;
use std::time::{Duration, Instant};

/// What is told of a reply that took so long.
fn told_of_reply(change: &Change, took: Duration) -> Told
    ensures { result ≡ told.Reply change.now.status change.now.bytes took }
{
    Told::Reply(change.status, change.bytes as u64, took)
}

/// A watch: what it asked, and what it got.
#[derive(Drop)]
struct Watch {
    method: String,
    target: String,
    lines: u64,
    bytes: u64,
}

/// A text, or the empty one where there is no memory.
fn text_or_none(alloc: Global, text: &str) -> String {
    match String::from_str(alloc, text) {
        Ok(text) => text,
        Err(_) => String::new(alloc),
    }
}

impl Watch {
    fn new(alloc: Global, call: LogCall<'_>) -> Watch {
        Watch {
            method: text_or_none(alloc, call.method),
            target: text_or_none(alloc, call.target),
            lines: 0,
            bytes: 0,
        }
    }

    /// Counts what an event wrote.
    fn count(&mut self, change: &Change) {
        self.lines = self.lines.saturating_add(change.lines as u64);
        self.bytes = self.bytes.saturating_add(change.bytes as u64);
    }

    /// What is told once it is over, of a connection that was open for so long.
    fn told_at_end(&self, lasted: Duration) -> Told
        ensures { result ≡ told.Ended self.now.lines self.now.bytes lasted }
    {
        Told::Ended(self.lines, self.bytes, lasted)
    }

    fn call(&self) -> LogCall<'_> {
        LogCall {
            method: self.method.as_str(),
            target: self.target.as_str(),
        }
    }
}

/// A connection that is open.
#[derive(Drop)]
struct Opened {
    since: Instant,
    /// None while what it asks isn't decided.
    watch: Option<Watch>,
}

impl Opened {
    fn call(&self) -> LogCall<'_> {
        match &self.watch {
            Some(watch) => watch.call(),
            None => LogCall::none(),
        }
    }

    /// Counts what an event wrote on a watch.
    fn count(&mut self, change: &Change) {
        if let Some(watch) = &mut self.watch {
            watch.count(change);
        }
    }

    /// What is told once its peer has gone, or it has ended: what a watch got, or that there is no reply.
    fn told_at_end(&self, began: Instant, moment: Moment) -> Told {
        match &self.watch {
            Some(watch) => watch.told_at_end(moment.since(self.since)),
            None => Told::Reply(None, 0, moment.since(began)),
        }
    }
}

/// What a request asks by its first line, if that can be read.
fn call_in<'a>(request: Option<&'a Request>) -> LogCall<'a> {
    let Some(request) = request else {
        return LogCall::none();
    };
    match request.line() {
        Some(line) => LogCall {
            method: line.method,
            target: line.request_target,
        },
        None => LogCall::none(),
    }
}

/// The connections that are open. Where there is no memory for one, what is told of it is left out, or says no call.
#[derive(Drop)]
pub struct Log {
    alloc: Global,
    connections: BTreeMap<u64, Opened>,
    /// Whether more is told than what fails.
    tells_all: bool,
    /// Since when the event is done.
    began: Instant,
}

impl Log {
    /// A log in which nothing was asked yet: of all, or of failures alone.
    pub fn new(alloc: Global, tells_all: bool, now: Instant) -> Log {
        Log {
            alloc,
            connections: BTreeMap::new(alloc),
            tells_all,
            began: now,
        }
    }

    /// Whether more is told than what fails.
    pub fn tells_all(&self) -> bool {
        self.tells_all
    }

    /// Whether something may be told of an event that ended so. Why other types of a file aren't served is told in any case, of the
    /// file.
    pub fn tells(&self, event: &Event, done: &Result<Effect, HubFault>) -> bool {
        let has_failed = matches!(done, Err(HubFault::Failed(_)));
        self.tells_all || (has_failed && !matches!(event, Event::Retype(_)))
    }

    /// An event is the next one.
    pub fn begin(&mut self, now: Instant) {
        self.began = now;
    }

    /// Tells what an event did, or that it failed.
    pub fn tell<S: Sink>(
        &mut self,
        sink: &mut S,
        hub: &Hub,
        event: &Event,
        done: &Result<Effect, HubFault>,
        moment: Moment,
    ) {
        match done {
            Ok(effect) => self.tell_effect(sink, event, effect, moment),
            Err(HubFault::Failed(failure)) => {
                self.tell_failure(sink, hub, event, *failure, moment);
            }
            Err(HubFault::Refused(_)) => {}
        }
    }

    fn tell_effect<S: Sink>(
        &mut self,
        sink: &mut S,
        event: &Event,
        effect: &Effect,
        moment: Moment,
    ) {
        match event {
            Event::Open(id) if effect.changes().is_empty() => self.note_open(*id, moment.now),
            Event::Gone(id) => self.tell_end(sink, *id, moment),
            _ => {
                let call = call_in(effect.request());
                for entry in effect.changes() {
                    self.tell_change(sink, entry.0, &entry.1, call, moment);
                }
            }
        }
    }

    fn note_open(&mut self, id: u64, since: Instant) {
        let _ = self.connections.insert(id, Opened { since, watch: None });
    }

    /// Tells what was done to a connection: it was answered, or its watch has ended.
    fn tell_change<S: Sink>(
        &mut self,
        sink: &mut S,
        id: u64,
        change: &Change,
        call: LogCall<'_>,
        moment: Moment,
    ) {
        if change.status.is_some() {
            self.tell_reply(sink, id, change, call, moment);
        } else {
            self.count(id, change);
            if change.has_ended {
                self.tell_end(sink, id, moment);
            }
        }
    }

    /// Tells of a reply. Where that isn't the end of the connection, it watches.
    fn tell_reply<S: Sink>(
        &mut self,
        sink: &mut S,
        id: u64,
        change: &Change,
        call: LogCall<'_>,
        moment: Moment,
    ) {
        let told = told_of_reply(change, moment.since(self.began));
        sink.tell(&Line::new(moment.since_1970, id, call, told));
        if change.has_ended {
            let _ = self.connections.remove(&id);
            return;
        }
        let watch = Watch::new(self.alloc, call);
        if let Some(opened) = self.connections.get_mut(&id) {
            opened.watch = Some(watch);
        }
    }

    fn count(&mut self, id: u64, change: &Change) {
        if let Some(opened) = self.connections.get_mut(&id) {
            opened.count(change);
        }
    }

    /// Tells that a connection is over that was open.
    fn tell_end<S: Sink>(&mut self, sink: &mut S, id: u64, moment: Moment) {
        if let Some(opened) = self.connections.remove(&id) {
            let told = opened.told_at_end(self.began, moment);
            sink.tell(&Line::new(moment.since_1970, id, opened.call(), told));
        }
    }

    /// Tells why a connection ends without its reply, or its watch.
    fn tell_cut<S: Sink>(&mut self, sink: &mut S, id: u64, moment: Moment, told: Told) {
        match self.connections.remove(&id) {
            Some(opened) => sink.tell(&Line::new(moment.since_1970, id, opened.call(), told)),
            None => sink.tell(&Line::new(moment.since_1970, id, LogCall::none(), told)),
        }
    }

    fn tell_failure<S: Sink>(
        &mut self,
        sink: &mut S,
        hub: &Hub,
        event: &Event,
        failure: HubFailure,
        moment: Moment,
    ) {
        let told = Told::Failed(failure);
        match event {
            Event::Open(id) | Event::In(id, _) | Event::Gone(id) | Event::Pump(id, _) => {
                self.tell_cut(sink, *id, moment, told);
            }
            Event::Tick(_) => {
                sink.tell(&Line::new(moment.since_1970, 0, LogCall::named("tick"), told));
                self.tell_dead(sink, hub, moment, told);
            }
            Event::Compact(_) => {
                sink.tell(&Line::new(moment.since_1970, 0, LogCall::named("compaction"), told));
            }
            Event::Retype(_) => {
                sink.tell(&Line::new(moment.since_1970, 0, LogCall::named("types"), told));
            }
        }
    }

    /// The watch with the lowest id that has ended.
    fn first_dead(&self, hub: &Hub) -> Option<u64> {
        for (id, _) in &self.connections {
            if hub.ended(*id) {
                return Some(*id);
            }
        }
        None
    }

    /// Tells of the watches that a tick has ended because it failed.
    fn tell_dead<S: Sink>(&mut self, sink: &mut S, hub: &Hub, moment: Moment, told: Told) {
        for _ in 0..self.connections.len() {
            let Some(id) = self.first_dead(hub) else {
                return;
            };
            self.tell_cut(sink, id, moment, told);
        }
    }

    /// Tells what failed the stream of a connection.
    pub fn tell_loss<S: Sink>(&mut self, sink: &mut S, id: u64, why: ErrorKind, moment: Moment) {
        self.tell_cut(sink, id, moment, Told::Lost(why));
    }

    /// The line of a watch that is disturbed so.
    fn line_of_disturbance(&self, id: u64, how: Disturbance, moment: Moment) -> Line<'_>
        ensures id { result.id ≡ id }
        ensures told { result.told ≡ told.Disturbed how }
    {
        let call = match self.connections.get(&id) {
            Some(opened) => opened.call(),
            None => LogCall::none(),
        };
        Line::new(moment.since_1970, id, call, Told::Disturbed(how))
    }

    /// Tells how the watch of a connection is disturbed.
    pub fn tell_disturbance<S: Sink>(
        &self,
        sink: &mut S,
        id: u64,
        how: Disturbance,
        moment: Moment,
    ) {
        sink.tell(&self.line_of_disturbance(id, how, moment));
    }
}
