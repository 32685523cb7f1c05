//! The server: one connection after another, and the streams of its watches. The turn of one connection stands in
//! `conversing`.

ghost use Rattle.std.specs.Prelude.{◌≡◌, ◌+◌, ◌^◌, ◌<◌, ◌++◌, ◌∷◌, [], List, map, true};
ghost use Rattle.api_types.specs.TypesFile.{ServedShape};
ghost use Rattle.history.specs.History.{History};
ghost use Rattle.verbs.specs.Views.{ApiRepresents};
ghost use Rattle.httpedge.specs.HubViews.{HubRepresents};
ghost use Rattle.httpedge.specs.Steps.{start};
ghost use Rattle.httpedge.specs.StreamViews.{MovesBy};
ghost use Rattle.serving.specs.Rising.{are_rising};
ghost use Rattle.serving.specs.Serving.{HasTurns, Served};
ghost use Rattle.serving.specs.Tidies.{PumpsAll, Tidies};

use crate::conversing::{leave, pump, turn};
use httpedge::{Event, Hub};
use observing::{Observer, compact, hand};
use std::alloc::Global;
use std::io;
use std::io::{ErrorKind, Read, Write};
use verbs::Api;

/// What a server keeps, and how much it writes at a time.
#[derive(Clone, Copy, Debug)]
pub struct Limits {
    /// How many revisions before the current one are kept.
    pub keep: u64,
    /// How many lines a watch may write after each connection; one or more.
    pub lines: u64,
}

/// A hub, and the streams of its watches in the order of their ids, which are below the next one.
#[derive(Drop)]
pub struct Server<W: Drop> {
    alloc: Global,
    hub: Hub,
    limits: Limits,
    /// The highest id so far.
    highest: u64,
    watches: Vec<(u64, W)>,
    ghost in_order: { are_rising (map (λ w. w.0) watches.items ++ (highest + 1) ∷ []) ≡ true },
}

impl<W: Write + Drop> Server<W> {
    ghost use Rattle.serving.specs.ServerViews.{hub_of, limits_of, next_of, watches_of, with_kept};

    /// A server without connections.
    pub fn new(alloc: Global, api: Api, limits: Limits) -> Server<W>
        ensures hub { (types : List ServedShape) (m : History) → ApiRepresents api types m → HubRepresents (hub_of result) (start types m) }
        ensures limits { limits_of result ≡ limits }
        ensures next { next_of result ≡ 1 }
        ensures watches { watches_of result ≡ [] }
    {
        Server {
            alloc,
            hub: Hub::new(alloc, api),
            limits,
            highest: 0,
            watches: Vec::new(alloc),
        }
    }

    /// Serves a connection: it gets the next id and has its turn. Answers whether its stream is kept, as that of a watch
    /// is; any other is closed. Where no id is left, it is closed without a turn.
    pub fn serve<O: Observer, R: Read>(
        &mut self,
        observer: &mut O,
        reader: &mut R,
        mut writer: W,
    ) -> bool
        ensures limits { limits_of self.new ≡ limits_of self.old }
        ensures served { Served (next_of self.old) (R.remaining reader.old) (R.remaining reader.new) (W.contents writer) (hub_of self.old) (hub_of self.new) }
        ensures next { next_of self.old < 2 ^ 64 → next_of self.new ≡ next_of self.old + 1 }
        ensures watches { watches_of self.new ≡ with_kept result (next_of self.old) (watches_of self.old) }
    {
        let Some(id) = self.highest.checked_add(1) else {
            return false;
        };
        self.highest = id;
        let done = turn(self.alloc, &mut self.hub, observer, id, reader, &mut writer);
        self.settle(observer, id, writer, done)
    }

    /// Whether an id is left for the next connection.
    pub(crate) fn has_ids(&self) -> bool
        ensures { result ≡ true → next_of self.now < 2 ^ 64 }
    {
        self.highest < u64::MAX
    }

    /// What is done after each connection: the clock's tick, in milliseconds after the start; a compaction, where that
    /// raises the compacted number; and then the turn of each watch, in the order of their ids.
    pub fn tidy<O: Observer>(&mut self, observer: &mut O, ms: u64)
        ensures limits { limits_of self.new ≡ limits_of self.old }
        ensures order { are_rising (watches_of self.old) ≡ true }
        ensures next { next_of self.new ≡ next_of self.old }
        ensures tidies { MovesBy (Tidies (limits_of self.old).keep (limits_of self.old).lines (watches_of self.old) ms) (hub_of self.old) (hub_of self.new) }
    {
        let keep = self.limits.keep;
        hand(&mut self.hub, observer, Event::Tick(ms));
        compact(&mut self.hub, observer, keep);
        self.pump_watches(observer);
    }

    fn pump_watches<O: Observer>(&mut self, observer: &mut O)
        ensures limits { limits_of self.new ≡ limits_of self.old }
        ensures order { are_rising (watches_of self.old) ≡ true }
        ensures next { next_of self.new ≡ next_of self.old }
        ensures pumps { MovesBy (PumpsAll (limits_of self.old).lines (watches_of self.old)) (hub_of self.old) (hub_of self.new) }
    {
        let lines = self.limits.lines;
        let watches = std::mem::replace(&mut self.watches, Vec::new(self.alloc));
        for watch in watches {
            let (id, mut writer) = watch;
            let done = pump(&mut self.hub, observer, id, lines, &mut writer);
            self.settle(observer, id, writer, done);
        }
    }

    /// Keeps the stream of a watch that goes on, and answers whether it does; out of memory, the connection ends.
    fn settle<O: Observer>(
        &mut self,
        observer: &mut O,
        id: u64,
        writer: W,
        done: io::Result<()>,
    ) -> bool
        requires { are_rising (watches_of self.old ++ id ∷ next_of self.old ∷ []) ≡ true }
        ensures limits { limits_of self.new ≡ limits_of self.old }
        ensures next { next_of self.new ≡ next_of self.old }
        ensures serves { HasTurns id (hub_of self.old) [] [] (hub_of self.new) }
        ensures watches { watches_of self.new ≡ with_kept result id (watches_of self.old) }
    {
        if done.is_err() || self.hub.ended(id) {
            return false;
        }
        if self.watches.push((id, writer)).is_err() {
            observer.loses(id, ErrorKind::OutOfMemory);
            leave(&mut self.hub, observer, id);
            return false;
        }
        true
    }
}
