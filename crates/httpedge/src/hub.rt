//! The hub: an API and its connections, which events change. The connections stand in `connections`.

ghost use Rattle.std.specs.Prelude.{◌≡◌, ◌≢◌, ◌++◌, ◌∷◌, [], ℕ, List, Some, None, true, false, Err, Ok, IfOk, OnErr, option_map};
ghost use Rattle.api_types.specs.TypesFile.{ServedShape};
ghost use Rattle.history.specs.History.{History};
ghost use Rattle.verbs.specs.Views.{ApiRepresents};
ghost use Rattle.httpedge.specs.ChangeViews.{event_on};
ghost use Rattle.httpedge.specs.Connections.{ended_on, next_id, out_on, waiting_on};
ghost use Rattle.httpedge.specs.ConnectionViews.{is_above, kept_in};
ghost use Rattle.serde_json.specs.View.{view};
ghost use Rattle.httpedge.specs.Effects.{Does};
ghost use Rattle.httpedge.specs.HubViews.{Handles, IsActionOf, HubRepresents, ReportsOutcome, ReportsFile, asks_store, event_of, outcome_of, refusal_in};
ghost use Rattle.httpedge.specs.NextTurns.{next_turn};
ghost use Rattle.httpedge.specs.Runs.{Follows, Action, Runs, takes};
ghost use Rattle.httpedge.specs.declared.event.ConnectionInput.TheVariants as changes;
ghost use Rattle.httpedge.specs.Steps.{State, compacts, opens, pumps, retypes, start, ticks, with_bytes_taken};

use crate::connection::opening;
use crate::connections::Connections;
use crate::effect::{Done, Effect};
use crate::event::{ConnectionInput, Event};
use crate::fault::{HubFailure, HubFault, HubRefusal};
use crate::shared::Shared;
use revstore::CompactFault;
use serde_json::Value;
use std::alloc::{AllocError, Global};
use verbs::{Api, Fault};

/// Connections over one API: bytes in, reply bytes out.
pub struct Hub {
    alloc: Global,
    shared: Shared,
    connections: Connections,
    /// The time of the last tick, in milliseconds after the start.
    last_tick: u64,
}

// It is written out, so that what holds a hub does not prove again how each part is dropped.
impl Drop for Hub {
    fn drop(self) {
        let Hub {
            alloc: _,
            shared: _,
            connections: _,
            last_tick: _,
        } = self;
    }
}

fn is_above(highest: Option<u64>, id: u64) -> bool
    ensures { result ≡ is_above highest id }
{
    match highest {
        Some(highest) => highest < id,
        None => true,
    }
}

impl Hub {
    /// A hub without connections.
    pub fn new(alloc: Global, api: Api) -> Hub
        ensures { (types : List ServedShape) (m : History) → ApiRepresents api types m → HubRepresents result (start types m) }
    {
        Hub {
            alloc,
            shared: Shared::new(api),
            connections: Connections::new(alloc),
            last_tick: 0,
        }
    }

    /// Opens a connection under an id that is above all others.
    fn open_above(&mut self, id: u64) -> Result<Effect, AllocError>
        ensures ok { (s : State) → HubRepresents self.old s → is_above self.old.connections.highest id ≡ true → IfOk result (λ effect. (t : State) × Does s (opens id) t effect × HubRepresents self.new t) }
        ensures err { (s : State) → HubRepresents self.old s → is_above self.old.connections.highest id ≡ true → OnErr result (HubRepresents self.new s) }
    {
        let opened = opening(self.alloc, self.connections.open_count())?;
        let (connection, change) = opened;
        self.connections.open(id, connection)?;
        Ok(Effect::of(id, Done::unasked(change)))
    }

    fn open(&mut self, id: u64) -> Result<Effect, HubFault>
        ensures handles { Handles self.old (opens id) result self.new }
        ensures store { result ≢ Err (HubFault.Failed HubFailure.Store) }
    {
        if !is_above(self.connections.highest(), id) {
            return Err(HubFault::Refused(HubRefusal::IdNotAbove));
        }
        match self.open_above(id) {
            Ok(effect) => Ok(effect),
            Err(_) => Err(HubFault::Failed(HubFailure::Memory)),
        }
    }

    /// Changes the connection of an id.
    fn change(&mut self, id: u64, what: ConnectionInput) -> Result<Effect, HubFault>
        ensures handles { what.entry ≢ changes.Lines 0 → Handles self.old (event_on id what.entry) result self.new }
        ensures gone { what.entry ≡ changes.Gone → result ≢ Err (HubFault.Failed HubFailure.Store) }
    {
        self.connections
            .change(self.alloc, &mut self.shared, id, what, self.last_tick)
    }

    fn pump(&mut self, id: u64, max: u64) -> Result<Effect, HubFault>
        ensures { Handles self.old (pumps id max) result self.new }
    {
        if max > 0 {
            return self.change(id, ConnectionInput::Lines(max as usize));
        }
        if self.connections.is_known(id) {
            Err(HubFault::Refused(HubRefusal::NoLines))
        } else {
            Err(HubFault::Refused(HubRefusal::UnknownId))
        }
    }

    fn tick(&mut self, ms: u64) -> Result<Effect, HubFault>
        ensures handles { Handles self.old (ticks ms) result self.new }
        ensures store { result ≢ Err (HubFault.Failed HubFailure.Store) }
    {
        if ms < self.last_tick {
            return Err(HubFault::Refused(HubRefusal::TickBack));
        }
        let changes = self.connections.tick(self.alloc, &self.shared.api, ms);
        self.last_tick = ms;
        match changes {
            None => Err(HubFault::Failed(HubFailure::Memory)),
            Some(changes) => Ok(Effect::Connections(changes)),
        }
    }

    fn compact(&mut self, revision: u64) -> Result<Effect, HubFault>
        ensures { Handles self.old (compacts revision) result self.new }
    {
        match self.shared.compact(revision) {
            Ok(()) => Ok(Effect::Nothing),
            Err(CompactFault::Expired) => Err(HubFault::Refused(HubRefusal::CompactionRefused)),
            Err(CompactFault::TooLarge) => Err(HubFault::Refused(HubRefusal::CompactionRefused)),
            Err(CompactFault::Failed(fault)) => Err(HubFault::from(Fault::from(fault))),
        }
    }

    fn retype(&mut self, file: &Value) -> Result<Effect, HubFault>
        ensures handles { Handles self.old (retypes (view file.now)) result self.new }
        ensures reported { ReportsFile (retypes (view file.now)) result }
    {
        match self.shared.retype(file) {
            Ok(()) => Ok(Effect::Nothing),
            Err(fault) => Err(HubFault::from(fault)),
        }
    }

    /// Handles an event. Once the bytes of a connection decide what is asked, the reply is written, and the connection
    /// has ended, or watches. Refused, an event changes nothing; out of memory, an opening changes nothing, and a
    /// connection that waits is dead where bytes come on it, a watch where it is pumped. At a tick each watch has its
    /// turn, and only one that was out of memory for what it writes is dead. Bytes on one that has ended need no
    /// memory. A compaction that fails changes nothing, and so do other types; these are read before they are refused,
    /// so that memory may run out in place of a refusal. The store is asked where bytes come, at a pump, at a
    /// compaction and for other types: no other event fails by it.
    pub fn on(&mut self, event: &Event) -> Result<(), HubFault>
        ensures follows { (s : State) → HubRepresents self.old s → (h : Action) × (t : State) × IsActionOf (event_of event.now) (outcome_of result) h × Follows s h t × HubRepresents self.new t }
        ensures runs { (r s : State) (before : List Action) → Runs r before s → HubRepresents self.old s → (h : Action) × (t : State) × IsActionOf (event_of event.now) (outcome_of result) h × Runs r (before ++ h ∷ []) t × HubRepresents self.new t }
        ensures refused { (s : State) → HubRepresents self.old s → ReportsOutcome s (event_of event.now) (outcome_of result) }
        ensures reported { ReportsFile (event_of event.now) result }
        ensures unchanged { refusal_in (outcome_of result) ≢ None → self.new ≡ self.old }
        ensures store { asks_store (event_of event.now) ≡ false → result ≢ Err (HubFault.Failed HubFailure.Store) }
    {
        match self.step(event) {
            Ok(_) => Ok(()),
            Err(fault) => Err(fault),
        }
    }

    /// Handles an event as `on` does; what it did: how many bytes and lines it wrote on each connection, with which
    /// status, and which connections ended. At a tick, a watch is also dead where there was no memory to tell of what
    /// it writes.
    pub fn step(&mut self, event: &Event) -> Result<Effect, HubFault>
        ensures follows { (s : State) → HubRepresents self.old s → (h : Action) × (t : State) × IsActionOf (event_of event.now) (outcome_of result) h × Follows s h t × IfOk result (Does s (event_of event.now) t) × HubRepresents self.new t }
        ensures runs { (r s : State) (before : List Action) → Runs r before s → HubRepresents self.old s → (h : Action) × (t : State) × IsActionOf (event_of event.now) (outcome_of result) h × Runs r (before ++ h ∷ []) t × HubRepresents self.new t }
        ensures refused { (s : State) → HubRepresents self.old s → ReportsOutcome s (event_of event.now) (outcome_of result) }
        ensures reported { ReportsFile (event_of event.now) result }
        ensures unchanged { refusal_in (outcome_of result) ≢ None → self.new ≡ self.old }
        ensures store { asks_store (event_of event.now) ≡ false → result ≢ Err (HubFault.Failed HubFailure.Store) }
    {
        match event {
            Event::Open(id) => self.open(*id),
            Event::In(id, bytes) => self.change(*id, ConnectionInput::Bytes(bytes)),
            Event::Gone(id) => self.change(*id, ConnectionInput::Gone),
            Event::Pump(id, max) => self.pump(*id, *max),
            Event::Tick(ms) => self.tick(*ms),
            Event::Compact(revision) => self.compact(*revision),
            Event::Retype(file) => self.retype(file),
        }
    }

    /// Takes the first n bytes of what is out on a connection, at most all; nothing for an unknown id. Once all the
    /// bytes of a connection that has ended are taken, its id alone is kept.
    pub fn take(&mut self, id: u64, n: usize)
        ensures takes { (s : State) → HubRepresents self.old s → HubRepresents self.new (with_bytes_taken s id n) }
        ensures runs { (r s : State) (before : List Action) → Runs r before s → HubRepresents self.old s → Runs r (before ++ takes id n ∷ []) (with_bytes_taken s id n) }
    {
        self.connections.take(self.alloc, id, n);
    }

    /// What was written on a connection and not yet taken; nothing for an unknown id.
    pub fn out(&self, id: u64) -> &[u8]
        ensures { (s : State) → HubRepresents self.now s → result.now ≡ out_on s.connections id }
    {
        self.connections.out(id)
    }

    /// Whether a connection has ended.
    pub fn ended(&self, id: u64) -> bool
        ensures { (s : State) → HubRepresents self.now s → result ≡ ended_on s.connections id }
    {
        self.connections.has_ended(id)
    }

    /// Whether a connection is open and what it asks isn't decided.
    pub fn wants(&self, id: u64) -> bool
        ensures { (s : State) → HubRepresents self.now s → result ≡ waiting_on s.connections id }
    {
        self.connections.is_waiting(id)
    }

    /// The event that gives the watch on a connection its next turn: a pump for all changes while it stands before the
    /// current revision, else a tick at which the clock stands still while a bookmark is due. None where it has
    /// neither, on a connection that doesn't watch, and for an unknown id.
    pub fn next_turn(&self, id: u64) -> Option<Event>
        ensures { (s : State) → HubRepresents self.now s → option_map event_of result ≡ next_turn s id }
    {
        let Ok((current, _)) = self.marks() else {
            return None;
        };
        self.connections.next_turn(id, current, self.last_tick)
    }

    /// The id after those of all connections that were ever opened: 1 at the start, none where no id is left.
    pub fn next_id(&self) -> Option<u64>
        ensures { (s : State) → HubRepresents self.now s → result ≡ next_id s.connections }
    {
        self.connections.highest().unwrap_or(0).checked_add(1)
    }

    /// How many connections are held, and how many ranges of ids of those that are over: one for all that lie side by
    /// side and had all ended, or all not. One that is over is held where there was no memory for its id.
    pub fn kept(&self) -> (usize, usize)
        ensures { result ≡ kept_in self.now.connections }
    {
        self.connections.kept()
    }

    /// The current revision and the compacted number.
    pub fn marks(&self) -> Result<(u64, u64), Fault>
        ensures { (s : State) → HubRepresents self.now s → result ≡ Ok (s.machine.current, s.machine.compacted) }
    {
        self.shared.marks()
    }
}
