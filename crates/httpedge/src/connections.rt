//! All connections that were ever opened, by their ids: those that are open, and those that are over, of which ranges
//! of ids are left. How one of them changes stands in `connection`, how all have their turn at a tick in `ticking`.

ghost use Rattle.std.specs.Prelude.{◌≡◌, ◌≢◌, [], ℕ, Bool, List, None, Some, Ok, Err, true, false, cond, is_some, unwrap_or, option_and_then, option_map, OnOk, OnErr};
ghost use Rattle.std.specs.BTreeMap.{get};
ghost use Rattle.std.specs.Ordering.{nat_cmp};
ghost use Rattle.api_types.specs.TypesFile.{ServedShape};
ghost use Rattle.history.specs.History.{History};
ghost use Rattle.httpedge.specs.ChangeViews.{Changes};
ghost use Rattle.httpedge.specs.Connections.{Connection as TheConnection};
ghost use Rattle.httpedge.specs.Connections.{open_count, with_taken};
ghost use Rattle.httpedge.specs.ConnectionViews.{BecomesAt, OpenIdsAfter, Forgets, ConnectionRepresents, IsApart, IsAt, IsFresh, IsSame, Opens, PartsRepresent, found, has_ended_in, is_waiting_in, kept_in, out_in, had_ended_if_over_in, had_ended_by_ids, phase_in};
ghost use Rattle.httpedge.specs.HubViews.{event_of, outcome_of, refusal_in, refused};
ghost use Rattle.httpedge.specs.IdViews.{is_in};
ghost use Rattle.httpedge.specs.NextTurns.{turn_in};
ghost use Rattle.httpedge.specs.SharedViews.{SharedRepresents};
ghost use Rattle.httpedge.specs.Steps.{State, start, unknown_id};
ghost use Rattle.httpedge.specs.TickViews.{TicksIn};
ghost use Rattle.httpedge.specs.declared.connection.Connection as held;
ghost use Rattle.httpedge.specs.declared.effect.Effect.TheVariants as effect;
ghost use Rattle.httpedge.specs.declared.event.ConnectionInput.TheVariants as changes;
ghost use Rattle.httpedge.specs.declared.fault.HubFailure.TheVariants as failure;
ghost use Rattle.httpedge.specs.declared.fault.HubFault.TheVariants as fault;
ghost use Rattle.httpedge.specs.declared.fault.HubRefusal.TheVariants as hub_refusal;
ghost use Rattle.httpedge.specs.declared.shared.Shared as shares;

use crate::connection::{
    Connection, change, had_ended_if_over, has_ended, is_open, is_waiting, next_turn, out_of,
    take_from,
};
use crate::effect::{Change, Effect};
use crate::event::{ConnectionInput, Event};
use crate::fault::{HubFault, HubRefusal};
use crate::ids::Ids;
use crate::shared::Shared;
use crate::ticking::{drop_ended, tick_all};
use std::alloc::{AllocError, Global};
use std::collections::{BTreeMap, BTreeSet};
use verbs::Api;

/// The connections of a hub.
#[derive(Drop)]
pub(crate) struct Connections {
    /// Those that aren't over, and of the others such as found no memory: for the id alone, or at a tick.
    held: BTreeMap<u64, Connection>,
    /// The ids of those that are open.
    open_ids: BTreeSet<u64>,
    /// The ids of those that are over and had ended.
    ended: Ids,
    /// The ids of those whose peers went before they had ended.
    cut: Ids,
    /// The highest id so far.
    highest: Option<u64>,
}

impl Connections {
    /// None.
    pub(crate) fn new(alloc: Global) -> Connections
        ensures { (types : List ServedShape) (m : History) (shared : shares.Shared) → SharedRepresents shared types m → PartsRepresent shared result (start types m) }
    {
        Connections {
            held: BTreeMap::new(alloc),
            open_ids: BTreeSet::new(alloc),
            ended: Ids::new(alloc),
            cut: Ids::new(alloc),
            highest: None,
        }
    }

    /// The highest id so far.
    pub(crate) fn highest(&self) -> Option<u64>
        ensures { result ≡ self.now.highest }
    {
        self.highest
    }

    /// How many are open.
    pub(crate) fn open_count(&self) -> usize
        ensures { (shared : shares.Shared) (s : State) → PartsRepresent shared self.now s → result ≡ open_count s.connections }
    {
        self.open_ids.len()
    }

    /// How many are held, and how many ranges the ids of all others are.
    pub(crate) fn kept(&self) -> (usize, usize)
        ensures { result ≡ kept_in self.now }
    {
        (self.held.len(), self.ended.len() + self.cut.len())
    }

    /// Whether a connection that isn't held had ended, if the id is known.
    fn had_ended_if_over(&self, id: u64) -> Option<bool>
        ensures { result ≡ had_ended_by_ids (is_in self.now.ended.ranges id) (is_in self.now.cut.ranges id) }
    {
        if self.ended.contains(id) {
            return Some(true);
        }
        if self.cut.contains(id) {
            return Some(false);
        }
        None
    }

    /// Whether there is a connection of this id.
    pub(crate) fn is_known(&self, id: u64) -> bool
        ensures { result ≡ is_some (found self.now id) }
    {
        match self.held.get(&id) {
            Some(_) => true,
            None => self.had_ended_if_over(id).is_some(),
        }
    }

    /// Whether a connection has ended; none of an unknown id has.
    pub(crate) fn has_ended(&self, id: u64) -> bool
        ensures { result ≡ unwrap_or (option_map has_ended_in (found self.now id)) false }
    {
        match self.held.get(&id) {
            Some(connection) => has_ended(connection),
            None => self.had_ended_if_over(id).unwrap_or(false),
        }
    }

    /// Whether what a connection asks isn't decided; false for an unknown id.
    pub(crate) fn is_waiting(&self, id: u64) -> bool
        ensures { result ≡ unwrap_or (option_map is_waiting_in (found self.now id)) false }
    {
        match self.held.get(&id) {
            Some(connection) => is_waiting(connection),
            None => false,
        }
    }

    /// The event that gives a connection its next turn, by the current revision and the last tick; none for an unknown
    /// id.
    pub(crate) fn next_turn(&self, id: u64, current: u64, last_tick: u64) -> Option<Event>
        ensures { option_map event_of result ≡ option_and_then (λ d. turn_in id current last_tick (phase_in d)) (found self.now id) }
    {
        match self.held.get(&id) {
            Some(connection) => next_turn(connection, id, current, last_tick),
            None => None,
        }
    }

    /// What was written on a connection and not yet taken; nothing for an unknown id.
    pub(crate) fn out(&self, id: u64) -> &[u8]
        ensures { result.now ≡ unwrap_or (option_map out_in (found self.now id)) [] }
    {
        match self.held.get(&id) {
            Some(connection) => out_of(connection),
            None => &[],
        }
    }

    /// A connection is opened under an id that is above all others.
    pub(crate) fn open(&mut self, id: u64, connection: Connection) -> Result<(), AllocError>
        ensures ok { IsFresh id self.old → OnOk result (Opens id connection self.old self.new) }
        ensures err { IsFresh id self.old → OnErr result (IsSame self.old self.new) }
    {
        if !is_open(&connection) {
            self.held.insert(id, connection)?;
            self.highest = Some(id);
            return Ok(());
        }
        self.open_ids.insert(id)?;
        if let Err(refused) = self.held.insert(id, connection) {
            self.open_ids.remove(&id);
            return Err(AllocError::from(refused));
        }
        self.highest = Some(id);
        Ok(())
    }

    /// Changes the connection of an id; what that did. Nothing becomes of one that is over.
    pub(crate) fn change(
        &mut self,
        alloc: Global,
        shared: &mut Shared,
        id: u64,
        what: ConnectionInput,
        last_tick: u64,
    ) -> Result<Effect, HubFault>
        ensures known { (types : List ServedShape) (m : History) (d : held.Connection) (c : TheConnection) → SharedRepresents shared.old types m → IsAt id d self.old → ConnectionRepresents types d c
            → Changes types m last_tick what.entry id c self.old self.new shared.new result }
        ensures unknown { found self.old id ≡ None → (outcome_of result ≡ refused unknown_id) × (self.new ≡ self.old) × (shared.new ≡ shared.old) }
        ensures taken { is_some (found self.old id) ≡ true → refusal_in (outcome_of result) ≡ None }
        ensures gone { what.entry ≡ changes.Gone → result ≢ Err (fault.Failed failure.Store) }
    {
        match self.held.get_mut(&id) {
            None => self.answer_unheld(id),
            Some(connection) => {
                let changed = change(alloc, shared, connection, what, last_tick);
                let still_open = is_open(connection);
                let had_ended = had_ended_if_over(connection);
                self.close(id, still_open);
                self.forget(id, had_ended);
                match changed {
                    Ok(done) => Ok(Effect::of(id, done)),
                    Err(fault) => Err(HubFault::from(fault)),
                }
            }
        }
    }

    /// One that isn't held is over, or unknown.
    fn answer_unheld(&self, id: u64) -> Result<Effect, HubFault>
        ensures outcome { result ≡ cond (is_some (had_ended_by_ids (is_in self.now.ended.ranges id) (is_in self.now.cut.ranges id))) (Ok effect.Nothing) (Err (fault.Refused hub_refusal.UnknownId)) }
        ensures store { result ≢ Err (fault.Failed failure.Store) }
    {
        if self.had_ended_if_over(id).is_some() {
            Ok(Effect::Nothing)
        } else {
            Err(HubFault::Refused(HubRefusal::UnknownId))
        }
    }

    /// Takes the first n bytes of what is out on a connection, at most all; nothing for an unknown id.
    pub(crate) fn take(&mut self, alloc: Global, id: u64, n: usize)
        ensures known { (types : List ServedShape) (d : held.Connection) (c : TheConnection) → IsAt id d self.old → ConnectionRepresents types d c
            → BecomesAt types true (with_taken c n) id self.old self.new }
        ensures unknown { found self.old id ≡ None → self.new ≡ self.old }
    {
        match self.held.get_mut(&id) {
            None => {}
            Some(connection) => {
                take_from(alloc, connection, n);
                let had_ended = had_ended_if_over(connection);
                self.forget(id, had_ended);
            }
        }
    }

    /// Each open connection has its turn at a tick; what that did, unless one was out of memory.
    pub(crate) fn tick(&mut self, alloc: Global, api: &Api, ms: u64) -> Option<Vec<(u64, Change)>>
        ensures { (shared : shares.Shared) (s : State) → shared.api ≡ api.now → PartsRepresent shared self.old s → TicksIn shared ms s self.new result }
    {
        let changes = tick_all(alloc, api, &mut self.held, &self.open_ids, ms);
        drop_ended(&mut self.open_ids, &self.held);
        changes
    }

    /// The id of one that isn't open is no longer among those that are.
    fn close(&mut self, id: u64, is_open: bool)
        ensures closes { OpenIdsAfter id is_open self.old self.new }
        ensures held { self.new.held ≡ self.old.held }
        ensures ended { self.new.ended ≡ self.old.ended }
        ensures cut { self.new.cut ≡ self.old.cut }
        ensures highest { self.new.highest ≡ self.old.highest }
    {
        if !is_open {
            self.open_ids.remove(&id);
        }
    }

    /// Of one that is over the id alone is kept, where there is memory for it.
    fn forget(&mut self, id: u64, had_ended_if_over: Option<bool>)
        ensures { (d : held.Connection) → get nat_cmp self.old.held id ≡ Some d → had_ended_if_over_in d ≡ had_ended_if_over → IsApart self.old → Forgets id d self.old self.new }
    {
        match had_ended_if_over {
            None => {}
            Some(true) => match self.ended.insert(id) {
                Ok(()) => {
                    self.held.remove(&id);
                }
                Err(_) => {}
            },
            Some(false) => match self.cut.insert(id) {
                Ok(()) => {
                    self.held.remove(&id);
                }
                Err(_) => {}
            },
        }
    }
}
