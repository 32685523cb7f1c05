//! A tick of all connections: each watch has its turn, and what that did is told. The turn of one connection stands in
//! `turns`.

ghost use Rattle.std.specs.Prelude.{◌≡◌, ◌++◌, ◌∷◌, [], List, IsTrue, Some, None};
ghost use Rattle.std.specs.List.{filter};
ghost use Rattle.std.specs.Ordering.{nat_cmp};
ghost use Rattle.std.specs.Prelude.{is_some, option_map, unwrap_or, true, false, ℕ, Bool};
ghost use Rattle.std.specs.BTreeMap.{get};
ghost use Rattle.api_types.specs.TypesFile.{ServedShape};
ghost use Rattle.history.specs.History.{History};
ghost use Rattle.verbs.specs.Views.{ApiRepresents};
ghost use Rattle.httpedge.specs.Connections as model;
ghost use Rattle.httpedge.specs.Connections.{Connections};
ghost use Rattle.httpedge.specs.ConnectionViews.{ConnectionRepresents, Lists, found_in, is_open_in};
ghost use Rattle.httpedge.specs.Effects.{tells};
ghost use Rattle.httpedge.specs.Steps.{killed_or_ticked, writes_at};
ghost use Rattle.httpedge.specs.TickViews.{ConnectionsRepresent, TellsAt, TicksAll, TicksAt, ticked_change};

use crate::connection::{Connection, is_open};
use crate::effect::{Change, push_change};
use crate::turns::{is_due, kill_watch, tick_on};
use std::alloc::Global;
use std::collections::{BTreeMap, BTreeSet};
use verbs::Api;

/// A connection has its turn, if one is due, and what that did is told; whether it was out of memory, for its turn or
/// to tell of it: then it is dead.
fn tick_one(
    alloc: Global,
    api: &Api,
    changes: &mut Vec<(u64, Change)>,
    id: u64,
    connection: &mut Connection,
    ms: u64,
) -> bool
    ensures ticks { (types : List ServedShape) (m : History) (c : model.Connection) → ApiRepresents api.now types m → ConnectionRepresents types connection.old c
        → ConnectionRepresents types connection.new (killed_or_ticked types ms result c) }
    ensures told { (types : List ServedShape) (m : History) (c : model.Connection) → ApiRepresents api.now types m → ConnectionRepresents types connection.old c → result ≡ false
        → changes.new.items ≡ changes.old.items ++ filter tells ((id, ticked_change types ms (Some c)) ∷ []) }
    ensures due { (types : List ServedShape) (c : model.Connection) → ConnectionRepresents types connection.old c → IsTrue result → writes_at ms c.phase ≡ true }
{
    if !is_due(connection, ms) {
        return false;
    }
    let Ok(()) = changes.reserve(1) else {
        kill_watch(alloc, connection);
        return true;
    };
    match tick_on(alloc, api, connection, ms) {
        None => true,
        Some(change) => {
            push_change(changes, id, change);
            false
        }
    }
}

/// The connection of an id has its turn; whether it was out of memory. The others are over, or as they were.
fn tick_at(
    alloc: Global,
    api: &Api,
    held: &mut BTreeMap<u64, Connection>,
    changes: &mut Vec<(u64, Change)>,
    id: u64,
    ms: u64,
) -> bool
    ensures keys { (q : ℕ) → is_some (get nat_cmp held.new q) ≡ is_some (get nat_cmp held.old q) }
    ensures ticks { (types : List ServedShape) (m : History) (before : Connections) (had_ended cut : ℕ → Bool) → ApiRepresents api.now types m → ConnectionsRepresent types (found_in held.old had_ended cut) before
        → TicksAt types ms id before (found_in held.new had_ended cut) result }
    ensures told { (types : List ServedShape) (m : History) (before : Connections) (had_ended cut : ℕ → Bool) → ApiRepresents api.now types m → ConnectionsRepresent types (found_in held.old had_ended cut) before
        → TellsAt types ms id before changes.old.items changes.new.items result }
{
    match held.get_mut(&id) {
        None => false,
        Some(connection) => tick_one(alloc, api, changes, id, connection, ms),
    }
}

/// Each connection has its turn, where each that is open is among these ids; what that did, unless one was out of
/// memory.
pub(crate) fn tick_all(
    alloc: Global,
    api: &Api,
    held: &mut BTreeMap<u64, Connection>,
    ids: &BTreeSet<u64>,
    ms: u64,
) -> Option<Vec<(u64, Change)>>
    ensures keys { (q : ℕ) → is_some (get nat_cmp held.new q) ≡ is_some (get nat_cmp held.old q) }
    ensures ticks { (types : List ServedShape) (m : History) (before : Connections) (had_ended cut : ℕ → Bool) → ApiRepresents api.now types m → ConnectionsRepresent types (found_in held.old had_ended cut) before
        → Lists ids.now before → TicksAll types ms before (found_in held.new had_ended cut) result }
{
    let mut changes = Vec::new(alloc);
    let mut some_ran_out = false;
    for id in ids {
        let out_of_memory = tick_at(alloc, api, held, &mut changes, *id, ms);
        some_ran_out = some_ran_out || out_of_memory;
    }
    if some_ran_out { None } else { Some(changes) }
}

/// Drops the ids of those that are no longer open.
pub(crate) fn drop_ended(ids: &mut BTreeSet<u64>, held: &BTreeMap<u64, Connection>)
    ensures { ids.new.keys ≡ filter (λ id. unwrap_or (option_map is_open_in (get nat_cmp held.now id)) false) ids.old.keys }
{
    ids.retain(|id| open_at(held, *id).unwrap_or(false));
}

/// Whether a connection is open, if it is held.
fn open_at(held: &BTreeMap<u64, Connection>, id: u64) -> Option<bool>
    ensures { result ≡ option_map is_open_in (get nat_cmp held.now id) }
{
    let connection = held.get(&id)?;
    Some(is_open(connection))
}
