//! The turns of connections: what watches write at a pump or a tick, and when one is dead. The watch itself stands in
//! `watching`.

ghost use Rattle.std.specs.Prelude.{◌≡◌, List, None, Some, true, is_none, IfOk, IfSome, OnErr};
ghost use Rattle.api_types.specs.TypesFile.{ServedShape};
ghost use Rattle.history.specs.History.{History};
ghost use Rattle.verbs.specs.Views.{ApiRepresents};
ghost use Rattle.httpedge.specs.Connections as model;
ghost use Rattle.httpedge.specs.Connections.{ended, with_phase};
ghost use Rattle.httpedge.specs.ConnectionViews.{ConnectionRepresents, is_watching_in, phase_in};
ghost use Rattle.httpedge.specs.Effects.{change_between, lines_by};
ghost use Rattle.httpedge.specs.SharedViews.{SharedRepresents};
ghost use Rattle.httpedge.specs.Steps.{killed_or_ticked, with_turn, writes_at};
ghost use Rattle.httpedge.specs.Watches.{pumped, ticked};

use crate::connection::Connection;
use crate::effect::Change;
use crate::out::Out;
use crate::shared::Shared;
use std::alloc::Global;
use std::mem;
use verbs::{Api, Fault};

/// A connection at a pump; what that did. Out of memory, a watch is dead. Any other stays as it is.
pub(crate) fn pump_on(
    alloc: Global,
    shared: &mut Shared,
    connection: &mut Connection,
    max: usize,
) -> Result<Change, Fault>
    ensures ok { (types : List ServedShape) (m : History) (c : model.Connection) → SharedRepresents shared.old types m → ConnectionRepresents types connection.old c
        → IfOk result (λ change. (change ≡ change_between (Some c) (Some (with_turn (pumped m max) c)) (lines_by (pumped m max) c.phase) None) × ConnectionRepresents types connection.new (with_turn (pumped m max) c)) }
    ensures killed { (types : List ServedShape) (c : model.Connection) → ConnectionRepresents types connection.old c → OnErr result (ConnectionRepresents types connection.new (with_phase c ended)) }
    ensures watched { OnErr result (is_watching_in connection.old ≡ true) }
    ensures serves { (types : List ServedShape) (m : History) → SharedRepresents shared.old types m → SharedRepresents shared.new types m }
{
    match connection {
        Connection::Watch(watch, out) => match watch.pump(alloc, shared, out, max) {
            Ok(change) => {
                if !change.has_ended {
                    return Ok(change);
                }
                *connection = Connection::Ended(mem::replace(out, Out::empty(alloc)));
                Ok(change)
            }
            Err(fault) => {
                *connection = Connection::Ended(mem::replace(out, Out::empty(alloc)));
                Err(fault)
            }
        },
        Connection::Head(_) => Ok(Change::none()),
        Connection::Body(_, _) => Ok(Change::none()),
        Connection::Ended(_) => Ok(Change::none()),
        Connection::Closed(_) => Ok(Change::none()),
    }
}

/// A connection at a tick; what that did, unless it was out of memory: then it is dead. One that doesn't watch stays as
/// it is.
pub(crate) fn tick_on(
    alloc: Global,
    api: &Api,
    connection: &mut Connection,
    ms: u64,
) -> Option<Change>
    ensures ticks { (types : List ServedShape) (m : History) (c : model.Connection) → ApiRepresents api.now types m → ConnectionRepresents types connection.old c
        → ConnectionRepresents types connection.new (killed_or_ticked types ms (is_none result) c) }
    ensures did { (types : List ServedShape) (m : History) (c : model.Connection) → ApiRepresents api.now types m → ConnectionRepresents types connection.old c
        → IfSome result (λ change. change ≡ change_between (Some c) (Some (with_turn (ticked types ms) c)) (lines_by (ticked types ms) c.phase) None) }
    ensures due { (types : List ServedShape) (c : model.Connection) → ConnectionRepresents types connection.old c → is_none result ≡ true → writes_at ms c.phase ≡ true }
{
    match connection {
        Connection::Watch(watch, out) => match watch.tick(alloc, api, out, ms) {
            Ok(change) => {
                if !change.has_ended {
                    return Some(change);
                }
                *connection = Connection::Ended(mem::replace(out, Out::empty(alloc)));
                Some(change)
            }
            Err(_) => {
                *connection = Connection::Ended(mem::replace(out, Out::empty(alloc)));
                None
            }
        },
        Connection::Head(_) => Some(Change::none()),
        Connection::Body(_, _) => Some(Change::none()),
        Connection::Ended(_) => Some(Change::none()),
        Connection::Closed(_) => Some(Change::none()),
    }
}

/// Whether a connection's turn at a tick is due.
pub(crate) fn is_due(connection: &Connection, ms: u64) -> bool
    ensures { result ≡ writes_at ms (phase_in connection.now) }
{
    match connection {
        Connection::Watch(watch, _) => watch.is_due(ms),
        Connection::Head(_) | Connection::Body(_, _) => false,
        Connection::Ended(_) | Connection::Closed(_) => false,
    }
}

/// A watch is dead: nothing more is written on it.
pub(crate) fn kill_watch(alloc: Global, connection: &mut Connection)
    ensures { (types : List ServedShape) (c : model.Connection) → is_watching_in connection.old ≡ true → ConnectionRepresents types connection.old c → ConnectionRepresents types connection.new (with_phase c ended) }
{
    match connection {
        Connection::Watch(_, out) => {
            *connection = Connection::Ended(mem::replace(out, Out::empty(alloc)));
        }
        Connection::Head(_) | Connection::Body(_, _) => {}
        Connection::Ended(_) | Connection::Closed(_) => {}
    }
}
