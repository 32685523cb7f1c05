//! One connection: its state, and how an event changes it. Its watch stands in `watching` and `turns`, all connections
//! in `connections`.

ghost use Rattle.std.specs.Prelude.{◌≡◌, ◌++◌, ℕ, List, None, Some, true, Ok, IfOk, OnErr, is_none, option_map};
ghost use Rattle.api_types.specs.TypesFile.{ServedShape};
ghost use Rattle.history.specs.History.{History};
ghost use Rattle.api_request.specs.Calls.{Answer};
ghost use Rattle.api_request.specs.Reasons.{code_of};
ghost use Rattle.api_request.specs.Views.{denied_of};
ghost use Rattle.verbs.specs.Views.{ApiRepresents};
ghost use Rattle.httpedge.specs.ChangeViews.{MakesRepresented, takes_memory_on};
ghost use Rattle.httpedge.specs.Connections as model;
ghost use Rattle.httpedge.specs.Connections.{Connections, ended, gone, open_count, new_connection, with_phase, with_taken, with_written};
ghost use Rattle.httpedge.specs.ConnectionViews.{Becomes, ConnectionRepresents, ReceivesRepresented, has_ended_in, is_open_in, is_waiting_in, out_in, had_ended_if_over_in, phase_in};
ghost use Rattle.httpedge.specs.Effects.{answer_change, change_between, no_change, opening_status, unasked};
ghost use Rattle.httpedge.specs.HubViews.{event_of};
ghost use Rattle.httpedge.specs.NextTurns.{turn_in};
ghost use Rattle.requests.specs.ReadBufferViews.{buffered};
ghost use Rattle.requests.specs.Pendings.{Awaits, Finds};
ghost use Rattle.httpedge.specs.SharedViews.{SharedRepresents};
ghost use Rattle.httpedge.specs.Steps.{answered, opening};
ghost use Rattle.httpedge.specs.declared.event.ConnectionInput.TheVariants as changes;
ghost use Rattle.requests.specs.Replies.{answer_bytes, refusal_reply as refusal_bytes};
ghost use Rattle.answers.specs.Views.{watch_from};

use crate::answering::{CallReply, serve};
use crate::effect::{Change, Done};
use crate::event::{ConnectionInput, Event};
use crate::out::Out;
use crate::shared::Shared;
use crate::turns::pump_on;
use crate::watching::Watch;
use api_request::Denied;
use requests::{Pending, Progress, ReadBuffer, Refusal, ask, ask_on, refusal_reply};
use std::alloc::{AllocError, Global};
use std::mem;
use verbs::{Api, Fault};

const MAX_OPEN: usize = 1_024;

/// What has become of a connection.
#[derive(Debug, Drop)]
pub(crate) enum Connection {
    /// The head of its request hasn't come whole.
    Head(ReadBuffer),
    /// The body of its request hasn't come whole: all that came, and what its head said.
    Body(ReadBuffer, Pending),
    /// It watches.
    Watch(Watch, Out),
    /// It has ended.
    Ended(Out),
    /// It is over: its peer has gone, or it had ended before that and all was taken. So it had ended, or not.
    Closed(bool),
}

/// A new connection where `count` are open, and what its opening did; past the limit it is refused.
pub(crate) fn opening(alloc: Global, count: usize) -> Result<(Connection, Change), AllocError>
    ensures represents { (types : List ServedShape) (all : Connections) → count ≡ open_count all → IfOk result (λ p. ConnectionRepresents types p.0 (opening all)) }
    ensures did { (all : Connections) → count ≡ open_count all → IfOk result (λ p. p.1 ≡ change_between None (Some (opening all)) 0 (opening_status all)) }
{
    if count < MAX_OPEN {
        return Ok((Connection::Head(ReadBuffer::new(alloc)), Change::none()));
    }
    refused(alloc, Refusal::TooManyConnections.denied())
}

/// A connection on which nothing was written gets the reply of a refusal, and has ended; what that did.
fn refused(alloc: Global, denied: Denied) -> Result<(Connection, Change), AllocError>
    ensures represents { (types : List ServedShape) → IfOk result (λ p. ConnectionRepresents types p.0 (with_written new_connection (refusal_bytes (denied_of denied)) ended)) }
    ensures did { IfOk result (λ p. p.1 ≡ answer_change (refusal_bytes (denied_of denied)) (code_of denied.reason) true) }
{
    let status = Some(denied.reason.code());
    let reply = refusal_reply(alloc, denied)?;
    let change = Change {
        bytes: reply.len(),
        lines: 0,
        status,
        has_ended: true,
    };
    Ok((Connection::Ended(Out::of(reply)), change))
}

pub(crate) fn is_open(connection: &Connection) -> bool
    ensures { result ≡ is_open_in connection.now }
{
    match connection {
        Connection::Head(_) | Connection::Body(_, _) | Connection::Watch(_, _) => true,
        Connection::Ended(_) | Connection::Closed(_) => false,
    }
}

pub(crate) fn is_waiting(connection: &Connection) -> bool
    ensures { result ≡ is_waiting_in connection.now }
{
    match connection {
        Connection::Head(_) | Connection::Body(_, _) => true,
        Connection::Watch(_, _) | Connection::Ended(_) | Connection::Closed(_) => false,
    }
}

pub(crate) fn has_ended(connection: &Connection) -> bool
    ensures { result ≡ has_ended_in connection.now }
{
    match connection {
        Connection::Head(_) | Connection::Body(_, _) | Connection::Watch(_, _) => false,
        Connection::Ended(_) => true,
        Connection::Closed(had_ended) => *had_ended,
    }
}

/// Whether it had ended, where it is over: its peer has gone, or it has ended and all is taken.
pub(crate) fn had_ended_if_over(connection: &Connection) -> Option<bool>
    ensures { result ≡ had_ended_if_over_in connection.now }
{
    match connection {
        Connection::Head(_) | Connection::Body(_, _) | Connection::Watch(_, _) => None,
        Connection::Ended(out) => {
            if out.left().is_empty() {
                Some(true)
            } else {
                None
            }
        }
        Connection::Closed(had_ended) => Some(*had_ended),
    }
}

/// What was written on a connection and not yet taken.
pub(crate) fn out_of(connection: &Connection) -> &[u8]
    ensures { result.now ≡ out_in connection.now }
{
    match connection {
        Connection::Watch(_, out) => out.left(),
        Connection::Ended(out) => out.left(),
        Connection::Head(_) | Connection::Body(_, _) | Connection::Closed(_) => &[],
    }
}

/// The event that gives a connection its next turn, by its id, the current revision and the last tick.
pub(crate) fn next_turn(
    connection: &Connection,
    id: u64,
    current: u64,
    last_tick: u64,
) -> Option<Event>
    ensures { option_map event_of result ≡ turn_in id current last_tick (phase_in connection.now) }
{
    match connection {
        Connection::Watch(watch, _) => watch.next_turn(id, current, last_tick),
        Connection::Head(_) | Connection::Body(_, _) => None,
        Connection::Ended(_) | Connection::Closed(_) => None,
    }
}

/// Takes the first n bytes of what is out on a connection, at most all.
pub(crate) fn take_from(alloc: Global, connection: &mut Connection, n: usize)
    ensures { (types : List ServedShape) (c : model.Connection) → ConnectionRepresents types connection.old c → ConnectionRepresents types connection.new (with_taken c n) }
{
    match connection {
        Connection::Watch(_, out) => out.take(alloc, n),
        Connection::Ended(out) => out.take(alloc, n),
        Connection::Head(_) | Connection::Body(_, _) | Connection::Closed(_) => {}
    }
}

/// Its peer goes.
pub(crate) fn go_from(connection: &mut Connection)
    ensures { (types : List ServedShape) (c : model.Connection) → ConnectionRepresents types connection.new (with_phase c (gone (has_ended_in connection.old))) }
{
    let had_ended = has_ended(connection);
    *connection = Connection::Closed(had_ended);
}

/// What becomes of a connection with the answer of its call, after this tick, and what that did.
fn answered(served: CallReply, last_tick: u64) -> (Connection, Change)
    ensures represents { (types : List ServedShape) (a : Answer) → served.bytes.items ≡ answer_bytes a a.watch → option_map watch_from served.watch ≡ a.watch
        → ConnectionRepresents types result.0 (answered last_tick new_connection a) }
    ensures did { result.1 ≡ answer_change served.bytes.items served.status (is_none served.watch) }
{
    let CallReply {
        bytes,
        status,
        watch,
    } = served;
    let change = Change {
        bytes: bytes.len(),
        lines: 0,
        status: Some(status),
        has_ended: watch.is_none(),
    };
    let out = Out::of(bytes);
    match watch {
        None => (Connection::Ended(out), change),
        Some(from) => (
            Connection::Watch(Watch::begun(last_tick, from), out),
            change,
        ),
    }
}

/// What becomes of a connection by what its bytes ask, and what that did.
fn decided(
    alloc: Global,
    api: &mut Api,
    prefix: ReadBuffer,
    decision: Progress,
    last_tick: u64,
) -> Result<(Connection, Done), Fault>
    ensures ok { (types : List ServedShape) (m : History) → ApiRepresents api.old types m → Finds types (buffered prefix) decision → IfOk result (λ p. Becomes types m last_tick (buffered prefix) p.0 p.1 api.new) }
    ensures err { (types : List ServedShape) (m : History) → ApiRepresents api.old types m → OnErr result (ApiRepresents api.new types m) }
{
    match decision {
        Progress::Pending(pending) => {
            let done = Done::unasked(Change::none());
            Ok((Connection::Body(prefix, pending), done))
        }
        Progress::Refused(denied) => {
            let (connection, change) = refused(alloc, denied)?;
            Ok((connection, Done::asked(change, prefix)))
        }
        Progress::Call(call) => {
            let call = call.at_tick(last_tick);
            let served = serve(alloc, api, &call)?;
            let (connection, change) = answered(served, last_tick);
            Ok((connection, Done::asked(change, prefix)))
        }
    }
}

/// What becomes of a connection whose head hadn't come whole, by all its bytes, and what that did.
fn receive_head(
    alloc: Global,
    api: &mut Api,
    mut prefix: ReadBuffer,
    last_tick: u64,
) -> Result<(Connection, Done), Fault>
    ensures ok { (types : List ServedShape) (m : History) → ApiRepresents api.old types m → IfOk result (λ p. Becomes types m last_tick (buffered prefix) p.0 p.1 api.new) }
    ensures err { (types : List ServedShape) (m : History) → ApiRepresents api.old types m → OnErr result (ApiRepresents api.new types m) }
{
    let end = prefix.find_end();
    match ask(alloc, api.routes(), api.types(), prefix.bytes(), end)? {
        None => Ok((Connection::Head(prefix), Done::unasked(Change::none()))),
        Some(decision) => decided(alloc, api, prefix, decision, last_tick),
    }
}

/// What becomes of a connection whose body hadn't come whole, by all its bytes, and what that did.
fn receive_body(
    alloc: Global,
    api: &mut Api,
    prefix: ReadBuffer,
    pending: Pending,
    last_tick: u64,
) -> Result<(Connection, Done), Fault>
    ensures ok { (types : List ServedShape) (m : History) (before more : List ℕ) → ApiRepresents api.old types m → buffered prefix ≡ before ++ more → Awaits types before pending
        → IfOk result (λ p. Becomes types m last_tick (buffered prefix) p.0 p.1 api.new) }
    ensures err { (types : List ServedShape) (m : History) → ApiRepresents api.old types m → OnErr result (ApiRepresents api.new types m) }
{
    let decision = ask_on(alloc, pending, prefix.bytes())?;
    decided(alloc, api, prefix, decision, last_tick)
}

fn receive(
    alloc: Global,
    api: &mut Api,
    connection: Connection,
    bytes: &[u8],
    last_tick: u64,
) -> Result<(Connection, Done), Fault>
    ensures ok { (types : List ServedShape) (m : History) (c : model.Connection) → ApiRepresents api.old types m → ConnectionRepresents types connection c → IfOk result (λ p. ReceivesRepresented types m last_tick c bytes.now p.0 p.1 api.new) }
    ensures err { (types : List ServedShape) (m : History) → ApiRepresents api.old types m → OnErr result (ApiRepresents api.new types m) }
    ensures waited { OnErr result (is_waiting_in connection ≡ true) }
{
    match connection {
        Connection::Head(prefix) => {
            let prefix = prefix.with(bytes)?;
            receive_head(alloc, api, prefix, last_tick)
        }
        Connection::Body(prefix, pending) => {
            let prefix = prefix.with(bytes)?;
            receive_body(alloc, api, prefix, pending, last_tick)
        }
        Connection::Watch(watch, out) => Ok((
            Connection::Watch(watch, out),
            Done::unasked(Change::none()),
        )),
        Connection::Ended(out) => Ok((Connection::Ended(out), Done::unasked(Change::none()))),
        Connection::Closed(had_ended) => Ok((
            Connection::Closed(had_ended),
            Done::unasked(Change::none()),
        )),
    }
}

/// Bytes come on a connection; what that did. Out of memory, it is dead. One that waits for no bytes needs no memory.
/// What they ask may change what watches send, so that no turn is the last one.
pub(crate) fn receive_on(
    alloc: Global,
    shared: &mut Shared,
    connection: &mut Connection,
    bytes: &[u8],
    last_tick: u64,
) -> Result<Done, Fault>
    ensures ok { (types : List ServedShape) (m : History) (c : model.Connection) → SharedRepresents shared.old types m → ConnectionRepresents types connection.old c → IfOk result (λ did. ReceivesRepresented types m last_tick c bytes.now connection.new did shared.new.api) }
    ensures forgotten { shared.new.last ≡ None }
    ensures err { (types : List ServedShape) (m : History) → SharedRepresents shared.old types m → OnErr result (SharedRepresents shared.new types m) }
    ensures waited { OnErr result (is_waiting_in connection.old ≡ true) }
    ensures killed { (types : List ServedShape) (c : model.Connection) → ConnectionRepresents types connection.old c → OnErr result (ConnectionRepresents types connection.new (with_phase c ended)) }
{
    shared.last = None;
    let killed = Connection::Ended(Out::empty(alloc));
    let was = mem::replace(connection, killed);
    let received = receive(alloc, &mut shared.api, was, bytes, last_tick)?;
    let (became, done) = received;
    *connection = became;
    Ok(done)
}

/// Changes a connection; what that did. Out of memory, one that waits is dead where bytes come on it, and a watch where
/// it is pumped.
pub(crate) fn change(
    alloc: Global,
    shared: &mut Shared,
    connection: &mut Connection,
    what: ConnectionInput,
    last_tick: u64,
) -> Result<Done, Fault>
    ensures ok { (types : List ServedShape) (m : History) (c : model.Connection) → SharedRepresents shared.old types m → ConnectionRepresents types connection.old c → IfOk result (λ did. MakesRepresented types m last_tick what.entry c connection.new did shared.new) }
    ensures err { (types : List ServedShape) (m : History) → SharedRepresents shared.old types m → OnErr result (SharedRepresents shared.new types m) }
    ensures could { (types : List ServedShape) (c : model.Connection) → ConnectionRepresents types connection.old c → OnErr result (takes_memory_on what.entry c.phase ≡ true) }
    ensures killed { (types : List ServedShape) (c : model.Connection) → ConnectionRepresents types connection.old c → OnErr result (ConnectionRepresents types connection.new (with_phase c ended)) }
    ensures gone { what.entry ≡ changes.Gone → result ≡ Ok (unasked no_change) }
{
    match what {
        ConnectionInput::Bytes(bytes) => receive_on(alloc, shared, connection, bytes, last_tick),
        ConnectionInput::Lines(max) => {
            let change = pump_on(alloc, shared, connection, max)?;
            Ok(Done::unasked(change))
        }
        ConnectionInput::Gone => {
            go_from(connection);
            Ok(Done::unasked(Change::none()))
        }
    }
}
