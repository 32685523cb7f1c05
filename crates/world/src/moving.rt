//! What happens next for the client to come to the server's revision, and the moves until it is there. What an event makes of
//! both stands in `world`.

ghost use Rattle.std.specs.Prelude.{◌≡◌, ◌≢◌, ◌-◌, suc, Err, IfOk, None, Option, false, option_map};
ghost use Rattle.reflector.specs.Client.{Cache, Objects, SyncPhase, kept, list_revision};
ghost use Rattle.reflector.specs.InformerViews.{indexes_in, names_in};
ghost use Rattle.world_laws.specs.Tasks.{Task};
ghost use Rattle.world_laws.specs.World as worlds;
ghost use Rattle.world_laws.specs.Moves.{is_at, is_old, move_by, move_on, next_move, wait_on};
ghost use Rattle.world.specs.FaultViews.{Answers};
ghost use Rattle.world.specs.Views.{connection_seen, event_seen};
ghost use Rattle.world.specs.Represents.{WorldRepresents, setup_in};
ghost use Rattle.world.specs.Serving.{Serves};
ghost use Rattle.world.specs.Moving.{ShowsMoves};

use crate::connection::ClientConnection;
use crate::event::WorldEvent;
use crate::fault::{RunFault, WorldFault};
use crate::link::Link;
use crate::moves::Moves;
use crate::reporting::report;
use crate::running::push_report;
use crate::server::Server;
use crate::world::World;
use indexer::IndexBy;

/// Whether the client's revision, if it has one, is the server's.
fn is_at(current: u64, revision: Option<u64>) -> bool
    ensures { (cache : Option Cache) → revision ≡ option_map (λ now. now.revision) cache → result ≡ is_at current cache }
{
    match revision {
        Some(revision) => revision == current,
        None => false,
    }
}

/// Whether the client is in the middle of a list of another revision than the server has.
fn is_old(current: u64, list: Option<u64>) -> bool
    ensures { (phase : SyncPhase) → list ≡ list_revision phase → result ≡ is_old current phase }
{
    match list {
        Some(revision) => revision != current,
        None => false,
    }
}

/// The move where all that was written on the client's connection has come, and all of its request: its watch has a turn, or it
/// is cut.
fn wait_on(server: &Server, own: &ClientConnection) -> WorldEvent
    ensures { (w : worlds.World) → Serves server.now w.hub → event_seen result ≡ wait_on w (connection_seen own.now) }
{
    match server.next_turn(own.id) {
        Some(turn) => WorldEvent::Other(turn),
        None => WorldEvent::Cut,
    }
}

/// The move on the client's connection.
fn move_on(server: &Server, own: &ClientConnection) -> WorldEvent
    ensures { (w : worlds.World) → Serves server.now w.hub → event_seen result ≡ move_on w (connection_seen own.now) }
{
    let written = server.written(own.id).len();
    if own.handed < written {
        return WorldEvent::ToClient(written);
    }
    let unsent = own.request.len().saturating_sub(own.sent);
    if unsent > 0 {
        return WorldEvent::ToServer(unsent);
    }
    wait_on(server, own)
}

/// The moves behind so many events, as far as there are any, and as there are no more events than `most` with them.
fn moves_of<I: IndexBy, L: Link>(
    world: &mut World<I>,
    before: usize,
    most: usize,
    link: &mut L,
) -> Result<Moves, RunFault>
    ensures moves { (task : Task) (w : worlds.World) → WorldRepresents (λ b s. I.keys b s) task (kept w.client.cache) world.old w
        → IfOk result (λ x. (v : worlds.World) × WorldRepresents (λ b s. I.keys b s) task (kept v.client.cache) world.new v
        × ShowsMoves (λ b s. I.keys b s) (indexes_in world.old.client) (names_in world.old.client) task (suc before) (most - before) w v x) }
    ensures setup { setup_in world.new.client ≡ setup_in world.old.client }
    ensures link { L.may_fail ≡ false → result ≢ Err RunFault.Link }
{
    let mut events = Vec::new(world.alloc);
    let mut reports = Vec::new(world.alloc);
    for count in before..most {
        let Some(event) = world.next_move() else {
            return Ok(Moves { events, reports });
        };
        let was = world.client.revision();
        world.take(&event, link)?;
        let made = report(world, was, count + 1)?;
        push_report(&mut reports, made)?;
        events.push(event)?;
    }
    Ok(Moves { events, reports })
}

impl<I: IndexBy> World<I> {
    /// The next move where the client isn't at the server's revision.
    fn move_by(&self, current: u64) -> WorldEvent
        ensures { (task : Task) (o : Objects) (w : worlds.World) → WorldRepresents (λ b s. I.keys b s) task o self.now w → current ≡ w.hub.machine.current
            → event_seen result ≡ move_by w w.client.is_awaiting_reply w.connection }
    {
        if !self.client.is_awaiting_reply() {
            return WorldEvent::ClientSend;
        }
        let Some(own) = &self.connection else {
            return WorldEvent::ClientSend;
        };
        if is_old(current, self.client.list_revision()) {
            return WorldEvent::Cut;
        }
        move_on(&self.server, own)
    }

    /// What happens next for the client to come to the server's current revision: none where it is there. Where it awaits no
    /// reply it asks; what was written for it comes to it, its request goes to the server, and its watch has a turn. Where no more
    /// comes of its connection, and in the middle of a list that is past, it is cut.
    pub fn next_move(&self) -> Option<WorldEvent>
        ensures { (task : Task) (o : Objects) (w : worlds.World) → WorldRepresents (λ b s. I.keys b s) task o self.now w → option_map event_seen result ≡ next_move w }
    {
        let Some(current) = self.server.current() else {
            return None;
        };
        if is_at(current, self.client.revision()) {
            return None;
        }
        Some(self.move_by(current))
    }

    /// Makes moves behind so many events, each the next one where it happens, until the client is at the server's current
    /// revision. With them there are at most `most` events: where there are as many, the client may not be there. Nothing is said
    /// of the world after a fault.
    pub fn run_until_current<L: Link>(
        &mut self,
        before: usize,
        most: usize,
        link: &mut L,
    ) -> Result<Moves, WorldFault>
        ensures moves { (task : Task) (w : worlds.World) → WorldRepresents (λ b s. I.keys b s) task (kept w.client.cache) self.old w
            → IfOk result (λ x. (v : worlds.World) × WorldRepresents (λ b s. I.keys b s) task (kept v.client.cache) self.new v
            × ShowsMoves (λ b s. I.keys b s) (indexes_in self.old.client) (names_in self.old.client) task (suc before) (most - before) w v x) }
        ensures setup { setup_in self.new.client ≡ setup_in self.old.client }
        ensures settings { Answers None result }
        ensures link { L.may_fail ≡ false → result ≢ Err WorldFault.Link }
    {
        Ok(moves_of(self, before, most, link)?)
    }
}
