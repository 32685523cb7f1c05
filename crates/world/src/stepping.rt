//! A run that is taken event by event: what each event adds to what the run shows. Whole runs stand in `running`.

ghost use Rattle.std.specs.Prelude.{◌≡◌, ◌≢◌, ◌&&◌, ◌++◌, ℕ, false, Err, IfOk, None, Option, if◌then◌else◌, is_none};
ghost use Rattle.httpedge.specs.Connections.{written_on};
ghost use Rattle.reflector.specs.Client.{kept};
ghost use Rattle.reflector.specs.InformerViews.{indexes_in, names_in};
ghost use Rattle.world_laws.specs.Tasks.{Task};
ghost use Rattle.world_laws.specs.World as worlds;
ghost use Rattle.world.specs.FaultViews.{Answers};
ghost use Rattle.world.specs.Views.{event_seen};
ghost use Rattle.world.specs.Represents.{WorldRepresents, setup_in};
ghost use Rattle.world.specs.Stepping.{Refuses, ShowsStep, added, joined_on, opens_own};
ghost use Rattle.world.specs.Stepping as stepping;

use crate::event::WorldEvent;
use crate::extents::{added_since, ended_since};
use crate::fault::{RunFault, WorldFault};
use crate::link::Link;
use crate::refusal::Refusal;
use crate::reporting::report;
use crate::step::Step;
use crate::world::World;
use indexer::IndexBy;

/// Whether an event opens a connection for a request of its own.
fn opens_own(event: &WorldEvent) -> bool
    ensures { result ≡ opens_own (event_seen event.now) }
{
    match event {
        WorldEvent::Request(_) => true,
        WorldEvent::ClientSend => true,
        WorldEvent::Reconcile => true,
        WorldEvent::Other(_) => false,
        WorldEvent::ToServer(_) => false,
        WorldEvent::ToClient(_) => false,
        WorldEvent::Cut => false,
        WorldEvent::Restart => false,
    }
}

/// This id, where it is meant.
fn if_meant(is_meant: bool, id: Option<u64>) -> Option<u64>
    ensures { result ≡ (if is_meant then id else None) }
{
    if is_meant { id } else { None }
}

/// The connection that an event opened for a request of its own, where this id was the next: none if it was refused.
fn opened_by(event: &WorldEvent, refused: Option<Refusal>, next: Option<u64>) -> Option<u64>
    ensures { (why : Option stepping.Refusal) → Refuses refused why → result ≡ (if opens_own (event_seen event.now) && is_none why then next else None) }
{
    match refused {
        Some(_) => None,
        None => if_meant(opens_own(event), next),
    }
}

/// What an event wrote on a connection, joined to what was written on it before, is all that is written on it.
pub fn steps_join()
    ensures { (task : Task) (w : worlds.World) (e : worlds.WorldEvent) (v : worlds.World) → worlds.Steps task w e v → (id : ℕ)
        → written_on v.hub.connections id ≡ written_on w.hub.connections id ++ joined_on id (added w.hub v.hub) }
{
    httpedge::written_stays();
}

fn step_of<I: IndexBy, L: Link>(
    world: &mut World<I>,
    number: usize,
    event: &WorldEvent,
    link: &mut L,
) -> Result<Step, RunFault>
    ensures steps { (task : Task) (w : worlds.World) → WorldRepresents (λ b s. I.keys b s) task (kept w.client.cache) world.old w
        → IfOk result (λ x. (v : worlds.World) × worlds.Steps task w (event_seen event.now) v × WorldRepresents (λ b s. I.keys b s) task (kept v.client.cache) world.new v
        × ShowsStep (λ b s. I.keys b s) (indexes_in world.old.client) (names_in world.old.client) task number w (event_seen event.now) v x) }
    ensures setup { setup_in world.new.client ≡ setup_in world.old.client }
    ensures link { L.may_fail ≡ false → result ≢ Err RunFault.Link }
{
    let next = world.server.next_id();
    let before = world.client.revision();
    let refused = world.take(event, link)?;
    let report = report(world, before, number)?;
    let server = &world.server;
    let written = added_since(world.alloc, &server.recording, &server.noted)?;
    let ended = ended_since(world.alloc, &server.recording, &server.noted)?;
    Ok(Step {
        refused,
        opened: opened_by(event, refused, next),
        written,
        ended,
        report,
    })
}

impl<I: IndexBy> World<I> {
    /// Takes the next event, which has this number: what it adds to what the run shows. An event that can't happen changes
    /// nothing.
    pub fn step<L: Link>(
        &mut self,
        number: usize,
        event: &WorldEvent,
        link: &mut L,
    ) -> Result<Step, WorldFault>
        ensures steps { (task : Task) (w : worlds.World) → WorldRepresents (λ b s. I.keys b s) task (kept w.client.cache) self.old w
            → IfOk result (λ x. (v : worlds.World) × worlds.Steps task w (event_seen event.now) v × WorldRepresents (λ b s. I.keys b s) task (kept v.client.cache) self.new v
            × ShowsStep (λ b s. I.keys b s) (indexes_in self.old.client) (names_in self.old.client) task number w (event_seen event.now) v x) }
        ensures setup { setup_in self.new.client ≡ setup_in self.old.client }
        ensures settings { Answers None result }
        ensures link { L.may_fail ≡ false → result ≢ Err WorldFault.Link }
    {
        Ok(step_of(self, number, event, link)?)
    }
}
