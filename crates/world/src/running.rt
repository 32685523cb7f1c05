//! Runs of events, from nothing to a trace.

ghost use Rattle.std.specs.Prelude.{◌≡◌, ◌≢◌, ◌++◌, ℕ, List, false, Err, IfOk, OnOk, map, string_bytes};
ghost use Rattle.std.specs.Option.{option_to_list};
ghost use Rattle.api_types.specs.Served.{types_view};
ghost use Rattle.reflector.specs.Client.{Objects, kept};
ghost use Rattle.reflector.specs.InformerViews.{indexes_in, names_in};
ghost use Rattle.world_laws.specs.Reports as reported;
ghost use Rattle.world_laws.specs.Tasks.{IsTask, Task, settings_fault};
ghost use Rattle.world_laws.specs.World as worlds;
ghost use Rattle.world.specs.FaultViews.{Answers};
ghost use Rattle.world.specs.Views.{event_seen, settings_seen};
ghost use Rattle.world.specs.Shown.{AllShow, ShowsRun, Traces};
ghost use Rattle.world.specs.Represents.{WorldRepresents, setup_in};
ghost use Rattle.world.specs.Traces.{IsTraceOf};

use crate::event::WorldEvent;
use crate::fault::{RunFault, WorldFault};
use crate::link::{Link, OverMemory};
use crate::reporting::report;
use crate::settings::Settings;
use crate::trace::{Report, Trace};
use crate::world::World;
use api_types::Types;
use indexer::IndexBy;
use std::alloc::Global;

/// Keeps a report, if there is one.
pub(crate) fn push_report(reports: &mut Vec<Report>, report: Option<Report>) -> Result<(), RunFault>
    ensures pushed { OnOk result (reports.new.items ≡ reports.old.items ++ option_to_list report) }
    ensures link { result ≢ Err RunFault.Link }
{
    if let Some(report) = report {
        reports.push(report)?;
    }
    Ok(())
}

/// Takes the events in order: the reports of them.
fn take_all<I: IndexBy, L: Link>(
    world: &mut World<I>,
    events: &[WorldEvent],
    link: &mut L,
) -> Result<Vec<Report>, RunFault>
    ensures runs { (task : Task) (w : worlds.World) → WorldRepresents (λ b s. I.keys b s) task (kept w.client.cache) world.old w
        → IfOk result (λ made. (v : worlds.World) × (rs : List reported.Report) × reported.Runs task 1 w (map event_seen events.now) v rs × WorldRepresents (λ b s. I.keys b s) task (kept v.client.cache) world.new v
        × AllShow (λ b s. I.keys b s) (indexes_in world.old.client) (names_in world.old.client) task.settings.label made.items rs) }
    ensures link { L.may_fail ≡ false → result ≢ Err RunFault.Link }
{
    let mut reports = Vec::new(world.alloc);
    for (index, event) in events.iter().enumerate() {
        let before = world.client.revision();
        world.take(event, link)?;
        let made = report(world, before, index + 1)?;
        push_report(&mut reports, made)?;
    }
    Ok(reports)
}

/// What the world shows, with these reports.
fn trace<I: IndexBy>(world: &World<I>, reports: Vec<Report>) -> Result<Trace, RunFault>
    ensures traces { (task : Task) (o : Objects) (w : worlds.World) (indexes : List I) (names : List (List ℕ)) (rs : List reported.Report) → WorldRepresents (λ b s. I.keys b s) task o world.now w
        → AllShow (λ b s. I.keys b s) indexes names task.settings.label reports.items rs → IfOk result (λ t. Traces (λ b s. I.keys b s) indexes names task.settings.label w rs t) }
    ensures link { result ≢ Err RunFault.Link }
{
    let written = world.server.replies()?;
    let requested = Vec::from_slice(world.alloc, &world.requested)?;
    Ok(Trace {
        written,
        requested,
        reports,
    })
}

/// Runs the events over a server without connections and objects and a client that keeps nothing; the bytes between the
/// two go over the link. What is answered is a trace of the events (`IsTraceOf`), and the client's own copies.
pub fn run_over<I: IndexBy, L: Link>(
    alloc: Global,
    types: Types,
    settings: Settings,
    indexes: Vec<I>,
    events: &[WorldEvent],
    link: &mut L,
) -> Result<Trace, WorldFault>
    ensures runs { IfOk result (λ t. IsTraceOf (λ b s. I.keys b s) indexes.items (map (λ b. I.title b) indexes.items) (types_view types) (settings_seen settings) (map event_seen events.now) t) }
    ensures client { IfOk result (λ t. ShowsRun (λ b s. I.keys b s) indexes.items (map (λ b. I.title b) indexes.items) (types_view types) (settings_seen settings) (map event_seen events.now) t) }
    ensures settings { Answers (settings_fault (types_view types) (map (λ b. I.title b) indexes.items) (settings_seen settings)) result }
    ensures link { L.may_fail ≡ false → result ≢ Err WorldFault.Link }
{
    types.types_are_of_objects();
    world_laws::headline();
    world_laws::one_history();
    let mut world = World::new(alloc, types, settings, indexes)?;
    let reports = take_all(&mut world, events, link)?;
    Ok(trace(&world, reports)?)
}

/// The same over memory, for boxed indexes.
pub fn run(
    alloc: Global,
    types: Types,
    settings: Settings,
    indexes: Vec<Box<dyn IndexBy>>,
    events: &[WorldEvent],
) -> Result<Trace, WorldFault>
    ensures runs { IfOk result (λ t. IsTraceOf (λ b s. ⟦<Box<dyn IndexBy> as IndexBy>⟧.keys b s) indexes.items (map (λ b. ⟦<Box<dyn IndexBy> as IndexBy>⟧.title b) indexes.items) (types_view types) (settings_seen settings) (map event_seen events.now) t) }
    ensures client { IfOk result (λ t. ShowsRun (λ b s. ⟦<Box<dyn IndexBy> as IndexBy>⟧.keys b s) indexes.items (map (λ b. ⟦<Box<dyn IndexBy> as IndexBy>⟧.title b) indexes.items) (types_view types) (settings_seen settings) (map event_seen events.now) t) }
    ensures settings { Answers (settings_fault (types_view types) (map (λ b. ⟦<Box<dyn IndexBy> as IndexBy>⟧.title b) indexes.items) (settings_seen settings)) result }
    ensures link { result ≢ Err WorldFault.Link }
{
    run_over(alloc, types, settings, indexes, events, &mut OverMemory)
}
