//! A server and a client in one process: what happens at each event, and what the client then reports. A function does
//! nothing; what it promises is the law.
//!
//! `specs/Tasks` says what a run is asked for; `specs/World` what an event makes of the hub, the client and the connection
//! between them; `specs/Reports` when the client reports, and when a report is right; `specs/Headline` that all are;
//! `specs/Moves` what happens next for the client to come to the server's revision.
#![tactic(auto)]

mod listing;
mod runs;

ghost use Rattle.std.specs.Prelude.{◌≡◌, ℕ, true, IfSome, List, None};
ghost use Rattle.std.specs.List.{All};
ghost use Rattle.indexer.specs.Names.{are_distinct};
ghost use Rattle.lists.specs.TokenLaws.{IsText};
ghost use Rattle.api_types.specs.Named.{has_names};
ghost use Rattle.api_types.specs.TypesFile.{ServedShape, names_differ};
ghost use Rattle.httpedge.specs.Runs as runs;
ghost use Rattle.httpedge.specs.Steps.{State};
ghost use Rattle.world_laws.specs.Headline.{Headline, OneHistory};
ghost use Rattle.world_laws.specs.Tasks.{IsStillTask, IsTask, RunSettings, Task, settings_fault};
ghost use Rattle.world_laws.specs.Reading.{client_reads, server_reads};
ghost use Rattle.world_laws.specs.Reports.{Report, Runs};
ghost use Rattle.world_laws.specs.World.{Steps, World, WorldEvent};

pub use listing::pages_are_answered;
pub use runs::each_runs;

/// Events lead to one world at most, with one list of reports.
pub fn one_world()
    ensures { (task : Task) (i : ℕ) (w v u : World) (es : List WorldEvent) (reports others : List Report) → Runs task i w es v reports → Runs task i w es u others → (v ≡ u) × (reports ≡ others) }
{
    wireclient::one_reading();
}

/// Each event leads on from each world: the bytes that are read in it, by the server and by the client, are these, as they
/// lie in memory. So with `one_world` each event leads to one world.
pub fn each_happens(server: &[u8], client: &[u8])
    ensures { (task : Task) (w : World) (e : WorldEvent) → IfSome (server_reads task w e) (λ bytes. bytes ≡ server.now) → IfSome (client_reads w e) (λ bytes. bytes ≡ client.now) → (v : World) × Steps task w e v }
{
    httpedge::each_steps(server);
    wireclient::each_reads(client);
    wireclient::prefixes_stand();
}

/// Of every run of events from the start each report of the client is right, and so is what it keeps.
pub fn headline()
    ensures { Headline }
{
    wireclient::one_reading();
    wireclient::prefixes_stand();
    wire_laws::watches_are_read();
    wire_laws::refusals_are_read();
    reflector::follows_the_server();
    httpedge::machines_grow();
    httpedge::machines_last();
}

/// Of every run of events from the start all reports are states of one history, which is the machine's at the end.
pub fn one_history()
    ensures { OneHistory }
{
    headline();
    httpedge::machines_grow();
}

/// Settings without a fault make one task, over types with lawful names of which no two are the same; and a task has
/// no fault in its settings.
pub fn tasks_are_made()
    ensures made { (types : List ServedShape) (names : List (List ℕ)) (settings : RunSettings) → All (λ t. has_names t ≡ true) types → names_differ types ≡ true → IsText settings.selector
        → settings_fault types names settings ≡ None → (task : Task) × IsTask types task × (task.settings ≡ settings) }
    ensures needed { (types : List ServedShape) (names : List (List ℕ)) (task : Task) → IsTask types task → are_distinct names ≡ true → settings_fault types names task.settings ≡ None }
    ensures one { (types : List ServedShape) (task other : Task) → IsTask types task → IsTask types other → task.settings ≡ other.settings → task ≡ other }
{}

/// Whatever happens to a hub, a task over the types that it serves stays one: of the task's type only the shape may become another.
pub fn tasks_last()
    ensures { (s t : State) (hs : List runs.Action) (task : Task) → IsStillTask s.types task → runs.Runs s hs t → IsStillTask t.types task }
{
    httpedge::machines_grow();
}
