//! Plays the events of a script over a server and a client, and prints what came of it. The script's text is read in
//! `script`, and what is printed is put together in `printing`.
ghost use Rattle.std.specs.Prelude.{◌≡◌, ◌≢◌, ℕ, List, false, Err, OnErr, OnOk, map};
ghost use Rattle.std.specs.Io.KnownBytes.{Appends};
ghost use Rattle.api_types.specs.Served.{types_view};
ghost use Rattle.world_laws.specs.Tasks.{settings_fault};
ghost use Rattle.world.specs.Views.{event_seen, settings_seen};
ghost use Rattle.scripts.specs.Plays.{Answers, Plays, PlaysPrefix, index_names};

use crate::printing::print;
use crate::replay_fault::ReplayFault;
use api_types::Types;
use indexer::ByNamespace;
use std::alloc::Global;
use std::io::Write;
use world::{Link, Settings, WorldEvent, run_over};

/// Plays the events in order over a server without connections and objects and a client that keeps nothing; the bytes
/// between the two go over the link. Writes the line of the reply to each request, `<status> <body>`; what was written
/// on each other connection, also where its peer has gone, in the order of their ids, under a line
/// `connection <id> <bytes>`; and a line `report <event> <revision> <objects> <counts>` for each report. After a fault,
/// a prefix of this is written.
pub fn replay<L: Link, W: Write>(
    alloc: Global,
    types: Types,
    settings: Settings,
    events: &[WorldEvent],
    link: &mut L,
    writer: &mut W,
) -> Result<(), ReplayFault>
    ensures ok { OnOk result ((text : List ℕ) × Plays (types_view types) (settings_seen settings) (map event_seen events.now) text × Appends (W.contents writer.old) (W.contents writer.new) text) }
    ensures prefix { OnErr result ((text : List ℕ) × PlaysPrefix (types_view types) (settings_seen settings) (map event_seen events.now) text × Appends (W.contents writer.old) (W.contents writer.new) text) }
    ensures settings { Answers (settings_fault (types_view types) index_names (settings_seen settings)) result }
    ensures link { L.may_fail ≡ false → result ≢ Err ReplayFault.Link }
{
    let indexes = vec![in alloc; ByNamespace]?;
    let trace = run_over(alloc, types, settings, indexes, events, link)?;
    print(alloc, &trace, writer)
}
