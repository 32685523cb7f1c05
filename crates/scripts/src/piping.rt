//! Plays the lines of a reader one by one: each is answered before the next one is read. The answer to a line stands in
//! `answering`.
ghost use Rattle.std.specs.Prelude.{◌≡◌, ◌<◌, ◌≤◌, ◌++◌, ℕ, List, [], IfOk, IfSome, OnErr, OnOk, option_map};
ghost use Rattle.std.specs.Io.KnownBytes.{Appends, Consumes};
ghost use Rattle.api_types.specs.Served.{types_view};
ghost use Rattle.api_types.specs.TypesFile.{ServedShape};
ghost use Rattle.history.specs.History.{last_revision};
ghost use Rattle.httpedge.specs.Connections.{written_on};
ghost use Rattle.world_laws.specs.Tasks.{IsTask, Task, settings_fault};
ghost use Rattle.world_laws.specs.World as worlds;
ghost use Rattle.world.specs.Starting.{start_at};
ghost use Rattle.world.specs.Views.{settings_seen};
ghost use Rattle.scripts.specs.Plays.{Answers, index_names};
ghost use Rattle.scripts.specs.Asked.{Ends, settings_asked};
ghost use Rattle.scripts.specs.Piped.{Converses, EndsPlaying, IsAnswered, IsAnsweredPrefix, IsCut, Joins, Part, PipesAsked, PipesPrefixAsked, ReadsNext, Represents, Turns, TurnsPrefix};

use crate::answering::answer_to;
use crate::arguments::ClientOptions;
use crate::program_fault::ProgramFault;
use crate::replay_fault::ReplayFault;
use crate::settings::settings_of;
use api_types::Types;
use indexer::ByNamespace;
use programs::RunFault;
use std::alloc::{AllocError, Global};
use std::io;
use std::io::{BufRead, ErrorKind, Write};
use wire::write_whole;
use world::{Settings, World, steps_join};

/// A line without its line feed; none where nothing was read.
fn without_end(mut bytes: Vec<u8>) -> Result<Option<Vec<u8>>, AllocError>
    ensures { IfOk result (λ o. IsCut bytes.items (option_map (λ v. v.items) o)) }
{
    let Some(byte) = bytes.pop() else {
        return Ok(None);
    };
    if byte == b'\n' {
        return Ok(Some(bytes));
    }
    bytes.push(byte)?;
    Ok(Some(bytes))
}

/// The next line, without its line feed; none where the reader has no more.
fn next_line<R: BufRead>(alloc: Global, reader: &mut R) -> io::Result<Option<Vec<u8>>>
    ensures ok { IfOk result (λ o. ReadsNext (R.remaining reader.old) (R.remaining reader.new) (option_map (λ v. v.items) o)) }
    ensures err { OnErr result ((piece : List ℕ) × Consumes (R.remaining reader.old) (R.remaining reader.new) piece) }
{
    let mut bytes = Vec::new(alloc);
    reader.read_until(b'\n', &mut bytes)?;
    Ok(without_end(bytes)?)
}

/// Writes an answer, and hands on what the writer holds.
fn write<W: Write>(writer: &mut W, text: &[u8]) -> io::Result<()>
    ensures all { OnOk result (Appends (W.contents writer.old) (W.contents writer.new) text.now) }
    ensures prefix { (emitted : List ℕ) × (rest : List ℕ) × (text.now ≡ emitted ++ rest) × Appends (W.contents writer.old) (W.contents writer.new) emitted }
{
    write_whole(writer, text)?;
    writer.flush()
}

/// Answers the next line of a reader, before which there were so many events: how many there are then, or none where the reader
/// has no more.
fn answer_next<R: BufRead, W: Write>(
    alloc: Global,
    world: &mut World<ByNamespace>,
    events: usize,
    reader: &mut R,
    writer: &mut W,
) -> Result<Option<usize>, ProgramFault>
    requires { events < 18446744073709551615 }
    ensures turn { (task : Task) (w : worlds.World) → Represents world.old task w → IfOk result (Turns (R.remaining reader.old) (R.remaining reader.new) (W.contents writer.old) (W.contents writer.new) task events w world.new) }
    ensures prefix { (task : Task) (w : worlds.World) → Represents world.old task w → OnErr result (TurnsPrefix (R.remaining reader.old) (R.remaining reader.new) (W.contents writer.old) (W.contents writer.new) task events w) }
    ensures ends { EndsPlaying result }
{
    let line = match next_line(alloc, reader) {
        Ok(Some(line)) => line,
        Ok(None) => return Ok(None),
        Err(error) => return Err(ProgramFault::Input(error)),
    };
    let answer = answer_to(alloc, world, events, &line)?;
    match write(writer, &answer.text) {
        Ok(()) => Ok(Some(answer.events)),
        Err(error) => Err(ProgramFault::Run(RunFault::Output(error))),
    }
}

/// Answers the lines of a reader until it ends.
fn answer_all<R: BufRead, W: Write>(
    alloc: Global,
    world: &mut World<ByNamespace>,
    reader: &mut R,
    writer: &mut W,
) -> Result<(), ProgramFault>
    ensures ok { (task : Task) (w : worlds.World) → Represents world.old task w → OnOk result ((received : List ℕ) × (emitted : List ℕ) × (m : ℕ) × (v : worlds.World) × Consumes (R.remaining reader.old) (R.remaining reader.new) received
        × IfSome (R.remaining reader.old) (λ bytes. received ≡ bytes) × Appends (W.contents writer.old) (W.contents writer.new) emitted × IsAnswered task w received emitted m v) }
    ensures prefix { (task : Task) (w : worlds.World) → Represents world.old task w → OnErr result ((received : List ℕ) × (emitted : List ℕ) × Consumes (R.remaining reader.old) (R.remaining reader.new) received
        × Appends (W.contents writer.old) (W.contents writer.new) emitted × IsAnsweredPrefix task w received emitted) }
    ensures ends { EndsPlaying result }
{
    let mut events = 0;
    'lines: for _ in 0..u64::MAX {
        if events >= usize::MAX {
            break;
        }
        match answer_next(alloc, world, events, reader, writer)? {
            Some(count) => events = count,
            None => return Ok(()),
        }
    }
    Err(ProgramFault::Input(io::Error::from(ErrorKind::FileTooLarge)))
}

/// A server without connections and objects, at this revision, and a client that keeps nothing.
fn world_of(
    alloc: Global,
    types: Types,
    settings: Settings,
    revision: u64,
) -> Result<World<ByNamespace>, ReplayFault>
    requires from { 1 ≤ revision }
    requires to { revision ≤ last_revision }
    ensures represents { IfOk result (λ x. (task : Task) × IsTask (types_view types) task × (task.settings ≡ settings_seen settings) × Represents x task (start_at revision (types_view types))) }
    ensures settings { Answers (settings_fault (types_view types) index_names (settings_seen settings)) result }
{
    let indexes = vec![in alloc; ByNamespace]?;
    Ok(World::new_at(alloc, types, settings, indexes, revision)?)
}

/// Plays the lines of a reader over a server without connections and objects, at this revision, and a client that keeps nothing, as
/// the options ask. Before it reads the next line it has written the answer to the last one. A bad line changes nothing, nor does
/// one that asks.
pub fn pipe<R: BufRead, W: Write>(
    alloc: Global,
    types: Types,
    options: &ClientOptions<'_>,
    revision: u64,
    reader: &mut R,
    writer: &mut W,
) -> Result<(), ProgramFault>
    requires from { 1 ≤ revision }
    requires to { revision ≤ last_revision }
    ensures ok { OnOk result ((received : List ℕ) × (emitted : List ℕ) × PipesAsked (types_view types) (settings_asked (types_view types) options.now) revision received emitted × Consumes (R.remaining reader.old) (R.remaining reader.new) received
        × IfSome (R.remaining reader.old) (λ bytes. received ≡ bytes) × Appends (W.contents writer.old) (W.contents writer.new) emitted) }
    ensures prefix { OnErr result ((received : List ℕ) × (emitted : List ℕ) × PipesPrefixAsked (types_view types) (settings_asked (types_view types) options.now) revision received emitted
        × Consumes (R.remaining reader.old) (R.remaining reader.new) received × Appends (W.contents writer.old) (W.contents writer.new) emitted) }
    ensures ends { Ends (types_view types) (settings_asked (types_view types) options.now) [] result }
{
    let settings = settings_of(alloc, &types, options)?;
    let mut world = world_of(alloc, types, settings, revision)?;
    answer_all(alloc, &mut world, reader, writer)
}

/// What the answers to lines say of each connection, joined, is all that the run of their events writes on it after what was
/// written before; at the start nothing was.
pub fn answers_join()
    ensures joined { (task : Task) (n : ℕ) (w : worlds.World) (lines : List (List ℕ)) (parts : List Part) (m : ℕ) (v : worlds.World) → Converses task n w lines parts m v → Joins task n w lines parts v }
    ensures start { (types : List ServedShape) (revision id : ℕ) → written_on (start_at revision types).hub.connections id ≡ [] }
{
    steps_join();
}
