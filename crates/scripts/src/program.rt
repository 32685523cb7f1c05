//! The programs that play scripts, from their arguments to their exit status. The play of a script's text stands in `playing`.

use crate::arguments::{Player, PlayerOptions, options, pipe_options};
use crate::over_loopback::OverLoopback;
use crate::piping::pipe;
use crate::playing::play_script;
use crate::program_fault::ProgramFault;
use api_types::Types;
use programs::{RunFault, end_with, profile_asked, read_types, unread_path};
use std::io::{BufReader, BufWriter, Write};
use std::net::Net;
use std::process::ExitCode;
use std::rt::Files;
use std::{fs, io};
use world::{Link, OverMemory};

/// `ssa-replay`: both ends in one process, with nothing between them.
const REPLAY: Player<'static> = Player {
    name: "ssa-replay",
    about: "Plays a script of events over an API server and a client in memory and prints what comes of it",
    notes: "Example:
  ssa-replay --types examples/widgets.json --script events.jsonl

Exit status:
  0  done
  1  the standard output can't be written
  2  wrong usage, or a type, a page, a selector or a namespace that can't be had
  3  the types file is bad, or a file can't be read
  4  bad line of the script
  5  out of memory, or the store failed",
};

/// `ssa-loop`: the client's bytes go over a loopback socket.
const LOOP: Player<'static> = Player {
    name: "ssa-loop",
    about: "Plays a script as ssa-replay does, with the client's bytes over a loopback socket",
    notes: "Example:
  ssa-loop --types examples/widgets.json --script events.jsonl

Exit status:
  0  done
  1  the standard output can't be written
  2  wrong usage, or a type, a page, a selector or a namespace that can't be had
  3  the types file is bad, or a file can't be read
  4  bad line of the script
  5  out of memory, or the store failed
  6  the socket failed",
};

/// `ssa-pipe`: both ends in one process, and a line at a time.
const PIPE: Player<'static> = Player {
    name: "ssa-pipe",
    about: "Plays a script that it reads from the standard input, and answers each line before it reads the next",
    notes: "Example:
  ssa-pipe --types examples/widgets.json

Exit status:
  0  the standard input has ended
  1  the standard output can't be written
  2  wrong usage, or a type, a page, a selector or a namespace that can't be had
  3  the types file is bad, or it or the standard input can't be read
  5  out of memory, or the store failed",
};

fn read_script<R: Files + AllocGlobal>(rt: &R, path: &str) -> Result<String, ProgramFault> {
    match fs::read_to_string(rt, path) {
        Ok(text) => Ok(text),
        Err(error) => {
            let path = unread_path(rt.alloc(), path, &error)?;
            Err(ProgramFault::ScriptFile(path, error))
        }
    }
}

fn print_play<P: Print + AllocGlobal, L: Link>(
    rt: &P,
    types: Types,
    options: &PlayerOptions<'_>,
    script: &str,
    link: &mut L,
) -> Result<(), ProgramFault> {
    let mut writer = match BufWriter::new(rt.alloc(), io::writer(rt)) {
        Ok(writer) => writer,
        Err(_) => return Err(ProgramFault::Run(RunFault::Memory)),
    };
    let done = play_script(rt.alloc(), types, options, script, link, &mut writer);
    // What a play has written before it failed is printed too.
    let printed = writer.flush().map_err(RunFault::Output);
    done?;
    Ok(printed?)
}

fn run<R: Files + Print + AllocGlobal, L: Link>(
    rt: &R,
    player: Player<'_>,
    link: &mut L,
    arguments: &[String],
) -> Result<(), ProgramFault> {
    let options = options(rt.alloc(), player, arguments)?;
    let types = read_types(rt, profile_asked(options.discovery), options.types)?;
    let script = read_script(rt, options.script)?;
    print_play(rt, types, &options, script.as_str(), link)
}

/// The exit status of a run; a fault is printed on the standard error.
fn ended<R: Print + Eprint>(rt: &R, done: Result<(), ProgramFault>) -> ExitCode {
    match done {
        Ok(()) => ExitCode::SUCCESS,
        Err(ProgramFault::Run(fault)) => end_with(rt, &fault),
        Err(fault) => {
            // Where the standard error takes nothing, the status still names the fault.
            let _ = rt.eprintln(&fault);
            ExitCode::from(fault.status())
        }
    }
}

/// Runs a program over a link. Answers the exit status; a fault is printed on the standard error.
fn play<R: Files + Print + Eprint + AllocGlobal, L: Link>(
    rt: &R,
    player: Player<'_>,
    link: &mut L,
    arguments: &[String],
) -> ExitCode {
    ended(rt, run(rt, player, link, arguments))
}

fn run_pipe<R: Files + Input + Print + AllocGlobal>(
    rt: &R,
    arguments: &[String],
) -> Result<(), ProgramFault> {
    let options = pipe_options(rt.alloc(), PIPE, arguments)?;
    let types = read_types(rt, profile_asked(options.discovery), options.types)?;
    let Ok(mut reader) = BufReader::new(rt.alloc(), rt.reader()) else {
        return Err(ProgramFault::Run(RunFault::Memory));
    };
    let mut writer = io::writer(rt);
    let revision = options.revision;
    pipe(
        rt.alloc(),
        types,
        &options.client,
        revision,
        &mut reader,
        &mut writer,
    )
}

/// Runs `ssa-replay` on its arguments, the program's name first: reads both files, plays the script's lines and prints
/// what comes of them. Answers the exit status; a fault is printed on the standard error.
pub fn ssa_replay<R: Files + Print + Eprint + AllocGlobal>(
    rt: &R,
    arguments: &[String],
) -> ExitCode {
    play(rt, REPLAY, &mut OverMemory, arguments)
}

/// Runs `ssa-loop`, as `ssa-replay` but for the socket between server and client.
pub fn ssa_loop<R: Files + Net + Print + Eprint + AllocGlobal>(
    rt: &R,
    arguments: &[String],
) -> ExitCode {
    play(rt, LOOP, &mut OverLoopback::new(rt), arguments)
}

/// Runs `ssa-pipe` on its arguments, the program's name first: reads the types file, and answers the lines of the standard
/// input, each before it reads the next. Answers the exit status; a fault is printed on the standard error.
pub fn ssa_pipe<R: Files + Input + Print + Eprint + AllocGlobal>(
    rt: &R,
    arguments: &[String],
) -> ExitCode {
    ended(rt, run_pipe(rt, arguments))
}
