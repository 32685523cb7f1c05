//! The command line of `ssa-server`: its options, their numbers and its help. What the programs share stands in the crate
//! `programs`.

ghost use Rattle.std.specs.Prelude.{◌≡◌, IfOk, None, Some, codes, false, map, option_map};
ghost use Rattle.clap.specs.Words.{first_of, matches_of, one_of};
ghost use Rattle.programs.specs.Numbers.{IsCount, IsNumberOr};
ghost use Rattle.programs.specs.Commands.{IsFlag};
ghost use Rattle.server_program.specs.Disturbing.{AsksBy};
ghost use Rattle.server_program.specs.ServerCommand.{IsServerCommand, ssa_server};

use crate::disturbing::disturbances_of;
use crate::fault::ServerFault;
use clap::Command;
use polling::Disturbances;
use programs::{
    DISCOVERY, DISCOVERY_HELP, NumberOption, TYPES, TYPES_HELP, TextOption, count_of, file_option,
    flag_option, number, number_option, port_of, program, text_option,
};
use std::alloc::{AllocError, Global};
use std::convert::AsStr;

const ABOUT: &str = "Serves the types of a file on loopback, with objects in memory";

const NOTES: &str = "Example:
  ssa-server --types examples/widgets.json --port 8001 --concurrent

Exit status:
  0  the connections that --serve asks for were served
  1  the standard output can't be written
  2  wrong usage
  3  the types file or the objects file is bad or can't be read
  5  out of memory, or the store failed
  6  the port can't be listened on, the clock can't be read, or the system can't say which sockets are ready";

const PORT: NumberOption = NumberOption {
    name: "port",
    default: Some("0"),
    least: 0,
    most: 65535,
    help: "The port to listen on; 0: a free port",
};

const KEEP: NumberOption = NumberOption {
    name: "keep",
    default: Some("1000"),
    least: 0,
    most: u64::MAX,
    help: "How many revisions before the current one are kept",
};

const PUMP: NumberOption = NumberOption {
    name: "pump",
    default: Some("500"),
    least: 1,
    most: u64::MAX,
    help: "How many lines a watch gets at a time at most",
};

const SERVE: NumberOption = NumberOption {
    name: "serve",
    default: Some("0"),
    least: 0,
    most: u64::MAX,
    help: "After how many connections to end; 0: no limit",
};

const PATIENCE: NumberOption = NumberOption {
    name: "patience",
    default: Some("30000"),
    least: 1,
    most: u64::MAX,
    help: "With --concurrent: how many milliseconds to wait for a peer that sends or takes nothing",
};

const DISTURB: TextOption<'static> = TextOption {
    name: "disturb",
    value: "SEED[:KINDS]",
    help: "With --concurrent: disturb watches by a seed; some of cuts,holds,expiries are the kinds, or all",
};

const LOG: &str = "log";

const LOG_HELP: &str =
    "Tell each request, the end of each watch and what fails on standard error, a line each";

const RECORD: TextOption<'static> = TextOption {
    name: "record",
    value: "FILE",
    help: "Write what happens to a file, as a script for ssa-replay",
};

const CONCURRENT: &str = "concurrent";

const CONCURRENT_HELP: &str =
    "Give it always: serve many connections at once, not one after another, and follow the types file";

const OBJECTS: TextOption<'static> = TextOption {
    name: "objects",
    value: "FILE",
    help: "The objects to begin with, one JSON object a line; without it, none",
};

/// What the arguments of `ssa-server` name.
#[derive(Clone, Copy, Debug)]
pub struct ServerOptions<'a> {
    /// The path of the types file.
    pub types: &'a str,
    /// The port on loopback; 0 picks a free one.
    pub port: u16,
    /// How many revisions before the current one are kept.
    pub keep: u64,
    /// How many lines a watch may write at a time.
    pub pump: u64,
    /// How many connections are served.
    pub serve: u64,
    /// Whether connections are served at once, not one after another.
    pub concurrent: bool,
    /// How many milliseconds a peer may keep the server waiting, where connections are served at once.
    pub patience: u64,
    /// After which revisions watches are disturbed, where connections are served at once.
    pub disturb: Option<Disturbances>,
    /// Whether requests are told on the standard error.
    pub log: bool,
    /// The path of the file to which events are recorded.
    pub record: Option<&'a str>,
    /// The path of the file of the first objects.
    pub objects: Option<&'a str>,
    /// Whether documents tell clients of the types.
    pub discovery: bool,
}

fn server_command<'a>(alloc: Global) -> Result<Command<'a>, AllocError>
    ensures { IfOk result IsServerCommand }
{
    program(alloc, "ssa-server", ABOUT, NOTES)
        .arg(file_option(alloc, TYPES, TYPES_HELP))?
        .arg(number_option(alloc, PORT))?
        .arg(number_option(alloc, KEEP))?
        .arg(number_option(alloc, PUMP))?
        .arg(number_option(alloc, SERVE))?
        .arg(flag_option(alloc, CONCURRENT, CONCURRENT_HELP))?
        .arg(number_option(alloc, PATIENCE))?
        .arg(text_option(alloc, DISTURB))?
        .arg(flag_option(alloc, LOG, LOG_HELP))?
        .arg(text_option(alloc, RECORD))?
        .arg(text_option(alloc, OBJECTS))?
        .arg(flag_option(alloc, DISCOVERY, DISCOVERY_HELP))
}

/// Reads the arguments of `ssa-server`, the program's name first.
pub fn options<'a, S: AsStr>(
    alloc: Global,
    arguments: &'a [S],
) -> Result<ServerOptions<'a>, ServerFault>
    ensures types { IfOk result (λ o. first_of (codes "types") (matches_of ssa_server (map S.text arguments.entry.now)) ≡ Some o.types.now) }
    ensures port { IfOk result (λ o. IsNumberOr (codes "0") (first_of (codes "port") (matches_of ssa_server (map S.text arguments.entry.now))) o.port) }
    ensures keep { IfOk result (λ o. IsNumberOr (codes "1000") (first_of (codes "keep") (matches_of ssa_server (map S.text arguments.entry.now))) o.keep) }
    ensures pump { IfOk result (λ o. IsNumberOr (codes "500") (first_of (codes "pump") (matches_of ssa_server (map S.text arguments.entry.now))) o.pump) }
    ensures serve { IfOk result (λ o. IsCount (first_of (codes "serve") (matches_of ssa_server (map S.text arguments.entry.now))) o.serve) }
    ensures concurrent { IfOk result (λ o. IsFlag (one_of (codes "concurrent") (matches_of ssa_server (map S.text arguments.entry.now))) o.concurrent) }
    ensures patience { IfOk result (λ o. IsNumberOr (codes "30000") (first_of (codes "patience") (matches_of ssa_server (map S.text arguments.entry.now))) o.patience) }
    ensures disturb { IfOk result (λ o. AsksBy (first_of (codes "disturb") (matches_of ssa_server (map S.text arguments.entry.now))) o.disturb) }
    ensures disturbs_at_once { IfOk result (λ o. o.concurrent ≡ false → o.disturb ≡ None) }
    ensures log { IfOk result (λ o. IsFlag (one_of (codes "log") (matches_of ssa_server (map S.text arguments.entry.now))) o.log) }
    ensures record { IfOk result (λ o. option_map (λ s. s.now) o.record ≡ first_of (codes "record") (matches_of ssa_server (map S.text arguments.entry.now))) }
    ensures objects { IfOk result (λ o. option_map (λ s. s.now) o.objects ≡ first_of (codes "objects") (matches_of ssa_server (map S.text arguments.entry.now))) }
    ensures discovery { IfOk result (λ o. IsFlag (one_of (codes "discovery") (matches_of ssa_server (map S.text arguments.entry.now))) o.discovery) }
{
    let matches = server_command(alloc)?.try_get_matches_from(arguments)?;
    let port = number(&matches, PORT)?;
    let port = port_of(port, PORT)?;
    let keep = number(&matches, KEEP)?;
    let pump = number(&matches, PUMP)?;
    let serve = number(&matches, SERVE)?;
    let concurrent = matches.get_flag(CONCURRENT);
    let patience = number(&matches, PATIENCE)?;
    let asked = matches.get_str(DISTURB.name);
    let disturb = disturbances_of(alloc, asked, concurrent)?;
    let discovery = matches.get_flag(DISCOVERY);
    Ok(ServerOptions {
        types: matches.get_str(TYPES).unwrap(),
        port,
        keep,
        pump,
        serve: count_of(serve),
        concurrent,
        patience,
        disturb,
        log: matches.get_flag(LOG),
        record: matches.get_str(RECORD.name),
        objects: matches.get_str(OBJECTS.name),
        discovery,
    })
}
