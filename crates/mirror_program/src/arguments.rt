//! The command line of `ssa-mirror`: its options and its help. What the programs share stands in the crate `programs`.

ghost use Rattle.std.specs.Prelude.{◌≡◌, ◌≤◌, [], IfOk, Some, codes, map, option_and_then, option_map, unwrap_or};
ghost use Rattle.clap.specs.Matches.{first_value, found_of};
ghost use Rattle.clap.specs.Words.{Text, first_of, matches_of};
ghost use Rattle.programs.specs.Numbers.{IsCount, IsNumber, IsNumberOr};
ghost use Rattle.mirror_program.specs.MirrorCommand.{IsMirrorCommand, ssa_mirror};
ghost use Rattle.programs.specs.Resources.{resource_in};
ghost use Rattle.programs.specs.Views.{resource_of};

use crate::fault::ProgramFault;
use clap::{ArgMatches, Command};
use programs::{
    NumberOption, Resource, RunFault, TYPES, TYPES_HELP, TextOption, count_of, file_option, number,
    number_option, port_of, program, required_option, resource_in, text_option,
};
use std::alloc::{AllocError, Global};
use std::convert::AsStr;

const ABOUT: &str =
    "Mirrors the objects of a type from a server on loopback and prints what changes";

const NOTES: &str = "Example:
  ssa-mirror --types examples/widgets.json --port 8001 --type demo.example/v1/widgets

Exit status:
  0  the connections that --turns asks for were made
  1  the standard output can't be written
  2  wrong usage, or a type, a namespace, a selector or a page that can't be mirrored
  3  the types file is bad or can't be read
  5  out of memory
  6  the port can't be connected to";

const PORT: NumberOption = NumberOption {
    name: "port",
    default: None,
    least: 1,
    most: 65535,
    help: "The port of the server on loopback",
};

const TYPE: TextOption<'static> = TextOption {
    name: "type",
    value: "G/V/P",
    help: "The type to mirror: group/version/plural, like demo.example/v1/widgets",
};

const NAMESPACE: TextOption<'static> = TextOption {
    name: "namespace",
    value: "NS",
    help: "The namespace of the objects; without it, all",
};

const SELECTOR: TextOption<'static> = TextOption {
    name: "selector",
    value: "S",
    help: "The label selector of the objects, like tier=web; without it, all",
};

const PAGE: NumberOption = NumberOption {
    name: "page",
    default: Some("500"),
    least: 0,
    most: 4294967295,
    help: "How many objects a page of the list has at most, 1 to 500",
};

const TURNS: NumberOption = NumberOption {
    name: "turns",
    default: Some("0"),
    least: 0,
    most: u64::MAX,
    help: "After how many connections to end; 0: no limit",
};

/// What the arguments of `ssa-mirror` name.
#[derive(Clone, Copy, Debug)]
pub struct MirrorOptions<'a> {
    /// The path of the types file.
    pub types: &'a str,
    /// The server's port on loopback.
    pub port: u16,
    /// The type whose objects are mirrored.
    pub resource: Resource<'a>,
    /// The namespace of the objects, or all.
    pub namespace: Option<&'a str>,
    /// The label selector of the objects; the empty text selects all.
    pub selector: &'a str,
    /// How many objects a page has at most.
    pub page: u32,
    /// How many connections are made.
    pub turns: u64,
}

fn mirror_command<'a>(alloc: Global) -> Result<Command<'a>, AllocError>
    ensures { IfOk result IsMirrorCommand }
{
    program(alloc, "ssa-mirror", ABOUT, NOTES)
        .arg(file_option(alloc, TYPES, TYPES_HELP))?
        .arg(number_option(alloc, PORT))?
        .arg(required_option(alloc, TYPE))?
        .arg(text_option(alloc, NAMESPACE))?
        .arg(text_option(alloc, SELECTOR))?
        .arg(number_option(alloc, PAGE))?
        .arg(number_option(alloc, TURNS))
}

/// How many objects a page has at most, of those that an option may be.
fn page_of(number: u64) -> Result<u32, ProgramFault>
    ensures { IfOk result (λ page. page ≡ number) }
{
    u32::try_from(number).map_err(|_| ProgramFault::Run(RunFault::Number(PAGE)))
}

/// The type that is asked for.
fn resource_of<'a>(matches: &ArgMatches<'a>) -> Result<Resource<'a>, ProgramFault>
    ensures { IfOk result (λ r. option_and_then resource_in (first_value (found_of matches.now) (codes "type")) ≡ Some (resource_of r)) }
{
    let Some(text) = matches.get_str(TYPE.name) else {
        return Err(ProgramFault::Form);
    };
    resource_in(text).ok_or(ProgramFault::Form)
}

/// Reads the arguments of `ssa-mirror`, the program's name first.
pub fn options<'a, S: AsStr>(
    alloc: Global,
    arguments: &'a [S],
) -> Result<MirrorOptions<'a>, ProgramFault>
    ensures types { IfOk result (λ o. first_of (codes "types") (matches_of ssa_mirror (map S.text arguments.entry.now)) ≡ Some o.types.now) }
    ensures port { IfOk result (λ o. (t : Text) × (first_of (codes "port") (matches_of ssa_mirror (map S.text arguments.entry.now)) ≡ Some t) × IsNumber t o.port × (1 ≤ o.port)) }
    ensures resource { IfOk result (λ o. option_and_then resource_in (first_of (codes "type") (matches_of ssa_mirror (map S.text arguments.entry.now))) ≡ Some (resource_of o.resource)) }
    ensures namespace { IfOk result (λ o. option_map (λ s. s.now) o.namespace ≡ first_of (codes "namespace") (matches_of ssa_mirror (map S.text arguments.entry.now))) }
    ensures selector { IfOk result (λ o. o.selector.now ≡ unwrap_or (first_of (codes "selector") (matches_of ssa_mirror (map S.text arguments.entry.now))) []) }
    ensures page { IfOk result (λ o. IsNumberOr (codes "500") (first_of (codes "page") (matches_of ssa_mirror (map S.text arguments.entry.now))) o.page) }
    ensures turns { IfOk result (λ o. IsCount (first_of (codes "turns") (matches_of ssa_mirror (map S.text arguments.entry.now))) o.turns) }
{
    let matches = mirror_command(alloc)?.try_get_matches_from(arguments)?;
    let port = number(&matches, PORT)?;
    let port = port_of(port, PORT)?;
    let resource = resource_of(&matches)?;
    let page = number(&matches, PAGE)?;
    let page = page_of(page)?;
    let turns = number(&matches, TURNS)?;
    Ok(MirrorOptions {
        types: matches.get_str(TYPES).unwrap(),
        port,
        resource,
        namespace: matches.get_str(NAMESPACE.name),
        selector: matches.get_str(SELECTOR.name).unwrap_or(""),
        page,
        turns: count_of(turns),
    })
}
