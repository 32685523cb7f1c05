//! The command lines of the programs that play scripts: their options and their help. What all programs share stands in
//! the crate `programs`.
ghost use Rattle.std.specs.Prelude.{◌≡◌, ◌≤◌, [], IfOk, IfErr, Some, None, codes, map, option_map, unwrap_or};
ghost use Rattle.clap.specs.Matches.{first_value, found_of};
ghost use Rattle.clap.specs.Words.{fault_of, first_of, matches_of, one_of};
ghost use Rattle.programs.specs.Commands.{IsFlag};
ghost use Rattle.history.specs.History.{last_revision};
ghost use Rattle.programs.specs.Numbers.{IsNumberIn, IsNumberOr};
ghost use Rattle.programs.specs.Resources.{resource_in};
ghost use Rattle.programs.specs.Views.{resource_of};
ghost use Rattle.scripts.specs.PlayerCommand.{IsPlayerCommand, IsPipeCommand, RefusedBy, RefusedByPipe, default_label, default_page, default_revision, default_type, pipe_app, player};
ghost use Rattle.scripts.specs.declared.program_fault.ProgramFault.TheVariants.{Form};

use crate::program_fault::ProgramFault;
use clap::{ArgMatches, Command};
use programs::{
    DISCOVERY, DISCOVERY_HELP, NumberOption, Resource, TYPES, TYPES_HELP, TextOption, file_option,
    flag_option, number, number_option, program, resource_in, text_option,
};
use std::alloc::{AllocError, Global};
use std::convert::AsStr;

/// A program that plays a script, as its help tells of it.
#[derive(Clone, Copy, Debug)]
pub struct Player<'a> {
    pub name: &'a str,
    /// What it does, in a line.
    pub about: &'a str,
    /// The end of its help.
    pub notes: &'a str,
}

const SCRIPT: &str = "script";

const SCRIPT_HELP: &str = "The events to play, one JSON object a line, like {\"open\":1}";

const PAGE: NumberOption = NumberOption {
    name: "page",
    default: Some("2"),
    least: 0,
    most: 4294967295,
    help: "How many objects a page of the client's list has at most, 1 to 500",
};

const REVISION: NumberOption = NumberOption {
    name: "revision",
    default: Some("1"),
    least: 1,
    most: 9223372036854775807,
    help: "The version at which the server begins, without objects",
};

const SELECTOR: TextOption<'static> = TextOption {
    name: "selector",
    value: "S",
    help: "The label selector of the client's objects, like tier=web; without it, all",
};

const NAMESPACE: TextOption<'static> = TextOption {
    name: "namespace",
    value: "NS",
    help: "The namespace of the client's objects; without it, all",
};

const TYPE: TextOption<'static> = TextOption {
    name: "type",
    value: "G/V/P",
    help: "The type of the client's objects: group/version/plural; without it, demo.example/v1/widgets",
};

const DEFAULT_TYPE: &str = "demo.example/v1/widgets";

const LABEL: TextOption<'static> = TextOption {
    name: "label",
    value: "L",
    help: "The label whose values are counted; without it, tier",
};

const DEFAULT_LABEL: &str = "tier";

/// What the arguments of a program that plays a script name.
#[derive(Clone, Copy, Debug)]
pub struct PlayerOptions<'a> {
    /// The path of the types file.
    pub types: &'a str,
    /// The path of the script.
    pub script: &'a str,
    pub client: ClientOptions<'a>,
    /// Whether documents tell clients of the types.
    pub discovery: bool,
}

/// What the arguments of a program that reads a script from its standard input name.
#[derive(Clone, Copy, Debug)]
pub struct PipeOptions<'a> {
    /// The path of the types file.
    pub types: &'a str,
    pub client: ClientOptions<'a>,
    /// Whether documents tell clients of the types.
    pub discovery: bool,
    /// The revision at which the server begins.
    pub revision: u64,
}

/// What the arguments of a program ask of its client.
#[derive(Clone, Copy, Debug)]
pub struct ClientOptions<'a> {
    /// How many objects a page of the client's list has at most.
    pub page: u32,
    /// The label selector of the client's objects; the empty text selects all.
    pub selector: &'a str,
    /// The namespace of the client's objects, or all.
    pub namespace: Option<&'a str>,
    /// The type of the client's objects.
    pub resource: Resource<'a>,
    /// The label whose values are counted.
    pub label: &'a str,
}

/// The command of a program that reads a script from its standard input.
fn pipe_command<'a>(alloc: Global, asked: Player<'a>) -> Result<Command<'a>, AllocError>
    ensures { IfOk result (IsPipeCommand asked.entry.name.now) }
{
    program(alloc, asked.name, asked.about, asked.notes)
        .arg(file_option(alloc, TYPES, TYPES_HELP))?
        .arg(number_option(alloc, PAGE))?
        .arg(text_option(alloc, SELECTOR))?
        .arg(text_option(alloc, NAMESPACE))?
        .arg(text_option(alloc, TYPE))?
        .arg(text_option(alloc, LABEL))?
        .arg(flag_option(alloc, DISCOVERY, DISCOVERY_HELP))?
        .arg(number_option(alloc, REVISION))
}

fn player_command<'a>(alloc: Global, asked: Player<'a>) -> Result<Command<'a>, AllocError>
    ensures { IfOk result (IsPlayerCommand asked.entry.name.now) }
{
    program(alloc, asked.name, asked.about, asked.notes)
        .arg(file_option(alloc, TYPES, TYPES_HELP))?
        .arg(file_option(alloc, SCRIPT, SCRIPT_HELP))?
        .arg(number_option(alloc, PAGE))?
        .arg(text_option(alloc, SELECTOR))?
        .arg(text_option(alloc, NAMESPACE))?
        .arg(text_option(alloc, TYPE))?
        .arg(text_option(alloc, LABEL))?
        .arg(flag_option(alloc, DISCOVERY, DISCOVERY_HELP))
}

/// How many objects a page has at most, of what the option may be.
fn page_of(number: u64) -> u32
    requires { number ≤ 4294967295 }
    ensures { result ≡ number }
{
    number as u32
}

/// The type that is asked for.
fn resource_of<'a>(matches: &ArgMatches<'a>) -> Result<Resource<'a>, ProgramFault>
    ensures ok { IfOk result (λ r. resource_in (unwrap_or (first_value (found_of matches.now) (codes "type")) default_type) ≡ Some (resource_of r)) }
    ensures refused { IfErr result (λ f. (f ≡ Form) × (resource_in (unwrap_or (first_value (found_of matches.now) (codes "type")) default_type) ≡ None)) }
{
    match resource_in(matches.get_str(TYPE.name).unwrap_or(DEFAULT_TYPE)) {
        Some(resource) => Ok(resource),
        None => Err(ProgramFault::Form),
    }
}

/// Reads the arguments of a program that plays a script, the program's name first.
pub fn options<'a, S: AsStr>(
    alloc: Global,
    asked: Player<'a>,
    arguments: &'a [S],
) -> Result<PlayerOptions<'a>, ProgramFault>
    ensures types { IfOk result (λ o. first_of (codes "types") (matches_of (player asked.entry.name.now) (map S.text arguments.entry.now)) ≡ Some o.types.now) }
    ensures script { IfOk result (λ o. first_of (codes "script") (matches_of (player asked.entry.name.now) (map S.text arguments.entry.now)) ≡ Some o.script.now) }
    ensures page { IfOk result (λ o. IsNumberOr default_page (first_of (codes "page") (matches_of (player asked.entry.name.now) (map S.text arguments.entry.now))) o.client.page) }
    ensures selector { IfOk result (λ o. o.client.selector.now ≡ unwrap_or (first_of (codes "selector") (matches_of (player asked.entry.name.now) (map S.text arguments.entry.now))) []) }
    ensures namespace { IfOk result (λ o. option_map (λ s. s.now) o.client.namespace ≡ first_of (codes "namespace") (matches_of (player asked.entry.name.now) (map S.text arguments.entry.now))) }
    ensures resource { IfOk result (λ o. resource_in (unwrap_or (first_of (codes "type") (matches_of (player asked.entry.name.now) (map S.text arguments.entry.now))) default_type) ≡ Some (resource_of o.client.resource)) }
    ensures label { IfOk result (λ o. o.client.label.now ≡ unwrap_or (first_of (codes "label") (matches_of (player asked.entry.name.now) (map S.text arguments.entry.now))) default_label) }
    ensures discovery { IfOk result (λ o. IsFlag (one_of (codes "discovery") (matches_of (player asked.entry.name.now) (map S.text arguments.entry.now))) o.discovery) }
    ensures refused { RefusedBy (fault_of (player asked.entry.name.now) (map S.text arguments.entry.now)) (matches_of (player asked.entry.name.now) (map S.text arguments.entry.now)) result }
{
    let matches = player_command(alloc, asked)?.try_get_matches_from(arguments)?;
    let page = number(&matches, PAGE)?;
    let resource = resource_of(&matches)?;
    Ok(PlayerOptions {
        types: matches.get_str(TYPES).unwrap(),
        script: matches.get_str(SCRIPT).unwrap(),
        client: ClientOptions {
            page: page_of(page),
            selector: matches.get_str(SELECTOR.name).unwrap_or(""),
            namespace: matches.get_str(NAMESPACE.name),
            resource,
            label: matches.get_str(LABEL.name).unwrap_or(DEFAULT_LABEL),
        },
        discovery: matches.get_flag(DISCOVERY),
    })
}

/// Reads the arguments of a program that reads a script from its standard input, the program's name first.
pub fn pipe_options<'a, S: AsStr>(
    alloc: Global,
    asked: Player<'a>,
    arguments: &'a [S],
) -> Result<PipeOptions<'a>, ProgramFault>
    ensures types { IfOk result (λ o. first_of (codes "types") (matches_of (pipe_app asked.entry.name.now) (map S.text arguments.entry.now)) ≡ Some o.types.now) }
    ensures page { IfOk result (λ o. IsNumberOr default_page (first_of (codes "page") (matches_of (pipe_app asked.entry.name.now) (map S.text arguments.entry.now))) o.client.page) }
    ensures selector { IfOk result (λ o. o.client.selector.now ≡ unwrap_or (first_of (codes "selector") (matches_of (pipe_app asked.entry.name.now) (map S.text arguments.entry.now))) []) }
    ensures namespace { IfOk result (λ o. option_map (λ s. s.now) o.client.namespace ≡ first_of (codes "namespace") (matches_of (pipe_app asked.entry.name.now) (map S.text arguments.entry.now))) }
    ensures resource { IfOk result (λ o. resource_in (unwrap_or (first_of (codes "type") (matches_of (pipe_app asked.entry.name.now) (map S.text arguments.entry.now))) default_type) ≡ Some (resource_of o.client.resource)) }
    ensures label { IfOk result (λ o. o.client.label.now ≡ unwrap_or (first_of (codes "label") (matches_of (pipe_app asked.entry.name.now) (map S.text arguments.entry.now))) default_label) }
    ensures discovery { IfOk result (λ o. IsFlag (one_of (codes "discovery") (matches_of (pipe_app asked.entry.name.now) (map S.text arguments.entry.now))) o.discovery) }
    ensures revision { IfOk result (λ o. IsNumberIn (Some default_revision) (first_of (codes "revision") (matches_of (pipe_app asked.entry.name.now) (map S.text arguments.entry.now))) 1 last_revision o.revision) }
    ensures refused { RefusedByPipe (fault_of (pipe_app asked.entry.name.now) (map S.text arguments.entry.now)) (matches_of (pipe_app asked.entry.name.now) (map S.text arguments.entry.now)) result }
{
    let matches = pipe_command(alloc, asked)?.try_get_matches_from(arguments)?;
    let page = number(&matches, PAGE)?;
    let revision = number(&matches, REVISION)?;
    let resource = resource_of(&matches)?;
    Ok(PipeOptions {
        types: matches.get_str(TYPES).unwrap(),
        client: ClientOptions {
            page: page_of(page),
            selector: matches.get_str(SELECTOR.name).unwrap_or(""),
            namespace: matches.get_str(NAMESPACE.name),
            resource,
            label: matches.get_str(LABEL.name).unwrap_or(DEFAULT_LABEL),
        },
        discovery: matches.get_flag(DISCOVERY),
        revision,
    })
}
