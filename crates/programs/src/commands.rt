//! What the command lines of all programs share: the version, the help, flags, and options that take texts. Options that take
//! numbers stand in `numbers`.
ghost use Rattle.std.specs.Prelude.{◌≡◌, [], false, true};
ghost use Rattle.clap.specs.Built.{FitsChain, IsAuto, TakesValue};
ghost use Rattle.clap.specs.Words.{app_of, args_of, groups_of, rule_of};
ghost use Rattle.clap.specs.declared.builder.command.Command.TheViews.{out-Command as fields_of};
ghost use Rattle.programs.specs.Commands.{file_option, flag_option, program, required_option, text_option};

use clap::{Arg, ArgAction, Command};
use std::alloc::Global;

/// The option that all programs have.
pub const TYPES: &str = "types";

/// Its help.
pub const TYPES_HELP: &str = "The types file, one JSON object {\"types\":[..]}";

/// The option by which documents tell clients of the types.
pub const DISCOVERY: &str = "discovery";

/// Its help.
pub const DISCOVERY_HELP: &str =
    "Serve the documents of discovery of the types, at /version, /api, /apis and /openapi/v3";

/// What `--version` prints after the name of each program.
const VERSION: &str = "1.2.0";

/// A program's command before its options: `about` says in a line what it does, and `notes` end its help.
pub fn program<'a>(alloc: Global, name: &'a str, about: &'a str, notes: &'a str) -> Command<'a>
    ensures app { app_of result ≡ program name.entry.now }
    ensures empty { (args_of result ≡ []) × (groups_of result ≡ []) }
    ensures local { (fields_of result).has_globals ≡ false }
    ensures negates { (fields_of result).subcommand_negates_reqs ≡ false }
{
    Command::new(alloc, name)
        .about(about)
        .version(VERSION)
        .after_help(notes)
}

/// An option that takes a text.
#[derive(Clone, Copy, Debug)]
pub struct TextOption<'a> {
    pub name: &'a str,
    /// What the help calls the text.
    pub value: &'a str,
    pub help: &'a str,
}

/// `--<name> <value>`
pub fn text_option<'a>(alloc: Global, option: TextOption<'a>) -> Arg<'a>
    ensures id { result.id ≡ option.entry.name }
    ensures rule { rule_of result ≡ text_option option.entry.name.now }
    ensures fits { (option.entry.name.now ≡ [] → ⊥) → (IsAuto result → ⊥) → FitsChain result }
    ensures takes { TakesValue (record result { required = true }) }
{
    Arg::new(alloc, option.name)
        .long(option.name)
        .value_name(option.value)
        .help(option.help)
        .action(ArgAction::Set)
}

/// `--<name> <value>`, which is required.
pub fn required_option<'a>(alloc: Global, option: TextOption<'a>) -> Arg<'a>
    ensures id { result.id ≡ option.entry.name }
    ensures rule { rule_of result ≡ required_option option.entry.name.now }
    ensures fits { (option.entry.name.now ≡ [] → ⊥) → (IsAuto result → ⊥) → FitsChain result }
    ensures takes { TakesValue result }
{
    text_option(alloc, option).required(true)
}

/// `--<name> FILE`, which is required.
pub fn file_option<'a>(alloc: Global, name: &'a str, help: &'a str) -> Arg<'a>
    ensures id { result.id ≡ name.entry }
    ensures rule { rule_of result ≡ file_option name.entry.now }
    ensures fits { (name.entry.now ≡ [] → ⊥) → (IsAuto result → ⊥) → FitsChain result }
    ensures takes { TakesValue result }
{
    let option = TextOption {
        name,
        value: "FILE",
        help,
    };
    required_option(alloc, option)
}

/// `--<name>`
pub fn flag_option<'a>(alloc: Global, name: &'a str, help: &'a str) -> Arg<'a>
    ensures id { result.id ≡ name.entry }
    ensures rule { rule_of result ≡ flag_option name.entry.now }
    ensures fits { (name.entry.now ≡ [] → ⊥) → (IsAuto result → ⊥) → FitsChain result }
{
    Arg::new(alloc, name)
        .long(name)
        .help(help)
        .action(ArgAction::SetTrue)
}
