//! Options that take numbers, and their reading. Options that take texts stand in `commands`.
ghost use Rattle.std.specs.Prelude.{◌≡◌, ◌≤◌, ℕ, [], None, IfErr, IfOk, OnErr, option_map};
ghost use Rattle.clap.specs.Built.{FitsChain, IsAuto, TakesValue};
ghost use Rattle.clap.specs.Matches.{first_value, found_of};
ghost use Rattle.clap.specs.Words.{rule_of};
ghost use Rattle.programs.specs.Numbers.{IsNumberIn, IsRead, IsReadBy, count_of, number_option};
ghost use Rattle.programs.specs.declared.run_fault.RunFault.TheVariants.{Number};

use crate::run_fault::RunFault;
use clap::{Arg, ArgAction, ArgMatches};
use std::alloc::Global;

/// An option that takes a whole number.
#[derive(Clone, Copy, Debug)]
pub struct NumberOption {
    pub name: &'static str,
    /// The number where the option isn't given; with none, it is required.
    pub default: Option<&'static str>,
    /// The least number that it may be.
    pub least: u64,
    /// The most that it may be.
    pub most: u64,
    pub help: &'static str,
}

/// `--<name> N`
pub fn number_option<'a>(alloc: Global, option: NumberOption) -> Arg<'a>
    ensures id { result.id ≡ option.name }
    ensures rule { rule_of result ≡ number_option (option_map (λ s. s.now) option.default) option.name.now }
    ensures fits { (option.name.now ≡ [] → ⊥) → (IsAuto result → ⊥) → FitsChain result }
    ensures takes { option.default ≡ None → TakesValue result }
{
    let arg = Arg::new(alloc, option.name)
        .long(option.name)
        .value_name("N")
        .help(option.help)
        .action(ArgAction::Set);
    match option.default {
        Some(default) => arg.default_value(default),
        None => arg.required(true),
    }
}

/// The number that a text tells.
fn number_in(text: &str) -> Option<u64>
    ensures { IsRead text.now result }
{
    text.parse().ok()
}

/// The number that an option's text tells, or else its default's.
fn number_of(text: Option<&str>, default: Option<&str>) -> Option<u64>
    ensures { IsReadBy (option_map (λ s. s.now) default.entry) (option_map (λ s. s.now) text.entry) result }
{
    match (text, default) {
        (Some(text), _) => number_in(text),
        (None, Some(default)) => number_in(default),
        (None, None) => None,
    }
}

/// The number of an option, which is in the option's range.
pub fn number(matches: &ArgMatches<'_>, option: NumberOption) -> Result<u64, RunFault>
    ensures number { IfOk result (λ n. IsNumberIn (option_map (λ s. s.now) option.default) (first_value (found_of matches.now) option.name.now) option.least option.most n) }
    ensures refused { OnErr result ((n : ℕ) → IsNumberIn (option_map (λ s. s.now) option.default) (first_value (found_of matches.now) option.name.now) option.least option.most n → ⊥) }
    ensures fault { IfErr result (λ f. f ≡ Number option) }
{
    match number_of(matches.get_str(option.name), option.default) {
        Some(number) if option.least <= number && number <= option.most => Ok(number),
        _ => Err(RunFault::Number(option)),
    }
}

/// The number of an option as a port, which it is where the option is at most 65535.
pub fn port_of(number: u64, option: NumberOption) -> Result<u16, RunFault>
    ensures { IfOk result (λ port. port ≡ number) }
{
    u16::try_from(number).map_err(|_| RunFault::Number(option))
}

/// How many of a thing there are: 0 stands for the highest number.
pub fn count_of(number: u64) -> u64
    ensures { result ≡ count_of number }
{
    if number == 0 { u64::MAX } else { number }
}
