//! The disturbances that an option asks for: a seed, and kinds. After which revisions they come is said in `polling`.

ghost use Rattle.std.specs.Prelude.{◌≡◌, IfOk, IfSome, None, false, map, option_map};
ghost use Rattle.programs.specs.Numbers.{IsRead};
ghost use Rattle.server_program.specs.Disturbing.{AsksBy, AsksFor, kinds_text, names_in, seed_text, with_kind, with_kinds};

use crate::fault::ServerFault;
use polling::Disturbances;
use std::alloc::{AllocError, Global};

const ALL_KINDS: &str = "cuts,holds,expiries";

/// The texts before and behind the first colon; where there is none, all kinds are behind it.
fn parted(text: &str) -> (&str, &str)
    ensures seed { result.0.now ≡ seed_text text.now }
    ensures kinds { result.1.now ≡ kinds_text text.now }
{
    text.split_once(':').unwrap_or((text, ALL_KINDS))
}

fn seed_in(text: &str) -> Option<u64>
    ensures { IsRead text.now result }
{
    text.parse().ok()
}

fn names_in(alloc: Global, text: &str) -> Result<Vec<&str>, AllocError>
    ensures { IfOk result (λ names. map (λ name. name.now) names.items ≡ names_in text.now) }
{
    text.split(',').collect(alloc)
}

/// The kind of a name beside those before it.
fn with_kind(asked: Disturbances, name: &str) -> Option<Disturbances>
    ensures { result ≡ with_kind asked name.now }
{
    match name {
        "cuts" => Some(Disturbances {
            cuts: true,
            ..asked
        }),
        "holds" => Some(Disturbances {
            holds: true,
            ..asked
        }),
        "expiries" => Some(Disturbances {
            expiries: true,
            ..asked
        }),
        _ => None,
    }
}

/// The kinds of these names, where all are names of kinds.
fn with_kinds(of_seed: Disturbances, names: &[&str]) -> Option<Disturbances>
    ensures { result ≡ with_kinds of_seed (map (λ name. name.now) names.now) }
{
    let mut asked = of_seed;
    for name in names {
        asked = with_kind(asked, name)?;
    }
    Some(asked)
}

/// What a text asks for, where it has a seed and kinds.
fn disturbances_in(alloc: Global, text: &str) -> Result<Option<Disturbances>, AllocError>
    ensures { IfOk result (λ asked. IfSome asked (AsksFor text.now)) }
{
    let (seed, kinds) = parted(text);
    let Some(seed) = seed_in(seed) else {
        return Ok(None);
    };
    let names = names_in(alloc, kinds)?;
    let of_seed = Disturbances {
        seed,
        cuts: false,
        holds: false,
        expiries: false,
    };
    Ok(with_kinds(of_seed, &names))
}

/// What an option's text asks for, where many connections are served at once; without one, nothing.
pub(crate) fn disturbances_of(
    alloc: Global,
    text: Option<&str>,
    is_at_once: bool,
) -> Result<Option<Disturbances>, ServerFault>
    ensures asked { IfOk result (AsksBy (option_map (λ s. s.now) text.entry)) }
    ensures at_once { is_at_once ≡ false → IfOk result (λ asked. asked ≡ None) }
{
    let Some(text) = text else {
        return Ok(None);
    };
    if !is_at_once {
        return Err(ServerFault::DisturbsInTurn);
    }
    match disturbances_in(alloc, text)? {
        Some(asked) => Ok(Some(asked)),
        None => Err(ServerFault::Disturbances),
    }
}
