//! What a query means of a type that clients discover: single values here, whole queries in `query`.

ghost use Rattle.std.specs.Prelude.{◌≡◌, IfOk, string_bytes};
ghost use Rattle.params.specs.Lenient.{LenientReadsAll, dry_run_meant, fields_meant, pair_meant, truth_meant, validation_meant, value_meant};

use selector::Selector;
use std::alloc::{AllocError, Global};

fn truth_meant(value: &str) -> &str
    ensures { result.now ≡ truth_meant value.now }
{
    match value {
        "True" => "true",
        "False" => "false",
        _ => value,
    }
}

fn validation_meant(value: &str) -> &str
    ensures { result.now ≡ validation_meant value.now }
{
    match value {
        "Ignore" | "Warn" => "Strict",
        _ => value,
    }
}

fn dry_run_meant(value: &str) -> &str
    ensures { result.now ≡ dry_run_meant value.now }
{
    match value {
        "All" => "",
        _ => value,
    }
}

fn fields_meant(alloc: Global, value: &str) -> Result<&str, AllocError>
    ensures { IfOk result (λ v. v.now ≡ fields_meant value.now) }
{
    match Selector::read_fields(alloc, value)? {
        Some(_) => Ok(""),
        None => Ok(value),
    }
}

fn value_meant<'a>(alloc: Global, name: &str, value: &'a str) -> Result<&'a str, AllocError>
    ensures { IfOk result (λ v. v.now ≡ value_meant name.now value.now) }
{
    match name {
        "allowWatchBookmarks" | "force" | "watch" => Ok(truth_meant(value)),
        "fieldValidation" => Ok(validation_meant(value)),
        "dryRun" => Ok(dry_run_meant(value)),
        "fieldSelector" => fields_meant(alloc, value),
        _ => Ok(value),
    }
}

/// The pair of a query that is meant by this one.
pub(crate) fn pair_meant(
    alloc: Global,
    pair: (String, String),
) -> Result<(String, String), AllocError>
    ensures { IfOk result (λ p. (string_bytes p.0, string_bytes p.1) ≡ pair_meant (string_bytes pair.0, string_bytes pair.1)) }
{
    let (name, value) = pair;
    let value = String::from_str(alloc, value_meant(alloc, name.as_str(), value.as_str())?)?;
    Ok((name, value))
}

/// What a query says word for word, it says leniently too.
pub fn lenient_reads_all()
    ensures { LenientReadsAll }
{}
