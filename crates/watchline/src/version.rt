//! Prints an object's text again with another version, as the line of a deletion shows it. The line stands in `lines`.

ghost use Rattle.std.specs.Prelude.{◌≡◌, IfOk, option_and_then, option_map, string_bytes};
ghost use Rattle.serde_json.specs.Read.{read};
ghost use Rattle.serde_json.specs.View.{members_view, view};
ghost use Rattle.watchline.specs.Versions.{metadata_at, text_at_version, text_of, value_at, value_of};

use json_values::{has_float, into_object, read_text, split_off};
use revtable::Fault;
use serde_json::{Map, Value};
use std::alloc::{AllocError, Global};

fn metadata_at(
    alloc: Global,
    metadata: Map<String, Value>,
    revision: u64,
) -> Result<Map<String, Value>, AllocError>
    ensures { IfOk result (λ m. members_view m.entries ≡ metadata_at revision (members_view metadata.entries)) }
{
    let version = revision.to_string(alloc)?;
    let mut members = metadata;
    serde_json::put(
        &mut members,
        alloc,
        "resourceVersion",
        Value::String(version),
    )?;
    Ok(members)
}

fn value_of(
    alloc: Global,
    others: Map<String, Value>,
    metadata: Map<String, Value>,
    revision: u64,
) -> Result<Value, AllocError>
    ensures { IfOk result (λ v. view v ≡ value_of revision (members_view others.entries) (members_view metadata.entries)) }
{
    let metadata = metadata_at(alloc, metadata, revision)?;
    let mut members = others;
    serde_json::put(&mut members, alloc, "metadata", Value::Object(metadata))?;
    Ok(Value::Object(members))
}

fn value_at(alloc: Global, value: Value, revision: u64) -> Result<Option<Value>, AllocError>
    ensures { IfOk result (λ o. option_map view o ≡ value_at revision (view value)) }
{
    let Some(members) = into_object(value) else {
        return Ok(None);
    };
    let Some((others, metadata)) = split_off(members, "metadata") else {
        return Ok(None);
    };
    Ok(Some(value_of(alloc, others, metadata, revision)?))
}

fn text_of(alloc: Global, value: &Value) -> Result<Option<String>, AllocError>
    ensures { IfOk result (λ o. option_map string_bytes o ≡ text_of (view value.now)) }
{
    if has_float(value) {
        return Ok(None);
    }
    Ok(Some(value.to_string(alloc)?))
}

fn printed_at(alloc: Global, text: &str, revision: u64) -> Result<Option<String>, Fault>
    ensures { IfOk result (λ o. option_map string_bytes o ≡ option_and_then text_of (option_and_then (value_at revision) (read text.now))) }
{
    let Some(value) = read_text(alloc, text)? else {
        return Ok(None);
    };
    let Some(value) = value_at(alloc, value, revision)? else {
        return Ok(None);
    };
    Ok(text_of(alloc, &value)?)
}

/// The object's text at a version: printed again with it; a text that is no object's stays as it is.
pub fn text_at_version(alloc: Global, text: &str, revision: u64) -> Result<String, Fault>
    ensures { IfOk result (λ s. string_bytes s ≡ text_at_version revision text.now) }
{
    match printed_at(alloc, text, revision)? {
        Some(printed) => Ok(printed),
        None => Ok(String::from_str(alloc, text)?),
    }
}
