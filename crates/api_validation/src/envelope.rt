//! Checks the envelope of a body: `apiVersion`, `kind`, `metadata`. Names, labels and annotations are checked in
//! `naming`.

ghost use Rattle.std.specs.Prelude.{◌≡◌, ◌++◌, IfOk, Some, codes, string_bytes, option_map};
ghost use Rattle.serde_json.specs.Data.{Members};
ghost use Rattle.serde_json.specs.View.{items_view, members_view, view};
ghost use Rattle.api_types.specs.Served as types;
ghost use Rattle.api_validation.specs.Envelope.{api_version_of, entries_validated, envelope_of, given_validated, is_text, is_text_or_none, kind_message, kind_validated, left_out, managers_by, member_of, must_be, name_in, metadata_in, metadata_validated, object_validated, text_in, version_allowed, version_validated, wanted_validated};
ghost use Rattle.api_request.specs.declared.reason.Reason.TheVariants.{BadRequest};
ghost use Rattle.typed.specs.Without.{omitted_of};
ghost use Rattle.api_request.specs.Json.{IsJson};
ghost use Rattle.api_request.specs.Views.{RefusesFor, Returns};
ghost use Rattle.api_validation.specs.Views.{envelope_seen, envelope_with, expected_of, metadata_there};

use api_request::{CallError, Reason, Verb};
use api_types::Served;
use json_values::{member, unless_empty};
use names::version_of;
use objects::Subresource;
use serde_json::{Map, Value};
use std::alloc::{AllocError, Global};
use typed::Omitted;

/// What a body's envelope has to name.
#[derive(Clone, Copy)]
pub struct Expected<'a> {
    pub served: &'a Served,
    pub namespace: &'a str,
    /// None where the body gives the name of its object.
    pub name: Option<&'a str>,
    /// What is asked with the body.
    pub verb: Verb,
    /// What of the body counts.
    pub subresource: Subresource,
}

/// The path of `metadata`, before a member's name.
const IN_METADATA: &str = ".metadata.";

/// Members of a body that are no fields.
const TOP: [&str; 2] = ["apiVersion", "kind"];

/// Members of `metadata` that are no fields; the last four are ignored.
const METADATA: [&str; 8] = [
    "name",
    "namespace",
    "resourceVersion",
    "managedFields",
    "uid",
    "generation",
    "creationTimestamp",
    "selfLink",
];

/// The parts of a body that are no fields.
pub fn left_out() -> Omitted<'static>
    ensures { omitted_of result ≡ left_out }
{
    Omitted {
        names: &TOP,
        inside: "metadata",
        inner: &METADATA,
    }
}

/// `group/version`.
pub fn api_version_of(alloc: Global, served: &Served) -> Result<String, AllocError>
    ensures { IfOk result (λ s. string_bytes s ≡ api_version_of (types.served served.now)) }
{
    let mut text = String::from_str(alloc, served.group.as_str())?;
    text.push_str("/")?;
    text.push_str(served.version.as_str())?;
    Ok(text)
}

/// The refusal of a member of a wrong type: the path above it, and its name.
fn wrong_type(alloc: Global, path: &str, name: &str) -> CallError
    ensures { RefusesFor result BadRequest (path.now ++ (name.now ++ codes ": wrong type")) }
{
    let message = format!(in alloc; "{path}{name}: wrong type");
    CallError::reported(alloc, Reason::BadRequest, message)
}

/// The member of an object that may be absent.
fn member_of<'a>(members: Option<&'a Map<String, Value>>, name: &str) -> Option<&'a Value>
    ensures { option_map (λ v. view v.now) result ≡ member_of name.now (option_map (λ m. members_view m.now.entries) members.entry) }
{
    member(members?, name)
}

/// The text of a member; none where it is absent, null or the empty text.
fn text_in<'a>(
    alloc: Global,
    members: Option<&'a Map<String, Value>>,
    path: &str,
    name: &str,
) -> Result<Option<&'a str>, CallError>
    ensures { Returns (option_map (λ s. s.now)) result (text_in path.now name.now (option_map (λ m. members_view m.now.entries) members.entry)) }
{
    let Some(value) = member_of(members, name) else {
        return Ok(None);
    };
    match value {
        Value::Null => Ok(None),
        Value::String(text) => Ok(unless_empty(text.as_str())),
        _ => Err(wrong_type(alloc, path, name)),
    }
}

fn is_text(given: Option<&str>, wanted: &str) -> bool
    ensures { result ≡ is_text (option_map (λ s. s.now) given.entry) wanted.now }
{
    given == Some(wanted)
}

fn is_text_or_none(given: Option<&str>, wanted: &str) -> bool
    ensures { result ≡ is_text_or_none (option_map (λ s. s.now) given.entry) wanted.now }
{
    match given {
        Some(text) => text == wanted,
        None => true,
    }
}

fn other_kind(alloc: Global, api_version: &str, kind: &str) -> CallError
    ensures { RefusesFor result BadRequest (kind_message api_version.now kind.now) }
{
    let message = format!(in alloc; "apiVersion and kind must be {api_version} and {kind}");
    CallError::reported(alloc, Reason::BadRequest, message)
}

fn validate_kind(alloc: Global, served: &Served, top: &Map<String, Value>) -> Result<(), CallError>
    ensures { Returns (λ u. u) result (kind_validated (types.served served.now) (members_view top.now.entries)) }
{
    let given_version = text_in(alloc, Some(top), ".", "apiVersion")?;
    let given_kind = text_in(alloc, Some(top), ".", "kind")?;
    let api_version = api_version_of(alloc, served)?;
    let wanted = api_version.as_str();
    let kind = served.kind.as_str();
    if is_text(given_version, wanted) && is_text(given_kind, kind) {
        return Ok(());
    }
    Err(other_kind(alloc, wanted, kind))
}

/// `metadata`, if it is there.
fn metadata_in<'a>(
    alloc: Global,
    member: Option<&'a Value>,
) -> Result<Option<&'a Map<String, Value>>, CallError>
    ensures { Returns (option_map (λ m. members_view m.now.entries)) result (metadata_in (option_map (λ v. view v.now) member.entry)) }
{
    let Some(value) = member else {
        return Ok(None);
    };
    match value {
        Value::Null => Ok(None),
        Value::Object(members) => Ok(Some(members)),
        _ => {
            let message = ".metadata: not an object";
            Err(CallError::refused_for(alloc, Reason::BadRequest, message))
        }
    }
}

fn must_be(alloc: Global, name: &str, wanted: &str) -> CallError
    ensures { RefusesFor result BadRequest (must_be name.now wanted.now) }
{
    let message = format!(in alloc; "metadata.{name} must be {wanted}");
    CallError::reported(alloc, Reason::BadRequest, message)
}

/// What is given is that of the path, where the path has one.
fn validate_wanted(
    alloc: Global,
    name: &str,
    wanted: Option<&str>,
    given: Option<&str>,
) -> Result<(), CallError>
    ensures { Returns (λ u. u) result (wanted_validated name.now (option_map (λ s. s.now) wanted.entry) (option_map (λ s. s.now) given.entry)) }
{
    let Some(wanted) = wanted else {
        return Ok(());
    };
    if is_text_or_none(given, wanted) {
        return Ok(());
    }
    Err(must_be(alloc, name, wanted))
}

/// A name that the body gives is that of the path.
fn validate_given(
    alloc: Global,
    metadata: Option<&Map<String, Value>>,
    name: &str,
    wanted: Option<&str>,
) -> Result<(), CallError>
    ensures { Returns (λ u. u) result (given_validated name.now (option_map (λ s. s.now) wanted.entry) (option_map (λ m. members_view m.now.entries) metadata.entry)) }
{
    let given = text_in(alloc, metadata, IN_METADATA, name)?;
    validate_wanted(alloc, name, wanted, given)
}

fn validate_version(
    alloc: Global,
    metadata: Option<&Map<String, Value>>,
) -> Result<Option<u64>, CallError>
    ensures { Returns (λ v. v) result (version_validated (option_map (λ m. members_view m.now.entries) metadata.entry)) }
{
    let Some(text) = text_in(alloc, metadata, IN_METADATA, "resourceVersion")? else {
        return Ok(None);
    };
    if let Some(version) = version_of(text) {
        return Ok(Some(version));
    }
    let message = "metadata.resourceVersion: bad version";
    Err(CallError::refused_for(alloc, Reason::BadRequest, message))
}

/// A creation is of no version.
fn allow_version(alloc: Global, verb: Verb, version: Option<u64>) -> Result<(), CallError>
    ensures { Returns (λ u. u) result (version_allowed verb version) }
{
    if verb != Verb::Create || version.is_none() {
        return Ok(());
    }
    let message = "metadata.resourceVersion must not be set";
    Err(CallError::refused_for(alloc, Reason::BadRequest, message))
}

fn validate_entries(alloc: Global, entries: &[Value]) -> Result<(), CallError>
    ensures { Returns (λ u. u) result (entries_validated (items_view entries.now)) }
{
    if entries.is_empty() {
        return Ok(());
    }
    let message = "metadata.managedFields must be empty";
    Err(CallError::refused_for(alloc, Reason::BadRequest, message))
}

/// An apply's body may not say who owns what; what any other write says of it is ignored.
fn validate_managers(alloc: Global, verb: Verb, member: Option<&Value>) -> Result<(), CallError>
    ensures { Returns (λ u. u) result (managers_by verb (option_map (λ v. view v.now) member.entry)) }
{
    if verb != Verb::Apply {
        return Ok(());
    }
    let Some(value) = member else {
        return Ok(());
    };
    match value {
        Value::Null => Ok(()),
        Value::Array(entries) => validate_entries(alloc, entries),
        _ => Err(wrong_type(alloc, IN_METADATA, "managedFields")),
    }
}

/// Checks the key, the version and the managers that `metadata` names, and answers that version, if there is one.
fn validate_metadata(
    alloc: Global,
    expected: Expected<'_>,
    metadata: Option<&Map<String, Value>>,
) -> Result<Option<u64>, CallError>
    ensures { (top : Members) → Returns (envelope_with top (option_map (λ m. members_view m.now.entries) metadata.entry)) result
        (metadata_validated (expected_of expected.entry) top (option_map (λ m. members_view m.now.entries) metadata.entry)) }
{
    validate_given(alloc, metadata, "name", expected.name)?;
    validate_given(alloc, metadata, "namespace", Some(expected.namespace))?;
    let version = validate_version(alloc, metadata)?;
    allow_version(alloc, expected.verb, version)?;
    let managers = member_of(metadata, "managedFields");
    validate_managers(alloc, expected.verb, managers)?;
    Ok(version)
}

fn validate_object(
    alloc: Global,
    expected: Expected<'_>,
    top: &Map<String, Value>,
) -> Result<Option<u64>, CallError>
    ensures { let top = members_view top.now.entries in
        Returns (envelope_with top (metadata_there top)) result (object_validated (expected_of expected.entry) (Some top)) }
{
    validate_kind(alloc, expected.served, top)?;
    let metadata = metadata_in(alloc, member(top, "metadata"))?;
    validate_metadata(alloc, expected, metadata)
}

/// The name that a body gives its object.
pub fn name_in(body: &Value) -> Option<&str>
    ensures { option_map (λ s. s.now) result ≡ name_in (view body.now) }
{
    unless_empty(body.get("metadata")?.get("name")?.as_str()?)
}

/// Validates the envelope of a write's body, in order: the body is an object, `apiVersion` and `kind`,
/// `metadata`, `name`, `namespace`, `resourceVersion`, `managedFields`. Answers the version that the body names, if any.
pub fn validate(
    alloc: Global,
    body: &Value,
    expected: Expected<'_>,
) -> Result<Option<u64>, CallError>
    requires json { IsJson (view body.now) }
    ensures { Returns (envelope_seen (view body.now)) result (envelope_of (expected_of expected.entry) (view body.now)) }
{
    match body {
        Value::Object(top) => validate_object(alloc, expected, top),
        _ => {
            let message = ".: not an object";
            Err(CallError::refused_for(alloc, Reason::BadRequest, message))
        }
    }
}
