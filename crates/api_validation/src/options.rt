//! The body of a deletion (Kubernetes API reference, "DeleteOptions", "Preconditions"). The deletion stands in `validating`
//! of the crate `verbs`.

ghost use Rattle.std.specs.Prelude.{◌≡◌, codes, option_map};
ghost use Rattle.serde_json.specs.View.{items_view, members_view, view};
ghost use Rattle.api_request.specs.declared.reason.Reason.TheVariants.{BadRequest};
ghost use Rattle.api_types.specs.Profiles.{is_discovered};
ghost use Rattle.api_types.specs.Served as types;
ghost use Rattle.api_validation.specs.Options.{are_all, asks_dry_run, is_all, is_blank, is_dry_deletion, is_no_list, may_stand, options_in, options_validated, preconditions_in, preconditions_read, text_in};
ghost use Rattle.api_request.specs.Views.{RefusesFor, Returns, body_seen};

use api_request::{Body, CallError, Reason};
use api_types::Served;
use json_values::{member, unless_empty};
use names::version_of;
use serde_json::{Map, Value};
use std::alloc::Global;

fn bad_options(alloc: Global) -> CallError
    ensures { RefusesFor result BadRequest (codes "bad delete options") }
{
    CallError::refused_for(alloc, Reason::BadRequest, "bad delete options")
}

fn is_no_list(items: &[Value]) -> bool
    ensures { result ≡ is_no_list (items_view items.now) }
{
    items.is_empty()
}

/// Whether it is absent, null, the empty text or the empty list.
fn is_blank(member: Option<&Value>) -> bool
    ensures { result ≡ is_blank (option_map (λ v. view v.now) member.entry) }
{
    let Some(value) = member else {
        return true;
    };
    match value {
        Value::Null => true,
        Value::String(text) => text.is_empty(),
        Value::Array(items) => is_no_list(items),
        _ => false,
    }
}

fn is_all(value: &Value) -> bool
    ensures { result ≡ is_all (view value.now) }
{
    match value {
        Value::String(text) => text.as_str() == "All",
        _ => false,
    }
}

fn are_all(items: &[Value]) -> bool
    ensures { result ≡ are_all (items_view items.now) }
{
    let Some((item, others)) = items.split_first() else {
        return false;
    };
    is_no_list(others) && is_all(item)
}

/// Whether it is the list of `All`.
fn asks_dry_run(member: Option<&Value>) -> bool
    ensures { result ≡ asks_dry_run (option_map (λ v. view v.now) member.entry) }
{
    let Some(value) = member else {
        return false;
    };
    match value {
        Value::Array(items) => are_all(items),
        _ => false,
    }
}

/// Whether `dryRun` may stand in options so.
fn may_stand(is_lenient: bool, dry_run: Option<&Value>) -> bool
    ensures { result ≡ may_stand is_lenient (option_map (λ v. view v.now) dry_run.entry) }
{
    if is_lenient {
        return is_blank(dry_run) || asks_dry_run(dry_run);
    }
    is_blank(dry_run)
}

/// The text of a member; none where it is absent, null or the empty text.
fn text_in<'a>(alloc: Global, member: Option<&'a Value>) -> Result<Option<&'a str>, CallError>
    ensures { Returns (option_map (λ s. s.now)) result (text_in (option_map (λ v. view v.now) member.entry)) }
{
    let Some(value) = member else {
        return Ok(None);
    };
    match value {
        Value::Null => Ok(None),
        Value::String(text) => Ok(unless_empty(text.as_str())),
        _ => Err(bad_options(alloc)),
    }
}

/// The version that the object has to have.
fn read_preconditions(alloc: Global, members: &Map<String, Value>) -> Result<Option<u64>, CallError>
    ensures { Returns (λ v. v) result (preconditions_read (members_view members.now.entries)) }
{
    let uid = text_in(alloc, member(members, "uid"))?;
    if uid.is_some() {
        return Err(bad_options(alloc));
    }
    let Some(text) = text_in(alloc, member(members, "resourceVersion"))? else {
        return Ok(None);
    };
    match version_of(text) {
        Some(version) => Ok(Some(version)),
        None => Err(bad_options(alloc)),
    }
}

fn preconditions_in(alloc: Global, member: Option<&Value>) -> Result<Option<u64>, CallError>
    ensures { Returns (λ v. v) result (preconditions_in (option_map (λ v. view v.now) member.entry)) }
{
    let Some(value) = member else {
        return Ok(None);
    };
    match value {
        Value::Null => Ok(None),
        Value::Object(members) => read_preconditions(alloc, members),
        _ => Err(bad_options(alloc)),
    }
}

fn options_in(
    alloc: Global,
    is_lenient: bool,
    members: &Map<String, Value>,
) -> Result<Option<u64>, CallError>
    ensures { Returns (λ v. v) result (options_in is_lenient (Some (members_view members.now.entries))) }
{
    if !may_stand(is_lenient, member(members, "dryRun")) {
        return Err(bad_options(alloc));
    }
    preconditions_in(alloc, member(members, "preconditions"))
}

/// The version that the body of a deletion asks for, if any. Of a type that clients discover its `dryRun` may be `["All"]`.
pub fn validate_options(
    alloc: Global,
    served: &Served,
    body: Option<&Body>,
) -> Result<Option<u64>, CallError>
    ensures { Returns (λ v. v) result (options_validated (is_discovered (types.served served.now).profile) (option_map (λ b. body_seen b.now) body.entry)) }
{
    let Some(body) = body else {
        return Ok(None);
    };
    match &body.value {
        Value::Object(members) => options_in(alloc, served.profile.is_discovered(), members),
        _ => Err(bad_options(alloc)),
    }
}

/// Whether the body of a deletion asks that nothing be deleted: its `dryRun` is `["All"]` ("Kubernetes API Concepts", "Dry-run").
pub fn is_dry_deletion(body: Option<&Body>) -> bool
    ensures { result ≡ is_dry_deletion (option_map (λ b. body_seen b.now) body.entry) }
{
    let Some(body) = body else {
        return false;
    };
    match &body.value {
        Value::Object(members) => asks_dry_run(member(members, "dryRun")),
        _ => false,
    }
}
