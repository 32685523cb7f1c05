//! The checks of names, labels and annotations, in paths and bodies. The rest of an envelope is checked in `envelope`.

ghost use Rattle.std.specs.Prelude.{◌≡◌, codes, option_map};
ghost use Rattle.serde_json.specs.View.{members_view, view};
ghost use Rattle.history.specs.Read.{key_of};
ghost use Rattle.api_request.specs.declared.reason.Reason.TheVariants.{Invalid};
ghost use Rattle.api_request.specs.Validated.{require, require_at};
ghost use Rattle.api_validation.specs.Naming.{annotation_validated, annotations_validated, if_there, label_validated, labels_validated, labels_and_annotations_validated, labels_and_annotations_validated_by, metadata_object, names_validated, path_validated, required_name};
ghost use Rattle.api_request.specs.Views.{Returns};
ghost use Rattle.api_validation.specs.Views.{rest_seen};

use api_request::{CallError, CauseType, Reason};
use history::Key;
use names::{is_dns_label, is_dns_subdomain, is_label_key, is_label_value};
use objects::Subresource;
use serde_json::{Map, Value};
use std::alloc::Global;

/// A refusal, unless the test holds.
pub fn require(alloc: Global, is_good: bool, message: &str) -> Result<(), CallError>
    ensures { Returns (λ u. u) result (require is_good Invalid message.now) }
{
    if is_good {
        return Ok(());
    }
    Err(CallError::refused_for(alloc, Reason::Invalid, message))
}

/// A refusal of the field at a path, unless the test holds.
pub fn require_at(alloc: Global, is_good: bool, path: &str, what: &str) -> Result<(), CallError>
    ensures { Returns (λ u. u) result (require_at is_good path.now what.now) }
{
    if !is_good {
        return Err(CallError::invalid_at(alloc, path, what));
    }
    Ok(())
}

fn validate_path(alloc: Global, namespace: &str, name: &str) -> Result<(), CallError>
    ensures { Returns (λ u. u) result (path_validated namespace.now name.now) }
{
    require_at(alloc, is_dns_subdomain(name), "metadata.name", "bad name")?;
    require_at(
        alloc,
        is_dns_label(namespace),
        "metadata.namespace",
        "bad namespace",
    )
}

fn validate_label(alloc: Global, key: &str, member: &Value) -> Result<(), CallError>
    ensures { Returns (λ u. u) result (label_validated key.now (view member.now)) }
{
    match member {
        Value::String(value) => {
            require_at(alloc, is_label_key(key), "metadata.labels", "bad key")?;
            require_at(
                alloc,
                is_label_value(value.as_str()),
                "metadata.labels",
                "bad value",
            )
        }
        _ => Ok(()),
    }
}

fn validate_annotation(alloc: Global, key: &str, member: &Value) -> Result<(), CallError>
    ensures { Returns (λ u. u) result (annotation_validated key.now (view member.now)) }
{
    match member {
        Value::String(_) => require_at(alloc, is_label_key(key), "metadata.annotations", "bad key"),
        _ => Ok(()),
    }
}

/// Labels in the order of their keys, each key before its value.
fn validate_labels(alloc: Global, labels: &Map<String, Value>) -> Result<(), CallError>
    ensures { Returns (λ u. u) result (labels_validated (members_view labels.now.entries)) }
{
    for (key, member) in labels.iter() {
        validate_label(alloc, key.as_str(), member)?;
    }
    Ok(())
}

/// Annotations in the order of their keys.
fn validate_annotations(alloc: Global, annotations: &Map<String, Value>) -> Result<(), CallError>
    ensures { Returns (λ u. u) result (annotations_validated (members_view annotations.now.entries)) }
{
    for (key, member) in annotations.iter() {
        validate_annotation(alloc, key.as_str(), member)?;
    }
    Ok(())
}

/// An object in `metadata`, if it is there.
pub fn metadata_object<'a>(body: &'a Value, name: &str) -> Option<&'a Map<String, Value>>
    ensures { option_map (λ m. members_view m.now.entries) result ≡ metadata_object name.now (view body.now) }
{
    body.get("metadata")?.get(name)?.as_object()
}

fn validate_labels_of(alloc: Global, body: &Value) -> Result<(), CallError>
    ensures { Returns (λ u. u) result (if_there labels_validated (metadata_object (codes "labels") (view body.now))) }
{
    match metadata_object(body, "labels") {
        Some(labels) => validate_labels(alloc, labels),
        None => Ok(()),
    }
}

fn validate_annotations_of(alloc: Global, body: &Value) -> Result<(), CallError>
    ensures { Returns (λ u. u) result (if_there annotations_validated (metadata_object (codes "annotations") (view body.now))) }
{
    match metadata_object(body, "annotations") {
        Some(annotations) => validate_annotations(alloc, annotations),
        None => Ok(()),
    }
}

/// The labels and annotations of a body, which are no part of its envelope.
fn validate_labels_and_annotations(alloc: Global, body: &Value) -> Result<(), CallError>
    ensures { Returns (λ u. u) result (labels_and_annotations_validated (rest_seen (view body.now))) }
{
    validate_labels_of(alloc, body)?;
    validate_annotations_of(alloc, body)
}

/// Those that a write gives: a status has none.
pub fn validate_labels_and_annotations_by(
    alloc: Global,
    subresource: Subresource,
    body: &Value,
) -> Result<(), CallError>
    ensures { Returns (λ u. u) result (labels_and_annotations_validated_by subresource (rest_seen (view body.now))) }
{
    match subresource {
        Subresource::Main => validate_labels_and_annotations(alloc, body),
        Subresource::Status => Ok(()),
    }
}

/// A creation has to name its object.
pub fn require_name<'a>(alloc: Global, name: Option<&'a str>) -> Result<&'a str, CallError>
    ensures { Returns (λ s. s.now) result (required_name (option_map (λ s. s.now) name.entry)) }
{
    match name {
        Some(name) => Ok(name),
        None => Err(CallError::at_field(
            alloc,
            Reason::Invalid,
            CauseType::FieldValueRequired,
            "metadata.name",
            "required",
        )),
    }
}

/// The object's name and namespace, then the body's labels and annotations.
pub fn validate_names(
    alloc: Global,
    subresource: Subresource,
    key: &Key,
    body: &Value,
) -> Result<(), CallError>
    ensures { Returns (λ u. u) result (names_validated subresource (key_of key.now).namespace (key_of key.now).name (rest_seen (view body.now))) }
{
    validate_path(alloc, key.namespace.as_str(), key.name.as_str())?;
    validate_labels_and_annotations_by(alloc, subresource, body)
}
