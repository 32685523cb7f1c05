//! The members of a reply's JSON objects, by name; which members there have to be stands in `page`, `line` and `object`.

ghost use Rattle.std.specs.Prelude.{◌≡◌, option_map};
ghost use Rattle.serde_json.specs.View.{members_view, view};
ghost use Rattle.decoder.specs.Members.{at, members_of, metadata_in, text_at, unless_null, value_in, version_in};
ghost use Rattle.decoder.specs.Views.{Returns, Says};

use crate::fault::DecodeFault;
use crate::malformed::Malformed;
use json_values::{member, unless_empty};
use names::version_of;
use serde_json::{Map, Value};
use std::alloc::Global;

/// The JSON value that these bytes are.
pub(crate) fn value_in(alloc: Global, bytes: &[u8]) -> Result<Value, DecodeFault>
    ensures { Returns view result (value_in bytes.now) }
{
    match Value::from_slice(alloc, bytes) {
        Ok(value) => Ok(value),
        Err(error) if error.is_memory() => Err(DecodeFault::Memory),
        Err(_) => Err(DecodeFault::Malformed(Malformed::Json)),
    }
}

pub(crate) fn members_of(value: &Value) -> Result<&Map<String, Value>, Malformed>
    ensures { Says (λ m. members_view m.now.entries) result (members_of (view value.now)) }
{
    value.as_object().ok_or(Malformed::Object)
}

fn unless_null(value: &Value) -> Option<&Value>
    ensures { option_map (λ v. view v.now) result ≡ unless_null (view value.now) }
{
    if value.is_null() { None } else { Some(value) }
}

/// The member of this name; one that is null is absent.
pub(crate) fn at<'a>(members: &'a Map<String, Value>, name: &str) -> Option<&'a Value>
    ensures { option_map (λ v. view v.now) result ≡ at name.now (members_view members.now.entries) }
{
    match member(members, name) {
        Some(value) => unless_null(value),
        None => None,
    }
}

/// The text of a member; an empty one is none.
pub(crate) fn text_at<'a>(members: &'a Map<String, Value>, name: &str) -> Option<&'a str>
    ensures { option_map (λ s. s.now) result ≡ text_at name.now (members_view members.now.entries) }
{
    match at(members, name) {
        Some(value) => unless_empty(value.as_str()?),
        None => None,
    }
}

pub(crate) fn metadata_in(top: &Map<String, Value>) -> Result<&Map<String, Value>, Malformed>
    ensures { Says (λ m. members_view m.now.entries) result (metadata_in (members_view top.now.entries)) }
{
    match at(top, "metadata") {
        Some(metadata) => metadata.as_object().ok_or(Malformed::Metadata),
        None => Err(Malformed::Metadata),
    }
}

pub(crate) fn version_in(metadata: &Map<String, Value>) -> Result<u64, Malformed>
    ensures { Says (λ n. n) result (version_in (members_view metadata.now.entries)) }
{
    match text_at(metadata, "resourceVersion") {
        Some(text) => version_of(text).ok_or(Malformed::Version),
        None => Err(Malformed::Version),
    }
}
