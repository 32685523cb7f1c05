//! Reads an object, as a list's item or in a watch's line; its type is checked in `kinds`.

ghost use Rattle.std.specs.Prelude.{◌≡◌, option_map, string_bytes};
ghost use Rattle.serde_json.specs.View.{members_view, view};
ghost use Rattle.json_values.specs.Texts.{named_texts, texts_of};
ghost use Rattle.indexer.specs.Objects.{shared_of, stored_of};
ghost use Rattle.decoder.specs.declared.malformed.Malformed.TheVariants as malformed;
ghost use Rattle.decoder.specs.Members.{or_malformed};
ghost use Rattle.decoder.specs.Objects.{labels_of, namespace_in, object_of, text_of};
ghost use Rattle.decoder.specs.Views.{Returns, Says, name_in, wanted_of};

use crate::fault::DecodeFault;
use crate::kinds::check_kind;
use crate::malformed::Malformed;
use crate::members::{at, members_of, metadata_in, text_at, version_in};
use crate::wanted::{Wanted, is_in};
use indexer::Object;
use json_values::{has_float, texts_of};
use serde_json::{Map, Value};
use std::alloc::Global;
use std::collections::BTreeMap;
use std::rc::{Rc, RcStr};

fn name_in(metadata: &Map<String, Value>) -> Result<&str, Malformed>
    ensures { Says (λ s. s.now) result (name_in (members_view metadata.now.entries)) }
{
    text_at(metadata, "name").ok_or(Malformed::Name)
}

fn namespace_in<'a>(wanted: &Wanted, metadata: &'a Map<String, Value>) -> Result<&'a str, Malformed>
    ensures { Says (λ s. s.now) result (namespace_in (wanted_of wanted.now).namespace (members_view metadata.now.entries)) }
{
    match text_at(metadata, "namespace") {
        Some(namespace) if is_in(wanted, namespace) => Ok(namespace),
        _ => Err(Malformed::Namespace),
    }
}

fn texts_in(
    alloc: Global,
    members: &Map<String, Value>,
) -> Result<BTreeMap<String, String>, DecodeFault>
    ensures { Returns named_texts result (or_malformed malformed.Labels (texts_of (members_view members.now.entries))) }
{
    match texts_of(alloc, members)? {
        Some(labels) => Ok(labels),
        None => Err(DecodeFault::Malformed(Malformed::Labels)),
    }
}

fn labels_of(alloc: Global, value: Option<&Value>) -> Result<BTreeMap<String, String>, DecodeFault>
    ensures { Returns named_texts result (labels_of (option_map (λ v. view v.now) value.entry)) }
{
    let Some(value) = value else {
        return Ok(BTreeMap::new(alloc));
    };
    let members = value.as_object().ok_or(Malformed::Labels)?;
    texts_in(alloc, members)
}

/// The compact JSON of a value without floats, in no more room than it takes, since many are kept.
fn text_of(alloc: Global, value: &Value) -> Result<String, DecodeFault>
    ensures { Returns (λ s. string_bytes s) result (text_of (view value.now)) }
{
    if has_float(value) {
        return Err(DecodeFault::Malformed(Malformed::Number));
    }
    let mut text = value.to_string(alloc)?;
    text.shrink_to_fit();
    Ok(text)
}

/// The object that a JSON value is.
pub(crate) fn object_of(
    alloc: Global,
    wanted: &Wanted,
    value: &Value,
) -> Result<Object, DecodeFault>
    ensures { Returns stored_of result (object_of (wanted_of wanted.now) (view value.now)) }
{
    let top = members_of(value)?;
    check_kind(wanted, top)?;
    let metadata = metadata_in(top)?;
    let name = name_in(metadata)?;
    let namespace = namespace_in(wanted, metadata)?;
    let revision = version_in(metadata)?;
    let labels = labels_of(alloc, at(metadata, "labels"))?;
    let text = text_of(alloc, value)?;
    Ok(Object {
        namespace: RcStr::from_str(alloc, namespace)?,
        name: RcStr::from_str(alloc, name)?,
        revision,
        labels,
        text,
    })
}

/// The same, to be shared.
pub(crate) fn shared_object_of(
    alloc: Global,
    wanted: &Wanted,
    value: &Value,
) -> Result<Rc<Object>, DecodeFault>
    ensures { Returns shared_of result (object_of (wanted_of wanted.now) (view value.now)) }
{
    let object = object_of(alloc, wanted, value)?;
    Ok(object.shared(alloc)?)
}
