//! The JSON values of what stands at one path. A whole content is printed in `print`.

ghost use Rattle.std.specs.Prelude.{◌≡◌, ◌++◌, IfOk, OnOk, option_map, option_to_list, string_bytes};
ghost use Rattle.serde_json.specs.View.{view, items_view, members_view};
ghost use Rattle.pathmap.specs.Maps.{content, leaf_value};
ghost use Rattle.typed.specs.Printing.{array_or_none, keys_in, object_or_none, scalar_in, value_at, value_of, with_member};

use fieldpath::ElemText;
use json_values::read_text;
use pathmap::{PathMap, PathValue};
use serde_json::{Map, Value};
use std::alloc::{AllocError, Global};

pub(crate) fn print_held(alloc: Global, held: &PathValue) -> Result<Option<Value>, AllocError>
    ensures { IfOk result (λ o. option_map view o ≡ value_of (leaf_value held.now)) }
{
    match held {
        PathValue::Text(text) => Ok(Some(Value::from(text.clone()?))),
        PathValue::Whole(number) => Ok(Some(Value::from(*number))),
        PathValue::Truth(truth) => Ok(Some(Value::from(*truth))),
        PathValue::Plain(text) => read_text(alloc, text.as_str()),
        PathValue::Mark => Ok(None),
    }
}

/// The value at the top.
pub(crate) fn print_top(alloc: Global, map: &PathMap) -> Result<Option<Value>, AllocError>
    ensures { IfOk result (λ o. option_map view o ≡ value_at (content map.now)) }
{
    match map.held() {
        Some(held) => print_held(alloc, held),
        None => Ok(None),
    }
}

/// The scalar in a set item's element.
pub(crate) fn scalar_of(alloc: Global, element: &ElemText) -> Result<Option<Value>, AllocError>
    ensures { IfOk result (λ o. option_map view o ≡ scalar_in (string_bytes element.now)) }
{
    match element.scalar_json() {
        Some(text) => read_text(alloc, text),
        None => Ok(None),
    }
}

/// The key fields in a map list item's element.
pub(crate) fn keys_of(
    alloc: Global,
    element: &ElemText,
) -> Result<Option<Map<String, Value>>, AllocError>
    ensures { IfOk result (λ o. option_map (λ m. members_view m.entries) o ≡ keys_in (string_bytes element.now)) }
{
    let Some(text) = element.keys_json() else {
        return Ok(None);
    };
    match read_text(alloc, text)? {
        Some(Value::Object(keys)) => Ok(Some(keys)),
        _ => Ok(None),
    }
}

pub(crate) fn put_member(
    members: &mut Map<String, Value>,
    alloc: Global,
    name: &str,
    value: Option<Value>,
) -> Result<(), AllocError>
    ensures { OnOk result (members_view members.new.entries ≡ with_member name.now (option_map view value) (members_view members.old.entries)) }
{
    if let Some(value) = value {
        members.insert(String::from_str(alloc, name)?, value)?;
    }
    Ok(())
}

pub(crate) fn object_of(members: Map<String, Value>) -> Option<Value>
    ensures { option_map view result ≡ object_or_none (members_view members.entries) }
{
    if members.len() == 0 {
        None
    } else {
        Some(Value::from(members))
    }
}

pub(crate) fn push_item(items: &mut Vec<Value>, item: Option<Value>) -> Result<(), AllocError>
    ensures { OnOk result (items.new.items ≡ items.old.items ++ option_to_list item) }
{
    if let Some(item) = item {
        items.push(item)?;
    }
    Ok(())
}

pub(crate) fn array_of(items: Vec<Value>) -> Option<Value>
    ensures { option_map view result ≡ array_or_none (items_view items.items) }
{
    if items.is_empty() {
        None
    } else {
        Some(Value::from(items))
    }
}
