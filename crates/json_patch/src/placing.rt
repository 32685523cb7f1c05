//! A value that comes to a place: added there, or in place of what is there.

ghost use Rattle.std.specs.Prelude.{◌≡◌, IfOk, map, option_map, string_bytes};
ghost use Rattle.serde_json.specs.View.{items_view, view};
ghost use Rattle.json_patch.specs.Operations.{add_child, add_item, is_added_here, placed, set};

use crate::nesting::nests;
use crate::places::index;
use crate::pointer::Pointer;
use serde_json::Value;
use std::alloc::{AllocError, Global};

/// How a value comes to its place.
#[derive(Clone, Copy, Debug)]
pub(crate) enum Placing {
    Adds,
    Replaces,
}

/// The items with the value before the one of this index; `-` is the place after the last.
fn add_item(items: Vec<Value>, token: &str, value: Value) -> Result<Option<Vec<Value>>, AllocError>
    ensures { IfOk result (λ o. option_map (λ v. items_view v.items) o ≡ add_item token.now (view value) (items_view items.items)) }
{
    let mut added = items;
    if token == "-" {
        added.push(value)?;
        return Ok(Some(added));
    }
    let Some(index) = index(token) else {
        return Ok(None);
    };
    if added.len() < index {
        return Ok(None);
    }
    added.insert(index, value)?;
    Ok(Some(added))
}

fn add_child(
    alloc: Global,
    value: Value,
    token: &str,
    whole: Value,
) -> Result<Option<Value>, AllocError>
    ensures { IfOk result (λ o. option_map view o ≡ add_child token.now (view value) (view whole)) }
{
    match whole {
        Value::Object(members) => {
            let mut added = members;
            drop(added.insert(String::from_str(alloc, token)?, value)?);
            Ok(Some(Value::Object(added)))
        }
        Value::Array(items) => match add_item(items, token, value)? {
            Some(added) => Ok(Some(Value::Array(added))),
            None => Ok(None),
        },
        _ => Ok(None),
    }
}

/// Whether the value is added at the token before these.
fn is_added_here(placing: Placing, rest: &[String]) -> bool
    ensures { result ≡ is_added_here placing (map string_bytes rest.now) }
{
    match placing {
        Placing::Adds => rest.is_empty(),
        Placing::Replaces => false,
    }
}

/// The whole with the value at these tokens; none where the place isn't there.
fn placed(
    alloc: Global,
    placing: Placing,
    value: Value,
    tokens: &[String],
    whole: Value,
) -> Result<Option<Value>, AllocError>
    ensures { IfOk result (λ o. option_map view o ≡ placed placing (view value) (map string_bytes tokens.now) (view whole)) }
{
    let Some((token, rest)) = tokens.split_first() else {
        return Ok(Some(value));
    };
    let name = token.as_str();
    if is_added_here(placing, rest) {
        return add_child(alloc, value, name, whole);
    }
    match whole {
        Value::Object(members) => {
            let mut changed = members;
            let Some(place) = changed.get_mut(name) else {
                return Ok(None);
            };
            let Some(new) = placed(alloc, placing, value, rest, place.take())? else {
                return Ok(None);
            };
            *place = new;
            Ok(Some(Value::Object(changed)))
        }
        Value::Array(items) => {
            let mut changed = items;
            let Some(index) = index(name) else {
                return Ok(None);
            };
            let Some(place) = changed.get_mut(index) else {
                return Ok(None);
            };
            let Some(new) = placed(alloc, placing, value, rest, place.take())? else {
                return Ok(None);
            };
            *place = new;
            Ok(Some(Value::Array(changed)))
        }
        _ => Ok(None),
    }
}

/// The whole with the value at the pointer; none where the place isn't there, or the value would nest too deep.
pub(crate) fn set(
    alloc: Global,
    placing: Placing,
    value: Value,
    path: &Pointer,
    whole: Value,
) -> Result<Option<Value>, AllocError>
    ensures { IfOk result (λ o. option_map view o ≡ set placing (view value) path.now (view whole)) }
{
    if nests(path.tokens(), &value) {
        placed(alloc, placing, value, path.tokens(), whole)
    } else {
        Ok(None)
    }
}
