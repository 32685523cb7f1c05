//! A value that is taken out of a place, with what is left.

ghost use Rattle.std.specs.Prelude.{◌≡◌, map, option_map, string_bytes};
ghost use Rattle.serde_json.specs.View.{view};
ghost use Rattle.json_patch.specs.Operations.{removed, taken};
ghost use Rattle.json_patch.specs.Represented.{pair_of};

use crate::places::index;
use serde_json::Value;

/// What lies at one token, and the whole without it.
fn remove_child(token: &str, whole: Value) -> Option<(Value, Value)>
    ensures { option_map pair_of result ≡ taken token.now (view whole) }
{
    match whole {
        Value::Object(members) => {
            let mut left = members;
            let taken = json_values::take(&mut left, token)?;
            Some((taken, Value::Object(left)))
        }
        Value::Array(items) => {
            let index = index(token)?;
            if items.len() <= index {
                return None;
            }
            let mut left = items;
            let taken = left.remove(index);
            Some((taken, Value::Array(left)))
        }
        _ => None,
    }
}

/// What lies at these tokens, and the whole without it. The whole can't be removed.
pub(crate) fn removed(tokens: &[String], whole: Value) -> Option<(Value, Value)>
    ensures { option_map pair_of result ≡ removed (map string_bytes tokens.now) (view whole) }
{
    let (token, rest) = tokens.split_first()?;
    let name = token.as_str();
    if rest.is_empty() {
        return remove_child(name, whole);
    }
    match whole {
        Value::Object(members) => {
            let mut changed = members;
            let place = changed.get_mut(name)?;
            let (taken, left) = removed(rest, place.take())?;
            *place = left;
            Some((taken, Value::Object(changed)))
        }
        Value::Array(items) => {
            let mut changed = items;
            let place = changed.get_mut(index(name)?)?;
            let (taken, left) = removed(rest, place.take())?;
            *place = left;
            Some((taken, Value::Array(changed)))
        }
        _ => None,
    }
}
