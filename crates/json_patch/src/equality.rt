//! When two values are equal. Numbers stand in `numbers`.

ghost use Rattle.std.specs.Prelude.{◌≡◌, ◌==◌, ◌&&◌};
ghost use Rattle.serde_json.specs.Events.{members_len};
ghost use Rattle.serde_json.specs.View.{items_view, members_view, view};
ghost use Rattle.json_patch.specs.Equality.{have_members, same, same_items};

use crate::numbers::same_number;
use json_values::member;
use serde_json::{Map, Value};

#[cycle(equality)]
fn same_items(xs: &[Value], ys: &[Value]) -> bool
    ensures { result ≡ same_items (items_view xs.now) (items_view ys.now) }
{
    if xs.len() != ys.len() {
        return false;
    }
    for (place, x) in xs.iter().enumerate() {
        if !same(x, &ys[place]) {
            return false;
        }
    }
    true
}

#[cycle(equality)]
fn same_members(xs: &Map<String, Value>, ys: &Map<String, Value>) -> bool
    ensures { result ≡ ((members_len (members_view xs.now.entries) == members_len (members_view ys.now.entries)) && have_members (members_view xs.now.entries) (members_view ys.now.entries)) }
{
    if xs.len() != ys.len() {
        return false;
    }
    for (name, x) in xs.iter() {
        let Some(y) = member(ys, name.as_str()) else {
            return false;
        };
        if !same(x, y) {
            return false;
        }
    }
    true
}

/// Whether two values are equal: numbers by what they are, arrays item by item, objects in no order.
#[cycle(equality)]
pub(crate) fn same(a: &Value, b: &Value) -> bool
    ensures { result ≡ same (view a.now) (view b.now) }
{
    match a {
        Value::Null => b.is_null(),
        Value::Bool(truth) => match b.as_bool() {
            Some(other) => *truth == other,
            None => false,
        },
        Value::Number(number) => match b.as_number() {
            Some(other) => same_number(number, other),
            None => false,
        },
        Value::String(text) => match b.as_str() {
            Some(other) => text.as_str() == other,
            None => false,
        },
        Value::Array(items) => match b.as_array() {
            Some(others) => same_items(items, others),
            None => false,
        },
        Value::Object(members) => match b.as_object() {
            Some(others) => same_members(members, others),
            None => false,
        },
    }
}
