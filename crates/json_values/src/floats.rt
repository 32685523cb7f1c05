//! Whether a value has a float, which has no one text; all that is printed or kept as a text is asked so first. Members
//! are looked up in `members`.

ghost use Rattle.std.specs.Prelude.{◌≡◌};
ghost use Rattle.serde_json.specs.View.{items_view, members_view, view};
ghost use Rattle.serde_json.specs.Written.{has_float, items_have_float, members_have_float};

use serde_json::{Map, Value};

#[cycle(floats)]
fn items_have_float(items: &[Value]) -> bool
    ensures { result ≡ items_have_float (items_view items.now) }
{
    for item in items {
        if has_float(item) {
            return true;
        }
    }
    false
}

#[cycle(floats)]
fn members_have_float(members: &Map<String, Value>) -> bool
    ensures { result ≡ members_have_float (members_view members.now.entries) }
{
    for (_, member) in members.iter() {
        if has_float(member) {
            return true;
        }
    }
    false
}

/// Whether a number in it has a point or an exponent, or is outside of 64 bits.
#[cycle(floats)]
pub fn has_float(value: &Value) -> bool
    ensures { result ≡ has_float (view value.now) }
{
    match value {
        Value::Null => false,
        Value::Bool(_) => false,
        Value::Number(number) => number.is_f64(),
        Value::String(_) => false,
        Value::Array(items) => items_have_float(items),
        Value::Object(members) => members_have_float(members),
    }
}
