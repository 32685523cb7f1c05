//! A value taken apart, without a copy; what only looks at it stands in `members`.

ghost use Rattle.std.specs.Prelude.{◌≡◌, option_map};
ghost use Rattle.serde_json.specs.Find.{as_array, as_object, get_member};
ghost use Rattle.serde_json.specs.View.{items_view, members_view, view};
ghost use Rattle.json_values.specs.Members.{less, split_off};

use serde_json::{Map, Value};

/// The members of an object; none of another value.
pub fn into_object(value: Value) -> Option<Map<String, Value>>
    ensures { option_map (λ m. members_view m.entries) result ≡ as_object (view value) }
{
    match value {
        Value::Object(members) => Some(members),
        _ => None,
    }
}

/// The items of an array; none of another value.
pub fn into_array(value: Value) -> Option<Vec<Value>>
    ensures { option_map (λ v. items_view v.items) result ≡ as_array (view value) }
{
    match value {
        Value::Array(items) => Some(items),
        _ => None,
    }
}

/// Takes out the member that has this name.
pub fn take(members: &mut Map<String, Value>, name: &str) -> Option<Value>
    ensures value { option_map view result ≡ get_member name.now (members_view members.old.entries) }
    ensures left { members_view members.new.entries ≡ less name.now (members_view members.old.entries) }
{
    members.remove(name)
}

/// The members without the one of this name, and the members of that one; none where it is missing or is no object.
pub fn split_off(
    members: Map<String, Value>,
    name: &str,
) -> Option<(Map<String, Value>, Map<String, Value>)>
    ensures { option_map (λ p. (members_view p.0.entries, members_view p.1.entries)) result ≡ split_off name.now (members_view members.entries) }
{
    let mut others = members;
    let Some(value) = take(&mut others, name) else {
        return None;
    };
    let Some(inner) = into_object(value) else {
        return None;
    };
    Some((others, inner))
}
