//! The member of an object that has a name; what takes one out of its object stands in `parts`.

ghost use Rattle.std.specs.Prelude.{◌≡◌, option_map};
ghost use Rattle.serde_json.specs.Find.{get_member};
ghost use Rattle.serde_json.specs.View.{items_view, members_view, view};
ghost use Rattle.json_values.specs.Members.{has, items_at, members_at, text_at};

use serde_json::{Map, Value};

/// The value of the member that has this name.
pub fn member<'a>(members: &'a Map<String, Value>, name: &str) -> Option<&'a Value>
    ensures { option_map (λ v. view v.now) result ≡ get_member name.now (members_view members.now.entries) }
{
    members.get(name)
}

/// Whether a member has this name.
pub fn has(members: &Map<String, Value>, name: &str) -> bool
    ensures { result ≡ has name.now (members_view members.now.entries) }
{
    member(members, name).is_some()
}

/// The text at a name; none where the member is missing or is no text.
pub fn text_at<'a>(members: &'a Map<String, Value>, name: &str) -> Option<&'a str>
    ensures { option_map (λ s. s.now) result ≡ text_at name.now (members_view members.now.entries) }
{
    member(members, name).and_then(Value::as_str)
}

/// The members of the object at a name; none where it is missing or is no object.
pub fn members_at<'a>(members: &'a Map<String, Value>, name: &str) -> Option<&'a Map<String, Value>>
    ensures { option_map (λ m. members_view m.now.entries) result ≡ members_at name.now (members_view members.now.entries) }
{
    member(members, name).and_then(Value::as_object)
}

/// The items of the array at a name; none where it is missing or is no array.
pub fn items_at<'a>(members: &'a Map<String, Value>, name: &str) -> Option<&'a Vec<Value>>
    ensures { option_map (λ v. items_view v.now.items) result ≡ items_at name.now (members_view members.now.entries) }
{
    member(members, name).and_then(Value::as_array)
}
