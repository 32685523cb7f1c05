//! The members of an object that borrows its text, looked up and taken out. What a value is stands in `values`.

ghost use Rattle.std.specs.Prelude.{◌≡◌, ◌<◌, IfSome, length, option_map, true};
ghost use Rattle.json.specs.Value.{members_view, value_view};
ghost use Rattle.serde_json.specs.Find.{as_object, get_member};
ghost use Rattle.json_values.specs.Members.{less, text_at};
ghost use Rattle.json_texts.specs.InOrder.{are_ordered, data_of, is_ordered, members_are_ordered, members_data};
ghost use Rattle.json_texts.specs.Places.{place_of};

use crate::values::as_str;
use json::Value;

/// The members of an object, in the order of the text.
pub type Members<'a> = Vec<(&'a str, Value<'a>)>;

/// The place of the first member that has this name.
fn place_of(members: &[(&str, Value<'_>)], name: &str) -> Option<usize>
    ensures value { result ≡ place_of name.now (members_view members.now) }
    ensures within { IfSome result (λ i. i < length members.now) }
{
    for (place, member) in members.iter().enumerate() {
        if name == member.0 {
            return Some(place);
        }
    }
    None
}

/// The value of the member that has this name.
pub fn member<'v, 'a>(members: &'v [(&'a str, Value<'a>)], name: &str) -> Option<&'v Value<'a>>
    ensures value { option_map (λ v. data_of (value_view v.now)) result ≡ get_member name.now (members_data (members_view members.now)) }
    ensures ordered { members_are_ordered (members_view members.now) ≡ true → IfSome result (λ v. is_ordered (value_view v.now) ≡ true) }
{
    match place_of(members, name) {
        Some(place) => Some(&members[place].1),
        None => None,
    }
}

/// The text at a name; none where the member is missing or is no text.
pub fn text_at<'a>(members: &[(&'a str, Value<'a>)], name: &str) -> Option<&'a str>
    ensures { option_map (λ s. s.now) result ≡ text_at name.now (members_data (members_view members.now)) }
{
    match member(members, name) {
        Some(value) => as_str(value),
        None => None,
    }
}

/// Takes out the member that has this name.
pub fn take<'a>(members: &mut Members<'a>, name: &str) -> Option<Value<'a>>
    ensures value { option_map (λ v. data_of (value_view v)) result ≡ get_member name.now (members_data (members_view members.old.items)) }
    ensures left { members_data (members_view members.new.items) ≡ less name.now (members_data (members_view members.old.items)) }
    ensures value_ordered { are_ordered (members_view members.old.items) ≡ true → IfSome result (λ v. is_ordered (value_view v) ≡ true) }
    ensures left_ordered { are_ordered (members_view members.old.items) ≡ true → are_ordered (members_view members.new.items) ≡ true }
{
    match place_of(members, name) {
        Some(place) => Some(members.remove(place).1),
        None => None,
    }
}

/// The members of an object, taken out of it; none of another value.
pub fn into_object<'a>(value: Value<'a>) -> Option<Members<'a>>
    ensures value { option_map (λ m. members_data (members_view m.items)) result ≡ as_object (data_of (value_view value.entry)) }
    ensures ordered { is_ordered (value_view value.entry) ≡ true → IfSome result (λ m. are_ordered (members_view m.items) ≡ true) }
{
    match value {
        Value::Object(members) => Some(members),
        _ => None,
    }
}
