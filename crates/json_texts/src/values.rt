//! What a value is that borrows its text. The members of an object are looked up, and taken out, in `members`.

ghost use Rattle.std.specs.Prelude.{◌≡◌, IfSome, is_some, option_map, true};
ghost use Rattle.json.specs.Value.{items_view, members_view, value_view};
ghost use Rattle.serde_json.specs.Find.{as_array, as_null, as_object, as_str};
ghost use Rattle.json_texts.specs.InOrder.{are_ordered, data_of, is_ordered, items_are_ordered, items_data, members_data};

use json::Value;

/// Whether it is `null`.
pub fn is_null(value: &Value<'_>) -> bool
    requires { is_ordered (value_view value.now) ≡ true }
    ensures { result ≡ is_some (as_null (data_of (value_view value.now))) }
{
    value.is_null()
}

/// The text that it is; none of another value.
pub fn as_str<'a>(value: &Value<'a>) -> Option<&'a str>
    ensures { option_map (λ s. s.now) result ≡ as_str (data_of (value_view value.now)) }
{
    value.as_str()
}

/// The members of an object; none of another value.
pub fn as_object<'v, 'a>(value: &'v Value<'a>) -> Option<&'v [(&'a str, Value<'a>)]>
    ensures value { option_map (λ m. members_data (members_view m.now)) result ≡ as_object (data_of (value_view value.now)) }
    ensures ordered { is_ordered (value_view value.now) ≡ true → IfSome result (λ m. are_ordered (members_view m.now) ≡ true) }
{
    match value {
        Value::Object(members) => Some(members),
        _ => None,
    }
}

/// The items of an array; none of another value.
pub fn as_array<'v, 'a>(value: &'v Value<'a>) -> Option<&'v [Value<'a>]>
    ensures value { option_map (λ v. items_data (items_view v.now)) result ≡ as_array (data_of (value_view value.now)) }
    ensures ordered { is_ordered (value_view value.now) ≡ true → IfSome result (λ v. items_are_ordered (items_view v.now) ≡ true) }
{
    match value {
        Value::Array(items) => Some(items),
        _ => None,
    }
}
