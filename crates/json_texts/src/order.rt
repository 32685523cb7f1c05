//! Whether a value is in order: what `reading` asks of each text that it reads.

ghost use Rattle.std.specs.Prelude.{◌≡◌};
ghost use Rattle.json.specs.Value.{items_view, members_view, value_view};
ghost use Rattle.fieldpath.specs.Scalars.{ascend};
ghost use Rattle.json_texts.specs.InOrder.{is_ordered, items_are_ordered, members_are_ordered, names};

use crate::numbers::is_whole;
use json::Value;

fn names_ascend(members: &[(&str, Value<'_>)]) -> bool
    ensures { result ≡ ascend (names (members_view members.now)) }
{
    members.is_sorted_by(|one, next| one.0 < next.0)
}

#[cycle(order)]
fn items_are_ordered(items: &[Value<'_>]) -> bool
    ensures { result ≡ items_are_ordered (items_view items.now) }
{
    for item in items {
        if !is_ordered(item) {
            return false;
        }
    }
    true
}

#[cycle(order)]
fn members_are_ordered(members: &[(&str, Value<'_>)]) -> bool
    ensures { result ≡ members_are_ordered (members_view members.now) }
{
    for (_, member) in members {
        if !is_ordered(member) {
            return false;
        }
    }
    true
}

/// Whether each object's names ascend, so that none comes twice, and each number is an integer within 64 bits.
#[cycle(order)]
pub(crate) fn is_ordered(value: &Value<'_>) -> bool
    ensures { result ≡ is_ordered (value_view value.now) }
{
    match value {
        Value::Null => true,
        Value::Bool(_) => true,
        Value::Number(text) => is_whole(text),
        Value::String(_) => true,
        Value::Array(items) => items_are_ordered(items),
        Value::Object(members) => names_ascend(members) && members_are_ordered(members),
    }
}
