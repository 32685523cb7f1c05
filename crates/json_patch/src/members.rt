//! The value of one member, taken out of its object.

ghost use Rattle.std.specs.Prelude.{◌≡◌};
ghost use Rattle.serde_json.specs.Data.{Data, put};
ghost use Rattle.serde_json.specs.View.{members_view, view};
ghost use Rattle.json_patch.specs.MergePatch.{value_at};

use serde_json::{Map, Value};

/// Takes the value at a name; null where the name isn't there. What is put there next is put as it would have been before.
pub(crate) fn take_value(members: &mut Map<String, Value>, name: &str) -> Value
    ensures value { view result ≡ value_at name.now (members_view members.old.entries) }
    ensures left { (d : Data) → put name.now d (members_view members.new.entries) ≡ put name.now d (members_view members.old.entries) }
{
    match members.get_mut(name) {
        Some(value) => value.take(),
        None => Value::Null,
    }
}
