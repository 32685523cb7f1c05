//! A borrowed value as one that owns its texts. What only looks at one stands in `values` and `members`.

ghost use Rattle.std.specs.Prelude.{◌≡◌, true, IfOk};
ghost use Rattle.json.specs.Value.{items_view as items_in, members_view as members_in, value_view};
ghost use Rattle.serde_json.specs.View.{items_view, members_view, view};
ghost use Rattle.json_texts.specs.InOrder.{are_ordered, data_of, is_ordered, items_are_ordered, items_data, members_data};

use crate::numbers::whole_number;
use json::Value;
use serde_json::Map;
use std::alloc::{AllocError, Global};

#[cycle(copying)]
fn to_items(alloc: Global, items: &[Value<'_>]) -> Result<Vec<serde_json::Value>, AllocError>
    requires { items_are_ordered (items_in items.now) ≡ true }
    ensures { IfOk result (λ v. items_view v.items ≡ items_data (items_in items.now)) }
{
    let mut copies = Vec::with_capacity(alloc, items.len())?;
    for item in items {
        copies.push(to_value(alloc, item)?)?;
    }
    Ok(copies)
}

#[cycle(copying)]
fn to_members(
    alloc: Global,
    members: &[(&str, Value<'_>)],
) -> Result<Map<String, serde_json::Value>, AllocError>
    requires { are_ordered (members_in members.now) ≡ true }
    ensures { IfOk result (λ m. members_view m.entries ≡ members_data (members_in members.now)) }
{
    let mut copies = Map::new(alloc);
    for (name, member) in members {
        serde_json::put(&mut copies, alloc, name, to_value(alloc, member)?)?;
    }
    Ok(copies)
}

/// The same value with texts of its own.
#[cycle(copying)]
pub fn to_value(alloc: Global, value: &Value<'_>) -> Result<serde_json::Value, AllocError>
    requires { is_ordered (value_view value.now) ≡ true }
    ensures { IfOk result (λ v. view v ≡ data_of (value_view value.now)) }
{
    match value {
        Value::Null => Ok(serde_json::Value::Null),
        Value::Bool(truth) => Ok(serde_json::Value::Bool(*truth)),
        Value::Number(text) => match whole_number(text) {
            Some(number) => Ok(serde_json::Value::Number(number)),
            None => unreachable!(),
        },
        Value::String(text) => serde_json::Value::try_from_str(alloc, text),
        Value::Array(items) => Ok(serde_json::Value::Array(to_items(alloc, items)?)),
        Value::Object(members) => Ok(serde_json::Value::Object(to_members(alloc, members)?)),
    }
}
