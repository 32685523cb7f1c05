//! How deep values nest.

ghost use Rattle.std.specs.Prelude.{◌≡◌, map, nat_le, string_bytes};
ghost use Rattle.serde_json.specs.Data.{depth, items_depth, members_depth};
ghost use Rattle.serde_json.specs.View.{items_view, members_view, view};
ghost use Rattle.json_patch.specs.Nesting.{nests};

use serde_json::{Map, Value};

/// How deep what a patch places may lie in the whole.
const NESTING_LIMIT: usize = 1_000;

#[cycle(nesting)]
fn items_nest(items: &[Value], levels: usize) -> bool
    ensures { result ≡ nat_le (items_depth (items_view items.now)) levels }
{
    for item in items {
        if !value_nests(item, levels) {
            return false;
        }
    }
    true
}

#[cycle(nesting)]
fn members_nest(members: &Map<String, Value>, levels: usize) -> bool
    ensures { result ≡ nat_le (members_depth (members_view members.now.entries)) levels }
{
    for (_, member) in members.iter() {
        if !value_nests(member, levels) {
            return false;
        }
    }
    true
}

/// Whether arrays and objects nest in the value no deeper than this.
#[cycle(nesting)]
fn value_nests(value: &Value, levels: usize) -> bool
    ensures { result ≡ nat_le (depth (view value.now)) levels }
{
    match value {
        Value::Array(items) => match levels.checked_sub(1) {
            Some(inner) => items_nest(items, inner),
            None => false,
        },
        Value::Object(members) => match levels.checked_sub(1) {
            Some(inner) => members_nest(members, inner),
            None => false,
        },
        _ => true,
    }
}

/// Whether the value may be placed at these tokens.
pub(crate) fn nests(tokens: &[String], value: &Value) -> bool
    ensures { result ≡ nests (map string_bytes tokens.now) (view value.now) }
{
    match NESTING_LIMIT.checked_sub(tokens.len()) {
        Some(levels) => value_nests(value, levels),
        None => false,
    }
}
