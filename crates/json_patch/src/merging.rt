//! JSON Merge Patch.

ghost use Rattle.std.specs.Prelude.{◌≡◌, IfOk};
ghost use Rattle.serde_json.specs.View.{members_view, view};
ghost use Rattle.json_patch.specs.MergePatch.{members_of, merge_members, merge_patch};

use crate::members::take_value;
use json_values::into_object;
use serde_json::{Map, Value};
use std::alloc::{AllocError, Global};

fn members_of(alloc: Global, target: Value) -> Map<String, Value>
    ensures { members_view result.entries ≡ members_of (view target) }
{
    match into_object(target) {
        Some(members) => members,
        None => Map::new(alloc),
    }
}

#[cycle(merge)]
fn merge_members(
    alloc: Global,
    patch: &Map<String, Value>,
    target: Map<String, Value>,
) -> Result<Map<String, Value>, AllocError>
    ensures { IfOk result (λ m. members_view m.entries ≡ merge_members (members_view target.entries) (members_view patch.now.entries)) }
{
    let mut merged = target;
    for (name, value) in patch.iter() {
        if value.is_null() {
            drop(json_values::take(&mut merged, name.as_str()));
            continue;
        }
        let old = take_value(&mut merged, name.as_str());
        let new = merge_patch(alloc, value, old)?;
        drop(merged.insert(name.clone()?, new)?);
    }
    Ok(merged)
}

/// The target after this merge patch.
#[cycle(merge)]
pub fn merge_patch(alloc: Global, patch: &Value, target: Value) -> Result<Value, AllocError>
    ensures { IfOk result (λ v. view v ≡ merge_patch (view target) (view patch.now)) }
{
    match patch {
        Value::Object(members) => {
            let merged = merge_members(alloc, members, members_of(alloc, target))?;
            Ok(Value::Object(merged))
        }
        _ => patch.clone(),
    }
}
