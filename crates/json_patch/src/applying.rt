//! A JSON patch, applied: all of its operations, or none.

ghost use Rattle.std.specs.Prelude.{◌≡◌, IfOk, map, option_map, string_bytes};
ghost use Rattle.serde_json.specs.View.{view};
ghost use Rattle.json_patch.specs.Operations.{applied, applied_all, copied, copying_none, is_below, is_equal_at, moved, tested};
ghost use Rattle.json_patch.specs.Represented.{map_ok, operation_of, state_of};

use crate::copied_size::after_value;
use crate::equality::same;
use crate::operation::Operation;
use crate::placing::{Placing, set};
use crate::pointer::Pointer;
use crate::removing::removed;
use serde_json::Value;
use std::alloc::{AllocError, Global};

/// All that one patch may copy, in bytes.
const COPIED_LIMIT: usize = 1_048_576;

/// Whether the second tokens lead to a place below that of the first.
fn is_below(upper: &[String], lower: &[String]) -> bool
    ensures { result ≡ is_below (map string_bytes upper.now) (map string_bytes lower.now) }
{
    if upper.len() < lower.len() {
        lower.starts_with(upper)
    } else {
        false
    }
}

fn moved(
    alloc: Global,
    from: &Pointer,
    path: &Pointer,
    whole: Value,
) -> Result<Option<Value>, AllocError>
    ensures { IfOk result (λ o. option_map view o ≡ moved from.now path.now (view whole)) }
{
    if is_below(from.tokens(), path.tokens()) {
        return Ok(None);
    }
    match removed(from.tokens(), whole) {
        Some((value, left)) => set(alloc, Placing::Adds, value, path, left),
        None => Ok(None),
    }
}

/// The whole with a copy of what lies at `from`, and what is left of the room for copies.
fn copied(
    alloc: Global,
    from: &Pointer,
    path: &Pointer,
    whole: Value,
    room: usize,
) -> Result<Option<(Value, usize)>, AllocError>
    ensures { IfOk result (λ o. option_map state_of o ≡ copied from.now path.now (view whole, room)) }
{
    let Some(value) = from.find(&whole) else {
        return Ok(None);
    };
    let Some(left) = after_value(value, room) else {
        return Ok(None);
    };
    let copy = value.clone()?;
    match set(alloc, Placing::Adds, copy, path, whole)? {
        Some(changed) => Ok(Some((changed, left))),
        None => Ok(None),
    }
}

fn is_equal_at(path: &Pointer, value: &Value, whole: &Value) -> bool
    ensures { result ≡ is_equal_at path.now (view value.now) (view whole.now) }
{
    match path.find(whole) {
        Some(found) => same(found, value),
        None => false,
    }
}

fn tested(path: &Pointer, value: &Value, whole: Value) -> Option<Value>
    ensures { option_map view result ≡ tested path.now (view value.now) (view whole) }
{
    if is_equal_at(path, value, &whole) {
        Some(whole)
    } else {
        None
    }
}

fn copying_none(changed: Option<Value>, room: usize) -> Option<(Value, usize)>
    ensures { option_map state_of result ≡ copying_none (option_map view changed) room }
{
    Some((changed?, room))
}

/// The whole after an operation, and what is left of the room for copies.
fn applied(
    alloc: Global,
    operation: &Operation,
    whole: Value,
    room: usize,
) -> Result<Option<(Value, usize)>, AllocError>
    ensures { IfOk result (λ o. option_map state_of o ≡ applied (operation_of operation.now) (view whole, room)) }
{
    match operation {
        Operation::Add(path, value) => {
            let copy = value.clone()?;
            let changed = set(alloc, Placing::Adds, copy, path, whole)?;
            Ok(copying_none(changed, room))
        }
        Operation::Remove(path) => match removed(path.tokens(), whole) {
            Some((_, left)) => Ok(Some((left, room))),
            None => Ok(None),
        },
        Operation::Replace(path, value) => {
            let copy = value.clone()?;
            let changed = set(alloc, Placing::Replaces, copy, path, whole)?;
            Ok(copying_none(changed, room))
        }
        Operation::Move(from, path) => Ok(copying_none(moved(alloc, from, path, whole)?, room)),
        Operation::Copy(from, path) => copied(alloc, from, path, whole, room),
        Operation::Test(path, value) => Ok(copying_none(tested(path, value, whole), room)),
    }
}

/// The target after the operations, one after another; or the number, from 0, of the first that fails, and then nothing.
pub fn apply(
    alloc: Global,
    operations: &[Operation],
    target: Value,
) -> Result<Result<Value, usize>, AllocError>
    ensures { IfOk result (λ r. map_ok view r ≡ applied_all (map operation_of operations.now) (view target)) }
{
    let mut whole = target;
    let mut room = COPIED_LIMIT;
    for (number, operation) in operations.iter().enumerate() {
        let Some((changed, left)) = applied(alloc, operation, whole, room)? else {
            return Ok(Err(number));
        };
        whole = changed;
        room = left;
    }
    Ok(Ok(whole))
}
