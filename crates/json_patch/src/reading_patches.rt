//! A JSON patch, read of its value. What its operations do stands in `applying`.

ghost use Rattle.std.specs.Prelude.{◌≡◌, IfOk, codes, map, option_and_then, option_map};
ghost use Rattle.serde_json.specs.Find.{as_object, get_member};
ghost use Rattle.json_values.specs.Members.{text_at};
ghost use Rattle.serde_json.specs.View.{items_view, members_view, view};
ghost use Rattle.json_patch.specs.Forms.{name_in, operation_in, operation_named, operations_in, pointer_at, read_patch};
ghost use Rattle.json_patch.specs.Represented.{map_ok, operation_of};

use crate::operation::{Operation, OperationName};
use crate::pointer::Pointer;
use json_values::{into_array, into_object, take, text_at};
use serde_json::{Map, Value};
use std::alloc::{AllocError, Global};
use thiserror::Error;

/// Why a value is no JSON patch.
#[derive(Clone, Copy, Debug, PartialEq, Eq, Error)]
pub enum NoPatch {
    /// It isn't a list of operations of RFC 6902's form.
    #[error("bad patch")]
    Bad,
    /// It is a list of more than 10,000.
    #[error("patch over 10000 operations")]
    TooMany,
}

/// The most operations of a patch.
const OPERATIONS_LIMIT: usize = 10_000;

fn name_in(text: &str) -> Option<OperationName>
    ensures { result ≡ name_in text.now }
{
    match text {
        "add" => Some(OperationName::Add),
        "remove" => Some(OperationName::Remove),
        "replace" => Some(OperationName::Replace),
        "move" => Some(OperationName::Move),
        "copy" => Some(OperationName::Copy),
        "test" => Some(OperationName::Test),
        _ => None,
    }
}

/// The pointer at a name; none where no text is there, or one that isn't a pointer's.
fn pointer_at(
    alloc: Global,
    members: &Map<String, Value>,
    name: &str,
) -> Result<Option<Pointer>, AllocError>
    ensures { IfOk result (λ o. o ≡ pointer_at name.now (members_view members.now.entries)) }
{
    match text_at(members, name) {
        Some(text) => Pointer::read(alloc, text),
        None => Ok(None),
    }
}

fn value_in(members: Map<String, Value>) -> Option<Value>
    ensures { option_map view result ≡ get_member (codes "value") (members_view members.entries) }
{
    let mut others = members;
    take(&mut others, "value")
}

/// The operation of this name at this path, with what else it takes.
fn read_named(
    alloc: Global,
    name: OperationName,
    path: Pointer,
    members: Map<String, Value>,
) -> Result<Option<Operation>, AllocError>
    ensures { IfOk result (λ o. option_map operation_of o ≡ operation_named name path (members_view members.entries)) }
{
    match name {
        OperationName::Add => match value_in(members) {
            Some(value) => Ok(Some(Operation::Add(path, value))),
            None => Ok(None),
        },
        OperationName::Remove => Ok(Some(Operation::Remove(path))),
        OperationName::Replace => match value_in(members) {
            Some(value) => Ok(Some(Operation::Replace(path, value))),
            None => Ok(None),
        },
        OperationName::Move => match pointer_at(alloc, &members, "from")? {
            Some(from) => Ok(Some(Operation::Move(from, path))),
            None => Ok(None),
        },
        OperationName::Copy => match pointer_at(alloc, &members, "from")? {
            Some(from) => Ok(Some(Operation::Copy(from, path))),
            None => Ok(None),
        },
        OperationName::Test => match value_in(members) {
            Some(value) => Ok(Some(Operation::Test(path, value))),
            None => Ok(None),
        },
    }
}

fn operation_name(members: &Map<String, Value>) -> Option<OperationName>
    ensures { result ≡ option_and_then name_in (text_at (codes "op") (members_view members.now.entries)) }
{
    name_in(text_at(members, "op")?)
}

fn read_operation(alloc: Global, value: Value) -> Result<Option<Operation>, AllocError>
    ensures { IfOk result (λ o. option_map operation_of o ≡ option_and_then operation_in (as_object (view value))) }
{
    let Some(members) = into_object(value) else {
        return Ok(None);
    };
    let Some(name) = operation_name(&members) else {
        return Ok(None);
    };
    match pointer_at(alloc, &members, "path")? {
        Some(path) => read_named(alloc, name, path, members),
        None => Ok(None),
    }
}

fn read_operations(alloc: Global, items: Vec<Value>) -> Result<Option<Vec<Operation>>, AllocError>
    ensures { IfOk result (λ o. option_map (λ v. map operation_of v.items) o ≡ operations_in (items_view items.items)) }
{
    let mut operations = Vec::new(alloc);
    for item in items {
        let read = read_operation(alloc, item)?;
        let Some(operation) = read else {
            return Ok(None);
        };
        operations.push(operation)?;
    }
    Ok(Some(operations))
}

/// The operations of a JSON patch.
pub fn read_patch(
    alloc: Global,
    patch: Value,
) -> Result<Result<Vec<Operation>, NoPatch>, AllocError>
    ensures { IfOk result (λ r. map_ok (λ v. map operation_of v.items) r ≡ read_patch (view patch)) }
{
    let Some(items) = into_array(patch) else {
        return Ok(Err(NoPatch::Bad));
    };
    if OPERATIONS_LIMIT < items.len() {
        return Ok(Err(NoPatch::TooMany));
    }
    match read_operations(alloc, items)? {
        Some(operations) => Ok(Ok(operations)),
        None => Ok(Err(NoPatch::Bad)),
    }
}
