//! Reads FieldsV1 of JSON values of one's own. The server reads those that borrow their text, in `fields_v1`, which prints them too.

ghost use Rattle.std.specs.Prelude.{◌≡◌, IfOk};
ghost use Rattle.serde_json.specs.View.{members_view, view};
ghost use Rattle.json_values.specs.Members.{has};
ghost use Rattle.pathmap.specs.Contents.{dom, nothing};
ghost use Rattle.pathmap.specs.Maps.{content};
ghost use Rattle.schema.specs.KeyNames.{names_in};
ghost use Rattle.schema.specs.Shape.{shape};
ghost use Rattle.schema.specs.TypeRefs.{type_ref};
ghost use Rattle.fieldset.specs.FieldsV1.{has_keys, is_empty, may_have_dot, object_in, read_at, read_fields_v1, read_mark, read_members};
ghost use Rattle.fieldset.specs.Views.{Returns, IsNamed, member_view, read_named};

use crate::fault::FieldsV1Fault;
use crate::fields_v1::{Member, check_mark, element_of, is_marked, needs_members};
use fieldpath::ElemText;
use json_values::has;
use pathmap::PathMap;
use schema::{Schema, TypeRef};
use serde_json::{Map, Value};
use std::alloc::{AllocError, Global};

fn object_of(value: &Value) -> Result<&Map<String, Value>, FieldsV1Fault>
    ensures { Returns (λ m. members_view m.now.entries) result (object_in (view value.now)) }
{
    match value.as_object() {
        Some(members) => Ok(members),
        None => Err(FieldsV1Fault::NotAnObject),
    }
}

fn is_empty(members: &Map<String, Value>) -> bool
    ensures { result ≡ is_empty (members_view members.now.entries) }
{
    members.is_empty()
}

fn has_keys(
    names: &[String],
    alloc: Global,
    members: &Map<String, Value>,
) -> Result<bool, AllocError>
    ensures { IfOk result (λ b. b ≡ has_keys (names_in names.now) (members_view members.now.entries)) }
{
    for name in names {
        let text = ElemText::of_field(alloc, name.as_str())?;
        if !has(members, text.as_str()) {
            return Ok(false);
        }
    }
    Ok(true)
}

fn may_have_dot(
    here: TypeRef<'_>,
    alloc: Global,
    members: &Map<String, Value>,
) -> Result<bool, AllocError>
    ensures { IfOk result (λ b. b ≡ may_have_dot (type_ref here.entry) (members_view members.now.entries)) }
{
    match here {
        TypeRef::MapItem(_, names) => has_keys(names, alloc, members),
        TypeRef::Value(_) | TypeRef::SetItem => Ok(false),
    }
}

/// Checks that `.` or a key field may stand here, and that its value is `{}`.
fn read_mark(is_due: bool, value: &Value) -> Result<(), FieldsV1Fault>
    ensures { Returns (λ _. nothing) result (read_mark is_due (view value.now)) }
{
    let members = object_of(value)?;
    check_mark(is_due, is_empty(members))
}

/// A member, beside all members of its object.
#[cycle(read)]
fn read_member(
    value: &Value,
    alloc: Global,
    here: TypeRef<'_>,
    beside: &Map<String, Value>,
    name: &str,
) -> Result<Option<Member>, FieldsV1Fault>
    ensures read { Returns member_view result (read_named (type_ref here.entry) (members_view beside.now.entries) name.now (view value.now) (λ next. read_at next (view value.now))) }
    ensures named { IfOk result (λ m. IsNamed m name.now) }
{
    if name == "." {
        read_mark(may_have_dot(here, alloc, beside)?, value)?;
        return Ok(None);
    }
    let (element, next) = element_of(here, alloc, name)?;
    let Some(next) = next else {
        read_mark(has(beside, "."), value)?;
        return Ok(None);
    };
    let map = read_at(value, alloc, next)?;
    Ok(Some(Member { element, map }))
}

/// The map of all members that are in the set, each under its element.
#[cycle(read)]
fn read_members(
    members: &Map<String, Value>,
    alloc: Global,
    here: TypeRef<'_>,
) -> Result<PathMap, FieldsV1Fault>
    ensures { Returns content result (read_members (type_ref here.entry) (members_view members.now.entries) (members_view members.now.entries)) }
{
    let mut map = PathMap::empty(alloc);
    for (name, value) in members.iter() {
        let Some(member) = read_member(value, alloc, here, members, name.as_str())? else {
            continue;
        };
        map.insert_child(member.element, member.map)?;
    }
    Ok(map)
}

#[cycle(read)]
fn read_at(value: &Value, alloc: Global, here: TypeRef<'_>) -> Result<PathMap, FieldsV1Fault>
    ensures { Returns content result (read_at (type_ref here.entry) (view value.now)) }
{
    let Value::Object(members) = value else {
        return Err(FieldsV1Fault::NotAnObject);
    };
    if needs_members(here) && is_empty(members) {
        return Err(FieldsV1Fault::NotCanonical);
    }
    let mut map = read_members(members, alloc, here)?;
    if is_marked(here, has(members, ".")) {
        map.mark();
    }
    Ok(map)
}

/// The map of the set of paths that a FieldsV1 value says.
pub(crate) fn read_paths(
    alloc: Global,
    schema: &Schema,
    value: &Value,
) -> Result<PathMap, FieldsV1Fault>
    ensures { Returns (λ m. dom (content m)) result (read_fields_v1 (shape schema.now) (view value.now)) }
{
    let members = object_of(value)?;
    read_members(members, alloc, TypeRef::Value(schema))
}
