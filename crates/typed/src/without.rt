//! The content of a value without some members, read from the value itself: nothing of an object is copied first. The two
//! levels that can leave something out stand here, the object (`read_without`) and one of its members (`read_but`); what is
//! below them is read as in `read`. Only a struct whose members merge one by one is read so: under another schema a copy
//! without these members is read.

ghost use Rattle.std.specs.Prelude.{false, map};
ghost use Rattle.serde_json.specs.View.{members_view, view};
ghost use Rattle.pathmap.specs.Maps.{content};
ghost use Rattle.schema.specs.Among.{is_in};
ghost use Rattle.schema.specs.Shape.{fields_in, shape, struct_of};
ghost use Rattle.typed.specs.Faults.{Returns};
ghost use Rattle.typed.specs.Reading.{content_of, content_of_field, members_at};
ghost use Rattle.typed.specs.Without.{but, kept, members_kept, omitted_of, without};

use crate::fault::{Cause, ReadFault, wrong};
use crate::items::{add_member, object_of};
use crate::omitted::{Omitted, copy_but, copy_without, is_absent};
use crate::read::{read_field, read_map};
use pathmap::PathMap;
use schema::{Schema, field_at};
use serde_json::{Map, Value};
use std::alloc::Global;

/// The members of a member, without those of these names.
fn read_members_but(
    fields: &[(String, Schema)],
    alloc: Global,
    members: &Map<String, Value>,
    names: &[&str],
) -> Result<PathMap, ReadFault>
    ensures { Returns content result
        (members_at (λ k e. content_of_field (fields_in fields.now) k e) (members_kept (is_in (map (λ n. n.now) names.now)) (λ k d. d) (members_view members.now.entries))) }
{
    let mut map = PathMap::empty(alloc);
    for (name, member) in members.iter() {
        let text = name.as_str();
        if !is_absent(text, member, names) {
            let read = read_field(fields, alloc, text, member);
            add_member(alloc, &mut map, &[], text, read)?;
        }
    }
    Ok(map)
}

/// A member that is a struct, without its members of these names.
fn read_struct_but(
    fields: &[(String, Schema)],
    alloc: Global,
    value: &Value,
    names: &[&str],
) -> Result<PathMap, ReadFault>
    ensures { Returns content result (content_of (struct_of (fields_in fields.now) false) (but (map (λ n. n.now) names.now) (view value.now))) }
{
    let members = object_of(alloc, value)?;
    read_members_but(fields, alloc, members, names)
}

/// The content of a value without the members of these names.
fn read_but(
    schema: &Schema,
    alloc: Global,
    value: &Value,
    names: &[&str],
) -> Result<PathMap, ReadFault>
    ensures { Returns content result (content_of (shape schema.now) (but (map (λ n. n.now) names.now) (view value.now))) }
{
    match schema.granular_fields() {
        Some(fields) => read_struct_but(fields, alloc, value, names),
        None => read_map(schema, alloc, &copy_but(alloc, value, names)?),
    }
}

/// The member of this name, without its members of these names; the first fault is that it is no field.
fn read_field_but(
    fields: &[(String, Schema)],
    alloc: Global,
    name: &str,
    value: &Value,
    names: &[&str],
) -> Result<PathMap, ReadFault>
    ensures { Returns content result (content_of_field (fields_in fields.now) name.now (but (map (λ n. n.now) names.now) (view value.now))) }
{
    match field_at(fields, name) {
        Some(inner) => read_but(inner, alloc, value, names),
        None => Err(wrong(alloc, Cause::UnknownField)),
    }
}

/// The content of what a member keeps.
fn read_kept(
    fields: &[(String, Schema)],
    alloc: Global,
    name: &str,
    value: &Value,
    omitted: Omitted<'_>,
) -> Result<PathMap, ReadFault>
    ensures { Returns content result (content_of_field (fields_in fields.now) name.now (kept (omitted_of omitted.entry) name.now (view value.now))) }
{
    if name == omitted.inside {
        return read_field_but(fields, alloc, name, value, omitted.inner);
    }
    read_field(fields, alloc, name, value)
}

/// The members that are not left out, each of what it keeps.
fn read_members(
    fields: &[(String, Schema)],
    alloc: Global,
    members: &Map<String, Value>,
    omitted: Omitted<'_>,
) -> Result<PathMap, ReadFault>
    ensures { Returns content result
        (members_at (λ k e. content_of_field (fields_in fields.now) k e) (members_kept (is_in (omitted_of omitted.entry).names) (kept (omitted_of omitted.entry)) (members_view members.now.entries))) }
{
    let mut map = PathMap::empty(alloc);
    for (name, member) in members.iter() {
        let text = name.as_str();
        if !is_absent(text, member, omitted.names) {
            let read = read_kept(fields, alloc, text, member, omitted);
            add_member(alloc, &mut map, &[], text, read)?;
        }
    }
    Ok(map)
}

/// An object that is a struct, without what is left out.
fn read_struct(
    fields: &[(String, Schema)],
    alloc: Global,
    value: &Value,
    omitted: Omitted<'_>,
) -> Result<PathMap, ReadFault>
    ensures { Returns content result (content_of (struct_of (fields_in fields.now) false) (without (omitted_of omitted.entry) (view value.now))) }
{
    let members = object_of(alloc, value)?;
    read_members(fields, alloc, members, omitted)
}

/// The content of a value without what is left out. Only a struct whose members merge one by one is read without a copy.
pub(crate) fn read_without(
    schema: &Schema,
    alloc: Global,
    value: &Value,
    omitted: Omitted<'_>,
) -> Result<PathMap, ReadFault>
    ensures { Returns content result (content_of (shape schema.now) (without (omitted_of omitted.entry) (view value.now))) }
{
    match schema.granular_fields() {
        Some(fields) => read_struct(fields, alloc, value, omitted),
        None => read_map(schema, alloc, &copy_without(alloc, value, omitted)?),
    }
}
