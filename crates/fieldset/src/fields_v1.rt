//! FieldsV1, printed and read. A set of paths is printed as a JSON value, or written by a text writer with no value in between but
//! for items that are in the set; it is read from a value that borrows its text, as the server has it of a stored object. Values
//! of one's own are read in `values`.

ghost use Rattle.std.specs.Prelude.{◌≡◌, true, false, codes, IfOk, OnOk, option_and_then, option_map, string_bytes};
ghost use Rattle.serde_json.specs.Data.{Members, object, put};
ghost use Rattle.json.specs.Value as borrowed;
ghost use Rattle.serde_json.specs.View.{members_view};
ghost use Rattle.serde_json.specs.Written.{compact_text};
ghost use Rattle.fieldpath.specs.Elements.{field, field_name};
ghost use Rattle.fieldpath.specs.ElementViews.{element};
ghost use Rattle.json_values.specs.Members.{has};
ghost use Rattle.json_texts.specs.InOrder.{are_ordered, data_of, is_ordered, members_data};
ghost use Rattle.json_texts.specs.Writing.{with_text};
ghost use Rattle.pathmap.specs.Contents.{dom, marked, nothing};
ghost use Rattle.pathmap.specs.Maps.{content};
ghost use Rattle.schema.specs.KeyNames.{names_in};
ghost use Rattle.schema.specs.Shape.{fields_in, shape, shape_at};
ghost use Rattle.schema.specs.TypeRefs.{type_ref};
ghost use Rattle.fieldset.specs.Below.{as_item, members_some, members_under, shape_below};
ghost use Rattle.fieldset.specs.FieldsV1.{dot, has_keys, is_empty, is_key_field, is_marked, leaf, may_have_dot, needs_members, object_in, put_names, read_at, read_fields_v1, read_mark, read_members};
ghost use Rattle.fieldset.specs.Views.{Returns, IsNamed, Reads, mark_by, member_view, next_at, next_of, read_named, stepped};

use crate::fault::FieldsV1Fault;
use fieldpath::{Elem, ElemFault, ElemText};
use json_texts::{TextWriter, as_object, member};
use pathmap::PathMap;
use schema::{ListKind, Schema, TypeRef, field_at, is_key};
use serde_json::{Map, Value};
use std::alloc::{AllocError, Global};

fn field_schema<'a>(fields: &'a [(String, Schema)], element: &ElemText) -> Option<&'a Schema>
    ensures { option_map (λ s. shape s.now) result ≡ option_and_then (λ f. shape_at f (fields_in fields.now)) (field_name (string_bytes element.now)) }
{
    match element.field_name() {
        Some(name) => field_at(fields, name),
        None => None,
    }
}

pub(crate) fn schema_below<'a>(schema: &'a Schema, element: &ElemText) -> Option<&'a Schema>
    ensures { option_map (λ s. shape s.now) result ≡ shape_below (shape schema.now) (string_bytes element.now) }
{
    match schema {
        Schema::Struct(fields, _) => field_schema(fields, element),
        Schema::MapOf(inner, _) | Schema::List(inner, ListKind::Keyed(_)) => Some(inner),
        _ => None,
    }
}

fn put_leaf(members: &mut Map<String, Value>, alloc: Global, text: String) -> Result<(), AllocError>
    ensures { OnOk result (members_view members.new.entries ≡ put (string_bytes text) leaf (members_view members.old.entries)) }
{
    drop(members.insert(text, Value::Object(Map::new(alloc)))?);
    Ok(())
}

fn put_names(
    members: &mut Map<String, Value>,
    alloc: Global,
    names: &[String],
) -> Result<(), AllocError>
    ensures { OnOk result (members_view members.new.entries ≡ put_names (names_in names.now) (members_view members.old.entries)) }
{
    for name in names {
        let element = ElemText::of_field(alloc, name.as_str())?;
        put_leaf(members, alloc, element.into_text())?;
    }
    Ok(())
}

/// An item of a map list has `.` and its key fields too.
fn put_item(
    members: &mut Map<String, Value>,
    alloc: Global,
    names: &[String],
) -> Result<(), AllocError>
    ensures { OnOk result (members_view members.new.entries ≡ put (codes ".") leaf (put_names (names_in names.now) (members_view members.old.entries))) }
{
    put_names(members, alloc, names)?;
    put_leaf(members, alloc, String::from_str(alloc, ".")?)
}

pub(crate) fn put_as_item(
    members: &mut Map<String, Value>,
    alloc: Global,
    schema: &Schema,
    is_there: bool,
) -> Result<(), AllocError>
    ensures { OnOk result (members_view members.new.entries ≡ as_item (shape schema.now) is_there (members_view members.old.entries)) }
{
    match schema {
        Schema::List(_, ListKind::Keyed(names)) if is_there => put_item(members, alloc, names),
        _ => Ok(()),
    }
}

/// The members of a map's paths, under the schema that stands there, if any does.
pub(crate) fn members(
    map: &PathMap,
    alloc: Global,
    schema: Option<&Schema>,
) -> Result<Map<String, Value>, AllocError>
    ensures { IfOk result (λ m. members_view m.entries ≡ members_some (option_map (λ s. shape s.now) schema.entry) (marked (dom (content map.now)))) }
{
    let mut all = Map::new(alloc);
    let Some(schema) = schema else {
        return Ok(all);
    };
    if schema.is_leaf() {
        return Ok(all);
    }
    for (name, inner) in map.children() {
        let mut below = members(inner, alloc, schema_below(schema, name))?;
        put_as_item(&mut below, alloc, schema, inner.held().is_some())?;
        let text = String::from_str(alloc, name.as_str())?;
        drop(all.insert(text, Value::Object(below))?);
    }
    Ok(all)
}

/// Whether `.` and key fields stand beside what is below an element.
fn has_more(schema: &Schema, is_there: bool) -> bool
    ensures { result ≡ false → (ms : Members) → as_item (shape schema.now) is_there ms ≡ ms }
{
    match schema {
        Schema::List(_, ListKind::Keyed(_)) => is_there,
        _ => false,
    }
}

/// Writes the object at an element, by its value: key fields stand anywhere among the members.
fn write_by_value(
    map: &PathMap,
    alloc: Global,
    schema: &Schema,
    name: &ElemText,
    out: &mut TextWriter,
) -> Result<(), AllocError>
    ensures { OnOk result (out.new ≡ with_text (compact_text (object (members_under (shape schema.now) (string_bytes name.now) (marked (dom (content map.now)))))) out.old) }
{
    let mut all = members(map, alloc, schema_below(schema, name))?;
    put_as_item(&mut all, alloc, schema, map.held().is_some())?;
    out.object(alloc, &all)
}

/// Writes the object at an element.
#[cycle(write)]
fn write_object(
    map: &PathMap,
    alloc: Global,
    schema: &Schema,
    name: &ElemText,
    out: &mut TextWriter,
) -> Result<(), AllocError>
    ensures { OnOk result (out.new ≡ with_text (compact_text (object (members_under (shape schema.now) (string_bytes name.now) (marked (dom (content map.now)))))) out.old) }
{
    if has_more(schema, map.held().is_some()) {
        return write_by_value(map, alloc, schema, name, out);
    }
    write_members(map, alloc, schema_below(schema, name), out)
}

/// Writes the object of the members of a map's paths, under the schema that stands there, if any does.
#[cycle(write)]
pub(crate) fn write_members(
    map: &PathMap,
    alloc: Global,
    schema: Option<&Schema>,
    out: &mut TextWriter,
) -> Result<(), AllocError>
    ensures { OnOk result (out.new ≡ with_text (compact_text (object (members_some (option_map (λ s. shape s.now) schema.entry) (marked (dom (content map.now)))))) out.old) }
{
    out.begin_object(alloc)?;
    let Some(schema) = schema else {
        return out.end_object();
    };
    if schema.is_leaf() {
        return out.end_object();
    }
    for (name, inner) in map.children() {
        out.name(alloc, name.as_str())?;
        write_object(inner, alloc, schema, name, out)?;
    }
    out.end_object()
}

/// An element, and what stands below it.
#[derive(Drop)]
pub(crate) struct Member {
    pub(crate) element: ElemText,
    pub(crate) map: PathMap,
}

/// Whether an object that stands here must have members.
pub(crate) fn needs_members(here: TypeRef<'_>) -> bool
    ensures { result ≡ needs_members (type_ref here.entry) }
{
    match here {
        TypeRef::Value(schema) => !schema.is_leaf(),
        TypeRef::SetItem => false,
        TypeRef::MapItem(_, _) => true,
    }
}

/// Whether the path that leads here is in the set, by whether `.` stands here.
pub(crate) fn is_marked(here: TypeRef<'_>, has_dot: bool) -> bool
    ensures { (ms : Members) → has_dot ≡ has dot ms → result ≡ is_marked (type_ref here.entry) ms }
{
    match here {
        TypeRef::Value(schema) => schema.is_leaf(),
        TypeRef::SetItem => true,
        TypeRef::MapItem(_, _) => has_dot,
    }
}

/// Checks that `.` or a key field may stand where it does, and that its value is `{}`.
pub(crate) fn check_mark(is_due: bool, is_empty: bool) -> Result<(), FieldsV1Fault>
    ensures { Returns (λ _. nothing) result (mark_by is_due is_empty) }
{
    if is_due && is_empty {
        Ok(())
    } else {
        Err(FieldsV1Fault::NotCanonical)
    }
}

/// Whether the field of this name is a key field of the item that stands here.
fn is_key_name(here: TypeRef<'_>, name: &str) -> bool
    ensures { result ≡ is_key_field (type_ref here.entry) (field name.now) }
{
    match here {
        TypeRef::MapItem(_, names) => is_key(names, name),
        TypeRef::Value(_) | TypeRef::SetItem => false,
    }
}

/// Where the field of this name leads; none where it is a key field of the item that stands here.
fn next_field<'a>(here: TypeRef<'a>, name: &str) -> Result<Option<TypeRef<'a>>, FieldsV1Fault>
    ensures { Returns (option_map type_ref) result (next_at (type_ref here.entry) (field name.now)) }
{
    if is_key_name(here, name) {
        return Ok(None);
    }
    match here.step_field(name) {
        Some(next) => Ok(Some(next)),
        None => Err(FieldsV1Fault::OffSchema),
    }
}

/// Where an element that is no field leads. Key fields are fields, so it is that of none.
fn next_elem<'a>(here: TypeRef<'a>, elem: &Elem) -> Result<Option<TypeRef<'a>>, FieldsV1Fault>
    ensures { Returns (option_map type_ref) result (stepped (type_ref here.entry) (element elem.now)) }
{
    match here.step(elem) {
        Some(next) => Ok(Some(next)),
        None => Err(FieldsV1Fault::OffSchema),
    }
}

/// Where an element leads; none where it is a key field's of the item that stands here.
fn next_of<'a>(
    here: TypeRef<'a>,
    alloc: Global,
    element: &ElemText,
) -> Result<Option<TypeRef<'a>>, FieldsV1Fault>
    ensures { Returns (option_map type_ref) result (next_of (type_ref here.entry) (string_bytes element.now)) }
{
    match element.field_name() {
        Some(name) => next_field(here, name),
        None => next_elem(here, &element.elem(alloc)?),
    }
}

fn text_of(alloc: Global, name: &str) -> Result<ElemText, FieldsV1Fault>
    ensures { Reads name.now result }
{
    match ElemText::read(alloc, name) {
        Ok(text) => Ok(text),
        Err(ElemFault::Memory) => Err(FieldsV1Fault::Memory),
        Err(_) => Err(FieldsV1Fault::BadKey),
    }
}

/// The element whose text a name is, and where it leads.
pub(crate) fn element_of<'a>(
    here: TypeRef<'a>,
    alloc: Global,
    name: &str,
) -> Result<(ElemText, Option<TypeRef<'a>>), FieldsV1Fault>
    ensures next { Returns (λ p. option_map type_ref p.1) result (next_of (type_ref here.entry) name.now) }
    ensures named { IfOk result (λ p. string_bytes p.0 ≡ name.now) }
{
    let text = text_of(alloc, name)?;
    let next = next_of(here, alloc, &text)?;
    Ok((text, next))
}

fn object_of<'v, 'a>(
    value: &'v json::Value<'a>,
) -> Result<&'v [(&'a str, json::Value<'a>)], FieldsV1Fault>
    ensures value { Returns (λ m. members_data (borrowed.members_view m.now)) result (object_in (data_of (borrowed.value_view value.now))) }
    ensures ordered { is_ordered (borrowed.value_view value.now) ≡ true → IfOk result (λ m. are_ordered (borrowed.members_view m.now) ≡ true) }
{
    match as_object(value) {
        Some(members) => Ok(members),
        None => Err(FieldsV1Fault::NotAnObject),
    }
}

fn is_empty<'a>(members: &[(&'a str, json::Value<'a>)]) -> bool
    ensures { result ≡ is_empty (members_data (borrowed.members_view members.now)) }
{
    members.is_empty()
}

fn has<'a>(members: &[(&'a str, json::Value<'a>)], name: &str) -> bool
    ensures { result ≡ has name.now (members_data (borrowed.members_view members.now)) }
{
    member(members, name).is_some()
}

fn has_keys<'a>(
    names: &[String],
    alloc: Global,
    members: &[(&'a str, json::Value<'a>)],
) -> Result<bool, AllocError>
    ensures { IfOk result (λ b. b ≡ has_keys (names_in names.now) (members_data (borrowed.members_view members.now))) }
{
    for name in names {
        let text = ElemText::of_field(alloc, name.as_str())?;
        if !has(members, text.as_str()) {
            return Ok(false);
        }
    }
    Ok(true)
}

fn may_have_dot<'a>(
    here: TypeRef<'_>,
    alloc: Global,
    members: &[(&'a str, json::Value<'a>)],
) -> Result<bool, AllocError>
    ensures { IfOk result (λ b. b ≡ may_have_dot (type_ref here.entry) (members_data (borrowed.members_view members.now))) }
{
    match here {
        TypeRef::MapItem(_, names) => has_keys(names, alloc, members),
        TypeRef::Value(_) | TypeRef::SetItem => Ok(false),
    }
}

/// Checks that `.` or a key field may stand here, and that its value is `{}`.
fn read_mark(is_due: bool, value: &json::Value<'_>) -> Result<(), FieldsV1Fault>
    ensures { Returns (λ _. nothing) result (read_mark is_due (data_of (borrowed.value_view value.now))) }
{
    let members = object_of(value)?;
    check_mark(is_due, is_empty(members))
}

/// A member, beside all members of its object.
#[cycle(read)]
fn read_member<'a>(
    value: &json::Value<'a>,
    alloc: Global,
    here: TypeRef<'_>,
    beside: &[(&'a str, json::Value<'a>)],
    name: &str,
) -> Result<Option<Member>, FieldsV1Fault>
    requires { is_ordered (borrowed.value_view value.now) ≡ true }
    ensures read { Returns member_view result (read_named (type_ref here.entry) (members_data (borrowed.members_view beside.now)) name.now (data_of (borrowed.value_view value.now)) (λ next. read_at next (data_of (borrowed.value_view value.now)))) }
    ensures named { IfOk result (λ m. IsNamed m name.now) }
{
    if name == "." {
        read_mark(may_have_dot(here, alloc, beside)?, value)?;
        return Ok(None);
    }
    let (element, next) = element_of(here, alloc, name)?;
    let Some(next) = next else {
        read_mark(has(beside, "."), value)?;
        return Ok(None);
    };
    let map = read_at(value, alloc, next)?;
    Ok(Some(Member { element, map }))
}

/// The map of all members that are in the set, each under its element.
#[cycle(read)]
fn read_members<'a>(
    members: &[(&'a str, json::Value<'a>)],
    alloc: Global,
    here: TypeRef<'_>,
) -> Result<PathMap, FieldsV1Fault>
    requires { are_ordered (borrowed.members_view members.now) ≡ true }
    ensures { Returns content result (read_members (type_ref here.entry) (members_data (borrowed.members_view members.now)) (members_data (borrowed.members_view members.now))) }
{
    let mut map = PathMap::with_room(alloc, members.len())?;
    for (name, value) in members {
        let Some(member) = read_member(value, alloc, here, members, name)? else {
            continue;
        };
        map.insert_child(member.element, member.map)?;
    }
    Ok(map)
}

#[cycle(read)]
fn read_at(
    value: &json::Value<'_>,
    alloc: Global,
    here: TypeRef<'_>,
) -> Result<PathMap, FieldsV1Fault>
    requires { is_ordered (borrowed.value_view value.now) ≡ true }
    ensures { Returns content result (read_at (type_ref here.entry) (data_of (borrowed.value_view value.now))) }
{
    let json::Value::Object(members) = value else {
        return Err(FieldsV1Fault::NotAnObject);
    };
    let members = members.as_slice();
    if needs_members(here) && is_empty(members) {
        return Err(FieldsV1Fault::NotCanonical);
    }
    let mut map = read_members(members, alloc, here)?;
    if is_marked(here, has(members, ".")) {
        map.mark();
    }
    Ok(map)
}

/// The map of the set of paths that a FieldsV1 value says.
pub(crate) fn read_paths(
    alloc: Global,
    schema: &Schema,
    value: &json::Value<'_>,
) -> Result<PathMap, FieldsV1Fault>
    requires { is_ordered (borrowed.value_view value.now) ≡ true }
    ensures { Returns (λ m. dom (content m)) result (read_fields_v1 (shape schema.now) (data_of (borrowed.value_view value.now))) }
{
    let members = object_of(value)?;
    read_members(members, alloc, TypeRef::Value(schema))
}
