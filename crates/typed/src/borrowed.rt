//! The content that a value spells under a schema, read from a value that borrows its text. Structs, maps, map lists and
//! texts are read so, part by part; what else a schema has is copied first and read in `read`.

ghost use Rattle.std.specs.Prelude.{◌≡◌, [], Option, Some, if◌then◌else◌, true};
ghost use Rattle.json.specs.Value.{items_view, members_view, value_view};
ghost use Rattle.json_texts.specs.InOrder.{are_ordered, data_of, is_ordered, items_are_ordered, items_data, members_data};
ghost use Rattle.pathmap.specs.Maps.{content};
ghost use Rattle.schema.specs.KeyNames.{names_in};
ghost use Rattle.schema.specs.Shape.{fields_in, shape, text};
ghost use Rattle.typed.specs.declared.fault.Cause.TheVariants.{NotAnObject, WrongType};
ghost use Rattle.typed.specs.Faults.{Fault, Returns, ReportsFault};
ghost use Rattle.typed.specs.Keyed.{keyed_members};
ghost use Rattle.typed.specs.Reading.{beside_keys, content_of, content_of_field, content_of_item, is_null, items_at, keyed_item, members_at};
ghost use Rattle.typed.specs.Steps.{item_view};

use crate::borrowed_items::{has_keys, list_item};
use crate::fault::{Cause, ReadFault, wrong};
use crate::items::{Item, add_item, add_member};
use crate::read::read_map;
use json::Value;
use json_texts::{as_array, as_object, as_str, is_null, to_value};
use pathmap::{PathMap, PathValue};
use schema::{ListKind, Schema};
use std::alloc::Global;

fn read_text(alloc: Global, value: &Value<'_>) -> Result<PathMap, ReadFault>
    ensures { Returns content result (content_of text (data_of (value_view value.now))) }
{
    match as_str(value) {
        Some(text) => Ok(PathMap::leaf(alloc, PathValue::Text(String::from_str(alloc, text)?))),
        None => Err(wrong(alloc, Cause::WrongType)),
    }
}

fn read_copy(schema: &Schema, alloc: Global, value: &Value<'_>) -> Result<PathMap, ReadFault>
    requires { is_ordered (value_view value.now) ≡ true }
    ensures { Returns content result (content_of (shape schema.now) (data_of (value_view value.now))) }
{
    read_map(schema, alloc, &to_value(alloc, value)?)
}

/// Why a value is no item of a map list, where it is no object.
fn not_an_item(alloc: Global, value: &Value<'_>) -> ReadFault
    requires { is_ordered (value_view value.now) ≡ true }
    ensures { (fault : Option Fault) → fault ≡ Some (if is_null (data_of (value_view value.now)) then WrongType else NotAnObject, []) → ReportsFault result fault }
{
    if is_null(value) {
        wrong(alloc, Cause::WrongType)
    } else {
        wrong(alloc, Cause::NotAnObject)
    }
}

#[cycle(borrowed)]
fn read_list(
    inner: &Schema,
    alloc: Global,
    names: &[String],
    items: &[Value<'_>],
) -> Result<PathMap, ReadFault>
    requires { items_are_ordered (items_view items.now) ≡ true }
    ensures { Returns content result
        (items_at (keyed_item (names_in names.now) (λ ms. content_of_item (shape inner.now) (names_in names.now) ms)) 0 [] (items_data (items_view items.now))) }
{
    let mut map = PathMap::with_room(alloc, items.len())?;
    for (place, item) in items.iter().enumerate() {
        let read = read_item(inner, alloc, names, item);
        add_item(alloc, &mut map, place, read)?;
    }
    Ok(map)
}

#[cycle(borrowed)]
fn read_item(
    inner: &Schema,
    alloc: Global,
    names: &[String],
    item: &Value<'_>,
) -> Result<Item, ReadFault>
    requires { is_ordered (value_view item.now) ≡ true }
    ensures { Returns item_view result
        (keyed_item (names_in names.now) (λ ms. content_of_item (shape inner.now) (names_in names.now) ms) (data_of (value_view item.now))) }
{
    match as_object(item) {
        Some(members) => read_keyed(inner, alloc, names, members),
        None => Err(not_an_item(alloc, item)),
    }
}

#[cycle(borrowed)]
fn read_keyed<'a>(
    inner: &Schema,
    alloc: Global,
    names: &[String],
    members: &[(&'a str, Value<'a>)],
) -> Result<Item, ReadFault>
    requires { are_ordered (members_view members.now) ≡ true }
    ensures { Returns item_view result
        (keyed_members (names_in names.now) (λ ms. content_of_item (shape inner.now) (names_in names.now) ms) (members_data (members_view members.now))) }
{
    if !has_keys(names, members) {
        return Err(wrong(alloc, Cause::KeyFieldMissing));
    }
    match inner {
        Schema::Struct(fields, _) => {
            let below = read_struct(fields, alloc, names, members)?;
            list_item(names, alloc, members, below)
        }
        _ => Err(wrong(alloc, Cause::WrongType)),
    }
}

#[cycle(borrowed)]
fn read_values<'a>(
    inner: &Schema,
    alloc: Global,
    members: &[(&'a str, Value<'a>)],
) -> Result<PathMap, ReadFault>
    requires { are_ordered (members_view members.now) ≡ true }
    ensures { Returns content result
        (members_at (λ k e. content_of (shape inner.now) e) (members_data (members_view members.now))) }
{
    let mut map = PathMap::with_room(alloc, members.len())?;
    for (name, member) in members {
        if is_null(member) {
            continue;
        }
        let read = read_borrowed(inner, alloc, member);
        add_member(alloc, &mut map, &[], name, read)?;
    }
    Ok(map)
}

#[cycle(borrowed)]
fn read_field(
    fields: &[(String, Schema)],
    alloc: Global,
    name: &str,
    value: &Value<'_>,
) -> Result<PathMap, ReadFault>
    requires { is_ordered (value_view value.now) ≡ true }
    ensures { Returns content result (content_of_field (fields_in fields.now) name.now (data_of (value_view value.now))) }
{
    for (known, inner) in fields {
        if known.as_str() == name {
            return read_borrowed(inner, alloc, value);
        }
    }
    Err(wrong(alloc, Cause::UnknownField))
}

#[cycle(borrowed)]
fn read_struct<'a>(
    fields: &[(String, Schema)],
    alloc: Global,
    names: &[String],
    members: &[(&'a str, Value<'a>)],
) -> Result<PathMap, ReadFault>
    requires { are_ordered (members_view members.now) ≡ true }
    ensures { Returns content result
        (members_at (beside_keys (names_in names.now) (λ k e. content_of_field (fields_in fields.now) k e)) (members_data (members_view members.now))) }
{
    let mut map = PathMap::with_room(alloc, members.len())?;
    for (name, member) in members {
        if is_null(member) {
            continue;
        }
        let read = read_field(fields, alloc, name, member);
        add_member(alloc, &mut map, names, name, read)?;
    }
    Ok(map)
}

/// The content of a value in order, or the first fault in its shape.
#[cycle(borrowed)]
pub(crate) fn read_borrowed(
    schema: &Schema,
    alloc: Global,
    value: &Value<'_>,
) -> Result<PathMap, ReadFault>
    requires { is_ordered (value_view value.now) ≡ true }
    ensures { Returns content result (content_of (shape schema.now) (data_of (value_view value.now))) }
{
    match schema {
        Schema::Text => read_text(alloc, value),
        Schema::Struct(fields, is_atomic) => {
            if *is_atomic {
                return read_copy(schema, alloc, value);
            }
            match as_object(value) {
                Some(members) => read_struct(fields, alloc, &[], members),
                None => Err(wrong(alloc, Cause::NotAnObject)),
            }
        }
        Schema::MapOf(inner, is_atomic) => {
            if *is_atomic {
                return read_copy(schema, alloc, value);
            }
            match as_object(value) {
                Some(members) => read_values(inner, alloc, members),
                None => Err(wrong(alloc, Cause::NotAnObject)),
            }
        }
        Schema::List(inner, kind) => match kind {
            ListKind::Keyed(names) => match as_array(value) {
                Some(items) => read_list(inner, alloc, names, items),
                None => Err(wrong(alloc, Cause::WrongType)),
            },
            ListKind::Atomic | ListKind::Set => read_copy(schema, alloc, value),
        },
        Schema::Whole | Schema::Truth => read_copy(schema, alloc, value),
    }
}
