//! The content that a JSON value spells under a schema, or its first fault. Items are told apart in `items`, atomic
//! values are read in `plain`.

ghost use Rattle.std.specs.Prelude.{◌≡◌, []};
ghost use Rattle.serde_json.specs.View.{items_view, members_view, view};
ghost use Rattle.pathmap.specs.Maps.{content};
ghost use Rattle.schema.specs.KeyNames.{names_in};
ghost use Rattle.schema.specs.Shape.{fields_in, shape, text, truth, whole};
ghost use Rattle.typed.specs.Faults.{Returns, below};
ghost use Rattle.typed.specs.Reading.{beside_keys, content_of, content_of_field, content_of_item, items_at, keyed_item, leaf, members_at, plain_of, set_item};
ghost use Rattle.typed.specs.Steps.{is_empty, item_view};

use crate::fault::{Cause, ReadFault, wrong};
use crate::items::{
    Item, add_item, add_member, array_of, keyed_object, list_item, object_of, set_item,
};
use crate::plain::read_plain;
use pathmap::{PathMap, PathValue};
use schema::{ListKind, Schema};
use serde_json::{Map, Value};
use std::alloc::Global;

fn read_text(alloc: Global, value: &Value) -> Result<PathMap, ReadFault>
    ensures { Returns content result (content_of text (view value.now)) }
{
    match value.as_str() {
        Some(text) => Ok(PathMap::leaf(alloc, PathValue::Text(String::from_str(alloc, text)?))),
        None => Err(wrong(alloc, Cause::WrongType)),
    }
}

fn read_whole(alloc: Global, value: &Value) -> Result<PathMap, ReadFault>
    ensures { Returns content result (content_of whole (view value.now)) }
{
    match value.as_i64() {
        Some(number) => Ok(PathMap::leaf(alloc, PathValue::Whole(number))),
        None => Err(wrong(alloc, Cause::WrongType)),
    }
}

fn read_truth(alloc: Global, value: &Value) -> Result<PathMap, ReadFault>
    ensures { Returns content result (content_of truth (view value.now)) }
{
    match value.as_bool() {
        Some(truth) => Ok(PathMap::leaf(alloc, PathValue::Truth(truth))),
        None => Err(wrong(alloc, Cause::WrongType)),
    }
}

fn is_empty(value: &Value) -> bool
    ensures { result ≡ is_empty (view value.now) }
{
    match value {
        Value::Object(members) => members.is_empty(),
        Value::Array(items) => items.is_empty(),
        _ => false,
    }
}

fn read_atomic(schema: &Schema, alloc: Global, value: &Value) -> Result<PathMap, ReadFault>
    ensures { Returns content result (below [] leaf (plain_of (shape schema.now) (view value.now))) }
{
    let plain = read_plain(schema, alloc, value)?;
    if is_empty(&plain) {
        return Ok(PathMap::empty(alloc));
    }
    Ok(PathMap::leaf(alloc, PathValue::Plain(plain.to_string(alloc)?)))
}

fn read_scalar_item(inner: &Schema, alloc: Global, item: &Value) -> Result<Item, ReadFault>
    ensures { Returns item_view result (set_item (plain_of (shape inner.now)) (view item.now)) }
{
    let scalar = read_plain(inner, alloc, item)?;
    set_item(alloc, &scalar)
}

fn read_set(inner: &Schema, alloc: Global, items: &[Value]) -> Result<PathMap, ReadFault>
    ensures { Returns content result (items_at (set_item (plain_of (shape inner.now))) 0 [] (items_view items.now)) }
{
    let mut map = PathMap::empty(alloc);
    for (place, item) in items.iter().enumerate() {
        let read = read_scalar_item(inner, alloc, item);
        add_item(alloc, &mut map, place, read)?;
    }
    Ok(map)
}

#[cycle(read)]
fn read_list(
    inner: &Schema,
    alloc: Global,
    names: &[String],
    items: &[Value],
) -> Result<PathMap, ReadFault>
    ensures { Returns content result
        (items_at (keyed_item (names_in names.now) (λ ms. content_of_item (shape inner.now) (names_in names.now) ms)) 0 [] (items_view items.now)) }
{
    let mut map = PathMap::empty(alloc);
    for (place, item) in items.iter().enumerate() {
        let read = read_item(inner, alloc, names, item);
        add_item(alloc, &mut map, place, read)?;
    }
    Ok(map)
}

#[cycle(read)]
fn read_item(
    inner: &Schema,
    alloc: Global,
    names: &[String],
    item: &Value,
) -> Result<Item, ReadFault>
    ensures { Returns item_view result
        (keyed_item (names_in names.now) (λ ms. content_of_item (shape inner.now) (names_in names.now) ms) (view item.now)) }
{
    let members = keyed_object(names, alloc, item)?;
    match inner {
        Schema::Struct(fields, _) => {
            let below = read_struct(fields, alloc, names, members)?;
            list_item(names, alloc, members, below)
        }
        _ => Err(wrong(alloc, Cause::WrongType)),
    }
}

#[cycle(read)]
fn read_values(
    inner: &Schema,
    alloc: Global,
    members: &Map<String, Value>,
) -> Result<PathMap, ReadFault>
    ensures { Returns content result
        (members_at (λ k e. content_of (shape inner.now) e) (members_view members.now.entries)) }
{
    let mut map = PathMap::empty(alloc);
    for (name, member) in members.iter() {
        if !member.is_null() {
            let text = name.as_str();
            let read = read_map(inner, alloc, member);
            add_member(alloc, &mut map, &[], text, read)?;
        }
    }
    Ok(map)
}

#[cycle(read)]
pub(crate) fn read_field(
    fields: &[(String, Schema)],
    alloc: Global,
    name: &str,
    value: &Value,
) -> Result<PathMap, ReadFault>
    ensures { Returns content result (content_of_field (fields_in fields.now) name.now (view value.now)) }
{
    for (known, inner) in fields {
        if known.as_str() == name {
            return read_map(inner, alloc, value);
        }
    }
    Err(wrong(alloc, Cause::UnknownField))
}

#[cycle(read)]
fn read_struct(
    fields: &[(String, Schema)],
    alloc: Global,
    names: &[String],
    members: &Map<String, Value>,
) -> Result<PathMap, ReadFault>
    ensures { Returns content result
        (members_at (beside_keys (names_in names.now) (λ k e. content_of_field (fields_in fields.now) k e)) (members_view members.now.entries)) }
{
    let mut map = PathMap::empty(alloc);
    for (name, member) in members.iter() {
        if !member.is_null() {
            let text = name.as_str();
            let read = read_field(fields, alloc, text, member);
            add_member(alloc, &mut map, names, text, read)?;
        }
    }
    Ok(map)
}

/// The content of a value, or the first fault in its shape.
#[cycle(read)]
pub(crate) fn read_map(schema: &Schema, alloc: Global, value: &Value) -> Result<PathMap, ReadFault>
    ensures { Returns content result (content_of (shape schema.now) (view value.now)) }
{
    match schema {
        Schema::Text => read_text(alloc, value),
        Schema::Whole => read_whole(alloc, value),
        Schema::Truth => read_truth(alloc, value),
        Schema::Struct(fields, is_atomic) => {
            if *is_atomic {
                return read_atomic(schema, alloc, value);
            }
            let members = object_of(alloc, value)?;
            read_struct(fields, alloc, &[], members)
        }
        Schema::MapOf(inner, is_atomic) => {
            if *is_atomic {
                return read_atomic(schema, alloc, value);
            }
            let members = object_of(alloc, value)?;
            read_values(inner, alloc, members)
        }
        Schema::List(inner, kind) => match kind {
            ListKind::Atomic => read_atomic(schema, alloc, value),
            ListKind::Set => {
                let items = array_of(alloc, value)?;
                read_set(inner, alloc, items)
            }
            ListKind::Keyed(names) => {
                let items = array_of(alloc, value)?;
                read_list(inner, alloc, names, items)
            }
        },
    }
}
