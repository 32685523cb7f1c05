//! The JSON value of a content, under its schema. Its text is written in `write`; what stands at one path is printed in
//! `print_parts`.

ghost use Rattle.std.specs.Prelude.{◌≡◌, IfOk, OnOk, option_and_then, option_map, string_bytes};
ghost use Rattle.serde_json.specs.Data.{object};
ghost use Rattle.serde_json.specs.View.{view, items_view, members_view};
ghost use Rattle.fieldpath.specs.Elements.{field_name, name_text};
ghost use Rattle.pathmap.specs.Insides.{inside, heads};
ghost use Rattle.pathmap.specs.Maps.{content};
ghost use Rattle.schema.specs.Shape.{fields_in, kind_of, list_of, map_of, shape, shape_at, struct_of};
ghost use Rattle.typed.specs.Printing.{each_item, each_member, keys_in, print, print_fields, print_item, scalar_in, with_named};

use crate::print_parts::{
    array_of, keys_of, object_of, print_top, push_item, put_member, scalar_of,
};
use fieldpath::ElemText;
use pathmap::PathMap;
use schema::{ListKind, Schema, field_at};
use serde_json::{Map, Value};
use std::alloc::{AllocError, Global};

fn put_named(
    members: &mut Map<String, Value>,
    alloc: Global,
    element: &ElemText,
    value: Option<Value>,
) -> Result<(), AllocError>
    ensures { OnOk result (members_view members.new.entries ≡ with_named (field_name (string_bytes element.now)) (option_map view value) (members_view members.old.entries)) }
{
    match element.field_name() {
        Some(name) => put_member(members, alloc, name, value),
        None => Ok(()),
    }
}

#[cycle(print)]
fn put_fields(
    fields: &[(String, Schema)],
    alloc: Global,
    map: &PathMap,
    members: &mut Map<String, Value>,
) -> Result<(), AllocError>
    ensures { OnOk result (members_view members.new.entries ≡ print_fields (fields_in fields.now) (content map.now) (members_view members.old.entries)) }
{
    for (name, inner) in fields {
        let text = name.as_str();
        let Some(below) = map.field(text) else {
            continue;
        };
        let value = print_map(inner, alloc, below)?;
        put_member(members, alloc, text, value)?;
    }
    Ok(())
}

#[cycle(print)]
fn put_each(
    inner: &Schema,
    alloc: Global,
    map: &PathMap,
    members: &mut Map<String, Value>,
) -> Result<(), AllocError>
    ensures { OnOk result (members_view members.new.entries ≡ each_member (λ e. print (shape inner.now) (inside e (content map.now))) (heads (content map.now)) (members_view members.old.entries)) }
{
    let children = map.children();
    for (element, below) in children {
        let value = print_map(inner, alloc, below)?;
        put_named(members, alloc, element, value)?;
    }
    Ok(())
}

fn print_set(alloc: Global, map: &PathMap) -> Result<Vec<Value>, AllocError>
    ensures { IfOk result (λ ds. items_view ds.items ≡ each_item scalar_in (heads (content map.now))) }
{
    let children = map.children();
    let mut items = Vec::new(alloc);
    for (element, _) in children {
        let item = scalar_of(alloc, element)?;
        push_item(&mut items, item)?;
    }
    Ok(items)
}

/// An item's fields, beside its key fields.
#[cycle(print)]
fn put_item(
    inner: &Schema,
    alloc: Global,
    map: &PathMap,
    members: &mut Map<String, Value>,
) -> Result<(), AllocError>
    ensures { OnOk result (members_view members.new.entries ≡ print_item (shape inner.now) (content map.now) (members_view members.old.entries)) }
{
    match inner {
        Schema::Struct(fields, _) => put_fields(fields, alloc, map, members),
        _ => Ok(()),
    }
}

#[cycle(print)]
fn print_keyed(
    inner: &Schema,
    alloc: Global,
    element: &ElemText,
    map: &PathMap,
) -> Result<Option<Value>, AllocError>
    ensures { IfOk result (λ o. option_map view o ≡ option_map (λ ms. object (print_item (shape inner.now) (content map.now) ms)) (keys_in (string_bytes element.now))) }
{
    let Some(mut members) = keys_of(alloc, element)? else {
        return Ok(None);
    };
    put_item(inner, alloc, map, &mut members)?;
    Ok(Some(Value::from(members)))
}

#[cycle(print)]
fn print_items(inner: &Schema, alloc: Global, map: &PathMap) -> Result<Vec<Value>, AllocError>
    ensures { IfOk result (λ ds. items_view ds.items ≡ each_item (λ e. option_map (λ ms. object (print_item (shape inner.now) (inside e (content map.now)) ms)) (keys_in e)) (heads (content map.now))) }
{
    let children = map.children();
    let mut items = Vec::new(alloc);
    for (element, below) in children {
        let item = print_keyed(inner, alloc, element, below)?;
        push_item(&mut items, item)?;
    }
    Ok(items)
}

#[cycle(print)]
fn print_struct(
    fields: &[(String, Schema)],
    alloc: Global,
    is_atomic: bool,
    map: &PathMap,
) -> Result<Option<Value>, AllocError>
    ensures { IfOk result (λ o. option_map view o ≡ print (struct_of (fields_in fields.now) is_atomic) (content map.now)) }
{
    if is_atomic {
        return print_top(alloc, map);
    }
    let mut members = Map::new(alloc);
    put_fields(fields, alloc, map, &mut members)?;
    Ok(object_of(members))
}

#[cycle(print)]
fn print_each(
    inner: &Schema,
    alloc: Global,
    is_atomic: bool,
    map: &PathMap,
) -> Result<Option<Value>, AllocError>
    ensures { IfOk result (λ o. option_map view o ≡ print (map_of (shape inner.now) is_atomic) (content map.now)) }
{
    if is_atomic {
        return print_top(alloc, map);
    }
    let mut members = Map::new(alloc);
    put_each(inner, alloc, map, &mut members)?;
    Ok(object_of(members))
}

/// The value of a list, if it has an item.
#[cycle(print)]
pub(crate) fn print_list(
    inner: &Schema,
    alloc: Global,
    kind: &ListKind,
    map: &PathMap,
) -> Result<Option<Value>, AllocError>
    ensures { IfOk result (λ o. option_map view o ≡ print (list_of (shape inner.now) (kind_of kind.now)) (content map.now)) }
{
    match kind {
        ListKind::Atomic => print_top(alloc, map),
        ListKind::Set => Ok(array_of(print_set(alloc, map)?)),
        ListKind::Keyed(_) => Ok(array_of(print_items(inner, alloc, map)?)),
    }
}

/// The value that a content is printed as, if anything stands in it.
#[cycle(print)]
pub(crate) fn print_map(
    schema: &Schema,
    alloc: Global,
    map: &PathMap,
) -> Result<Option<Value>, AllocError>
    ensures { IfOk result (λ o. option_map view o ≡ print (shape schema.now) (content map.now)) }
{
    match schema {
        Schema::Struct(fields, is_atomic) => print_struct(fields, alloc, *is_atomic, map),
        Schema::MapOf(inner, is_atomic) => print_each(inner, alloc, *is_atomic, map),
        Schema::List(inner, kind) => print_list(inner, alloc, kind, map),
        Schema::Text | Schema::Whole | Schema::Truth => print_top(alloc, map),
    }
}

/// The value of the field of this name.
pub(crate) fn print_field(
    fields: &[(String, Schema)],
    alloc: Global,
    name: &str,
    map: &PathMap,
) -> Result<Option<Value>, AllocError>
    ensures { IfOk result (λ o. option_map view o ≡ option_and_then (λ s. print s (inside (name_text name.now) (content map.now))) (shape_at name.now (fields_in fields.now))) }
{
    match field_at(fields, name) {
        Some(inner) => print_below(inner, alloc, name, map),
        None => Ok(None),
    }
}

fn print_below(
    inner: &Schema,
    alloc: Global,
    name: &str,
    map: &PathMap,
) -> Result<Option<Value>, AllocError>
    ensures { IfOk result (λ o. option_map view o ≡ print (shape inner.now) (inside (name_text name.now) (content map.now))) }
{
    match map.field(name) {
        Some(below) => print_map(inner, alloc, below),
        None => Ok(None),
    }
}
