//! Atomic values: their JSON without what counts as absent. Other values are read in `read`.

ghost use Rattle.std.specs.Prelude.{◌≡◌, [], Err, Ok, IfErr, OnOk, if◌then◌else◌, map};
ghost use Rattle.serde_json.specs.Data.{Data, object};
ghost use Rattle.serde_json.specs.View.{items_view, members_view, view};
ghost use Rattle.schema.specs.Shape.{fields_in, kind_of, shape};
ghost use Rattle.typed.specs.declared.fault.Cause.TheVariants.{WrongType};
ghost use Rattle.typed.specs.Faults.{Returns, Read, ReportsFault, fault_in};
ghost use Rattle.typed.specs.Reading.{plain_item, plain_items, plain_members, plain_of, plain_of_field};
ghost use Rattle.typed.specs.Steps.{PushesItem, PutsMember};

use crate::fault::{Cause, ReadFault, wrong};
use crate::items::{array_of, keyed_object, object_of};
use schema::{ListKind, Schema};
use serde_json::{Map, Value};
use std::alloc::Global;

fn copy_if(alloc: Global, fits: bool, value: &Value) -> Result<Value, ReadFault>
    ensures { Returns view result (if fits then Ok (view value.now) else Err (WrongType, [])) }
{
    if fits {
        Ok(value.clone()?)
    } else {
        Err(wrong(alloc, Cause::WrongType))
    }
}

fn put_member(
    alloc: Global,
    members: &mut Map<String, Value>,
    name: &str,
    read: Result<Value, ReadFault>,
) -> Result<(), ReadFault>
    ensures { (answer : Read Data) → Returns view read answer
        → PutsMember name.now (members_view members.old.entries) (members_view members.new.entries) result answer }
{
    match read {
        Ok(value) => {
            drop(members.insert(String::from_str(alloc, name)?, value)?);
            Ok(())
        }
        Err(fault) => Err(fault.in_field(alloc, name)),
    }
}

fn push_item(
    alloc: Global,
    items: &mut Vec<Value>,
    place: usize,
    read: Result<Value, ReadFault>,
) -> Result<(), ReadFault>
    ensures { (answer : Read Data) → Returns view read answer
        → PushesItem place (map view items.old.items) (map view items.new.items) result answer }
{
    match read {
        Ok(value) => {
            items.push(value)?;
            Ok(())
        }
        Err(fault) => Err(fault.in_item(alloc, place)),
    }
}

// Whether the item is of the kind that its list asks for, and has its key fields.
fn check_item(kind: &ListKind, alloc: Global, item: &Value) -> Result<(), ReadFault>
    ensures ok { OnOk result ((inner : Data → Read Data)
        → plain_item (kind_of kind.now) inner (λ ms. inner (object ms)) (view item.now) ≡ inner (view item.now)) }
    ensures err { IfErr result (λ e. (inner : Data → Read Data)
        → ReportsFault e (fault_in (plain_item (kind_of kind.now) inner (λ ms. inner (object ms)) (view item.now)))) }
{
    match kind {
        ListKind::Atomic => {
            if item.is_null() {
                Err(wrong(alloc, Cause::WrongType))
            } else {
                Ok(())
            }
        }
        ListKind::Set => Ok(()),
        ListKind::Keyed(names) => {
            keyed_object(names, alloc, item)?;
            Ok(())
        }
    }
}

#[cycle(plain)]
fn plain_values(
    inner: &Schema,
    alloc: Global,
    members: &Map<String, Value>,
) -> Result<Map<String, Value>, ReadFault>
    ensures { Returns (λ m. members_view m.entries) result
        (plain_members (λ k e. plain_of (shape inner.now) e) (members_view members.now.entries)) }
{
    let mut plain = Map::new(alloc);
    for (name, member) in members.iter() {
        if !member.is_null() {
            let text = name.as_str();
            let read = read_plain(inner, alloc, member);
            put_member(alloc, &mut plain, text, read)?;
        }
    }
    Ok(plain)
}

#[cycle(plain)]
fn plain_field(
    fields: &[(String, Schema)],
    alloc: Global,
    name: &str,
    value: &Value,
) -> Result<Value, ReadFault>
    ensures { Returns view result (plain_of_field (fields_in fields.now) name.now (view value.now)) }
{
    for (known, inner) in fields {
        if known.as_str() == name {
            return read_plain(inner, alloc, value);
        }
    }
    Err(wrong(alloc, Cause::UnknownField))
}

#[cycle(plain)]
fn plain_fields(
    fields: &[(String, Schema)],
    alloc: Global,
    members: &Map<String, Value>,
) -> Result<Map<String, Value>, ReadFault>
    ensures { Returns (λ m. members_view m.entries) result
        (plain_members (λ k e. plain_of_field (fields_in fields.now) k e) (members_view members.now.entries)) }
{
    let mut plain = Map::new(alloc);
    for (name, member) in members.iter() {
        if !member.is_null() {
            let text = name.as_str();
            let read = plain_field(fields, alloc, text, member);
            put_member(alloc, &mut plain, text, read)?;
        }
    }
    Ok(plain)
}

#[cycle(plain)]
fn plain_one(
    inner: &Schema,
    alloc: Global,
    kind: &ListKind,
    item: &Value,
) -> Result<Value, ReadFault>
    ensures { Returns view result
        (plain_item (kind_of kind.now) (λ e. plain_of (shape inner.now) e) (λ ms. plain_of (shape inner.now) (object ms)) (view item.now)) }
{
    check_item(kind, alloc, item)?;
    read_plain(inner, alloc, item)
}

#[cycle(plain)]
fn plain_list(
    inner: &Schema,
    alloc: Global,
    kind: &ListKind,
    items: &[Value],
) -> Result<Vec<Value>, ReadFault>
    ensures { Returns (λ v. items_view v.items) result
        (plain_items (plain_item (kind_of kind.now) (λ e. plain_of (shape inner.now) e) (λ ms. plain_of (shape inner.now) (object ms))) 0 (items_view items.now)) }
{
    let mut plain = Vec::new(alloc);
    for (place, item) in items.iter().enumerate() {
        let read = plain_one(inner, alloc, kind, item);
        push_item(alloc, &mut plain, place, read)?;
    }
    Ok(plain)
}

/// An atomic value as it is kept: a copy without null members at any depth.
#[cycle(plain)]
pub(crate) fn read_plain(schema: &Schema, alloc: Global, value: &Value) -> Result<Value, ReadFault>
    ensures { Returns view result (plain_of (shape schema.now) (view value.now)) }
{
    match schema {
        Schema::Text => copy_if(alloc, value.is_string(), value),
        Schema::Whole => copy_if(alloc, value.is_i64(), value),
        Schema::Truth => copy_if(alloc, value.is_boolean(), value),
        Schema::Struct(fields, _) => {
            let members = object_of(alloc, value)?;
            Ok(Value::Object(plain_fields(fields, alloc, members)?))
        }
        Schema::MapOf(inner, _) => {
            let members = object_of(alloc, value)?;
            Ok(Value::Object(plain_values(inner, alloc, members)?))
        }
        Schema::List(inner, kind) => {
            let items = array_of(alloc, value)?;
            Ok(Value::Array(plain_list(inner, alloc, kind, items)?))
        }
    }
}
