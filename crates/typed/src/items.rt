//! What readers of contents share: objects and their members, and the items of sets and of map lists by their elements.
//! Values are read in `read` and `borrowed`.

ghost use Rattle.std.specs.Prelude.{◌≡◌, ℕ, List, [], Err, Ok, IfOk, OnOk, if◌then◌else◌, option_map, string_bytes};
ghost use Rattle.fieldpath.specs.Elements.{list_item_text, name_text, set_item_text};
ghost use Rattle.pathmap.specs.Contents.{Content, nothing};
ghost use Rattle.pathmap.specs.Maps.{content};
ghost use Rattle.serde_json.specs.Data.{object};
ghost use Rattle.serde_json.specs.Find.{as_array, as_object, get_member};
ghost use Rattle.serde_json.specs.View.{items_view, members_view, view};
ghost use Rattle.schema.specs.KeyNames.{names_in};
ghost use Rattle.typed.specs.declared.fault.Cause.TheVariants.{KeyFieldMissing, NotAnObject, WrongType};
ghost use Rattle.typed.specs.Faults.{Returns, Read, and_then, some_or};
ghost use Rattle.typed.specs.Reading.{at_field, have_keys, is_there, keys_in, named_item, object_item, put_some};
ghost use Rattle.typed.specs.Steps.{AddsItem, AreSeen, IsFree, Joins, item_view, unless_key};

use crate::fault::{Cause, ReadFault, wrong};
use fieldpath::ElemText;
use json_values::member;
use pathmap::PathMap;
use schema::is_key;
use serde_json::{Map, Value};
use std::alloc::{AllocError, Global};

/// An item of a set or of a map list: its element's text, and what stands below it.
#[derive(Drop)]
pub(crate) struct Item {
    pub(crate) element: ElemText,
    pub(crate) below: PathMap,
}

/// The members of an object.
pub(crate) fn object_of(alloc: Global, value: &Value) -> Result<&Map<String, Value>, ReadFault>
    ensures { Returns (λ m. members_view m.now.entries) result (some_or NotAnObject (as_object (view value.now))) }
{
    match value.as_object() {
        Some(members) => Ok(members),
        None => Err(wrong(alloc, Cause::NotAnObject)),
    }
}

/// The items of a list.
pub(crate) fn array_of(alloc: Global, value: &Value) -> Result<&Vec<Value>, ReadFault>
    ensures { Returns (λ v. items_view v.now.items) result (some_or WrongType (as_array (view value.now))) }
{
    match value.as_array() {
        Some(items) => Ok(items),
        None => Err(wrong(alloc, Cause::WrongType)),
    }
}

fn is_there(value: Option<&Value>) -> bool
    ensures { result ≡ is_there (option_map (λ v. view v.now) value.entry) }
{
    match value {
        Some(value) => !value.is_null(),
        None => false,
    }
}

fn has_keys(names: &[String], members: &Map<String, Value>) -> bool
    ensures { result ≡ have_keys (names_in names.now) (members_view members.now.entries) }
{
    for name in names {
        if !is_there(member(members, name.as_str())) {
            return false;
        }
    }
    true
}

/// The members of an item of a map list, which has its key fields.
pub(crate) fn keyed_object<'a>(
    names: &[String],
    alloc: Global,
    item: &'a Value,
) -> Result<&'a Map<String, Value>, ReadFault>
    ensures { Returns (λ m. members_view m.now.entries) result
        (and_then (object_item (view item.now)) (λ ms. if have_keys (names_in names.now) ms then Ok ms else Err (KeyFieldMissing, []))) }
{
    match item.as_object() {
        Some(members) => {
            if has_keys(names, members) {
                Ok(members)
            } else {
                Err(wrong(alloc, Cause::KeyFieldMissing))
            }
        }
        None => {
            if item.is_null() {
                Err(wrong(alloc, Cause::WrongType))
            } else {
                Err(wrong(alloc, Cause::NotAnObject))
            }
        }
    }
}

/// An item of a set, by its scalar.
pub(crate) fn set_item(alloc: Global, scalar: &Value) -> Result<Item, ReadFault>
    ensures { Returns item_view result (named_item (set_item_text (view scalar.now)) nothing) }
{
    match ElemText::of_set_item(alloc, scalar)? {
        Some(element) => Ok(Item {
            element,
            below: PathMap::empty(alloc),
        }),
        None => Err(wrong(alloc, Cause::WrongType)),
    }
}

fn put_key(
    keys: &mut Map<String, Value>,
    members: &Map<String, Value>,
    name: &String,
) -> Result<(), AllocError>
    ensures { OnOk result (members_view keys.new.entries
        ≡ put_some (string_bytes name.now) (get_member (string_bytes name.now) (members_view members.now.entries)) (members_view keys.old.entries)) }
{
    match member(members, name.as_str()) {
        Some(value) => {
            drop(keys.insert(name.clone()?, value.clone()?)?);
            Ok(())
        }
        None => Ok(()),
    }
}

fn key_members(
    names: &[String],
    alloc: Global,
    members: &Map<String, Value>,
) -> Result<Map<String, Value>, AllocError>
    ensures { IfOk result (λ m. members_view m.entries ≡ keys_in (names_in names.now) (members_view members.now.entries)) }
{
    let Some((name, rest)) = names.split_first() else {
        return Ok(Map::new(alloc));
    };
    let mut keys = key_members(rest, alloc, members)?;
    put_key(&mut keys, members, name)?;
    Ok(keys)
}

/// An item of a map list, by the object of its key fields and what stands below it.
pub(crate) fn item_of_keys(
    alloc: Global,
    keys: Map<String, Value>,
    below: PathMap,
) -> Result<Item, ReadFault>
    ensures { Returns item_view result (named_item (list_item_text (object (members_view keys.entries))) (content below)) }
{
    match ElemText::of_list_item(alloc, &Value::Object(keys))? {
        Some(element) => Ok(Item { element, below }),
        None => Err(wrong(alloc, Cause::WrongType)),
    }
}

/// An item of a map list, by its key fields and what stands below it.
pub(crate) fn list_item(
    names: &[String],
    alloc: Global,
    members: &Map<String, Value>,
    below: PathMap,
) -> Result<Item, ReadFault>
    ensures { Returns item_view result
        (named_item (list_item_text (object (keys_in (names_in names.now) (members_view members.now.entries)))) (content below)) }
{
    item_of_keys(alloc, key_members(names, alloc, members)?, below)
}

/// Adds what was read of an item; an earlier one with its element is a fault of the list.
pub(crate) fn add_item(
    alloc: Global,
    map: &mut PathMap,
    place: usize,
    read: Result<Item, ReadFault>,
) -> Result<(), ReadFault>
    ensures { (answer : Read (List ℕ × Content)) (seen : List (List ℕ)) → AreSeen seen (content map.old) → Returns item_view read answer
        → AddsItem seen place (content map.old) (content map.new) result answer }
{
    match read {
        Ok(item) => {
            let mut below = item.below;
            below.mark();
            if !map.insert_child(item.element, below)? {
                return Err(wrong(alloc, Cause::DuplicateItem));
            }
            Ok(())
        }
        Err(fault) => Err(fault.in_item(alloc, place)),
    }
}

/// Takes what was read of a member. Of a key field only a fault counts, since its value stands in the item's element.
pub(crate) fn add_member(
    alloc: Global,
    map: &mut PathMap,
    names: &[String],
    name: &str,
    read: Result<PathMap, ReadFault>,
) -> Result<(), ReadFault>
    ensures { (answer : Read Content) → IsFree (name_text name.now) (content map.old) → Returns content read answer
        → Joins (content map.old) (content map.new) result (at_field name.now (unless_key (names_in names.now) name.now answer)) }
{
    match read {
        Ok(below) => {
            if is_key(names, name) {
                return Ok(());
            }
            map.insert_child(ElemText::of_field(alloc, name)?, below)?;
            Ok(())
        }
        Err(fault) => Err(fault.in_field(alloc, name)),
    }
}
