//! The key fields of a map list's items that borrow their text: whether they are there, and the element that they name. What
//! stands below it is read in `borrowed`; items that own their texts have theirs in `items`.

ghost use Rattle.std.specs.Prelude.{◌≡◌, IfOk, OnOk, string_bytes, true};
ghost use Rattle.json.specs.Value.{members_view as members_in, value_view};
ghost use Rattle.serde_json.specs.Data.{object};
ghost use Rattle.serde_json.specs.Find.{get_member};
ghost use Rattle.serde_json.specs.View.{members_view};
ghost use Rattle.fieldpath.specs.Elements.{list_item_text};
ghost use Rattle.json_texts.specs.InOrder.{data_of, is_ordered, members_are_ordered, members_data};
ghost use Rattle.pathmap.specs.Maps.{content};
ghost use Rattle.schema.specs.KeyNames.{names_in};
ghost use Rattle.typed.specs.Faults.{Returns, fault_in};
ghost use Rattle.typed.specs.Reading.{have_keys, is_there, keys_in, named_item, put_some};
ghost use Rattle.typed.specs.Steps.{item_view};

use crate::fault::ReadFault;
use crate::items::{Item, item_of_keys};
use json::Value;
use json_texts::{is_null, member, to_value};
use pathmap::PathMap;
use serde_json::Map;
use std::alloc::{AllocError, Global};

fn has_key<'a>(members: &[(&'a str, Value<'a>)], name: &str) -> bool
    requires { members_are_ordered (members_in members.now) ≡ true }
    ensures { result ≡ is_there (get_member name.now (members_data (members_in members.now))) }
{
    match member(members, name) {
        Some(value) => !is_null(value),
        None => false,
    }
}

/// Whether each key field is there, and none is null.
pub(crate) fn has_keys<'a>(names: &[String], members: &[(&'a str, Value<'a>)]) -> bool
    requires { members_are_ordered (members_in members.now) ≡ true }
    ensures { result ≡ have_keys (names_in names.now) (members_data (members_in members.now)) }
{
    for name in names {
        if !has_key(members, name.as_str()) {
            return false;
        }
    }
    true
}

fn put_key<'a>(
    keys: &mut Map<String, serde_json::Value>,
    alloc: Global,
    members: &[(&'a str, Value<'a>)],
    name: &str,
) -> Result<(), AllocError>
    requires { members_are_ordered (members_in members.now) ≡ true }
    ensures { OnOk result (members_view keys.new.entries
        ≡ put_some name.now (get_member name.now (members_data (members_in members.now))) (members_view keys.old.entries)) }
{
    match member(members, name) {
        Some(value) => serde_json::put(keys, alloc, name, to_value(alloc, value)?),
        None => Ok(()),
    }
}

fn key_members<'a>(
    names: &[String],
    alloc: Global,
    members: &[(&'a str, Value<'a>)],
) -> Result<Map<String, serde_json::Value>, AllocError>
    requires { members_are_ordered (members_in members.now) ≡ true }
    ensures { IfOk result (λ m. members_view m.entries ≡ keys_in (names_in names.now) (members_data (members_in members.now))) }
{
    let Some((name, rest)) = names.split_first() else {
        return Ok(Map::new(alloc));
    };
    let mut keys = key_members(rest, alloc, members)?;
    put_key(&mut keys, alloc, members, name.as_str())?;
    Ok(keys)
}

/// An item of a map list, by its key fields and what stands below it.
pub(crate) fn list_item<'a>(
    names: &[String],
    alloc: Global,
    members: &[(&'a str, Value<'a>)],
    below: PathMap,
) -> Result<Item, ReadFault>
    requires { members_are_ordered (members_in members.now) ≡ true }
    ensures { Returns item_view result
        (named_item (list_item_text (object (keys_in (names_in names.now) (members_data (members_in members.now))))) (content below)) }
{
    item_of_keys(alloc, key_members(names, alloc, members)?, below)
}
