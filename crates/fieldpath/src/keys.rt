//! The key fields by which an item of a map list is named; the element that has them stands in `elem`.
ghost use Rattle.std.specs.Prelude.{◌≡◌, ◌++◌, Ok, Err, IfOk, OnOk, IfSome, is_some, map, option_map, if◌then◌else◌, string_bytes, true};
ghost use Rattle.serde_json.specs.Data.{object};
ghost use Rattle.serde_json.specs.View.{members_view, view};
ghost use Rattle.serde_json.specs.Written.{compact_text};
ghost use Rattle.fieldpath.specs.Elements.{key_members, keys_of, keys_of_members, shown_field, shown_keys, some_keys};
ghost use Rattle.fieldpath.specs.Scalars.{are_keys, ascend, key_fields, names, scalar};

use crate::scalar::{Scalar, is_scalar};
use serde_json::{Map, Value};
use std::alloc::{AllocError, Global};
use std::marker::Model;
use thiserror::Error;

/// The key fields of an item of a map list: one or more, their names strictly ascending in
/// byte order.
#[derive(Debug, Drop)]
pub struct Keys {
    fields: Vec<(String, Scalar)>,
}

impl Model for Keys {
    ghost use Rattle.std.specs.Prelude.{◌≡◌, true};
    ghost use Rattle.fieldpath.specs.Elements.{KeyFields};
    ghost use Rattle.fieldpath.specs.Scalars.{are_keys, key_fields};

    ghost Value = { KeyFields };

    ghost view = { λ k. key_fields k.fields.items };

    ghost invariant = { λ k. are_keys (key_fields k.fields.items) ≡ true };
}

/// Why fields are no keys.
#[derive(Clone, Copy, Debug, PartialEq, Eq, Error)]
pub enum KeysFault {
    /// 1: there is none, or the names don't strictly ascend in byte order.
    #[error("no fields, or their names do not ascend")]
    NotAscending,
}

impl Keys {
    /// Refused exactly where there is no field, or the names don't strictly ascend in byte order.
    /// A refusal drops the fields.
    pub fn new(fields: Vec<(String, Scalar)>) -> Result<Keys, KeysFault>
        ensures { result ≡ (if are_keys (key_fields fields.items) then Ok (key_fields fields.items) else Err KeysFault.NotAscending) }
    {
        if are_keys(&fields) {
            Ok(Keys { fields })
        } else {
            Err(KeysFault::NotAscending)
        }
    }

    /// The fields, in byte order of their names.
    pub fn fields(&self) -> &[(String, Scalar)]
        ensures fields { key_fields result.now ≡ self.now }
        ensures ascend { are_keys self.now ≡ true }
    {
        &self.fields
    }

    pub(crate) fn try_copy(&self, alloc: Global) -> Result<Keys, AllocError>
        ensures { IfOk result (λ k. k ≡ self.now) }
    {
        Ok(Keys {
            fields: copy_fields(&self.fields, alloc)?,
        })
    }

    /// The fields as a compact JSON object.
    pub(crate) fn json(&self, alloc: Global) -> Result<String, AllocError>
        ensures { IfOk result (λ s. string_bytes s ≡ compact_text (object (key_members self.now))) }
    {
        Value::Object(members_of(&self.fields, alloc)?).to_string(alloc)
    }

    /// Shows the fields behind what is shown already: `a=1,b="x"`.
    pub(crate) fn push_shown(&self, alloc: Global, shown: &mut String) -> Result<(), AllocError>
        ensures { OnOk result (string_bytes shown.new ≡ string_bytes shown.old ++ shown_keys self.now) }
    {
        push_fields(&self.fields, alloc, shown)
    }
}

fn copy_fields(
    fields: &[(String, Scalar)],
    alloc: Global,
) -> Result<Vec<(String, Scalar)>, AllocError>
    ensures { IfOk result (λ v. key_fields v.items ≡ key_fields fields.now) }
{
    let mut copy = Vec::new(alloc);
    for (name, value) in fields {
        copy.push((name.clone()?, value.try_copy()?))?;
    }
    Ok(copy)
}

fn ascends(fields: &[(String, Scalar)]) -> bool
    ensures { result ≡ ascend (names (key_fields fields.now)) }
{
    fields.is_sorted_by(|one, next| one.0 < next.0)
}

fn are_keys(fields: &[(String, Scalar)]) -> bool
    ensures { result ≡ are_keys (key_fields fields.now) }
{
    !fields.is_empty() && ascends(fields)
}

fn members_of(fields: &[(String, Scalar)], alloc: Global) -> Result<Map<String, Value>, AllocError>
    requires { ascend (names (key_fields fields.now)) ≡ true }
    ensures { IfOk result (λ m. members_view m.entries ≡ key_members (key_fields fields.now)) }
{
    let Some((field, rest)) = fields.split_first() else {
        return Ok(Map::new(alloc));
    };
    let mut members = members_of(rest, alloc)?;
    drop(members.insert(field.0.clone()?, field.1.to_value(alloc)?)?);
    Ok(members)
}

/// The members as key fields, or None where a value is no scalar.
pub(crate) fn fields_of(
    alloc: Global,
    members: &Map<String, Value>,
) -> Result<Option<Vec<(String, Scalar)>>, AllocError>
    ensures read { IfOk result (λ o. option_map (λ v. key_fields v.items) o ≡ keys_of_members (members_view members.now.entries)) }
    ensures ascending { IfOk result (λ o. IfSome o (λ v. ascend (names (key_fields v.items)) ≡ true)) }
{
    let mut fields = Vec::new(alloc);
    for (name, value) in members.iter() {
        match Scalar::of_value(alloc, value)? {
            Some(scalar) => fields.push((name.clone()?, scalar))?,
            None => return Ok(None),
        }
    }
    Ok(Some(fields))
}

fn are_key_fields(members: &Map<String, Value>) -> bool
    ensures { result ≡ is_some (some_keys (keys_of_members (members_view members.now.entries))) }
{
    let mut is_some = false;
    for (_, value) in members.iter() {
        if !is_scalar(value) {
            return false;
        }
        is_some = true;
    }
    is_some
}

/// Whether the value is an object of one or more scalars.
pub(crate) fn is_key_object(value: &Value) -> bool
    ensures { result ≡ is_some (keys_of (view value.now)) }
{
    match value.as_object() {
        Some(members) => are_key_fields(members),
        None => false,
    }
}

fn push_field(field: &(String, Scalar), alloc: Global, shown: &mut String) -> Result<(), AllocError>
    ensures { OnOk result (string_bytes shown.new ≡ string_bytes shown.old ++ shown_field (string_bytes field.now.0, scalar field.now.1)) }
{
    shown.push_str(field.0.as_str())?;
    shown.push_str("=")?;
    shown.push_str(field.1.json(alloc)?.as_str())?;
    Ok(())
}

fn push_fields(
    fields: &[(String, Scalar)],
    alloc: Global,
    shown: &mut String,
) -> Result<(), AllocError>
    ensures { OnOk result (string_bytes shown.new ≡ string_bytes shown.old ++ shown_keys (key_fields fields.now)) }
{
    let Some((first, rest)) = fields.split_first() else {
        return Ok(());
    };
    push_field(first, alloc, shown)?;
    for field in rest {
        shown.push_str(",")?;
        push_field(field, alloc, shown)?;
    }
    Ok(())
}
