//! The entries of `managedFields`, read. They are written in `managed_text`.
ghost use Rattle.std.specs.Prelude.{◌≡◌, true, codes};
ghost use Rattle.json.specs.Value.{items_view, members_view, value_view};
ghost use Rattle.json_texts.specs.InOrder.{are_ordered, data_of, is_ordered, items_are_ordered, items_data};
ghost use Rattle.serde_json.specs.Find.{get_member};
ghost use Rattle.schema.specs.Shape.{shape};
ghost use Rattle.fieldset.specs.FieldsV1.{read_fields_v1};
ghost use Rattle.objects.specs.Borrowed.{data_in};
ghost use Rattle.objects.specs.Managers.{manager_view, pair, pairs};
ghost use Rattle.objects.specs.Parts.{Returns, entries_in, entries_listed, entry_in, if_ok, manager_in, operation_in, owners_in, set_in, subresource_in};

use crate::fault::ObjectFault;
use crate::manager::{Manager, Operation, Subresource};
use crate::managers::{Entry, Managers};
use fieldset::{FieldSet, FieldsV1Fault};
use json::Value;
use json_texts::{as_array, as_object, as_str, member, text_at};
use schema::Schema;
use std::alloc::Global;

fn operation_in<'a>(members: &[(&'a str, Value<'a>)]) -> Option<Operation>
    ensures { result ≡ operation_in (data_in members.now) }
{
    match text_at(members, "operation") {
        Some(text) => Operation::named(text),
        None => None,
    }
}

/// What was written by: the main resource where no subresource is named. `None`: it is no text, or no subresource's.
fn subresource_in<'a>(members: &[(&'a str, Value<'a>)]) -> Option<Subresource>
    ensures { result ≡ subresource_in (data_in members.now) }
{
    let Some(value) = member(members, "subresource") else {
        return Some(Subresource::Main);
    };
    match as_str(value) {
        Some(text) => Subresource::named(text),
        None => None,
    }
}

/// Who wrote.
fn read_manager<'a>(alloc: Global, members: &[(&'a str, Value<'a>)]) -> Result<Manager, ObjectFault>
    ensures { Returns manager_view result (manager_in (data_in members.now)) }
{
    let Some(name) = text_at(members, "manager") else {
        return Err(ObjectFault::NotCanonical);
    };
    let Some(operation) = operation_in(members) else {
        return Err(ObjectFault::NotCanonical);
    };
    let Some(subresource) = subresource_in(members) else {
        return Err(ObjectFault::NotCanonical);
    };
    Ok(Manager::by(alloc, name, operation, subresource)?)
}

/// The set of paths that a FieldsV1 value says.
fn read_fields_v1(
    alloc: Global,
    schema: &Schema,
    value: &Value<'_>,
) -> Result<FieldSet, ObjectFault>
    requires { is_ordered (value_view value.now) ≡ true }
    ensures { Returns (λ s. s) result (if_ok (read_fields_v1 (shape schema.now) (data_of (value_view value.now)))) }
{
    match FieldSet::from_borrowed(alloc, schema, value) {
        Ok(paths) => Ok(paths),
        Err(FieldsV1Fault::NotAnObject) => Err(ObjectFault::NotCanonical),
        Err(FieldsV1Fault::BadKey) => Err(ObjectFault::NotCanonical),
        Err(FieldsV1Fault::NotCanonical) => Err(ObjectFault::NotCanonical),
        Err(FieldsV1Fault::OffSchema) => Err(ObjectFault::NotCanonical),
        Err(FieldsV1Fault::Memory) => Err(ObjectFault::Memory),
    }
}

/// The set of paths that an entry's `fieldsV1` says.
fn read_set<'a>(
    alloc: Global,
    schema: &Schema,
    members: &[(&'a str, Value<'a>)],
) -> Result<FieldSet, ObjectFault>
    requires { are_ordered (members_view members.now) ≡ true }
    ensures { Returns (λ s. s) result (set_in (shape schema.now) (data_in members.now)) }
{
    match member(members, "fieldsV1") {
        Some(value) => read_fields_v1(alloc, schema, value),
        None => Err(ObjectFault::NotCanonical),
    }
}

fn read_entry(alloc: Global, schema: &Schema, value: &Value<'_>) -> Result<Entry, ObjectFault>
    requires { is_ordered (value_view value.now) ≡ true }
    ensures { Returns pair result (entry_in (shape schema.now) (data_of (value_view value.now))) }
{
    let Some(members) = as_object(value) else {
        return Err(ObjectFault::NotCanonical);
    };
    let manager = read_manager(alloc, members)?;
    let paths = read_set(alloc, schema, members)?;
    Ok(Entry { manager, paths })
}

fn read_entries(
    alloc: Global,
    schema: &Schema,
    values: &[Value<'_>],
) -> Result<Vec<Entry>, ObjectFault>
    requires { items_are_ordered (items_view values.now) ≡ true }
    ensures { Returns (λ v. pairs v.items) result (entries_in (shape schema.now) (items_data (items_view values.now))) }
{
    let mut entries = Vec::new(alloc);
    for value in values {
        let entry = read_entry(alloc, schema, value)?;
        entries.push(entry)?;
    }
    Ok(entries)
}

/// The entries of `managedFields`; none where it is absent.
fn entries_in<'a>(
    alloc: Global,
    schema: &Schema,
    metadata: &[(&'a str, Value<'a>)],
) -> Result<Vec<Entry>, ObjectFault>
    requires { are_ordered (members_view metadata.now) ≡ true }
    ensures { Returns (λ v. pairs v.items) result (entries_listed (shape schema.now) (get_member (codes "managedFields") (data_in metadata.now))) }
{
    let Some(listed) = member(metadata, "managedFields") else {
        return Ok(Vec::new(alloc));
    };
    let Some(values) = as_array(listed) else {
        return Err(ObjectFault::NotCanonical);
    };
    read_entries(alloc, schema, values)
}

/// Who owns what, as `metadata` says it.
pub(crate) fn read_owners<'a>(
    alloc: Global,
    schema: &Schema,
    metadata: &[(&'a str, Value<'a>)],
) -> Result<Managers, ObjectFault>
    requires { are_ordered (members_view metadata.now) ≡ true }
    ensures { Returns (λ w. w) result (owners_in (shape schema.now) (data_in metadata.now)) }
{
    let entries = entries_in(alloc, schema, metadata)?;
    match Managers::with_entries(entries) {
        Some(managers) => Ok(managers),
        None => Err(ObjectFault::NotCanonical),
    }
}
