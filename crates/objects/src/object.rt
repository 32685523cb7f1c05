//! An object, printed as a value: what the system says, its content and who owns what. Its text is written in `object_text`.

ghost use Rattle.std.specs.Prelude.{◌≡◌, IfOk, OnOk, option_map, option_and_then};
ghost use Rattle.std.specs.FinMap as fin;
ghost use Rattle.serde_json.specs.Data.{object, put, string};
ghost use Rattle.serde_json.specs.Find.{as_object};
ghost use Rattle.serde_json.specs.View.{items_view, members_view, view};
ghost use Rattle.schema.specs.Shape.{shape};
ghost use Rattle.objects.specs.Managers.{pair, pairs, manager_view};
ghost use Rattle.objects.specs.ObjectText.{entry_items, entry_value, members_or_none, members_with, metadata_members, metadata_round, object_value, put_entries, put_filled, put_manager};
ghost use Rattle.objects.specs.Views.{identity_of, stamp_of, state_of};

use crate::manager::Manager;
use crate::managers::Entry;
use crate::owned::Owned;
use crate::system::Stamp;
use schema::Schema;
use serde_json::{Map, Value};
use std::alloc::{AllocError, Global};

/// The type of an object, and its key (Kubernetes API conventions, "Types (Kinds)", "Metadata").
#[derive(Clone, Copy, Debug)]
pub struct Identity<'a> {
    /// `group/version`.
    pub api_version: &'a str,
    pub kind: &'a str,
    pub namespace: &'a str,
    pub name: &'a str,
}

/// What stands round an object's fields: its type, its key and what the system says.
#[derive(Clone, Copy)]
pub(crate) struct Envelope<'a> {
    pub(crate) of: Identity<'a>,
    pub(crate) stamp: Stamp<'a>,
}

/// Puts a text, unless it is empty.
fn put_filled(
    members: &mut Map<String, Value>,
    alloc: Global,
    name: &str,
    text: &str,
) -> Result<(), AllocError>
    ensures { OnOk result (members_view members.new.entries ≡ put_filled name.now text.now (members_view members.old.entries)) }
{
    if text.is_empty() {
        return Ok(());
    }
    put_text(members, alloc, name, text)
}

/// Puts what an entry has of its manager.
fn put_manager(
    members: &mut Map<String, Value>,
    alloc: Global,
    manager: &Manager,
) -> Result<(), AllocError>
    ensures { OnOk result (members_view members.new.entries ≡ put_manager (manager_view manager.now) (members_view members.old.entries)) }
{
    put_filled(members, alloc, "subresource", manager.subresource.text())?;
    put_text(members, alloc, "operation", manager.operation.text())?;
    put_text(members, alloc, "manager", manager.name.as_str())
}

/// An entry with this FieldsV1 value.
fn entry_with(
    alloc: Global,
    api_version: &str,
    manager: &Manager,
    fields: Value,
) -> Result<Value, AllocError>
    ensures { IfOk result (λ v. view v ≡ object (members_with api_version.now (manager_view manager.now) (view fields))) }
{
    let mut members = Map::new(alloc);
    put_manager(&mut members, alloc, manager)?;
    serde_json::put(&mut members, alloc, "fieldsV1", fields)?;
    put_text(&mut members, alloc, "fieldsType", "FieldsV1")?;
    put_text(&mut members, alloc, "apiVersion", api_version)?;
    Ok(Value::Object(members))
}

fn entry_value(
    alloc: Global,
    schema: &Schema,
    api_version: &str,
    entry: &Entry,
) -> Result<Value, AllocError>
    ensures { IfOk result (λ v. view v ≡ entry_value (shape schema.now) api_version.now (manager_view entry.now.manager) entry.now.paths) }
{
    let fields = entry.paths.to_fields_v1(alloc, schema)?;
    let value = entry_with(alloc, api_version, &entry.manager, fields)?;
    Ok(value)
}

fn entry_items(
    alloc: Global,
    schema: &Schema,
    api_version: &str,
    entries: &[Entry],
) -> Result<Vec<Value>, AllocError>
    ensures { IfOk result (λ v. items_view v.items ≡ entry_items (shape schema.now) api_version.now (pairs entries.now)) }
{
    let mut items = Vec::new(alloc);
    for entry in entries {
        items.push(entry_value(alloc, schema, api_version, entry)?)?;
    }
    Ok(items)
}

/// The labels and annotations that were printed, if any.
pub(crate) fn metadata_members(
    alloc: Global,
    printed: &Option<Value>,
) -> Result<Map<String, Value>, AllocError>
    ensures { IfOk result (λ m. members_view m.entries ≡ metadata_members (option_map view printed.now)) }
{
    let Some(value) = printed else {
        return Ok(Map::new(alloc));
    };
    match value.get("metadata") {
        Some(metadata) => Ok(members_of(alloc, Some(metadata.clone()?))),
        None => Ok(Map::new(alloc)),
    }
}

/// The members of what was printed; none where it is no object.
pub(crate) fn members_of(alloc: Global, printed: Option<Value>) -> Map<String, Value>
    ensures { members_view result.entries ≡ members_or_none (option_and_then as_object (option_map view printed)) }
{
    match printed {
        Some(value) => into_members(alloc, value),
        None => Map::new(alloc),
    }
}

fn into_members(alloc: Global, value: Value) -> Map<String, Value>
    ensures { members_view result.entries ≡ members_or_none (as_object (view value)) }
{
    match value {
        Value::Object(members) => members,
        _ => Map::new(alloc),
    }
}

/// Puts a text.
pub(crate) fn put_text(
    members: &mut Map<String, Value>,
    alloc: Global,
    name: &str,
    text: &str,
) -> Result<(), AllocError>
    ensures { OnOk result (members_view members.new.entries ≡ put name.now (string text.now) (members_view members.old.entries)) }
{
    serde_json::put(members, alloc, name, Value::try_from_str(alloc, text)?)
}

/// Puts the entries, where there are some.
fn put_entries(
    members: &mut Map<String, Value>,
    alloc: Global,
    entries: Vec<Value>,
) -> Result<(), AllocError>
    ensures { OnOk result (members_view members.new.entries ≡ put_entries (items_view entries.items) (members_view members.old.entries)) }
{
    if entries.is_empty() {
        return Ok(());
    }
    serde_json::put(members, alloc, "managedFields", Value::Array(entries))
}

/// `metadata` with these items of `managedFields`, where the object's life is among its members.
pub(crate) fn metadata_round(
    alloc: Global,
    envelope: Envelope<'_>,
    items: Vec<Value>,
    metadata_members: Map<String, Value>,
) -> Result<Map<String, Value>, AllocError>
    ensures { IfOk result (λ m. members_view m.entries ≡ metadata_round (identity_of envelope.entry.of) (stamp_of envelope.entry.stamp) (items_view items.items) (members_view metadata_members.entries)) }
{
    let of = envelope.of;
    let mut metadata = metadata_members;
    envelope.stamp.put_uid(&mut metadata, alloc)?;
    put_entries(&mut metadata, alloc, items)?;
    let version = envelope.stamp.version.to_string(alloc)?;
    put_text(&mut metadata, alloc, "resourceVersion", version.as_str())?;
    put_text(&mut metadata, alloc, "namespace", of.namespace)?;
    put_text(&mut metadata, alloc, "name", of.name)?;
    Ok(metadata)
}

impl Owned {
    /// The items of `managedFields`.
    pub(crate) fn items(
        &self,
        alloc: Global,
        schema: &Schema,
        api_version: &str,
    ) -> Result<Vec<Value>, AllocError>
        ensures { IfOk result (λ v. items_view v.items ≡ entry_items (shape schema.now) api_version.now (fin.entries self.now.managers)) }
    {
        let items = entry_items(alloc, schema, api_version, self.managers.entries())?;
        Ok(items)
    }

    /// The object, where the items of `managedFields` are at hand.
    fn value_with(
        &self,
        alloc: Global,
        schema: &Schema,
        envelope: Envelope<'_>,
        items: Vec<Value>,
    ) -> Result<Value, AllocError>
        ensures { items_view items.items ≡ entry_items (shape schema.now) envelope.entry.of.api_version.now (fin.entries self.now.managers)
            → IfOk result (λ v. view v ≡ object_value (shape schema.now) (identity_of envelope.entry.of) (stamp_of envelope.entry.stamp) (state_of self.now)) }
    {
        let printed = self.tree.to_value(alloc, schema)?;
        let mut metadata_members = metadata_members(alloc, &printed)?;
        envelope.stamp.put_life(&mut metadata_members, alloc)?;
        let metadata = metadata_round(alloc, envelope, items, metadata_members)?;
        let mut members = members_of(alloc, printed);
        serde_json::put(&mut members, alloc, "metadata", Value::Object(metadata))?;
        put_text(&mut members, alloc, "kind", envelope.of.kind)?;
        put_text(&mut members, alloc, "apiVersion", envelope.of.api_version)?;
        Ok(Value::Object(members))
    }

    /// The object: its envelope, its content, what the system says and who owns what.
    pub fn to_value(
        &self,
        alloc: Global,
        schema: &Schema,
        of: Identity<'_>,
        stamp: Stamp<'_>,
    ) -> Result<Value, AllocError>
        ensures { IfOk result (λ v. view v ≡ object_value (shape schema.now) (identity_of of.entry) (stamp_of stamp.entry) (state_of self.now)) }
    {
        let items = self.items(alloc, schema, of.api_version)?;
        self.value_with(alloc, schema, Envelope { of, stamp }, items)
    }
}
