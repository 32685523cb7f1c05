//! `metadata` written as text, member after member. The text of the whole object stands in `object_text`.
ghost use Rattle.std.specs.Prelude.{◌≡◌, true, codes, false, OnOk};
ghost use Rattle.std.specs.FinMap as fin;
ghost use Rattle.serde_json.specs.Data.{object};
ghost use Rattle.serde_json.specs.View.{items_view, members_view};
ghost use Rattle.serde_json.specs.Written.{compact_text, has_float, members_have_float};
ghost use Rattle.json_texts.specs.Writing.{AppendsMembers, with_text};
ghost use Rattle.schema.specs.Shape.{shape};
ghost use Rattle.objects.specs.Appended.{then_members};
ghost use Rattle.objects.specs.InOrder.{are_below, then_entries, then_key_and_version, then_uid};
ghost use Rattle.objects.specs.Managers.{pairs};
ghost use Rattle.objects.specs.ObjectText.{entry_items, metadata_of, metadata_round};
ghost use Rattle.objects.specs.Views.{identity_of, stamp_of};

use crate::managed_text::{write_entries, write_string};
use crate::managers::Entry;
use crate::object::{Envelope, metadata_round};
use crate::owned::Owned;
use crate::system::Stamp;
use json_texts::TextWriter;
use schema::Schema;
use serde_json::{Map, Value};
use std::alloc::{AllocError, Global};
use std::cmp::Ordering;

/// Whether each name lies below this one.
fn are_below(members: &Map<String, Value>, name: &str) -> bool
    ensures { result ≡ are_below name.now (members_view members.now.entries) }
{
    for (known, _) in members.iter() {
        if known.as_str().cmp(name) != Ordering::Less {
            return false;
        }
    }
    true
}

/// Writes members, one after another.
fn write_members(
    out: &mut TextWriter,
    alloc: Global,
    members: &Map<String, Value>,
) -> Result<(), AllocError>
    ensures { members_have_float (members_view members.now.entries) ≡ false → OnOk result (AppendsMembers (then_members (members_view members.now.entries)) out.old out.new) }
{
    for (name, value) in members.iter() {
        out.name(alloc, name.as_str())?;
        out.value(alloc, value)?;
    }
    Ok(())
}

/// Writes `managedFields`, where somebody owns something.
fn write_managed(
    out: &mut TextWriter,
    alloc: Global,
    schema: &Schema,
    api_version: &str,
    entries: &[Entry],
) -> Result<(), AllocError>
    ensures { OnOk result (AppendsMembers (then_entries (entry_items (shape schema.now) api_version.now (pairs entries.now))) out.old out.new) }
{
    if entries.is_empty() {
        return Ok(());
    }
    out.name(alloc, "managedFields")?;
    write_entries(out, alloc, schema, api_version, entries)
}

/// Writes key and version.
fn write_key_and_version(
    out: &mut TextWriter,
    alloc: Global,
    envelope: Envelope<'_>,
) -> Result<(), AllocError>
    ensures { OnOk result (AppendsMembers (then_key_and_version (identity_of envelope.entry.of) envelope.entry.stamp.version) out.old out.new) }
{
    write_string(out, alloc, "name", envelope.of.name)?;
    write_string(out, alloc, "namespace", envelope.of.namespace)?;
    let version = envelope.stamp.version.to_string(alloc)?;
    write_string(out, alloc, "resourceVersion", version.as_str())
}

/// Writes the uid, where the system says one.
fn write_uid(out: &mut TextWriter, alloc: Global, stamp: Stamp<'_>) -> Result<(), AllocError>
    ensures { OnOk result (AppendsMembers (then_uid (stamp_of stamp.entry).system) out.old out.new) }
{
    match stamp.system {
        Some(system) => write_string(out, alloc, "uid", system.uid.as_str()),
        None => Ok(()),
    }
}

/// Writes `metadata`, put together as a value, where the object's life is among its members.
fn write_put_together(
    out: &mut TextWriter,
    alloc: Global,
    envelope: Envelope<'_>,
    items: Vec<Value>,
    metadata_members: Map<String, Value>,
) -> Result<(), AllocError>
    ensures { has_float (object (metadata_round (identity_of envelope.entry.of) (stamp_of envelope.entry.stamp) (items_view items.items) (members_view metadata_members.entries))) ≡ false
        → OnOk result (out.new ≡ with_text (compact_text (object (metadata_round (identity_of envelope.entry.of) (stamp_of envelope.entry.stamp) (items_view items.items) (members_view metadata_members.entries)))) out.old) }
{
    let metadata = metadata_round(alloc, envelope, items, metadata_members)?;
    out.value(alloc, &Value::Object(metadata))
}

impl Owned {
    /// Writes `metadata`, where the names of its members lie below those of the envelope, and the object's life is among them.
    fn write_in_order(
        &self,
        out: &mut TextWriter,
        alloc: Global,
        schema: &Schema,
        envelope: Envelope<'_>,
        metadata_members: &Map<String, Value>,
    ) -> Result<(), AllocError>
        ensures { are_below (codes "managedFields") (members_view metadata_members.now.entries) ≡ true → members_have_float (members_view metadata_members.now.entries) ≡ false
            → OnOk result (out.new ≡ with_text (compact_text (object (metadata_round (identity_of envelope.entry.of) (stamp_of envelope.entry.stamp) (entry_items (shape schema.now) envelope.entry.of.api_version.now (fin.entries self.now.managers)) (members_view metadata_members.now.entries)))) out.old) }
    {
        out.begin_object(alloc)?;
        write_members(out, alloc, metadata_members)?;
        write_managed(
            out,
            alloc,
            schema,
            envelope.of.api_version,
            self.managers.entries(),
        )?;
        write_key_and_version(out, alloc, envelope)?;
        write_uid(out, alloc, envelope.stamp)?;
        out.end_object()
    }

    /// Writes `metadata` round what is printed of it.
    pub(crate) fn write_metadata(
        &self,
        out: &mut TextWriter,
        alloc: Global,
        schema: &Schema,
        envelope: Envelope<'_>,
        metadata_members: Map<String, Value>,
    ) -> Result<(), AllocError>
        ensures { members_have_float (members_view metadata_members.entries) ≡ false
            → has_float (object (metadata_of (shape schema.now) (identity_of envelope.entry.of) (stamp_of envelope.entry.stamp) self.now.managers (members_view metadata_members.entries))) ≡ false
            → OnOk result (out.new ≡ with_text (compact_text (object (metadata_of (shape schema.now) (identity_of envelope.entry.of) (stamp_of envelope.entry.stamp) self.now.managers (members_view metadata_members.entries)))) out.old) }
    {
        let mut members = metadata_members;
        envelope.stamp.put_life(&mut members, alloc)?;
        if are_below(&members, "managedFields") {
            return self.write_in_order(out, alloc, schema, envelope, &members);
        }
        let items = self.items(alloc, schema, envelope.of.api_version)?;
        write_put_together(out, alloc, envelope, items, members)
    }
}
