//! `managedFields` written as text, entry after entry. It is read in `managed_fields`.
ghost use Rattle.std.specs.Prelude.{◌≡◌, OnOk};
ghost use Rattle.serde_json.specs.Data.{array, member, string};
ghost use Rattle.serde_json.specs.Written.{compact_text};
ghost use Rattle.fieldset.specs.FieldsV1.{fields_v1_of};
ghost use Rattle.json_texts.specs.Writing.{AppendsMembers, with_text};
ghost use Rattle.schema.specs.Shape.{shape};
ghost use Rattle.objects.specs.Appended.{with_items};
ghost use Rattle.objects.specs.EntryTexts.{then_filled, then_prefix, then_manager};
ghost use Rattle.objects.specs.Managers.{manager_view, pairs};
ghost use Rattle.objects.specs.ObjectText.{entry_items, entry_value};

use crate::manager::Manager;
use crate::managers::Entry;
use fieldset::FieldSet;
use json_texts::TextWriter;
use schema::Schema;
use std::alloc::{AllocError, Global};

/// Writes a member that is a string.
pub(crate) fn write_string(
    out: &mut TextWriter,
    alloc: Global,
    name: &str,
    text: &str,
) -> Result<(), AllocError>
    ensures { OnOk result (AppendsMembers (member name.now (string text.now)) out.old out.new) }
{
    out.name(alloc, name)?;
    out.string(alloc, text)
}

/// Writes an entry's members up to its FieldsV1 value.
fn write_prefix(
    out: &mut TextWriter,
    alloc: Global,
    schema: &Schema,
    api_version: &str,
    paths: &FieldSet,
) -> Result<(), AllocError>
    ensures { OnOk result (AppendsMembers (then_prefix api_version.now (fields_v1_of (shape schema.now) paths.now)) out.old out.new) }
{
    write_string(out, alloc, "apiVersion", api_version)?;
    write_string(out, alloc, "fieldsType", "FieldsV1")?;
    out.name(alloc, "fieldsV1")?;
    paths.write_fields_v1(out, alloc, schema)
}

/// Writes a member that is a string, unless it is empty.
fn write_filled(
    out: &mut TextWriter,
    alloc: Global,
    name: &str,
    text: &str,
) -> Result<(), AllocError>
    ensures { OnOk result (AppendsMembers (then_filled name.now text.now) out.old out.new) }
{
    if text.is_empty() {
        return Ok(());
    }
    write_string(out, alloc, name, text)
}

/// Writes what an entry has of its manager.
fn write_manager(out: &mut TextWriter, alloc: Global, manager: &Manager) -> Result<(), AllocError>
    ensures { OnOk result (AppendsMembers (then_manager (manager_view manager.now)) out.old out.new) }
{
    write_string(out, alloc, "manager", manager.name.as_str())?;
    write_string(out, alloc, "operation", manager.operation.text())?;
    write_filled(out, alloc, "subresource", manager.subresource.text())
}

fn write_entry(
    out: &mut TextWriter,
    alloc: Global,
    schema: &Schema,
    api_version: &str,
    entry: &Entry,
) -> Result<(), AllocError>
    ensures { OnOk result (out.new ≡ with_text (compact_text (entry_value (shape schema.now) api_version.now (manager_view entry.now.manager) entry.now.paths)) out.old) }
{
    out.begin_object(alloc)?;
    write_prefix(out, alloc, schema, api_version, &entry.paths)?;
    write_manager(out, alloc, &entry.manager)?;
    out.end_object()
}

fn write_each(
    out: &mut TextWriter,
    alloc: Global,
    schema: &Schema,
    api_version: &str,
    entries: &[Entry],
) -> Result<(), AllocError>
    ensures { OnOk result (out.new ≡ with_items (entry_items (shape schema.now) api_version.now (pairs entries.now)) out.old) }
{
    for entry in entries {
        write_entry(out, alloc, schema, api_version, entry)?;
    }
    Ok(())
}

/// Writes the entries of `managedFields`, in brackets.
pub(crate) fn write_entries(
    out: &mut TextWriter,
    alloc: Global,
    schema: &Schema,
    api_version: &str,
    entries: &[Entry],
) -> Result<(), AllocError>
    ensures { OnOk result (out.new ≡ with_text (compact_text (array (entry_items (shape schema.now) api_version.now (pairs entries.now)))) out.old) }
{
    out.begin_array(alloc)?;
    write_each(out, alloc, schema, api_version, entries)?;
    out.end_array()
}
