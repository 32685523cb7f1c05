//! What the system says of an object, read of its `metadata`. It is put in `system`.

ghost use Rattle.std.specs.Prelude.{◌≡◌, true, IfOk, option_map, string_bytes};
ghost use Rattle.json.specs.Value.{members_view};
ghost use Rattle.json_texts.specs.InOrder.{are_ordered};
ghost use Rattle.serde_json.specs.Find.{get_member};
ghost use Rattle.objects.specs.Borrowed.{data_in};
ghost use Rattle.objects.specs.Parts.{Returns, generation_in, system_in, system_of_uid, text_or_none};
ghost use Rattle.objects.specs.Views.{system_of};

use crate::fault::ObjectFault;
use crate::system::System;
use json::Value;
use json_texts::{as_str, member, text_at, to_value};
use std::alloc::{AllocError, Global};

/// The text at a name, or none where the member is missing.
fn text_or_none<'a>(
    metadata: &[(&'a str, Value<'a>)],
    name: &str,
) -> Result<Option<&'a str>, ObjectFault>
    ensures { Returns (option_map (λ s. s.now)) result (text_or_none (get_member name.now (data_in metadata.now))) }
{
    let Some(value) = member(metadata, name) else {
        return Ok(None);
    };
    match as_str(value) {
        Some(text) => Ok(Some(text)),
        None => Err(ObjectFault::NotCanonical),
    }
}

fn generation_in<'a>(alloc: Global, metadata: &[(&'a str, Value<'a>)]) -> Result<u64, ObjectFault>
    requires { are_ordered (members_view metadata.now) ≡ true }
    ensures { Returns (λ n. n) result (generation_in (data_in metadata.now)) }
{
    let Some(value) = member(metadata, "generation") else {
        return Err(ObjectFault::NotCanonical);
    };
    match to_value(alloc, value)?.as_u64() {
        Some(generation) => Ok(generation),
        None => Err(ObjectFault::NotCanonical),
    }
}

fn copied(alloc: Global, text: Option<&str>) -> Result<Option<String>, AllocError>
    ensures { IfOk result (λ o. option_map string_bytes o ≡ option_map (λ s. s.now) text.entry) }
{
    match text {
        Some(text) => Ok(Some(String::from_str(alloc, text)?)),
        None => Ok(None),
    }
}

/// What the system says, of this uid.
fn read_with_uid<'a>(
    alloc: Global,
    uid: &str,
    metadata: &[(&'a str, Value<'a>)],
) -> Result<System, ObjectFault>
    requires { are_ordered (members_view metadata.now) ≡ true }
    ensures { Returns system_of result (system_of_uid uid.now (data_in metadata.now)) }
{
    let Some(created) = text_at(metadata, "creationTimestamp") else {
        return Err(ObjectFault::NotCanonical);
    };
    let generation = generation_in(alloc, metadata)?;
    let deleted = text_or_none(metadata, "deletionTimestamp")?;
    Ok(System {
        uid: String::from_str(alloc, uid)?,
        created: String::from_str(alloc, created)?,
        generation,
        deleted: copied(alloc, deleted)?,
    })
}

/// What the system says beside the version: nothing where there is no uid.
pub(crate) fn read_system<'a>(
    alloc: Global,
    metadata: &[(&'a str, Value<'a>)],
) -> Result<Option<System>, ObjectFault>
    requires { are_ordered (members_view metadata.now) ≡ true }
    ensures { Returns (option_map system_of) result (system_in (data_in metadata.now)) }
{
    match text_or_none(metadata, "uid")? {
        Some(uid) => Ok(Some(read_with_uid(alloc, uid, metadata)?)),
        None => Ok(None),
    }
}
