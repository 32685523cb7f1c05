//! Objects read back from their texts, which are written in `object_text`. The envelope is separated in `envelope`.
ghost use Rattle.std.specs.Prelude.{◌≡◌, true, IfOk, option_map};
ghost use Rattle.std.specs.Str.{bytes_eq};
ghost use Rattle.json.specs.Value.{members_view, value_view};
ghost use Rattle.json_texts.specs.InOrder.{are_ordered, data_of, in_order, is_ordered};
ghost use Rattle.schema.specs.ObjectShape.{IsObjectShape};
ghost use Rattle.schema.specs.Shape.{shape};
ghost use Rattle.typed.specs.Reading.{content_of};
ghost use Rattle.objects.specs.Borrowed.{data_in};
ghost use Rattle.objects.specs.State.{State};
ghost use Rattle.objects.specs.SystemMetadata as said;
ghost use Rattle.objects.specs.WellTyped.{OwnedArePresent};
ghost use Rattle.objects.specs.Managers.{pairs};
ghost use Rattle.objects.specs.Parts.{Returns, all_within, if_read, parts_in, stamp_in};
ghost use Rattle.objects.specs.ReadBack.{IsReadBack};
ghost use Rattle.objects.specs.Views.{identity_of, state_of, stored_stamp, system_of};
ghost use Rattle.pathmap.specs.Contents.{dom};

use crate::changes::has_all;
use crate::envelope::{fields_of, split, version_in};
use crate::fault::ObjectFault;
use crate::managed_fields::read_owners;
use crate::managers::Entry;
use crate::object::{Envelope, Identity};
use crate::owned::Owned;
use crate::system::{Stored, System};
use crate::system_read::read_system;
use json::{Scratch, Value};
use schema::Schema;
use std::alloc::Global;
use typed::{ReadFault, Tree};

/// The JSON value of a text.
fn read_value<'a>(
    alloc: Global,
    text: &'a str,
    scratch: &'a mut Scratch,
) -> Result<Value<'a>, ObjectFault>
    ensures value { Returns (λ v. data_of (value_view v)) result (in_order text.now) }
    ensures ordered { IfOk result (λ v. is_ordered (value_view v) ≡ true) }
{
    match json_texts::read(alloc, text, scratch)? {
        Some(value) => Ok(value),
        None => Err(ObjectFault::NotCanonical),
    }
}

fn read_content(alloc: Global, schema: &Schema, value: &Value<'_>) -> Result<Tree, ObjectFault>
    requires { is_ordered (value_view value.now) ≡ true }
    ensures { Returns (λ t. t) result (if_read (content_of (shape schema.now) (data_of (value_view value.now)))) }
{
    match Tree::read_borrowed(schema, alloc, value) {
        Ok(tree) => Ok(tree),
        Err(ReadFault::Shape(_, _)) => Err(ObjectFault::NotCanonical),
        Err(ReadFault::Memory) => Err(ObjectFault::Memory),
    }
}

/// The version, and what else the system says.
fn read_stamp<'a>(
    alloc: Global,
    metadata: &[(&'a str, Value<'a>)],
) -> Result<(u64, Option<System>), ObjectFault>
    requires { are_ordered (members_view metadata.now) ≡ true }
    ensures { Returns {Y = said.Stamp} (λ p. record { version = p.0; system = option_map system_of p.1 }) result (stamp_in (data_in metadata.now)) }
{
    let Some(version) = version_in(metadata) else {
        return Err(ObjectFault::NotCanonical);
    };
    let system = read_system(alloc, metadata)?;
    Ok((version, system))
}

/// What stands in an object's value and who owns it, and what the system says of it.
fn read_parts(alloc: Global, schema: &Schema, value: Value<'_>) -> Result<Stored, ObjectFault>
    requires { is_ordered (value_view value) ≡ true }
    ensures { Returns {Y = State × said.Stamp} (λ o. (state_of o.owned, stored_stamp o)) result (parts_in (shape schema.now) (data_of (value_view value.entry))) }
{
    let Some((others, metadata)) = split(value) else {
        return Err(ObjectFault::NotCanonical);
    };
    let (version, system) = read_stamp(alloc, &metadata)?;
    let managers = read_owners(alloc, schema, &metadata)?;
    let fields = fields_of(others, metadata)?;
    let tree = read_content(alloc, schema, &fields)?;
    let owned = Owned { tree, managers };
    Ok(Stored {
        owned,
        version,
        system,
    })
}

/// Whether all paths of the entries stand in the content.
fn all_stand_in(tree: &Tree, entries: &[Entry]) -> bool
    ensures { result ≡ all_within (dom tree.now) (pairs entries.now) }
{
    for entry in entries {
        if !has_all(tree, &entry.paths) {
            return false;
        }
    }
    true
}

/// How many bytes the JSON library's writer wants free behind a whole text, so that it doesn't grow at its end.
const AHEAD: usize = 8;

fn are_same(printed: &str, text: &str) -> bool
    ensures { result ≡ bytes_eq printed.now text.now }
{
    printed == text
}

impl Owned {
    ghost use Rattle.std.specs.Prelude.{◌↔◌, IsTrue};

    /// Whether each owned path stands in the content.
    fn owned_stand(&self) -> bool
        ensures { IsTrue result ↔ OwnedArePresent (state_of self.now) }
    {
        all_stand_in(&self.tree, self.managers.entries())
    }

    /// Reads an object of this type and key back: what stands in it, who owns what, and what the system says of it.
    /// Every text is `NotCanonical` but those that `to_object` gives of a content with owners of its paths.
    pub fn from_object(
        alloc: Global,
        schema: &Schema,
        of: Identity<'_>,
        text: &str,
    ) -> Result<Stored, ObjectFault>
        ensures { IsObjectShape (shape schema.now) → IsReadBack (shape schema.now) (identity_of of.entry) text.now result }
    {
        let mut scratch = Scratch::new(alloc);
        let value = read_value(alloc, text, &mut scratch)?;
        let stored = read_parts(alloc, schema, value)?;
        if !stored.owned.owned_stand() {
            return Err(ObjectFault::NotCanonical);
        }
        let room = text.len().saturating_add(AHEAD);
        let stamp = stored.stamp();
        let printed = stored
            .owned
            .sized_text(alloc, schema, Envelope { of, stamp }, room)?;
        if are_same(printed.as_str(), text) {
            return Ok(stored);
        }
        Err(ObjectFault::NotCanonical)
    }
}
