//! The envelope of an object (`apiVersion`, `kind`, `metadata`), separated from its fields. It is printed in `object` and
//! `metadata`.
ghost use Rattle.std.specs.Prelude.{◌≡◌, codes, true, IfOk, IfSome, OnOk, option_map};
ghost use Rattle.json.specs.Value.{members_view, value_view};
ghost use Rattle.json_texts.specs.InOrder.{are_ordered, data_of, is_ordered};
ghost use Rattle.json_values.specs.Members.{split_off};
ghost use Rattle.objects.specs.Borrowed.{AreOthers, data_in, place_in};
ghost use Rattle.objects.specs.Parts.{fields_of, less_life, less_system, metadata_left, own_members, put_metadata, split, version_in};

use json::Value;
use json_texts::{Members, into_object, take, text_at};
use names::version_of;
use std::alloc::AllocError;
use std::cmp::Ordering;

/// The members without those that name the object's type.
fn own_members(members: Members<'_>) -> Members<'_>
    requires { are_ordered (members_view members.items) ≡ true }
    ensures own { data_in result.items ≡ own_members (data_in members.entry.items) }
    ensures ordered { are_ordered (members_view result.items) ≡ true }
{
    let mut own = members;
    drop(take(&mut own, "apiVersion"));
    drop(take(&mut own, "kind"));
    own
}

/// The members but for `metadata`, and the members of that one.
fn split_off(members: Members<'_>) -> Option<(Members<'_>, Members<'_>)>
    requires { are_ordered (members_view members.items) ≡ true }
    ensures parts { option_map (λ p. (data_in p.0.items, data_in p.1.items)) result ≡ split_off (codes "metadata") (data_in members.entry.items) }
    ensures ordered { IfSome result (λ p. AreOthers p.0.items × (are_ordered (members_view p.1.items) ≡ true)) }
{
    let mut others = members;
    let Some(value) = take(&mut others, "metadata") else {
        return None;
    };
    let Some(metadata) = into_object(value) else {
        return None;
    };
    Some((others, metadata))
}

/// The members without the envelope's, and those of `metadata`, if it is there.
pub(crate) fn split(value: Value<'_>) -> Option<(Members<'_>, Members<'_>)>
    requires { is_ordered (value_view value) ≡ true }
    ensures parts { option_map (λ p. (data_in p.0.items, data_in p.1.items)) result ≡ split (data_of (value_view value.entry)) }
    ensures ordered { IfSome result (λ p. AreOthers p.0.items × (are_ordered (members_view p.1.items) ≡ true)) }
{
    match into_object(value) {
        Some(members) => split_off(own_members(members)),
        None => None,
    }
}

/// The version that `metadata` names.
pub(crate) fn version_in<'a>(metadata: &[(&'a str, Value<'a>)]) -> Option<u64>
    ensures { result ≡ version_in (data_in metadata.now) }
{
    match text_at(metadata, "resourceVersion") {
        Some(text) => version_of(text),
        None => None,
    }
}

/// `metadata` without creation, generation and deletion.
fn less_life(metadata: Members<'_>) -> Members<'_>
    requires { are_ordered (members_view metadata.items) ≡ true }
    ensures left { data_in result.items ≡ less_life (data_in metadata.entry.items) }
    ensures ordered { are_ordered (members_view result.items) ≡ true }
{
    let mut left = metadata;
    drop(take(&mut left, "creationTimestamp"));
    drop(take(&mut left, "generation"));
    drop(take(&mut left, "deletionGracePeriodSeconds"));
    drop(take(&mut left, "deletionTimestamp"));
    left
}

/// `metadata` without what the system says beside the version.
fn less_system(metadata: Members<'_>) -> Members<'_>
    requires { are_ordered (members_view metadata.items) ≡ true }
    ensures left { data_in result.items ≡ less_system (data_in metadata.entry.items) }
    ensures ordered { are_ordered (members_view result.items) ≡ true }
{
    let mut left = metadata;
    match take(&mut left, "uid") {
        Some(_) => less_life(left),
        None => left,
    }
}

/// `metadata` without the envelope's part: what is printed of the content.
fn metadata_left(metadata: Members<'_>) -> Members<'_>
    requires { are_ordered (members_view metadata.items) ≡ true }
    ensures left { data_in result.items ≡ metadata_left (data_in metadata.entry.items) }
    ensures ordered { are_ordered (members_view result.items) ≡ true }
{
    let mut left = metadata;
    drop(take(&mut left, "name"));
    drop(take(&mut left, "namespace"));
    drop(take(&mut left, "resourceVersion"));
    drop(take(&mut left, "managedFields"));
    less_system(left)
}

/// How many members stand before the place of this name.
fn place_in<'a>(members: &[(&'a str, Value<'a>)], name: &str) -> usize
    ensures { result ≡ place_in name.now (data_in members.now) }
{
    let mut place = 0;
    for (known, _) in members {
        if name.cmp(*known) != Ordering::Greater {
            return place;
        }
        place += 1;
    }
    place
}

/// Puts `metadata` back in its place, where something is left in it.
fn put_metadata<'a>(members: &mut Members<'a>, left: Members<'a>) -> Result<(), AllocError>
    requires others { AreOthers members.old.items }
    requires left { are_ordered (members_view left.items) ≡ true }
    ensures put { OnOk result (data_in members.new.items ≡ put_metadata (data_in left.entry.items) (data_in members.old.items)) }
    ensures ordered { OnOk result (are_ordered (members_view members.new.items) ≡ true) }
{
    if left.is_empty() {
        return Ok(());
    }
    let place = place_in(members, "metadata");
    members.insert(place, ("metadata", Value::Object(left)))?;
    Ok(())
}

/// The value of the object's fields, from what `split` gave.
pub(crate) fn fields_of<'a>(
    others: Members<'a>,
    metadata: Members<'a>,
) -> Result<Value<'a>, AllocError>
    requires others { AreOthers others.items }
    requires metadata { are_ordered (members_view metadata.items) ≡ true }
    ensures fields { IfOk result (λ v. data_of (value_view v) ≡ fields_of (data_in others.entry.items) (data_in metadata.entry.items)) }
    ensures ordered { IfOk result (λ v. is_ordered (value_view v) ≡ true) }
{
    let mut fields = others;
    put_metadata(&mut fields, metadata_left(metadata))?;
    Ok(Value::Object(fields))
}
