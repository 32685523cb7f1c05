//! The documents of groups and their versions. What a version has is told in `resources`.
ghost use Rattle.std.specs.Prelude.{OnOk, ◌∷◌, [], codes, map};
ghost use Rattle.json.specs.Token.{begin_object, end_object, key, string};
ghost use Rattle.json.specs.Tree.{items_tokens, members_tokens};
ghost use Rattle.api_types.specs.ServedViews.{served};
ghost use Rattle.discovery.specs.Documents.{add_group, add_version, group, group_list, group_members, items_by, version_entry};
ghost use Rattle.discovery.specs.Writing.{Adds, AddsItems, AddsValue};

use crate::likeness::{Likeness, firsts, group_version, is_like};
use crate::put::put;
use api_types::Served;
use json::{Token, Writer};
use std::alloc::{AllocError, Global};

fn put_version_names<'a>(
    writer: &mut Writer,
    name: &'a str,
    version: &'a str,
) -> Result<(), AllocError>
    ensures { OnOk result (Adds (begin_object ∷ key (codes "groupVersion") ∷ string name.now ∷ key (codes "version") ∷ string version.now ∷ end_object ∷ []) writer.old writer.new) }
{
    put(
        writer,
        &[
            Token::BeginObject,
            Token::Key("groupVersion"),
            Token::String(name),
            Token::Key("version"),
            Token::String(version),
            Token::EndObject,
        ],
    )
}

/// A group's version.
fn put_version(alloc: Global, writer: &mut Writer, one: &Served) -> Result<(), AllocError>
    ensures { OnOk result (AddsValue (version_entry (served one.now)) writer.old writer.new) }
{
    let name = group_version(alloc, one)?;
    put_version_names(writer, name.as_str(), one.version.as_str())
}

/// Where it is of the group of a type.
fn add_version(
    alloc: Global,
    writer: &mut Writer,
    of: &Served,
    one: &Served,
) -> Result<(), AllocError>
    ensures { OnOk result (AddsItems (add_version (served of.now) (served one.now)) writer.old writer.new) }
{
    if is_like(Likeness::Group, of, one) {
        return put_version(alloc, writer, one);
    }
    Ok(())
}

/// The versions of a type's group, and the end of the array.
fn put_versions(
    alloc: Global,
    writer: &mut Writer,
    of: &Served,
    versions: &[&Served],
) -> Result<(), AllocError>
    ensures { OnOk result (Adds (items_tokens (items_by (add_version (served of.now)) (map (λ t. served t.now) versions.now))) writer.old writer.new) }
{
    for one in versions {
        add_version(alloc, writer, of, one)?;
    }
    put(writer, &[Token::EndArray])
}

/// The members of a group, and the end of its object.
fn put_members(
    alloc: Global,
    writer: &mut Writer,
    types: &[Served],
    of: &Served,
) -> Result<(), AllocError>
    ensures { OnOk result (Adds (members_tokens (group_members (map served types.now) (served of.now))) writer.old writer.new) }
{
    let versions = firsts(alloc, Likeness::Version, types)?;
    put(
        writer,
        &[
            Token::Key("name"),
            Token::String(of.group.as_str()),
            Token::Key("versions"),
            Token::BeginArray,
        ],
    )?;
    put_versions(alloc, writer, of, &versions)?;
    put(writer, &[Token::Key("preferredVersion")])?;
    put_version(alloc, writer, of)?;
    put(writer, &[Token::EndObject])
}

/// One of a list of groups.
fn add_group(
    alloc: Global,
    writer: &mut Writer,
    types: &[Served],
    of: &Served,
) -> Result<(), AllocError>
    ensures { OnOk result (AddsItems (add_group (map served types.now) (served of.now)) writer.old writer.new) }
{
    put(writer, &[Token::BeginObject])?;
    put_members(alloc, writer, types, of)
}

/// Groups, and the end of the array.
fn put_groups(
    alloc: Global,
    writer: &mut Writer,
    types: &[Served],
    groups: &[&Served],
) -> Result<(), AllocError>
    ensures { OnOk result (Adds (items_tokens (items_by (add_group (map served types.now)) (map (λ t. served t.now) groups.now))) writer.old writer.new) }
{
    for of in groups {
        add_group(alloc, writer, types, of)?;
    }
    put(writer, &[Token::EndArray])
}

/// All groups.
pub(crate) fn put_group_list(
    alloc: Global,
    writer: &mut Writer,
    types: &[Served],
) -> Result<(), AllocError>
    ensures { OnOk result (AddsValue (group_list (map served types.now)) writer.old writer.new) }
{
    let groups = firsts(alloc, Likeness::Group, types)?;
    put(
        writer,
        &[
            Token::BeginObject,
            Token::Key("kind"),
            Token::String("APIGroupList"),
            Token::Key("apiVersion"),
            Token::String("v1"),
            Token::Key("groups"),
            Token::BeginArray,
        ],
    )?;
    put_groups(alloc, writer, types, &groups)?;
    put(writer, &[Token::EndObject])
}

/// One group, by the first of its types.
pub(crate) fn put_group(
    alloc: Global,
    writer: &mut Writer,
    types: &[Served],
    of: &Served,
) -> Result<(), AllocError>
    ensures { OnOk result (AddsValue (group (map served types.now) (served of.now)) writer.old writer.new) }
{
    put(
        writer,
        &[
            Token::BeginObject,
            Token::Key("kind"),
            Token::String("APIGroup"),
            Token::Key("apiVersion"),
            Token::String("v1"),
        ],
    )?;
    put_members(alloc, writer, types, of)
}
