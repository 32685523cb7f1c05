//! The document of a version: its resources, and what is served of each. Groups stand in `groups`, schemas in `type_schema`.
ghost use Rattle.std.specs.Prelude.{OnOk, true, ◌∷◌, ◌++◌, [], codes, map};
ghost use Rattle.json.specs.Json.{item};
ghost use Rattle.json.specs.Token.{begin_array, begin_object, boolean, end_object, key, string};
ghost use Rattle.json.specs.Tree.{items_tokens};
ghost use Rattle.api_types.specs.ServedViews.{served};
ghost use Rattle.discovery.specs.Documents.{add_resources, add_status, items_by, object_resource, object_verbs, resource_list, status_resource, status_verbs};
ghost use Rattle.discovery.specs.Writing.{Adds, AddsItems, AddsValue};

use crate::likeness::{Likeness, group_version, is_like};
use crate::put::put;
use api_types::Served;
use json::{Token, Writer};
use std::alloc::{AllocError, Global};

/// The beginning of a resource, up to what is served of it.
fn begin<'a>(
    writer: &mut Writer,
    name: &'a str,
    singular: &'a str,
    kind: &'a str,
) -> Result<(), AllocError>
    ensures { OnOk result (Adds (begin_object ∷ key (codes "name") ∷ string name.now ∷ key (codes "singularName") ∷ string singular.now ∷ key (codes "namespaced") ∷ boolean true
        ∷ key (codes "kind") ∷ string kind.now ∷ key (codes "verbs") ∷ begin_array ∷ []) writer.old writer.new) }
{
    put(
        writer,
        &[
            Token::BeginObject,
            Token::Key("name"),
            Token::String(name),
            Token::Key("singularName"),
            Token::String(singular),
            Token::Key("namespaced"),
            Token::Bool(true),
            Token::Key("kind"),
            Token::String(kind),
            Token::Key("verbs"),
            Token::BeginArray,
        ],
    )
}

/// What is served of objects, and the end of their resource.
fn put_object_verbs(writer: &mut Writer) -> Result<(), AllocError>
    ensures { OnOk result (Adds (items_tokens object_verbs ++ end_object ∷ []) writer.old writer.new) }
{
    put(
        writer,
        &[
            Token::String("create"),
            Token::String("delete"),
            Token::String("get"),
            Token::String("list"),
            Token::String("patch"),
            Token::String("update"),
            Token::String("watch"),
            Token::EndArray,
            Token::EndObject,
        ],
    )
}

/// The objects of a type.
fn put_object_resource(alloc: Global, writer: &mut Writer, one: &Served) -> Result<(), AllocError>
    ensures { OnOk result (AddsValue (object_resource (served one.now)) writer.old writer.new) }
{
    let singular = one.kind.to_ascii_lowercase(alloc)?;
    begin(
        writer,
        one.plural.as_str(),
        singular.as_str(),
        one.kind.as_str(),
    )?;
    put_object_verbs(writer)
}

/// What is served of their status, and the end of its resource.
fn put_status_verbs(writer: &mut Writer) -> Result<(), AllocError>
    ensures { OnOk result (Adds (items_tokens status_verbs ++ end_object ∷ []) writer.old writer.new) }
{
    put(
        writer,
        &[
            Token::String("get"),
            Token::String("patch"),
            Token::String("update"),
            Token::EndArray,
            Token::EndObject,
        ],
    )
}

/// Their status.
fn put_status_resource(alloc: Global, writer: &mut Writer, one: &Served) -> Result<(), AllocError>
    ensures { OnOk result (AddsValue (status_resource (served one.now)) writer.old writer.new) }
{
    let name = format!(in alloc; "{}/status", one.plural)?;
    begin(writer, name.as_str(), "", one.kind.as_str())?;
    put_status_verbs(writer)
}

/// Their status, where they have one.
fn add_status(alloc: Global, writer: &mut Writer, one: &Served) -> Result<(), AllocError>
    ensures { OnOk result (AddsItems (add_status (served one.now)) writer.old writer.new) }
{
    if one.has_status() {
        return put_status_resource(alloc, writer, one);
    }
    Ok(())
}

/// Both.
fn put_both(alloc: Global, writer: &mut Writer, one: &Served) -> Result<(), AllocError>
    ensures { OnOk result (AddsItems (λ rest. item (object_resource (served one.now)) (add_status (served one.now) rest)) writer.old writer.new) }
{
    put_object_resource(alloc, writer, one)?;
    add_status(alloc, writer, one)
}

/// Those of a type, where it is of the version of another.
fn add_resources(
    alloc: Global,
    writer: &mut Writer,
    of: &Served,
    one: &Served,
) -> Result<(), AllocError>
    ensures { OnOk result (AddsItems (add_resources (served of.now) (served one.now)) writer.old writer.new) }
{
    if is_like(Likeness::Version, of, one) {
        return put_both(alloc, writer, one);
    }
    Ok(())
}

/// The resources of a type's version, and the end of the array.
fn put_resources(
    alloc: Global,
    writer: &mut Writer,
    of: &Served,
    types: &[Served],
) -> Result<(), AllocError>
    ensures { OnOk result (Adds (items_tokens (items_by (add_resources (served of.now)) (map served types.now))) writer.old writer.new) }
{
    for one in types {
        add_resources(alloc, writer, of, one)?;
    }
    put(writer, &[Token::EndArray])
}

/// The document of a type's version.
pub(crate) fn put_resource_list(
    alloc: Global,
    writer: &mut Writer,
    types: &[Served],
    of: &Served,
) -> Result<(), AllocError>
    ensures { OnOk result (AddsValue (resource_list (map served types.now) (served of.now)) writer.old writer.new) }
{
    let name = group_version(alloc, of)?;
    put(
        writer,
        &[
            Token::BeginObject,
            Token::Key("kind"),
            Token::String("APIResourceList"),
            Token::Key("apiVersion"),
            Token::String("v1"),
            Token::Key("groupVersion"),
            Token::String(name.as_str()),
            Token::Key("resources"),
            Token::BeginArray,
        ],
    )?;
    put_resources(alloc, writer, of, types)?;
    put(writer, &[Token::EndObject])
}
