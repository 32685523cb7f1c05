//! The operations of objects as OpenAPI has them: the PATCH, by which clients find out which parameters are taken.
ghost use Rattle.std.specs.Prelude.{OnOk, ◌∷◌, [], codes, map, string_bytes, IfOk, ◌≡◌};
ghost use Rattle.json.specs.Json.{array, item, member, no_items, no_members};
ghost use Rattle.json.specs.Token.{begin_object, end_object, key, string};
ghost use Rattle.json.specs.Tree.{items_tokens, members_tokens};
ghost use Rattle.api_types.specs.ServedViews.{served};
ghost use Rattle.discovery.specs.Documents.{members_by};
ghost use Rattle.discovery.specs.OpenApi.{add_path, group_version_kind, object_path, path_item, path_parameter, patch_operation, query_parameter, query_parameters};
ghost use Rattle.discovery.specs.Writing.{Adds, AddsMembers, AddsValue};

use crate::likeness::{Likeness, is_like};
use crate::put::put;
use api_types::Served;
use json::{Token, Writer};
use std::alloc::{AllocError, Global};

/// A type's group, kind and version.
pub(crate) fn put_group_version_kind(writer: &mut Writer, one: &Served) -> Result<(), AllocError>
    ensures { OnOk result (AddsValue (group_version_kind (served one.now)) writer.old writer.new) }
{
    put(
        writer,
        &[
            Token::BeginObject,
            Token::Key("group"),
            Token::String(one.group.as_str()),
            Token::Key("kind"),
            Token::String(one.kind.as_str()),
            Token::Key("version"),
            Token::String(one.version.as_str()),
            Token::EndObject,
        ],
    )
}

/// A parameter of a query.
fn put_query_parameter<'a>(
    writer: &mut Writer,
    name: &'a str,
    scalar: &'a str,
) -> Result<(), AllocError>
    ensures { OnOk result (AddsValue (query_parameter name.now scalar.now) writer.old writer.new) }
{
    put(
        writer,
        &[
            Token::BeginObject,
            Token::Key("name"),
            Token::String(name),
            Token::Key("in"),
            Token::String("query"),
            Token::Key("schema"),
            Token::BeginObject,
            Token::Key("type"),
            Token::String(scalar),
            Token::EndObject,
            Token::EndObject,
        ],
    )
}

/// A part of a path.
fn put_path_parameter(writer: &mut Writer, name: &str) -> Result<(), AllocError>
    ensures { OnOk result (AddsValue (path_parameter name.now) writer.old writer.new) }
{
    put(
        writer,
        &[
            Token::BeginObject,
            Token::Key("name"),
            Token::String(name),
            Token::Key("in"),
            Token::String("path"),
            Token::Key("required"),
            Token::Bool(true),
            Token::Key("schema"),
            Token::BeginObject,
            Token::Key("type"),
            Token::String("string"),
            Token::EndObject,
            Token::EndObject,
        ],
    )
}

/// The parameters of an apply, and the end of the array.
fn put_query_parameters(writer: &mut Writer) -> Result<(), AllocError>
    ensures { OnOk result (Adds (items_tokens query_parameters) writer.old writer.new) }
{
    put_query_parameter(writer, "dryRun", "string")?;
    put_query_parameter(writer, "fieldManager", "string")?;
    put_query_parameter(writer, "fieldValidation", "string")?;
    put_query_parameter(writer, "force", "boolean")?;
    put(writer, &[Token::EndArray])
}

/// What stands behind the parameters of an operation, up to its type.
fn put_responses(writer: &mut Writer) -> Result<(), AllocError>
    ensures { OnOk result (Adds (key (codes "responses") ∷ begin_object ∷ key (codes "200") ∷ begin_object ∷ key (codes "description") ∷ string (codes "OK") ∷ end_object ∷ end_object
        ∷ key (codes "x-kubernetes-action") ∷ string (codes "patch") ∷ key (codes "x-kubernetes-group-version-kind") ∷ []) writer.old writer.new) }
{
    put(
        writer,
        &[
            Token::Key("responses"),
            Token::BeginObject,
            Token::Key("200"),
            Token::BeginObject,
            Token::Key("description"),
            Token::String("OK"),
            Token::EndObject,
            Token::EndObject,
            Token::Key("x-kubernetes-action"),
            Token::String("patch"),
            Token::Key("x-kubernetes-group-version-kind"),
        ],
    )
}

/// The PATCH of an object.
fn put_patch(writer: &mut Writer, one: &Served) -> Result<(), AllocError>
    ensures { OnOk result (AddsValue (patch_operation (served one.now)) writer.old writer.new) }
{
    put(
        writer,
        &[
            Token::BeginObject,
            Token::Key("parameters"),
            Token::BeginArray,
        ],
    )?;
    put_query_parameters(writer)?;
    put_responses(writer)?;
    put_group_version_kind(writer, one)?;
    put(writer, &[Token::EndObject])
}

/// The parts of a path, and the end of the array and of what has it.
fn put_path_parameters(writer: &mut Writer) -> Result<(), AllocError>
    ensures { OnOk result (Adds (members_tokens (member (codes "parameters") (array (item (path_parameter (codes "name")) (item (path_parameter (codes "namespace")) no_items))) no_members)) writer.old writer.new) }
{
    put(writer, &[Token::Key("parameters"), Token::BeginArray])?;
    put_path_parameter(writer, "name")?;
    put_path_parameter(writer, "namespace")?;
    put(writer, &[Token::EndArray, Token::EndObject])
}

/// The operations of a type's objects.
fn put_path_item(writer: &mut Writer, one: &Served) -> Result<(), AllocError>
    ensures { OnOk result (AddsValue (path_item (served one.now)) writer.old writer.new) }
{
    put(writer, &[Token::BeginObject, Token::Key("patch")])?;
    put_patch(writer, one)?;
    put_path_parameters(writer)
}

fn object_path(alloc: Global, one: &Served) -> Result<String, AllocError>
    ensures { IfOk result (λ s. string_bytes s ≡ object_path (served one.now)) }
{
    format!(in alloc;
        "/apis/{}/{}/namespaces/{{namespace}}/{}/{{name}}",
        one.group, one.version, one.plural
    )
}

/// Their path and its operations.
fn put_path(alloc: Global, writer: &mut Writer, one: &Served) -> Result<(), AllocError>
    ensures { OnOk result (AddsMembers (member (object_path (served one.now)) (path_item (served one.now))) writer.old writer.new) }
{
    let path = object_path(alloc, one)?;
    put(writer, &[Token::Key(path.as_str())])?;
    put_path_item(writer, one)
}

/// Where it is of the version of another type.
fn add_path(alloc: Global, writer: &mut Writer, of: &Served, one: &Served) -> Result<(), AllocError>
    ensures { OnOk result (AddsMembers (add_path (served of.now) (served one.now)) writer.old writer.new) }
{
    if is_like(Likeness::Version, of, one) {
        return put_path(alloc, writer, one);
    }
    Ok(())
}

/// The paths of a type's version, and the end of the object.
pub(crate) fn put_paths(
    alloc: Global,
    writer: &mut Writer,
    of: &Served,
    types: &[Served],
) -> Result<(), AllocError>
    ensures { OnOk result (Adds (members_tokens (members_by (add_path (served of.now)) (map served types.now))) writer.old writer.new) }
{
    for one in types {
        add_path(alloc, writer, of, one)?;
    }
    put(writer, &[Token::EndObject])
}
