//! The schema of a type as OpenAPI has it: what every object has, and the type's own fields.
ghost use Rattle.std.specs.Prelude.{OnOk, ◌≡◌, codes, map, string_bytes, IfOk};
ghost use Rattle.json.specs.Json.{array, item, member, no_items, no_members};
ghost use Rattle.json.specs.Tree.{members_tokens};
ghost use Rattle.schema.specs.Shape.{fields_in, shape};
ghost use Rattle.api_types.specs.ServedViews.{served};
ghost use Rattle.discovery.specs.Documents.{members_by};
ghost use Rattle.discovery.specs.OpenApi.{add_field, add_schema, group_version_kind, metadata_schema, own_fields, own_properties, owners_schema, schema_name, schema_of, text_schema, texts_schema, type_properties, type_schema};
ghost use Rattle.discovery.specs.Writing.{Adds, AddsMembers, AddsValue};

use crate::likeness::{Likeness, is_like};
use crate::operations::put_group_version_kind;
use crate::put::put;
use crate::schemas::put_schema;
use api_types::Served;
use json::{Token, Writer};
use schema::Schema;
use std::alloc::{AllocError, Global};

/// A property that is a text.
fn put_text(writer: &mut Writer, name: &str) -> Result<(), AllocError>
    ensures { OnOk result (AddsMembers (member name.now text_schema) writer.old writer.new) }
{
    put(
        writer,
        &[
            Token::Key(name),
            Token::BeginObject,
            Token::Key("type"),
            Token::String("string"),
            Token::EndObject,
        ],
    )
}

/// A property that is a map of texts.
fn put_texts(writer: &mut Writer, name: &str) -> Result<(), AllocError>
    ensures { OnOk result (AddsMembers (member name.now texts_schema) writer.old writer.new) }
{
    put(
        writer,
        &[
            Token::Key(name),
            Token::BeginObject,
            Token::Key("type"),
            Token::String("object"),
            Token::Key("additionalProperties"),
            Token::BeginObject,
            Token::Key("type"),
            Token::String("string"),
            Token::EndObject,
            Token::EndObject,
        ],
    )
}

/// The owners of fields.
fn put_owners(writer: &mut Writer) -> Result<(), AllocError>
    ensures { OnOk result (AddsMembers (member (codes "managedFields") owners_schema) writer.old writer.new) }
{
    put(
        writer,
        &[
            Token::Key("managedFields"),
            Token::BeginObject,
            Token::Key("type"),
            Token::String("array"),
            Token::Key("items"),
            Token::BeginObject,
            Token::Key("type"),
            Token::String("object"),
            Token::EndObject,
            Token::EndObject,
        ],
    )
}

/// The properties of metadata.
fn put_metadata_properties(writer: &mut Writer) -> Result<(), AllocError>
    ensures { OnOk result (AddsMembers (λ rest. member (codes "annotations") texts_schema (member (codes "labels") texts_schema (member (codes "managedFields") owners_schema
        (member (codes "name") text_schema (member (codes "namespace") text_schema (member (codes "resourceVersion") text_schema rest)))))) writer.old writer.new) }
{
    put_texts(writer, "annotations")?;
    put_texts(writer, "labels")?;
    put_owners(writer)?;
    put_text(writer, "name")?;
    put_text(writer, "namespace")?;
    put_text(writer, "resourceVersion")
}

/// The metadata that the objects of all types have.
fn put_metadata(writer: &mut Writer) -> Result<(), AllocError>
    ensures { OnOk result (AddsMembers (member (codes "metadata") metadata_schema) writer.old writer.new) }
{
    put(
        writer,
        &[
            Token::Key("metadata"),
            Token::BeginObject,
            Token::Key("type"),
            Token::String("object"),
            Token::Key("properties"),
            Token::BeginObject,
        ],
    )?;
    put_metadata_properties(writer)?;
    put(writer, &[Token::EndObject])?;
    put(writer, &[Token::EndObject])
}

/// What every object has.
fn put_envelope(writer: &mut Writer) -> Result<(), AllocError>
    ensures { OnOk result (AddsMembers (λ rest. member (codes "apiVersion") text_schema (member (codes "kind") text_schema (member (codes "metadata") metadata_schema rest))) writer.old writer.new) }
{
    put_text(writer, "apiVersion")?;
    put_text(writer, "kind")?;
    put_metadata(writer)
}

fn put_field(
    alloc: Global,
    writer: &mut Writer,
    name: &str,
    inner: &Schema,
) -> Result<(), AllocError>
    ensures { OnOk result (AddsMembers (member name.now (schema_of (shape inner.now))) writer.old writer.new) }
{
    put(writer, &[Token::Key(name)])?;
    put_schema(alloc, writer, inner)
}

/// A property, unless it is `metadata`, which every object has.
fn add_field(
    alloc: Global,
    writer: &mut Writer,
    name: &str,
    inner: &Schema,
) -> Result<(), AllocError>
    ensures { OnOk result (AddsMembers (add_field name.now (shape inner.now)) writer.old writer.new) }
{
    if name == "metadata" {
        return Ok(());
    }
    put_field(alloc, writer, name, inner)
}

/// A type's own fields, and the end of the object.
fn put_fields(
    alloc: Global,
    writer: &mut Writer,
    fields: &[(String, Schema)],
) -> Result<(), AllocError>
    ensures { OnOk result (Adds (members_tokens (own_fields (fields_in fields.now))) writer.old writer.new) }
{
    for (name, inner) in fields {
        add_field(alloc, writer, name.as_str(), inner)?;
    }
    put(writer, &[Token::EndObject])
}

fn put_own_properties(alloc: Global, writer: &mut Writer, schema: &Schema) -> Result<(), AllocError>
    ensures { OnOk result (Adds (members_tokens (own_properties (shape schema.now))) writer.old writer.new) }
{
    match schema {
        Schema::Struct(fields, _) => put_fields(alloc, writer, fields),
        _ => put(writer, &[Token::EndObject]),
    }
}

/// The type of a schema, and the end of the schema.
fn put_schema_type(writer: &mut Writer, one: &Served) -> Result<(), AllocError>
    ensures { OnOk result (Adds (members_tokens (member (codes "x-kubernetes-group-version-kind") (array (item (group_version_kind (served one.now)) no_items)) no_members)) writer.old writer.new) }
{
    put(
        writer,
        &[
            Token::Key("x-kubernetes-group-version-kind"),
            Token::BeginArray,
        ],
    )?;
    put_group_version_kind(writer, one)?;
    put(writer, &[Token::EndArray, Token::EndObject])
}

/// The properties of a type, and the end of their object.
fn put_properties(alloc: Global, writer: &mut Writer, schema: &Schema) -> Result<(), AllocError>
    ensures { OnOk result (Adds (members_tokens (type_properties (shape schema.now))) writer.old writer.new) }
{
    put_envelope(writer)?;
    put_own_properties(alloc, writer, schema)
}

/// The schema of a type.
fn put_type_schema(alloc: Global, writer: &mut Writer, one: &Served) -> Result<(), AllocError>
    ensures { OnOk result (AddsValue (type_schema (served one.now)) writer.old writer.new) }
{
    put(
        writer,
        &[
            Token::BeginObject,
            Token::Key("type"),
            Token::String("object"),
            Token::Key("properties"),
            Token::BeginObject,
        ],
    )?;
    put_properties(alloc, writer, &one.schema)?;
    put_schema_type(writer, one)
}

fn schema_name(alloc: Global, one: &Served) -> Result<String, AllocError>
    ensures { IfOk result (λ s. string_bytes s ≡ schema_name (served one.now)) }
{
    format!(in alloc; "{}.{}.{}", one.group, one.version, one.kind)
}

/// With its name.
fn put_named(alloc: Global, writer: &mut Writer, one: &Served) -> Result<(), AllocError>
    ensures { OnOk result (AddsMembers (member (schema_name (served one.now)) (type_schema (served one.now))) writer.old writer.new) }
{
    let name = schema_name(alloc, one)?;
    put(writer, &[Token::Key(name.as_str())])?;
    put_type_schema(alloc, writer, one)
}

/// Where it is of the version of another type.
fn add_schema(
    alloc: Global,
    writer: &mut Writer,
    of: &Served,
    one: &Served,
) -> Result<(), AllocError>
    ensures { OnOk result (AddsMembers (add_schema (served of.now) (served one.now)) writer.old writer.new) }
{
    if is_like(Likeness::Version, of, one) {
        return put_named(alloc, writer, one);
    }
    Ok(())
}

/// The schemas of a type's version, and the end of the object.
pub(crate) fn put_schemas(
    alloc: Global,
    writer: &mut Writer,
    of: &Served,
    types: &[&Served],
) -> Result<(), AllocError>
    ensures { OnOk result (Adds (members_tokens (members_by (add_schema (served of.now)) (map (λ t. served t.now) types.now))) writer.old writer.new) }
{
    for one in types {
        add_schema(alloc, writer, of, one)?;
    }
    put(writer, &[Token::EndObject])
}
