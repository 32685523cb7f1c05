//! Schemas as OpenAPI has them, printed of what was read. The schema of a type has more, and stands in `type_schema`.
ghost use Rattle.std.specs.Prelude.{OnOk, [], ◌∷◌, codes};
ghost use Rattle.json.specs.Token.{begin_object, key, string};
ghost use Rattle.json.specs.Tree.{members_tokens};
ghost use Rattle.schema.specs.KeyNames.{names_in};
ghost use Rattle.schema.specs.Shape.{fields_in, keyed, kind_of, list_of, map_of, shape, struct_of};
ghost use Rattle.discovery.specs.OpenApi.{list_kind, list_type, map_type, properties_of, scalar_schema, schema_of};
ghost use Rattle.discovery.specs.Writing.{Adds, AddsValue};

use crate::key_names::put_names;
use crate::put::put;
use json::{Token, Writer};
use schema::{ListKind, Schema};
use std::alloc::{AllocError, Global};

/// A schema of a scalar type.
pub(crate) fn put_scalar(writer: &mut Writer, name: &str) -> Result<(), AllocError>
    ensures { OnOk result (AddsValue (scalar_schema name.now) writer.old writer.new) }
{
    put(
        writer,
        &[
            Token::BeginObject,
            Token::Key("type"),
            Token::String(name),
            Token::EndObject,
        ],
    )
}

/// How a struct or a map merges, and the end of its schema.
fn put_map_type(writer: &mut Writer, is_atomic: bool) -> Result<(), AllocError>
    ensures { OnOk result (Adds (members_tokens (map_type is_atomic)) writer.old writer.new) }
{
    if is_atomic {
        return put(
            writer,
            &[
                Token::Key("x-kubernetes-map-type"),
                Token::String("atomic"),
                Token::EndObject,
            ],
        );
    }
    put(writer, &[Token::EndObject])
}

fn put_list_type(writer: &mut Writer, name: &str) -> Result<(), AllocError>
    ensures { OnOk result (Adds (members_tokens (list_type name.now)) writer.old writer.new) }
{
    put(
        writer,
        &[
            Token::Key("x-kubernetes-list-type"),
            Token::String(name),
            Token::EndObject,
        ],
    )
}

fn put_keyed(alloc: Global, writer: &mut Writer, names: &[String]) -> Result<(), AllocError>
    ensures { OnOk result (Adds (members_tokens (list_kind (keyed (names_in names.now)))) writer.old writer.new) }
{
    put(
        writer,
        &[Token::Key("x-kubernetes-list-map-keys"), Token::BeginArray],
    )?;
    put_names(alloc, writer, names)?;
    put_list_type(writer, "map")
}

/// How a list merges, and the end of its schema.
fn put_list_kind(alloc: Global, writer: &mut Writer, kind: &ListKind) -> Result<(), AllocError>
    ensures { OnOk result (Adds (members_tokens (list_kind (kind_of kind.now))) writer.old writer.new) }
{
    match kind {
        ListKind::Atomic => put_list_type(writer, "atomic"),
        ListKind::Set => put_list_type(writer, "set"),
        ListKind::Keyed(names) => put_keyed(alloc, writer, names),
    }
}

/// The beginning of a schema, up to the member that has what is in it.
fn begin<'a>(writer: &mut Writer, name: &'a str, inside: &'a str) -> Result<(), AllocError>
    ensures { OnOk result (Adds (begin_object ∷ key (codes "type") ∷ string name.now ∷ key inside.now ∷ []) writer.old writer.new) }
{
    put(
        writer,
        &[
            Token::BeginObject,
            Token::Key("type"),
            Token::String(name),
            Token::Key(inside),
        ],
    )
}

/// The properties of a struct, and the end of their object.
#[cycle(schemas)]
fn put_properties(
    alloc: Global,
    writer: &mut Writer,
    fields: &[(String, Schema)],
) -> Result<(), AllocError>
    ensures { OnOk result (Adds (members_tokens (properties_of (fields_in fields.now))) writer.old writer.new) }
{
    for (name, inner) in fields {
        put(writer, &[Token::Key(name.as_str())])?;
        put_schema(alloc, writer, inner)?;
    }
    put(writer, &[Token::EndObject])
}

#[cycle(schemas)]
fn put_struct(
    alloc: Global,
    writer: &mut Writer,
    fields: &[(String, Schema)],
    is_atomic: bool,
) -> Result<(), AllocError>
    ensures { OnOk result (AddsValue (schema_of (struct_of (fields_in fields.now) is_atomic)) writer.old writer.new) }
{
    begin(writer, "object", "properties")?;
    put(writer, &[Token::BeginObject])?;
    put_properties(alloc, writer, fields)?;
    put_map_type(writer, is_atomic)
}

#[cycle(schemas)]
fn put_map(
    alloc: Global,
    writer: &mut Writer,
    inner: &Schema,
    is_atomic: bool,
) -> Result<(), AllocError>
    ensures { OnOk result (AddsValue (schema_of (map_of (shape inner.now) is_atomic)) writer.old writer.new) }
{
    begin(writer, "object", "additionalProperties")?;
    put_schema(alloc, writer, inner)?;
    put_map_type(writer, is_atomic)
}

#[cycle(schemas)]
fn put_list(
    alloc: Global,
    writer: &mut Writer,
    inner: &Schema,
    kind: &ListKind,
) -> Result<(), AllocError>
    ensures { OnOk result (AddsValue (schema_of (list_of (shape inner.now) (kind_of kind.now))) writer.old writer.new) }
{
    begin(writer, "array", "items")?;
    put_schema(alloc, writer, inner)?;
    put_list_kind(alloc, writer, kind)
}

/// A schema.
#[cycle(schemas)]
pub(crate) fn put_schema(
    alloc: Global,
    writer: &mut Writer,
    schema: &Schema,
) -> Result<(), AllocError>
    ensures { OnOk result (AddsValue (schema_of (shape schema.now)) writer.old writer.new) }
{
    match schema {
        Schema::Text => put_scalar(writer, "string"),
        Schema::Whole => put_scalar(writer, "integer"),
        Schema::Truth => put_scalar(writer, "boolean"),
        Schema::Struct(fields, is_atomic) => put_struct(alloc, writer, fields, *is_atomic),
        Schema::MapOf(inner, is_atomic) => put_map(alloc, writer, inner, *is_atomic),
        Schema::List(inner, kind) => put_list(alloc, writer, inner, kind),
    }
}
