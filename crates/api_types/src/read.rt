//! Reads a schema and its parts. What a single level says stands in `forms`; the types file is read in `file`.
ghost use Rattle.std.specs.Prelude.{◌≡◌, ◌≤◌, ◌+◌, IfOk, codes};
ghost use Rattle.serde_json.specs.View.{view, members_view};
ghost use Rattle.schema.specs.Shape.{shape, fields_in};
ghost use Rattle.json_values.specs.Members.{has};
ghost use Rattle.api_types.specs.Forms.{object_form};
ghost use Rattle.api_types.specs.TypesFile.{shape_in, schema_at, properties_in, fields_at, shape_of_form};
ghost use Rattle.api_types.specs.Views.{Returns};
ghost use Rattle.api_types.specs.Depths.{KeepsAt, AreFieldsAt};

use crate::fault::TypesFault;
use crate::forms::{Form, own_form};
use json_values::has;
use schema::Schema;
use serde_json::{Map, Value};
use std::alloc::Global;

#[cycle(read)]
fn schema_at(
    alloc: Global,
    schema: &Map<String, Value>,
    name: &str,
    depth: usize,
) -> Result<Schema, TypesFault>
    requires { depth ≤ 16 }
    ensures read { Returns shape result (schema_at name.now depth (members_view schema.now.entries)) }
    ensures kept { IfOk result (λ s. KeepsAt (depth + 1) (shape s)) }
{
    match schema.get(name) {
        Some(value) => read_schema(alloc, value, depth + 1),
        None => Err(TypesFault::Misfit),
    }
}

/// The fields of a struct, in byte order of their names.
#[cycle(read)]
fn read_fields(
    alloc: Global,
    value: &Value,
    depth: usize,
) -> Result<Vec<(String, Schema)>, TypesFault>
    requires { depth ≤ 16 }
    ensures read { Returns (λ v. fields_in v.items) result (fields_at depth (view value.now)) }
    ensures kept { IfOk result (λ v. AreFieldsAt depth (fields_in v.items)) }
{
    let Value::Object(properties) = value else {
        return Err(TypesFault::Misfit);
    };
    let mut fields = Vec::new(alloc);
    for (name, value) in properties.iter() {
        let inner = read_schema(alloc, value, depth + 1)?;
        fields.push((name.clone()?, inner))?;
    }
    Ok(fields)
}

#[cycle(read)]
fn properties_in(
    alloc: Global,
    schema: &Map<String, Value>,
    depth: usize,
) -> Result<Vec<(String, Schema)>, TypesFault>
    requires { depth ≤ 16 }
    ensures read { Returns (λ v. fields_in v.items) result (properties_in depth (members_view schema.now.entries)) }
    ensures kept { IfOk result (λ v. AreFieldsAt depth (fields_in v.items)) }
{
    match schema.get("properties") {
        Some(value) => read_fields(alloc, value, depth),
        None => Ok(Vec::new(alloc)),
    }
}

#[cycle(read)]
fn read_object(
    alloc: Global,
    schema: &Map<String, Value>,
    depth: usize,
    is_atomic: bool,
) -> Result<Schema, TypesFault>
    requires { depth ≤ 16 }
    ensures read { let ms = members_view schema.now.entries in
        Returns shape result (shape_of_form (has (codes "additionalProperties") ms) (schema_at (codes "additionalProperties") depth ms) (properties_in depth ms) (schema_at (codes "items") depth ms) (object_form is_atomic)) }
    ensures kept { IfOk result (λ s. KeepsAt depth (shape s)) }
{
    if has(schema, "additionalProperties") {
        let values = schema_at(alloc, schema, "additionalProperties", depth)?;
        return Ok(Schema::MapOf(Box::new(alloc, values)?, is_atomic));
    }
    Ok(Schema::Struct(properties_in(alloc, schema, depth)?, is_atomic))
}

/// Reads a schema at a depth.
#[cycle(read)]
pub(crate) fn read_schema(alloc: Global, value: &Value, depth: usize) -> Result<Schema, TypesFault>
    requires { depth ≤ 17 }
    ensures read { Returns shape result (shape_in depth (view value.now)) }
    ensures kept { IfOk result (λ s. KeepsAt depth (shape s)) }
{
    let Value::Object(schema) = value else {
        return Err(TypesFault::Misfit);
    };
    match own_form(alloc, depth, schema)? {
        Form::Object(is_atomic) => read_object(alloc, schema, depth, is_atomic),
        Form::List(kind) => {
            let item = schema_at(alloc, schema, "items", depth)?;
            Ok(Schema::List(Box::new(alloc, item)?, kind))
        }
        Form::Text => Ok(Schema::Text),
        Form::Whole => Ok(Schema::Whole),
        Form::Truth => Ok(Schema::Truth),
    }
}
