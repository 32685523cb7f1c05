//! Reads a types file: its form, its types and their names. The schema of a type is read in `read`.
ghost use Rattle.std.specs.Prelude.{◌≡◌, ℕ, List, true, false, IfErr, IfOk, OnOk, string_bytes, codes, map, length, vec_len, ◌≤◌};
ghost use Rattle.serde_json.specs.Find.{as_object};
ghost use Rattle.serde_json.specs.View.{view, items_view, members_view};
ghost use Rattle.schema.specs.Shape.{shape, fields_in};
ghost use Rattle.names.specs.Names.{is_dns_label, is_dns_subdomain};
ghost use Rattle.api_types.specs.Names.{is_kind_name, is_plural};
ghost use Rattle.json_values.specs.Members.{text_at};
ghost use Rattle.api_types.specs.TypesFile.{text_where, fields_of, is_envelope, own_properties, put_field, type_shape, type_of, types_of, listed};
ghost use Rattle.api_types.specs.Served.{served};
ghost use Rattle.api_types.specs.Views.{Returns};
ghost use Rattle.api_types.specs.declared.fault.TypesFault.TheVariants.{NotTheForm};
ghost use Rattle.api_types.specs.Depths.{AreFieldsAt};
ghost use Rattle.schema.specs.Lawful.{names_of};
ghost use Rattle.schema.specs.ObjectShape.{IsObjectShape};
ghost use Rattle.std.specs.List.{All, list_any};
ghost use Rattle.std.specs.Str.{bytes_eq};

use crate::fault::TypesFault;
use crate::forms::{Form, own_form};
use crate::keywords::has_only;
use crate::profile::Profile;
use crate::read::read_schema;
use crate::served::Served;
use crate::type_names::{is_kind_name, is_plural};
use json_values::{items_at, member, members_at, text_at};
use names::{is_dns_label, is_dns_subdomain};
use schema::Schema;
use serde_json::{Map, Value};
use std::alloc::{AllocError, Global};

/// How many types a file may have.
const MAX_TYPES: usize = 4_294_967_295;

/// The members of a type.
const TYPE_MEMBERS: [&str; 5] = ["group", "kind", "plural", "schema", "version"];

/// Whether a property is one that every object has beside those of its type.
pub(crate) fn is_envelope(name: &str) -> bool
    ensures { result ≡ is_envelope name.now }
{
    matches!(name, "apiVersion" | "kind" | "metadata")
}

fn own_fields(
    alloc: Global,
    properties: &Map<String, Value>,
) -> Result<Vec<(String, Schema)>, TypesFault>
    ensures read { Returns (λ v. fields_in v.items) result (fields_of 1 (own_properties (members_view properties.now.entries))) }
    ensures kept { IfOk result (λ v. AreFieldsAt 1 (fields_in v.items)) }
    ensures apart { IfOk result (λ v. (k : List ℕ) → is_envelope k ≡ true → list_any (bytes_eq k) (names_of (fields_in v.items)) ≡ false) }
{
    let mut fields = Vec::new(alloc);
    for (name, value) in properties.iter() {
        if !is_envelope(name.as_str()) {
            let inner = read_schema(alloc, value, 2)?;
            fields.push((name.clone()?, inner))?;
        }
    }
    Ok(fields)
}

fn put_field(
    fields: &mut Vec<(String, Schema)>,
    name: String,
    schema: Schema,
) -> Result<(), AllocError>
    ensures { OnOk result (fields_in fields.new.items ≡ put_field (string_bytes name) (shape schema) (fields_in fields.old.items)) }
{
    let place = fields
        .iter()
        .position(|(known, _)| *known >= name)
        .unwrap_or(fields.len());
    fields.insert(place, (name, schema))?;
    Ok(())
}

/// Reads the schema of a type, and adds what every type has.
fn read_root(
    alloc: Global,
    profile: Profile,
    schema: &Map<String, Value>,
) -> Result<Schema, TypesFault>
    ensures read { Returns shape result (type_shape profile (Some (members_view schema.now.entries))) }
    ensures kept { IfOk result (λ s. IsObjectShape (shape s)) }
{
    let Form::Object(false) = own_form(alloc, 1, schema)? else {
        return Err(TypesFault::Misfit);
    };
    let Some(properties) = members_at(schema, "properties") else {
        return Err(TypesFault::Misfit);
    };
    let mut fields = own_fields(alloc, properties)?;
    put_field(
        &mut fields,
        String::from_str(alloc, "metadata")?,
        profile.metadata(alloc)?,
    )?;
    Ok(Schema::Struct(fields, false))
}

pub(crate) fn group_of<'a>(members: &'a Map<String, Value>) -> Result<&'a str, TypesFault>
    ensures { Returns (λ s. s.now) result (text_where is_dns_subdomain (text_at (codes "group") (members_view members.now.entries))) }
{
    match text_at(members, "group") {
        Some(group) if is_dns_subdomain(group) => Ok(group),
        _ => Err(TypesFault::NotTheForm),
    }
}

pub(crate) fn version_of<'a>(members: &'a Map<String, Value>) -> Result<&'a str, TypesFault>
    ensures { Returns (λ s. s.now) result (text_where is_dns_label (text_at (codes "version") (members_view members.now.entries))) }
{
    match text_at(members, "version") {
        Some(version) if is_dns_label(version) => Ok(version),
        _ => Err(TypesFault::NotTheForm),
    }
}

fn kind_of<'a>(members: &'a Map<String, Value>) -> Result<&'a str, TypesFault>
    ensures { Returns (λ s. s.now) result (text_where is_kind_name (text_at (codes "kind") (members_view members.now.entries))) }
{
    match text_at(members, "kind") {
        Some(kind) if is_kind_name(kind) => Ok(kind),
        _ => Err(TypesFault::NotTheForm),
    }
}

pub(crate) fn plural_of<'a>(members: &'a Map<String, Value>) -> Result<&'a str, TypesFault>
    ensures { Returns (λ s. s.now) result (text_where is_plural (text_at (codes "plural") (members_view members.now.entries))) }
{
    match text_at(members, "plural") {
        Some(plural) if is_plural(plural) => Ok(plural),
        _ => Err(TypesFault::NotTheForm),
    }
}

/// Reads a type.
pub(crate) fn read_type(
    alloc: Global,
    profile: Profile,
    value: &Value,
) -> Result<Served, TypesFault>
    ensures read { Returns served result (type_of profile (view value.now)) }
    ensures kept { IfOk result (λ t. IsObjectShape (shape t.schema)) }
{
    let Some(members) = value.as_object() else {
        return Err(TypesFault::NotTheForm);
    };
    if !has_only(members, &TYPE_MEMBERS) {
        return Err(TypesFault::NotTheForm);
    }
    let group = group_of(members)?;
    let version = version_of(members)?;
    let kind = kind_of(members)?;
    let plural = plural_of(members)?;
    let Some(schema) = member(members, "schema") else {
        return Err(TypesFault::NotTheForm);
    };
    let Some(schema) = schema.as_object() else {
        return Err(TypesFault::Misfit);
    };
    Ok(Served {
        group: String::from_str(alloc, group)?,
        version: String::from_str(alloc, version)?,
        kind: String::from_str(alloc, kind)?,
        plural: String::from_str(alloc, plural)?,
        schema: read_root(alloc, profile, schema)?,
        profile,
    })
}

/// Reads types in turn.
pub(crate) fn read_types(
    alloc: Global,
    profile: Profile,
    values: &[Value],
) -> Result<Vec<Served>, TypesFault>
    ensures types { Returns (λ v. map served v.items) result (types_of profile (items_view values.now)) }
    ensures each { IfOk result (λ v. length v.items ≡ length values.now) }
    ensures kept { IfOk result (λ v. All (λ t. IsObjectShape (shape t.schema)) v.items) }
{
    let mut types = Vec::new(alloc);
    for value in values {
        types.push(read_type(alloc, profile, value)?)?;
    }
    Ok(types)
}

/// The types that a file lists, not read yet.
pub(crate) fn listed(file: &Value) -> Result<&Vec<Value>, TypesFault>
    ensures listed { Returns (λ v. items_view v.now.items) result (listed (view file.now)) }
    ensures few { IfOk result (λ v. vec_len v.now ≤ 4294967295) }
    ensures form { IfErr result (λ fault. fault ≡ NotTheForm) }
{
    let Some(members) = file.as_object() else {
        return Err(TypesFault::NotTheForm);
    };
    if !has_only(members, &["types"]) {
        return Err(TypesFault::NotTheForm);
    }
    let Some(values) = items_at(members, "types") else {
        return Err(TypesFault::NotTheForm);
    };
    if values.len() > MAX_TYPES {
        return Err(TypesFault::NotTheForm);
    }
    Ok(values)
}
