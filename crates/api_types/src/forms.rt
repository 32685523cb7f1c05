//! What a schema's own keywords say: its form, without its parts. The parts are read in `read`.
ghost use Rattle.std.specs.Prelude.{◌≡◌, ◌≤◌, map, option_map, string_bytes, OnOk};
ghost use Rattle.serde_json.specs.View.{items_view, members_view};
ghost use Rattle.fieldpath.specs.Scalars.{ascend};
ghost use Rattle.schema.specs.Shape.{Shape, kind_of};
ghost use Rattle.api_types.specs.Keywords.{texts_in, key_names, is_scalar_schema, have_scalars, is_keyed_struct, atomic_kind, set_kind, keyed_kind, list_type, object_type, array_type, scalar_type};
ghost use Rattle.api_types.specs.Forms.{scalar_form, object_fits, list_fits, scalar_fits, form_of, known_form, own_form};
ghost use Rattle.api_types.specs.Refusals.{misfit, some_or};
ghost use Rattle.api_types.specs.Views.{type_name, form_view, Returns};

use crate::fault::TypesFault;
use crate::keywords::{
    KEYWORDS, TypeName, has_no, has_only, is_object_or_absent, map_type, text_or, type_in,
};
use crate::lawful::MAX_DEPTH;
use json_values::{has, items_at, members_at};
use schema::ListKind;
use serde_json::{Map, Value};
use std::alloc::Global;

/// What a schema is, its parts apart. The flag says whether a struct or map is atomic.
#[derive(Debug, Drop)]
pub(crate) enum Form {
    Object(bool),
    List(ListKind),
    Text,
    Whole,
    Truth,
}

fn texts_in(alloc: Global, values: &[Value]) -> Result<Vec<String>, TypesFault>
    ensures { Returns (λ v. map string_bytes v.items) result (some_or misfit (texts_in (items_view values.now))) }
{
    let mut texts = Vec::new(alloc);
    for value in values {
        match value.as_str() {
            Some(text) => texts.push(String::from_str(alloc, text)?)?,
            None => return Err(TypesFault::Misfit),
        }
    }
    Ok(texts)
}

fn names_ascend(names: &[String]) -> bool
    ensures { result ≡ ascend (map string_bytes names.now) }
{
    names.is_sorted_by(|one, next| one < next)
}

/// The names of a map list's key fields, in byte order.
fn key_names(alloc: Global, schema: &Map<String, Value>) -> Result<Vec<String>, TypesFault>
    ensures { Returns (λ v. map string_bytes v.items) result (some_or misfit (key_names (members_view schema.now.entries))) }
{
    let Some(values) = items_at(schema, "x-kubernetes-list-map-keys") else {
        return Err(TypesFault::Misfit);
    };
    let mut names = texts_in(alloc, values)?;
    names.sort()?;
    if names.is_empty() || !names_ascend(&names) {
        return Err(TypesFault::Misfit);
    }
    Ok(names)
}

fn is_scalar_schema(schema: Option<&Map<String, Value>>) -> bool
    ensures { result ≡ is_scalar_schema (option_map (λ m. members_view m.now.entries) schema.entry) }
{
    match schema {
        Some(members) => match type_in(members) {
            Some(name) => name.is_scalar(),
            None => false,
        },
        None => false,
    }
}

fn have_scalars(names: &[String], properties: &Map<String, Value>) -> bool
    ensures { result ≡ have_scalars (map string_bytes names.now) (Some (members_view properties.now.entries)) }
{
    names.iter().all(|name| is_scalar_schema(members_at(properties, name.as_str())))
}

fn is_keyed_struct(names: &[String], item: &Map<String, Value>) -> bool
    ensures { result ≡ is_keyed_struct (map string_bytes names.now) (Some (members_view item.now.entries)) }
{
    if !matches!(type_in(item), Some(TypeName::Object)) || has(item, "additionalProperties") {
        return false;
    }
    match (map_type(item), members_at(item, "properties")) {
        (Some(false), Some(properties)) => have_scalars(names, properties),
        _ => false,
    }
}

fn atomic_kind(schema: &Map<String, Value>) -> Result<ListKind, TypesFault>
    ensures { Returns kind_of result (some_or misfit (atomic_kind (members_view schema.now.entries))) }
{
    if has(schema, "x-kubernetes-list-map-keys") {
        return Err(TypesFault::Misfit);
    }
    Ok(ListKind::Atomic)
}

fn set_kind(schema: &Map<String, Value>) -> Result<ListKind, TypesFault>
    ensures { Returns kind_of result (some_or misfit (set_kind (members_view schema.now.entries))) }
{
    if has(schema, "x-kubernetes-list-map-keys") || !is_scalar_schema(members_at(schema, "items")) {
        return Err(TypesFault::Misfit);
    }
    Ok(ListKind::Set)
}

fn keyed_kind(alloc: Global, schema: &Map<String, Value>) -> Result<ListKind, TypesFault>
    ensures { Returns kind_of result (some_or misfit (keyed_kind (members_view schema.now.entries))) }
{
    let names = key_names(alloc, schema)?;
    let Some(item) = members_at(schema, "items") else {
        return Err(TypesFault::Misfit);
    };
    if !is_keyed_struct(&names, item) {
        return Err(TypesFault::Misfit);
    }
    Ok(ListKind::Keyed(names))
}

fn list_type(alloc: Global, schema: &Map<String, Value>) -> Result<ListKind, TypesFault>
    ensures { Returns kind_of result (some_or misfit (list_type (members_view schema.now.entries))) }
{
    match text_or(schema, "x-kubernetes-list-type", "atomic") {
        Some("atomic") => atomic_kind(schema),
        Some("set") => set_kind(schema),
        Some("map") => keyed_kind(alloc, schema),
        _ => Err(TypesFault::Misfit),
    }
}

fn object_fits(schema: &Map<String, Value>) -> bool
    ensures { result ≡ object_fits (members_view schema.now.entries) }
{
    has_no(
        schema,
        &[
            "items",
            "x-kubernetes-list-type",
            "x-kubernetes-list-map-keys",
        ],
    ) && !(has(schema, "properties") && has(schema, "additionalProperties"))
        && is_object_or_absent(schema, "properties")
        && is_object_or_absent(schema, "additionalProperties")
}

fn list_fits(schema: &Map<String, Value>) -> bool
    ensures { result ≡ list_fits (members_view schema.now.entries) }
{
    has_no(
        schema,
        &[
            "properties",
            "additionalProperties",
            "x-kubernetes-map-type",
        ],
    ) && members_at(schema, "items").is_some()
}

fn scalar_fits(schema: &Map<String, Value>) -> bool
    ensures { result ≡ scalar_fits (members_view schema.now.entries) }
{
    has_no(
        schema,
        &[
            "properties",
            "additionalProperties",
            "x-kubernetes-map-type",
            "items",
            "x-kubernetes-list-type",
            "x-kubernetes-list-map-keys",
        ],
    )
}

fn object_form(schema: &Map<String, Value>) -> Result<Form, TypesFault>
    ensures { Returns form_view result (some_or misfit (form_of object_type (members_view schema.now.entries))) }
{
    if !object_fits(schema) {
        return Err(TypesFault::Misfit);
    }
    match map_type(schema) {
        Some(is_atomic) => Ok(Form::Object(is_atomic)),
        None => Err(TypesFault::Misfit),
    }
}

fn list_form(alloc: Global, schema: &Map<String, Value>) -> Result<Form, TypesFault>
    ensures { Returns form_view result (some_or misfit (form_of array_type (members_view schema.now.entries))) }
{
    if !list_fits(schema) {
        return Err(TypesFault::Misfit);
    }
    Ok(Form::List(list_type(alloc, schema)?))
}

fn scalar_form(schema: &Map<String, Value>, form: Form) -> Result<Form, TypesFault>
    ensures { (s : Shape) → form_view form ≡ scalar_form s → Returns form_view result (some_or misfit (form_of (scalar_type s) (members_view schema.now.entries))) }
{
    if !scalar_fits(schema) {
        return Err(TypesFault::Misfit);
    }
    Ok(form)
}

fn form_of(alloc: Global, name: TypeName, schema: &Map<String, Value>) -> Result<Form, TypesFault>
    ensures { Returns form_view result (some_or misfit (form_of (type_name name) (members_view schema.now.entries))) }
{
    match name {
        TypeName::Object => object_form(schema),
        TypeName::Array => list_form(alloc, schema),
        TypeName::Text => scalar_form(schema, Form::Text),
        TypeName::Whole => scalar_form(schema, Form::Whole),
        TypeName::Truth => scalar_form(schema, Form::Truth),
    }
}

/// What a schema says at this depth, its parts and its unknown keywords apart, or its own first fault.
pub(crate) fn known_form(
    alloc: Global,
    depth: usize,
    schema: &Map<String, Value>,
) -> Result<Form, TypesFault>
    ensures form { Returns form_view result (known_form depth (members_view schema.now.entries)) }
    ensures within { OnOk result (depth ≤ 16) }
{
    let Some(name) = type_in(schema) else {
        return Err(TypesFault::UnknownType);
    };
    let form = form_of(alloc, name, schema)?;
    if depth > MAX_DEPTH {
        return Err(TypesFault::TooDeep);
    }
    Ok(form)
}

/// What a schema says at this depth, its parts apart, or its own first fault.
pub(crate) fn own_form(
    alloc: Global,
    depth: usize,
    schema: &Map<String, Value>,
) -> Result<Form, TypesFault>
    ensures form { Returns form_view result (own_form depth (members_view schema.now.entries)) }
    ensures within { OnOk result (depth ≤ 16) }
{
    if !has_only(schema, &KEYWORDS) {
        return Err(TypesFault::UnknownKeyword);
    }
    known_form(alloc, depth, schema)
}
