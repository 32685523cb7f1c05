//! Which schemas keep the rules of a types file. The file itself is read in `file` and `read`.
ghost use Rattle.std.specs.Prelude.{◌≡◌, ◌&&◌, nat_le};
ghost use Rattle.fieldpath.specs.Scalars.{ascend};
ghost use Rattle.schema.specs.KeyNames.{names_in};
ghost use Rattle.schema.specs.Shape.{shape, fields_in, kind_of, shape_at};
ghost use Rattle.schema.specs.Lawful.{max_depth, is_scalar, is_some_name, is_some_scalar, names_of, has_keys, item_is_lawful, depth_limit, depth_of, fields_depth, is_well_formed, are_well_formed, is_lawful};

use schema::{ListKind, Schema, field_at, is_key};

/// How deep a type's schema may nest, itself counted.
pub const MAX_DEPTH: usize = 16;

fn fields_ascend(fields: &[(String, Schema)]) -> bool
    ensures { result ≡ ascend (names_of (fields_in fields.now)) }
{
    fields.is_sorted_by(|one, next| one.0 < next.0)
}

/// Whether no name stands twice.
fn names_differ(names: &[String]) -> bool
    ensures { result ≡ ascend (names_in names.now) }
{
    let Some((name, rest)) = names.split_first() else {
        return true;
    };
    !is_key(rest, name.as_str()) && names_differ(rest)
}

/// One or more names, none of them twice.
fn are_key_names(names: &[String]) -> bool
    ensures { result ≡ (is_some_name (names_in names.now) && ascend (names_in names.now)) }
{
    !names.is_empty() && names_differ(names)
}

fn is_scalar(schema: &Schema) -> bool
    ensures { result ≡ is_scalar (shape schema.now) }
{
    matches!(schema, Schema::Text | Schema::Whole | Schema::Truth)
}

fn has_scalar(fields: &[(String, Schema)], name: &str) -> bool
    ensures { result ≡ is_some_scalar (shape_at name.now (fields_in fields.now)) }
{
    match field_at(fields, name) {
        Some(inner) => is_scalar(inner),
        None => false,
    }
}

fn has_keys(schema: &Schema, names: &[String]) -> bool
    ensures { result ≡ has_keys (names_in names.now) (shape schema.now) }
{
    match schema {
        Schema::Struct(fields, is_atomic) => {
            !*is_atomic && names.iter().all(|name| has_scalar(fields, name.as_str()))
        }
        _ => false,
    }
}

/// Whether a list of this kind may have items of this schema.
fn takes(kind: &ListKind, item: &Schema) -> bool
    ensures { result ≡ item_is_lawful (kind_of kind.now) (shape item.now) }
{
    match kind {
        ListKind::Atomic => true,
        ListKind::Set => is_scalar(item),
        ListKind::Keyed(names) => are_key_names(names) && has_keys(item, names),
    }
}

#[cycle(well_formed)]
fn are_well_formed(fields: &[(String, Schema)]) -> bool
    ensures { result ≡ are_well_formed (fields_in fields.now) }
{
    for (_, inner) in fields {
        if !is_well_formed(inner) {
            return false;
        }
    }
    true
}

#[cycle(well_formed)]
fn is_well_formed(schema: &Schema) -> bool
    ensures { result ≡ is_well_formed (shape schema.now) }
{
    match schema {
        Schema::Text | Schema::Whole | Schema::Truth => true,
        Schema::Struct(fields, _) => fields_ascend(fields) && are_well_formed(fields),
        Schema::MapOf(inner, _) => is_well_formed(inner),
        Schema::List(inner, kind) => takes(kind, inner) && is_well_formed(inner),
    }
}

#[cycle(within)]
fn are_within(fields: &[(String, Schema)], depth: usize) -> bool
    ensures { result ≡ nat_le (fields_depth (fields_in fields.now)) depth }
{
    for (_, inner) in fields {
        if !is_within(inner, depth) {
            return false;
        }
    }
    true
}

/// Whether the schema nests at most `depth` deep, itself counted.
#[cycle(within)]
fn is_within(schema: &Schema, depth: usize) -> bool
    ensures { result ≡ nat_le (depth_of (shape schema.now)) depth }
{
    if depth == 0 {
        return false;
    }
    match schema {
        Schema::Text | Schema::Whole | Schema::Truth => true,
        Schema::Struct(fields, _) => are_within(fields, depth - 1),
        Schema::MapOf(inner, _) => is_within(inner, depth - 1),
        Schema::List(inner, _) => is_within(inner, depth - 1),
    }
}

/// A type's schema is a granular struct; any other can only be a part of one.
fn depth_limit(schema: &Schema) -> usize
    ensures { result ≡ depth_limit (shape schema.now) }
{
    match schema {
        Schema::Struct(_, false) => MAX_DEPTH,
        _ => MAX_DEPTH - 1,
    }
}

/// Whether the schema keeps the rules of a types file, as a type's schema or as a part of one:
/// fields in byte order of their names, items as their list's kind requires, at most 16 deep; 15 where it can only be
/// a part.
pub fn is_lawful(schema: &Schema) -> bool
    ensures { result ≡ is_lawful (shape schema.now) }
{
    is_well_formed(schema) && is_within(schema, depth_limit(schema))
}
