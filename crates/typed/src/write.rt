//! Contents written as JSON texts. Of numbers, truth values and map lists of several key fields a JSON value is made first
//! (`print`); all else is written directly.
ghost use Rattle.std.specs.Prelude.{◌≡◌, [], ◌∷◌, OnOk, option_map};
ghost use Rattle.pathmap.specs.Insides.{heads, inside};
ghost use Rattle.pathmap.specs.Maps.{content};
ghost use Rattle.schema.specs.Shape.{fields_in, keyed, kind_of, list_of, map_of, shape, struct_of};
ghost use Rattle.serde_json.specs.Data.{Data, member, no_members, object};
ghost use Rattle.serde_json.specs.Written.{compact_text};
ghost use Rattle.json_texts.specs.Writing.{with_text};
ghost use Rattle.typed.specs.Between.{fields_between};
ghost use Rattle.typed.specs.Printing.{print, print_fields, print_item};
ghost use Rattle.typed.specs.Rows.{AllFit, EachFits, FieldsFit, FitBesideKey, Fits, IsThere, item_of};
ghost use Rattle.typed.specs.Writes.{with_fields, with_pair, with_pairs, with_value, with_items};

use crate::bounds::is_between;
use crate::print::print_list;
use crate::pushing::{push_some, push_top};
use crate::write_items::{within_braces, write_set};
use json_texts::TextWriter;
use pathmap::PathMap;
use schema::{ListKind, Schema};
use std::alloc::{AllocError, Global};

/// Appends a list in which something stands.
#[cycle(write)]
fn write_list(
    inner: &Schema,
    alloc: Global,
    kind: &ListKind,
    map: &PathMap,
    out: &mut TextWriter,
) -> Result<(), AllocError>
    ensures { IsThere (list_of (shape inner.now) (kind_of kind.now)) (content map.now)
        → OnOk result (out.new ≡ with_value (print (list_of (shape inner.now) (kind_of kind.now)) (content map.now)) out.old) }
{
    match kind {
        ListKind::Atomic => push_top(map, alloc, out),
        ListKind::Set => write_set(map, alloc, out),
        ListKind::Keyed(names) => match names.as_slice() {
            [name] => write_keyed(inner, alloc, name.as_str(), map, out),
            _ => {
                let value = print_list(inner, alloc, kind, map)?;
                push_some(out, alloc, &value)
            }
        },
    }
}

/// Appends a map list of one key field in which something stands.
#[cycle(write)]
fn write_keyed(
    inner: &Schema,
    alloc: Global,
    name: &str,
    map: &PathMap,
    out: &mut TextWriter,
) -> Result<(), AllocError>
    ensures { IsThere (list_of (shape inner.now) (keyed (name.now ∷ []))) (content map.now)
        → OnOk result (out.new ≡ with_value (print (list_of (shape inner.now) (keyed (name.now ∷ []))) (content map.now)) out.old) }
{
    out.begin_array(alloc)?;
    write_items(inner, alloc, name, map, out)?;
    out.end_array()
}

/// Appends an item for each child of a map list of one key field.
#[cycle(write)]
fn write_items(
    inner: &Schema,
    alloc: Global,
    name: &str,
    map: &PathMap,
    out: &mut TextWriter,
) -> Result<(), AllocError>
    ensures { Fits (list_of (shape inner.now) (keyed (name.now ∷ []))) (content map.now)
        → OnOk result (out.new ≡ with_items (item_of (shape inner.now) (content map.now)) (heads (content map.now)) out.old) }
{
    let children = map.children();
    for (element, below) in children {
        let Some(keys) = element.keys_json() else {
            continue;
        };
        write_item(inner, alloc, name, keys, below, out)?;
    }
    Ok(())
}

/// Appends an item of a map list, by the JSON object of its one key field.
#[cycle(write)]
fn write_item(
    inner: &Schema,
    alloc: Global,
    name: &str,
    keys: &str,
    below: &PathMap,
    out: &mut TextWriter,
) -> Result<(), AllocError>
    ensures { (d : Data) → keys.now ≡ compact_text (object (member name.now d no_members)) → FieldsFit name.now (shape inner.now) (content below.now)
        → OnOk result (out.new ≡ with_text (compact_text (object (print_item (shape inner.now) (content below.now) (member name.now d no_members)))) out.old) }
{
    match inner {
        Schema::Struct(fields, _) => write_object(fields, alloc, name, keys, below, out),
        _ => out.raw(alloc, keys),
    }
}

/// Appends the object of an item that is a struct: its key field's alone where nothing else stands in it, else its key
/// field's member in its place among the fields.
#[cycle(write)]
fn write_object(
    fields: &[(String, Schema)],
    alloc: Global,
    name: &str,
    keys: &str,
    below: &PathMap,
    out: &mut TextWriter,
) -> Result<(), AllocError>
    ensures { (d : Data) → keys.now ≡ compact_text (object (member name.now d no_members)) → FitBesideKey name.now (fields_in fields.now) (content below.now)
        → OnOk result (out.new ≡ with_text (compact_text (object (print_fields (fields_in fields.now) (content below.now) (member name.now d no_members)))) out.old) }
{
    if below.children().len() == 0 {
        return out.raw(alloc, keys);
    }
    out.begin_object(alloc)?;
    write_fields(fields, alloc, None, Some(name), below, out)?;
    out.raw(alloc, within_braces(keys))?;
    write_fields(fields, alloc, Some(name), None, below, out)?;
    out.end_object()
}

/// Appends a member, if anything stands in it.
#[cycle(write)]
fn write_member(
    inner: &Schema,
    alloc: Global,
    name: &str,
    below: &PathMap,
    out: &mut TextWriter,
) -> Result<(), AllocError>
    ensures { Fits (shape inner.now) (content below.now) → OnOk result (out.new ≡ with_pair name.now (print (shape inner.now) (content below.now)) out.old) }
{
    if below.is_bare() {
        return Ok(());
    }
    out.name(alloc, name)?;
    write_content(inner, alloc, below, out)
}

/// Appends a member for each field in which something stands, of those whose names lie between two others.
#[cycle(write)]
pub(crate) fn write_fields(
    fields: &[(String, Schema)],
    alloc: Global,
    low: Option<&str>,
    high: Option<&str>,
    map: &PathMap,
    out: &mut TextWriter,
) -> Result<(), AllocError>
    ensures { AllFit (fields_in fields.now) (content map.now)
        → OnOk result (out.new ≡ with_fields (fields_between (option_map (λ b. b.now) low.entry) (option_map (λ b. b.now) high.entry) (fields_in fields.now)) (content map.now) out.old) }
{
    for (name, inner) in fields {
        let text = name.as_str();
        if !is_between(text, low, high) {
            continue;
        }
        let Some(below) = map.field(text) else {
            continue;
        };
        write_member(inner, alloc, text, below, out)?;
    }
    Ok(())
}

/// Appends a member for each child in which something stands.
#[cycle(write)]
fn write_children(
    inner: &Schema,
    alloc: Global,
    map: &PathMap,
    out: &mut TextWriter,
) -> Result<(), AllocError>
    ensures { EachFits (shape inner.now) (content map.now) → OnOk result (out.new ≡ with_pairs (λ e. print (shape inner.now) (inside e (content map.now))) (heads (content map.now)) out.old) }
{
    let children = map.children();
    for (element, below) in children {
        let Some(name) = element.field_name() else {
            continue;
        };
        write_member(inner, alloc, name, below, out)?;
    }
    Ok(())
}

#[cycle(write)]
fn write_struct(
    fields: &[(String, Schema)],
    alloc: Global,
    is_atomic: bool,
    map: &PathMap,
    out: &mut TextWriter,
) -> Result<(), AllocError>
    ensures { IsThere (struct_of (fields_in fields.now) is_atomic) (content map.now)
        → OnOk result (out.new ≡ with_value (print (struct_of (fields_in fields.now) is_atomic) (content map.now)) out.old) }
{
    if is_atomic {
        return push_top(map, alloc, out);
    }
    out.begin_object(alloc)?;
    write_fields(fields, alloc, None, None, map, out)?;
    out.end_object()
}

#[cycle(write)]
fn write_map_of(
    inner: &Schema,
    alloc: Global,
    is_atomic: bool,
    map: &PathMap,
    out: &mut TextWriter,
) -> Result<(), AllocError>
    ensures { IsThere (map_of (shape inner.now) is_atomic) (content map.now)
        → OnOk result (out.new ≡ with_value (print (map_of (shape inner.now) is_atomic) (content map.now)) out.old) }
{
    if is_atomic {
        return push_top(map, alloc, out);
    }
    out.begin_object(alloc)?;
    write_children(inner, alloc, map, out)?;
    out.end_object()
}

/// Appends a content in which something stands.
#[cycle(write)]
fn write_content(
    schema: &Schema,
    alloc: Global,
    map: &PathMap,
    out: &mut TextWriter,
) -> Result<(), AllocError>
    ensures { IsThere (shape schema.now) (content map.now) → OnOk result (out.new ≡ with_value (print (shape schema.now) (content map.now)) out.old) }
{
    match schema {
        Schema::Struct(fields, is_atomic) => write_struct(fields, alloc, *is_atomic, map, out),
        Schema::MapOf(inner, is_atomic) => write_map_of(inner, alloc, *is_atomic, map, out),
        Schema::List(inner, kind) => write_list(inner, alloc, kind, map, out),
        Schema::Text | Schema::Whole | Schema::Truth => push_top(map, alloc, out),
    }
}
