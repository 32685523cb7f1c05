//! Items of sets written from their elements' texts, which are JSON behind a prefix; the members in an object's text.
//! Items of map lists, and all other contents, are written in `write`.
ghost use Rattle.std.specs.Prelude.{◌≡◌, ℕ, List, [], ◌∷◌, ◌++◌, OnOk, string_bytes};
ghost use Rattle.std.specs.List.{AllByRecursion};
ghost use Rattle.pathmap.specs.Insides.{heads};
ghost use Rattle.pathmap.specs.Maps.{content};
ghost use Rattle.schema.specs.Shape.{Shape, list_of, set};
ghost use Rattle.typed.specs.Printing.{print, scalar_in};
ghost use Rattle.typed.specs.Rows.{IsScalarElement, IsThere};
ghost use Rattle.typed.specs.Writes.{with_value, with_items};

use fieldpath::ElemText;
use json_texts::TextWriter;
use pathmap::PathMap;
use std::alloc::{AllocError, Global};

/// Appends an item of a set.
fn push_scalar(out: &mut TextWriter, alloc: Global, element: &ElemText) -> Result<(), AllocError>
    ensures { IsScalarElement (string_bytes element.now) → OnOk result (out.new ≡ with_value (scalar_in (string_bytes element.now)) out.old) }
{
    match element.scalar_json() {
        Some(text) => out.raw(alloc, text),
        None => Ok(()),
    }
}

/// Appends the items of a set.
fn push_scalars(map: &PathMap, alloc: Global, out: &mut TextWriter) -> Result<(), AllocError>
    ensures { AllByRecursion IsScalarElement (heads (content map.now)) → OnOk result (out.new ≡ with_items scalar_in (heads (content map.now)) out.old) }
{
    let children = map.children();
    for (element, _) in children {
        push_scalar(out, alloc, element)?;
    }
    Ok(())
}

/// Appends a set in which something stands.
pub(crate) fn write_set(
    map: &PathMap,
    alloc: Global,
    out: &mut TextWriter,
) -> Result<(), AllocError>
    ensures { (s : Shape) → IsThere (list_of s set) (content map.now) → OnOk result (out.new ≡ with_value (print (list_of s set) (content map.now)) out.old) }
{
    out.begin_array(alloc)?;
    push_scalars(map, alloc, out)?;
    out.end_array()
}

/// What stands between the braces of an object's text.
pub(crate) fn within_braces(text: &str) -> &str
    ensures { (members : List ℕ) → text.now ≡ 123 ∷ (members ++ 125 ∷ []) → result.now ≡ members }
{
    let Some(rest) = text.strip_prefix('{') else {
        return text;
    };
    let Some(members) = rest.strip_suffix('}') else {
        return text;
    };
    members
}
