//! What stands at a path, written behind what is written already. A whole content is written in `write`.
ghost use Rattle.std.specs.Prelude.{◌≡◌, [], OnOk, Some, option_map};
ghost use Rattle.std.specs.FinMap as fin;
ghost use Rattle.pathmap.specs.Maps.{content, leaf_value};
ghost use Rattle.serde_json.specs.View.{view};
ghost use Rattle.typed.specs.Printing.{value_at, value_of};
ghost use Rattle.typed.specs.Rows.{HasNoFloat, IsWritable};
ghost use Rattle.typed.specs.Writes.{with_value};

use crate::print_parts::print_held;
use json_texts::TextWriter;
use pathmap::{PathMap, PathValue};
use serde_json::Value;
use std::alloc::{AllocError, Global};

/// Appends a value, if there is one.
pub(crate) fn push_some(
    out: &mut TextWriter,
    alloc: Global,
    value: &Option<Value>,
) -> Result<(), AllocError>
    ensures { HasNoFloat (option_map view value.now) → OnOk result (out.new ≡ with_value (option_map view value.now) out.old) }
{
    match value {
        Some(value) => out.value(alloc, value),
        None => Ok(()),
    }
}

/// Appends what is held: an atomic value as it is kept, since that is compact JSON; of a number or a truth value a JSON
/// value is made first.
fn push_held(out: &mut TextWriter, alloc: Global, held: &PathValue) -> Result<(), AllocError>
    ensures { IsWritable (Some (leaf_value held.now)) → OnOk result (out.new ≡ with_value (value_of (leaf_value held.now)) out.old) }
{
    match held {
        PathValue::Text(text) => out.string(alloc, text.as_str()),
        PathValue::Plain(text) => out.raw(alloc, text.as_str()),
        _ => {
            let value = print_held(alloc, held)?;
            push_some(out, alloc, &value)
        }
    }
}

/// Appends the value at the top.
pub(crate) fn push_top(map: &PathMap, alloc: Global, out: &mut TextWriter) -> Result<(), AllocError>
    ensures { IsWritable (fin.get (content map.now) []) → OnOk result (out.new ≡ with_value (value_at (content map.now)) out.old) }
{
    match map.held() {
        Some(held) => push_held(out, alloc, held),
        None => Ok(()),
    }
}
