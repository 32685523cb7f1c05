//! Texts in order, and what is read from the values that borrow from them; the examples stand in `readings`.
//!
//! | question | answer |
//! |---|---|
//! | `in-order TEXT` | the value of the text, printed again, or `none` |
//! | `borrowed TEXT` | what is printed of the content that is read, or why none is |
//! | `borrowed-set TEXT` | what is written of the paths that the FieldsV1 value says, or why it says none |

ghost use Rattle.std.specs.Prelude.{◌≡◌, true};
ghost use Rattle.json.specs.Value.{value_view};
ghost use Rattle.json_texts.specs.InOrder.{is_ordered};

use crate::contents::written;
use crate::given::printed;
use fieldset::FieldSet;
use json::{Scratch, Value};
use schema::Schema;
use std::alloc::Global;
use std::test::Fail;
use test_rows::in_words;
use typed::{ReadFault, Tree};

fn copied(alloc: Global, value: &Value<'_>) -> Result<String, Fail>
    requires { is_ordered (value_view value.now) ≡ true }
{
    Ok(json_texts::to_value(alloc, value)?.to_string(alloc)?)
}

fn content(alloc: Global, schema: &Schema, value: &Value<'_>) -> Result<String, Fail>
    requires { is_ordered (value_view value.now) ≡ true }
{
    match Tree::read_borrowed(schema, alloc, value) {
        Ok(tree) => printed(alloc, schema, &tree),
        Err(ReadFault::Shape(cause, path)) => Ok(format!(in alloc; "{path}: {cause}")?),
        Err(ReadFault::Memory) => Err("no memory".into()),
    }
}

fn set(alloc: Global, schema: &Schema, value: &Value<'_>) -> Result<String, Fail>
    requires { is_ordered (value_view value.now) ≡ true }
{
    match FieldSet::from_borrowed(alloc, schema, value) {
        Ok(paths) => written(alloc, schema, &paths),
        Err(fault) => in_words(alloc, fault),
    }
}

/// The answer to a question about the text.
pub fn answer_borrowed(
    alloc: Global,
    schema: &Schema,
    call: &str,
    text: &str,
) -> Result<String, Fail> {
    let mut scratch = Scratch::new(alloc);
    let Some(value) = json_texts::read(alloc, text, &mut scratch)? else {
        return Ok(String::from_str(alloc, "none")?);
    };
    match call {
        "in-order" => copied(alloc, &value),
        "borrowed" => content(alloc, schema, &value),
        _ => set(alloc, schema, &value),
    }
}
