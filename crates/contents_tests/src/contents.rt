//! Questions about contents and their texts under a schema; the examples stand in `readings`, `object_texts`, `fields_v1`,
//! `owned`, `types_files` and `key_names`. Those about texts in order are answered in `borrowed`, those about two contents in
//! `two_contents`.
//!
//! | question | answer |
//! |---|---|
//! | `lawful` | whether the schema is |
//! | `place ELEMENT ..` | the place of the path |
//! | `read TEXT` | whether a content is read, or why none is |
//! | `print TEXT` | what is printed of the content |
//! | `set VALUE` | the paths that the FieldsV1 value says, or why it says none |
//! | `fields VALUE` | what is written of these paths |
//! | `object TEXT` | `same` where the text of the object `w1` is read and printed again |

use crate::borrowed::answer_borrowed;
use crate::fields_v1::FIELDS;
use crate::given::{
    READY_TYPES, WIDGET_TYPES, first_schema, path, printed, shown_paths, tree, types_for, types_of,
};
use crate::object_texts::{BY_STATUS, OBJECTS};
use crate::owned::OWNED;
use crate::readings::{KINDS, READINGS};
use crate::two_contents::answer_of_two;
use crate::types_files::PLACES;
use api_types::{Profile, Types, is_lawful};
use fieldset::FieldSet;
use json_texts::TextWriter;
use ownership::{Identity, ObjectFault, Owned, Stored};
use schema::Schema;
use serde_json::Value;
use std::alloc::{AllocError, Global};
use std::test::Fail;
use test_rows::{Answers, first_word, in_words, play_all};
use typed::{ReadFault, Tree};

/// Contents under the first schema of a types file.
#[derive(Drop)]
struct Contents {
    types: Types,
}

impl Answers for Contents {
    fn answer(&mut self, alloc: Global, question: &str) -> Result<String, Fail> {
        answer_under(alloc, first_schema(&self.types)?, question)
    }
}

/// Plays examples under the first schema of types.
fn play_under(alloc: Global, types: Types, examples: &str) -> Result<(), Fail> {
    let mut contents = Contents { types };
    play_all(alloc, &mut contents, examples)
}

/// The answer to a question under a schema.
pub fn answer_under(alloc: Global, schema: &Schema, question: &str) -> Result<String, Fail> {
    let (call, text) = first_word(question);
    match call {
        "lawful" => in_words(alloc, is_lawful(schema)),
        "place" => located(alloc, schema, text),
        "read" => read(alloc, schema, text),
        "print" => print(alloc, schema, text),
        "set" | "fields" => fields_v1(alloc, schema, call, text),
        "object" => again(alloc, schema, text),
        "in-order" | "borrowed" | "borrowed-set" => answer_borrowed(alloc, schema, call, text),
        _ => answer_of_two(alloc, schema, call, text),
    }
}

fn located(alloc: Global, schema: &Schema, elements: &str) -> Result<String, Fail> {
    in_words(alloc, schema.place(&path(alloc, elements)?))
}

fn read(alloc: Global, schema: &Schema, text: &str) -> Result<String, Fail> {
    match Tree::read(schema, alloc, &Value::from_str(alloc, text)?) {
        Ok(_) => Ok(String::from_str(alloc, "read")?),
        Err(ReadFault::Shape(cause, path)) => Ok(format!(in alloc; "{path}: {cause}")?),
        Err(ReadFault::Memory) => Err("no memory".into()),
    }
}

fn print(alloc: Global, schema: &Schema, text: &str) -> Result<String, Fail> {
    printed(alloc, schema, &tree(alloc, schema, text)?)
}

fn fields_v1(alloc: Global, schema: &Schema, call: &str, text: &str) -> Result<String, Fail> {
    match FieldSet::from_fields_v1(alloc, schema, &Value::from_str(alloc, text)?) {
        Ok(set) if call == "set" => shown_paths(alloc, &set),
        Ok(set) => written(alloc, schema, &set),
        Err(fault) => in_words(alloc, fault),
    }
}

/// What is written of a set directly as text.
fn written_directly(alloc: Global, schema: &Schema, set: &FieldSet) -> Result<String, AllocError> {
    let mut out = TextWriter::with_capacity(alloc, 0)?;
    set.write_fields_v1(&mut out, alloc, schema)?;
    Ok(out.into_text())
}

/// What is written of a set, the same as a value and directly as text.
pub fn written(alloc: Global, schema: &Schema, set: &FieldSet) -> Result<String, Fail> {
    let text = set.to_fields_v1(alloc, schema)?.to_string(alloc)?;
    let direct = written_directly(alloc, schema, set)?;
    if text.as_str() != direct.as_str() {
        return Err("another text is written".into());
    }
    Ok(text)
}

pub fn w1() -> Identity<'static> {
    Identity {
        api_version: "demo.example/v1",
        kind: "Widget",
        namespace: "default",
        name: "w1",
    }
}

/// Whether an object is printed as this text.
fn printed_again(
    alloc: Global,
    schema: &Schema,
    stored: &Stored,
    text: &str,
) -> Result<String, Fail> {
    let printed = stored.owned.to_object(alloc, schema, w1(), stored.stamp())?;
    let is_same = printed.as_str() == text;
    Ok(String::from_str(alloc, if is_same { "same" } else { "another" })?)
}

fn again(alloc: Global, schema: &Schema, text: &str) -> Result<String, Fail> {
    match Owned::from_object(alloc, schema, w1(), text) {
        Ok(stored) => printed_again(alloc, schema, &stored, text),
        Err(ObjectFault::NotCanonical) => Ok(String::from_str(alloc, "refused")?),
        Err(ObjectFault::Memory) => Err("no memory".into()),
    }
}

#[test]
fn examples(rt: HostRuntime) -> Result<(), Fail> {
    for (types, examples) in [
        (WIDGET_TYPES, FIELDS),
        (WIDGET_TYPES, PLACES),
        (WIDGET_TYPES, OBJECTS),
        (READY_TYPES, BY_STATUS),
        (KINDS, READINGS),
    ] {
        play_under(rt.alloc(), types_of(rt.alloc(), types)?, examples)?;
    }
    Ok(())
}

#[test]
fn owned_examples(rt: HostRuntime) -> Result<(), Fail> {
    let types = types_for(rt.alloc(), Profile::Kubernetes(0), READY_TYPES)?;
    play_under(rt.alloc(), types, OWNED)
}
