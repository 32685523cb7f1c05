//! Lines of a pipe that ask of the client and change nothing. Lines of events are read in `script`, and what is printed for both
//! is put together in `answer_text`.
ghost use Rattle.std.specs.Prelude.{◌≡◌, IfOk, option_map};
ghost use Rattle.serde_json.specs.View.{view};
ghost use Rattle.scripts.specs.Asking.{asked_by, asked_in, asked_of, question_named, question_seen};

use crate::script::only_member;
use json_values::into_object;
use serde_json::Value;
use std::alloc::{AllocError, Global};

/// What a line asks of the client.
#[derive(Clone, Copy, Debug)]
pub(crate) enum Question {
    /// The next move by which it comes to the server's revision.
    Next,
    /// The objects that it has.
    Objects,
}

fn question_named(name: &str) -> Option<Question>
    ensures { option_map question_seen result ≡ question_named name.now }
{
    match name {
        "next" => Some(Question::Next),
        "objects" => Some(Question::Objects),
        _ => None,
    }
}

/// What the only member of a line asks.
fn asked_by(name: &str, value: &Value) -> Option<Question>
    ensures { option_map question_seen result ≡ asked_by name.now (view value.now) }
{
    match name {
        "client" => question_named(value.as_str()?),
        _ => None,
    }
}

fn question_in(value: Value) -> Option<Question>
    ensures { option_map question_seen result ≡ asked_in (view value) }
{
    let (name, value) = only_member(into_object(value)?)?;
    asked_by(name.as_str(), &value)
}

/// What a text asks, if it asks something.
pub(crate) fn question_of(alloc: Global, text: &str) -> Result<Option<Question>, AllocError>
    ensures { IfOk result (λ o. option_map question_seen o ≡ asked_of text.now) }
{
    match Value::from_str(alloc, text) {
        Ok(value) => Ok(question_in(value)),
        Err(error) if error.is_memory() => Err(AllocError),
        Err(_) => Ok(None),
    }
}
