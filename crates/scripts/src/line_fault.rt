//! Why a line is no event's. Lines are read in `script`.

use serde_json::{Map, Value};
use std::alloc::{AllocError, Global};
use thiserror::Error;

/// Why a line is no event's.
#[derive(Debug, Drop, Error)]
pub enum LineFault {
    /// It is no text.
    #[error("not UTF-8")]
    NotText,
    /// It is no JSON text: the column of the first fault, from 1.
    #[error("not JSON: column {0}")]
    NotJson(usize),
    /// It is no JSON object of one member.
    #[error("not an object of one member")]
    NotOneMember,
    /// No event has a member of this name, which is told as JSON.
    #[error("unknown member {0}")]
    UnknownMember(String),
    /// The value of the event's member is of another form.
    #[error("\"{0}\": not {1}")]
    Value(&'static str, &'static str),
}

const NUMBER: &str = "a whole number below 2^64";

/// The names of events, and the forms of their values. Types have any value.
const FORMS: [(&str, &str); 11] = [
    (
        "apply",
        "an object of body, force, manager and target: a value, true or false, a text and a path",
    ),
    ("open", NUMBER),
    ("in", "a list of a connection and a text"),
    ("bytes", "a list of a connection and hexadecimal digits"),
    ("gone", NUMBER),
    ("pump", "a list of a connection and a number of lines"),
    ("tick", NUMBER),
    ("compact", NUMBER),
    ("client", "send, cut, restart or reconcile"),
    ("toServer", NUMBER),
    ("toClient", NUMBER),
];

/// The name of the only member.
fn only_name(members: &Map<String, Value>) -> Option<&str> {
    if members.len() != 1 {
        return None;
    }
    match members.iter().next() {
        Some((name, _)) => Some(name.as_str()),
        None => None,
    }
}

/// Why an event's member of this name is bad.
fn member_fault(alloc: Global, name: &str) -> Result<LineFault, AllocError> {
    for form in &FORMS {
        if form.0 == name {
            return Ok(LineFault::Value(form.0, form.1));
        }
    }
    let name = Value::String(String::from_str(alloc, name)?);
    Ok(LineFault::UnknownMember(name.to_string(alloc)?))
}

/// Why a text is no event's, which it isn't.
pub(crate) fn line_fault(alloc: Global, text: &str) -> Result<LineFault, AllocError> {
    let value = match Value::from_str(alloc, text) {
        Ok(value) => value,
        Err(error) if error.is_memory() => return Err(AllocError),
        Err(error) => return Ok(LineFault::NotJson(error.column())),
    };
    let Some(members) = value.as_object() else {
        return Ok(LineFault::NotOneMember);
    };
    match only_name(members) {
        Some(name) => member_fault(alloc, name),
        None => Ok(LineFault::NotOneMember),
    }
}
