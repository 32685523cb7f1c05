//! Field selectors: how a text asks for an object's name. What is asked of labels is read in `requirement`.

ghost use Rattle.std.specs.Prelude.{◌≡◌, IfOk, option_map, string_bytes};
ghost use Rattle.selector.specs.Fields.{field_of, is_plain, is_plain_text, name_asked, name_of};
ghost use Rattle.selector.specs.Grammar.{sign_at};
ghost use Rattle.selector.specs.Views.{condition_of, requirement_of};

use crate::requirement::{Condition, NAME_KEY, Requirement};
use std::alloc::{AllocError, Global};

/// Whether a byte stands for itself: a comma, an equals sign and a backslash would have to be escaped.
fn is_plain(byte: u8) -> bool
    ensures { result ≡ is_plain byte }
{
    byte != b',' && byte != b'=' && byte != b'\\'
}

/// Whether every byte of a text stands for itself.
fn is_plain_text(text: &str) -> bool
    ensures { result ≡ is_plain_text text.now }
{
    text.as_bytes().iter().all(|byte| is_plain(*byte))
}

/// A name that is asked for, also one that no object has.
fn name_of(alloc: Global, text: &str) -> Result<Option<String>, AllocError>
    ensures { IfOk result (λ n. option_map string_bytes n ≡ name_of text.now) }
{
    if !is_plain_text(text) {
        return Ok(None);
    }
    Ok(Some(String::from_str(alloc, text)?))
}

/// What a sign and a name ask of an object's name.
fn name_asked(alloc: Global, term: &str) -> Result<Option<Condition>, AllocError>
    ensures { IfOk result (λ c. option_map condition_of c ≡ name_asked (sign_at term.now)) }
{
    if let Some(name) = term.strip_prefix("!=") {
        return Ok(name_of(alloc, name)?.map(Condition::Differs));
    }
    match term.strip_prefix("==").or(term.strip_prefix("=")) {
        Some(name) => Ok(name_of(alloc, name)?.map(Condition::Equals)),
        None => Ok(None),
    }
}

/// The requirement on the name that a text spells, if it does.
pub(crate) fn field_of(alloc: Global, text: &str) -> Result<Option<Requirement>, AllocError>
    ensures { IfOk result (λ r. option_map requirement_of r ≡ field_of text.now) }
{
    let Some(term) = text.strip_prefix("metadata.name") else {
        return Ok(None);
    };
    let Some(condition) = name_asked(alloc, term)? else {
        return Ok(None);
    };
    let key = String::from_str(alloc, NAME_KEY)?;
    Ok(Some(Requirement { key, condition }))
}
