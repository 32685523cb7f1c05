//! The names of a map list's key fields, in byte order.
ghost use Rattle.std.specs.Prelude.{◌≡◌, IfOk, OnOk, map};
ghost use Rattle.json.specs.Tree.{items_tokens};
ghost use Rattle.schema.specs.KeyNames.{names_in, put_name};
ghost use Rattle.discovery.specs.Documents.{texts};
ghost use Rattle.discovery.specs.Writing.{Adds};

use crate::put::put;
use json::{Token, Writer};
use std::alloc::{AllocError, Global};

/// A name more, among names in order.
fn put_name<'a>(names: &mut Vec<&'a str>, name: &'a str) -> Result<(), AllocError>
    ensures { OnOk result (map (λ s. s.now) names.new.items ≡ put_name name.now (map (λ s. s.now) names.old.items)) }
{
    let place = names
        .iter()
        .position(|known| *known >= name)
        .unwrap_or(names.len());
    names.insert(place, name)?;
    Ok(())
}

/// Names in byte order.
fn sorted<'a>(alloc: Global, names: &'a [String]) -> Result<Vec<&'a str>, AllocError>
    ensures { IfOk result (λ v. map (λ s. s.now) v.items ≡ names_in names.now) }
{
    let Some((name, rest)) = names.split_first() else {
        return Ok(Vec::new(alloc));
    };
    let mut others = sorted(alloc, rest)?;
    put_name(&mut others, name.as_str())?;
    Ok(others)
}

/// Texts, and the end of the array.
fn put_texts(writer: &mut Writer, all: &[&str]) -> Result<(), AllocError>
    ensures { OnOk result (Adds (items_tokens (texts (map (λ s. s.now) all.now))) writer.old writer.new) }
{
    for text in all {
        put(writer, &[Token::String(text)])?;
    }
    put(writer, &[Token::EndArray])
}

/// Names in byte order, and the end of the array.
pub(crate) fn put_names(
    alloc: Global,
    writer: &mut Writer,
    names: &[String],
) -> Result<(), AllocError>
    ensures { OnOk result (Adds (items_tokens (texts (names_in names.now))) writer.old writer.new) }
{
    let names = sorted(alloc, names)?;
    put_texts(writer, &names)
}
