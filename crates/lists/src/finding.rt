//! The texts that one object of a JSON text has, as an object's labels are, found without a value of the rest: that is passed over
//! (`passing`).

ghost use Rattle.std.specs.Prelude.{◌≡◌, ◌≤◌, ◌<◌, IfOk, OnOk, length, map};
ghost use Rattle.std.specs.BTreeMap.{insert_entry};
ghost use Rattle.std.specs.Ordering.{nat_cmp};
ghost use Rattle.std.specs.Cmp.Lexicographic.{slice_cmp};
ghost use Rattle.json_values.specs.Texts.{named_texts};
ghost use Rattle.json.specs.Reads.{token_of};
ghost use Rattle.lists.specs.Finding.{Finds, FindsIn, ReadsTexts, begins_object, texts_are};

use crate::passing::{pass_from, pass_value};
use json::{Error, Reader, Scratch, Token};
use std::alloc::{AllocError, Global};
use std::collections::BTreeMap;

/// As deep as `serde_json` follows arrays and objects.
const MAX_DEPTH: usize = 127;

fn begins_object(token: &Token<'_>) -> bool
    ensures { result ≡ begins_object (token_of token.now) }
{
    matches!(token, Token::BeginObject)
}

fn put_text(
    alloc: Global,
    texts: &mut BTreeMap<String, String>,
    name: &str,
    text: &str,
) -> Result<(), AllocError>
    ensures { OnOk result (named_texts texts.new ≡ insert_entry (slice_cmp nat_cmp) (named_texts texts.old) name.now text.now) }
{
    texts.insert(
        String::from_str(alloc, name)?,
        String::from_str(alloc, text)?,
    )?;
    Ok(())
}

/// The texts that the members have which come next, by their names.
fn read_texts(
    alloc: Global,
    reader: &mut Reader<'_>,
    depth: usize,
) -> Result<BTreeMap<String, String>, Error>
    ensures texts { IfOk result (λ m. ReadsTexts depth reader.old (named_texts m) reader.new) }
    ensures shorter { OnOk result (length reader.new ≤ length reader.old) }
{
    let mut texts = BTreeMap::new(alloc);
    'members: while let Some(name) = reader.next_key()? {
        let token = reader.next().ok_or(Error::Invalid)?;
        let Token::String(text) = token else {
            return Err(Error::Invalid);
        };
        put_text(alloc, &mut texts, name, text)?;
    }
    Ok(texts)
}

/// The texts at a path below the member of a name, among those that come next; the last member of a name counts.
#[cycle(finding)]
fn find_in(
    alloc: Global,
    reader: &mut Reader<'_>,
    depth: usize,
    name: &str,
    path: &[&str],
) -> Result<BTreeMap<String, String>, Error>
    ensures found { IfOk result (λ m. FindsIn depth name.now (map (λ s. s.now) path.now) reader.old (named_texts m) reader.new) }
    ensures shorter { OnOk result (length reader.new ≤ length reader.old) }
{
    let mut found = BTreeMap::new(alloc);
    'members: while let Some(key) = reader.next_key()? {
        if key == name {
            found = find(alloc, reader, depth, path)?;
            continue;
        }
        pass_value(reader, depth)?;
    }
    Ok(found)
}

/// The texts of the object that stands at a path of names in the value that comes next; none where there is no such object.
#[cycle(finding)]
fn find(
    alloc: Global,
    reader: &mut Reader<'_>,
    depth: usize,
    path: &[&str],
) -> Result<BTreeMap<String, String>, Error>
    ensures found { IfOk result (λ m. Finds depth (map (λ s. s.now) path.now) reader.old (named_texts m) reader.new) }
    ensures shorter { OnOk result (length reader.new < length reader.old) }
{
    let token = reader.next().ok_or(Error::Invalid)?;
    if !begins_object(&token) {
        pass_from(token, reader, depth)?;
        return Ok(BTreeMap::new(alloc));
    }
    if depth == 0 {
        return Err(Error::Invalid);
    }
    match path.split_first() {
        Some((name, rest)) => find_in(alloc, reader, depth - 1, *name, rest),
        None => read_texts(alloc, reader, depth - 1),
    }
}

/// The texts of the object that stands at a path of names in a text, by their names; none where there is no such object. Refused as
/// invalid is a text that has to be read whole: one that is no JSON, that has a number of another form than `passing` takes, or
/// whose object there has a member that is no text.
pub(crate) fn texts_at(
    alloc: Global,
    text: &str,
    path: &[&str],
    scratch: &mut Scratch,
) -> Result<BTreeMap<String, String>, Error>
    ensures { IfOk result (λ m. texts_are text.now (map (λ s. s.now) path.now) (named_texts m)) }
{
    let mut reader = Reader::new(text, scratch)?;
    let texts = find(alloc, &mut reader, MAX_DEPTH, path)?;
    if reader.next().is_some() {
        return Err(Error::Invalid);
    }
    Ok(texts)
}
