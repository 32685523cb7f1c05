//! Texts that members have: all of an object by their names, as labels are; an empty text as none; a copy. The text of
//! one member is looked up in `members`.

ghost use Rattle.std.specs.Prelude.{◌≡◌, IfOk, OnOk, option_map, string_bytes};
ghost use Rattle.std.specs.Ordering.{nat_cmp};
ghost use Rattle.std.specs.Cmp.Lexicographic.{slice_cmp};
ghost use Rattle.std.specs.BTreeMap.{insert_entry};
ghost use Rattle.serde_json.specs.View.{members_view};
ghost use Rattle.json_values.specs.Texts.{named_texts, texts_of, unless_empty};

use serde_json::{Map, Value};
use std::alloc::{AllocError, Global};
use std::collections::BTreeMap;

fn put_text(
    alloc: Global,
    texts: &mut BTreeMap<String, String>,
    name: &str,
    text: &str,
) -> Result<(), AllocError>
    ensures { OnOk result (named_texts texts.new ≡ insert_entry (slice_cmp nat_cmp) (named_texts texts.old) name.now text.now) }
{
    texts.insert(
        String::from_str(alloc, name)?,
        String::from_str(alloc, text)?,
    )?;
    Ok(())
}

/// The members' texts by their names; none where one member is no text.
pub fn texts_of(
    alloc: Global,
    members: &Map<String, Value>,
) -> Result<Option<BTreeMap<String, String>>, AllocError>
    ensures { IfOk result (λ o. option_map named_texts o ≡ texts_of (members_view members.now.entries)) }
{
    let mut texts = BTreeMap::new(alloc);
    for (name, value) in members.iter() {
        let Some(text) = value.as_str() else {
            return Ok(None);
        };
        put_text(alloc, &mut texts, name.as_str(), text)?;
    }
    Ok(Some(texts))
}

/// The text; an empty one is none.
pub fn unless_empty(text: &str) -> Option<&str>
    ensures { option_map (λ s. s.now) result ≡ unless_empty text.now }
{
    if text.is_empty() { None } else { Some(text) }
}

/// A copy of a text that may be missing.
pub fn copied(alloc: Global, text: Option<&str>) -> Result<Option<String>, AllocError>
    ensures { IfOk result (λ o. option_map string_bytes o ≡ option_map (λ s. s.now) text.entry) }
{
    match text {
        Some(text) => Ok(Some(String::from_str(alloc, text)?)),
        None => Ok(None),
    }
}
