//! The keys of an object in one index, as they are kept. Which objects a key has stands in `postings`.

ghost use Rattle.std.specs.Prelude.{◌≡◌, IfOk, map, string_bytes};
ghost use Rattle.std.specs.Rc.{rc_str_bytes};
ghost use Rattle.indexer.specs.Objects.{texts_of, kept_of};
ghost use Rattle.indexer.specs.Texts.{kept_in, bytes_in};

use crate::postings::Postings;
use std::alloc::{AllocError, Global};
use std::rc::RcStr;
use std::slice;

/// The keys of an object in one index, with the texts that the index has. A key alone, as most objects have, takes
/// no list.
#[derive(Debug, Drop)]
pub(crate) enum Texts {
    One(RcStr),
    Several(Vec<RcStr>),
}

impl Texts {
    pub(crate) fn as_slice(&self) -> &[RcStr]
        ensures { result.now ≡ kept_in self.now }
    {
        match self {
            Texts::One(text) => slice::from_ref(text),
            Texts::Several(texts) => texts,
        }
    }
}

/// The key with the text that the index has, if it has the key.
fn shared(postings: Option<&Postings>, text: String) -> Result<RcStr, AllocError>
    ensures { IfOk result (λ t. rc_str_bytes t ≡ string_bytes text) }
{
    if let Some(postings) = postings {
        if let Some((known, _)) = postings.get_key_value(text.as_str()) {
            return known.clone();
        }
    }
    RcStr::from_string(text)
}

fn shared_each(
    alloc: Global,
    postings: Option<&Postings>,
    texts: Vec<String>,
) -> Result<Vec<RcStr>, AllocError>
    ensures { IfOk result (λ v. map rc_str_bytes v.items ≡ map string_bytes texts.items) }
{
    let mut all = Vec::with_capacity(alloc, texts.len())?;
    for text in texts {
        all.push(shared(postings, text)?)?;
    }
    Ok(all)
}

/// An object's keys in one index, each with the text that the index has, if it has the key.
fn shared_in(
    alloc: Global,
    postings: Option<&Postings>,
    texts: Vec<String>,
) -> Result<Texts, AllocError>
    ensures { IfOk result (λ t. bytes_in t ≡ map string_bytes texts.items) }
{
    let mut texts = texts;
    if texts.len() == 1 {
        if let Some(text) = texts.pop() {
            return Ok(Texts::One(shared(postings, text)?));
        }
    }
    Ok(Texts::Several(shared_each(alloc, postings, texts)?))
}

/// An object's keys in each index, each with the text that the index has, if it has the key.
pub(crate) fn shared_by_each(
    alloc: Global,
    postings: &[Postings],
    keys: Vec<Vec<String>>,
) -> Result<Vec<Texts>, AllocError>
    ensures { IfOk result (λ v. kept_of v.items ≡ texts_of keys.items) }
{
    let mut all = Vec::with_capacity(alloc, keys.len())?;
    for texts in keys {
        all.push(shared_in(alloc, postings.get(all.len()), texts)?)?;
    }
    Ok(all)
}
