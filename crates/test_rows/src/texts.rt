//! Bytes as rows show them, in one line: a carriage return as `|`, a line feed as `$`, the byte 1 as `~`, `<N TEXT>` as TEXT
//! so many times, and `-` where there are none.

use crate::words::{first_word, number};
use std::alloc::{AllocError, Global};
use std::test::Fail;

/// What stands before a `<`, or `N TEXT>` behind one and what follows.
fn push_unfolded(all: &mut String, part: &str) -> Result<(), Fail> {
    let Some((repeat, rest)) = part.split_once('>') else {
        return Ok(all.push_str(part)?);
    };
    let (count, piece) = first_word(repeat);
    for _ in 0..number(count)? {
        all.push_str(piece)?;
    }
    Ok(all.push_str(rest)?)
}

/// The bytes that a text in one line shows, but for the byte 1 and repeated texts.
fn plain_bytes(alloc: Global, text: &str) -> Result<Vec<u8>, AllocError> {
    let text = text.replace(alloc, '|', "\r")?;
    let text = text.as_str().replace(alloc, '$', "\n")?;
    Ok(text.into_bytes())
}

/// The bytes that a text in one line shows.
pub fn bytes_of(alloc: Global, text: &str) -> Result<Vec<u8>, Fail> {
    let mut all = String::new(alloc);
    for part in text.split('<') {
        push_unfolded(&mut all, part)?;
    }
    let text = all.as_str().replace(alloc, '~', "\u{1}")?;
    Ok(plain_bytes(alloc, text.as_str())?)
}

/// Bytes in one line.
pub fn line_of(alloc: Global, bytes: &[u8]) -> Result<String, Fail> {
    if bytes.is_empty() {
        return Ok(String::from_str(alloc, "-")?);
    }
    let text = str::from_utf8(bytes)?.replace(alloc, '\r', "|")?;
    Ok(text.as_str().replace(alloc, '\n', "$")?)
}
