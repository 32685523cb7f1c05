//! The words of a row, and how an answer is shown. Neither knows what they are about.

use std::alloc::Global;
use std::fmt::Debug;
use std::test::Fail;

/// A text up to its first blank, and what is behind it.
pub fn first_word(text: &str) -> (&str, &str) {
    text.split_once(' ').unwrap_or((text, ""))
}

pub fn number(text: &str) -> Result<u64, Fail> {
    Ok(text.parse::<u64>().ok().ok_or("no number")?)
}

/// An answer as it is shown.
pub fn in_words<T: Debug + Drop>(alloc: Global, answer: T) -> Result<String, Fail> {
    Ok(format!(in alloc; "{answer:?}")?)
}

/// The test fails where the text is another, and shows it.
pub fn expect_text(text: String, wanted: &str) -> Result<(), Fail> {
    if text.as_str() == wanted {
        Ok(())
    } else {
        Err(Fail::new(text))
    }
}
