//! Examples as rows of text: a line with an example's name, and rows `QUESTION => ANSWER`. What a row's words mean is said
//! where it is played. Rows cost the prover nothing, and each call that may fail a fraction of a second.

use std::alloc::{AllocError, Global};
use std::fmt::Debug;
use std::test::Fail;

/// What answers the questions of an example, one after another.
pub trait Answers {
    fn answer(&mut self, alloc: Global, question: &str) -> Result<String, Fail>;
}

/// Plays an example. The first row that is answered otherwise fails, and is shown as it is answered, below the name.
pub fn play<A: Answers>(alloc: Global, answers: &mut A, example: &str) -> Result<(), Fail> {
    let (name, rows) = example.split_once('\n').ok_or("no rows")?;
    for row in rows.lines() {
        let (question, wanted) = row.split_once(" => ").ok_or("no answer is wanted")?;
        let answer = answers.answer(alloc, question)?;
        if answer.as_str() != wanted {
            return Err(Fail::new(format!(in alloc; "{name}\n{question} => {answer}")?));
        }
    }
    Ok(())
}

/// A text up to its first blank, and what is behind it.
pub fn first_word(text: &str) -> (&str, &str) {
    text.split_once(' ').unwrap_or((text, ""))
}

pub fn number(text: &str) -> Result<u64, Fail> {
    Ok(text.parse::<u64>().ok().ok_or("no number")?)
}

/// An answer as it is shown.
pub fn in_words<T: Debug + Drop>(alloc: Global, answer: T) -> Result<String, Fail> {
    Ok(format!(in alloc; "{answer:?}")?)
}

/// The test fails where the text is another, and shows it.
pub fn expect_text(text: String, wanted: &str) -> Result<(), Fail> {
    if text.as_str() == wanted {
        Ok(())
    } else {
        Err(Fail::new(text))
    }
}

/// Where the calls that `tools/failing_memory.py` refuses memory begin and end.
pub fn mark(alloc: Global) -> Result<(), AllocError> {
    Vec::<u8>::with_capacity(alloc, 1_000_003)?;
    Ok(())
}
