//! What crates of tests share: examples as rows of text, those of a server of connections, and the marks between which
//! memory is refused.
//!
//! It stands on nothing of this repository, and no program stands on it. Nothing in it has a contract.
#![tactic(auto)]

mod marking;
mod rows;
mod served;
mod served_rows;
mod texts;
mod words;

pub use marking::mark;
pub use rows::{Answers, play, play_all};
pub use served::Serves;
pub use served_rows::play_served;
pub use texts::{bytes_of, line_of};
pub use words::{expect_text, first_word, in_words, number};
