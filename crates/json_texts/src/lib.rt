//! JSON texts: those in order (names ascend, numbers are integers within 64 bits) read as values that borrow from them, and
//! texts written piece by piece. Texts in any order are `serde_json`'s.
//!
//! Promises: what is read represents the data that `serde_json` reads from the same text; the compact text of each value
//! that a text spells without floats, at most 127 deep, is read. What is appended to a text is exactly what the call names.
//! Stands on `json` for reading and writing, on `serde_json` for what a value means.
#![tactic(auto)]

mod copying;
mod law;
mod members;
mod numbers;
mod order;
mod reading;
mod values;
mod writing;

pub use copying::to_value;
pub use law::{compact_texts_are_ordered, ordered_texts_are_read};
pub use members::{Members, into_object, member, take, text_at};
pub use reading::read;
pub use values::{as_array, as_object, as_str, is_null};
pub use writing::TextWriter;
