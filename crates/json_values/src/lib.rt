//! What the JSON library's values are asked: the value of a text, the members of an object and their texts, one of them
//! taken out, the object or array that a value is, floats.
//!
//! Each call's contract is by the data that the value represents (`Data` of `serde_json`); what is read of an object, a
//! request or a reply stands in the crate that reads it.
//!
//! Stands on `serde_json` alone.
#![tactic(auto)]

mod floats;
mod members;
mod parts;
mod reading;
mod texts;

pub use floats::has_float;
pub use members::{has, items_at, member, members_at, text_at};
pub use parts::{into_array, into_object, split_off, take};
pub use reading::read_text;
pub use texts::{copied, texts_of, unless_empty};
