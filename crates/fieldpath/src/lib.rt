//! Paths into objects: elements, their order and their texts (FieldsV1). Sets of paths are `fieldset`'s.
//!
//! Promises: an element's text is the canonical one, exactly the canonical texts are read,
//! and paths are ordered element by element by the bytes of these texts.
//! Stands on `serde_json` for the JSON inside an element's text.
#![tactic(auto)]

mod elem;
mod elem_text;
mod json_law;
mod keys;
mod path;
mod scalar;

pub use elem::{Elem, ElemFault, FIELD_PREFIX};
pub use elem_text::ElemText;
pub use json_law::{compact_texts_read_back, readings_are_encodable};
pub use keys::{Keys, KeysFault};
pub use path::Path;
pub use scalar::Scalar;
