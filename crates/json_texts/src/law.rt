//! Laws of texts in order, which crates above build on. Each function does nothing; what it promises is the law. Such
//! texts are read in `reading`.

ghost use Rattle.json_texts.specs.Laws.{CompactTextsAreOrdered, OrderedTextsAreRead};

/// What a text in order represents is what `serde_json` reads from it.
pub fn ordered_texts_are_read()
    ensures { OrderedTextsAreRead }
{}

/// The compact text of a encodable value without floats, at most 127 deep, is in order, and represents that value.
pub fn compact_texts_are_ordered()
    ensures { CompactTextsAreOrdered }
{}
