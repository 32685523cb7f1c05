//! Laws of JSON texts, which crates above build on. Each function does nothing; what it promises is the law. Elements,
//! whose texts have JSON in them, stand in `elem`.
ghost use Rattle.fieldpath.specs.Encodable.{CompactTextsReadBack, ReadingsAreEncodable};

/// What a JSON text is read as is encodable: whole numbers within 64 bits, members in byte order of
/// their names, each name once, at most 127 deep.
pub fn readings_are_encodable()
    ensures { ReadingsAreEncodable }
{}

/// The compact JSON text of a encodable value without floats is read as that value.
pub fn compact_texts_read_back()
    ensures { CompactTextsReadBack }
{}
