//! Laws: what is written of a set as FieldsV1 is read as this set, and the other way round. Sets are written and read in
//! `fields_v1`.

ghost use Rattle.fieldset.specs.FieldsV1Laws.{ReadHavePlaces, ReadIsWritten, WrittenIsRead};

/// What is written of a set of well-typed paths is read as this set.
pub fn written_is_read()
    ensures { WrittenIsRead }
{}

/// What a value is read as is written as this value, if its members stand in byte order, each name once.
pub fn readings_are_written()
    ensures { ReadIsWritten }
{}

/// Each path of what a value is read as has a place.
pub fn readings_have_places()
    ensures { ReadHavePlaces }
{}
