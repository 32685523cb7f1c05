//! Laws: what is printed of a content reads back as it, and has no float. Contents are printed in `print`.

ghost use Rattle.typed.specs.Fitting.{ContentsAreWellTyped, OversAreContents, PrintedIsTextual, ReadingsAreContents, RemainsAreContents};
ghost use Rattle.typed.specs.WellTyped.{HavePlaces, PrintedHasNoFloat, ReadingsAreWellTyped, RoundTrip};

/// What is printed of a content reads back as that content; where nothing is printed, nothing stands.
pub fn printed_reads_back()
    ensures { RoundTrip }
{}

/// No number that is printed of a content that a shape has is a float.
pub fn printed_has_no_float()
    ensures { PrintedHasNoFloat }
{}

/// Each path of a content that a shape has is one that the shape gives a place.
pub fn contents_have_places()
    ensures { HavePlaces }
{}

/// What reading gives of a value that a JSON text spells is a content that the schema's shape has,
/// so what is printed of it reads back as it.
pub fn readings_are_well_typed()
    ensures { ReadingsAreWellTyped }
{}

/// A content path by path is the same as one level by level.
pub fn contents_are_well_typed()
    ensures { ContentsAreWellTyped }
{}

/// What is read is a content path by path, and so are one content over another and what is left of one.
pub fn contents_are_kept()
    ensures readings { ReadingsAreContents }
    ensures overs { OversAreContents }
    ensures remains { RemainsAreContents }
{}

/// What is printed of a content of a lawful schema: no float, no more than 127 deep, and read again from its compact text.
pub fn printed_is_textual()
    ensures { PrintedIsTextual }
{}
