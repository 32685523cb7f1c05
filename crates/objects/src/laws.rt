//! Laws: no two objects have the same text, and FieldsV1 values are spelled by theirs. The text is printed in `object` and
//! read in `read_back`.

ghost use Rattle.objects.specs.FieldTextLaws.{FieldsV1IsTextual};
ghost use Rattle.objects.specs.ReadBack.{OneForOne};

/// An object's text says one version and what else the system says, one content and its owners: no other object of the
/// type and key has this text.
pub fn objects_are_one_for_one()
    ensures { OneForOne }
{}

/// The FieldsV1 value of any set of paths, under a lawful schema: no float, no more than 127 deep, and read again from its
/// compact text.
pub fn fields_v1_are_textual()
    ensures { FieldsV1IsTextual }
{}
