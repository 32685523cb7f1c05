//! Laws of lawful changes of types. What a change is stands in `retyping`.
ghost use Rattle.api_types.specs.ChangeLaws.{FieldsStay, FilesMarkNone, MarksStay, NoneFollowsNone, NumbersStay, SameIsLawful};

/// Types may stay as they are. A lawful change leaves each type its number, and each schema the fields at its top; and
/// discovered types stay discovered.
pub fn lawful_changes()
    ensures same { SameIsLawful }
    ensures numbers { NumbersStay }
    ensures fields { FieldsStay }
    ensures marks { MarksStay }
{}

/// No types file says of a type that it is discovered, and where types aren't, those of a file that follow them are just
/// those that it declares.
pub fn files_mark_none()
    ensures none { FilesMarkNone }
    ensures follow { NoneFollowsNone }
{}
