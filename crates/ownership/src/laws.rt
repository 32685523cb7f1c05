//! Laws of owners. The function does nothing; what it promises is the law.

ghost use Rattle.ownership.specs.SharingLaws.{OtherValuesConflict, SameValuesAreShared};

/// Who applies the value that stands at a path that others own has no conflict there, and owns it beside them; who
/// applies another value has a conflict with each of them, and there are no other conflicts. It holds of each path alike,
/// also of a leaf that a carry has made of what stood below it.
pub fn same_values_are_shared()
    ensures shares { SameValuesAreShared }
    ensures conflicts { OtherValuesConflict }
{}
