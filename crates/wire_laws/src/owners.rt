//! Law: where each leaf and each set item of an object has an owner, what of that stays.

ghost use Rattle.wire_laws.specs.OwnedLeavesLaws.{CarriesKeepOwners, WritesKeepOwners};

/// Where each leaf and each set item of an object has an owner, each has one after a write, and after a change of types
/// each but a new leaf that was made of items inside which nobody owned anything.
pub fn owned_leaves_stay_owned()
    ensures writes { WritesKeepOwners }
    ensures carries { CarriesKeepOwners }
{}
