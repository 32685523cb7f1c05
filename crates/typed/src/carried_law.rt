//! Law: what is said of a carried content is all there is to say. Contents are carried in `carried`.

ghost use Rattle.typed.specs.Carried.{CarriedIsOne};

/// One content alone is what becomes of another.
pub fn carried_is_one()
    ensures { CarriedIsOne }
{}
