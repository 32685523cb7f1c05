//! A change of a type's schema while its objects stand. Which changes there are is defined in specs/Becoming.
ghost use Rattle.std.specs.Prelude.{◌≡◌, true};
ghost use Rattle.schema.specs.Becoming.{may_become};
ghost use Rattle.schema.specs.ObjectTest.{is_object_shape};
ghost use Rattle.schema.specs.Shape.{shape};

use crate::schema::Schema;

/// The old and the new schema of one type.
#[derive(Clone, Copy)]
pub struct NewSchema<'a> {
    pub old: &'a Schema,
    pub new: &'a Schema,
    ghost lawful: { may_become (shape old.now) (shape new.now) ≡ true },
    ghost was_object: { is_object_shape (shape old.now) ≡ true },
    ghost is_object: { is_object_shape (shape new.now) ≡ true },
}
