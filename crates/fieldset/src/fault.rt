//! Why a value is no FieldsV1 value of a set of paths. Such values are read in `fields_v1` and `values`.

use std::alloc::{AllocError, AllocFailed};
use thiserror::Error;

/// Why a value is no FieldsV1 value of a set of paths under a schema: the first fault, or out of memory.
#[derive(Clone, Copy, Debug, PartialEq, Eq, Error)]
pub enum FieldsV1Fault {
    /// 1: not an object where one is due.
    #[error("not an object")]
    NotAnObject,
    /// 2: a name other than `.` that is no element's text.
    #[error("not the text of an element")]
    BadKey,
    /// 3: an empty object where members are due, or `.` or key fields that differ from those that are written.
    #[error("not as FieldsV1 is written")]
    NotCanonical,
    /// 4: an element that the schema has no place for.
    #[error("no place in the schema")]
    OffSchema,
    /// Out of memory.
    #[error("out of memory")]
    Memory,
}

impl From<AllocError> for FieldsV1Fault {
    ghost use Rattle.std.specs.Prelude.{◌≡◌};
    ghost use Rattle.fieldset.specs.declared.fault.FieldsV1Fault.TheVariants.{Memory};

    ghost from_gives = { λ _ e. e ≡ Memory };

    fn from(_: AllocError) -> FieldsV1Fault {
        FieldsV1Fault::Memory
    }
}

impl<T: Drop> From<AllocFailed<T>> for FieldsV1Fault {
    ghost use Rattle.std.specs.Prelude.{◌≡◌};
    ghost use Rattle.fieldset.specs.declared.fault.FieldsV1Fault.TheVariants.{Memory};

    ghost from_gives = { λ _ e. e ≡ Memory };

    fn from(_: AllocFailed<T>) -> FieldsV1Fault {
        FieldsV1Fault::Memory
    }
}
