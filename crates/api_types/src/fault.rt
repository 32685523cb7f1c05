//! Why a types file is refused. The file is read in `file`, a schema in `read`.

use crate::lawful::MAX_DEPTH;
use std::alloc::{AllocError, AllocFailed};
use thiserror::Error;

/// Why a file declares no types: its first fault.
#[derive(Clone, Copy, Debug, PartialEq, Eq, Error)]
pub enum TypesFault {
    /// A schema has a keyword that isn't served.
    #[error("unknown keyword")]
    UnknownKeyword,
    /// A schema's `type` is missing or isn't served.
    #[error("unknown type")]
    UnknownType,
    /// A schema is no object, a keyword stands at a wrong place, or its value doesn't fit;
    /// the items of a set or the key fields of a map list aren't scalars.
    #[error("list or map kind that does not fit")]
    Misfit,
    /// A schema nests deeper than `MAX_DEPTH`.
    #[error("schema deeper than {}", MAX_DEPTH)]
    TooDeep,
    /// Two types have the same group, version and plural.
    #[error("two types with one name")]
    SameNames,
    /// The file or a type has another form, a name that isn't one, or there are too many types.
    #[error("not the form of a types file")]
    NotTheForm,
    /// Out of memory.
    #[error("out of memory")]
    Memory,
}

impl From<AllocError> for TypesFault {
    ghost use Rattle.std.specs.Prelude.{◌≡◌};
    ghost use Rattle.api_types.specs.declared.fault.TypesFault.TheVariants.{Memory};

    ghost from_gives = { λ _ e. e ≡ Memory };

    fn from(_: AllocError) -> TypesFault {
        TypesFault::Memory
    }
}

impl<T: Drop> From<AllocFailed<T>> for TypesFault {
    ghost use Rattle.std.specs.Prelude.{◌≡◌};
    ghost use Rattle.api_types.specs.declared.fault.TypesFault.TheVariants.{Memory};

    ghost from_gives = { λ _ e. e ≡ Memory };

    fn from(_: AllocFailed<T>) -> TypesFault {
        TypesFault::Memory
    }
}
