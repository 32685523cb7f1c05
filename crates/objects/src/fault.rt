//! The error of reading a text back, and the errors that become it. Texts are read in `read_back`.

use std::alloc::{AllocError, AllocFailed};
use thiserror::Error;

/// Why a text is not read back as an object.
#[derive(Clone, Copy, Debug, PartialEq, Eq, Error)]
pub enum ObjectFault {
    /// It is not the text of an object of this type and key.
    #[error("not an object's canonical text")]
    NotCanonical,
    /// Out of memory.
    #[error("out of memory")]
    Memory,
}

impl From<AllocError> for ObjectFault {
    ghost use Rattle.std.specs.Prelude.{◌≡◌};
    ghost use Rattle.objects.specs.declared.fault.ObjectFault.TheVariants.{Memory};

    ghost from_gives = { λ _ e. e ≡ Memory };

    fn from(_: AllocError) -> ObjectFault {
        ObjectFault::Memory
    }
}

impl<T: Drop> From<AllocFailed<T>> for ObjectFault {
    ghost use Rattle.std.specs.Prelude.{◌≡◌};
    ghost use Rattle.objects.specs.declared.fault.ObjectFault.TheVariants.{Memory};

    ghost from_gives = { λ _ e. e ≡ Memory };

    fn from(_: AllocFailed<T>) -> ObjectFault {
        ObjectFault::Memory
    }
}
