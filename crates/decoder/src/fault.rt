//! The error of reading a reply, and the errors that become it. What may be malformed stands in `malformed`.

use crate::malformed::Malformed;
use std::alloc::{AllocError, AllocFailed};
use thiserror::Error;

/// Why a reply was not read.
#[derive(Clone, Copy, Debug, PartialEq, Eq, Error)]
pub enum DecodeFault {
    /// The reply is malformed, for this reason.
    #[error("malformed reply: {0}")]
    Malformed(Malformed),
    /// Out of memory.
    #[error("out of memory")]
    Memory,
}

impl From<AllocError> for DecodeFault {
    ghost use Rattle.std.specs.Prelude.{◌≡◌};
    ghost use Rattle.decoder.specs.declared.fault.DecodeFault.TheVariants as fault;

    ghost from_gives = { λ _ e. e ≡ fault.Memory };

    fn from(_e: AllocError) -> DecodeFault {
        DecodeFault::Memory
    }
}

impl<T: Drop> From<AllocFailed<T>> for DecodeFault {
    ghost use Rattle.std.specs.Prelude.{◌≡◌};
    ghost use Rattle.decoder.specs.declared.fault.DecodeFault.TheVariants as fault;

    ghost from_gives = { λ _ e. e ≡ fault.Memory };

    fn from(_: AllocFailed<T>) -> DecodeFault {
        DecodeFault::Memory
    }
}

impl From<Malformed> for DecodeFault {
    ghost use Rattle.std.specs.Prelude.{◌≡◌};
    ghost use Rattle.decoder.specs.declared.fault.DecodeFault.TheVariants as fault;

    ghost from_gives = { λ m e. e ≡ fault.Malformed m };

    fn from(m: Malformed) -> DecodeFault {
        DecodeFault::Malformed(m)
    }
}
