//! Names that are taken, for examples.

ghost use Rattle.std.specs.Prelude.{◌-◌, ◌==◌, length, slice_get};
ghost use Rattle.names.specs.Names.{passes};

use std::alloc::AllocError;
use system_metadata::TakenNames;

/// All names that end in a letter are taken.
#[derive(Drop)]
pub struct EndingIn {
    pub letter: u8,
}

impl TakenNames for EndingIn {
    type Fault = AllocError;

    ghost taken = { λ s name. passes (λ b. b == s.letter) (slice_get name (length name - 1)) };

    fn is_taken(&mut self, name: &str) -> Result<bool, AllocError> {
        match name.as_bytes().last() {
            Some(last) => Ok(*last == self.letter),
            None => Ok(false),
        }
    }
}
