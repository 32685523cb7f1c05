//! Which of the listed objects are kept. Their rows are read in `first_kept`.

use std::alloc::AllocError;

/// A choice of objects by their texts: the answer is a function of the text.
pub trait Keep {
    ghost use Rattle.std.specs.Prelude.{◌≡◌, List, ℕ, Bool, IfOk};

    /// Whether the object of a text is kept.
    ghost kept: { Self → List ℕ → Bool };

    /// Whether the object of this text is kept, unless memory runs out.
    fn keeps(&self, text: &str) -> Result<bool, AllocError>
        ensures { IfOk result (λ b. b ≡ kept self.now text.now) };
}

/// Keeps every object.
#[derive(Clone, Copy)]
pub(crate) struct Every;

impl Keep for Every {
    ghost use Rattle.std.specs.Prelude.{true};

    ghost kept = { λ every text. true };

    fn keeps(&self, _: &str) -> Result<bool, AllocError> {
        Ok(true)
    }
}
