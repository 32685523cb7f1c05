//! Which names are taken, as what makes names asks it.

use std::alloc::AllocError;

/// Says which names objects have. What it says of a name stays.
pub trait TakenNames {
    ghost use Rattle.std.specs.Prelude.{◌≡◌, List, ℕ, Bool, IfOk};

    /// Why it can't be said.
    type Fault: From<AllocError> + Drop;

    /// Whether an object has the name.
    ghost taken: { Self → List ℕ → Bool };

    /// Whether an object has the name.
    fn is_taken(&mut self, name: &str) -> Result<bool, Self::Fault>
        ensures ok { IfOk result (λ b. b ≡ taken self.old name.now) }
        ensures stays { (text : List ℕ) → taken self.new text ≡ taken self.old text };
}
