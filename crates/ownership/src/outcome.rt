//! Whether a write creates the object under its key, changes it or leaves it. What the write does stands in `applying`
//! and `updating`.

ghost use Rattle.std.specs.Prelude.{◌≡◌, option_map};
ghost use Rattle.ownership.specs.Outcomes.{written_over};
ghost use Rattle.objects.specs.Views.{state_of};

use crate::same::is_same;
use objects::Owned;

/// What a write does (as `kubectl apply` names it).
#[derive(Clone, Copy, Debug, PartialEq, Eq)]
pub enum Outcome {
    /// Nothing stood there.
    Created,
    /// Content or owners differ from those that stood there.
    Configured,
    /// Content and owners are as they were.
    Unchanged,
}

/// What writing this object does where another stands, or none does. A new object is created even without content.
pub fn written_over(owned: &Owned, before: Option<&Owned>) -> Outcome
    ensures { result ≡ written_over (option_map (λ b. state_of b.now) before.entry) (state_of owned.now) }
{
    let Some(before) = before else {
        return Outcome::Created;
    };
    if is_same(owned, before) {
        return Outcome::Unchanged;
    }
    Outcome::Configured
}
