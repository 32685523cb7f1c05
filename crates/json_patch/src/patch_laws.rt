//! Laws of JSON patches. Each function does nothing; what it promises is the law.

ghost use Rattle.std.specs.Prelude.{◌≡◌, ◌++◌, ℕ, List, Some, Err};
ghost use Rattle.serde_json.specs.Data.{Data};
ghost use Rattle.json_patch.specs.Operations.{Operation, State, applied, applied_all, test};
ghost use Rattle.json_patch.specs.Pointers.{Pointer};

/// A test changes nothing.
pub fn tests_change_nothing()
    ensures { (path : Pointer) (d : Data) (before after : State) → applied (test path d) before ≡ Some after → after ≡ before }
{}

/// Where an operation fails, those after it aren't done: the patch fails there, whatever they are.
pub fn nothing_is_done_after_a_failure()
    ensures { (operations more : List Operation) (whole : Data) (n : ℕ) → applied_all operations whole ≡ Err n → applied_all (operations ++ more) whole ≡ Err n }
{}
