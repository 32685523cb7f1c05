//! Laws of merge patches. Each function does nothing; what it promises is the law.

ghost use Rattle.std.specs.Prelude.{◌≡◌, ℕ, List, None};
ghost use Rattle.serde_json.specs.Data.{Data, Members, object};
ghost use Rattle.serde_json.specs.Find.{get, get_member};
ghost use Rattle.json_patch.specs.Ascending.{Ascends};
ghost use Rattle.json_patch.specs.MergePatch.{merge_patch};

/// A member that a merge patch doesn't name stays, and none comes.
pub fn unnamed_members_stay()
    ensures { (name : List ℕ) (target patch : Members) → get_member name patch ≡ None → get name (merge_patch (object target) (object patch)) ≡ get_member name target }
{}

/// A merge patch that is applied twice does what it does once.
pub fn merging_twice_is_merging_once()
    ensures { (target patch : Data) → Ascends target → Ascends patch → merge_patch (merge_patch target patch) patch ≡ merge_patch target patch }
{}
