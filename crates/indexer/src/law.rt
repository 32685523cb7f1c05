//! Law: what holds of objects and indexes after any list of calls. The calls stand in `indexer`.

ghost use Rattle.std.specs.Prelude.{List, ℕ};
ghost use Rattle.std.specs.FinMap.{empty};
ghost use Rattle.indexer.specs.CallLaws.{Call, after_all, IsFollowed};
ghost use Rattle.indexer.specs.Objects.{Stored};

/// After any list of calls each object that is kept stands in every index under just its keys by the index's
/// function: nothing stale, nothing missing.
pub fn indexes_follow()
    ensures { (ks : Stored → List (List (List ℕ))) (calls : List Call) → IsFollowed ks (after_all ks calls empty) }
{}
