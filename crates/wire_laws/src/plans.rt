//! The plans of calls that list and that watch. What a client reads in a page stands in `replies`.

ghost use Rattle.std.specs.Prelude.{◌≡◌, ◌≤◌, ◌<◌, ℕ, List, Option, Ok, Err};
ghost use Rattle.api_types.specs.TypesFile.{ServedShape};
ghost use Rattle.history.specs.History.{History, state_at};
ghost use Rattle.params.specs.Values.{Values, Watch};
ghost use Rattle.lists.specs.Body.{list_text};
ghost use Rattle.lists.specs.Lists.{page_of};
ghost use Rattle.lists.specs.Revision.{revision_of};
ghost use Rattle.lists.specs.declared.refusal.Refusal.{Refusal};
ghost use Rattle.lists.specs.declared.refusal.Refusal.TheVariants.{Expired};
ghost use Rattle.api_request.specs.Calls.{Call};
ghost use Rattle.verbs.specs.Step.{collection_of, list_refusal, planned, refused};
ghost use Rattle.wire_laws.specs.Listings.{IsListing, IsWatching, page_plan, watch_after, watch_plan};

/// A call that lists is answered by the text of its page, or by the refusal of its revision, and changes nothing.
pub fn lists_are_planned()
    ensures pages { (types : List ServedShape) (m : History) (call : Call) (t : ServedShape) (kind : ℕ) (namespace : Option (List ℕ)) (values : Values) (revision : ℕ) → IsListing types call t kind namespace values
        → revision_of m.current m.compacted values ≡ Ok revision
        → planned types m call ≡ page_plan (list_text (collection_of t kind namespace) revision (page_of (collection_of t kind namespace) values (state_at m.changes revision))) }
    ensures refusals { (types : List ServedShape) (m : History) (call : Call) (t : ServedShape) (kind : ℕ) (namespace : Option (List ℕ)) (values : Values) (r : Refusal) → IsListing types call t kind namespace values
        → revision_of m.current m.compacted values ≡ Err r → planned types m call ≡ refused (list_refusal r) }
{}

/// A call that watches from a version on, which isn't 0, opens a watch of the changes after it; where some of them were
/// forgotten, it is refused as expired. It changes nothing.
pub fn watches_are_planned()
    ensures opens { (types : List ServedShape) (m : History) (call : Call) (t : ServedShape) (kind : ℕ) (namespace : Option (List ℕ)) (values : Values) (watch : Watch) (v : ℕ) → IsWatching types call t kind namespace values watch v → 0 < v
        → m.compacted ≤ v → planned types m call ≡ watch_plan (watch_after kind namespace values watch v) }
    ensures expired { (types : List ServedShape) (m : History) (call : Call) (t : ServedShape) (kind : ℕ) (namespace : Option (List ℕ)) (values : Values) (watch : Watch) (v : ℕ) → IsWatching types call t kind namespace values watch v → 0 < v
        → v < m.compacted → planned types m call ≡ refused (list_refusal (Expired v m.compacted)) }
{}
