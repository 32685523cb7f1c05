//! Laws of histories, which crates above build on; those of pages stand in `page_laws`, those of lists and watches in
//! `seen_laws`. Each function does nothing; what it promises is the law.

ghost use Rattle.std.specs.Prelude.{◌≡◌, ℕ, suc, ◌+◌, ◌≤◌, true, List, ◌++◌, length, Option, None};
ghost use Rattle.std.specs.FinMap as fin;
ghost use Rattle.history.specs.History.{History, IsHistory, Key, compacted_to, fresh, last_revision, later, current_objects, state_at, written};
ghost use Rattle.history.specs.Kept.{IsPruned, pruned};
ghost use Rattle.history.specs.View.{IsView, compacted_in, state_in, view, written_in};
ghost use Rattle.history.specs.Whole.{AreThere, IsWhole};
ghost use Rattle.history.specs.Writes.{changes_by, written_all, written_all_in};

/// From the compacted number on, the kept changes have the same states and the same later changes, so the view
/// depends on them and on the two numbers alone; and the view gives each of these states.
pub fn view_of_kept()
    ensures states { (h : History) (c r : ℕ) → IsHistory h → c ≤ r → state_at (pruned c h).changes r ≡ state_at h.changes r }
    ensures later { (h : History) (c r : ℕ) → IsHistory h → c ≤ r → later r (pruned c h).changes ≡ later r h.changes }
    ensures same { (h : History) → IsHistory h → view (pruned h.compacted h) ≡ view h }
    ensures within { (h : History) (r : ℕ) → IsHistory h → h.compacted ≤ r → state_in (view h) r ≡ state_at h.changes r }
    ensures sound { (h : History) → IsHistory h → IsView (view h) }
{}

/// A write and a compaction of a history are seen as a write and a compaction of its view.
pub fn view_of_calls()
    ensures writes { (h : History) (k : Key) (body : Option (List ℕ)) → IsHistory h → view (written h k body) ≡ written_in (view h) k body }
    ensures compacts { (h : History) (c : ℕ) → IsHistory h → h.compacted ≤ c → view (compacted_to c h) ≡ compacted_in c (view h) }
{}

/// What a compaction forgets is never missed: the kept changes are enough to go on from.
pub fn kept_is_enough()
    ensures fresh { (h : History) → IsHistory h → IsPruned (pruned h.compacted h) }
    ensures writes { (h : History) (k : Key) (body : Option (List ℕ)) → IsHistory h → pruned h.compacted (written h k body) ≡ written (pruned h.compacted h) k body }
    ensures prunes { (h : History) (c : ℕ) → IsHistory h → h.compacted ≤ c → pruned c (pruned h.compacted h) ≡ pruned c (compacted_to c h) }
{}

/// A history of which nothing is forgotten is one with rising revisions, and stays whole: from its beginning, over
/// each write (of a deletion, where the object is there) and over each compaction.
pub fn histories_stay_whole()
    ensures rising { (first : ℕ) (h : History) → IsWhole first h → IsHistory h }
    ensures begins { (first : ℕ) → 1 ≤ first → first ≤ last_revision → IsWhole first (fresh first) }
    ensures writes { (first : ℕ) (h : History) (k : Key) (body : Option (List ℕ)) → IsWhole first h → suc h.current ≤ last_revision
        → (body ≡ None → fin.contains_key (current_objects h) k ≡ true) → IsWhole first (written h k body) }
    ensures compacts { (first : ℕ) (h : History) (c : ℕ) → IsWhole first h → h.compacted ≤ c → c ≤ h.current → IsWhole first (compacted_to c h) }
{}

/// Several writes make their changes one after the other. They are seen as several writes of the view, what a compaction forgets
/// isn't missed, and a whole history stays whole, where each deletion is of an object that is there in its turn.
pub fn several_writes_at_once()
    ensures changes { (h : History) (ws : List (Key × Option (List ℕ))) → (written_all h ws).changes ≡ h.changes ++ changes_by h.current ws }
    ensures current { (h : History) (ws : List (Key × Option (List ℕ))) → (written_all h ws).current ≡ h.current + length ws }
    ensures seen { (h : History) (ws : List (Key × Option (List ℕ))) → IsHistory h → view (written_all h ws) ≡ written_all_in (view h) ws }
    ensures kept { (h : History) (ws : List (Key × Option (List ℕ))) → IsHistory h → pruned h.compacted (written_all h ws) ≡ written_all (pruned h.compacted h) ws }
    ensures whole { (first : ℕ) (h : History) (ws : List (Key × Option (List ℕ))) → IsWhole first h → h.current + length ws ≤ last_revision
        → AreThere (current_objects h) (changes_by h.current ws) → IsWhole first (written_all h ws) }
{}
