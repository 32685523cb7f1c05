//! Laws of what a list and a watch see; pages stand in `page_laws`. Each function does nothing; what it promises is the
//! law.

ghost use Rattle.std.specs.Prelude.{◌≡◌, [], ◌∷◌, ◌++◌, ◌&&◌, true, ℕ, ◌-◌, ◌≤◌, Bool, List, Option, cond, drop, filter, take};
ghost use Rattle.std.specs.FinMap as fin;
ghost use Rattle.std.specs.List.{flat_map};
ghost use Rattle.history.specs.History.{Change, History, IsHistory, IsRising, Key, Objects, changed, later, state_at, up_to, written};
ghost use Rattle.history.specs.Kept.{pruned};
ghost use Rattle.history.specs.Seen.{IsNextSeen, SeenChange, Selection, all_added, put_all_seen, reached, seen_among, seen_at, seen_changes, seen_in, seen_of, selected};
ghost use Rattle.history.specs.View.{IsView, View, state_in, view};

/// What is seen of changes, put over the selected objects before them, gives the selected objects after them. So whoever
/// has the list of a revision and puts what is seen after it has the list of each later revision; where nothing is
/// seen the list stays. One step of it is the next seen change, and so is any prefix of what is seen: the others are
/// what is seen after the prefix's last revision. What a watch without a version begins with makes the list itself.
pub fn seen_changes_lead_on()
    ensures changes { (wanted : Selection) (s : Objects) (cs : List Change) → put_all_seen (selected wanted s) (seen_among wanted s cs) ≡ selected wanted (changed s cs) }
    ensures between { (wanted : Selection) (cs : List Change) (top r q : ℕ) → IsRising 0 cs top → r ≤ q → put_all_seen (seen_at wanted cs r) (seen_changes wanted cs r q) ≡ seen_at wanted cs q }
    ensures stays { (wanted : Selection) (cs : List Change) (top r q : ℕ) → IsRising 0 cs top → r ≤ q → seen_changes wanted cs r q ≡ [] → seen_at wanted cs q ≡ seen_at wanted cs r }
    ensures next { (wanted : Selection) (cs : List Change) (top p : ℕ) (x : SeenChange) (others : List SeenChange) → IsRising 0 cs top → p ≤ top → seen_changes wanted cs p top ≡ x ∷ others → IsNextSeen wanted cs top p x others }
    ensures prefix { (wanted : Selection) (cs : List Change) (top p n : ℕ) → IsRising 0 cs top → p ≤ top
        → put_all_seen (seen_at wanted cs p) (take n (seen_changes wanted cs p top)) ≡ seen_at wanted cs (reached p (take n (seen_changes wanted cs p top))) }
    ensures left { (wanted : Selection) (cs : List Change) (top p n : ℕ) → IsRising 0 cs top → p ≤ top
        → seen_changes wanted cs (reached p (take n (seen_changes wanted cs p top))) top ≡ drop n (seen_changes wanted cs p top) }
    ensures added { (s : Objects) → put_all_seen fin.empty (all_added s) ≡ s }
{}

/// What is seen, change by change: each by what stood just before its revision; and changes of keys outside the
/// selection can be left out. The same holds of a view.
pub fn seen_changes_one_by_one()
    ensures each { (wanted : Selection) (cs : List Change) (top r q : ℕ) → IsRising 0 cs top → seen_changes wanted cs r q ≡ flat_map (λ c. seen_of wanted (state_at cs (c.revision - 1)) c) (up_to q (later r cs)) }
    ensures inside { (wanted : Selection) (own : Key → Bool) (cs : List Change) (top r q : ℕ) → ((k : Key) (body : List ℕ) → wanted k body ≡ true → own k ≡ true) → IsRising 0 cs top
        → seen_changes wanted cs r q ≡ flat_map (λ c. seen_of wanted (state_at cs (c.revision - 1)) c) (filter (λ c. own c.key) (up_to q (later r cs))) }
    ensures in_view { (wanted : Selection) (own : Key → Bool) (v : View) (r q : ℕ) → ((k : Key) (body : List ℕ) → wanted k body ≡ true → own k ≡ true) → IsView v
        → seen_in wanted v r q ≡ flat_map (λ c. seen_of wanted (state_in v (c.revision - 1)) c) (filter (λ c. own c.key) (up_to q (later r v.changes))) }
{}

/// What was seen stays so after a write; from the compacted number on it stays so after a compaction; and a view
/// shows it.
pub fn seen_stays()
    ensures at_write { (wanted : Selection) (h : History) (k : Key) (body : Option (List ℕ)) (r : ℕ) → r ≤ h.current → seen_at wanted (written h k body).changes r ≡ seen_at wanted h.changes r }
    ensures after_write { (wanted : Selection) (h : History) (k : Key) (body : Option (List ℕ)) (r q : ℕ) → r ≤ h.current → q ≤ h.current → seen_changes wanted (written h k body).changes r q ≡ seen_changes wanted h.changes r q }
    ensures at_kept { (wanted : Selection) (h : History) (c r : ℕ) → IsHistory h → c ≤ r → seen_at wanted (pruned c h).changes r ≡ seen_at wanted h.changes r }
    ensures after_kept { (wanted : Selection) (h : History) (c r q : ℕ) → IsHistory h → c ≤ r → seen_changes wanted (pruned c h).changes r q ≡ seen_changes wanted h.changes r q }
    ensures at_view { (wanted : Selection) (h : History) (r : ℕ) → IsHistory h → h.compacted ≤ r → selected wanted (state_in (view h) r) ≡ seen_at wanted h.changes r }
    ensures after_view { (wanted : Selection) (h : History) (r q : ℕ) → IsHistory h → h.compacted ≤ r → seen_in wanted (view h) r q ≡ seen_changes wanted h.changes r q }
{}

/// The changes of some keys alone, as those of one type, are a history of their own: their revisions rise, what
/// stands and what is seen is what the whole history has of these keys, and a change of another key adds nothing.
pub fn types_stand_apart()
    ensures rising { (own : Key → Bool) (lo top : ℕ) (cs : List Change) → IsRising lo cs top → IsRising lo (filter (λ c. own c.key) cs) top }
    ensures pushed { (own : Key → Bool) (cs : List Change) (c : Change) → filter (λ d. own d.key) (cs ++ c ∷ []) ≡ filter (λ d. own d.key) cs ++ cond (own c.key) (c ∷ []) [] }
    ensures states { (own : Key → Bool) (cs : List Change) (r : ℕ) → state_at (filter (λ c. own c.key) cs) r ≡ selected (λ k _. own k) (state_at cs r) }
    ensures seen { (own : Key → Bool) (wanted : Selection) (cs : List Change) (r : ℕ) → seen_at wanted (filter (λ c. own c.key) cs) r ≡ seen_at (λ k body. own k && wanted k body) cs r }
    ensures seen_after { (own : Key → Bool) (wanted : Selection) (cs : List Change) (top r q : ℕ) → IsRising 0 cs top
        → seen_changes wanted (filter (λ c. own c.key) cs) r q ≡ seen_changes (λ k body. own k && wanted k body) cs r q }
{}
