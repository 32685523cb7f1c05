//! Laws of watches. Each function does nothing; what it promises is the law. The calls of a watch stand in `cursor`;
//! that a client reads its lines is said in the crate `line_laws`.

ghost use Rattle.std.specs.Prelude.{◌≡◌, ◌≤◌, ◌⊎◌, ℕ, List, Option, drop, map, take};
ghost use Rattle.history.specs.History.{History, IsHistory, Key, written};
ghost use Rattle.history.specs.Seen.{seen_changes};
ghost use Rattle.history.specs.View.{view};
ghost use Rattle.answers.specs.WatchFrom.{WatchFrom};
ghost use Rattle.watchline.specs.Lines.{line_of};
ghost use Rattle.watchline.specs.Opening.{first_cursor};
ghost use Rattle.watchline.specs.TurnLaws.{SkipsNothing, after_turns, lines_by, room_of};
ghost use Rattle.watchline.specs.Watches.{Cursor, bookmarked, changes_sent, coming, from_history, from_view, pumped, wanted};

/// What is seen of a history, after any compaction, is enough for each turn of each watch.
pub fn watches_by_views()
    ensures { (h : History) (room : ℕ) (w : Cursor) → IsHistory h → pumped (from_view (view h)) room w ≡ pumped (from_history h) room w }
{}

/// Turns one after the other send, in order and each thing once, as much of what is still to be sent as they have room
/// for in all: the objects that are left, then the changes. What is left after them is what they had no room for.
pub fn turns_send_in_order()
    ensures lines { (h : History) (rooms : List ℕ) (w : Cursor) → IsHistory h → h.compacted ≤ w.position
        → lines_by (from_history h) rooms w ≡ map line_of (take (room_of rooms) (coming (from_history h) w)) }
    ensures left { (h : History) (rooms : List ℕ) (w : Cursor) → IsHistory h → h.compacted ≤ w.position
        → coming (from_history h) (after_turns (from_history h) rooms w) ≡ drop (room_of rooms) (coming (from_history h) w) }
{}

/// A position passes no change that is seen but what the turn sends. So between the last revision that a client was
/// sent and the position no seen change stands, from the opening on, over turns, bookmarks and writes: a bookmark
/// sends no revision past a change that was not sent. A position past the current revision is the one that the client
/// named, so it was sent.
pub fn positions_skip_nothing()
    ensures sent { (h : History) (room : ℕ) (w : Cursor) → IsHistory h → h.compacted ≤ w.position
        → seen_changes (wanted w) h.changes w.position (pumped (from_history h) room w).next.position ≡ changes_sent (from_history h) room w }
    ensures begins { (h : History) (from : WatchFrom) → IsHistory h → SkipsNothing h (first_cursor from) }
    ensures turns { (h : History) (room : ℕ) (w : Cursor) → IsHistory h → SkipsNothing h w → SkipsNothing h (pumped (from_history h) room w).next }
    ensures marks { (h : History) (api_version kind : List ℕ) (w : Cursor) → IsHistory h → SkipsNothing h w → SkipsNothing h (bookmarked api_version kind w).next }
    ensures writes { (h : History) (k : Key) (body : Option (List ℕ)) (w : Cursor) → (w.position ≤ h.current) ⊎ (w.sent ≡ w.position) → SkipsNothing h w → SkipsNothing (written h k body) w }
{}
