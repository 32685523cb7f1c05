//! Laws of a watch over a history that goes on: it sends all changes. What a single line says stands in `lines`.

ghost use Rattle.std.specs.Prelude.{◌≡◌, ◌++◌, List, map, true};
ghost use Rattle.history.specs.History.{History, IsHistory};
ghost use Rattle.history.specs.Seen.{seen_changes};
ghost use Rattle.watchline.specs.Lines.{added, line_of};
ghost use Rattle.watchline.specs.Watches.{Cursor, coming, from_history, is_bookmark_due, no_initial_left, objects_left, wanted};
ghost use Rattle.line_laws.specs.Following.{AreAllowed, Event, MayBegin, followed, opened_at};

/// A watch sends all, once and in order: the lines of its turns, with those still to come, are the objects that were
/// left and then each change that is seen after its position, whatever is written or forgotten between its turns. A
/// watch that has sent its objects has sent exactly what is seen from the position where it was to the one where it
/// stands, also where it was opened at a version that is still to come.
pub fn watches_send_all()
    ensures all { (h : History) (w : Cursor) (events : List Event) → IsHistory h → MayBegin h w → AreAllowed events (opened_at h w)
        → (followed events (opened_at h w)).lines ++ map line_of (coming (from_history (followed events (opened_at h w)).history) (followed events (opened_at h w)).cursor)
        ≡ map line_of (map added (objects_left (from_history h) w)
        ++ seen_changes (wanted w) (followed events (opened_at h w)).history.changes w.position (followed events (opened_at h w)).history.current) }
    ensures changes { (h : History) (w : Cursor) (events : List Event) → IsHistory h → w.left ≡ no_initial_left → AreAllowed events (opened_at h w)
        → (followed events (opened_at h w)).lines
        ≡ map line_of (seen_changes (wanted w) (followed events (opened_at h w)).history.changes w.position (followed events (opened_at h w)).cursor.position) }
{}

/// A bookmark comes behind all that it sends of: where one is due, what the watch's turns have sent by then are the
/// objects that were left and each change that is seen up to the position, the revision that the bookmark sends.
pub fn bookmarks_come_behind()
    ensures { (h : History) (w : Cursor) (events : List Event) → IsHistory h → MayBegin h w → AreAllowed events (opened_at h w)
        → is_bookmark_due (followed events (opened_at h w)).cursor ≡ true
        → (followed events (opened_at h w)).lines
        ≡ map line_of (map added (objects_left (from_history h) w)
        ++ seen_changes (wanted w) (followed events (opened_at h w)).history.changes w.position (followed events (opened_at h w)).cursor.position) }
{}
