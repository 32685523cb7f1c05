//! Law: what is written on the connection of a watch, over any run of the hub. That a client reads it stands in `watches`.

ghost use Rattle.std.specs.Prelude.{◌≡◌, ◌≤◌, ◌++◌, ℕ, List, Some};
ghost use Rattle.std.specs.FinMap as fin;
ghost use Rattle.verbs.specs.Machine.{IsMachine};
ghost use Rattle.watchline.specs.Watches.{no_initial_left, wanted};
ghost use Rattle.httpedge.specs.Connections.{Connection, watching, written_on};
ghost use Rattle.httpedge.specs.Runs.{Action, Runs};
ghost use Rattle.httpedge.specs.Steps.{State};
ghost use Rattle.httpedge.specs.Watches.{Watch};
ghost use Rattle.wire_laws.specs.WatchLines.{IsWrittenFrom};

/// Whatever happens to a hub, what it writes on the connection of a watch that has sent its objects are the changes that are
/// seen behind the watch's position, each once and in order, of the one history that the hub has at the end; and bookmarks,
/// each of a revision up to which all were written before it. So the lines are a prefix of the seen changes with such
/// bookmarks between them. At last comes an error, where changes were forgotten, or the end, or no more.
pub fn watches_write_changes()
    ensures { (s t : State) (hs : List Action) (id : ℕ) (c : Connection) (w : Watch) → IsMachine s.types s.machine → Runs s hs t → fin.get s.connections id ≡ Some c → c.phase ≡ watching w → w.cursor.left ≡ no_initial_left
        → w.cursor.position ≤ s.machine.current → (bytes : List ℕ) × (written_on t.connections id ≡ c.written ++ bytes) × IsWrittenFrom (wanted w.cursor) t.machine.changes t.machine.current w.cursor.position bytes }
{
    httpedge::machines_grow();
    httpedge::machines_last();
    line_laws::watches_send_all();
}
