//! Laws of what a hub does, which crates above build on. Each function does nothing useful; what it promises is the
//! law. The hub itself stands in `hub`; that clients read what it writes is said in the crate `wire_laws`.

ghost use Rattle.std.specs.Prelude.{◌≡◌, ◌≤◌, ◌++◌, ℕ, Bool, true, false, List, [], Some, None, drop, option_map, take};
ghost use Rattle.std.specs.FinMap as fin;
ghost use Rattle.api_types.specs.TypesFile.{ServedShape};
ghost use Rattle.history.specs.History.{History, up_to};
ghost use Rattle.verbs.specs.Machine.{IsMachine};
ghost use Rattle.httpedge.specs.Connections.{AllIsOut, Connection, Connections, IsUntaken, each, ended_on, gone_on, has_gone, out_on, watching_on, written_on};
ghost use Rattle.httpedge.specs.Runs.{Follows, Action, HappensElsewhere, HasGrown, KeepsOutput, Runs, Steps, bytes_at, peer_goes};
ghost use Rattle.httpedge.specs.Steps.{Event, State, comes, start, ticks, with_bytes_taken, RunsOutOfMemory};

use requests::read_head;

/// Bytes that come on a connection in two events, with none between them, leave the hub as in one: what a
/// connection gets doesn't depend on how its bytes were cut.
pub fn pieces()
    ensures { (s mid t : State) (id : ℕ) (first second : List ℕ) → Steps s (comes id first) mid → Steps mid (comes id second) t → Steps s (comes id (first ++ second)) t }
{}

/// Events in turn, and those of them that were out of memory, lead to one state.
pub fn runs_are_determined()
    ensures { (s t u : State) (hs : List Action) → Runs s hs t → Runs s hs u → t ≡ u }
{}

/// Each event has a step, also one that brings bytes: all those of its connection, as they lie in memory.
pub fn each_steps(bytes: &[u8])
    ensures without_bytes { (s : State) (e : Event) → bytes_at s e ≡ None → (t : State) × Steps s e t }
    ensures with_bytes { (s : State) (e : Event) → bytes_at s e ≡ Some bytes.now → (t : State) × Steps s e t }
{
    let _ = read_head(bytes);
}

/// A change of each connection is seen under each id.
pub fn each_changes()
    ensures { (f : ℕ → Connection → Connection) (all : Connections) (id : ℕ) → fin.get (each f all) id ≡ option_map (f id) (fin.get all id) }
{}

/// The bytes that are taken of a connection are the first of those that are out on it, at most all.
pub fn bytes_are_taken()
    ensures { (s : State) (id n : ℕ) → out_on (with_bytes_taken s id n).connections id ≡ drop n (out_on s.connections id) }
{}

/// What happens on one connection leaves every other as it was.
pub fn others_stay()
    ensures { (s t : State) (h : Action) (other : ℕ) → HappensElsewhere h other → Follows s h t → fin.get t.connections other ≡ fin.get s.connections other }
{}

/// A connection that has ended stays so, whatever happens.
pub fn ends_stay()
    ensures { (s t : State) (h : Action) (id : ℕ) → Follows s h t → ended_on s.connections id ≡ true → ended_on t.connections id ≡ true }
{}

/// A connection whose peer has gone stays as it is, whatever happens, and nothing is out on it.
pub fn gone_stays()
    ensures stays { (s t : State) (h : Action) (id : ℕ) (c : Connection) → Follows s h t → fin.get s.connections id ≡ Some c → has_gone c.phase ≡ true → fin.get t.connections id ≡ Some c }
    ensures silent { (all : Connections) (id : ℕ) → gone_on all id ≡ true → out_on all id ≡ [] }
{}

/// A tick changes watches alone, also where some of them are out of memory.
pub fn ticks_are_for_watches()
    ensures with_memory { (s t : State) (ms id : ℕ) → watching_on s.connections id ≡ false → Steps s (ticks ms) t → fin.get t.connections id ≡ fin.get s.connections id }
    ensures without_memory { (s t : State) (ms id : ℕ) (ran_out_on : ℕ → Bool) → watching_on s.connections id ≡ false → RunsOutOfMemory s (ticks ms) ran_out_on t → fin.get t.connections id ≡ fin.get s.connections id }
{}

/// While nothing is taken and no peer goes, what is out on a connection is all that was written on it; the same of one
/// connection, whatever happens on the others.
pub fn all_is_out()
    ensures start { (types : List ServedShape) (m : History) → AllIsOut (start types m).connections }
    ensures stays { (s t : State) (e : Event) → peer_goes e ≡ false → AllIsOut s.connections → Steps s e t → AllIsOut t.connections }
    ensures written { (all : Connections) (id : ℕ) → AllIsOut all → out_on all id ≡ written_on all id }
    ensures one_stays { (s t : State) (h : Action) (id : ℕ) → KeepsOutput h id → IsUntaken (fin.get s.connections id) → Follows s h t → IsUntaken (fin.get t.connections id) }
    ensures one_written { (all : Connections) (id : ℕ) → IsUntaken (fin.get all id) → out_on all id ≡ written_on all id }
{}

/// What was written on a connection stays, and more may follow; while its peer hasn't gone it is what was taken of it
/// and then what is out.
pub fn written_stays()
    ensures grows { (s t : State) (h : Action) (id : ℕ) → Follows s h t → (more : List ℕ) × (written_on t.connections id ≡ written_on s.connections id ++ more) }
    ensures parts { (all : Connections) (id : ℕ) (c : Connection) → fin.get all id ≡ Some c → has_gone c.phase ≡ false → written_on all id ≡ take c.taken c.written ++ out_on all id }
{}

/// The machine stays a machine, whatever happens to the hub: calls, compactions, other types, events that are refused
/// or out of memory.
pub fn machines_last()
    ensures { (s t : State) (hs : List Action) → IsMachine s.types s.machine → Runs s hs t → IsMachine t.types t.machine }
{}

/// Whatever happens to a hub, its types keep their names, its history only grows, each change of the next revision, and
/// neither of its numbers goes down; so the changes up to a revision that has come stay.
pub fn machines_grow()
    ensures one { (s t : State) (h : Action) → Follows s h t → HasGrown s t }
    ensures all { (s t : State) (hs : List Action) → Runs s hs t → HasGrown s t }
    ensures stays { (s t : State) (r : ℕ) → HasGrown s t → r ≤ s.machine.current → up_to r t.machine.changes ≡ up_to r s.machine.changes }
{}
