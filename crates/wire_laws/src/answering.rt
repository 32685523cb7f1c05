//! What an event makes of a connection that doesn't watch. That a client reads its reply stands in `replies`.

ghost use Rattle.std.specs.Prelude.{◌≡◌, ◌++◌, ℕ, List, None, Some, true, false};
ghost use Rattle.std.specs.FinMap as fin;
ghost use Rattle.api_request.specs.Calls.{Call, Denied, at_tick};
ghost use Rattle.verbs.specs.Step.{planned};
ghost use Rattle.requests.specs.Asks.{Asks};
ghost use Rattle.requests.specs.Decision.{accepted, refused, undecided};
ghost use Rattle.requests.specs.Replies.{answer_reply, refusal_reply};
ghost use Rattle.httpedge.specs.Connections.{Connection, ended, is_new, is_waiting, waiting, with_phase, with_written};
ghost use Rattle.httpedge.specs.Runs.{Steps};
ghost use Rattle.httpedge.specs.Steps.{Event, Refusal, State, comes, opening, opens, refusal};

/// A connection under a new id waits for its request, or, where as many are open as may be, has the reply that says so
/// and has ended.
pub fn connections_begin()
    ensures { (s t : State) (id : ℕ) → is_new s.connections id ≡ true → Steps s (opens id) t → fin.get t.connections id ≡ Some (opening s.connections) }
{}

/// The hub answers a call that opens no watch by its reply, and a request that it refuses by the refusal's, and the
/// connection has ended; while the bytes ask nothing yet it waits for more. One that opens a watch it answers by the
/// head of a watch (`watches_begin`).
pub fn replies_are_written()
    ensures answers { (s t : State) (id : ℕ) (bytes prefix : List ℕ) (c : Connection) (call : Call) → Steps s (comes id bytes) t → fin.get s.connections id ≡ Some c → c.phase ≡ waiting prefix
        → Asks s.types (prefix ++ bytes) (accepted call) → (planned s.types s.machine (at_tick s.last_tick call)).answer.watch ≡ None
        → fin.get t.connections id ≡ Some (with_written c (answer_reply (planned s.types s.machine (at_tick s.last_tick call)).answer) ended) }
    ensures refusals { (s t : State) (id : ℕ) (bytes prefix : List ℕ) (c : Connection) (d : Denied) → Steps s (comes id bytes) t → fin.get s.connections id ≡ Some c → c.phase ≡ waiting prefix
        → Asks s.types (prefix ++ bytes) (refused d) → fin.get t.connections id ≡ Some (with_written c (refusal_reply d) ended) }
    ensures waits { (s t : State) (id : ℕ) (bytes prefix : List ℕ) (c : Connection) → Steps s (comes id bytes) t → fin.get s.connections id ≡ Some c → c.phase ≡ waiting prefix
        → Asks s.types (prefix ++ bytes) undecided → fin.get t.connections id ≡ Some (with_phase c (waiting (prefix ++ bytes))) }
{}

/// An event that is refused changes nothing (`refused`), and neither do bytes on a connection that doesn't wait for them
/// (`unreceived`).
pub fn refused_stay()
    ensures refused { (s t : State) (e : Event) (why : Refusal) → refusal s e ≡ Some why → Steps s e t → t ≡ s }
    ensures unreceived { (s t : State) (id : ℕ) (bytes : List ℕ) (c : Connection) → Steps s (comes id bytes) t → fin.get s.connections id ≡ Some c → is_waiting c.phase ≡ false → t ≡ s }
{}
