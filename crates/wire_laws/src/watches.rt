//! Laws: the client reads what the server writes of a watch. Other replies stand in `replies`.

ghost use Rattle.std.specs.Prelude.{◌+◌, ◌<◌, length, ◌≡◌, ◌++◌, ℕ, Bool, true, false, List, map, Some, nat_lt, ◌==◌};
ghost use Rattle.std.specs.FinMap as fin;
ghost use Rattle.std.specs.List.{All, flat_map};
ghost use Rattle.http.specs.StatusCode.{IsStatusCode};
ghost use Rattle.api_request.specs.Calls.{Call, at_tick};
ghost use Rattle.verbs.specs.Step.{planned};
ghost use Rattle.watchline.specs.Lines.{line};
ghost use Rattle.answers.specs.WatchFrom.{WatchFrom};
ghost use Rattle.watchline.specs.declared.event.EventType.{EventType};
ghost use Rattle.requests.specs.Asks.{Asks};
ghost use Rattle.httpedge.specs.Connections.{Connection, ended_on, waiting, watching, watching_on, with_written, written_on};
ghost use Rattle.requests.specs.Decision.{accepted};
ghost use Rattle.requests.specs.ReplyBytes.{chunks, watch_head};
ghost use Rattle.httpedge.specs.Runs.{Follows, Action, Steps};
ghost use Rattle.httpedge.specs.Steps.{State, comes, pumps, phase_after, ticks, turn_bytes};
ghost use Rattle.httpedge.specs.Watches.{Watch, begun_at, pumped, ticked};
ghost use Rattle.line_laws.specs.Shown.{shown};
ghost use Rattle.wireclient.specs.LineLaws.{HasNoFeed, IsLine, with_feed};
ghost use Rattle.wireclient.specs.Reads.{Items};
ghost use Rattle.wireclient.specs.Reply as reply;
ghost use Rattle.wireclient.specs.Reply.{ReplyItem};
ghost use Rattle.wire_laws.specs.Watched.{joined, lines_sent, sent_of};

/// A line of a watch has one line feed, its last byte, where the text of its object has none, and what stands around
/// that text is less than 64 bytes.
pub fn texts_are_lines()
    ensures feeds { (what : EventType) (text : List ℕ) → line what text ≡ with_feed (shown what text) }
    ensures plain { (what : EventType) (text : List ℕ) → HasNoFeed text → HasNoFeed (shown what text) }
    ensures room { (what : EventType) (text : List ℕ) → length (shown what text) < length text + 64 }
{}

/// The head of a watch and its chunks, a chunk for each line, are read by the client as the status, each line, and the
/// end where the watch has ended; where a line is too long for a client, as the status, the lines before it, and
/// malformed (`lines`). `short` is of lines of which none is too long.
pub fn watches_are_read()
    ensures lines { (code : ℕ) (texts : List (List ℕ)) (has_ended : Bool) → IsStatusCode code → All HasNoFeed texts
        → Items (watch_head code ++ chunks (map with_feed texts) has_ended) (sent_of code texts has_ended) }
    ensures short { (texts : List (List ℕ)) (last : List ReplyItem) → All IsLine texts → lines_sent texts last ≡ map reply.line texts ++ last }
{
    wireclient::chunks_read_back();
    wireclient::watch_reads_back();
    wireclient::long_lines_are_malformed();
}

/// The same of a watch that is written in turns: the lines of each turn come one after the other, however they lie in
/// the turns.
pub fn turns_are_read()
    ensures { (code : ℕ) (turns : List (List (List ℕ))) (last : List (List ℕ)) (has_ended : Bool) → IsStatusCode code → All HasNoFeed (joined turns ++ last)
        → Items (watch_head code ++ (flat_map (λ texts. chunks (map with_feed texts) false) turns ++ chunks (map with_feed last) has_ended)) (sent_of code (joined turns ++ last) has_ended) }
{
    watches_are_read();
}

/// The hub answers a call that opens a watch by the head of a watch, and the connection watches from then on.
pub fn watches_begin()
    ensures { (s t : State) (id : ℕ) (bytes prefix : List ℕ) (c : Connection) (call : Call) (from : WatchFrom) → Steps s (comes id bytes) t → fin.get s.connections id ≡ Some c → c.phase ≡ waiting prefix
        → Asks s.types (prefix ++ bytes) (accepted call) → (planned s.types s.machine (at_tick s.last_tick call)).answer.watch ≡ Some from
        → fin.get t.connections id ≡ Some (with_written c (watch_head (planned s.types s.machine (at_tick s.last_tick call)).answer.status) (watching (begun_at s.last_tick from))) }
{}

/// A watch writes the chunks of its turn at a pump and at a tick, and then stands where the turn leads.
pub fn turns_are_written()
    ensures pumps { (s t : State) (id max : ℕ) (c : Connection) (w : Watch) → Steps s (pumps id max) t → fin.get s.connections id ≡ Some c → c.phase ≡ watching w → (max == 0) ≡ false
        → fin.get t.connections id ≡ Some (with_written c (turn_bytes (pumped s.machine max w)) (phase_after (pumped s.machine max w).next)) }
    ensures ticks { (s t : State) (ms id : ℕ) (c : Connection) (w : Watch) → Steps s (ticks ms) t → fin.get s.connections id ≡ Some c → c.phase ≡ watching w → nat_lt ms s.last_tick ≡ false
        → fin.get t.connections id ≡ Some (with_written c (turn_bytes (ticked s.types ms w)) (phase_after (ticked s.types ms w).next)) }
{}

/// On a connection that watches nothing is written but chunks of lines, and the last chunk, whatever happens.
pub fn watches_write_chunks()
    ensures { (s t : State) (h : Action) (id : ℕ) → Follows s h t → watching_on s.connections id ≡ true
        → (lines : List (List ℕ)) × (has_ended : Bool) × (written_on t.connections id ≡ written_on s.connections id ++ chunks lines has_ended) }
{}

/// Nothing more is written on a connection that has ended, whatever happens.
pub fn ends_are_silent()
    ensures { (s t : State) (h : Action) (id : ℕ) → Follows s h t → ended_on s.connections id ≡ true → written_on t.connections id ≡ written_on s.connections id }
{}
