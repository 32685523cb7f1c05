//! What the hub writes of an answer, and of the turns of a watch over a machine. That a client reads it is said in
//! `replies` and `watches`.

ghost use Rattle.std.specs.Prelude.{◌≡◌, ◌<◌, ◌^◌, ℕ, IsUtf8, List, None, length};
ghost use Rattle.std.specs.List.{AllByRecursion};
ghost use Rattle.api_types.specs.TypesFile.{ServedShape};
ghost use Rattle.history.specs.History.{History};
ghost use Rattle.watchline.specs.Watches.{Cursor, coming, from_history};
ghost use Rattle.api_request.specs.Calls.{Call};
ghost use Rattle.verbs.specs.Machine.{AreUnicode, IsMachine};
ghost use Rattle.verbs.specs.Step.{planned};
ghost use Rattle.requests.specs.Replies.{answer_bytes};
ghost use Rattle.httpedge.specs.Watches.{Watch, pumped, ticked};
ghost use Rattle.wireclient.specs.Reads.{Items};
ghost use Rattle.wire_laws.specs.Replied.{reply_sent};
ghost use Rattle.wire_laws.specs.TurnLines.{AreLines};

use crate::replies::answers_are_read;

/// What the hub writes of an answer that opens no watch is read by the client as its status, its body and the end, and
/// as malformed where the body is too long for a client. Of one that opens a watch it writes the head (`watches_begin`).
pub fn answers_are_written()
    ensures { (types : List ServedShape) (m : History) (call : Call) → (planned types m call).answer.watch ≡ None → length (planned types m call).answer.body < 2 ^ 64
        → Items (answer_bytes (planned types m call).answer (planned types m call).answer.watch) (reply_sent (planned types m call).answer.status (planned types m call).answer.body) }
{
    answers_are_read();
}

/// Over a machine each line of a watch's turn is a text without a line feed, and then its line feed, at a pump and at a
/// tick: so `turns_are_read` says what the client reads of the turns. The text of each object that is still to be told
/// is UTF-8 (`texts`), where each body is, as in the machine that an API stands for.
pub fn turns_are_lines()
    ensures pumps { (types : List ServedShape) (m : History) (max : ℕ) (w : Watch) → IsMachine types m → AreLines (pumped m max w).lines }
    ensures ticks { (types : List ServedShape) (ms : ℕ) (w : Watch) → AreLines (ticked types ms w).lines }
    ensures texts { (m : History) (w : Cursor) → AreUnicode m.changes → AllByRecursion (λ x. IsUtf8 x.object.body) (coming (from_history m) w) }
{}
