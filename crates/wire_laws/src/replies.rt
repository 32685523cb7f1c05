//! Laws: the client reads the replies that the server prints. Watches stand in `watches`.

ghost use Rattle.std.specs.Prelude.{◌≡◌, ◌≤◌, ◌<◌, ◌^◌, ℕ, List, [], ◌∷◌, length, IsUtf8, None, Ok, Option, Some, slice_get};
ghost use Rattle.http.specs.StatusCode.{IsStatusCode};
ghost use Rattle.serde_json.specs.Written.{compact_text};
ghost use Rattle.api_types.specs.TypesFile.{ServedShape};
ghost use Rattle.api_request.specs.Calls.{Call, Denied};
ghost use Rattle.history.specs.History.{History, state_at};
ghost use Rattle.params.specs.Values.{Values};
ghost use Rattle.lists.specs.Lists.{page_of};
ghost use Rattle.lists.specs.Revision.{revision_of};
ghost use Rattle.decoder.specs.Wanted.{Wanted};
ghost use Rattle.line_laws.specs.Listed.{AreKept, IsReadAsPage, IsWanted};
ghost use Rattle.verbs.specs.Machine.{IsMachine};
ghost use Rattle.api_request.specs.Reasons.{code_of};
ghost use Rattle.api_request.specs.Status.{status_value};
ghost use Rattle.verbs.specs.Step.{collection_of, planned};
ghost use Rattle.requests.specs.Asks.{Asks};
ghost use Rattle.requests.specs.Decision.{refused};
ghost use Rattle.requests.specs.Refusals.{as_denied, too_many_connections};
ghost use Rattle.requests.specs.ReplyBytes.{reply};
ghost use Rattle.requests.specs.Replies.{answer_reply, refusal_reply};
ghost use Rattle.wireclient.specs.Reads.{Items, max_body};
ghost use Rattle.wireclient.specs.Reply.{end, head, whole};
ghost use Rattle.wire_laws.specs.Listings.{IsListing};
ghost use Rattle.wire_laws.specs.Printed.{IsAllowed};
ghost use Rattle.wire_laws.specs.Replied.{reply_sent};

/// A reply that the server prints (RFC 9112, section 4), of any status, is read by the client as this status, this
/// body and the end, and as malformed where the body is too long for a client (`replies`). `short` is of a body that
/// isn't. A body of 2^64 bytes and more is none that memory has.
pub fn replies_are_read()
    ensures replies { (code : ℕ) (allow : Option (List ℕ)) (body : List ℕ) → IsStatusCode code → IsAllowed allow → length body < 2 ^ 64
        → Items (reply code allow body) (reply_sent code body) }
    ensures short { (code : ℕ) (body : List ℕ) → length body ≤ max_body → reply_sent code body ≡ head code ∷ whole body ∷ end ∷ [] }
{
    wireclient::reply_reads_back();
    wireclient::long_replies_are_malformed();
}

/// A refusal that the hub writes, of what bytes ask or because too many connections are open, is read by the client as its
/// status, its Status object and the end.
pub fn refusals_are_read()
    ensures asked { (types : List ServedShape) (bytes : List ℕ) (d : Denied) → Asks types bytes (refused d)
        → Items (refusal_reply d) (head (code_of d.reason) ∷ whole (compact_text (status_value d.reason d.message)) ∷ end ∷ []) }
    ensures full { (d : Denied) → d ≡ as_denied too_many_connections
        → Items (refusal_reply d) (head (code_of d.reason) ∷ whole (compact_text (status_value d.reason d.message)) ∷ end ∷ []) }
{
    replies_are_read();
}

/// The answer of a call is read by the client as its status, its body and the end, and as malformed where the body is
/// too long for a client.
pub fn answers_are_read()
    ensures { (types : List ServedShape) (m : History) (call : Call) → length (planned types m call).answer.body < 2 ^ 64
        → Items (answer_reply (planned types m call).answer) (reply_sent (planned types m call).answer.status (planned types m call).answer.body) }
{
    replies_are_read();
}

/// Each text of a served type that a machine has at a revision is that of the object of its key, at its version
/// (`kept`). So a client that asks for the type reads the answer of a call that lists it as the page that was asked
/// for: the list's revision, where the list goes on, and for each object, in order, what its text says (`pages`).
pub fn lists_are_read()
    ensures kept { (types : List ServedShape) (m : History) (t : ServedShape) (kind : ℕ) (namespace : Option (List ℕ)) (r : ℕ) → IsMachine types m → slice_get types kind ≡ Some t
        → AreKept (collection_of t kind namespace) (state_at m.changes r) }
    ensures pages { (wanted : Wanted) (types : List ServedShape) (m : History) (call : Call) (t : ServedShape) (kind : ℕ) (namespace : Option (List ℕ)) (values : Values) (revision : ℕ) → IsMachine types m
        → IsListing types call t kind namespace values → IsWanted wanted (collection_of t kind namespace) → revision_of m.current m.compacted values ≡ Ok revision → IsUtf8 (planned types m call).answer.body
        → IsReadAsPage wanted (planned types m call).answer.body revision (page_of (collection_of t kind namespace) values (state_at m.changes revision)) }
{
    verbs::texts_say_states();
    line_laws::pages_are_read();
}
