//! Laws of what bytes ask and of replies, which crates above build on. Each function does nothing useful; what it
//! promises is the law. Bytes are read in `asking`, and replies stand in `reply`.

ghost use Rattle.std.specs.Prelude.{◌≡◌, ◌≢◌, ◌≤◌, ◌++◌, ℕ, List, Option, length, take};
ghost use Rattle.api_types.specs.TypesFile.{ServedShape};
ghost use Rattle.requests.specs.Asks.{CallDecision, Asks};
ghost use Rattle.answers.specs.WatchFrom.{WatchFrom};
ghost use Rattle.api_request.specs.Calls.{Answer, Denied};
ghost use Rattle.requests.specs.Decision.{undecided};
ghost use Rattle.requests.specs.KeptReplies.{answer_bytes_by, refusal_reply_by, reply_by, watch_head_by};
ghost use Rattle.requests.specs.Replies.{answer_bytes, refusal_reply};
ghost use Rattle.requests.specs.ReplyBytes.{reply, watch_head};
ghost use Rattle.requests.specs.RequestSizes.{Decides, HasRequestSize, IsRequestSize};
ghost use Rattle.requests.specs.declared.persistence.Persistence.TheVariants as persistence;

/// Bytes ask one thing; and what they ask stays asked, whatever bytes follow, once it is decided.
pub fn one_asked()
    ensures one { (types : List ServedShape) (bytes : List ℕ) (a b : CallDecision) → Asks types bytes a → Asks types bytes b → a ≡ b }
    ensures stays { (types : List ServedShape) (bytes more : List ℕ) (asked : CallDecision) → Asks types bytes asked → asked ≢ undecided → Asks types (bytes ++ more) asked }
{}

/// Bytes begin with one request at most, which stays whatever bytes follow: it alone says what they ask, and once that is
/// decided it has come whole.
pub fn one_size()
    ensures one { (types : List ServedShape) (bytes : List ℕ) (m n : ℕ) → IsRequestSize types bytes m → IsRequestSize types bytes n → m ≡ n }
    ensures stays { (types : List ServedShape) (bytes more : List ℕ) (n : ℕ) → IsRequestSize types bytes n → IsRequestSize types (bytes ++ more) n }
    ensures asks { (types : List ServedShape) (bytes : List ℕ) (n : ℕ) (asked : CallDecision) → IsRequestSize types bytes n → Asks types bytes asked → Asks types (take n bytes) asked }
    ensures came { (types : List ServedShape) (bytes : List ℕ) (n : ℕ) → HasRequestSize types bytes n → Decides types bytes → n ≤ length bytes }
{}

/// The last reply on a connection that is kept is, byte for byte, the reply on one that isn't.
pub fn last_replies()
    ensures replies { (code : ℕ) (allow : Option (List ℕ)) (body : List ℕ) → reply_by persistence.Last code allow body ≡ reply code allow body }
    ensures watches { (code : ℕ) → watch_head_by persistence.Last code ≡ watch_head code }
    ensures refusals { (denied : Denied) → refusal_reply_by persistence.Last denied ≡ refusal_reply denied }
    ensures answers { (a : Answer) (from : Option WatchFrom) → answer_bytes_by persistence.Last a from ≡ answer_bytes a from }
{}
