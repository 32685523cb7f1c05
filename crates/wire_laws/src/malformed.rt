//! Law: bytes in which something is malformed begin no reply that a client takes.

ghost use Rattle.std.specs.Prelude.{◌≡◌, ℕ, List, [], ◌∷◌, ◌++◌, map, true};
ghost use Rattle.wireclient.specs.Reads.{Items, has_malformed};
ghost use Rattle.wireclient.specs.Reply.{ReplyItem, end, head, line, whole};

/// Where a client finds bytes malformed it stays so, whatever follows (`stays`): so they begin no reply with a body (`reply`)
/// and no watch that ends (`watch`). Each reply of the grammar within the limits is read as one of these
/// (`wireclient::reply_reads_back`, `chunks_read_back`).
pub fn malformed_is_final()
    ensures stays { (bytes more : List ℕ) (held items : List ReplyItem) → Items bytes held → has_malformed held ≡ true → Items (bytes ++ more) items → items ≡ held }
    ensures reply { (bytes more : List ℕ) (held : List ReplyItem) (code : ℕ) (body : List ℕ) → Items bytes held → has_malformed held ≡ true → ¬ Items (bytes ++ more) (head code ∷ whole body ∷ end ∷ []) }
    ensures watch { (bytes more : List ℕ) (held : List ReplyItem) (code : ℕ) (lines : List (List ℕ)) → Items bytes held → has_malformed held ≡ true → ¬ Items (bytes ++ more) (head code ∷ (map line lines ++ end ∷ [])) }
{
    wireclient::one_reading();
    wireclient::prefixes_stand();
}
