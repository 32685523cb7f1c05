//! Laws of pages; what a watch sees stands in `seen_laws`. Each function does nothing; what it promises is the law.

ghost use Rattle.std.specs.Prelude.{◌≡◌, ◌++◌, ◌&&◌, ℕ, ◌<◌, List, None, Option, Some, T, filter, length, take};
ghost use Rattle.std.specs.FinMap as fin;
ghost use Rattle.std.specs.FinMap.{is_sorted};
ghost use Rattle.history.specs.History.{Key, Object, Objects, key_cmp};
ghost use Rattle.history.specs.Page.{is_within, listed, page};
ghost use Rattle.history.specs.Seen.{IsLimit, Selection, seen_page, selected, IsPrefix, last_key, next_of, past};

/// Pages of any sizes above 0, each begun after the last key of the one before, are prefixes of the list, and where
/// no next page is named they are the list. The rows of a type and namespace after a place are such entries, and those of
/// them that a selection wants are the entries of the selection.
pub fn pages_make_the_list()
    ensures first { (size : ℕ) (s : Objects) → 0 < size → IsPrefix (fin.entries s) (take size (fin.entries s)) (next_of size (fin.entries s)) }
    ensures next { (size : ℕ) (s : Objects) (prefix : List (Key × Object)) (k : Key) → 0 < size → IsPrefix (fin.entries s) prefix (Some k)
        → IsPrefix (fin.entries s) (prefix ++ take size (past k (fin.entries s))) (next_of size (past k (fin.entries s))) }
    ensures whole { (s : Objects) (all : List (Key × Object)) → IsPrefix (fin.entries s) all None → fin.from_sorted all ≡ s }
    ensures rows { (kind : ℕ) (namespace : Option (List ℕ)) (s : Objects) → listed kind namespace None s ≡ fin.entries (selected (λ k _. is_within kind namespace k) s) }
    ensures rows_past { (namespace : Option (List ℕ)) (k : Key) (s : Objects) → listed k.kind namespace (Some (k.namespace, k.name)) s ≡ past k (fin.entries (selected (λ q _. is_within k.kind namespace q) s)) }
    ensures wanted { (kind : ℕ) (namespace : Option (List ℕ)) (wanted : Selection) (s : Objects)
        → filter (λ e. wanted e.0 e.1.body) (listed kind namespace None s) ≡ fin.entries (selected (λ k body. is_within kind namespace k && wanted k body) s) }
    ensures wanted_past { (namespace : Option (List ℕ)) (k : Key) (wanted : Selection) (s : Objects)
        → filter (λ e. wanted e.0 e.1.body) (listed k.kind namespace (Some (k.namespace, k.name)) s) ≡ past k (fin.entries (selected (λ q body. is_within k.kind namespace q && wanted q body) s)) }
{}

/// A list comes in pages: the first page is a prefix of it, a page that begins after the key which the pages before
/// name continues that prefix, and where no key is named the pages are the list. The keys of a prefix rise, so nothing
/// comes twice.
pub fn lists_come_in_pages()
    ensures first { (wanted : Selection) (limit : Option ℕ) (s : Objects) → IsLimit limit → IsPrefix (fin.entries (selected wanted s)) (seen_page wanted None limit s).found (seen_page wanted None limit s).next }
    ensures next { (wanted : Selection) (limit : Option ℕ) (s : Objects) (prefix : List (Key × Object)) (k : Key) → IsLimit limit → IsPrefix (fin.entries (selected wanted s)) prefix (Some k)
        → IsPrefix (fin.entries (selected wanted s)) (prefix ++ (seen_page wanted (Some k) limit s).found) (seen_page wanted (Some k) limit s).next }
    ensures whole { (wanted : Selection) (s : Objects) (all : List (Key × Object)) → IsPrefix (fin.entries (selected wanted s)) all None → all ≡ fin.entries (selected wanted s) }
    ensures rising { (wanted : Selection) (s : Objects) (prefix : List (Key × Object)) (next : Option Key) → IsPrefix (fin.entries (selected wanted s)) prefix next → T (is_sorted key_cmp prefix) }
{}

/// Rows can be read a few at a time: where fewer come than were asked for nothing is left, and else what is left is
/// what comes after the last of them.
pub fn rows_lead_on()
    ensures ended { (kind : ℕ) (namespace : Option (List ℕ)) (after : Option (List ℕ × List ℕ)) (max : ℕ) (s : Objects)
        → length (page kind namespace after max s) < max → listed kind namespace after s ≡ page kind namespace after max s }
    ensures more { (kind : ℕ) (namespace : Option (List ℕ)) (after : Option (List ℕ × List ℕ)) (max : ℕ) (s : Objects) (k : Key) → last_key (page kind namespace after max s) ≡ Some k
        → listed kind namespace after s ≡ page kind namespace after max s ++ listed kind namespace (Some (k.namespace, k.name)) s }
{}
