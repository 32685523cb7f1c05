//! Laws of tokens and of the pages that they lead to; the text of a list stands in `laws`. Each function does nothing;
//! what it promises is the law.

ghost use Rattle.std.specs.Prelude.{◌≡◌, [], ◌++◌, ◌<◌, ◌≤◌, ℕ, List, None, Option, Some, length};
ghost use Rattle.std.specs.List.{All};
ghost use Rattle.std.specs.declared.result.Result.TheVariants.{Ok};
ghost use Rattle.form_urlencoded.specs.Form.{extend_pairs};
ghost use Rattle.history.specs.History.{Key, Object, Objects, last_revision};
ghost use Rattle.history.specs.Seen.{limited, IsPrefix, last_key, past};
ghost use Rattle.selector.specs.Grammar.{parse_selector};
ghost use Rattle.selector.specs.Requirement.{Requirement};
ghost use Rattle.params.specs.declared.parameter.Parameter.TheVariants as parameter;
ghost use Rattle.params.specs.declared.params.Asked.TheVariants as asked;
ghost use Rattle.params.specs.Query.{Pairs, pairs_in, value_of};
ghost use Rattle.params.specs.Reading.{params_of, token_in};
ghost use Rattle.params.specs.Values.{Values, no_values};
ghost use Rattle.lists.specs.Body.{Collection, continued_at, list_text};
ghost use Rattle.lists.specs.Lists.{key_after, list_of, page_limit, page_of};
ghost use Rattle.lists.specs.TokenLaws.{CanBeListed, IsText, IsTextPair, next_pairs, token_after, whole_list};

/// The token that a page prints, percent-encoded into a query as a client does, is read as exactly the page's
/// revision and its last object, whatever else the query says; and the query by which a client asks for the next page
/// is read as its limit, this token and the requirements of its selector, and nothing else.
pub fn tokens_are_read()
    ensures token { (revision : ℕ) (k : Key) (pairs : Pairs) → CanBeListed revision k → All IsTextPair pairs → value_of parameter.Continue pairs ≡ continued_at revision k
        → token_in (pairs_in (extend_pairs [] pairs)) ≡ Ok (Some (token_after revision k)) }
    ensures query { (revision limit : ℕ) (k : Key) (labels : List ℕ) (requirements : List Requirement) → CanBeListed revision k → limit ≤ last_revision → IsText labels → parse_selector labels ≡ Ok requirements
        → params_of asked.List (pairs_in (extend_pairs [] (next_pairs limit (continued_at revision k) labels))) ≡ Ok (record no_values { token = Some (token_after revision k); limit = limit; selector = requirements }) }
{}

/// A page that names a next one names the last object that it shows. The page that is asked for with its token is of
/// the token's revision, as long as that is not compacted, begins exactly after this object and shows at least one. So
/// the pages, joined, are a prefix of the whole list at the revision, come to an end, and are all of it where no next
/// page is named; which is also what is listed at once without a limit.
pub fn pages_go_on()
    ensures last { (of : Collection) (values : Values) (s : Objects) (k : Key) → (page_of of values s).next ≡ Some k → last_key (page_of of values s).found ≡ Some k }
    ensures revision { (of : Collection) (values : Values) (current compacted revision : ℕ) (at : ℕ → Objects) (k : Key) → values.token ≡ Some (token_after revision k) → compacted ≤ revision → revision ≤ current
        → list_of of values current compacted at ≡ Ok (list_text of revision (page_of of values (at revision))) }
    ensures after { (of : Collection) (before values : Values) (revision : ℕ) (s : Objects) (k : Key) → (page_of of before s).next ≡ Some k → values.token ≡ Some (token_after revision k)
        → page_of of values s ≡ limited (page_limit values.limit) (past k (whole_list of values.selector s)) }
    ensures first { (of : Collection) (values : Values) (s : Objects) → values.token ≡ None → IsPrefix (whole_list of values.selector s) (page_of of values s).found (page_of of values s).next }
    ensures next { (of : Collection) (before values : Values) (revision : ℕ) (s : Objects) (prefix : List (Key × Object)) (k : Key) → (page_of of before s).next ≡ Some k → values.token ≡ Some (token_after revision k)
        → IsPrefix (whole_list of values.selector s) prefix (Some k) → IsPrefix (whole_list of values.selector s) (prefix ++ (page_of of values s).found) (page_of of values s).next }
    ensures more { (of : Collection) (before values : Values) (revision : ℕ) (s : Objects) (k : Key) → (page_of of before s).next ≡ Some k → values.token ≡ Some (token_after revision k)
        → values.selector ≡ before.selector → 0 < length (page_of of values s).found }
    ensures whole { (of : Collection) (requirements : List Requirement) (s : Objects) (all : List (Key × Object)) → IsPrefix (whole_list of requirements s) all None → all ≡ whole_list of requirements s }
    ensures at_once { (of : Collection) (values : Values) (s : Objects) → values.token ≡ None → values.limit ≡ 0 → (page_of of values s).found ≡ whole_list of values.selector s }
{}
