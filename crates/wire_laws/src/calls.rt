//! Laws: the server reads the requests that the client prints. Replies stand in `replies`.

ghost use Rattle.std.specs.Prelude.{◌≡◌, ◌≤◌, ℕ, List, [], ◌∷◌, ◌++◌, length, true, false, Option, Some, None};
ghost use Rattle.std.specs.List.{All, list_any};
ghost use Rattle.form_urlencoded.specs.Form.{extend_pairs};
ghost use Rattle.lists.specs.TokenLaws.{IsTextPair};
ghost use Rattle.params.specs.Query.{pairs_in};
ghost use Rattle.api_types.specs.TypesFile.{ServedShape};
ghost use Rattle.requests.specs.Asks.{Asks};
ghost use Rattle.requests.specs.Bodies.{body_in, max_body, needs_body, path_of, query_of, some_json, json_in};
ghost use Rattle.requests.specs.Heads.{ReadsHead};
ghost use Rattle.requests.specs.Decision.{accepted};
ghost use Rattle.requests.specs.Refusals.{head_too_large, refuse};
ghost use Rattle.wireclient.specs.Request.{body_bytes, request};
ghost use Rattle.wire_laws.specs.Printed.{IsPrinted, IsTooLong, asked_with, asked_without, is_question, said_of};

/// A request that the client prints (RFC 9112, section 3) says on the server this method, this target and this media
/// type, and its body stands after the head.
pub fn requests_are_read()
    ensures { (method request_target : List ℕ) (body : Option (List ℕ × List ℕ)) → IsPrinted method request_target body
        → ReadsHead (request method request_target body) (accepted (said_of method request_target body, body_bytes body)) }
{}

/// A request whose head is too long for a server is refused as that, whatever it asks.
pub fn long_requests_are_refused()
    ensures reads { (method request_target : List ℕ) (body : Option (List ℕ × List ℕ)) → IsTooLong method request_target body → ReadsHead (request method request_target body) (refuse head_too_large) }
    ensures asks { (types : List ServedShape) (method request_target : List ℕ) (body : Option (List ℕ × List ℕ)) → IsTooLong method request_target body
        → Asks types (request method request_target body) (refuse head_too_large) }
{}

/// The body of such a request, where its method needs one, is read as what these bytes are as JSON.
pub fn bodies_are_read()
    ensures { (method request_target media bytes : List ℕ) → needs_body method ≡ true → length bytes ≤ max_body
        → body_in (said_of method request_target (Some (media, bytes))) bytes ≡ some_json (json_in bytes) }
{}

/// A request that the client prints asks what its path, its method and its media type lead to, with its query and with
/// what its body is as JSON, where its method needs a body and the body isn't too long. Without a body, where its method
/// needs none, it asks the same of its path and its method, with its query or with none.
pub fn requests_ask()
    ensures with_body { (types : List ServedShape) (method path query media bytes : List ℕ) → list_any is_question path ≡ false → needs_body method ≡ true → length bytes ≤ max_body
        → IsPrinted method (path ++ 63 ∷ query) (Some (media, bytes))
        → Asks types (request method (path ++ 63 ∷ query) (Some (media, bytes))) (asked_with types method path query media bytes) }
    ensures without_body { (types : List ServedShape) (method path query : List ℕ) → list_any is_question path ≡ false → needs_body method ≡ false
        → IsPrinted method (path ++ 63 ∷ query) None → Asks types (request method (path ++ 63 ∷ query) None) (asked_without types method path query) }
    ensures without_query { (types : List ServedShape) (method path : List ℕ) → list_any is_question path ≡ false → needs_body method ≡ false
        → IsPrinted method path None → Asks types (request method path None) (asked_without types method path []) }
{}

/// A path and a form of pairs after a question mark: the path and the pairs come back.
pub fn queries_are_read()
    ensures path { (path query : List ℕ) → list_any is_question path ≡ false → path_of (path ++ 63 ∷ query) ≡ path }
    ensures pairs { (path : List ℕ) (pairs : List (List ℕ × List ℕ)) → list_any is_question path ≡ false → All IsTextPair pairs → pairs_in (query_of (path ++ 63 ∷ extend_pairs [] pairs)) ≡ pairs }
{}
