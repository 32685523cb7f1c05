//! Laws of reading, which crates above build on. Each function does nothing; what it promises is the law. Replies are
//! read in `reader`; that those of the server are read is said in the crate `wire_laws`.

ghost use Rattle.std.specs.Prelude.{◌≡◌, ◌≤◌, ◌<◌, ◌^◌, ℕ, List, [], ◌∷◌, ◌++◌, length, map, Option, None, Some, IsTrue, true};
ghost use Rattle.std.specs.Char.{is_ascii_hexdigit};
ghost use Rattle.std.specs.Fmt.{decimal};
ghost use Rattle.std.specs.List.{All, flat_map, list_all};
ghost use Rattle.httparse.specs.Grammar.{ResponseHead, IsResponseHead, print_response, status_code};
ghost use Rattle.httparse.specs.Spans.{name_and_value};
ghost use Rattle.wire.specs.Chunks.{Chunk, IsChunk, print_chunk, print_chunks};
ghost use Rattle.wire.specs.Heads.{max_fields, max_head};
ghost use Rattle.wire.specs.Lengths.{IsSize, length_in};
ghost use Rattle.wireclient.specs.LineLaws.{BeginsTooLong, HasNoFeed, IsLine, print_lines};
ghost use Rattle.wireclient.specs.Reads.{Items, ReaderRepresents, framed_by_length, framing_of, has_closed, max_body};
ghost use Rattle.wireclient.specs.Reply.{State, ReplyItem, by_chunks, by_length, end, head, line, malformed, max_line, whole};

use crate::head::check_head;

/// Bytes hold one list of items, and two readers that took the same bytes, however these were cut, stand alike.
pub fn one_reading()
    ensures items { (bytes : List ℕ) (items others : List ReplyItem) → Items bytes items → Items bytes others → items ≡ others }
    ensures readers { (bytes : List ℕ) (one other : Option State) → ReaderRepresents one bytes → ReaderRepresents other bytes → one ≡ other }
{}

/// Bytes, as they lie in memory, hold items: of each prefix of them it is decided whether it is a head, and of which status
/// and framing.
pub fn each_reads(bytes: &[u8])
    ensures { (items : List ReplyItem) × Items bytes.now items }
{
    for end in 0..bytes.len() {
        let _ = check_head(&bytes[..end + 1]);
    }
}

/// What a prefix of the bytes holds stands in what they all hold: bytes that hold items have prefixes that do, these
/// items are a prefix of those, and after an end or a bad byte no more come. A reply may be cut anywhere, and a watch
/// read at any time.
pub fn prefixes_stand()
    ensures prefix { (bytes more : List ℕ) (items : List ReplyItem) → Items (bytes ++ more) items → (before : List ReplyItem) × (after : List ReplyItem) × Items bytes before × (items ≡ before ++ after) }
    ensures same { (bytes more : List ℕ) (before items : List ReplyItem) → Items bytes before → Items (bytes ++ more) items → (after : List ReplyItem) × (items ≡ before ++ after) }
    ensures closed { (bytes more : List ℕ) (items : List ReplyItem) → Items bytes items → IsTrue (has_closed items) → Items (bytes ++ more) items }
{}

/// A printed reply reads back: a head of the grammar (RFC 9112, section 4) within the limits, of which one field
/// frames the body by its length, and the body are emitted as the status, the body and the end. A printed length
/// reads as itself.
pub fn reply_reads_back()
    ensures reply { (h : ResponseHead) (body : List ℕ) → IsResponseHead h → length (print_response h) ≤ max_head → length h.fields ≤ max_fields
        → framing_of (map name_and_value h.fields) ≡ Some (by_length (length body))
        → Items (print_response h ++ body) (head (status_code h) ∷ whole body ∷ end ∷ []) }
    ensures length { (n : ℕ) → n ≤ max_body → framed_by_length (length_in (decimal n)) ≡ Some (by_length n) }
{}

/// A printed reply in chunks reads back: a head of the grammar within the limits, of which one field frames the
/// body by chunks, chunks whose data are lines that end in line feeds, however the lines lie in them, and the last
/// chunk are emitted as the status, each line, and the end (RFC 9112, section 7.1).
pub fn chunks_read_back()
    ensures { (h : ResponseHead) (chunks : List Chunk) (last : List ℕ) (lines : List (List ℕ)) → IsResponseHead h → length (print_response h) ≤ max_head → length h.fields ≤ max_fields
        → framing_of (map name_and_value h.fields) ≡ Some by_chunks → All IsChunk chunks → IsSize last 0 → All IsLine lines → flat_map (λ c. c.content) chunks ≡ print_lines lines
        → Items (print_response h ++ print_chunks chunks last) (head (status_code h) ∷ (map line lines ++ end ∷ [])) }
{}

/// A printed watch that has not ended reads back: chunks whose data are lines that end in line feeds, and then the
/// beginning of a line, are emitted as the status and each whole line.
pub fn watch_reads_back()
    ensures { (h : ResponseHead) (chunks : List Chunk) (lines : List (List ℕ)) (rest : List ℕ) → IsResponseHead h → length (print_response h) ≤ max_head → length h.fields ≤ max_fields
        → framing_of (map name_and_value h.fields) ≡ Some by_chunks → All IsChunk chunks → All IsLine lines → HasNoFeed rest → length rest ≤ max_line → flat_map (λ c. c.content) chunks ≡ print_lines lines ++ rest
        → Items (print_response h ++ flat_map print_chunk chunks) (head (status_code h) ∷ map line lines) }
{}

/// A reply that is too long is malformed: a head of the grammar within the limit of which no field frames a body is emitted
/// as a bad byte and no more, whatever stands behind it, and a printed length over the limit frames none.
pub fn long_replies_are_malformed()
    ensures reply { (h : ResponseHead) (more : List ℕ) → IsResponseHead h → length (print_response h) ≤ max_head → framing_of (map name_and_value h.fields) ≡ None
        → Items (print_response h ++ more) (malformed ∷ []) }
    ensures length { (n : ℕ) → max_body < n → n < 2 ^ 64 → framed_by_length (length_in (decimal n)) ≡ None }
{}

/// A line that is too long is malformed: of chunks whose data are lines and then begin with one that is too long, the
/// status is emitted, each line before it, and a bad byte, whatever stands behind (`lines`). So it is of chunks of lines
/// and the size of another of more than 16 digits (`sizes`).
pub fn long_lines_are_malformed()
    ensures lines { (h : ResponseHead) (chunks : List Chunk) (lines : List (List ℕ)) (rest more : List ℕ) → IsResponseHead h → length (print_response h) ≤ max_head → length h.fields ≤ max_fields
        → framing_of (map name_and_value h.fields) ≡ Some by_chunks → All IsChunk chunks → All IsLine lines → BeginsTooLong rest → flat_map (λ c. c.content) chunks ≡ print_lines lines ++ rest
        → Items (print_response h ++ (flat_map print_chunk chunks ++ more)) (head (status_code h) ∷ (map line lines ++ malformed ∷ [])) }
    ensures sizes { (h : ResponseHead) (chunks : List Chunk) (lines : List (List ℕ)) (digits more : List ℕ) → IsResponseHead h → length (print_response h) ≤ max_head → length h.fields ≤ max_fields
        → framing_of (map name_and_value h.fields) ≡ Some by_chunks → All IsChunk chunks → All IsLine lines → flat_map (λ c. c.content) chunks ≡ print_lines lines
        → list_all is_ascii_hexdigit digits ≡ true → 16 < length digits
        → Items (print_response h ++ (flat_map print_chunk chunks ++ (digits ++ more))) (head (status_code h) ∷ (map line lines ++ malformed ∷ [])) }
{}
