//! Cuts the text of a selector at the commas outside of brackets. What a part says is read in `requirement`.

ghost use Rattle.std.specs.Prelude.{◌≡◌, ◌<◌, Bool, List, length, option_map, IfSome, true, false};
ghost use Rattle.selector.specs.Grammar.{trimmed, without_trailing_blanks, are_paired, first_part, cut_at_sign, Sign};

/// Without the spaces at both ends.
pub(crate) fn trimmed(text: &str) -> &str
    ensures { result.now ≡ trimmed text.now }
{
    text.trim_start_matches(' ').trim_end_matches(' ')
}

/// Whether each bracket is closed, and none opens inside another.
pub(crate) fn has_paired_brackets(text: &str) -> bool
    ensures { result ≡ are_paired false text.now }
{
    let mut is_inside = false;
    for byte in text.as_bytes() {
        match *byte {
            b'(' if is_inside => return false,
            b'(' => is_inside = true,
            b')' if !is_inside => return false,
            b')' => is_inside = false,
            _ => {}
        }
    }
    !is_inside
}

/// The text up to the first comma outside brackets, and what comes after it, if there is one.
pub(crate) fn first_part(text: &str) -> (&str, Option<&str>)
    ensures prefix { result.0.now ≡ (first_part false text.now).0 }
    ensures rest { option_map (λ r. r.now) result.1 ≡ (first_part false text.now).1 }
    ensures shorter { IfSome result.1 (λ r. length r.now < length text.now) }
{
    let mut is_inside = false;
    for (i, byte) in text.as_bytes().iter().enumerate() {
        match *byte {
            b',' if !is_inside => return (&text[..i], Some(&text[i + 1..])),
            b'(' => is_inside = true,
            b')' => is_inside = false,
            _ => {}
        }
    }
    (text, None)
}
