//! The whole numbers that a text's numbers write. Whether all of a value's numbers are whole is asked in `order`.

ghost use Rattle.std.specs.Prelude.{◌≡◌, ◌<◌, ◌==◌, IsTrue, false, length, option_map, slice_index, true};
ghost use Rattle.serde_json.specs.Read.{number_of};
ghost use Rattle.serde_json.specs.View.{number_view};
ghost use Rattle.json_texts.specs.InOrder.{is_whole};
ghost use Rattle.json_texts.specs.Whole.{unless_float, whole_from};

use fast_float::Numeral;
use serde_json::Number;

fn unsigned(numeral: &Numeral<'_>) -> Option<Number>
    ensures { option_map number_view result ≡ whole_from false numeral.now }
{
    match numeral.to_u64() {
        Some(number) => Some(Number::from(number)),
        None => None,
    }
}

fn negative(numeral: &Numeral<'_>) -> Option<Number>
    ensures { option_map number_view result ≡ whole_from true numeral.now }
{
    if let Some(number) = numeral.to_i64(true) {
        if number < 0 {
            return Some(Number::from(number));
        }
    }
    None
}

fn has_minus(bytes: &[u8]) -> bool
    ensures value { result ≡ (slice_index bytes.now 0 == 45) }
    ensures len { IsTrue result → 0 < length bytes.now }
{
    !bytes.is_empty() && bytes[0] == b'-'
}

/// The whole number within 64 bits that a number's text writes; none where it writes a float.
pub(crate) fn whole_number(text: &str) -> Option<Number>
    ensures { option_map number_view result ≡ unless_float (number_of text.now) }
{
    let bytes = text.as_bytes();
    if has_minus(bytes) {
        negative(&Numeral::scan(&bytes[1..]))
    } else {
        unsigned(&Numeral::scan(bytes))
    }
}

/// Whether a number's text writes a whole number within 64 bits.
pub(crate) fn is_whole(text: &str) -> bool
    ensures { result ≡ is_whole (number_of text.now) }
{
    whole_number(text).is_some()
}
