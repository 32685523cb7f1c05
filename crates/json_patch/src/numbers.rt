//! When two numbers are equal: exactly, whatever they are written as.

ghost use Rattle.std.specs.Prelude.{◌≡◌, false, pos};
ghost use Rattle.std.specs.Float.{fin};
ghost use Rattle.std.specs.Float.Ieee.{eq};
ghost use Rattle.serde_json.specs.Find.{to_float};
ghost use Rattle.serde_json.specs.View.{number_view};
ghost use Rattle.json_patch.specs.Equality.{integer, same_number, whole};

use serde_json::Number;
use std::num::{nearest_u64_to_f64, saturating_f64_to_u64};

/// Up to 2^53 a float holds each integer.
const EXACT: u64 = 9007199254740992;

/// An integer's sign, true where it is negative, and its size.
fn integer(number: &Number) -> Option<(bool, u64)>
    ensures { result ≡ integer (number_view number.now) }
{
    if let Some(size) = number.as_u64() {
        return Some((false, size));
    }
    let below_zero = number.as_i64()?;
    Some((true, below_zero.unsigned_abs()))
}

fn nearest_float(number: &Number) -> f64
    ensures { result ≡ to_float (number_view number.now) }
{
    number.as_f64().unwrap()
}

/// Whether a float is this integer, from 0 up.
fn is_unsigned(float: f64, size: u64) -> bool
    ensures { result ≡ eq (fin false size (pos 0)) float }
{
    if size <= EXACT {
        nearest_u64_to_f64(size) == float
    } else if float < 18446744073709551616.0 {
        // A float of this size has no fraction.
        saturating_f64_to_u64(float) == size
    } else {
        false
    }
}

/// Whether a float is this integer.
fn is_integer(float: f64, integer: (bool, u64)) -> bool
    ensures { result ≡ eq (whole integer) float }
{
    let (is_negative, size) = integer;
    if is_negative {
        is_unsigned(-float, size)
    } else {
        is_unsigned(float, size)
    }
}

fn same_integer(a: (bool, u64), b: (bool, u64)) -> bool
    ensures { result ≡ eq (whole a) (whole b) }
{
    (a.1 == b.1) & ((a.0 == b.0) | (a.1 == 0))
}

/// Whether two numbers are equal, as 1 and 1.0 are.
pub(crate) fn same_number(a: &Number, b: &Number) -> bool
    ensures { result ≡ same_number (number_view a.now) (number_view b.now) }
{
    match (integer(a), integer(b)) {
        (Some(a), Some(b)) => same_integer(a, b),
        (Some(a), None) => is_integer(nearest_float(b), a),
        (None, Some(b)) => is_integer(nearest_float(a), b),
        (None, None) => nearest_float(a) == nearest_float(b),
    }
}
