//! Lengths in decimal digits, as a Content-Length has them (RFC 9110, section 8.6). The field that has one is found by
//! its name, in `field`.

ghost use Rattle.std.specs.Prelude.{◌≡◌, ◌<◌, ◌≤◌, MatchOption};
ghost use Rattle.std.specs.Char.{is_ascii_digit};
ghost use Rattle.std.specs.List.{list_all};
ghost use Rattle.wire.specs.Lengths.{decimal_value, is_length};

fn are_digits(value: &[u8]) -> bool
    ensures { result ≡ list_all is_ascii_digit value.now }
{
    for byte in value {
        if !byte.is_ascii_digit() {
            return false;
        }
    }
    true
}

/// Whether a value is a length: one or more digits.
pub fn is_length(value: &[u8]) -> bool
    ensures { result ≡ is_length value.now }
{
    if value.is_empty() {
        return false;
    }
    are_digits(value)
}

/// The number that digits write, where it is at most `max`, a limit below 2^60.
pub fn decimal_value(digits: &[u8], max: usize) -> Option<usize>
    requires { max < 1152921504606846976 }
    ensures { MatchOption result (max < decimal_value digits.now) (λ n. (n ≡ decimal_value digits.now) × (n ≤ max)) }
{
    let mut number = 0;
    for digit in digits {
        number = number * 10 + usize::from(digit.saturating_sub(b'0'));
        if number > max {
            return None;
        }
    }
    Some(number)
}
