//! Whole numbers as texts, and versions (Kubernetes documentation, "Kubernetes API Concepts", "Resource versions").
//! Names are checked in `dns`, labels in `label`.

ghost use Rattle.std.specs.Prelude.{◌≡◌, ◌↔◌, ℕ};
ghost use Rattle.std.specs.Char.{is_ascii_digit};
ghost use Rattle.std.specs.List.{list_all};
ghost use Rattle.names.specs.Decimals.{IsDecimalOf, is_decimal, decimal_up_to, version_of};

/// The highest version that a text can name: the highest 64-bit signed integer.
pub const LAST_VERSION: u64 = i64::MAX as u64;

fn has_digits(text: &str) -> bool
    ensures { result ≡ list_all is_ascii_digit text.now }
{
    text.as_bytes().iter().all(|byte| byte.is_ascii_digit())
}

fn is_decimal(text: &str) -> bool
    ensures { result ≡ is_decimal text.now }
{
    match text.as_bytes().first() {
        None => false,
        Some(b'0') => text.len() == 1,
        Some(_) => has_digits(text),
    }
}

/// The number that a text is the decimal of, without leading zeros, where it is at most `max`.
pub fn decimal_up_to(max: u64, text: &str) -> Option<u64>
    ensures { result ≡ decimal_up_to max text.now }
{
    if !is_decimal(text) {
        return None;
    }
    match text.parse::<u64>() {
        Ok(number) if number <= max => Some(number),
        _ => None,
    }
}

/// The version that a text is: a decimal without leading zeros, at most 9223372036854775807.
pub fn version_of(text: &str) -> Option<u64>
    ensures value { result ≡ version_of text.now }
    ensures exact { (n : ℕ) → (result ≡ Some n) ↔ IsDecimalOf LAST_VERSION text.now n }
{
    decimal_up_to(LAST_VERSION, text)
}
