//! What lies at a pointer.

ghost use Rattle.std.specs.Prelude.{◌≡◌, ◌==◌, map, option_map, slice_index, string_bytes};
ghost use Rattle.serde_json.specs.Find.{index_of};
ghost use Rattle.serde_json.specs.View.{view};
ghost use Rattle.json_patch.specs.Places.{child, find};

use crate::pointer::Pointer;
use fast_float::Numeral;
use serde_json::Value;

fn starts_with_zero(digits: &[u8]) -> bool
    ensures { result ≡ (slice_index digits.now 0 == 48) }
{
    !digits.is_empty() && digits[0] == b'0'
}

/// The index that a token is: digits, with no 0 before another.
pub(crate) fn index(token: &str) -> Option<usize>
    ensures { result ≡ index_of token.now }
{
    let digits = token.as_bytes();
    let numeral = Numeral::scan(digits);
    let index = numeral.to_u64()?;
    if (numeral.len() == digits.len()) & ((digits.len() == 1) | !starts_with_zero(digits)) {
        Some(index as usize)
    } else {
        None
    }
}

/// What lies at one token.
fn child<'a>(value: &'a Value, token: &str) -> Option<&'a Value>
    ensures { option_map (λ v. view v.now) result ≡ child token.now (view value.now) }
{
    match value {
        Value::Object(members) => json_values::member(members, token),
        Value::Array(_) => value.get(index(token)?),
        _ => None,
    }
}

/// What lies at these tokens.
fn find<'a>(value: &'a Value, tokens: &[String]) -> Option<&'a Value>
    ensures { option_map (λ v. view v.now) result ≡ find (map string_bytes tokens.now) (view value.now) }
{
    let mut found = value;
    for token in tokens {
        found = child(found, token.as_str())?;
    }
    Some(found)
}

impl Pointer {
    /// What lies at the pointer in this value.
    pub fn find<'a>(&self, value: &'a Value) -> Option<&'a Value>
        ensures { option_map (λ v. view v.now) result ≡ find self.now (view value.now) }
    {
        find(value, self.tokens())
    }
}
