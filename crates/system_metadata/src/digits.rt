//! The last digits of a number, written with any letters. Uids are written in `uids`, names in `generated`.

ghost use Rattle.std.specs.Prelude.{◌≡◌, ◌<◌, ◌++◌, true, length, OnOk, string_bytes};
ghost use Rattle.std.specs.Char.{is_ascii};
ghost use Rattle.std.specs.List.{list_all};
ghost use Rattle.system_metadata.specs.Digits.{last_digits};

use std::alloc::AllocError;

/// Appends so many of them, to the base of how many letters there are.
pub(crate) fn push_digits(
    text: &mut String,
    letters: &[u8],
    count: u8,
    number: u64,
) -> Result<(), AllocError>
    requires base { 0 < length letters.now }
    requires ascii { list_all is_ascii letters.now ≡ true }
    ensures { OnOk result (string_bytes text.new ≡ string_bytes text.old ++ last_digits letters.now count number) }
{
    if count == 0 {
        return Ok(());
    }
    let base = letters.len() as u64;
    push_digits(text, letters, count - 1, number / base)?;
    text.push(letters[(number % base) as usize] as char)
}
