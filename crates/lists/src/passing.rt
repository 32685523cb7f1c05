//! Values of a JSON text that are passed over, so that no value of them is made. A number has to be an integer from 0 on within
//! 64 bits, which takes least to tell.

ghost use Rattle.std.specs.Prelude.{◌≡◌, ◌≤◌, ◌<◌, ◌∷◌, ◌==◌, IsTrue, OnOk, false, is_some, length, slice_index, true};
ghost use Rattle.json.specs.Reads.{token_of};
ghost use Rattle.serde_json.specs.Read.{number_from, number_of};
ghost use Rattle.lists.specs.Finding.{Passes, PassesItems, PassesMembers};

use fast_float::Numeral;
use json::{Invalid, Reader, Token};

fn has_minus(bytes: &[u8]) -> bool
    ensures { result ≡ (slice_index bytes.now 0 == 45) }
{
    !bytes.is_empty() && bytes[0] == b'-'
}

fn is_unsigned(numeral: &Numeral<'_>) -> bool
    ensures { IsTrue result → is_some (number_from false numeral.now) ≡ true }
{
    numeral.to_u64().is_some()
}

/// Whether a number's text writes an integer from 0 on within 64 bits.
fn is_natural(text: &str) -> bool
    ensures { IsTrue result → is_some (number_of text.now) ≡ true }
{
    let bytes = text.as_bytes();
    if has_minus(bytes) {
        return false;
    }
    is_unsigned(&Numeral::scan(bytes))
}

#[cycle(passing)]
fn pass_items(reader: &mut Reader<'_>, depth: usize) -> Result<(), Invalid>
    ensures passed { OnOk result (PassesItems depth reader.old reader.new) }
    ensures shorter { OnOk result (length reader.new ≤ length reader.old) }
{
    'items: while !reader.take_end_array() {
        pass_value(reader, depth)?;
    }
    Ok(())
}

#[cycle(passing)]
fn pass_members(reader: &mut Reader<'_>, depth: usize) -> Result<(), Invalid>
    ensures passed { OnOk result (PassesMembers depth reader.old reader.new) }
    ensures shorter { OnOk result (length reader.new ≤ length reader.old) }
{
    'members: while let Some(_) = reader.next_key()? {
        pass_value(reader, depth)?;
    }
    Ok(())
}

/// Passes over the value that begins with a token and goes on in the reader. Arrays and objects may nest so deep.
#[cycle(passing)]
pub(crate) fn pass_from(
    token: Token<'_>,
    reader: &mut Reader<'_>,
    depth: usize,
) -> Result<(), Invalid>
    ensures passed { OnOk result (Passes depth (token_of token.entry ∷ reader.old) reader.new) }
    ensures shorter { OnOk result (length reader.new ≤ length reader.old) }
{
    match token {
        Token::String(_) => Ok(()),
        Token::Bool(_) => Ok(()),
        Token::Null => Ok(()),
        Token::Number(text) => {
            if is_natural(text) {
                Ok(())
            } else {
                Err(Invalid)
            }
        }
        Token::BeginArray => {
            if depth == 0 {
                return Err(Invalid);
            }
            pass_items(reader, depth - 1)
        }
        Token::BeginObject => {
            if depth == 0 {
                return Err(Invalid);
            }
            pass_members(reader, depth - 1)
        }
        Token::EndArray | Token::EndObject | Token::Key(_) | Token::Bad => Err(Invalid),
    }
}

/// Passes over the value that comes next.
#[cycle(passing)]
pub(crate) fn pass_value(reader: &mut Reader<'_>, depth: usize) -> Result<(), Invalid>
    ensures passed { OnOk result (Passes depth reader.old reader.new) }
    ensures shorter { OnOk result (length reader.new < length reader.old) }
{
    let token = reader.next().ok_or(Invalid)?;
    pass_from(token, reader, depth)
}
