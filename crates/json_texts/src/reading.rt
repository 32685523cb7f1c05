//! Texts read as values that borrow from them; none is read of a text that is not in order. What a value has is looked up
//! in `members`.

ghost use Rattle.std.specs.Prelude.{◌≡◌, IfOk, IfSome, option_map, true};
ghost use Rattle.json.specs.Value.{value_view};
ghost use Rattle.json_texts.specs.InOrder.{data_of, in_order, is_ordered, json_of};

use crate::order::is_ordered;
use json::{Error, Reader, Scratch, Value};
use std::alloc::{AllocError, Global};

/// As deep as `serde_json` follows arrays and objects.
const MAX_DEPTH: usize = 127;

fn parse<'a>(alloc: Global, text: &'a str, scratch: &'a mut Scratch) -> Result<Value<'a>, Error>
    ensures ok { IfOk result (λ v. json_of text.now ≡ Some (value_view v)) }
    ensures invalid { result ≡ Err Error.Invalid → json_of text.now ≡ None }
{
    let mut reader = Reader::new(text, scratch)?;
    let value = Value::read(alloc, &mut reader, MAX_DEPTH)?;
    if reader.next().is_some() {
        return Err(Error::Invalid);
    }
    Ok(value)
}

/// The value of a text that is in order; none of another text.
pub fn read<'a>(
    alloc: Global,
    text: &'a str,
    scratch: &'a mut Scratch,
) -> Result<Option<Value<'a>>, AllocError>
    ensures value { IfOk result (λ o. option_map (λ v. data_of (value_view v)) o ≡ in_order text.now) }
    ensures ordered { IfOk result (λ o. IfSome o (λ v. is_ordered (value_view v) ≡ true)) }
{
    match parse(alloc, text, scratch) {
        Ok(value) => {
            if is_ordered(&value) {
                Ok(Some(value))
            } else {
                Ok(None)
            }
        }
        Err(fault) => match fault {
            Error::Invalid => Ok(None),
            _ => Err(AllocError),
        },
    }
}
