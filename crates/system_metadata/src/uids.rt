//! Uids: UUIDs of version 8 (RFC 9562, sections 4 and 5.8). Moments are in `moments`.

ghost use Rattle.std.specs.Prelude.{◌≡◌, ◌++◌, IfOk, OnOk, string_bytes};
ghost use Rattle.system_metadata.specs.Uids.{hex, uid};

use crate::digits::push_digits;
use std::alloc::{AllocError, Global};

fn push_hex(text: &mut String, count: u8, number: u64) -> Result<(), AllocError>
    ensures { OnOk result (string_bytes text.new ≡ string_bytes text.old ++ hex count number) }
{
    push_digits(text, b"0123456789abcdef", count, number)
}

/// The uid of an object that was created at a revision, on a server of an epoch.
pub fn uid(alloc: Global, epoch: u64, revision: u64) -> Result<String, AllocError>
    ensures { IfOk result (λ text. string_bytes text ≡ uid epoch revision) }
{
    let mut text = String::with_capacity(alloc, 36)?;
    push_hex(&mut text, 8, epoch >> 16)?;
    text.push_str("-")?;
    push_hex(&mut text, 4, epoch)?;
    text.push_str("-8")?;
    push_hex(&mut text, 3, revision >> 60)?;
    text.push_str("-8")?;
    push_hex(&mut text, 3, revision >> 48)?;
    text.push_str("-")?;
    push_hex(&mut text, 12, revision)?;
    Ok(text)
}
