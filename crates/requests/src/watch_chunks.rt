//! The chunks of a watch (RFC 9112, section 7.1). The bytes before them stand in `reply`.

ghost use Rattle.std.specs.Prelude.{◌≡◌, ◌++◌, IfOk, OnErr, OnOk, string_bytes};
ghost use Rattle.watchline.specs.Views.{lines_in};
ghost use Rattle.wire.specs.Heads.{crlf};
ghost use Rattle.wire.specs.Lengths.{hexadecimal};
ghost use Rattle.requests.specs.ReplyBytes.{GoesOn, chunk, chunks, end_bytes};

use std::alloc::{AllocError, Global};

/// How many bytes of a chunk stand around its line at most.
const FRAME: usize = 20;

fn chunk_head(alloc: Global, length: usize) -> Result<String, AllocError>
    ensures { IfOk result (λ s. string_bytes s ≡ hexadecimal length ++ crlf) }
{
    format!(in alloc; "{length:x}\r\n")
}

/// Writes the chunk of a line, which has its line feed. Where memory is refused, a part of it may stand.
pub fn push_chunk(alloc: Global, bytes: &mut Vec<u8>, line: &str) -> Result<(), AllocError>
    ensures err { OnErr result (GoesOn bytes.old.items bytes.new.items) }
    ensures ok { OnOk result (bytes.new.items ≡ bytes.old.items ++ chunk line.now) }
{
    let head = chunk_head(alloc, line.len())?;
    bytes.extend_from_slice(head.as_bytes())?;
    bytes.extend_from_slice(line.as_bytes())?;
    bytes.extend_from_slice("\r\n".as_bytes())
}

/// Writes the last chunk, where the watch has ended.
pub fn push_end(bytes: &mut Vec<u8>, has_ended: bool) -> Result<(), AllocError>
    ensures err { OnErr result (bytes.new.items ≡ bytes.old.items) }
    ensures ok { OnOk result (bytes.new.items ≡ bytes.old.items ++ end_bytes has_ended) }
{
    if has_ended {
        return bytes.extend_from_slice("0\r\n\r\n".as_bytes());
    }
    Ok(())
}

/// How many bytes the chunks of lines have at most.
fn room_for(lines: &[String]) -> usize {
    let mut room: usize = 0;
    for line in lines {
        room = room.saturating_add(line.len()).saturating_add(FRAME);
    }
    room
}

/// A chunk for each line, and the last chunk where the watch has ended.
pub fn chunks(alloc: Global, lines: &[String], has_ended: bool) -> Result<Vec<u8>, AllocError>
    ensures { IfOk result (λ v. v.items ≡ chunks (lines_in lines.now) has_ended) }
{
    let mut bytes = Vec::with_capacity(alloc, room_for(lines))?;
    for line in lines {
        push_chunk(alloc, &mut bytes, line.as_str())?;
    }
    push_end(&mut bytes, has_ended)?;
    Ok(bytes)
}
