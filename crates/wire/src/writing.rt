//! Writing bytes as far as a writer takes them. Reading stands in `reading`.

ghost use Rattle.std.specs.Prelude.{◌≡◌, ◌≤◌, ◌++◌, ℕ, List, OnOk, length, take};
ghost use Rattle.std.specs.Io.KnownBytes.{Appends};

use std::io;
use std::io::{ErrorKind, Write};

/// Writes these bytes, in as many writes as it takes: how many of them the writer got, which are the first, and why it
/// got no more. An interrupted write is tried again; a writer that takes no byte takes no more.
pub fn write_prefix<W: Write>(writer: &mut W, bytes: &[u8]) -> (usize, io::Result<()>)
    ensures bound { result.0 ≤ length bytes.now }
    ensures prefix { Appends (W.contents writer.old) (W.contents writer.new) (take result.0 bytes.now) }
    ensures all { OnOk result.1 (result.0 ≡ length bytes.now) }
{
    let mut count = 0;
    'writes: for _ in 0..u64::MAX {
        let rest = &bytes[count..];
        if rest.is_empty() {
            return (count, Ok(()));
        }
        match writer.write(rest) {
            Ok(0) => break,
            Ok(written) => count += written,
            Err(error) if error.kind() == ErrorKind::Interrupted => {}
            Err(error) => return (count, Err(error)),
        }
    }
    (count, Err(io::Error::from(ErrorKind::WriteZero)))
}

/// Writes all of these bytes. After an error the writer has a prefix of them.
pub fn write_whole<W: Write>(writer: &mut W, bytes: &[u8]) -> io::Result<()>
    ensures prefix { (emitted : List ℕ) × (rest : List ℕ) × (bytes.now ≡ emitted ++ rest) × Appends (W.contents writer.old) (W.contents writer.new) emitted }
    ensures all { OnOk result (Appends (W.contents writer.old) (W.contents writer.new) bytes.now) }
{
    write_prefix(writer, bytes).1
}
