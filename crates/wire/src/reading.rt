//! A piece of what a reader gives. Writing stands in `writing`.

ghost use Rattle.std.specs.Prelude.{[], MatchResult};
ghost use Rattle.std.specs.Io.KnownBytes.{Consumes};

use std::alloc::Global;
use std::io;
use std::io::Read;

/// The most bytes that are read at a time.
pub const PIECE: usize = 4096;

/// Some of the bytes that a reader has next; none where its peer sends no more. Room is made first, so that no byte
/// leaves the reader for which there is none.
pub fn read_piece<R: Read>(alloc: Global, reader: &mut R) -> io::Result<Vec<u8>>
    ensures { MatchResult result (λ piece. Consumes (R.remaining reader.old) (R.remaining reader.new) piece.items) (λ _. Consumes (R.remaining reader.old) (R.remaining reader.new) []) }
{
    let mut piece = vec![in alloc; 0u8; PIECE]?;
    let count = reader.read(&mut piece)?;
    piece.truncate(count);
    Ok(piece)
}
