//! What a reader has next.

ghost use Rattle.std.specs.Prelude.{[], MatchResult};
ghost use Rattle.std.specs.Io.KnownBytes.{Consumes};

use std::alloc::{AllocError, Global};
use std::io::{ErrorKind, Read};
use wire::read_piece;

/// Some of the bytes that a reader has next; none at its end, nor where a read fails, which is a cut.
pub(crate) fn next_piece<R: Read>(alloc: Global, reader: &mut R) -> Result<Vec<u8>, AllocError>
    ensures { MatchResult result (λ piece. Consumes (R.remaining reader.old) (R.remaining reader.new) piece.items) (λ _. Consumes (R.remaining reader.old) (R.remaining reader.new) []) }
{
    'reads: for _ in 0..u64::MAX {
        match read_piece(alloc, reader) {
            Ok(piece) => return Ok(piece),
            Err(error) if error.kind() == ErrorKind::Interrupted => {}
            Err(error) if error.kind() == ErrorKind::OutOfMemory => return Err(AllocError),
            Err(_) => break,
        }
    }
    Ok(Vec::new(alloc))
}
