//! A link that copies byte by byte, notes what it carried, and fails after so many pieces.

ghost use Rattle.std.specs.Prelude.{◌≡◌, IfOk};

use std::alloc::{AllocError, Global};
use world::{Link, LinkFault};

#[derive(Drop)]
pub struct Noting {
    pub left: u64,
    pub carried: Vec<u8>,
}

fn copied(alloc: Global, piece: &[u8]) -> Result<Vec<u8>, AllocError>
    ensures { IfOk result (λ v. v.items ≡ piece.now) }
{
    let mut copy = Vec::new(alloc);
    for byte in piece {
        copy.push(*byte)?;
    }
    Ok(copy)
}

impl Link for Noting {
    ghost use Rattle.std.specs.Prelude.{true};

    ghost may_fail = { true };

    fn carry(&mut self, alloc: Global, piece: &[u8]) -> Result<Vec<u8>, LinkFault> {
        if self.left == 0 {
            return Err(LinkFault::Failed);
        }
        self.left -= 1;
        self.carried.extend_from_slice(piece)?;
        Ok(copied(alloc, piece)?)
    }
}
