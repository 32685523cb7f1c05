//! A file in memory, which ends with its table: what stands in it is all that a crash could leave. Its bytes are those
//! that were written, so a read of bytes whose digest is known gives bytes of that digest, and none is taken of them.
//! The database over two such files is opened in `memory`.

ghost use Rattle.std.specs.Prelude.{◌≡◌, [], length, true, false, refl, is_ok, OnOk};
ghost use Rattle.sqlite_disk.specs.Disk.{Holds, Torn, Cut, CountsFault};
ghost use Rattle.sqlite_disk.specs.Refusal.{finds_no_room};

use sqlite_disk::{Disk, Tally};
use std::alloc::{AllocError, Global};
use std::io;

/// The bytes, and how many calls failed.
#[derive(Drop)]
pub(crate) struct MemoryFile {
    pub(crate) bytes: Vec<u8>,
    faults: u64,
}

impl MemoryFile {
    pub(crate) fn new(alloc: Global) -> MemoryFile
        ensures { result.bytes.items ≡ [] }
    {
        MemoryFile {
            bytes: Vec::new(alloc),
            faults: 0,
        }
    }
}

impl Disk for MemoryFile {
    ghost seen = { λ f. f.bytes.items };

    ghost may_leave = { λ f c. c ≡ f.bytes.items };

    ghost is_usable = { λ _. true };

    ghost faults = { λ f. f.faults };

    ghost is_clean = { λ _. true };

    ghost tally_of = { λ _. record { caught = 0; refused = 0 } };

    ghost key_of = { λ _. 0 };

    ghost is_fair = { λ _ _. true };

    ghost fair_if_clean = { λ _ _ _. refl };

    ghost seen_may_stay = { λ _. refl };

    fn mixes(&self) -> bool {
        false
    }

    fn key(&self) -> u64 {
        0
    }

    fn tally(&self) -> Tally {
        Tally {
            caught: 0,
            refused: 0,
        }
    }

    fn may_be_used(&self) -> bool {
        true
    }

    fn len(&mut self) -> io::Result<usize> {
        Ok(self.bytes.len())
    }

    fn read_at(&mut self, at: usize, buf: &mut [u8]) -> io::Result<()> {
        if at > self.bytes.len() || buf.len() > self.bytes.len() - at {
            return Err(io::ErrorKind::UnexpectedEof.into());
        }
        buf.copy_from_slice(&self.bytes[at..at + buf.len()]);
        Ok(())
    }

    // The digest is known and the bytes still stand, so they have it.
    fn read_checked(&mut self, key: u64, want: u64, at: usize, buf: &mut [u8]) -> io::Result<()> {
        let _ = (key, want);
        self.read_at(at, buf)
    }

    fn write_at(&mut self, at: usize, bytes: &[u8]) -> io::Result<()> {
        count(overwrite(&mut self.bytes, at, bytes), &mut self.faults)
    }

    fn set_len(&mut self, len: usize) -> io::Result<()> {
        count(resize(&mut self.bytes, len), &mut self.faults)
    }

    fn sync(&mut self) -> io::Result<()> {
        Ok(())
    }
}

/// A growth that was refused counts as a fault.
fn count(outcome: Result<(), AllocError>, faults: &mut u64) -> io::Result<()>
    ensures variant { is_ok result ≡ is_ok outcome }
    ensures kind { finds_no_room result ≡ false }
    ensures faults { CountsFault result faults.old faults.new }
{
    if outcome.is_err() {
        *faults = faults.saturating_add(1);
        return Err(io::ErrorKind::OutOfMemory.into());
    }
    Ok(())
}

fn resize(bytes: &mut Vec<u8>, len: usize) -> Result<(), AllocError>
    ensures len { OnOk result (length bytes.new.items ≡ len) }
    ensures others { Cut len bytes.old.items bytes.new.items }
{
    bytes.resize(len, 0)
}

fn overwrite(bytes: &mut Vec<u8>, at: usize, written: &[u8]) -> Result<(), AllocError>
    ensures written { OnOk result (Holds bytes.new.items at written.now) }
    ensures others { Torn at (length written.now) bytes.old.items bytes.new.items }
{
    let end = at.checked_add(written.len()).ok_or(AllocError)?;
    if end > bytes.len() {
        resize(bytes, end)?;
    }
    bytes[at..end].copy_from_slice(written);
    Ok(())
}
