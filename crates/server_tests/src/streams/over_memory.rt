//! A stream over memory that gives its bytes in two parts, takes as many as there is room for, and fails where it is
//! told to. The turns over it are tested in `turns`.

use polling::Stream;
use std::alloc::Global;
use std::io::{ErrorKind, Read, Write};
use std::{cmp, io};

/// The most bytes that are read or written at a time.
pub const MOST: usize = 30;

/// More reads and writes than a test makes.
pub const PLENTY: usize = 100;

#[derive(Drop)]
pub struct Memory<'a> {
    /// What it gives before nothing is there for once.
    pub first: &'a [u8],
    /// What it gives then, before its peer sends no more.
    pub second: &'a [u8],
    /// Whether its peer sends no more behind the first part.
    pub ends: bool,
    /// How many reads succeed.
    pub reads: usize,
    /// Why a read fails.
    pub error: ErrorKind,
    /// What it took.
    pub taken: Vec<u8>,
    /// How many bytes it takes before it takes none for now.
    pub room: usize,
    /// How many writes succeed.
    pub writes: usize,
}

impl<'a> Memory<'a> {
    /// One that doesn't fail.
    pub fn new(alloc: Global, first: &'a [u8], second: &'a [u8]) -> Memory<'a> {
        Memory {
            first,
            second,
            ends: false,
            reads: PLENTY,
            error: ErrorKind::ConnectionReset,
            taken: Vec::new(alloc),
            room: usize::MAX,
            writes: PLENTY,
        }
    }
}

impl<'a> Read for Memory<'a> {
    fn read(&mut self, buf: &mut [u8]) -> io::Result<usize> {
        if self.reads == 0 {
            return Err(io::Error::from(self.error));
        }
        self.reads -= 1;
        let most = cmp::min(buf.len(), MOST);
        let count = self.first.read(&mut buf[..most])?;
        if count == 0 && !self.ends {
            self.first = self.second;
            self.second = &[];
            return Err(io::Error::from(ErrorKind::WouldBlock));
        }
        Ok(count)
    }
}

impl<'a> Write for Memory<'a> {
    fn write(&mut self, buf: &[u8]) -> io::Result<usize> {
        if self.writes == 0 {
            return Err(io::Error::from(ErrorKind::BrokenPipe));
        }
        self.writes -= 1;
        let most = cmp::min(cmp::min(buf.len(), MOST), self.room);
        if most == 0 {
            return Err(io::Error::from(ErrorKind::WouldBlock));
        }
        self.taken.extend_from_slice(&buf[..most])?;
        self.room = self.room.saturating_sub(most);
        Ok(most)
    }

    fn flush(&mut self) -> io::Result<()> {
        Ok(())
    }
}

impl<'a> Stream for Memory<'a> {
    fn end(&mut self) -> io::Result<()> {
        Ok(())
    }
}
