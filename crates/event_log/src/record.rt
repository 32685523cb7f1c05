//! A record: a file that gets the lines of a script by which what happened to a hub happens again. How a line reads stands in
//! `script`.

use crate::script::script_line;
use httpedge::Event;
use std::alloc::Global;
use std::fs::OpenFile;
use std::io::{self, Write};

/// A file that gets the lines of events.
#[derive(Drop)]
pub struct Record<F: Drop> {
    file: F,
    /// How many bytes its lines have.
    length: u64,
}

impl<F: Write + OpenFile + Drop> Record<F> {
    /// A record in a file without bytes.
    pub fn new(file: F) -> Record<F> {
        Record { file, length: 0 }
    }

    /// Writes the line of an event, all of it or nothing: what was written of a line that couldn't be written whole is cut off.
    pub fn keep(&mut self, alloc: Global, event: &Event) -> io::Result<()> {
        let line = script_line(alloc, event)?;
        if let Err(error) = self.file.write_all(line.as_bytes()) {
            // What is no file can't be cut.
            let _ = self.file.set_len(self.length);
            return Err(error);
        }
        self.length = self.length.saturating_add(line.len() as u64);
        Ok(())
    }
}
