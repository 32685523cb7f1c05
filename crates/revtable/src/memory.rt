//! The tables of a database over two files in memory. Only here is its store named; the calls stand in `change_log`.

ghost use Rattle.std.specs.Prelude.{◌≡◌, [], ◌^◌, ◌<◌, IfOk};
ghost use Rattle.sqlite.specs.Files.{file_state};
ghost use Rattle.sqlite.specs.Steps.{IsEmpty};

use crate::change_log::ChangeLog;
use crate::file::MemoryFile;
use sqlite::{Connection, Error, FileStore, Files, Options};
use std::alloc::Global;

/// How many changed pages a transaction keeps in memory before they go to the database's write-ahead log. A compaction
/// changes the pages of the index again and again; where they stay in memory, that log doesn't grow by each such change.
const SPILL_PAGES: usize = 6_000;

/// How many pages that were read are kept a second time. They are in memory as it is: a copy of one spares a look into the log alone,
/// and the room for all copies is taken when the table is opened.
const COPIED_PAGES: usize = 256;

/// How many pages the log has before they are copied into the database file.
const LOGGED_PAGES: usize = 250;

/// The tables over two files in memory.
pub(crate) type MemoryLog = ChangeLog<FileStore<MemoryFile>>;

/// An empty database over two empty files.
fn empty(alloc: Global) -> Result<Connection<FileStore<MemoryFile>>, Error>
    ensures { IfOk result (λ base. IsEmpty (file_state base)) }
{
    let files = Files {
        log: MemoryFile::new(alloc),
        db: MemoryFile::new(alloc),
    };
    let mut options = Options::new(1);
    options.spill_pages = SPILL_PAGES;
    options.cache_pages = COPIED_PAGES;
    options.checkpoint_frames = LOGGED_PAGES;
    match Connection::open_files(alloc, files, options) {
        Ok(base) => Ok(base),
        Err((error, _)) => Err(error),
    }
}

/// No row yet, and both numbers are this revision.
pub(crate) fn open(alloc: Global, revision: u64) -> Result<MemoryLog, Error>
    requires fits { revision < 2 ^ 63 }
    ensures { IfOk result (λ log. log ≡ record { spans = []; current = revision; compacted = revision }) }
{
    ChangeLog::new(empty(alloc)?, revision)
}
