//! Reads what a peer sent and hands it to the hub. What is out on the connection is written in `writing`.

ghost use Rattle.std.specs.Prelude.{List, ℕ};
ghost use Rattle.std.specs.Io.KnownBytes.{Consumes};
ghost use Rattle.polling.specs.Happens.{Receives};

use httpedge::{Event, Hub};
use observing::{Observer, hand};
use std::alloc::Global;
use std::io;
use std::io::{ErrorKind, Read};
use wire::read_piece;

/// The most reads of one connection in its turn.
const READS: u32 = 16;

/// How reading ended.
#[derive(Debug, Drop, Clone, Copy, PartialEq, Eq)]
pub enum Readout {
    /// Nothing more is there for now.
    Blocked,
    /// There may be more.
    More,
    /// The peer sends no more.
    Closed,
}

/// One read, whose bytes come on the connection.
fn hand_piece<O: Observer, R: Read>(
    alloc: Global,
    hub: &mut Hub,
    observer: &mut O,
    id: u64,
    reader: &mut R,
) -> io::Result<Readout>
    ensures { (received : List ℕ) × Consumes (R.remaining reader.old) (R.remaining reader.new) received × Receives id received hub.old hub.new }
{
    let piece = read_piece(alloc, reader)?;
    if piece.is_empty() {
        return Ok(Readout::Closed);
    }
    hand(hub, observer, Event::In(id, piece));
    Ok(Readout::More)
}

/// Reads what is there, as far as the turn goes, and hands it to the hub: the bytes that left the reader came on the
/// connection, in order, whatever failed.
pub fn hand_over<O: Observer, R: Read>(
    alloc: Global,
    hub: &mut Hub,
    observer: &mut O,
    id: u64,
    reader: &mut R,
) -> io::Result<Readout>
    ensures { (received : List ℕ) × Consumes (R.remaining reader.old) (R.remaining reader.new) received × Receives id received hub.old hub.new }
{
    'reads: for _ in 0..READS {
        match hand_piece(alloc, hub, observer, id, reader) {
            Ok(Readout::More) => {}
            Err(e) if e.kind() == ErrorKind::WouldBlock => return Ok(Readout::Blocked),
            Err(e) if e.kind() == ErrorKind::Interrupted => {}
            end => return end,
        }
    }
    Ok(Readout::More)
}
