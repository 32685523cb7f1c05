//! The turn of one connection, and of its watch: reading, the hub, writing. All connections stand in `server`.

ghost use Rattle.std.specs.Prelude.{[], List, MatchResult, ℕ};
ghost use Rattle.std.specs.Io.KnownBytes.{Appends, Consumes};
ghost use Rattle.httpedge.specs.StreamViews.{MovesBy};
ghost use Rattle.serving.specs.Serving.{Goes, HasTurn, HasTurns, IsPumped, ServesAll};

use httpedge::{Event, Hub};
use observing::{Observer, hand};
use std::alloc::Global;
use std::io;
use std::io::{ErrorKind, Read, Write};
use wire::{read_piece, write_prefix};

fn open<O: Observer>(hub: &mut Hub, observer: &mut O, id: u64) -> io::Result<()>
    ensures { HasTurns id hub.old [] [] hub.new }
{
    // Why it wasn't done is told of the event.
    if !hand(hub, observer, Event::Open(id)) {
        return Err(io::Error::from(ErrorKind::Other));
    }
    Ok(())
}

/// The peer of a connection has gone, which isn't open any more: proved once for all that end a turn.
pub(crate) fn leave<O: Observer>(hub: &mut Hub, observer: &mut O, id: u64)
    ensures { Goes id hub.old hub.new }
{
    hand(hub, observer, Event::Gone(id));
}

/// Tells where it is memory that fails the stream of a connection, and not its peer.
fn report_loss<O: Observer>(observer: &mut O, id: u64, done: &io::Result<()>) {
    if let Err(error) = done {
        if error.kind() == ErrorKind::OutOfMemory {
            observer.loses(id, ErrorKind::OutOfMemory);
        }
    }
}

/// Some of the bytes that a reader has next; an error where it has none.
fn read_some<R: Read>(alloc: Global, reader: &mut R) -> io::Result<Vec<u8>>
    ensures { MatchResult result (λ piece. Consumes (R.remaining reader.old) (R.remaining reader.new) piece.items) (λ _. Consumes (R.remaining reader.old) (R.remaining reader.new) []) }
{
    let piece = read_piece(alloc, reader)?;
    if piece.is_empty() {
        return Err(io::Error::from(ErrorKind::UnexpectedEof));
    }
    Ok(piece)
}

/// Reads while the hub waits for bytes of the connection, and hands them to it in order.
fn hand_over<O: Observer, R: Read>(
    alloc: Global,
    hub: &mut Hub,
    observer: &mut O,
    id: u64,
    reader: &mut R,
) -> io::Result<()>
    ensures { (received : List ℕ) × Consumes (R.remaining reader.old) (R.remaining reader.new) received × HasTurns id hub.old received [] hub.new }
{
    'pieces: for _ in 0..u64::MAX {
        if !hub.wants(id) {
            break;
        }
        match read_some(alloc, reader) {
            Ok(piece) => {
                hand(hub, observer, Event::In(id, piece));
            }
            Err(error) if error.kind() == ErrorKind::Interrupted => {}
            Err(error) => return Err(error),
        }
    }
    Ok(())
}

/// Writes what is out on the connection, and takes what the writer got.
fn write_out<W: Write>(hub: &mut Hub, id: u64, writer: &mut W) -> io::Result<()>
    ensures { (sent_bytes : List ℕ) × Appends (W.contents writer.old) (W.contents writer.new) sent_bytes × ServesAll result id hub.old [] sent_bytes hub.new }
{
    httpedge::bytes_are_taken();
    let (count, done) = write_prefix(writer, hub.out(id));
    hub.take(id, count);
    done
}

fn converse<O: Observer, R: Read, W: Write>(
    alloc: Global,
    hub: &mut Hub,
    observer: &mut O,
    id: u64,
    reader: &mut R,
    writer: &mut W,
) -> io::Result<()>
    ensures { (received : List ℕ) × (sent_bytes : List ℕ) × Consumes (R.remaining reader.old) (R.remaining reader.new) received
        × Appends (W.contents writer.old) (W.contents writer.new) sent_bytes × ServesAll result id hub.old received sent_bytes hub.new }
{
    open(hub, observer, id)?;
    hand_over(alloc, hub, observer, id, reader)?;
    write_out(hub, id, writer)
}

/// The turn of a connection, whose stream is a reader and a writer: it opens, the hub gets what is read while it waits
/// for more, and what is then out is written. Where the id is no new one, a read or write fails, or the reader ends
/// before the request, the peer has gone. The observer is told each event.
pub fn turn<O: Observer, R: Read, W: Write>(
    alloc: Global,
    hub: &mut Hub,
    observer: &mut O,
    id: u64,
    reader: &mut R,
    writer: &mut W,
) -> io::Result<()>
    ensures { (received : List ℕ) × (sent_bytes : List ℕ) × Consumes (R.remaining reader.old) (R.remaining reader.new) received
        × Appends (W.contents writer.old) (W.contents writer.new) sent_bytes × HasTurn result id hub.old received sent_bytes hub.new }
{
    let done = converse(alloc, hub, observer, id, reader, writer);
    if done.is_err() {
        report_loss(observer, id, &done);
        leave(hub, observer, id);
    }
    done
}

/// The turn of a watch: the hub may write so many lines, and what is out is written. Where a write fails the peer has
/// gone.
pub fn pump<O: Observer, W: Write>(
    hub: &mut Hub,
    observer: &mut O,
    id: u64,
    max: u64,
    writer: &mut W,
) -> io::Result<()>
    ensures { (sent_bytes : List ℕ) × Appends (W.contents writer.old) (W.contents writer.new) sent_bytes × MovesBy (IsPumped result id max sent_bytes) hub.old hub.new }
{
    hand(hub, observer, Event::Pump(id, max));
    let done = write_out(hub, id, writer);
    if done.is_err() {
        leave(hub, observer, id);
    }
    done
}
