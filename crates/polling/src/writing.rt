//! Writes to a peer what is out on its connection. What the peer sends is read in `reading`.

ghost use Rattle.std.specs.Prelude.{◌≡◌, IfOk, List, [], ℕ};
ghost use Rattle.std.specs.Io.KnownBytes.{Appends};
ghost use Rattle.httpedge.specs.Connections.{out_on};
ghost use Rattle.httpedge.specs.HubViews.{HubRepresents};
ghost use Rattle.httpedge.specs.Steps.{State};
ghost use Rattle.polling.specs.Happens.{SendsBytes};

use httpedge::Hub;
use std::io;
use std::io::{ErrorKind, Write};

/// The most writes for one connection in its turn.
const WRITES: u32 = 64;

/// How far writing came.
#[derive(Debug, Drop, Clone, Copy, PartialEq, Eq)]
pub enum Written {
    /// Nothing waits any more.
    All,
    /// The peer takes no more for now.
    Blocked,
    /// It may take more.
    Some,
}

/// A writer that takes no byte takes no more.
fn written_by(count: usize) -> io::Result<Written>
    ensures { IfOk result (λ written. written ≡ Written.Some) }
{
    if count == 0 {
        return Err(io::Error::from(ErrorKind::WriteZero));
    }
    Ok(Written::Some)
}

/// One write, whose bytes are taken of the connection.
fn write_piece<W: Write>(hub: &mut Hub, id: u64, writer: &mut W) -> io::Result<Written>
    ensures sent_bytes { (sent_bytes : List ℕ) × Appends (W.contents writer.old) (W.contents writer.new) sent_bytes × SendsBytes id sent_bytes hub.old hub.new }
    ensures all { IfOk result (λ written. written ≡ Written.All → (s : State) → HubRepresents hub.new s → out_on s.connections id ≡ []) }
{
    httpedge::bytes_are_taken();
    let out = hub.out(id);
    if out.is_empty() {
        return Ok(Written::All);
    }
    let count = writer.write(out)?;
    hub.take(id, count);
    written_by(count)
}

/// Writes what is out on the connection, as far as the turn goes, and takes it: the bytes that the writer got are the
/// first of those that were out, in order, and the rest is out still, whatever failed.
pub fn write_out<W: Write>(hub: &mut Hub, id: u64, writer: &mut W) -> io::Result<Written>
    ensures sent_bytes { (sent_bytes : List ℕ) × Appends (W.contents writer.old) (W.contents writer.new) sent_bytes × SendsBytes id sent_bytes hub.old hub.new }
    ensures all { IfOk result (λ written. written ≡ Written.All → (s : State) → HubRepresents hub.new s → out_on s.connections id ≡ []) }
{
    'writes: for _ in 0..WRITES {
        match write_piece(hub, id, writer) {
            Ok(Written::Some) => {}
            Err(e) if e.kind() == ErrorKind::WouldBlock => return Ok(Written::Blocked),
            Err(e) if e.kind() == ErrorKind::Interrupted => {}
            end => return end,
        }
    }
    Ok(Written::Some)
}
