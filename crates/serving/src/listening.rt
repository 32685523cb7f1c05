//! Accepts the connections of a listener, one after another, and ends them. What is served on one stands in `server` and
//! `conversing`.

ghost use Rattle.std.specs.Prelude.{◌≡◌, ◌+◌, ◌≤◌, OnErr, OnOk};
ghost use Rattle.serving.specs.ServerViews.{hub_of, limits_of, next_of};
ghost use Rattle.serving.specs.Serving.{DoesRounds, Reaches, ServesOne};

use crate::server::Server;
use httpedge::LINGER;
use observing::Observer;
use std::io::{ErrorKind, Read, Write};
use std::net::{OpenListener, OpenStream, Shutdown};
use std::rt::Clock;
use std::time::{Duration, Instant};
use std::{io, thread};
use wire::PIECE;

/// How many milliseconds a listener waits after it could not accept, as where no descriptors are left.
const PAUSE: u64 = 10;

/// For how many milliseconds a peer may send nothing before its connection is closed.
const QUIET: u64 = 100;

/// Ends a connection on which all is written: what its peer still sends is ignored, since a connection that is closed
/// with bytes unread may cost the peer its reply (RFC 9112, section 9.6).
fn linger<C: Clock, S: Read + OpenStream>(clock: &C, stream: &mut S) -> io::Result<()> {
    stream.shutdown(Shutdown::Write)?;
    stream.set_read_timeout(Some(Duration::from_millis(QUIET)))?;
    let longest = Duration::from_millis(LINGER);
    let begun = Instant::now(clock)?;
    let mut piece = [0u8; PIECE];
    for _ in 0..u64::MAX {
        if stream.read(&mut piece)? == 0 || begun.elapsed(clock)? > longest {
            break;
        }
    }
    Ok(())
}

/// Ends a connection, unless its stream is kept. Where it can't linger, it is closed at once.
fn end<C: Clock, S: Read + OpenStream>(clock: &C, stream: &mut S, is_kept: bool) {
    if !is_kept {
        let _ = linger(clock, stream);
    }
}

/// The next connection of the listener, which waits after it could not accept one.
fn accept<C: Clock, L: OpenListener>(clock: &C, listener: &L) -> io::Result<L::Stream> {
    match listener.accept() {
        Ok((stream, _)) => Ok(stream),
        Err(error) => {
            thread::sleep(clock, Duration::from_millis(PAUSE));
            Err(error)
        }
    }
}

/// Serves the next connection of the listener, whose stream is read and written by two handles; an error where none got an
/// id.
fn serve_next<C, O, S, L>(
    clock: &C,
    observer: &mut O,
    listener: &L,
    server: &mut Server<S>,
) -> io::Result<()>
where
    C: Clock,
    O: Observer,
    S: Read + Write + OpenStream + Drop,
    L: OpenListener<Stream = S>,
    ensures limits { limits_of server.new ≡ limits_of server.old }
    ensures served { ServesOne (hub_of server.old) (hub_of server.new) }
    ensures next { OnOk result (next_of server.new ≡ next_of server.old + 1) }
    ensures none { OnErr result (next_of server.new ≡ next_of server.old) }
{
    let stream = accept(clock, listener)?;
    // If this fails, lines of a watch only come later.
    let _ = stream.set_nodelay(true);
    let mut reader = stream.try_clone()?;
    if !server.has_ids() {
        return Err(io::Error::from(ErrorKind::Other));
    }
    let is_kept = server.serve(observer, &mut reader, stream);
    end(clock, &mut reader, is_kept);
    Ok(())
}

/// How many connections are served: the next one, or none where none can be accepted or no id is left.
fn serve_one<C, O, S, L>(clock: &C, observer: &mut O, listener: &L, server: &mut Server<S>) -> u64
where
    C: Clock,
    O: Observer,
    S: Read + Write + OpenStream + Drop,
    L: OpenListener<Stream = S>,
    ensures limits { limits_of server.new ≡ limits_of server.old }
    ensures served { ServesOne (hub_of server.old) (hub_of server.new) }
    ensures few { result ≤ 1 }
    ensures next { next_of server.new ≡ next_of server.old + result }
{
    match serve_next(clock, observer, listener, server) {
        Ok(()) => 1,
        Err(_) => 0,
    }
}

/// Serves just so many connections of the listener, one after another, and tidies after each. One that can't be accepted
/// doesn't count.
pub fn serve_all<C, O, S, L>(
    clock: &C,
    observer: &mut O,
    listener: &L,
    server: &mut Server<S>,
    most: u64,
) -> io::Result<()>
where
    C: Clock,
    O: Observer,
    S: Read + Write + OpenStream + Drop,
    L: OpenListener<Stream = S>,
    ensures reaches { Reaches (hub_of server.old) (hub_of server.new) }
    ensures rounds { OnOk result (DoesRounds (limits_of server.old) (hub_of server.old) (hub_of server.new)) }
    ensures served { OnOk result (next_of server.new ≡ next_of server.old + most) }
{
    let start = Instant::now(clock)?;
    let mut left = most;
    'connections: for _ in 0..u64::MAX {
        if left == 0 {
            return Ok(());
        }
        left -= serve_one(clock, observer, listener, server);
        let ms = start.elapsed(clock)?.as_millis();
        server.tidy(observer, u64::try_from(ms).unwrap_or(u64::MAX));
    }
    // More turns than there are ids.
    Err(io::Error::from(ErrorKind::Other))
}
