//! Plays whose writer takes only some bytes, or whose link carries only some pieces; over loopback, also those whose
//! sockets fail. What a program makes of that is in `tests/scripts` at the top.

use crate::failing_net::{FailingNet, Fate};
use api_types::{Profile, Types};
use programs::RunFault;
use scripts::{OverLoopback, ReplayFault, read_script, replay};
use serde_json::Value;
use std::alloc::{AllocError, Global};
use std::io::{self, ErrorKind, Write};
use std::net::Net;
use std::test::Fail;
use world::{Link, LinkFault, OverMemory, Settings, WorldEvent};

const TYPES: &str =
    r#"{"types":[{"group":"g","version":"v","kind":"K","plural":"p","schema":{"type":"object","properties":{}}}]}"#;

/// A reply, another connection, and a report; the link carries a piece of the request and two of the reply.
const SCRIPT: &str = r#"{"apply":{"body":null,"force":false,"manager":"alice","target":"/x"}}
{"open":2}
{"client":"send"}
{"toServer":1000}
{"toClient":100}
{"toClient":1000}"#;

/// The pieces that the link carries.
const PIECES: usize = 3;

/// The calls of sockets that carry them: three that connect, and for each piece a write and a read.
const CALLS: usize = 3 + 2 * PIECES;

/// The most bytes that are written at a time.
const MOST: usize = 50;

/// A writer that takes some bytes at a time, and fails after so many writes.
#[derive(Drop)]
struct Filling {
    writes: usize,
    taken: Vec<u8>,
}

impl Write for Filling {
    fn write(&mut self, buf: &[u8]) -> io::Result<usize> {
        if self.writes == 0 {
            return Err(io::Error::from(ErrorKind::StorageFull));
        }
        self.writes -= 1;
        let count = buf.len().min(MOST);
        self.taken.extend_from_slice(&buf[..count])?;
        Ok(count)
    }

    fn flush(&mut self) -> io::Result<()> {
        Ok(())
    }
}

/// A link that fails after so many pieces.
#[derive(Drop)]
struct Breaking {
    pieces: usize,
}

impl Link for Breaking {
    ghost use Rattle.std.specs.Prelude.{true};

    ghost may_fail = { true };

    fn carry(&mut self, alloc: Global, piece: &[u8]) -> Result<Vec<u8>, LinkFault> {
        if self.pieces == 0 {
            return Err(LinkFault::Failed);
        }
        self.pieces -= 1;
        Ok(Vec::from_slice(alloc, piece)?)
    }
}

fn types(alloc: Global) -> Result<Types, Fail> {
    Ok(Types::read(alloc, Profile::Plain, &Value::from_str(alloc, TYPES)?)?)
}

fn settings(alloc: Global) -> Result<Settings, AllocError> {
    Ok(Settings {
        kind: 0,
        namespace: None,
        selector: String::new(alloc),
        page: 2,
        label: String::from_str(alloc, "tier")?,
        summary: (
            String::from_str(alloc, "default")?,
            String::from_str(alloc, "summary")?,
        ),
    })
}

/// How a play over this link ends and what it has written, where so many writes succeed.
fn played_over<L: Link>(
    alloc: Global,
    events: &[WorldEvent],
    link: &mut L,
    writes: usize,
) -> Result<(Result<(), ReplayFault>, Vec<u8>), Fail> {
    let mut writer = Filling {
        writes,
        taken: Vec::new(alloc),
    };
    let ended = replay(
        alloc,
        types(alloc)?,
        settings(alloc)?,
        events,
        link,
        &mut writer,
    );
    Ok((ended, writer.taken))
}

/// The same over a link that carries so many pieces.
fn played(
    alloc: Global,
    events: &[WorldEvent],
    pieces: usize,
    writes: usize,
) -> Result<(Result<(), ReplayFault>, Vec<u8>), Fail> {
    played_over(alloc, events, &mut Breaking { pieces }, writes)
}

/// The same over sockets of a network.
fn played_through<R: Net>(
    alloc: Global,
    events: &[WorldEvent],
    net: &R,
) -> Result<(Result<(), ReplayFault>, Vec<u8>), Fail> {
    played_over(alloc, events, &mut OverLoopback::new(net), 1000)
}

/// The same over sockets of this fate.
fn played_with(
    rt: &HostRuntime,
    events: &[WorldEvent],
    fate: &Fate,
) -> Result<(Result<(), ReplayFault>, Vec<u8>), Fail> {
    played_through(rt.alloc(), events, &FailingNet { rt, fate })
}

/// Whether a play that could write so often has ended as it must: with all, or with a prefix and the writer's fault.
fn is_right(ended: &Result<(), ReplayFault>, taken: &[u8], whole: &[u8], writes: usize) -> bool {
    match ended {
        Ok(()) => taken == whole && 8 < writes,
        Err(ReplayFault::Write(_)) => {
            let most = writes.saturating_mul(MOST);
            taken.len() <= most && taken.len() < whole.len() && whole.starts_with(taken)
        }
        Err(_) => false,
    }
}

/// The test fails unless a play has written nothing, and tells that the link failed.
fn expect_fault_of_link(played: &(Result<(), ReplayFault>, Vec<u8>)) -> Result<(), Fail> {
    match &played.0 {
        Err(ReplayFault::Link) if played.1.is_empty() => Ok(()),
        _ => Err(Fail::new("no fault of the link")),
    }
}

/// With one write less than it needs a play has written a prefix, and tells that the writer failed.
#[test]
fn output_fails_at_each_write(rt: HostRuntime) -> Result<(), Fail> {
    let alloc = rt.alloc();
    let events = read_script(alloc, SCRIPT)?;
    let (_, whole) = played(alloc, &events, PIECES, 1000)?;
    for writes in 0..1000 {
        let (ended, taken) = played(alloc, &events, PIECES, writes)?;
        if !is_right(&ended, &taken, &whole, writes) {
            return Err(Fail::new("another end"));
        }
        if ended.is_ok() {
            return Ok(());
        }
    }
    Err(Fail::new("it never ends"))
}

/// With one piece less than it needs a play has written nothing, and tells that the link failed.
#[test]
fn link_fails_at_each_piece(rt: HostRuntime) -> Result<(), Fail> {
    let alloc = rt.alloc();
    let events = read_script(alloc, SCRIPT)?;
    for pieces in 0..PIECES {
        expect_fault_of_link(&played(alloc, &events, pieces, 1000)?)?;
    }
    let (ended, _) = played(alloc, &events, PIECES, 1000)?;
    match ended {
        Ok(()) => Ok(()),
        Err(_) => Err(Fail::new("a fault")),
    }
}

/// With one call less than it needs, of those that bind, connect, accept, write and read, a play over loopback has
/// written nothing, and tells that the link failed.
#[test]
fn sockets_fail_at_each_call(rt: HostRuntime) -> Result<(), Fail> {
    let events = read_script(rt.alloc(), SCRIPT)?;
    for calls in 0..CALLS {
        expect_fault_of_link(&played_with(&rt, &events, &Fate::new(calls, false))?)?;
    }
    let (ended, taken) = played_with(&rt, &events, &Fate::new(CALLS, false))?;
    let (_, whole) = played_over(rt.alloc(), &events, &mut OverMemory, 1000)?;
    if ended.is_ok() && taken.as_slice() == whole.as_slice() {
        return Ok(());
    }
    Err(Fail::new("a fault"))
}

/// Bytes that arrive otherwise than they were written are a fault of the link.
#[test]
fn garbled_bytes_are_reported(rt: HostRuntime) -> Result<(), Fail> {
    let events = read_script(rt.alloc(), SCRIPT)?;
    expect_fault_of_link(&played_with(&rt, &events, &Fate::new(CALLS, true))?)
}

#[test]
fn faults_of_memory_have_a_status(rt: HostRuntime) -> Result<(), Fail> {
    let statuses = (RunFault::Memory.status(), RunFault::Store.status());
    assert_eq!(rt; statuses, (5, 5));
    Ok(())
}
