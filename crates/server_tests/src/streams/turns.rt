//! Turns over memory, of connections one after another and of many at once: a stream that is cut, has no room or fails
//! changes no byte of another connection. Sockets are tested in `loopback` and `polled_loopback`.

use crate::given::{WIDGET_TYPES, fresh_api};
use crate::streams::given::{ADDED, APPLY, CREATED, HALF, LIST, NO_ITEMS, WATCH, expect};
use crate::streams::over_memory::{MOST, Memory, PLENTY};
use httpedge::{Event, Hub, HubFault};
use observing::Unobserved;
use polling::{Next, Peer};
use serving::{pump, turn};
use std::alloc::Global;
use std::io::ErrorKind;
use std::mem;
use std::test::Fail;
use std::time::Instant;

/// How many bytes the head of a watch has.
const HEAD: usize = 98;

/// A call in a function of its own, so that what calls it carries none of its clauses.
fn open(hub: &mut Hub, id: u64) -> Result<(), HubFault> {
    hub.on(&Event::Open(id))
}

/// What a peer is asked for.
#[derive(Clone, Copy)]
enum Turn {
    /// Its stream is read and written.
    Look,
    /// Its watch writes so many lines, at most.
    Pump(u64),
}

/// The test fails unless this comes next after a connection's turn, and its stream has taken this text then.
fn expect_turn<'a>(
    rt: &HostRuntime,
    hub: &mut Hub,
    id: u64,
    peer: &mut Peer<Memory<'a>>,
    wanted: (Turn, Next, &[u8]),
) -> Result<(), Fail> {
    let (turn, next, text) = wanted;
    let now = Instant::now(rt)?;
    let came = match turn {
        Turn::Look => peer.look(rt.alloc(), hub, &mut Unobserved, id, now),
        Turn::Pump(lines) => peer.pump(hub, &mut Unobserved, id, lines, now),
    };
    let is_taken = peer.stream.taken.as_slice() == text;
    expect(came == next && is_taken, "a turn came to something else")
}

/// Turns of a connection of its own; after the first there is room for all.
fn expect_turns<'a>(
    rt: &HostRuntime,
    hub: &mut Hub,
    id: u64,
    stream: Memory<'a>,
    turns: &[(Next, &[u8])],
) -> Result<(), Fail> {
    open(hub, id)?;
    let mut peer = Peer::new(stream, Instant::now(rt)?);
    for (next, text) in turns {
        expect_turn(rt, hub, id, &mut peer, (Turn::Look, *next, *text))?;
        peer.stream.room = usize::MAX;
    }
    Ok(())
}

/// A request that comes in two parts, wherever it is cut, gets its reply with the second.
fn cut_anywhere(rt: &HostRuntime, hub: &mut Hub) -> Result<(), Fail> {
    let bytes = LIST.as_bytes();
    let nothing: &[u8] = &[];
    let turns = [(Next::Reads, nothing), (Next::Reads, NO_ITEMS.as_bytes())];
    for cut in 0..bytes.len() {
        let id = cut as u64;
        let stream = Memory::new(rt.alloc(), &bytes[..cut], &bytes[cut..]);
        expect_turns(rt, hub, id, stream, &turns)?;
        expect(hub.ended(id), "the reply did not end the connection")?;
    }
    Ok(())
}

/// A reply for which there is no room waits, and goes on where it was once there is room.
fn waits_anywhere(rt: &HostRuntime, hub: &mut Hub) -> Result<(), Fail> {
    let reply = NO_ITEMS.as_bytes();
    for room in 0..reply.len() {
        let mut stream = Memory::new(rt.alloc(), LIST.as_bytes(), b"");
        stream.room = room;
        let turns = [(Next::Writes, &reply[..room]), (Next::Reads, reply)];
        expect_turns(rt, hub, room as u64, stream, &turns)?;
    }
    Ok(())
}

/// A stream fails once it was read and written so often: it has taken this, its connection is over, and another gets what it gets
/// without it.
fn fails_beside_another(
    rt: &HostRuntime,
    hub: &mut Hub,
    id: u64,
    often: (usize, usize),
    prefix: &[u8],
) -> Result<(), Fail> {
    let mut failing = Memory::new(rt.alloc(), LIST.as_bytes(), b"");
    let (reads, writes) = often;
    failing.reads = reads;
    failing.writes = writes;
    expect_turns(rt, hub, id, failing, &[(Next::Over, prefix)])?;
    let other = Memory::new(rt.alloc(), LIST.as_bytes(), b"");
    let turns = [(Next::Reads, NO_ITEMS.as_bytes())];
    expect_turns(rt, hub, id.saturating_add(1), other, &turns)
}

/// A stream can't be read any more once its request is whole: it takes the whole reply, and then this comes next.
fn fails_behind_its_request(
    rt: &HostRuntime,
    hub: &mut Hub,
    id: u64,
    error: ErrorKind,
    next: Next,
) -> Result<(), Fail> {
    let mut failing = Memory::new(rt.alloc(), LIST.as_bytes(), b"");
    failing.reads = LIST.len().div_ceil(MOST);
    failing.error = error;
    expect_turns(rt, hub, id, failing, &[(next, NO_ITEMS.as_bytes())])
}

/// A stream fails at each read and at each write.
fn fails_anywhere(rt: &HostRuntime, hub: &mut Hub) -> Result<(), Fail> {
    for reads in 0..LIST.len().div_ceil(MOST) {
        let id = (reads as u64).saturating_mul(2);
        fails_beside_another(rt, hub, id, (reads, PLENTY), b"")?;
    }
    for writes in 0..NO_ITEMS.len().div_ceil(MOST) {
        let id = (writes as u64).saturating_mul(2).saturating_add(100);
        let taken = writes.saturating_mul(MOST);
        let prefix = NO_ITEMS.as_bytes().get(..taken).unwrap_or(b"");
        fails_beside_another(rt, hub, id, (PLENTY, writes), prefix)?;
    }
    let memory = ErrorKind::OutOfMemory;
    fails_behind_its_request(rt, hub, 1000, ErrorKind::ConnectionReset, Next::Over)?;
    fails_behind_its_request(rt, hub, 1001, memory, Next::Failed(memory))
}

/// A watch for which bytes wait isn't pumped: no more waits than one pump wrote, and nothing is lost.
fn waiting_watch<'a>(
    rt: &HostRuntime,
    hub: &mut Hub,
    peer: &mut Peer<Memory<'a>>,
) -> Result<(), Fail> {
    let in_words = ADDED.as_bytes();
    let prefix = in_words.get(..10).unwrap_or(in_words);
    let head = in_words.get(..HEAD).unwrap_or(in_words);
    expect_turn(rt, hub, 1, peer, (Turn::Look, Next::Writes, prefix))?;
    let applying = Memory::new(rt.alloc(), APPLY.as_bytes(), b"");
    expect_turns(rt, hub, 2, applying, &[(Next::Reads, CREATED.as_bytes())])?;
    let waiting = hub.out(1).len();
    expect_turn(rt, hub, 1, peer, (Turn::Pump(500), Next::Writes, prefix))?;
    expect(hub.out(1).len() == waiting, "a watch that waits was pumped")?;
    peer.stream.room = usize::MAX;
    expect_turn(rt, hub, 1, peer, (Turn::Look, Next::Reads, head))?;
    expect_turn(rt, hub, 1, peer, (Turn::Pump(500), Next::Reads, in_words))
}

fn watch_without_room(rt: &HostRuntime, hub: &mut Hub) -> Result<(), Fail> {
    open(hub, 1)?;
    let now = Instant::now(rt)?;
    let mut stream = Memory::new(rt.alloc(), WATCH.as_bytes(), b"");
    stream.room = 10;
    waiting_watch(rt, hub, &mut Peer::new(stream, now))
}

/// A connection asks, over a stream that fails once it was read so often.
fn ask<'a>(
    alloc: Global,
    hub: &mut Hub,
    id: u64,
    request: &[u8],
    reads: usize,
    writer: &mut Memory<'a>,
) {
    let mut reader = Memory::new(alloc, request, b"");
    reader.ends = true;
    reader.reads = reads;
    let _ = turn(alloc, hub, &mut Unobserved, id, &mut reader, writer);
}

/// A watch may write a line.
fn pump_one<'a>(hub: &mut Hub, id: u64, writer: &mut Memory<'a>) {
    let _ = pump(hub, &mut Unobserved, id, 1, writer);
}

/// Three connections one after another, the first of a stream that may fail; then each watch has its turn. The first takes
/// so many bytes of a watch, and the others all of theirs.
fn expect_in_words(
    alloc: Global,
    hub: &mut Hub,
    request: &str,
    fails: (usize, usize),
    most: usize,
) -> Result<(), Fail> {
    let (reads, writes) = fails;
    let mut failing = Memory::new(alloc, b"", b"");
    let mut watch = Memory::new(alloc, b"", b"");
    let mut apply = Memory::new(alloc, b"", b"");
    failing.writes = writes;
    ask(alloc, hub, 1, request.as_bytes(), reads, &mut failing);
    ask(alloc, hub, 2, WATCH.as_bytes(), PLENTY, &mut watch);
    ask(alloc, hub, 3, APPLY.as_bytes(), PLENTY, &mut apply);
    pump_one(hub, 1, &mut failing);
    pump_one(hub, 2, &mut watch);
    let is_prefix = ADDED.as_bytes().starts_with(&failing.taken) && failing.taken.len() == most;
    let is_whole = watch.taken.as_slice() == ADDED.as_bytes()
        && apply.taken.as_slice() == CREATED.as_bytes();
    expect(is_prefix && is_whole, "a stream took something else")
}

/// Two watches of many at once, the first of a stream that fails once it was written so often; then an apply, and each has its
/// turn. The first takes so many bytes, and the others all of theirs.
fn expect_all_in_words(
    rt: &HostRuntime,
    hub: &mut Hub,
    writes: usize,
    most: usize,
) -> Result<(), Fail> {
    open(hub, 1)?;
    open(hub, 2)?;
    let now = Instant::now(rt)?;
    let mut failing = Peer::new(Memory::new(rt.alloc(), WATCH.as_bytes(), b""), now);
    let mut watch = Peer::new(Memory::new(rt.alloc(), WATCH.as_bytes(), b""), now);
    failing.stream.writes = writes;
    let _ = failing.look(rt.alloc(), hub, &mut Unobserved, 1, now);
    let _ = watch.look(rt.alloc(), hub, &mut Unobserved, 2, now);
    let apply = Memory::new(rt.alloc(), APPLY.as_bytes(), b"");
    expect_turns(rt, hub, 3, apply, &[(Next::Reads, CREATED.as_bytes())])?;
    let _ = failing.pump(hub, &mut Unobserved, 1, 1, now);
    let _ = watch.pump(hub, &mut Unobserved, 2, 1, now);
    let taken = failing.stream.taken.as_slice();
    let is_prefix = ADDED.as_bytes().starts_with(taken) && taken.len() == most;
    let is_whole = watch.stream.taken.as_slice() == ADDED.as_bytes();
    expect(is_prefix && is_whole, "a watch took something else")
}

/// What a fresh hub is tried by.
#[derive(Clone, Copy)]
enum Trial {
    Cuts,
    Room,
    Failures,
    Watch,
    /// Half a request gets no reply.
    Half,
    /// A watch whose stream fails once it was read or written so often, and how much it takes.
    Failing(usize, usize, usize),
    /// One of many at once whose stream fails once it was written so often, and how much it takes.
    FailingAmongMany(usize, usize),
}

fn tried_on(rt: &HostRuntime, hub: &mut Hub, trial: Trial) -> Result<(), Fail> {
    match trial {
        Trial::Cuts => cut_anywhere(rt, hub),
        Trial::Room => waits_anywhere(rt, hub),
        Trial::Failures => fails_anywhere(rt, hub),
        Trial::Watch => watch_without_room(rt, hub),
        Trial::Half => expect_in_words(rt.alloc(), hub, HALF, (PLENTY, PLENTY), 0),
        Trial::Failing(reads, writes, most) => {
            expect_in_words(rt.alloc(), hub, WATCH, (reads, writes), most)
        }
        Trial::FailingAmongMany(writes, most) => expect_all_in_words(rt, hub, writes, most),
    }
}

/// Tries a hub of its own. It is not dropped, and no other function holds one: one that drops a hub takes a minute to prove.
fn tried(rt: &HostRuntime, trial: Trial) -> Result<(), Fail> {
    let mut hub = Hub::new(rt.alloc(), fresh_api(rt.alloc(), WIDGET_TYPES)?);
    let tried = tried_on(rt, &mut hub, trial);
    mem::forget(hub);
    tried
}

/// How many bytes of the watch so many writes take: those of its head, and then those of its line.
fn taken_by(writes: usize) -> usize {
    let later = writes.saturating_sub(HEAD.div_ceil(MOST));
    let head = HEAD.min(writes.saturating_mul(MOST));
    let line = ADDED.len().saturating_sub(HEAD);
    head.saturating_add(line.min(later.saturating_mul(MOST)))
}

/// A request is cut anywhere, a reply waits anywhere, failing streams leave others, a watch that waits isn't pumped.
#[test]
fn turns_of_many(rt: HostRuntime) -> Result<(), Fail> {
    for trial in [Trial::Cuts, Trial::Room, Trial::Failures, Trial::Watch] {
        tried(&rt, trial)?;
    }
    Ok(())
}

/// Failed reads and writes leave others, in both ways of serving; half a request gets no reply. The last of the writes take all of
/// the watch.
#[test]
fn turns_one_by_one(rt: HostRuntime) -> Result<(), Fail> {
    tried(&rt, Trial::Half)?;
    for reads in 0..WATCH.len().div_ceil(MOST) {
        tried(&rt, Trial::Failing(reads, PLENTY, 0))?;
    }
    for writes in 0..20 {
        tried(&rt, Trial::Failing(PLENTY, writes, taken_by(writes)))?;
        tried(&rt, Trial::FailingAmongMany(writes, taken_by(writes)))?;
    }
    Ok(())
}
