//! Connections that rows dial, and turns of a mirror over them. The replies are made in `replies`, the informer in `playing`.
//!
//! `mirror TURNS REPLIES|REPLIES`: how so many turns of a mirror end, what is printed of them, how often the dialer was told of
//! trouble, and of which last. `turns TURNS REPLIES|REPLIES`: the relist reason that a caller sees who takes turn after turn.

use crate::cached::By;
use crate::informers::playing::{expect_rows, target_in};
use crate::informers::replies::replies;
use crate::rows::in_words;
use mirroring::{Dial, mirror, turn};
use reflector::{Informer, RelistReason};
use std::alloc::Global;
use std::io::{ErrorKind, Read};
use std::test::Fail;
use std::{cmp, io};

/// The most bytes that are read at a time.
const MOST: usize = 7;

/// A connection that gives these bytes in small pieces and then fails.
#[derive(Drop)]
pub struct Cut {
    bytes: Vec<u8>,
    at: usize,
    /// How many reads succeed at most.
    reads: usize,
}

impl Read for Cut {
    fn read(&mut self, buf: &mut [u8]) -> io::Result<usize> {
        let mut rest = &self.bytes[cmp::min(self.at, self.bytes.len())..];
        let most = cmp::min(buf.len(), MOST);
        let count = rest.read(&mut buf[..most])?;
        if count == 0 || self.reads == 0 {
            return Err(io::Error::from(ErrorKind::ConnectionReset));
        }
        self.at = self.at.saturating_add(count);
        self.reads -= 1;
        Ok(count)
    }
}

/// Answers each request with the next of these replies; behind the last there is no connection. It keeps what was asked, how
/// often it was told that a reply was given up, and why the last one was.
#[derive(Drop)]
pub struct Server {
    alloc: Global,
    replies: Vec<String>,
    at: usize,
    /// How many reads succeed at most, of all connections.
    pub reads: usize,
    pub times: u64,
    pub relist_reason: Option<RelistReason>,
    /// What each request asked.
    pub targets: String,
}

impl Dial for Server {
    type Reader = Cut;

    fn dial(&mut self, request: &[u8]) -> io::Result<Cut> {
        let target = target_in(request).map_err(|_| io::Error::from(ErrorKind::InvalidInput))?;
        self.targets.push_str(" ")?;
        self.targets.push_str(target)?;
        let Some(reply) = self.replies.get(self.at) else {
            return Err(io::Error::from(ErrorKind::ConnectionRefused));
        };
        let bytes = Vec::from_slice(self.alloc, reply.as_bytes())?;
        self.at = self.at.saturating_add(1);
        let reads = cmp::min(self.reads, bytes.len().div_ceil(MOST));
        self.reads -= reads;
        Ok(Cut {
            bytes,
            at: 0,
            reads,
        })
    }

    fn given_up(&mut self, relist_reason: RelistReason) {
        self.times = self.times.saturating_add(1);
        self.relist_reason = Some(relist_reason);
    }
}

/// A server whose connections are parted by `|`, each of the words of `replies`.
pub fn server_of(alloc: Global, words: &str) -> Result<Server, Fail> {
    let mut all = Vec::new(alloc);
    for each in words.split('|') {
        all.push(replies(alloc, each)?)?;
    }
    Ok(Server {
        alloc,
        replies: all,
        at: 0,
        reads: usize::MAX,
        times: 0,
        relist_reason: None,
        targets: String::new(alloc),
    })
}

/// How so many turns of a mirror end, what is printed of them, how often the dialer was told of relist reasons, and of which last.
pub fn mirrored(
    alloc: Global,
    server: &mut Server,
    informer: &mut Informer<By>,
    turns: u64,
) -> Result<String, Fail> {
    let mut out = Vec::new(alloc);
    let done = mirror(alloc, server, informer, &mut out, turns);
    let end = if done.is_ok() { "done" } else { "a fault" };
    let told = (
        end,
        str::from_utf8(&out),
        server.times,
        server.relist_reason,
    );
    in_words(alloc, told)
}

/// What a caller of so many turns sees of relist reasons.
pub fn troubled(
    alloc: Global,
    server: &mut Server,
    informer: &mut Informer<By>,
    turns: u64,
) -> Result<String, Fail> {
    let mut out = Vec::new(alloc);
    let mut text = String::new(alloc);
    for _ in 0..turns {
        if turn(alloc, server, informer, &mut out).is_err() {
            text.push_str("a fault;")?;
        } else if let Some(relist_reason) = informer.relist_reason() {
            text.push_str(format!(in alloc; "{relist_reason};")?.as_str())?;
        }
    }
    Ok(text)
}

const EXAMPLE: &str = r#"mirrors_and_turns
mirror 0 page 6 6.default.w2 w1@2 w2@3|page 6 - w3@4|watch;line MODIFIED w1@7,red;half ADDED w4@8|watch;line ADDED w4@8;line DELETED w2@9|status 410 Gone|page 12 - w4@8 w5@12 => ("done", Ok(""), 0, None)
mirror 0 status 400 Bad Request|page 6 - w1@2|watch;half MODIFIED w1@7|status 410 Gone|page 12 - w1@8|watch;end => ("done", Ok(""), 0, None)
turns 6 status 400 Bad Request|page 6 - w1@2|watch;half MODIFIED w1@7|status 410 Gone|page 12 - w1@8|watch;end => status 400;status 410;"#;

#[test]
fn mirrors_and_turns(rt: HostRuntime) -> Result<(), Fail> {
    expect_rows(rt.alloc(), "", EXAMPLE)
}
