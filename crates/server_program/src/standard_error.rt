//! The standard error of a server, on which nobody has to wait for whoever reads it. What is told there stands in `witness` and
//! `following`.

use event_log::{Line, Sink};
use mio::unix::SourceFd;
use mio::{Events, Interest, Poll, Token};
use std::fmt::Display;
use std::net::Net;
use std::time::Duration;

/// The number of the standard error.
const NUMBER: i32 = 2;

/// Whether the standard error takes more at once, as the system says.
#[derive(Drop)]
struct Readiness {
    poll: Poll,
    events: Events,
}

impl Readiness {
    /// None where the system can't say it, as of a file, which always takes more.
    fn new<R: Net + AllocGlobal>(rt: &R) -> Option<Readiness> {
        let poll = Poll::new(rt).ok()?;
        let events = Events::with_capacity(rt.alloc(), 1).ok()?;
        let number = NUMBER;
        let mut source = SourceFd(&number);
        poll.registry()
            .register(&mut source, Token(0), Interest::WRITABLE)
            .ok()?;
        Some(Readiness { poll, events })
    }

    /// Whether a page can be written, 4,096 bytes, and nobody has to wait.
    fn is_given(&mut self) -> bool {
        let number = NUMBER;
        let mut source = SourceFd(&number);
        // Only a change is reported, or what is so when it is asked anew.
        let asked = self
            .poll
            .registry()
            .reregister(&mut source, Token(0), Interest::WRITABLE);
        let polled = self.poll.poll(&mut self.events, Some(Duration::ZERO));
        asked.is_err() || polled.is_err() || !self.events.is_empty()
    }
}

/// Prints lines on the standard error, and leaves out those for which it would have to wait.
#[derive(Drop)]
pub struct StandardError<'a, R> {
    rt: &'a R,
    readiness: Option<Readiness>,
    /// How many lines were left out since the last one.
    left_out: u64,
}

impl<'a, R: Net + Eprint + AllocGlobal> StandardError<'a, R> {
    /// Nothing was left out yet.
    pub fn new(rt: &'a R) -> StandardError<'a, R> {
        StandardError {
            rt,
            readiness: Readiness::new(rt),
            left_out: 0,
        }
    }

    fn takes_more(&mut self) -> bool {
        match &mut self.readiness {
            Some(readiness) => readiness.is_given(),
            None => true,
        }
    }

    /// Prints a line, after how many were left out before it.
    pub fn print<D: Display + Drop>(&mut self, line: D) {
        if !self.takes_more() {
            self.left_out = self.left_out.saturating_add(1);
            return;
        }
        // A line that can't be written is lost.
        if self.left_out > 0 {
            let count = self.left_out;
            let _ = eprintln!(self.rt; "{count} lines were left out, since nobody read them");
            self.left_out = 0;
        }
        let _ = self.rt.eprintln(line);
    }
}

impl<'a, R: Net + Eprint + AllocGlobal> Sink for StandardError<'a, R> {
    fn tell(&mut self, line: &Line<'_>) {
        self.print(line);
    }
}
