//! A line of the log, and how it reads. What is told when stands in `log`.

use httpedge::HubFailure;
use observing::Disturbance;
use std::fmt;
use std::io::ErrorKind;
use std::time::{Duration, Instant};

/// How many characters of a word are shown, and a few more: so that a line has less than a page of a pipe, 4,096 bytes.
const MOST_SHOWN: usize = 1000;

/// What takes lines of a log.
pub trait Sink {
    /// The next line, without its line feed.
    fn tell(&mut self, line: &Line<'_>);
}

/// When something happened.
#[derive(Clone, Copy, Debug)]
pub struct Moment {
    pub now: Instant,
    pub since_1970: Duration,
}

impl Moment {
    /// The time since an earlier moment.
    pub fn since(&self, earlier: Instant) -> Duration {
        self.now.duration_since(earlier)
    }
}

/// What was asked: method and target, empty where they aren't known.
#[derive(Clone, Copy, Debug)]
pub struct LogCall<'a> {
    pub method: &'a str,
    pub target: &'a str,
}

impl<'a> LogCall<'a> {
    /// It isn't known.
    pub fn none() -> LogCall<'a> {
        LogCall::named("")
    }

    /// What no connection asked, by a name.
    pub fn named(name: &'a str) -> LogCall<'a> {
        LogCall {
            method: name,
            target: "",
        }
    }
}

/// The manager that a request target's query names: the value of its first `fieldManager` as it stands there; empty where there
/// is none.
fn manager_in(target: &str) -> &str {
    let Some((_, query)) = target.split_once('?') else {
        return "";
    };
    for pair in query.split('&') {
        if let Some(manager) = pair.strip_prefix("fieldManager=") {
            return manager;
        }
    }
    ""
}

/// What a line tells.
#[derive(Clone, Copy, Debug)]
pub enum Told {
    /// A reply, or the head of a watch, or that there is none: the status, how many bytes it has, and how long its last piece
    /// took.
    Reply(Option<u16>, u64, Duration),
    /// A watch is over: how many lines and bytes it got, and how long its connection was open.
    Ended(u64, u64, Duration),
    /// The hub failed.
    Failed(HubFailure),
    /// Memory, or the system, failed a stream.
    Lost(ErrorKind),
    /// The server disturbs a watch by itself.
    Disturbed(Disturbance),
}

/// A line of the log.
#[derive(Clone, Copy, Debug)]
pub struct Line<'a> {
    since_1970: Duration,
    id: u64,
    call: LogCall<'a>,
    told: Told,
}

impl<'a> Line<'a> {
    ghost use Rattle.std.specs.Prelude.{◌≡◌};

    /// This is told of a connection, whose id is 0 where it is of none.
    pub fn new(since_1970: Duration, id: u64, call: LogCall<'a>, told: Told) -> Line<'a>
        ensures id { result.id ≡ id }
        ensures call { result.call ≡ call.entry }
        ensures told { result.told ≡ told }
    {
        Line {
            since_1970,
            id,
            call,
            told,
        }
    }
}

/// A word of a line as printable ASCII, `-` where there is none; what is left of a long one is `..`.
#[derive(Clone, Copy)]
struct Word<'a>(&'a str);

/// Writes a byte as printable ASCII, and answers by how many characters.
fn write_shown<W: fmt::Write>(f: &mut fmt::Formatter<W>, byte: u8) -> Result<usize, fmt::Error> {
    if byte.is_ascii_graphic() {
        f.write_char(byte as char)?;
        return Ok(1);
    }
    write!(f, "\\x{byte:02x}")?;
    Ok(4)
}

impl fmt::Display for Word<'_> {
    fn fmt<W: fmt::Write>(&self, f: &mut fmt::Formatter<W>) -> fmt::Result {
        if self.0.is_empty() {
            return f.write_str("-");
        }
        let mut shown = 0usize;
        for byte in self.0.as_bytes() {
            if shown >= MOST_SHOWN {
                return f.write_str("..");
            }
            shown = shown.saturating_add(write_shown(f, *byte)?);
        }
        Ok(())
    }
}

/// A duration in milliseconds, with three digits behind the point.
#[derive(Clone, Copy)]
struct Millis(Duration);

impl fmt::Display for Millis {
    fn fmt<W: fmt::Write>(&self, f: &mut fmt::Formatter<W>) -> fmt::Result {
        let micros = self.0.as_micros();
        let millis = micros / 1000;
        let rest = micros % 1000;
        write!(f, "{millis}.{rest:03}")
    }
}

fn write_status<W: fmt::Write>(f: &mut fmt::Formatter<W>, status: Option<u16>) -> fmt::Result {
    match status {
        Some(status) => write!(f, "{status}"),
        None => f.write_str("-"),
    }
}

/// What becomes of a watch that is disturbed so.
fn word_of(how: Disturbance) -> &'static str {
    match how {
        Disturbance::Cut => "cut",
        Disturbance::Hold => "held back",
        Disturbance::Expiry => "expired",
    }
}

impl fmt::Display for Line<'_> {
    fn fmt<W: fmt::Write>(&self, f: &mut fmt::Formatter<W>) -> fmt::Result {
        let seconds = self.since_1970.as_secs();
        let millis = self.since_1970.subsec_millis();
        write!(f, "{seconds}.{millis:03} {} ", self.id)?;
        write!(f, "{} {} ", Word(self.call.method), Word(self.call.target))?;
        match self.told {
            Told::Reply(status, bytes, took) => {
                write_status(f, status)?;
                write!(
                    f,
                    " {bytes} {} {}",
                    Word(manager_in(self.call.target)),
                    Millis(took)
                )
            }
            Told::Ended(lines, bytes, lasted) => {
                write!(f, "ended {lines} {bytes} {}", Millis(lasted))
            }
            Told::Failed(failure) => write!(f, "failed: {failure}"),
            Told::Lost(why) => write!(f, "failed: {why}"),
            Told::Disturbed(how) => write!(f, "disturbed: {}", word_of(how)),
        }
    }
}
