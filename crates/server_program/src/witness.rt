//! Who is told all that happens to a server's hub: it keeps the record, and has the log and what fails told on the standard
//! error.

use crate::standard_error::StandardError;
use event_log::{Log, Moment, Record};
use httpedge::{Effect, Event, Hub, HubFault};
use observing::{Disturbance, Observer};
use std::fmt;
use std::fs::OpenOptions;
use std::io::{self, ErrorKind};
use std::net::Net;
use std::rt::{Clock, Files};
use std::time::{Instant, SystemTime, UNIX_EPOCH};

/// What a server tells of what happens to it.
#[derive(Drop)]
pub struct Witness<'a, R: Files> {
    rt: &'a R,
    path: &'a str,
    /// The record; none where none is asked for, or it couldn't be written.
    record: Option<Record<R::File>>,
    log: Log,
    errors: StandardError<'a, R>,
}

/// Why the record of this path can't be written.
#[derive(Drop)]
struct RecordFault<'a>(&'a str, io::Error);

impl fmt::Display for RecordFault<'_> {
    fn fmt<W: fmt::Write>(&self, f: &mut fmt::Formatter<W>) -> fmt::Result {
        write!(f, "record {}: {}", self.0, self.1)
    }
}

/// A file of this path without bytes.
fn created<R: Files>(rt: &R, path: &str) -> io::Result<R::File> {
    let mut how = OpenOptions::new();
    how.write(true);
    how.create(true);
    how.truncate(true);
    rt.open_file(&how, path)
}

/// The time.
fn moment<R: Clock>(rt: &R) -> io::Result<Moment> {
    let now = Instant::now(rt)?;
    let since_1970 = SystemTime::now(rt)?
        .duration_since(UNIX_EPOCH)
        .unwrap_or_default();
    Ok(Moment { now, since_1970 })
}

impl<'a, R: Files + Net + Clock + Eprint + AllocGlobal> Witness<'a, R> {
    /// Tells what fails, and what is asked for: a record in a file of this path, a log.
    pub fn new(rt: &'a R, path: Option<&'a str>, is_logging: bool) -> io::Result<Witness<'a, R>> {
        let mut witness = Witness {
            rt,
            path: path.unwrap_or(""),
            record: None,
            log: Log::new(rt.alloc(), is_logging, Instant::now(rt)?),
            errors: StandardError::new(rt),
        };
        if let Some(path) = path {
            match created(rt, path) {
                Ok(file) => witness.record = Some(Record::new(file)),
                Err(error) => witness.lose(error),
            }
        }
        Ok(witness)
    }

    /// The record can't be written: that is told, and nothing more is recorded.
    fn lose(&mut self, error: io::Error) {
        self.record = None;
        let fault = RecordFault(self.path, error);
        self.errors.print(&fault);
    }

    fn keep(&mut self, event: &Event) {
        let Some(record) = &mut self.record else {
            return;
        };
        if let Err(error) = record.keep(self.rt.alloc(), event) {
            self.lose(error);
        }
    }
}

impl<'a, R: Files + Net + Clock + Eprint + AllocGlobal> Observer for Witness<'a, R> {
    fn sees(&mut self, event: &Event) {
        self.keep(event);
        if !self.log.tells_all() {
            return;
        }
        if let Ok(now) = Instant::now(self.rt) {
            self.log.begin(now);
        }
    }

    fn learns(&mut self, hub: &Hub, event: &Event, done: &Result<Effect, HubFault>) {
        if !self.log.tells(event, done) {
            return;
        }
        if let Ok(moment) = moment(self.rt) {
            self.log.tell(&mut self.errors, hub, event, done, moment);
        }
    }

    fn loses(&mut self, id: u64, why: ErrorKind) {
        if let Ok(moment) = moment(self.rt) {
            self.log.tell_loss(&mut self.errors, id, why, moment);
        }
    }

    fn disturbs(&mut self, id: u64, how: Disturbance) {
        if !self.log.tells_all() {
            return;
        }
        if let Ok(moment) = moment(self.rt) {
            self.log.tell_disturbance(&mut self.errors, id, how, moment);
        }
    }
}
