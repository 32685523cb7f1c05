//! Follows the types file while its types are served: each second its text is read, and where it has another the types that
//! this declares are served from then on. Which change of types is lawful stands in `api_types`.

use crate::standard_error::StandardError;
use api_types::Profile;
use httpedge::HubFault;
use observing::Observer;
use polling::Server;
use programs::{RunFault, types_in, types_text};
use serde_json::Value;
use std::net::Net;
use std::rt::{Clock, Files};
use std::time::{Duration, Instant};
use std::{fmt, io};

/// The milliseconds between two looks at the file.
const LOOKS: u64 = 1000;

/// A types file, and the text by which its types are served or were refused last.
#[derive(Drop)]
pub struct FollowedFile<'a, R> {
    rt: &'a R,
    profile: Profile,
    path: &'a str,
    text: String,
    looked: Instant,
    /// It couldn't be read, and that is told.
    is_lost: bool,
    errors: StandardError<'a, R>,
}

/// What came of other types: why they aren't served, or the revision from which on they are.
#[derive(Clone, Copy)]
enum Outcome {
    Unserved(HubFault),
    Served(u64),
}

/// What came of other types of a file of this path.
#[derive(Clone, Copy)]
struct OfTypes<'a>(&'a str, Outcome);

impl fmt::Display for OfTypes<'_> {
    fn fmt<W: fmt::Write>(&self, f: &mut fmt::Formatter<W>) -> fmt::Result {
        let path = self.0;
        match self.1 {
            Outcome::Unserved(fault) => write!(f, "types file {path}: {fault}"),
            Outcome::Served(revision) => {
                write!(f, "types file {path}: served at revision {revision}")
            }
        }
    }
}

impl<'a, R: Files + Net + Clock + Eprint + AllocGlobal> FollowedFile<'a, R> {
    /// The file of this text, which is read for the profile.
    pub fn new(
        rt: &'a R,
        profile: Profile,
        path: &'a str,
        text: String,
        now: Instant,
    ) -> FollowedFile<'a, R> {
        FollowedFile {
            rt,
            profile,
            path,
            text,
            looked: now,
            is_lost: false,
            errors: StandardError::new(rt),
        }
    }

    /// Looks at the file, a second after the last look: where it has another text, its types are served, or it is told on
    /// the standard error why not. It fails where the clock can't be read, and nowhere else.
    pub fn look<O: Observer>(&mut self, observer: &mut O, server: &mut Server) -> io::Result<()> {
        let now = Instant::now(self.rt)?;
        if now.duration_since(self.looked) < Duration::from_millis(LOOKS) {
            return Ok(());
        }
        self.looked = now;
        match types_text(self.rt, self.path) {
            Ok(text) => {
                self.is_lost = false;
                self.take(observer, server, text);
            }
            Err(fault) => self.lose(&fault),
        }
        Ok(())
    }

    /// It can't be read, which is told once.
    fn lose(&mut self, fault: &RunFault) {
        if !self.is_lost {
            self.is_lost = true;
            self.errors.print(fault);
        }
    }

    fn take<O: Observer>(&mut self, observer: &mut O, server: &mut Server, text: String) {
        if self.text == text {
            return;
        }
        let is_decided = self.serve(observer, server, text.as_str());
        // Out of memory, the next look tries again.
        if is_decided {
            self.text = text;
        }
    }

    /// Serves the types that the text declares; whether that was done or refused.
    fn serve<O: Observer>(&mut self, observer: &mut O, server: &mut Server, text: &str) -> bool {
        if let Err(fault) = types_in(self.rt.alloc(), self.profile, self.path, text) {
            self.errors.print(&fault);
            return !matches!(fault, RunFault::Memory);
        }
        let Ok(value) = Value::from_str(self.rt.alloc(), text) else {
            return false;
        };
        match server.retype(observer, value, self.looked) {
            Ok(_) => {
                self.log_served(server);
                true
            }
            Err(fault) => {
                self.errors
                    .print(&OfTypes(self.path, Outcome::Unserved(fault)));
                matches!(fault, HubFault::Refused(_))
            }
        }
    }

    fn log_served(&mut self, server: &Server) {
        if let Ok(revision) = server.revision() {
            self.errors
                .print(&OfTypes(self.path, Outcome::Served(revision)));
        }
    }
}
