//! A server of connections as rows see it: events by their words, and the bytes that are out. What stands here knows nothing
//! of a server's contracts, so that a crate of tests proves no more of one than these calls.

use crate::texts::line_of;
use crate::words::{first_word, in_words};
use std::alloc::Global;
use std::fmt::Debug;
use std::test::Fail;

/// What serves connections.
pub trait Serves {
    type Event: Drop;

    type Fault: Debug + Drop;

    /// The event of a word: `open`, `in`, `gone`, `pump` with the id of a connection, `tick` and `compact` with another number,
    /// `types`. Behind it stand the bytes that come, how many lines, or a types file.
    fn event(alloc: Global, word: &str, id: u64, rest: &[u8]) -> Result<Self::Event, Fail>;

    fn on(&mut self, event: &Self::Event) -> Result<(), Self::Fault>;

    fn out(&self, id: u64) -> &[u8];

    fn take(&mut self, id: u64, count: usize);

    fn wants(&self, id: u64) -> bool;

    fn ended(&self, id: u64) -> bool;

    /// How many connections are held, and how many ranges of ids of all others.
    fn kept(&self) -> (usize, usize);

    /// The bytes of a request, whose target stands behind the path of the version.
    fn request(alloc: Global, method: &str, target: &str, body: &str) -> Result<Vec<u8>, Fail>;
}

/// An event comes: why it is refused, if it is.
pub fn comes<S: Serves>(
    alloc: Global,
    served: &mut S,
    event: S::Event,
) -> Result<Option<String>, Fail> {
    match served.on(&event) {
        Ok(()) => Ok(None),
        Err(fault) => Ok(Some(in_words(alloc, fault)?)),
    }
}

/// A connection opens: why that is refused, if it is.
pub fn opens<S: Serves>(alloc: Global, served: &mut S, id: u64) -> Result<Option<String>, Fail> {
    comes(alloc, served, S::event(alloc, "open", id, b"")?)
}

/// The bytes that are out on a connection, in one line; they are taken.
pub fn received<S: Serves>(alloc: Global, served: &mut S, id: u64) -> Result<String, Fail> {
    let text = line_of(alloc, served.out(id))?;
    served.take(id, usize::MAX);
    Ok(text)
}

/// The bytes of a request of `METHOD TARGET BODY`.
pub fn request_of<S: Serves>(alloc: Global, line: &str) -> Result<Vec<u8>, Fail> {
    let (method, line) = line.split_once(' ').ok_or("no target")?;
    let (target, body) = first_word(line);
    S::request(alloc, method, target, body)
}
