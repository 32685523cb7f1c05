//! Mirroring a server over connections that a caller dials: the client's twin of `serving`.
//!
//! Promises: each turn sends the request that is due, and all items of the bytes that are read count, however they are
//! cut. An informer that has caught up (`sync`) has the objects of the server to which the replies keep. What is written
//! is the text of the first list's revision and of each notice, once and in order; after a fault a prefix of it.
//! Stands on `reflector` for what items lead to, on `wire` for pieces.
#![tactic(auto)]

mod dial;
mod fault;
mod printing;
mod reading;
mod syncing;
mod turning;

pub use dial::Dial;
pub use fault::MirrorFault;
pub use syncing::sync;
pub use turning::{mirror, turn};
