//! The body of `ssa-mirror`: a client that mirrors the objects of a type from a server on loopback and prints what
//! changes.
//!
//! Promises: the values of its arguments are those of `clap`'s exact matches. What is printed is what `mirroring` says of
//! the settings that the arguments ask for, over connections that a caller dials; each fault has its exit status.
//! Stands on `mirroring` for the turns, on `reflector` for the client, on `programs` for what programs share.
#![tactic(auto)]

mod arguments;
mod dialing;
mod fault;
mod printing;
mod program;
mod settings;

pub use arguments::{MirrorOptions, options};
pub use dialing::Loopback;
pub use fault::ProgramFault;
pub use printing::print_changes;
pub use program::ssa_mirror;
