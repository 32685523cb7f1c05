//! What a server of many connections is asked for: port, what is kept, how many lines at a time, patience, disturbances.
//! They are read from a command line in the crate `server_program`, and followed in `peers`.

use crate::disturbances::Disturbances;

/// How connections are served.
#[derive(Clone, Copy, Debug)]
pub struct Options {
    /// The port on loopback; 0 picks a free one.
    pub port: u16,
    /// How many revisions before the current one are kept.
    pub keep: u64,
    /// How many lines a watch may write at a time; one or more.
    pub lines: u64,
    /// After how many milliseconds a peer that keeps the server waiting is dropped.
    pub patience: u64,
    /// After which revisions watches are disturbed.
    pub disturbances: Option<Disturbances>,
}
