//! Scripts of events, and the programs `ssa-replay` and `ssa-loop` that play them, of which each `main` only calls the
//! body.
//!
//! Promises: the values of the programs' arguments are those of `clap`'s exact matches. A script reads as exactly the
//! events of its lines, or as the number of its first bad line. A play of events writes what the trace of their run shows:
//! the reply to the request of each apply line, what was written on the other connections, gone or not, and the client's
//! reports. After a fault it has written a prefix of that. A pipe answers each line before it reads the next; one that asks of the
//! client changes nothing.
//! Stands on `world` for the run, on `programs` for what programs share, on `wireclient` for the bytes of a request and
//! the reading of a reply, on `clap` for the arguments.
#![tactic(auto)]

mod answer_text;
mod answering;
mod apply_line;
mod arguments;
mod asking;
mod line_fault;
mod over_loopback;
mod piping;
mod playing;
mod printing;
mod program;
mod program_fault;
mod replay_fault;
mod replaying;
mod script;
mod settings;

pub use arguments::{ClientOptions, PipeOptions, Player, PlayerOptions, options, pipe_options};
pub use line_fault::LineFault;
pub use over_loopback::OverLoopback;
pub use piping::{answers_join, pipe};
pub use playing::play_script;
pub use program::{ssa_loop, ssa_pipe, ssa_replay};
pub use program_fault::ProgramFault;
pub use replay_fault::ReplayFault;
pub use replaying::replay;
pub use script::{ScriptFault, read_script};
