//! `ssa-replay --types FILE --script FILE [--page N] [--selector S] [--namespace NS] [--type G/V/P] [--label L]` plays a
//! script over a server and a client and prints what comes of it; called by the name `ssa-pipe`, with these options but for
//! `--script`, it plays a script that it reads from its standard input, and answers each line before it reads the next.
//! Both bodies stand in the crate `scripts`.
#![tactic(auto)]

ghost use Rattle.std.specs.Path.{path_file_name};
ghost use Rattle.std.specs.Prelude.{◌≡◌, ◌↔◌, ◌⊎◌, Some, IsTrue, codes};

use programs::{end_with, hold_standard_streams, read_arguments};
use scripts::{ssa_pipe, ssa_replay};
use std::path::Path;
use std::process::ExitCode;

/// Whether a program of this path is called by the name `ssa-pipe`, as a release has it, or by that of what is built.
fn is_pipe(path: &str) -> bool
    ensures { IsTrue result ↔ ((path_file_name path.now ≡ Some (codes "ssa-pipe")) ⊎ (path_file_name path.now ≡ Some (codes "ssa_pipe"))) }
{
    match Path::new(path).file_name() {
        Some(name) => name == "ssa-pipe" || name == "ssa_pipe",
        None => false,
    }
}

fn main(rt: HostRuntime) -> ExitCode {
    hold_standard_streams(&rt);
    match read_arguments(&rt) {
        Ok(arguments) => match arguments.first() {
            Some(path) if is_pipe(path.as_str()) => ssa_pipe(&rt, &arguments),
            _ => ssa_replay(&rt, &arguments),
        },
        Err(fault) => end_with(&rt, &fault),
    }
}
