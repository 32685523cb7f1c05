//! `ssa-loop`, with the arguments of `ssa-replay`, plays a script with the client's bytes over a loopback socket and
//! prints the same. Its body stands in the crate `scripts`.
#![tactic(auto)]

use programs::{end_with, hold_standard_streams, read_arguments};
use scripts::ssa_loop;
use std::process::ExitCode;

fn main(rt: HostRuntime) -> ExitCode {
    hold_standard_streams(&rt);
    match read_arguments(&rt) {
        Ok(arguments) => ssa_loop(&rt, &arguments),
        Err(fault) => end_with(&rt, &fault),
    }
}
