//! `ssa-mirror --types FILE --port N --type G/V/P [--namespace NS] [--selector S] [--page N] [--turns N]` mirrors the
//! objects of a type from a server on loopback and prints what changes; its body is the crate `mirror_program`.
#![tactic(auto)]

use mirror_program::ssa_mirror;
use programs::{end_with, hold_standard_streams, read_arguments};
use std::process::ExitCode;

fn main(rt: HostRuntime) -> ExitCode {
    hold_standard_streams(&rt);
    match read_arguments(&rt) {
        Ok(arguments) => ssa_mirror(&rt, &arguments),
        Err(fault) => end_with(&rt, &fault),
    }
}
