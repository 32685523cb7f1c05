//! `ssa-server --types FILE [--port N] [--keep N] [--pump N] [--serve N] [--concurrent] [--patience N] [--log]
//! [--record FILE]` serves the types of a file on loopback, one connection after another or many at once; its body is the crate `server_program`.
#![tactic(auto)]

use programs::{end_with, hold_standard_streams, read_arguments};
use server_program::ssa_server;
use std::process::ExitCode;

fn main(rt: HostRuntime) -> ExitCode {
    hold_standard_streams(&rt);
    match read_arguments(&rt) {
        Ok(arguments) => ssa_server(&rt, &arguments),
        Err(fault) => end_with(&rt, &fault),
    }
}
