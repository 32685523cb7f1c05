//! The program `ssa-mirror`, from its arguments to its exit status.

use crate::arguments::options;
use crate::dialing::Loopback;
use crate::fault::ProgramFault;
use crate::printing::print_changes;
use api_types::Profile;
use programs::{end_with, read_types};
use std::io;
use std::net::Net;
use std::process::ExitCode;
use std::rt::{Clock, Files};

fn run<R: Files + Net + Clock + Print + Eprint + AllocGlobal>(
    rt: &R,
    arguments: &[String],
) -> Result<(), ProgramFault> {
    let options = options(rt.alloc(), arguments)?;
    let types = read_types(rt, Profile::Plain, options.types)?;
    let mut dialer = Loopback::new(rt, options.port);
    print_changes(
        rt.alloc(),
        &types,
        &options,
        &mut dialer,
        &mut io::writer(rt),
    )
}

/// Runs `ssa-mirror` with its arguments, the program's name first. Answers the exit status; a fault is printed on the
/// standard error.
pub fn ssa_mirror<R: Files + Net + Clock + Print + Eprint + AllocGlobal>(
    rt: &R,
    arguments: &[String],
) -> ExitCode {
    match run(rt, arguments) {
        Ok(()) => ExitCode::SUCCESS,
        Err(ProgramFault::Run(fault)) => end_with(rt, &fault),
        Err(fault) => {
            // Where the standard error takes nothing, the status still names the fault.
            let _ = rt.eprintln(&fault);
            ExitCode::from(fault.status())
        }
    }
}
