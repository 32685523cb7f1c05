//! The arguments that a program was started with, as texts. What those of `ssa-replay` say is read in `arguments` of the crate
//! `scripts`.

use crate::run_fault::RunFault;
use std::env;
use std::io::ErrorKind;
use std::rt::Env;

/// The arguments that the program was started with, its name first.
pub fn read_arguments<R: Env + AllocGlobal>(rt: &R) -> Result<Vec<String>, RunFault> {
    let arguments = match env::args(rt) {
        Ok(arguments) => arguments,
        Err(error) if error.kind() == ErrorKind::OutOfMemory => return Err(RunFault::Memory),
        Err(_) => return Err(RunFault::NotText),
    };
    let arguments: Vec<String> = arguments.collect(rt.alloc())?;
    Ok(arguments)
}
