//! Why a program's run ends before it is done, the exit status that tells it, and where it is printed.
ghost use Rattle.std.specs.Prelude.{◌≡◌, ◌⊎◌};
ghost use Rattle.std.specs.Process.{exit_status};
ghost use Rattle.programs.specs.ReplayProgram.{EndsWith, status_of};
ghost use Rattle.programs.specs.declared.run_fault.RunFault.TheVariants.{Memory, Port};

use crate::numbers::NumberOption;
use crate::types_refusal::RefusedTypes;
use clap::error::ErrorKind;
use std::alloc::{AllocError, Global};
use std::io;
use std::process::ExitCode;
use thiserror::Error;

/// The exit status of an output that can't be written.
const NO_OUTPUT: u8 = 1;

/// The exit status of wrong usage.
pub const WRONG_USAGE: u8 = 2;

/// Why a run of a program ended before it was done. A fault of a file has its path.
#[derive(Debug, Drop, Error)]
pub enum RunFault {
    /// The arguments are not those of the program, or ask for its help or its version.
    #[error("{0}")]
    Arguments(clap::Error),
    /// One of the arguments is no UTF-8 text.
    #[error("an argument is not UTF-8")]
    NotText,
    /// The value of an option is no number that it may have.
    #[error("--{}: a whole number from {} to {}", .0.name, .0.least, .0.most)]
    Number(NumberOption),
    /// The types file cannot be read.
    #[error("types file {0}: {1}")]
    TypesFile(String, io::Error),
    /// The types file is no JSON text.
    #[error("types file {0}: not JSON: {1}")]
    TypesText(String, serde_json::Error),
    /// The types file declares no types.
    #[error("{0}")]
    Types(RefusedTypes),
    /// The replies cannot be written.
    #[error("standard output: {0}")]
    Output(io::Error),
    /// A port of loopback cannot be listened on, or be connected to.
    #[error("port {0}: {1}")]
    Port(u16, io::Error),
    /// Out of memory.
    #[error("out of memory")]
    Memory,
    /// The store refused a statement, for memory or for size.
    #[error("the store failed")]
    Store,
}

impl RunFault {
    /// The exit status that tells the fault: 0 where help or the version was asked for, 1 for the output, 2 for other
    /// arguments, 3 for a file or the types, 5 for memory or the store, 6 for a port.
    pub fn status(&self) -> u8
        ensures { result ≡ status_of self.now }
    {
        match self {
            RunFault::Arguments(error) if !error.use_stderr() => 0,
            RunFault::Output(_) => NO_OUTPUT,
            RunFault::Arguments(_) => WRONG_USAGE,
            RunFault::NotText | RunFault::Number(_) => WRONG_USAGE,
            RunFault::TypesFile(..) | RunFault::TypesText(..) | RunFault::Types(..) => 3,
            RunFault::Memory | RunFault::Store => 5,
            RunFault::Port(..) => 6,
        }
    }
}

impl RunFault {
    /// The fault of a port, where its socket fails so; or of memory.
    pub fn of_port(port: u16, error: io::Error) -> RunFault
        ensures { (result ≡ Memory) ⊎ (result ≡ Port port error) }
    {
        match error.kind() {
            io::ErrorKind::OutOfMemory => RunFault::Memory,
            _ => RunFault::Port(port, error),
        }
    }
}

impl From<AllocError> for RunFault {
    ghost use Rattle.std.specs.Prelude.{◌≡◌};
    ghost use Rattle.programs.specs.declared.run_fault.RunFault.TheVariants.{Memory};

    ghost from_gives = { λ _ e. e ≡ Memory };

    fn from(_: AllocError) -> RunFault {
        RunFault::Memory
    }
}

impl From<clap::Error> for RunFault {
    ghost use Rattle.std.specs.Prelude.{◌≡◌, ◌⊎◌};
    ghost use Rattle.programs.specs.declared.run_fault.RunFault.TheVariants.{Arguments, Memory};

    ghost from_gives = { λ e f. (f ≡ Memory) ⊎ (f ≡ Arguments e) };

    fn from(error: clap::Error) -> RunFault {
        match error.kind() {
            ErrorKind::OutOfMemory => RunFault::Memory,
            _ => RunFault::Arguments(error),
        }
    }
}

/// The path of a file that could not be read, for the fault that names it.
pub fn unread_path(alloc: Global, path: &str, error: &io::Error) -> Result<String, RunFault> {
    if error.kind() == io::ErrorKind::OutOfMemory {
        return Err(RunFault::Memory);
    }
    Ok(String::from_str(alloc, path)?)
}

/// Prints a fault: help and the version on the standard output, all else on the standard error.
fn print<R: Print + Eprint>(rt: &R, fault: &RunFault) -> io::Result<()> {
    match fault {
        RunFault::Arguments(error) => error.print(rt),
        _ => rt.eprintln(fault),
    }
}

/// Prints a fault, and answers the exit status that tells it. Help and the version go to the standard output, all else
/// to the standard error. Help or a version that can't be printed is a fault of the output.
pub fn end_with<R: Print + Eprint>(rt: &R, fault: &RunFault) -> ExitCode
    ensures { EndsWith fault.now (exit_status result) }
{
    let printed = print(rt, fault);
    let status = fault.status();
    if status > 0 {
        // Where nothing can be printed, the status still tells the fault.
        return ExitCode::from(status);
    }
    match printed {
        Ok(()) => ExitCode::from(status),
        Err(error) => {
            let _ = rt.eprintln(&RunFault::Output(error));
            ExitCode::from(NO_OUTPUT)
        }
    }
}
