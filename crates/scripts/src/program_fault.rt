//! Why a run of a program that plays a script ended. The faults of all programs stand in the crate `programs`.
ghost use Rattle.std.specs.Prelude.{◌≡◌};
ghost use Rattle.scripts.specs.Statuses.{status_of};

use crate::line_fault::LineFault;
use crate::replay_fault::ReplayFault;
use crate::script::ScriptFault;
use programs::{RunFault, WRONG_USAGE};
use std::alloc::AllocError;
use std::io;
use thiserror::Error;
use world::WorldFault;

/// Why a run of a program that plays a script ended before it was done.
#[derive(Debug, Drop, Error)]
pub enum ProgramFault {
    /// A fault of the arguments, the types file, the output or the store, or out of memory.
    #[error("{0}")]
    Run(RunFault),
    /// The type is not told by a group, a version and a plural.
    #[error("--type: group/version/plural")]
    Form,
    /// The script cannot be read.
    #[error("script {0}: {1}")]
    ScriptFile(String, io::Error),
    /// The first bad line of the script, counted from 1, and why it is bad.
    #[error("line {0}: bad event: {1}")]
    Script(usize, LineFault),
    /// The types file has no such type.
    #[error("--type: the types file has no such type")]
    NoType,
    /// The client cannot have these settings: the number of their fault.
    #[error("{}", text_of(*.0))]
    Settings(u32),
    /// The link between server and client failed.
    #[error("{}", WorldFault::Link)]
    Link,
    /// The standard input cannot be read.
    #[error("standard input: {0}")]
    Input(io::Error),
}

/// A fault of the settings, by its number.
fn text_of(number: u32) -> &'static str {
    match number {
        1 => "--page: a page has 1 to 500 objects",
        2 => "--selector: it can't be read",
        5 => "--namespace: it is no DNS label",
        _ => "the settings can't be had",
    }
}

impl ProgramFault {
    /// The exit status that tells the fault: 2 for the type or the settings, 3 for the script's file or the input, 4
    /// for one of the script's lines, 6 for the link, else that of the run's fault.
    pub fn status(&self) -> u8
        ensures { result ≡ status_of self.now }
    {
        match self {
            ProgramFault::Run(fault) => fault.status(),
            ProgramFault::Form | ProgramFault::NoType | ProgramFault::Settings(_) => WRONG_USAGE,
            ProgramFault::ScriptFile(..) | ProgramFault::Input(_) => 3,
            ProgramFault::Script(..) => 4,
            ProgramFault::Link => 6,
        }
    }
}

impl From<RunFault> for ProgramFault {
    ghost use Rattle.std.specs.Prelude.{◌≡◌};
    ghost use Rattle.scripts.specs.declared.program_fault.ProgramFault.TheVariants.{Run};

    ghost from_gives = { λ f e. e ≡ Run f };

    fn from(fault: RunFault) -> ProgramFault {
        ProgramFault::Run(fault)
    }
}

impl From<clap::Error> for ProgramFault {
    ghost use Rattle.std.specs.Prelude.{◌≡◌, ◌⊎◌};
    ghost use Rattle.programs.specs.declared.run_fault.RunFault.TheVariants.{Arguments, Memory};
    ghost use Rattle.scripts.specs.declared.program_fault.ProgramFault.TheVariants.{Run};

    ghost from_gives = { λ e f. (f ≡ Run Memory) ⊎ (f ≡ Run (Arguments e)) };

    fn from(error: clap::Error) -> ProgramFault {
        ProgramFault::Run(RunFault::from(error))
    }
}

impl From<AllocError> for ProgramFault {
    ghost use Rattle.std.specs.Prelude.{◌≡◌};
    ghost use Rattle.programs.specs.declared.run_fault.RunFault.TheVariants.{Memory};
    ghost use Rattle.scripts.specs.declared.program_fault.ProgramFault.TheVariants.{Run};

    ghost from_gives = { λ _ e. e ≡ Run Memory };

    fn from(_: AllocError) -> ProgramFault {
        ProgramFault::Run(RunFault::Memory)
    }
}

impl From<ScriptFault> for ProgramFault {
    ghost use Rattle.std.specs.Prelude.{◌≡◌};
    ghost use Rattle.scripts.specs.Statuses.{script_fault_reported};

    ghost from_gives = { λ f e. e ≡ script_fault_reported f };

    fn from(fault: ScriptFault) -> ProgramFault {
        match fault {
            ScriptFault::BadEvent(line, why) => ProgramFault::Script(line, why),
            ScriptFault::Memory => ProgramFault::Run(RunFault::Memory),
        }
    }
}

impl From<ReplayFault> for ProgramFault {
    ghost use Rattle.std.specs.Prelude.{◌≡◌};
    ghost use Rattle.scripts.specs.Statuses.{replay_fault_reported};

    ghost from_gives = { λ f e. e ≡ replay_fault_reported f };

    fn from(fault: ReplayFault) -> ProgramFault {
        match fault {
            ReplayFault::Memory => ProgramFault::Run(RunFault::Memory),
            ReplayFault::Store => ProgramFault::Run(RunFault::Store),
            ReplayFault::Settings(number) => ProgramFault::Settings(number),
            ReplayFault::Link => ProgramFault::Link,
            ReplayFault::Write(error) => ProgramFault::Run(RunFault::Output(error)),
        }
    }
}
