//! Why a run of `ssa-mirror` ended. The faults of all programs stand in the crate `programs`.

ghost use Rattle.std.specs.Prelude.{◌≡◌};
ghost use Rattle.mirror_program.specs.Statuses.{IsEndedBy, status_of};

use mirroring::MirrorFault;
use programs::{RunFault, WRONG_USAGE};
use reflector::SettingsFault;
use std::alloc::AllocError;
use thiserror::Error;

/// Why a run of the program ended before it was done.
#[derive(Debug, Drop, Error)]
pub enum ProgramFault {
    /// A fault of the arguments, the types file, the port or the output, or out of memory.
    #[error("{0}")]
    Run(RunFault),
    /// The type is not told by a group, a version and a plural.
    #[error("--type: group/version/plural")]
    Form,
    /// The types file has no such type.
    #[error("--type: the types file has no such type")]
    NoType,
    /// The selector cannot be read.
    #[error("--selector: {0}")]
    Selector(selector::Fault),
    /// A page or a namespace that cannot be asked for.
    #[error("{0}")]
    Settings(SettingsFault),
}

impl ProgramFault {
    /// The exit status that tells the fault: that of the run's fault, or 2.
    pub fn status(&self) -> u8
        ensures { result ≡ status_of self.now }
    {
        match self {
            ProgramFault::Run(fault) => fault.status(),
            _ => WRONG_USAGE,
        }
    }
}

/// The fault of a mirror of this port.
pub(crate) fn ended_by(port: u16, fault: MirrorFault) -> ProgramFault
    ensures { IsEndedBy fault result }
{
    ProgramFault::Run(match fault {
        MirrorFault::Dial(error) => RunFault::of_port(port, error),
        MirrorFault::Output(error) => RunFault::Output(error),
        MirrorFault::Memory => RunFault::Memory,
    })
}

impl From<RunFault> for ProgramFault {
    ghost use Rattle.std.specs.Prelude.{◌≡◌};
    ghost use Rattle.mirror_program.specs.declared.fault.ProgramFault.TheVariants.{Run};

    ghost from_gives = { λ f e. e ≡ Run f };

    fn from(fault: RunFault) -> ProgramFault {
        ProgramFault::Run(fault)
    }
}

impl From<clap::Error> for ProgramFault {
    fn from(error: clap::Error) -> ProgramFault {
        ProgramFault::Run(RunFault::from(error))
    }
}

impl From<AllocError> for ProgramFault {
    ghost use Rattle.std.specs.Prelude.{◌≡◌};
    ghost use Rattle.programs.specs.declared.run_fault.RunFault.TheVariants.{Memory};
    ghost use Rattle.mirror_program.specs.declared.fault.ProgramFault.TheVariants.{Run};

    ghost from_gives = { λ _ e. e ≡ Run Memory };

    fn from(_: AllocError) -> ProgramFault {
        ProgramFault::Run(RunFault::Memory)
    }
}
