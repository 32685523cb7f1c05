//! Why a run of `ssa-server` ended. The faults of all programs stand in the crate `programs`.

ghost use Rattle.std.specs.Prelude.{◌≡◌};
ghost use Rattle.server_program.specs.Statuses.{status_of};

use crate::object_fault::ObjectFault;
use programs::RunFault;
use std::alloc::AllocError;
use std::io::{self, ErrorKind};
use thiserror::Error;
use verbs::Fault;

/// Why a run of the program ended before it was done.
#[derive(Debug, Drop, Error)]
pub enum ServerFault {
    /// A fault of the arguments, the types file, the port, the output or the store, or out of memory.
    #[error("{0}")]
    Run(RunFault),
    /// The disturbances that are asked for cannot be read.
    #[error("--disturb: a seed from 0 to 18446744073709551615, and behind a colon some of cuts,holds,expiries")]
    Disturbances,
    /// They are asked for where one connection is served after another.
    #[error("--disturb: with --concurrent alone")]
    DisturbsInTurn,
    /// The file of the first objects cannot be read.
    #[error("objects file {0}: {1}")]
    ObjectsFile(String, io::Error),
    /// The object of a line of it isn't created.
    #[error("objects file {0} line {1}: {2}")]
    Object(String, usize, ObjectFault),
    /// The port cannot be told, or the system cannot say which sockets are ready.
    #[error("socket: {0}")]
    Socket(io::Error),
    /// The clock cannot be read.
    #[error("clock: {0}")]
    Clock(io::Error),
}

impl ServerFault {
    /// The exit status that tells the fault: 2 for disturbances, 3 for the file of the first objects, 6 for the sockets or the
    /// clock, else that of the run's fault.
    pub fn status(&self) -> u8
        ensures { result ≡ status_of self.now }
    {
        match self {
            ServerFault::Run(fault) => fault.status(),
            ServerFault::Disturbances => 2,
            ServerFault::DisturbsInTurn => 2,
            ServerFault::ObjectsFile(..) => 3,
            ServerFault::Object(..) => 3,
            ServerFault::Socket(_) => 6,
            ServerFault::Clock(_) => 6,
        }
    }
}

impl From<RunFault> for ServerFault {
    fn from(fault: RunFault) -> ServerFault {
        ServerFault::Run(fault)
    }
}

impl From<clap::Error> for ServerFault {
    fn from(error: clap::Error) -> ServerFault {
        ServerFault::Run(RunFault::from(error))
    }
}

impl From<AllocError> for ServerFault {
    fn from(_: AllocError) -> ServerFault {
        ServerFault::Run(RunFault::Memory)
    }
}

impl From<Fault> for ServerFault {
    fn from(fault: Fault) -> ServerFault {
        ServerFault::Run(match fault {
            Fault::Memory => RunFault::Memory,
            Fault::Store | Fault::Unreadable => RunFault::Store,
        })
    }
}

impl From<io::Error> for ServerFault {
    fn from(error: io::Error) -> ServerFault {
        match error.kind() {
            ErrorKind::OutOfMemory => ServerFault::Run(RunFault::Memory),
            _ => ServerFault::Socket(error),
        }
    }
}
