//! Why the object of a line isn't created. How a line's object is created stands in `creations`.

use api_request::AdmitFault;
use requests::BODY_TOO_LARGE;
use std::alloc::AllocError;
use thiserror::Error;
use verbs::Fault;

/// Why the object of a line isn't created.
#[derive(Debug, Drop, Error)]
pub enum ObjectFault {
    /// The line is longer than the body of a POST may be.
    #[error("413 {}", BODY_TOO_LARGE)]
    TooLarge,
    /// The line is no JSON text.
    #[error("not JSON: {0}")]
    NotJson(serde_json::Error),
    /// What the line has is of no type that is served.
    #[error("no type has its apiVersion and kind")]
    NoType,
    /// The object doesn't say in which namespace it is.
    #[error("no metadata.namespace")]
    NoNamespace,
    /// There is no path to objects of its type and its namespace.
    #[error("{0}")]
    Denied(&'static str),
    /// The POST is refused: the status code, and the message of the Status.
    #[error("{0} {1}")]
    Refused(u16, String),
    /// Out of memory, or the store failed.
    #[error("{0}")]
    Failed(Fault),
}

impl From<AllocError> for ObjectFault {
    ghost use Rattle.std.specs.Prelude.{◌≡◌};
    ghost use Rattle.server_program.specs.declared.object_fault.ObjectFault.TheVariants.{Failed};
    ghost use Rattle.verbs.specs.declared.fault.Fault.TheVariants.{Memory};

    ghost from_gives = { λ _ e. e ≡ Failed Memory };

    fn from(_: AllocError) -> ObjectFault {
        ObjectFault::Failed(Fault::Memory)
    }
}

impl From<Fault> for ObjectFault {
    ghost use Rattle.std.specs.Prelude.{◌≡◌};
    ghost use Rattle.server_program.specs.declared.object_fault.ObjectFault.TheVariants.{Failed};

    ghost from_gives = { λ fault e. e ≡ Failed fault };

    fn from(fault: Fault) -> ObjectFault {
        ObjectFault::Failed(fault)
    }
}

impl From<AdmitFault> for ObjectFault {
    ghost use Rattle.std.specs.Prelude.{◌≡◌};
    ghost use Rattle.server_program.specs.Creations.{fault_of_admission};

    ghost from_gives = { λ fault e. e ≡ fault_of_admission fault };

    fn from(fault: AdmitFault) -> ObjectFault {
        match fault {
            AdmitFault::Denied(denied) => ObjectFault::Denied(denied.message),
            AdmitFault::Memory => ObjectFault::Failed(Fault::Memory),
        }
    }
}

impl From<serde_json::Error> for ObjectFault {
    ghost use Rattle.std.specs.Prelude.{◌≡◌, ◌⊎◌};
    ghost use Rattle.serde_json.specs.Errors.{IsMemory};
    ghost use Rattle.server_program.specs.declared.object_fault.ObjectFault.TheVariants.{Failed, NotJson};
    ghost use Rattle.verbs.specs.declared.fault.Fault.TheVariants.{Memory};

    ghost from_gives = { λ error e. (e ≡ Failed Memory) ⊎ ((¬ IsMemory error) × (e ≡ NotJson error)) };

    fn from(error: serde_json::Error) -> ObjectFault {
        if error.is_memory() {
            return ObjectFault::Failed(Fault::Memory);
        }
        ObjectFault::NotJson(error)
    }
}
