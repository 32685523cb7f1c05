//! Why a query's parameters were refused; the parameters are checked in `params` and `query`.

ghost use Rattle.std.specs.Prelude.{◌≡◌};
ghost use Rattle.params.specs.declared.fault.ParamsFault.TheVariants.{Memory};

use crate::parameter::Parameter;
use std::alloc::AllocError;
use std::error::Error;
use std::fmt;

/// Why a query gave no parameters.
#[derive(Clone, Copy, Debug, PartialEq, Eq)]
pub enum ParamsFault {
    /// The first parameter at fault.
    Bad(Parameter),
    /// Out of memory.
    Memory,
}

impl fmt::Display for ParamsFault {
    ghost use Rattle.std.specs.Prelude.{Some};
    ghost use Rattle.params.specs.FaultViews.{fault_text};

    ghost output = { λ e. Some (fault_text e) };

    fn fmt<W: fmt::Write>(&self, f: &mut fmt::Formatter<W>) -> fmt::Result {
        match self {
            ParamsFault::Bad(parameter) => {
                let name = parameter.name();
                write!(f, "bad parameter: {name}")
            }
            ParamsFault::Memory => f.write_str("out of memory"),
        }
    }
}

impl Error for ParamsFault {}

impl From<AllocError> for ParamsFault {
    ghost from_gives = { λ _ e. e ≡ Memory };

    fn from(_e: AllocError) -> ParamsFault {
        ParamsFault::Memory
    }
}
