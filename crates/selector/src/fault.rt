//! Why a text is no selector. The text is read in `selector`, a part of it in `requirement`.

ghost use Rattle.std.specs.Prelude.{◌≡◌};
ghost use Rattle.selector.specs.declared.fault.ReadError.TheVariants.{Memory};

use std::alloc::{AllocError, AllocFailed};
use std::error::Error;
use std::fmt;

/// What is wrong with a text that is no selector: its first fault.
#[derive(Clone, Copy, Debug, PartialEq, Eq)]
pub enum Fault {
    /// Nothing stands between two commas, or before the first or after the last.
    EmptyPart = 1,
    /// A key that isn't a label's.
    BadKey = 2,
    /// A value that isn't a label's.
    BadValue = 3,
    /// A bracket without its pair, inside another pair, or where the part isn't `key in (values)` or
    /// `key notin (values)`.
    Bracket = 4,
}

/// Why reading gave no selector.
#[derive(Debug, Drop)]
pub enum ReadError {
    /// The text is no selector.
    Fault(Fault),
    /// Out of memory.
    Memory,
}

impl fmt::Display for Fault {
    ghost use Rattle.std.specs.Prelude.{Some};
    ghost use Rattle.selector.specs.FaultViews.{fault_text};

    ghost output = { λ e. Some (fault_text e) };

    fn fmt<W: fmt::Write>(&self, f: &mut fmt::Formatter<W>) -> fmt::Result {
        match self {
            Fault::EmptyPart => f.write_str("a part is empty"),
            Fault::BadKey => f.write_str("a key is not a label's"),
            Fault::BadValue => f.write_str("a value is not a label's"),
            Fault::Bracket => f.write_str("a bracket is misplaced"),
        }
    }
}

impl fmt::Display for ReadError {
    ghost use Rattle.std.specs.Prelude.{Some};
    ghost use Rattle.selector.specs.FaultViews.{error_text};

    ghost output = { λ e. Some (error_text e) };

    fn fmt<W: fmt::Write>(&self, f: &mut fmt::Formatter<W>) -> fmt::Result {
        match self {
            ReadError::Fault(fault) => write!(f, "bad selector: {fault}"),
            ReadError::Memory => f.write_str("out of memory"),
        }
    }
}

impl Error for Fault {}

impl Error for ReadError {}

impl From<AllocError> for ReadError {
    ghost from_gives = { λ _ e. e ≡ Memory };

    fn from(_e: AllocError) -> ReadError {
        ReadError::Memory
    }
}

impl<T: Drop> From<AllocFailed<T>> for ReadError {
    ghost from_gives = { λ _ e. e ≡ Memory };

    fn from(_e: AllocFailed<T>) -> ReadError {
        ReadError::Memory
    }
}
