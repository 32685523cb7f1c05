//! What is wrong with a value that is no content, and where. Values are read in `read` and `borrowed`.

ghost use Rattle.std.specs.Prelude.{◌≡◌, ◌++◌, IfOk, [], Option, Some, option_map, string_bytes};
ghost use Rattle.typed.specs.Faults.{Fault, ReportsFault, fault_below, shown_name, shown_place};

use std::alloc::{AllocError, AllocFailed, Global};
use std::fmt;
use thiserror::Error;

/// What is wrong with a value's shape.
#[derive(Clone, Copy, Debug, PartialEq, Eq)]
pub enum Cause {
    NotAnObject,
    UnknownField,
    WrongType,
    DuplicateItem,
    KeyFieldMissing,
}

impl fmt::Display for Cause {
    ghost use Rattle.std.specs.Prelude.{Some};
    ghost use Rattle.typed.specs.Faults.{cause_text};

    ghost output = { λ c. Some (cause_text c) };

    fn fmt<W: fmt::Write>(&self, f: &mut fmt::Formatter<W>) -> fmt::Result {
        match self {
            Cause::NotAnObject => f.write_str("not an object"),
            Cause::UnknownField => f.write_str("unknown field"),
            Cause::WrongType => f.write_str("wrong type"),
            Cause::DuplicateItem => f.write_str("duplicate item"),
            Cause::KeyFieldMissing => f.write_str("key field missing"),
        }
    }
}

impl std::error::Error for Cause {}

/// Why a value has no content: the first fault, with its path as shown, or out of memory.
/// The path of the value itself is the empty text.
#[derive(Debug, Drop, Error)]
pub enum ReadFault {
    #[error("{path}: {0}", path = shown(.1))]
    Shape(Cause, String),
    #[error("out of memory")]
    Memory,
}

/// A path as a message tells it: that of the value itself is `.`.
fn shown(path: &String) -> &str {
    if path.is_empty() { "." } else { path.as_str() }
}

impl From<AllocError> for ReadFault {
    ghost use Rattle.std.specs.Prelude.{◌≡◌};
    ghost use Rattle.typed.specs.declared.fault.ReadFault.TheVariants.{Memory};

    ghost from_gives = { λ _ e. e ≡ Memory };

    fn from(_: AllocError) -> ReadFault {
        ReadFault::Memory
    }
}

impl<T: Drop> From<AllocFailed<T>> for ReadFault {
    ghost use Rattle.std.specs.Prelude.{◌≡◌};
    ghost use Rattle.typed.specs.declared.fault.ReadFault.TheVariants.{Memory};

    ghost from_gives = { λ _ e. e ≡ Memory };

    fn from(_: AllocFailed<T>) -> ReadFault {
        ReadFault::Memory
    }
}

/// A fault of the value itself.
pub(crate) fn wrong(alloc: Global, cause: Cause) -> ReadFault
    ensures { (fault : Option Fault) → fault ≡ Some (cause, []) → ReportsFault result fault }
{
    ReadFault::Shape(cause, String::new(alloc))
}

fn name_before(alloc: Global, name: &str, path: &str) -> Result<String, AllocError>
    ensures { IfOk result (λ s. string_bytes s ≡ shown_name name.now ++ path.now) }
{
    let mut shown = String::new(alloc);
    shown.push_str(".")?;
    shown.push_str(name)?;
    shown.push_str(path)?;
    Ok(shown)
}

fn place_before(alloc: Global, place: usize, path: &str) -> Result<String, AllocError>
    ensures { IfOk result (λ s. string_bytes s ≡ shown_place place ++ path.now) }
{
    let mut shown = String::new(alloc);
    shown.push_str("[")?;
    shown.push_str(place.to_string(alloc)?.as_str())?;
    shown.push_str("]")?;
    shown.push_str(path)?;
    Ok(shown)
}

impl ReadFault {
    /// The fault of a member's value, seen from its object.
    pub(crate) fn in_field(self, alloc: Global, name: &str) -> ReadFault
        ensures { (fault : Option Fault) → ReportsFault self fault
            → ReportsFault result (option_map (fault_below (shown_name name.now)) fault) }
    {
        match self {
            ReadFault::Shape(cause, path) => match name_before(alloc, name, path.as_str()) {
                Ok(shown) => ReadFault::Shape(cause, shown),
                Err(_) => ReadFault::Memory,
            },
            ReadFault::Memory => ReadFault::Memory,
        }
    }

    /// The fault of an item, seen from its list.
    pub(crate) fn in_item(self, alloc: Global, place: usize) -> ReadFault
        ensures { (fault : Option Fault) → ReportsFault self fault
            → ReportsFault result (option_map (fault_below (shown_place place)) fault) }
    {
        match self {
            ReadFault::Shape(cause, path) => match place_before(alloc, place, path.as_str()) {
                Ok(shown) => ReadFault::Shape(cause, shown),
                Err(_) => ReadFault::Memory,
            },
            ReadFault::Memory => ReadFault::Memory,
        }
    }
}
