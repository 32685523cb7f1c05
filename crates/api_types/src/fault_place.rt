//! Where a types file breaks a rule: the type, and the part of its schema. What finds it stands in `locate`.
ghost use Rattle.std.specs.Prelude.{◌≡◌, IfOk};
ghost use Rattle.serde_json.specs.Data.{Members};
ghost use Rattle.api_types.specs.FaultPlaces.{behind};

use crate::fault::TypesFault;
use std::alloc::AllocError;
use std::fmt;

/// A step from a schema to one behind it.
#[derive(Debug, Drop)]
pub enum Step {
    /// To the property of this name.
    Property(String),
    /// To `additionalProperties`, the values of a map.
    Values,
    /// To `items`, the items of a list.
    Items,
}

impl Step {
    /// The same step once more.
    pub(crate) fn try_copy(&self) -> Result<Step, AllocError>
        ensures { IfOk result (λ s. (ms : Members) → behind s ms ≡ behind self.now ms) }
    {
        match self {
            Step::Property(name) => Ok(Step::Property(name.clone()?)),
            Step::Values => Ok(Step::Values),
            Step::Items => Ok(Step::Items),
        }
    }
}

impl fmt::Display for Step {
    fn fmt<W: fmt::Write>(&self, f: &mut fmt::Formatter<W>) -> fmt::Result {
        match self {
            Step::Property(name) => write!(f, ".{name}"),
            Step::Values => f.write_str(".*"),
            Step::Items => f.write_str("[]"),
        }
    }
}

/// A part of a type's schema that breaks a rule.
#[derive(Debug, Drop)]
pub struct Part {
    /// The steps to it from the type's schema.
    pub steps: Vec<Step>,
    /// The keyword that is unknown, or the name of the unknown type.
    pub word: Option<String>,
    /// It is a type's schema, and an object without `properties`.
    pub is_without_properties: bool,
}

/// Where a types file breaks a rule.
#[derive(Debug, Drop)]
pub struct FaultPlace {
    /// The number of the type in the file, from 0.
    pub number: usize,
    /// `GROUP/VERSION/PLURAL`, where the type has these names.
    pub names: Option<String>,
    /// The part of its schema; none where the type breaks the rule as a whole.
    pub part: Option<Part>,
}

/// The word that is unknown, if there is one, the type, and the steps: ` "nullable" at demo.example/v1/widgets .spec.ports[]`.
impl fmt::Display for FaultPlace {
    fn fmt<W: fmt::Write>(&self, f: &mut fmt::Formatter<W>) -> fmt::Result {
        if let Some(
            Part {
                word: Some(word),
                ..
            },
        ) = &self.part
        {
            write!(f, " \"{word}\"")?;
        }
        match &self.names {
            Some(names) => write!(f, " at {names}")?,
            None => write!(f, " at types[{}]", self.number)?,
        }
        let Some(part) = &self.part else {
            return Ok(());
        };
        if !part.steps.is_empty() {
            f.write_str(" ")?;
        }
        for step in &part.steps {
            step.fmt(f)?;
        }
        Ok(())
    }
}

/// A fault of a types file with its place.
#[derive(Debug, Drop)]
pub struct LocatedFault {
    /// The rule that is broken.
    pub fault: TypesFault,
    /// Where.
    pub place: FaultPlace,
}
