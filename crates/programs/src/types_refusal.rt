//! Why a types file is refused, as it is told: each refusal by its number, and where. What finds them stands in `types_file`.

use api_types::{FaultPlace, TypesFault};
use std::fmt;

/// A refusal of a types file.
#[derive(Debug, Drop)]
pub struct TypesRefusal {
    /// The number of the refusal, 1 to 6.
    pub number: u8,
    /// The refusal.
    pub fault: TypesFault,
    /// Where the file breaks its rule; none where its own form does, or two types have one name.
    pub place: Option<FaultPlace>,
}

impl TypesRefusal {
    /// Whether a type's schema is an object that has no `properties`.
    fn is_without_properties(&self) -> bool {
        let Some(place) = &self.place else {
            return false;
        };
        match &place.part {
            Some(part) => part.is_without_properties,
            None => false,
        }
    }
}

/// `refusal 1: unknown keyword "nullable" at demo.example/v1/widgets .spec.ports[]`.
impl fmt::Display for TypesRefusal {
    fn fmt<W: fmt::Write>(&self, f: &mut fmt::Formatter<W>) -> fmt::Result {
        write!(f, "refusal {}: ", self.number)?;
        if self.is_without_properties() {
            f.write_str("object without properties")?;
        } else {
            self.fault.fmt(f)?;
        }
        match &self.place {
            Some(place) => place.fmt(f),
            None => Ok(()),
        }
    }
}

/// All refusals of a types file.
#[derive(Debug, Drop)]
pub struct RefusedTypes {
    /// The path of the file.
    pub path: String,
    /// The refusals, in the order in which the file is read; one or more.
    pub refusals: Vec<TypesRefusal>,
}

/// A line for each refusal: `types file widgets.json: refusal 1: unknown keyword "nullable" at demo.example/v1/widgets`.
impl fmt::Display for RefusedTypes {
    fn fmt<W: fmt::Write>(&self, f: &mut fmt::Formatter<W>) -> fmt::Result {
        let mut end = "";
        for refusal in &self.refusals {
            write!(f, "{end}types file {}: {refusal}", self.path)?;
            end = "\n";
        }
        Ok(())
    }
}
