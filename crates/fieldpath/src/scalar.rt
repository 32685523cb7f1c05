//! Scalars: texts, whole numbers and truth values, as key fields and items of sets have them. The elements that have
//! them stand in `elem` and `keys`.
ghost use Rattle.std.specs.Prelude.{◌≡◌, IfOk, is_some, option_map, string_bytes};
ghost use Rattle.serde_json.specs.View.{view};
ghost use Rattle.serde_json.specs.Written.{compact_text};
ghost use Rattle.fieldpath.specs.Elements.{scalar_data, scalar_of};
ghost use Rattle.fieldpath.specs.Scalars.{scalar};

use serde_json::Value;
use std::alloc::{AllocError, Global};

/// The value of a key field, or an item of a set.
#[derive(Debug, Drop)]
pub enum Scalar {
    Str(String),
    Int(i64),
    Bool(bool),
}

/// Whether the value is a text, a whole number within 64 bits signed, or a truth value.
pub(crate) fn is_scalar(value: &Value) -> bool
    ensures { result ≡ is_some (scalar_of (view value.now)) }
{
    if value.as_str().is_some() || value.as_bool().is_some() {
        return true;
    }
    value.as_i64().is_some()
}

impl Scalar {
    pub(crate) fn to_value(&self, alloc: Global) -> Result<Value, AllocError>
        ensures { IfOk result (λ v. view v ≡ scalar_data (scalar self.now)) }
    {
        match self {
            Scalar::Str(text) => Value::try_from_str(alloc, text.as_str()),
            Scalar::Int(whole) => Ok(Value::from(*whole)),
            Scalar::Bool(truth) => Ok(Value::from(*truth)),
        }
    }

    pub(crate) fn try_copy(&self) -> Result<Scalar, AllocError>
        ensures { IfOk result (λ s. scalar s ≡ scalar self.now) }
    {
        match self {
            Scalar::Str(text) => Ok(Scalar::Str(text.clone()?)),
            Scalar::Int(whole) => Ok(Scalar::Int(*whole)),
            Scalar::Bool(truth) => Ok(Scalar::Bool(*truth)),
        }
    }

    /// The scalar as compact JSON.
    pub(crate) fn json(&self, alloc: Global) -> Result<String, AllocError>
        ensures { IfOk result (λ s. string_bytes s ≡ compact_text (scalar_data (scalar self.now))) }
    {
        self.to_value(alloc)?.to_string(alloc)
    }

    /// None where the value is no text, whole number within 64 bits signed, or truth value.
    pub(crate) fn of_value(alloc: Global, value: &Value) -> Result<Option<Scalar>, AllocError>
        ensures { IfOk result (λ o. option_map scalar o ≡ scalar_of (view value.now)) }
    {
        if let Some(text) = value.as_str() {
            return Ok(Some(Scalar::Str(String::from_str(alloc, text)?)));
        }
        if let Some(truth) = value.as_bool() {
            return Ok(Some(Scalar::Bool(truth)));
        }
        match value.as_i64() {
            Some(whole) => Ok(Some(Scalar::Int(whole))),
            None => Ok(None),
        }
    }
}
