//! Elements of paths, printed as their texts and read from them; an element's text as a type of its own stands in
//! `elem_text`.
ghost use Rattle.std.specs.Prelude.{◌≡◌, ◌++◌, Some, None, IfOk, OnOk, length, take, drop, if◌then◌else◌, option_map, string_bytes};
ghost use Rattle.std.specs.Str.{bytes_eq};
ghost use Rattle.serde_json.specs.Read.{read};
ghost use Rattle.serde_json.specs.View.{view};
ghost use Rattle.fieldpath.specs.Elements.{element_text, if_canonical, keys_of, read_element, read_json, scalar_of, shown_element, value};
ghost use Rattle.fieldpath.specs.ElementViews.{Returns, element, json_or_bad};

use crate::keys::{Keys, fields_of};
use crate::scalar::Scalar;
use serde_json::Value;
use std::alloc::{AllocError, AllocFailed, Global};
use thiserror::Error;

/// Behind it stands the name of a field (FieldsV1).
pub const FIELD_PREFIX: &str = "f:";

/// Behind it stand the key fields of a map list's item (FieldsV1).
pub(crate) const KEY_PREFIX: &str = "k:";

/// Behind it stands the value of a set's item (FieldsV1).
pub(crate) const VALUE_PREFIX: &str = "v:";

/// An element of a path (FieldsV1: `f:<name>`, `k:<keys>`, `v:<value>`).
#[derive(Debug, Drop)]
pub enum Elem {
    /// A field of a struct, or a key of a map.
    Field(String),
    /// An item of a map list, by its key fields.
    Key(Keys),
    /// An item of a set.
    Value(Scalar),
}

/// Why a text is no element.
#[derive(Clone, Copy, Debug, PartialEq, Eq, Error)]
pub enum ElemFault {
    /// 1: it begins with none of `f:`, `k:` and `v:`.
    #[error("no known prefix")]
    NoPrefix,
    /// 2: no JSON follows.
    #[error("bad JSON")]
    BadJson,
    /// 3: another text than the one that the element is printed as, or JSON that no element has.
    #[error("not canonical")]
    NotCanonical,
    /// Out of memory.
    #[error("out of memory")]
    Memory,
}

impl From<AllocError> for ElemFault {
    ghost use Rattle.std.specs.Prelude.{◌≡◌};
    ghost use Rattle.fieldpath.specs.declared.elem.ElemFault.TheVariants.{Memory};

    ghost from_gives = { λ _ e. e ≡ Memory };

    fn from(_: AllocError) -> ElemFault {
        ElemFault::Memory
    }
}

impl<T: Drop> From<AllocFailed<T>> for ElemFault {
    ghost use Rattle.std.specs.Prelude.{◌≡◌};
    ghost use Rattle.fieldpath.specs.declared.elem.ElemFault.TheVariants.{Memory};

    ghost from_gives = { λ _ e. e ≡ Memory };

    fn from(_: AllocFailed<T>) -> ElemFault {
        ElemFault::Memory
    }
}

impl Elem {
    /// The element's one text.
    pub fn text(&self, alloc: Global) -> Result<String, AllocError>
        ensures { IfOk result (λ s. string_bytes s ≡ element_text (element self.now)) }
    {
        match self {
            Elem::Field(name) => prefixed(alloc, FIELD_PREFIX, name.as_str()),
            Elem::Key(keys) => prefixed(alloc, KEY_PREFIX, keys.json(alloc)?.as_str()),
            Elem::Value(scalar) => prefixed(alloc, VALUE_PREFIX, scalar.json(alloc)?.as_str()),
        }
    }

    /// The element that has this text; exactly the texts of elements are read.
    pub fn read(alloc: Global, text: &str) -> Result<Elem, ElemFault>
        ensures { Returns element result (read_element text.now) }
    {
        if let Some(name) = rest_after(FIELD_PREFIX, text) {
            return Ok(Elem::Field(String::from_str(alloc, name)?));
        }
        if let Some(json) = rest_after(KEY_PREFIX, text) {
            return read_key(alloc, text, json);
        }
        if let Some(json) = rest_after(VALUE_PREFIX, text) {
            return read_value(alloc, text, json);
        }
        Err(ElemFault::NoPrefix)
    }

    /// A copy with texts of its own.
    pub fn try_copy(&self, alloc: Global) -> Result<Elem, AllocError>
        ensures { IfOk result (λ e. element e ≡ element self.now) }
    {
        match self {
            Elem::Field(name) => Ok(Elem::Field(name.clone()?)),
            Elem::Key(keys) => Ok(Elem::Key(keys.try_copy(alloc)?)),
            Elem::Value(scalar) => Ok(Elem::Value(scalar.try_copy()?)),
        }
    }

    /// Shows the element behind what is shown already: `.name`, `[a=1,b="x"]`, `[="a"]`.
    pub(crate) fn push_shown(&self, alloc: Global, shown: &mut String) -> Result<(), AllocError>
        ensures { OnOk result (string_bytes shown.new ≡ string_bytes shown.old ++ shown_element (element self.now)) }
    {
        match self {
            Elem::Field(name) => {
                shown.push_str(".")?;
                shown.push_str(name.as_str())?;
            }
            Elem::Key(keys) => {
                shown.push_str("[")?;
                keys.push_shown(alloc, shown)?;
                shown.push_str("]")?;
            }
            Elem::Value(scalar) => {
                shown.push_str("[=")?;
                shown.push_str(scalar.json(alloc)?.as_str())?;
                shown.push_str("]")?;
            }
        }
        Ok(())
    }
}

pub(crate) fn prefixed(alloc: Global, prefix: &str, text: &str) -> Result<String, AllocError>
    ensures { IfOk result (λ s. string_bytes s ≡ prefix.now ++ text.now) }
{
    let mut whole = String::with_capacity(alloc, prefix.len().saturating_add(text.len()))?;
    whole.push_str(prefix)?;
    whole.push_str(text)?;
    Ok(whole)
}

pub(crate) fn rest_after<'a>(prefix: &str, text: &'a str) -> Option<&'a str>
    ensures { option_map (λ s. s.now) result
        ≡ (if bytes_eq (take (length prefix.now) text.now) prefix.now then Some (drop (length prefix.now) text.now) else None) }
{
    text.strip_prefix(prefix)
}

fn parse(alloc: Global, json: &str) -> Result<Value, ElemFault>
    ensures { Returns view result (json_or_bad (read json.now)) }
{
    match Value::from_str(alloc, json) {
        Ok(value) => Ok(value),
        Err(fault) => {
            if fault.is_memory() {
                Err(ElemFault::Memory)
            } else {
                Err(ElemFault::BadJson)
            }
        }
    }
}

fn canonical(alloc: Global, text: &str, elem: Option<Elem>) -> Result<Elem, ElemFault>
    ensures { Returns element result (if_canonical text.now (option_map element elem)) }
{
    match elem {
        Some(elem) => {
            if elem.text(alloc)?.as_str() == text {
                Ok(elem)
            } else {
                Err(ElemFault::NotCanonical)
            }
        }
        None => Err(ElemFault::NotCanonical),
    }
}

fn key_of(alloc: Global, parsed: &Value) -> Result<Option<Elem>, AllocError>
    ensures { IfOk result (λ o. option_map element o ≡ keys_of (view parsed.now)) }
{
    let Some(members) = parsed.as_object() else {
        return Ok(None);
    };
    let Some(fields) = fields_of(alloc, members)? else {
        return Ok(None);
    };
    match Keys::new(fields) {
        Ok(keys) => Ok(Some(Elem::Key(keys))),
        Err(_) => Ok(None),
    }
}

fn value_of(alloc: Global, parsed: &Value) -> Result<Option<Elem>, AllocError>
    ensures { IfOk result (λ o. option_map element o ≡ option_map value (scalar_of (view parsed.now))) }
{
    match Scalar::of_value(alloc, parsed)? {
        Some(scalar) => Ok(Some(Elem::Value(scalar))),
        None => Ok(None),
    }
}

fn read_key(alloc: Global, text: &str, json: &str) -> Result<Elem, ElemFault>
    ensures { Returns element result (read_json text.now keys_of (read json.now)) }
{
    let parsed = parse(alloc, json)?;
    let elem = key_of(alloc, &parsed)?;
    canonical(alloc, text, elem)
}

fn read_value(alloc: Global, text: &str, json: &str) -> Result<Elem, ElemFault>
    ensures { Returns element result (read_json text.now (λ d. option_map value (scalar_of d)) (read json.now)) }
{
    let parsed = parse(alloc, json)?;
    let elem = value_of(alloc, &parsed)?;
    canonical(alloc, text, elem)
}
