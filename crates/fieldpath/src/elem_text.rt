//! The text of an element as a type of its own, so that paths can be compared without reading them. What an element says
//! stands in `elem`.
ghost use Rattle.std.specs.Prelude.{◌≡◌, ◌∷◌, IfOk, Ok, is_some, option_map, refl, string_bytes, true};
ghost use Rattle.std.specs.Cmp.{eq_by_cmp_equiv, partial_equiv_from_equiv, partial_order_from_total};
ghost use Rattle.std.specs.Ordering.{as_partial_cmp, eq_by_cmp};
ghost use Rattle.serde_json.specs.View.{view};
ghost use Rattle.serde_json.specs.Written.{compact_text};
ghost use Rattle.fieldpath.specs.Elements.{field_name, is_field_text, keys_json, keys_of, list_item_text, name_text, read_element, scalar_json, scalar_of, scalar_text, set_item_text};
ghost use Rattle.fieldpath.specs.ElementViews.{ReturnsText, element};
ghost use Rattle.fieldpath.specs.Paths.{text_cmp, text_cmp_total};

use crate::elem::{Elem, ElemFault, FIELD_PREFIX, KEY_PREFIX, VALUE_PREFIX, prefixed, rest_after};
use crate::keys::is_key_object;
use crate::scalar::is_scalar;
use serde_json::Value;
use std::alloc::{AllocError, Global};
use std::cmp::Ordering;
use std::marker::Model;

/// The text of an element, and of nothing else (FieldsV1: `f:<name>`, `k:<keys>`, `v:<value>`).
/// Texts are ordered by their bytes.
#[derive(Debug, Drop)]
pub struct ElemText {
    text: String,
}

impl Model for ElemText {
    ghost use Rattle.std.specs.Prelude.{String, string_bytes};
    ghost use Rattle.std.specs.declared.alloc.Global.{Global};
    ghost use Rattle.fieldpath.specs.Elements.{IsElementText};

    ghost Value = { String Global };

    ghost view = { λ t. t.text };

    ghost invariant = { λ t. IsElementText (string_bytes t.text) };
}

/// Whether it is the text of a field's element.
fn is_field(text: &str) -> bool
    ensures { result ≡ is_field_text text.now }
{
    rest_after(FIELD_PREFIX, text).is_some()
}

fn of_scalar(alloc: Global, value: &Value) -> Result<ElemText, AllocError>
    requires { is_some (scalar_of (view value.now)) ≡ true }
    ensures { IfOk result (λ t. string_bytes t ≡ scalar_text (view value.now)) }
{
    let json = value.to_string(alloc)?;
    let text = prefixed(alloc, VALUE_PREFIX, json.as_str())?;
    Ok(ElemText { text })
}

fn of_keys(alloc: Global, keys: &Value) -> Result<ElemText, AllocError>
    requires { is_some (keys_of (view keys.now)) ≡ true }
    ensures { IfOk result (λ t. string_bytes t ≡ 107 ∷ 58 ∷ compact_text (view keys.now)) }
{
    let json = keys.to_string(alloc)?;
    let text = prefixed(alloc, KEY_PREFIX, json.as_str())?;
    Ok(ElemText { text })
}

impl ElemText {
    /// The text of a field's element.
    pub fn of_field(alloc: Global, name: &str) -> Result<ElemText, AllocError>
        ensures { IfOk result (λ t. string_bytes t ≡ name_text name.now) }
    {
        Ok(ElemText {
            text: prefixed(alloc, FIELD_PREFIX, name)?,
        })
    }

    /// The text of a set item's element, if the value is a scalar.
    pub fn of_set_item(alloc: Global, value: &Value) -> Result<Option<ElemText>, AllocError>
        ensures { IfOk result (λ o. option_map string_bytes o ≡ set_item_text (view value.now)) }
    {
        if is_scalar(value) {
            Ok(Some(of_scalar(alloc, value)?))
        } else {
            Ok(None)
        }
    }

    /// The text of a map list item's element, if the value is an object of one or more scalars.
    pub fn of_list_item(alloc: Global, keys: &Value) -> Result<Option<ElemText>, AllocError>
        ensures { IfOk result (λ o. option_map string_bytes o ≡ list_item_text (view keys.now)) }
    {
        if is_key_object(keys) {
            Ok(Some(of_keys(alloc, keys)?))
        } else {
            Ok(None)
        }
    }

    /// This text of a field's element.
    fn of_field_text(alloc: Global, text: &str) -> Result<ElemText, ElemFault>
        requires { is_field_text text.now ≡ true }
        ensures { ReturnsText text.now result (read_element text.now) }
    {
        Ok(ElemText {
            text: String::from_str(alloc, text)?,
        })
    }

    /// This text, once its element is read.
    fn checked(alloc: Global, text: &str) -> Result<ElemText, ElemFault>
        ensures { ReturnsText text.now result (read_element text.now) }
    {
        drop(Elem::read(alloc, text)?);
        Ok(ElemText {
            text: String::from_str(alloc, text)?,
        })
    }

    /// This text, refused exactly where `Elem::read` refuses it. A field's takes one allocation.
    pub fn read(alloc: Global, text: &str) -> Result<ElemText, ElemFault>
        ensures { ReturnsText text.now result (read_element text.now) }
    {
        if is_field(text) {
            return ElemText::of_field_text(alloc, text);
        }
        ElemText::checked(alloc, text)
    }

    /// The element that has this text.
    pub fn elem(&self, alloc: Global) -> Result<Elem, AllocError>
        ensures { IfOk result (λ e. read_element (string_bytes self.now) ≡ Ok (element e)) }
    {
        match Elem::read(alloc, self.text.as_str()) {
            Ok(elem) => Ok(elem),
            Err(ElemFault::Memory) => Err(AllocError),
            Err(_) => unreachable!(),
        }
    }

    /// The name, if it is a field's element.
    pub fn field_name(&self) -> Option<&str>
        ensures { option_map (λ s. s.now) result ≡ field_name (string_bytes self.now) }
    {
        rest_after(FIELD_PREFIX, self.text.as_str())
    }

    /// The JSON object of the key fields, if it is a map list item's element.
    pub fn keys_json(&self) -> Option<&str>
        ensures { option_map (λ s. s.now) result ≡ keys_json (string_bytes self.now) }
    {
        rest_after(KEY_PREFIX, self.text.as_str())
    }

    /// The JSON of the scalar, if it is a set item's element.
    pub fn scalar_json(&self) -> Option<&str>
        ensures { option_map (λ s. s.now) result ≡ scalar_json (string_bytes self.now) }
    {
        rest_after(VALUE_PREFIX, self.text.as_str())
    }

    /// The element's text.
    pub fn as_str(&self) -> &str
        ensures value { result.now ≡ string_bytes self.now }
    {
        self.text.as_str()
    }

    /// The text alone.
    pub fn into_text(self) -> String
        ensures { result ≡ self }
    {
        self.text
    }

    /// A copy with bytes of its own.
    pub fn try_copy(&self) -> Result<ElemText, AllocError>
        ensures { IfOk result (λ t. string_bytes t ≡ string_bytes self.now) }
    {
        Ok(ElemText {
            text: self.text.clone()?,
        })
    }
}

impl PartialEq for ElemText {
    ghost eq = { eq_by_cmp text_cmp };

    ghost laws = { partial_equiv_from_equiv (eq_by_cmp_equiv text_cmp_total) };

    fn eq(&self, other: &ElemText) -> bool {
        self.cmp(other).is_eq()
    }
}

impl Eq for ElemText {
    ghost laws = { eq_by_cmp_equiv text_cmp_total };
}

impl PartialOrd for ElemText {
    ghost partial_cmp = { as_partial_cmp text_cmp };

    ghost laws = { partial_order_from_total text_cmp_total };

    fn partial_cmp(&self, other: &ElemText) -> Option<Ordering> {
        Some(self.cmp(other))
    }
}

impl Ord for ElemText {
    ghost cmp = { text_cmp };

    ghost total = { text_cmp_total };

    ghost matches_partial_cmp = { λ x y. refl };

    ghost matches_eq = { λ x y. refl };

    fn cmp(&self, other: &ElemText) -> Ordering {
        self.text.cmp(&other.text)
    }
}
