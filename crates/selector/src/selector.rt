//! A list of requirements, all of which have to be met. One requirement stands in `requirement`.

ghost use Rattle.std.specs.Prelude.{◌≡◌, ◌↔◌, ◌++◌, [], false, true, IfOk, IfSome, option_map};
ghost use Rattle.names.specs.Names.{is_label_key};
ghost use Rattle.selector.specs.Fields.{AsksFor, LabelsDecide, NameDecides, asks_name, attributes, fields_of, name_key};
ghost use Rattle.selector.specs.Grammar.{Returns, parse_selector};
ghost use Rattle.selector.specs.Requirement.{selects};
ghost use Rattle.selector.specs.Views.{labels_of};

use crate::fault::{Fault, ReadError};
use crate::fields::field_of;
use crate::requirement::{
    Requirement, all_ask_name, are_same, copy_all, name_in, parts_of, refuse,
};
use crate::text::has_paired_brackets;
use std::alloc::{AllocError, Global};
use std::collections::BTreeMap;
use std::marker::Model;

/// Requirements on an object's labels and its name, all of which have to be met; none select every object. Contracts see
/// the list of the requirements.
#[derive(Debug, Drop)]
pub struct Selector {
    requirements: Vec<Requirement>,
}

impl Model for Selector {
    ghost use Rattle.std.specs.Prelude.{List, map};
    ghost use Rattle.selector.specs.Requirement.{Requirement};
    ghost use Rattle.selector.specs.Views.{requirement_of};

    ghost Value = { List Requirement };

    ghost view = { λ s. map requirement_of s.requirements.items };
}

impl Selector {
    /// Selects every object.
    pub fn all(alloc: Global) -> Selector
        ensures { result ≡ [] }
    {
        Selector {
            requirements: Vec::new(alloc),
        }
    }

    /// Reads `tier in (web, db),!old` and the like. The empty text selects every object; blanks around a part and around
    /// its signs are ignored (Kubernetes documentation, "Labels and Selectors").
    ///
    /// Refused with its first fault: a bracket that isn't paired anywhere; then the parts from the left, of
    /// each its form, its key and its values in turn.
    pub fn read(alloc: Global, text: &str) -> Result<Selector, ReadError>
        ensures { Returns (λ s. s) result (parse_selector text.now) }
    {
        if text.is_empty() {
            return Ok(Selector::all(alloc));
        }
        if !has_paired_brackets(text) {
            return Err(ReadError::Fault(Fault::Bracket));
        }
        let requirements = parts_of(alloc, text)?;
        Ok(Selector { requirements })
    }

    /// Reads `metadata.name=NAME`, also with `==` or `!=`; the empty text selects every object. `NAME` is any text, also one that no
    /// object has, but for commas, equals signs and backslashes. None of any other text (Kubernetes documentation, "Field
    /// Selectors").
    pub fn read_fields(alloc: Global, text: &str) -> Result<Option<Selector>, AllocError>
        ensures { IfOk result (λ s. s ≡ fields_of text.now) }
    {
        if text.is_empty() {
            return Ok(Some(Selector::all(alloc)));
        }
        let Some(requirement) = field_of(alloc, text)? else {
            return Ok(None);
        };
        let requirements = vec![in alloc; requirement]?;
        Ok(Some(Selector { requirements }))
    }

    /// Asks what this one asks, then what the other does.
    pub fn and(self, other: Selector) -> Result<Selector, AllocError>
        ensures { IfOk result (λ s. s ≡ self ++ other) }
    {
        let mut requirements = self.requirements;
        let mut more = other.requirements;
        requirements.append(&mut more)?;
        Ok(Selector { requirements })
    }

    /// Whether nothing is asked, so that every object is selected.
    pub fn is_all(&self) -> bool
        ensures { (result ≡ true) ↔ (self.now ≡ []) }
    {
        self.requirements.is_empty()
    }

    /// Whether both ask the same requirements, in the same order.
    pub fn is_same(&self, other: &Selector) -> bool
        ensures { (result ≡ true) ↔ (self.now ≡ other.now) }
    {
        are_same(&self.requirements, &other.requirements)
    }

    /// A copy with texts of its own.
    pub fn try_copy(&self, alloc: Global) -> Result<Selector, AllocError>
        ensures { IfOk result (λ s. s ≡ self.now) }
    {
        let requirements = copy_all(alloc, &self.requirements)?;
        Ok(Selector { requirements })
    }

    /// Whether an object's name is asked for, by a key that no label has; where it isn't, the labels alone decide.
    pub fn asks_name(&self) -> bool
        ensures value { result ≡ asks_name self.now }
        ensures labels_decide { result ≡ false → LabelsDecide self.now }
        ensures no_label { is_label_key name_key ≡ false }
    {
        self.requirements
            .iter()
            .any(|requirement| requirement.asks_name())
    }

    /// Whether the object of this name is selected, where that doesn't depend on its labels. Takes no memory.
    pub fn decided_by_name(&self, name: &str) -> Option<bool>
        ensures { IfSome result (NameDecides self.now name.now) }
    {
        if refuse(&self.requirements, name) {
            Some(false)
        } else if all_ask_name(&self.requirements) {
            Some(true)
        } else {
            None
        }
    }

    /// The name that an object must have to be selected, if one is asked for.
    pub fn name(&self) -> Option<&str>
        ensures { IfSome result (λ n. AsksFor self.now n.now) }
    {
        name_in(&self.requirements)
    }

    /// Whether an object with these labels is selected. Takes no memory.
    pub fn matches(&self, labels: &BTreeMap<String, String>) -> bool
        ensures { result ≡ selects self.now (labels_of labels.now) }
    {
        self.matches_named(labels, None)
    }

    /// Whether an object with these labels is selected that has this name, if one is given. Takes no memory.
    pub fn matches_named(&self, labels: &BTreeMap<String, String>, name: Option<&str>) -> bool
        ensures { result ≡ selects self.now (attributes (option_map (λ n. n.now) name.entry) (labels_of labels.now)) }
    {
        self.requirements
            .iter()
            .all(|requirement| requirement.is_met(labels, name))
    }
}
