//! One requirement on an object's labels or its name: how it is read of labels, when it is met, whether it is the same as another, and
//! copies. A whole selector stands in `selector`, what is asked of names in `fields`.

ghost use Rattle.std.specs.List.{list_all, list_any};
ghost use Rattle.std.specs.Prelude.{◌≡◌, ◌↔◌, [], true, map, IfOk, IfSome, option_map, string_bytes};
ghost use Rattle.std.specs.Str.{bytes_eq};
ghost use Rattle.selector.specs.Fields.{AsksFor, about_name, attributes, name_key, refuses};
ghost use Rattle.selector.specs.Grammar.{Returns, required, key_of, value_of, values_of, outside_of, among_of, worded, set_of, equal, different, signed, plain_of, part_of, parts_of};
ghost use Rattle.selector.specs.Labels.{value_at};
ghost use Rattle.selector.specs.Requirement.{equals, meets};
ghost use Rattle.selector.specs.Views.{condition_of, requirement_of, labels_of};

use crate::fault::{Fault, ReadError};
use crate::text::{first_part, trimmed};
use names::{is_label_key, is_label_value};
use std::alloc::{AllocError, Global};
use std::collections::BTreeMap;

/// The key under which a requirement asks for an object's name; no label has it.
pub(crate) const NAME_KEY: &str = ".metadata.name";

/// What is asked of the value at a key.
#[derive(Debug, Drop)]
pub(crate) enum Condition {
    Equals(String),
    Differs(String),
    Among(Vec<String>),
    Outside(Vec<String>),
    Exists,
    Absent,
}

/// A key, and what is asked of its value.
#[derive(Debug, Drop)]
pub(crate) struct Requirement {
    pub(crate) key: String,
    pub(crate) condition: Condition,
}

impl Condition {
    fn is_met(&self, value: Option<&str>) -> bool
        ensures { result ≡ meets (condition_of self.now) (option_map (λ v. v.now) value.entry) }
    {
        match (self, value) {
            (Condition::Equals(wanted), Some(value)) => value == wanted.as_str(),
            (Condition::Differs(other), Some(value)) => value != other.as_str(),
            (Condition::Among(values), Some(value)) => has_text(values, value),
            (Condition::Outside(values), Some(value)) => !has_text(values, value),
            (Condition::Exists, Some(_)) => true,
            (Condition::Absent, Some(_)) => false,
            (Condition::Equals(_) | Condition::Among(_) | Condition::Exists, None) => false,
            (Condition::Differs(_) | Condition::Outside(_) | Condition::Absent, None) => true,
        }
    }

    /// Whether both ask the same of the value at a key.
    fn is_same(&self, other: &Condition) -> bool
        ensures { (result ≡ true) ↔ (condition_of self.now ≡ condition_of other.now) }
    {
        match (self, other) {
            (Condition::Equals(value), Condition::Equals(other)) => value == other,
            (Condition::Differs(value), Condition::Differs(other)) => value == other,
            (Condition::Among(values), Condition::Among(others)) => are_same_texts(values, others),
            (Condition::Outside(values), Condition::Outside(others)) => {
                are_same_texts(values, others)
            }
            (Condition::Exists, Condition::Exists) => true,
            (Condition::Absent, Condition::Absent) => true,
            _ => false,
        }
    }

    fn try_copy(&self, alloc: Global) -> Result<Condition, AllocError>
        ensures { IfOk result (λ c. condition_of c ≡ condition_of self.now) }
    {
        match self {
            Condition::Equals(value) => Ok(Condition::Equals(value.clone()?)),
            Condition::Differs(value) => Ok(Condition::Differs(value.clone()?)),
            Condition::Among(values) => Ok(Condition::Among(copy_texts(alloc, values)?)),
            Condition::Outside(values) => Ok(Condition::Outside(copy_texts(alloc, values)?)),
            Condition::Exists => Ok(Condition::Exists),
            Condition::Absent => Ok(Condition::Absent),
        }
    }
}

/// The value at a label's key.
fn label_at<'a>(labels: &'a BTreeMap<String, String>, key: &String) -> Option<&'a str>
    ensures { option_map (λ v. v.now) result ≡ value_at (string_bytes key.now) (labels_of labels.now) }
{
    Some(labels.get(key)?.as_str())
}

fn has_text(texts: &[String], wanted: &str) -> bool
    ensures { result ≡ list_any (λ t. bytes_eq t wanted.now) (map string_bytes texts.now) }
{
    texts.iter().any(|text| text.as_str() == wanted)
}

/// Whether these are the same texts, in the same order.
fn are_same_texts(ones: &Vec<String>, others: &Vec<String>) -> bool
    ensures { (result ≡ true) ↔ (map string_bytes ones.now.items ≡ map string_bytes others.now.items) }
{
    ones == others
}

fn copy_texts(alloc: Global, texts: &[String]) -> Result<Vec<String>, AllocError>
    ensures { IfOk result (λ v. map string_bytes v.items ≡ map string_bytes texts.now) }
{
    let mut copies = Vec::with_capacity(alloc, texts.len())?;
    for text in texts {
        copies.push(text.clone()?)?;
    }
    Ok(copies)
}

impl Requirement {
    /// The value at its key: of the labels, or the name.
    fn value<'a>(
        &self,
        labels: &'a BTreeMap<String, String>,
        name: Option<&'a str>,
    ) -> Option<&'a str>
        ensures { option_map (λ v. v.now) result ≡ value_at (string_bytes self.now.key) (attributes (option_map (λ n. n.now) name.entry) (labels_of labels.now)) }
    {
        match name {
            Some(name) if self.asks_name() => Some(name),
            _ => label_at(labels, &self.key),
        }
    }

    /// Whether it is on the name.
    pub(crate) fn asks_name(&self) -> bool
        ensures { result ≡ bytes_eq (string_bytes self.now.key) name_key }
    {
        self.key.as_str() == NAME_KEY
    }

    /// Whether it is on the name, and this name doesn't meet it.
    fn refuses(&self, name: &str) -> bool
        ensures { result ≡ refuses name.now (requirement_of self.now) }
    {
        self.asks_name() && !self.condition.is_met(Some(name))
    }

    /// The name that it asks for, if it does.
    fn name(&self) -> Option<&str>
        ensures { IfSome result (λ n. requirement_of self.now ≡ about_name (equals n.now)) }
    {
        match &self.condition {
            Condition::Equals(name) if self.asks_name() => Some(name.as_str()),
            _ => None,
        }
    }

    /// Whether an object of these labels meets it, and of this name, if one is given.
    pub(crate) fn is_met(&self, labels: &BTreeMap<String, String>, name: Option<&str>) -> bool
        ensures { result ≡ meets (condition_of self.now.condition) (value_at (string_bytes self.now.key) (attributes (option_map (λ n. n.now) name.entry) (labels_of labels.now))) }
    {
        self.condition.is_met(self.value(labels, name))
    }

    fn is_same(&self, other: &Requirement) -> bool
        ensures { (result ≡ true) ↔ (requirement_of self.now ≡ requirement_of other.now) }
    {
        self.key == other.key && self.condition.is_same(&other.condition)
    }

    fn try_copy(&self, alloc: Global) -> Result<Requirement, AllocError>
        ensures { IfOk result (λ r. requirement_of r ≡ requirement_of self.now) }
    {
        Ok(Requirement {
            key: self.key.clone()?,
            condition: self.condition.try_copy(alloc)?,
        })
    }
}

/// Whether one of these refuses a name.
pub(crate) fn refuse(requirements: &[Requirement], name: &str) -> bool
    ensures { result ≡ list_any (refuses name.now) (map requirement_of requirements.now) }
{
    requirements
        .iter()
        .any(|requirement| requirement.refuses(name))
}

/// Whether all of these are on the name.
pub(crate) fn all_ask_name(requirements: &[Requirement]) -> bool
    ensures { result ≡ list_all (λ r. bytes_eq r.key name_key) (map requirement_of requirements.now) }
{
    requirements
        .iter()
        .all(|requirement| requirement.asks_name())
}

/// The name that the first of these asks for which asks for one.
pub(crate) fn name_in(requirements: &[Requirement]) -> Option<&str>
    ensures { IfSome result (λ n. AsksFor (map requirement_of requirements.now) n.now) }
{
    for requirement in requirements {
        if let Some(name) = requirement.name() {
            return Some(name);
        }
    }
    None
}

/// Whether these are the same requirements, in the same order.
pub(crate) fn are_same(ones: &[Requirement], others: &[Requirement]) -> bool
    ensures { (result ≡ true) ↔ (map requirement_of ones.now ≡ map requirement_of others.now) }
{
    if ones.len() != others.len() {
        return false;
    }
    for i in 0..ones.len() {
        if !ones[i].is_same(&others[i]) {
            return false;
        }
    }
    true
}

/// Copies with texts of their own.
pub(crate) fn copy_all(
    alloc: Global,
    requirements: &[Requirement],
) -> Result<Vec<Requirement>, AllocError>
    ensures { IfOk result (λ v. map requirement_of v.items ≡ map requirement_of requirements.now) }
{
    let mut copies = Vec::with_capacity(alloc, requirements.len())?;
    for requirement in requirements {
        copies.push(requirement.try_copy(alloc)?)?;
    }
    Ok(copies)
}

fn key_of(alloc: Global, text: &str) -> Result<String, ReadError>
    ensures { Returns (λ k. string_bytes k) result (key_of text.now) }
{
    let key = trimmed(text);
    if !is_label_key(key) {
        return Err(ReadError::Fault(Fault::BadKey));
    }
    Ok(String::from_str(alloc, key)?)
}

fn value_of(alloc: Global, text: &str) -> Result<String, ReadError>
    ensures { Returns (λ v. string_bytes v) result (value_of text.now) }
{
    let value = trimmed(text);
    if !is_label_value(value) {
        return Err(ReadError::Fault(Fault::BadValue));
    }
    Ok(String::from_str(alloc, value)?)
}

/// The values between the brackets.
fn values_of(alloc: Global, text: &str) -> Result<Vec<String>, ReadError>
    ensures { Returns (λ v. map string_bytes v.items) result (values_of text.now) }
{
    let mut values = Vec::new(alloc);
    for value in text.split(',') {
        values.push(value_of(alloc, value)?)?;
    }
    Ok(values)
}

fn among(alloc: Global, key: &str, values: &str) -> Result<Requirement, ReadError>
    ensures { Returns requirement_of result (among_of (Some key.now) [] values.now) }
{
    let key = key_of(alloc, key)?;
    let condition = Condition::Among(values_of(alloc, values)?);
    Ok(Requirement { key, condition })
}

fn outside(alloc: Global, key: &str, values: &str) -> Result<Requirement, ReadError>
    ensures { Returns requirement_of result (outside_of (Some key.now) values.now) }
{
    let key = key_of(alloc, key)?;
    let condition = Condition::Outside(values_of(alloc, values)?);
    Ok(Requirement { key, condition })
}

/// `key in` or `key notin`, and the values.
fn worded(alloc: Global, head: &str, values: &str) -> Result<Requirement, ReadError>
    ensures { Returns requirement_of result (worded head.now values.now) }
{
    if let Some(key) = head.strip_suffix(" in") {
        among(alloc, key, values)
    } else if let Some(key) = head.strip_suffix(" notin") {
        outside(alloc, key, values)
    } else {
        Err(ReadError::Fault(Fault::Bracket))
    }
}

/// What stands before an opening bracket and after it.
fn set_of(alloc: Global, head: &str, inner: &str) -> Result<Requirement, ReadError>
    ensures { Returns requirement_of result (set_of head.now inner.now) }
{
    match inner.split_once(')') {
        Some((values, after)) if after.is_empty() => {
            worded(alloc, head.trim_end_matches(' '), values)
        }
        _ => Err(ReadError::Fault(Fault::Bracket)),
    }
}

fn equals(alloc: Global, key: &str, value: &str) -> Result<Requirement, ReadError>
    ensures { Returns requirement_of result (signed key.now (Some (equal, value.now))) }
{
    let key = key_of(alloc, key)?;
    let condition = Condition::Equals(value_of(alloc, value)?);
    Ok(Requirement { key, condition })
}

fn differs(alloc: Global, key: &str, value: &str) -> Result<Requirement, ReadError>
    ensures { Returns requirement_of result (signed key.now (Some (different, value.now))) }
{
    let key = key_of(alloc, key)?;
    let condition = Condition::Differs(value_of(alloc, value)?);
    Ok(Requirement { key, condition })
}

fn about_key(alloc: Global, key: &str, condition: Condition) -> Result<Requirement, ReadError>
    ensures { Returns requirement_of result (required key.now (Ok (condition_of condition))) }
{
    let key = key_of(alloc, key)?;
    Ok(Requirement { key, condition })
}

/// A part without brackets.
fn plain_of(alloc: Global, part: &str) -> Result<Requirement, ReadError>
    ensures { Returns requirement_of result (plain_of part.now) }
{
    if part.is_empty() {
        return Err(ReadError::Fault(Fault::EmptyPart));
    }
    if let Some(key) = part.strip_prefix('!') {
        return about_key(alloc, key, Condition::Absent);
    }
    let Some((before, after)) = part.split_once('=') else {
        return about_key(alloc, part, Condition::Exists);
    };
    match before.strip_suffix('!') {
        Some(key) => differs(alloc, key, after),
        None => equals(alloc, before, after.strip_prefix('=').unwrap_or(after)),
    }
}

/// A part; blanks at its ends are ignored.
pub(crate) fn part_of(alloc: Global, part: &str) -> Result<Requirement, ReadError>
    ensures { Returns requirement_of result (part_of part.now) }
{
    match part.split_once('(') {
        Some((head, inner)) => set_of(alloc, head, inner),
        None => plain_of(alloc, part),
    }
}

/// The parts between the commas outside brackets.
pub(crate) fn parts_of(alloc: Global, text: &str) -> Result<Vec<Requirement>, ReadError>
    ensures { Returns (λ v. map requirement_of v.items) result (parts_of text.now) }
{
    let mut requirements = Vec::new(alloc);
    let mut rest = Some(text);
    while let Some(left) = rest {
        let (part, after) = first_part(left);
        requirements.push(part_of(alloc, trimmed(part))?)?;
        rest = after;
    }
    Ok(requirements)
}
