//! The labels that an object's text gives, and whether a selector takes it by them and its name, which is its key's. What finds them in
//! the text stands in `finding`; selectors in the crate `selector`.

ghost use Rattle.std.specs.Prelude.{◌≡◌, IfOk, Some, option_map};
ghost use Rattle.serde_json.specs.View.{view};
ghost use Rattle.selector.specs.Fields.{attributes};
ghost use Rattle.selector.specs.Requirement.{selects};
ghost use Rattle.selector.specs.Views as views;
ghost use Rattle.lists.specs.Labels.{labels_by, labels_of, labels_value};

use crate::finding::texts_at;
use json::{Error, Scratch};
use json_values::{read_text, texts_of};
use revtable::Keep;
use selector::Selector;
use serde_json::Value;
use std::alloc::{AllocError, Global};
use std::cell::Cell;
use std::collections::BTreeMap;

/// The labels that a value gives.
fn labels_in(alloc: Global, labels: Option<&Value>) -> Result<BTreeMap<String, String>, AllocError>
    ensures { IfOk result (λ m. views.labels_of m ≡ labels_by (option_map (λ v. view v.now) labels.entry)) }
{
    let Some(members) = labels.and_then(Value::as_object) else {
        return Ok(BTreeMap::new(alloc));
    };
    match texts_of(alloc, members)? {
        Some(labels) => Ok(labels),
        None => Ok(BTreeMap::new(alloc)),
    }
}

fn labels_value(value: &Value) -> Option<&Value>
    ensures { option_map (λ v. view v.now) result ≡ labels_value (view value.now) }
{
    value.get("metadata")?.get("labels")
}

/// The same of a text that is read whole.
fn read_whole(alloc: Global, text: &str) -> Result<BTreeMap<String, String>, AllocError>
    ensures { IfOk result (λ m. views.labels_of m ≡ labels_of text.now) }
{
    let Some(value) = read_text(alloc, text)? else {
        return Ok(BTreeMap::new(alloc));
    };
    labels_in(alloc, labels_value(&value))
}

/// The labels that an object's text gives, of which the rest is passed over. A text that can't be read so is read whole.
fn read_labels(
    alloc: Global,
    text: &str,
    scratch: &mut Scratch,
) -> Result<BTreeMap<String, String>, AllocError>
    ensures { IfOk result (λ m. views.labels_of m ≡ labels_of text.now) }
{
    match texts_at(alloc, text, &["metadata", "labels"], scratch) {
        Ok(labels) => Ok(labels),
        Err(Error::OutOfMemory) => Err(AllocError),
        Err(_) => read_whole(alloc, text),
    }
}

/// Reads the labels of one text after another. The reader's scratch, of which 16 KiB are cleared when it is made, is made at
/// the first text and kept.
#[derive(Drop)]
pub(crate) struct LabelReader {
    alloc: Global,
    scratch: Option<Box<Scratch>>,
}

impl LabelReader {
    /// Takes no memory.
    pub(crate) fn new(alloc: Global) -> LabelReader {
        LabelReader {
            alloc,
            scratch: None,
        }
    }

    fn take_scratch(&mut self) -> Result<Box<Scratch>, AllocError> {
        match self.scratch.take() {
            Some(scratch) => Ok(scratch),
            None => Ok(Box::new(self.alloc, Scratch::new(self.alloc))?),
        }
    }

    /// The labels that an object's text gives.
    pub(crate) fn labels_of(&mut self, text: &str) -> Result<BTreeMap<String, String>, AllocError>
        ensures { IfOk result (λ m. views.labels_of m ≡ labels_of text.now) }
    {
        let mut scratch = self.take_scratch()?;
        let labels = read_labels(self.alloc, text, &mut scratch);
        self.scratch = Some(scratch);
        labels
    }

    /// Whether an object of this name and text is selected. Its text isn't read where its name decides.
    pub(crate) fn is_selected(
        &mut self,
        selector: &Selector,
        name: &str,
        text: &str,
    ) -> Result<bool, AllocError>
        ensures { IfOk result (λ b. b ≡ selects selector.now (attributes (Some name.now) (labels_of text.now))) }
    {
        if let Some(is_selected) = selector.decided_by_name(name) {
            return Ok(is_selected);
        }
        let labels = self.labels_of(text)?;
        Ok(selector.matches_named(&labels, Some(name)))
    }
}

/// The objects that a selector takes by their labels alone.
#[derive(Drop)]
pub(crate) struct Labelled<'a> {
    pub(crate) alloc: Global,
    pub(crate) selector: &'a Selector,
    /// What reads the labels of the next text.
    pub(crate) reader: Cell<LabelReader>,
}

impl<'a> Labelled<'a> {
    pub(crate) fn new(alloc: Global, selector: &'a Selector) -> Labelled<'a>
        ensures { result.selector.now ≡ selector.now }
    {
        Labelled {
            alloc,
            selector,
            reader: Cell::new(LabelReader::new(alloc)),
        }
    }

    /// The labels that an object's text gives.
    fn labels_of(&self, text: &str) -> Result<BTreeMap<String, String>, AllocError>
        ensures { IfOk result (λ m. views.labels_of m ≡ labels_of text.now) }
    {
        let mut reader = self.reader.replace(LabelReader::new(self.alloc));
        let labels = reader.labels_of(text);
        self.reader.set(reader);
        labels
    }
}

impl Keep for Labelled<'_> {
    ghost use Rattle.selector.specs.Requirement.{selects};
    ghost use Rattle.lists.specs.Labels.{labels_of};

    ghost kept = { λ l text. selects l.selector.now (labels_of text) };

    // The text isn't read where nothing is asked.
    fn keeps(&self, text: &str) -> Result<bool, AllocError> {
        if self.selector.is_all() {
            return Ok(true);
        }
        Ok(self.selector.matches(&self.labels_of(text)?))
    }
}
