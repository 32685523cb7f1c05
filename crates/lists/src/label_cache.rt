//! The labels of the texts that were asked for last, each beside its text, so that many watches that ask for labels read the text of
//! a change once. They are kept in a table of a fixed size, in which many texts share a slot. What labels a text gives stands
//! in `labels`.

ghost use Rattle.std.specs.Prelude.{◌≡◌, IfOk, IfSome};
ghost use Rattle.history.specs.Read.{key_of};
ghost use Rattle.selector.specs.Requirement.{selects};
ghost use Rattle.selector.specs.Views as selector;
ghost use Rattle.lists.specs.Labels.{attributes_of, labels_of};
ghost use Rattle.lists.specs.LabelCache.{AreRight, IsRight};

use crate::labels::LabelReader;
use history::Key;
use revtable::Fault;
use selector::Selector;
use std::alloc::{AllocError, Global};
use std::collections::BTreeMap;
use std::marker::Model;

/// How many slots there are.
const SLOTS: usize = 64;

/// The labels of a longer text are not kept: with all slots full the texts have 1 MiB.
const MOST_KEPT: usize = 16384;

/// A text, and the labels that it gives.
#[derive(Drop)]
pub struct LabelledText {
    pub text: String,
    pub labels: BTreeMap<String, String>,
}

/// All slots, with nothing in them.
fn empty_slots(alloc: Global) -> Result<Vec<Option<LabelledText>>, AllocError>
    ensures { IfOk result (λ v. AreRight v.items) }
{
    let mut slots = Vec::new(alloc);
    for _ in 0..SLOTS {
        slots.push(None)?;
    }
    Ok(slots)
}

/// The labels of a text, where its slot holds them.
fn known_in<'a>(
    slots: &'a [Option<LabelledText>],
    at: usize,
    text: &str,
) -> Option<&'a BTreeMap<String, String>>
    ensures { AreRight slots.now → IfSome result (λ m. selector.labels_of m.now ≡ labels_of text.now) }
{
    let Some(slot) = slots.get(at) else {
        return None;
    };
    match slot {
        Some(known) if known.text.as_str() == text => Some(&known.labels),
        _ => None,
    }
}

/// Puts this in place of what the slot holds; a slot that isn't there changes nothing.
fn put_in(slots: &mut [Option<LabelledText>], at: usize, known: LabelledText)
    ensures { AreRight slots.old → IsRight known → AreRight slots.new }
{
    if at < slots.len() {
        slots[at] = Some(known);
    }
}

/// The labels of texts, each in the slot of its revision. They only save time: the model's value tells nothing of them; that each
/// text gives the labels beside it is the invariant.
#[derive(Drop)]
pub struct LabelCache {
    alloc: Global,
    reader: LabelReader,
    slots: Vec<Option<LabelledText>>,
}

impl Model for LabelCache {
    ghost use base.Stored.{coded_unit};
    ghost use Rattle.lists.specs.LabelCache.{AreRight};

    ghost Value = { Unit {0} };

    ghost coded = { coded_unit };

    ghost view = { λ _. tt };

    ghost invariant = { λ r. AreRight r.slots.items };
}

impl LabelCache {
    /// Nothing is kept yet. Takes no memory.
    pub fn new(alloc: Global) -> LabelCache {
        LabelCache {
            alloc,
            reader: LabelReader::new(alloc),
            slots: Vec::new(alloc),
        }
    }

    /// Where memory is taken from.
    pub fn allocator(&self) -> Global {
        self.alloc
    }

    /// Keeps the labels of a text, where it is not too long and there is memory for it.
    fn keep(&mut self, at: usize, text: &str, labels: BTreeMap<String, String>)
        requires { selector.labels_of labels ≡ labels_of text.now }
    {
        if text.len() > MOST_KEPT {
            return;
        }
        let Ok(text) = String::from_str(self.alloc, text) else {
            return;
        };
        if self.slots.is_empty() {
            let Ok(slots) = empty_slots(self.alloc) else {
                return;
            };
            self.slots = slots;
        }
        put_in(&mut self.slots, at, LabelledText { text, labels });
    }

    /// Whether the object of this key and text, at a revision, is selected. Its text isn't read where its name decides, or where its
    /// labels are kept.
    pub fn is_selected(
        &mut self,
        selector: &Selector,
        key: &Key,
        revision: u64,
        text: &str,
    ) -> Result<bool, Fault>
        ensures { IfOk result (λ b. b ≡ selects selector.now (attributes_of (key_of key.now) text.now)) }
    {
        let name = key.name.as_str();
        if let Some(is_selected) = selector.decided_by_name(name) {
            return Ok(is_selected);
        }
        let at = revision as usize % SLOTS;
        if let Some(labels) = known_in(&self.slots, at, text) {
            return Ok(selector.matches_named(labels, Some(name)));
        }
        let labels = self.reader.labels_of(text)?;
        let is_selected = selector.matches_named(&labels, Some(name));
        self.keep(at, text, labels);
        Ok(is_selected)
    }
}
