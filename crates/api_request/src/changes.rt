//! The changes that a call makes to the objects: all of them, or none. They are made in the store in `writing` of the crate
//! `verbs`.

ghost use Rattle.std.specs.Prelude.{◌+◌, ◌≤◌, length};
ghost use Rattle.history.specs.History.{last_revision};

use crate::change::Change;
use history::{Key, Write};

/// Writes of objects, one after the other: each gets the next revision.
#[derive(Drop)]
pub struct Writes {
    /// The revision that the objects have before the first.
    pub after: u64,
    pub writes: Vec<Write>,
    pub ghost numbered: { after + length writes.items ≤ last_revision },
}

impl Writes {
    ghost use Rattle.std.specs.Prelude.{◌≡◌, map, option_and_then, option_map};
    ghost use Rattle.history.specs.Read.{key_of, write_of};
    ghost use Rattle.history.specs.Writes.{changes_by};
    ghost use Rattle.api_request.specs.Calls.{only_change, only_key};

    /// The key that is written, where it is the only one.
    fn only_key(&self) -> Option<&Key>
        ensures { option_map (λ k. key_of k.now) result ≡ only_key (changes_by self.now.after (map write_of self.now.writes.items)) }
    {
        match self.writes.as_slice() {
            [] => None,
            [write] => Some(&write.key),
            [_, _, ..] => None,
        }
    }

    /// The text that is written, where there is one write alone.
    pub(crate) fn only_body(&self) -> Option<&str>
        ensures { option_map (λ b. b.now) result ≡ option_and_then (λ c. c.body) (only_change (changes_by self.now.after (map write_of self.now.writes.items))) }
    {
        match self.writes.as_slice() {
            [] => None,
            [write] => write.body.as_deref(),
            [_, _, ..] => None,
        }
    }
}

/// The changes of a call.
#[derive(Drop)]
pub enum Changes {
    None,
    /// One, whose text is the answer's body.
    Answered(Change),
    /// Any number, each with a text of its own.
    Each(Writes),
}

impl Changes {
    ghost use Rattle.std.specs.Prelude.{◌≡◌, ◌↔◌, [], true, option_map};
    ghost use Rattle.history.specs.Read.{key_of};
    ghost use Rattle.api_request.specs.Calls.{only_key};
    ghost use Rattle.api_request.specs.Views.{changes_of};

    /// Whether nothing is changed.
    pub fn is_none(&self) -> bool
        ensures { (result ≡ true) ↔ (changes_of self.now ≡ []) }
    {
        match self {
            Changes::None => true,
            Changes::Answered(_) => false,
            Changes::Each(each) => each.writes.is_empty(),
        }
    }

    /// The key of the object that is changed, where it is the only one.
    pub fn only_key(&self) -> Option<&Key>
        ensures { option_map (λ k. key_of k.now) result ≡ only_key (changes_of self.now) }
    {
        match self {
            Changes::None => None,
            Changes::Answered(change) => Some(&change.key),
            Changes::Each(each) => each.only_key(),
        }
    }
}
