//! The change that a call makes to the objects. It is made in the store in `writing` of the crate `verbs`.

ghost use Rattle.std.specs.Prelude.{◌≤◌};
ghost use Rattle.history.specs.History.{last_revision};

use history::Key;
use std::snapshot::Snapshot;

/// One change of the objects, by a call that answers its text; without a text it is a deletion.
#[derive(Drop)]
pub struct Change {
    pub revision: u64,
    pub key: Key,
    /// The text of the object. It is there for clauses alone: the plan's answer has it.
    pub text: Option<Snapshot<String>>,
    pub ghost numbered: { revision ≤ last_revision },
}

impl Change {
    ghost use Rattle.std.specs.Prelude.{◌≡◌};
    ghost use Rattle.history.specs.Read.{key_of};
    ghost use Rattle.api_request.specs.Views.{change_of};

    /// The revision that the objects have with it.
    pub fn revision(&self) -> u64
        ensures { result ≡ (change_of self.now).revision }
    {
        self.revision
    }

    /// The key of the object that it changes.
    pub fn key(&self) -> &Key
        ensures { key_of result.now ≡ (change_of self.now).key }
    {
        &self.key
    }
}
