//! What the plans of calls on a served type share. What a write starts from stands in `existing`.

ghost use Rattle.std.specs.Prelude.{◌≡◌, IfOk};
ghost use Rattle.history.specs.Read.{key_of};
ghost use Rattle.verbs.specs.Step.{key_at};

use api_request::Call;
use api_types::Served;
use history::Key;
use std::alloc::{AllocError, Global};

/// What a write of one object is.
#[derive(Clone, Copy, Debug, PartialEq, Eq)]
pub(crate) enum ObjectWrite {
    Update,
    Apply,
    Delete,
}

/// The call, the type of the objects that it is of with its number, and the revision at which the store stands.
#[derive(Clone, Copy)]
pub(crate) struct Planner<'a> {
    pub(crate) alloc: Global,
    pub(crate) served: &'a Served,
    pub(crate) kind: u32,
    pub(crate) call: &'a Call,
    pub(crate) current: u64,
}

impl Planner<'_> {
    /// The key of an object of the type.
    pub(crate) fn key(self, namespace: &str, name: &str) -> Result<Key, AllocError>
        ensures { IfOk result (λ k. key_of k ≡ key_at self.entry.kind namespace.now name.now) }
    {
        Ok(Key {
            kind: self.kind,
            namespace: String::from_str(self.alloc, namespace)?,
            name: String::from_str(self.alloc, name)?,
        })
    }
}
