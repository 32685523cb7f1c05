//! A change of the types file while objects stand: which is lawful, and the old and the new schema of each type.
//! Schemas are compared in `becoming`.
ghost use Rattle.std.specs.Prelude.{◌≡◌, true, map};
ghost use Rattle.api_types.specs.Retyping.{is_lawful_change, type_may_become, types_may_become};
ghost use Rattle.api_types.specs.Served.{served, types_view};

use crate::becoming;
use crate::served::Served;
use crate::types::Types;
use schema::NewSchema;
use thiserror::Error;

/// Why types may not take the place of others.
#[derive(Clone, Copy, Debug, PartialEq, Eq, Error)]
pub enum ChangeFault {
    /// Something differs beside sets, map lists and granular maps that have become atomic.
    #[error("not a lawful change of types")]
    NotLawful,
}

/// A lawful change of the types: those that were served, and those that are served from here on.
#[derive(Clone, Copy)]
pub struct Retyping<'a> {
    pub old: &'a Types,
    pub new: &'a Types,
    ghost lawful: { is_lawful_change (types_view old.now) (types_view new.now) ≡ true },
}

fn may_become(old: &Served, new: &Served) -> bool
    ensures { result ≡ type_may_become (served old.now) (served new.now) }
{
    old.profile == new.profile
        && old.group == new.group
        && old.version == new.version
        && old.kind == new.kind
        && old.plural == new.plural
        && becoming::may_become(&old.schema, &new.schema)
}

/// Whether each type may become the one at its place, and none is left over.
fn all_may_become(types: &[Served], others: &[Served]) -> bool
    ensures { result ≡ types_may_become (map served types.now) (map served others.now) }
{
    let mut left = others;
    for served in types {
        let Some((other, rest)) = left.split_first() else {
            return false;
        };
        if !may_become(served, other) {
            return false;
        }
        left = rest;
    }
    left.is_empty()
}

impl Types {
    ghost use Rattle.std.specs.Prelude.{◌≡◌, IfOk, is_ok};
    ghost use Rattle.api_types.specs.Retyping.{types_may_become};
    ghost use Rattle.api_types.specs.Served.{types_view};

    /// The change from these types to the others. It is lawful if they are the same but for some sets, map lists and
    /// granular maps that have become atomic, at any depth; what such a list or map holds stays the same.
    pub fn change_to<'a>(&'a self, new: &'a Types) -> Result<Retyping<'a>, ChangeFault>
        ensures lawful { is_ok result ≡ types_may_become (types_view self.now) (types_view new.now) }
        ensures old { IfOk result (λ r. r.old.now ≡ self.now) }
        ensures new { IfOk result (λ r. r.new.now ≡ new.now) }
    {
        if !all_may_become(self.all(), new.all()) {
            return Err(ChangeFault::NotLawful);
        }
        Ok(Retyping { old: self, new })
    }
}

impl<'a> Retyping<'a> {
    ghost use Rattle.std.specs.Prelude.{◌≡◌, option_map, slice_get};
    ghost use Rattle.api_types.specs.Served.{types_view};
    ghost use Rattle.schema.specs.Shape.{shape};

    /// The old and the new schema of the type of this number.
    pub fn of_type(self, number: u32) -> Option<NewSchema<'a>>
        ensures old { option_map (λ s. shape s.old.now) result ≡ option_map (λ t. t.shape) (slice_get (types_view self.entry.old.now) number) }
        ensures new { option_map (λ s. shape s.new.now) result ≡ option_map (λ t. t.shape) (slice_get (types_view self.entry.new.now) number) }
    {
        let Some(old) = self.old.get(number) else {
            return None;
        };
        let Some(new) = self.new.get(number) else {
            return None;
        };
        Some(NewSchema {
            old: &old.schema,
            new: &new.schema,
        })
    }
}
