//! What the system says of an object, and no manager owns: its version, and of some types a uid, moments and a generation.
//! It is read of `metadata` in `system_read`, and written with the rest of it in `metadata`.

ghost use Rattle.std.specs.Prelude.{◌≡◌, OnOk, option_map, string_bytes};
ghost use Rattle.serde_json.specs.View.{members_view};
ghost use Rattle.objects.specs.SystemMetadata.{plain_stamp, put_deletion, put_life, put_uid};
ghost use Rattle.objects.specs.Views.{stamp_of, stored_stamp};

use crate::object::put_text;
use crate::owned::Owned;
use serde_json::{Map, Value};
use std::alloc::{AllocError, Global};

/// What the system says of an object beside its version (Kubernetes API conventions, "Metadata"). Moments are texts, as
/// they are printed.
#[derive(Debug, Drop)]
pub struct System {
    pub uid: String,
    /// When it was created.
    pub created: String,
    /// How often what it asks for has changed.
    pub generation: u64,
    /// From when it is being deleted, if it is.
    pub deleted: Option<String>,
}

/// An object's version, and what else the system says of it: of some types nothing.
#[derive(Clone, Copy)]
pub struct Stamp<'a> {
    pub version: u64,
    pub system: Option<&'a System>,
}

/// An object, and what the system says of it, as a text says them.
#[derive(Drop)]
pub struct Stored {
    pub owned: Owned,
    pub version: u64,
    pub system: Option<System>,
}

impl<'a> Stamp<'a> {
    /// A version alone.
    pub fn plain(version: u64) -> Stamp<'a>
        ensures { stamp_of result ≡ plain_stamp version }
    {
        Stamp {
            version,
            system: None,
        }
    }

    /// Puts creation, generation and deletion, where the system says them.
    pub(crate) fn put_life(
        self,
        members: &mut Map<String, Value>,
        alloc: Global,
    ) -> Result<(), AllocError>
        ensures { OnOk result (members_view members.new.entries ≡ put_life (stamp_of self.entry).system (members_view members.old.entries)) }
    {
        let Some(system) = self.system else {
            return Ok(());
        };
        put_deletion(members, alloc, &system.deleted)?;
        serde_json::put(members, alloc, "generation", Value::from(system.generation))?;
        put_text(members, alloc, "creationTimestamp", system.created.as_str())
    }

    /// Puts the uid, where the system says one.
    pub(crate) fn put_uid(
        self,
        members: &mut Map<String, Value>,
        alloc: Global,
    ) -> Result<(), AllocError>
        ensures { OnOk result (members_view members.new.entries ≡ put_uid (stamp_of self.entry).system (members_view members.old.entries)) }
    {
        match self.system {
            Some(system) => put_text(members, alloc, "uid", system.uid.as_str()),
            None => Ok(()),
        }
    }
}

impl Stored {
    /// What the system says of the object.
    pub fn stamp(&self) -> Stamp<'_>
        ensures { stamp_of result ≡ stored_stamp self.now }
    {
        Stamp {
            version: self.version,
            system: self.system.as_ref(),
        }
    }
}

/// Puts the moment of deletion, if there is one: the object is left no time.
fn put_deletion(
    members: &mut Map<String, Value>,
    alloc: Global,
    deleted: &Option<String>,
) -> Result<(), AllocError>
    ensures { OnOk result (members_view members.new.entries ≡ put_deletion (option_map string_bytes deleted.now) (members_view members.old.entries)) }
{
    let Some(moment) = deleted else {
        return Ok(());
    };
    put_text(members, alloc, "deletionTimestamp", moment.as_str())?;
    serde_json::put(
        members,
        alloc,
        "deletionGracePeriodSeconds",
        Value::from(0u64),
    )
}
