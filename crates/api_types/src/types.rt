//! The types that a server knows, looked up by number and by name. Reading a types file stands in `file`.
ghost use Rattle.std.specs.Prelude.{◌≡◌, ◌≤◌, true, map, vec_len};
ghost use Rattle.api_types.specs.Named.{are_named};
ghost use Rattle.api_types.specs.ServedViews.{served};
ghost use Rattle.std.specs.List.{list_all};
ghost use Rattle.schema.specs.ObjectTest.{is_object_shape};
ghost use Rattle.schema.specs.Shape.{shape};

use crate::discovered::are_discovered;
use crate::fault::TypesFault;
use crate::file::{listed, read_types};
use crate::profile::Profile;
use crate::served::{Served, names_differ};
use serde_json::Value;
use std::alloc::Global;

/// The types that are served, in the order of their types file. A type's place in it is its number, from 0.
#[derive(Debug, Drop)]
pub struct Types {
    all: Vec<Served>,
    ghost few: { vec_len all ≤ 4294967295 },
    ghost named: { are_named (map served all.items) ≡ true },
    ghost objects: { list_all (λ t. is_object_shape (shape t.schema)) all.items ≡ true },
}

impl Types {
    ghost use Rattle.std.specs.Prelude.{◌≡◌, ℕ, Some, true, slice_get, option_map, map, IfSome};
    ghost use Rattle.std.specs.List.{All};
    ghost use Rattle.serde_json.specs.View.{view};
    ghost use Rattle.api_types.specs.Discovered.{are_discovered, profile_of};
    ghost use Rattle.api_types.specs.Served.{served, types_view};
    ghost use Rattle.schema.specs.Lawful.{is_granular_struct, is_lawful};
    ghost use Rattle.schema.specs.ObjectShape.{IsObjectShape};
    ghost use Rattle.schema.specs.Shape.{shape};
    ghost use Rattle.api_types.specs.Views.{Returns};
    ghost use Rattle.api_types.specs.Named.{has_names};
    ghost use Rattle.api_types.specs.TypesFile.{ServedShape, declared_types, names_differ, type_number};

    /// Reads a types file: `{"types":[..]}`, each type an object with `group`, `version`, `kind`, `plural` and a `schema`.
    /// The types follow the profile.
    /// Refuses a file by its first fault: its own form and number of types, then type by type, and types with equal names last.
    pub fn read(alloc: Global, profile: Profile, value: &Value) -> Result<Types, TypesFault>
        ensures { Returns types_view result (declared_types profile (view value.now)) }
    {
        let values = listed(value)?;
        let all = read_types(alloc, profile, values)?;
        if !names_differ(&all) {
            return Err(TypesFault::SameNames);
        }
        Ok(Types { all })
    }

    /// All types, by their numbers.
    pub fn all(&self) -> &[Served]
        ensures { map served result.now ≡ types_view self.now }
    {
        &self.all
    }

    /// The number of the type with these names.
    pub fn find(&self, group: &str, version: &str, plural: &str) -> Option<u32>
        ensures { result ≡ type_number group.now version.now plural.now (types_view self.now) }
    {
        let mut number = 0;
        for served in &self.all {
            if served.is_named(group, version, plural) {
                return Some(number);
            }
            number += 1;
        }
        None
    }

    /// The type of this number. Its schema is a granular struct that keeps the rules of a types file,
    /// has the `metadata` of every type and no field `apiVersion` or `kind`.
    pub fn get(&self, number: u32) -> Option<&Served>
        ensures found { option_map (λ s. served s.now) result ≡ slice_get (types_view self.now) number }
        ensures lawful { IfSome result (λ s. is_lawful (shape s.now.schema) ≡ true) }
        ensures granular { IfSome result (λ s. is_granular_struct (shape s.now.schema) ≡ true) }
        ensures object { IfSome result (λ s. IsObjectShape (shape s.now.schema)) }
    {
        self.all.get(number as usize)
    }

    /// Whether documents tell clients of these types.
    pub fn are_discovered(&self) -> bool
        ensures { result ≡ are_discovered (types_view self.now) }
    {
        are_discovered(&self.all)
    }

    /// What they follow beside what their file declares.
    pub fn profile(&self) -> Profile
        ensures { result ≡ profile_of (types_view self.now) }
    {
        match self.all.first() {
            Some(served) => served.profile,
            None => Profile::Plain,
        }
    }

    /// Each type has lawful names, and no two have the same.
    pub fn types_are_named(&self)
        ensures lawful { All (λ t. has_names t ≡ true) (types_view self.now) }
        ensures apart { names_differ (types_view self.now) ≡ true }
        ensures numbered { (k : ℕ) (t : ServedShape) → slice_get (types_view self.now) k ≡ Some t → type_number t.group t.version t.plural (types_view self.now) ≡ Some k }
    {}

    /// Each type's schema is that of an object.
    pub fn types_are_of_objects(&self)
        ensures { All (λ t. IsObjectShape t.shape) (types_view self.now) }
    {}
}
