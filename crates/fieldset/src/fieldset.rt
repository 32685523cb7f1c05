//! Finite sets of paths, and what each call makes of them. FieldsV1 is printed and read in `fields_v1`; values of one's own are
//! read in `values`.

ghost use Rattle.std.specs.Prelude.{◌≡◌, true, IfOk, OnOk, OnErr, IsTrue, ◌↔◌};
ghost use Rattle.std.specs.FinSet as set;
ghost use Rattle.pathmap.specs.Contents.{dom, in_order};
ghost use Rattle.pathmap.specs.Beside.{clear_of, has_at_or_below, is_within};
ghost use Rattle.pathmap.specs.Maps.{content};
ghost use Rattle.json.specs.Value.{value_view};
ghost use Rattle.json_texts.specs.InOrder.{data_of, is_ordered};
ghost use Rattle.json_texts.specs.Writing.{with_text};
ghost use Rattle.serde_json.specs.View.{view};
ghost use Rattle.serde_json.specs.Written.{compact_text};
ghost use Rattle.schema.specs.Shape.{shape};
ghost use Rattle.fieldset.specs.FieldsV1.{fields_v1_of, read_fields_v1};
ghost use Rattle.fieldset.specs.Views.{Returns};

use crate::fault::FieldsV1Fault;
use crate::{fields_v1, values};
use fieldpath::Path;
use json_texts::TextWriter;
use pathmap::{PathMap, PathValue, put_under};
use schema::Schema;
use serde_json::Value;
use std::alloc::{AllocError, Global};
use std::marker::Model;

/// A finite set of paths, as the trie that has something at each of them.
#[derive(Debug, Drop)]
pub struct FieldSet {
    map: PathMap,
}

impl Model for FieldSet {
    ghost use Rattle.std.specs.FinSet as set;
    ghost use Rattle.std.specs.Coded.{coded_ℕ, coded_list};
    ghost use Rattle.fieldpath.specs.Paths.{path_cmp};
    ghost use Rattle.pathmap.specs.Contents.{dom};
    ghost use Rattle.pathmap.specs.Maps.{content};

    ghost Value = { set.FinSet path_cmp };

    ghost coded = { set.code (coded_list (coded_list coded_ℕ)) };

    ghost view = { λ s. dom (content s.map) };
}

impl FieldSet {
    /// The set of no path.
    pub fn new(alloc: Global) -> FieldSet
        ensures { result ≡ set.empty }
    {
        FieldSet {
            map: PathMap::empty(alloc),
        }
    }

    /// The paths of a map.
    pub fn of(map: PathMap) -> FieldSet
        ensures { result ≡ dom (content map) }
    {
        FieldSet { map }
    }

    /// A map that has the same paths.
    pub fn map(&self) -> &PathMap
        ensures { dom (content result.now) ≡ self.now }
    {
        &self.map
    }

    /// Puts a path in. A refused insert changes nothing.
    pub fn insert(&mut self, alloc: Global, path: &Path) -> Result<(), AllocError>
        ensures ok { OnOk result (self.new ≡ set.insert self.old path.now) }
        ensures err { OnErr result (self.new ≡ self.old) }
    {
        self.map.insert(alloc, path, PathValue::Mark)
    }

    /// Whether it has the path.
    pub fn contains(&self, path: &Path) -> bool
        ensures { result ≡ set.contains self.now path.now }
    {
        self.map.get(path).is_some()
    }

    /// Whether it has a path at or below this one.
    pub fn has_at_or_below(&self, path: &Path) -> bool
        ensures { result ≡ has_at_or_below self.now path.now }
    {
        self.map.has_at_or_below(path)
    }

    /// A copy with texts of its own.
    pub fn try_copy(&self, alloc: Global) -> Result<FieldSet, AllocError>
        ensures { IfOk result (λ s. s ≡ self.now) }
    {
        Ok(FieldSet {
            map: self.map.try_copy(alloc)?,
        })
    }

    /// The paths of either: those that the other has alone are copied, and no others.
    pub fn union(self, alloc: Global, other: &FieldSet) -> Result<FieldSet, AllocError>
        ensures { IfOk result (λ s. s ≡ set.union self other.now) }
    {
        Ok(FieldSet {
            map: put_under(&other.map, alloc, self.map)?,
        })
    }

    /// The paths that the other set lacks.
    pub fn minus(&self, alloc: Global, other: &FieldSet) -> Result<FieldSet, AllocError>
        ensures { IfOk result (λ s. s ≡ set.difference self.now other.now) }
    {
        Ok(FieldSet {
            map: self.map.minus(alloc, &other.map)?,
        })
    }

    /// Whether the other set has all of its paths.
    pub fn is_within(&self, other: &FieldSet) -> bool
        ensures { result ≡ is_within self.now other.now }
    {
        self.map.is_within(&other.map)
    }

    /// The paths that the other set has too.
    pub fn common(&self, alloc: Global, other: &FieldSet) -> Result<FieldSet, AllocError>
        ensures { IfOk result (λ s. s ≡ set.intersection self.now other.now) }
    {
        Ok(FieldSet {
            map: self.map.common(alloc, &other.map)?,
        })
    }

    /// The paths at or below which the other set has none.
    pub fn clear_of(&self, alloc: Global, other: &FieldSet) -> Result<FieldSet, AllocError>
        ensures { IfOk result (λ s. s ≡ clear_of self.now other.now) }
    {
        Ok(FieldSet {
            map: self.map.clear_of(alloc, &other.map)?,
        })
    }

    /// Its paths, in order.
    pub fn paths(&self, alloc: Global) -> Result<Vec<Path>, AllocError>
        ensures { IfOk result (λ v. v.items ≡ in_order self.now) }
    {
        self.map.paths(alloc)
    }

    /// Its FieldsV1 value (Kubernetes API reference, ObjectMeta v1), of paths that have a place in the schema.
    pub fn to_fields_v1(&self, alloc: Global, schema: &Schema) -> Result<Value, AllocError>
        ensures { IfOk result (λ v. view v ≡ fields_v1_of (shape schema.now) self.now) }
    {
        Ok(Value::Object(fields_v1::members(&self.map, alloc, Some(schema))?))
    }

    /// Writes its FieldsV1 value: the text is that of `to_fields_v1` as compact JSON.
    pub fn write_fields_v1(
        &self,
        out: &mut TextWriter,
        alloc: Global,
        schema: &Schema,
    ) -> Result<(), AllocError>
        ensures { OnOk result (out.new ≡ with_text (compact_text (fields_v1_of (shape schema.now) self.now)) out.old) }
    {
        fields_v1::write_members(&self.map, alloc, Some(schema), out)
    }

    /// The set of paths whose FieldsV1 value this is, or the first fault (Kubernetes API reference, ObjectMeta v1).
    /// Faults are looked for depth first, members in byte order of their names; of a member first its name,
    /// then its place, then that its value is an object, then what this object has to be.
    pub fn from_fields_v1(
        alloc: Global,
        schema: &Schema,
        value: &Value,
    ) -> Result<FieldSet, FieldsV1Fault>
        ensures { Returns (λ s. s) result (read_fields_v1 (shape schema.now) (view value.now)) }
    {
        Ok(FieldSet {
            map: values::read_paths(alloc, schema, value)?,
        })
    }

    /// The same of a value that borrows its text, each object's names in order: `from_fields_v1` without a copy.
    pub fn from_borrowed(
        alloc: Global,
        schema: &Schema,
        value: &json::Value<'_>,
    ) -> Result<FieldSet, FieldsV1Fault>
        requires { is_ordered (value_view value.now) ≡ true }
        ensures { Returns (λ s. s) result (read_fields_v1 (shape schema.now) (data_of (value_view value.now))) }
    {
        Ok(FieldSet {
            map: fields_v1::read_paths(alloc, schema, value)?,
        })
    }

    /// Whether it has no path.
    pub fn is_empty(&self) -> bool
        ensures { IsTrue result ↔ (self.now ≡ set.empty) }
    {
        self.map.is_bare()
    }
}
