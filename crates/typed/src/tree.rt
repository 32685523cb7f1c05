//! Contents of objects, and the calls on them. They are read in `read`, printed in `print` and written in `write`.

ghost use Rattle.std.specs.Prelude.{◌≡◌, true, false, IfOk, OnOk, option_and_then, option_map};
ghost use Rattle.fieldpath.specs.Elements.{name_text};
ghost use Rattle.pathmap.specs.Insides.{inside};
ghost use Rattle.serde_json.specs.View.{view};
ghost use Rattle.json.specs.Value.{value_view};
ghost use Rattle.json_texts.specs.InOrder.{data_of, is_ordered};
ghost use Rattle.json_texts.specs.Writing.{AppendsMembers};
ghost use Rattle.schema.specs.Lawful.{is_well_formed};
ghost use Rattle.schema.specs.Shape.{fields_in, shape, shape_at, struct_of};
ghost use Rattle.typed.specs.Fitting.{IsContent};
ghost use Rattle.typed.specs.Between.{fields_between, then_fields};
ghost use Rattle.typed.specs.Printing.{print};
ghost use Rattle.pathmap.specs.Contents.{nothing, over};
ghost use Rattle.pathmap.specs.Maps.{content};
ghost use Rattle.pathmap.specs.Parted.{part_of, rest_of};
ghost use Rattle.typed.specs.Faults.{Returns};
ghost use Rattle.typed.specs.Reading.{content_of};
ghost use Rattle.typed.specs.Without.{omitted_of, without};

use crate::borrowed::read_borrowed;
use crate::fault::ReadFault;
use crate::omitted::Omitted;
use crate::print::{print_field, print_map};
use crate::read::read_map;
use crate::without::read_without;
use crate::write::write_fields;
use json_texts::TextWriter;
use pathmap::{Part, PathMap, put_under};
use schema::Schema;
use serde_json::Value;
use std::alloc::{AllocError, Global};
use std::marker::Model;

/// The content of an object: a finite map from paths to what stands there.
#[derive(Drop)]
pub struct Tree {
    map: PathMap,
}

impl Model for Tree {
    ghost use Rattle.pathmap.specs.Contents.{Content};
    ghost use Rattle.pathmap.specs.Codes.{coded_content};
    ghost use Rattle.pathmap.specs.Maps.{content};

    ghost Value = { Content };

    ghost coded = { coded_content };

    ghost view = { λ t. content t.map };
}

impl Tree {
    /// The content of a value under a schema, or the first fault in its shape: depth first, members in byte order, items
    /// by their place. A null member is absent, and so are an empty object and an empty list.
    pub fn read(schema: &Schema, alloc: Global, value: &Value) -> Result<Tree, ReadFault>
        ensures { Returns (λ t. t) result (content_of (shape schema.now) (view value.now)) }
    {
        Ok(Tree {
            map: read_map(schema, alloc, value)?,
        })
    }

    /// The content of a value that borrows its text, as `read` gives it of the same value with texts of its own.
    pub fn read_borrowed(
        schema: &Schema,
        alloc: Global,
        value: &json::Value<'_>,
    ) -> Result<Tree, ReadFault>
        requires { is_ordered (value_view value.now) ≡ true }
        ensures { Returns (λ t. t) result (content_of (shape schema.now) (data_of (value_view value.now))) }
    {
        Ok(Tree {
            map: read_borrowed(schema, alloc, value)?,
        })
    }

    /// The content of a value without what is left out of it, or the first fault in the shape of the rest.
    pub fn read_without(
        schema: &Schema,
        alloc: Global,
        value: &Value,
        omitted: Omitted<'_>,
    ) -> Result<Tree, ReadFault>
        ensures { Returns (λ t. t) result (content_of (shape schema.now) (without (omitted_of omitted.entry) (view value.now))) }
    {
        Ok(Tree {
            map: read_without(schema, alloc, value, omitted)?,
        })
    }

    /// The content without a path.
    pub fn empty(alloc: Global) -> Tree
        ensures { result ≡ nothing }
    {
        Tree {
            map: PathMap::empty(alloc),
        }
    }

    /// The content of a map.
    pub fn of(map: PathMap) -> Tree
        ensures { result ≡ content map }
    {
        Tree { map }
    }

    /// The map that holds it.
    pub fn map(&self) -> &PathMap
        ensures { content result.now ≡ self.now }
    {
        &self.map
    }

    /// The map that held it.
    pub fn into_map(self) -> PathMap
        ensures { content result ≡ self }
    {
        self.map
    }

    /// This content overridden by the other.
    pub fn merge(&self, alloc: Global, other: &Tree) -> Result<Tree, AllocError>
        ensures { IfOk result (λ t. t ≡ over other.now self.now) }
    {
        Ok(Tree {
            map: put_under(&self.map, alloc, other.map.try_copy(alloc)?)?,
        })
    }

    /// This content laid over another: what the other has where this has nothing is copied, and nothing else.
    pub fn laid_over(self, alloc: Global, other: &Tree) -> Result<Tree, AllocError>
        ensures { IfOk result (λ t. t ≡ over self other.now) }
    {
        Ok(Tree {
            map: put_under(&other.map, alloc, self.map)?,
        })
    }

    /// What stands in a part of it, by the field of this name; nothing is copied.
    pub fn part(self, name: &str, part: Part) -> Tree
        ensures { result ≡ part_of part name.now self }
    {
        Tree {
            map: self.map.part(name, part),
        }
    }

    /// What stands in a part of it, beside what the other has outside of that part; nothing else is copied.
    pub fn part_beside(
        self,
        alloc: Global,
        name: &str,
        part: Part,
        other: &Tree,
    ) -> Result<Tree, AllocError>
        ensures { IfOk result (λ t. t ≡ over (part_of part name.now self) (rest_of part name.now other.now)) }
    {
        Ok(Tree {
            map: self.map.part_beside(alloc, name, part, &other.map)?,
        })
    }

    /// A copy with texts of its own.
    pub fn try_copy(&self, alloc: Global) -> Result<Tree, AllocError>
        ensures { IfOk result (λ t. t ≡ self.now) }
    {
        Ok(Tree {
            map: self.map.try_copy(alloc)?,
        })
    }

    /// The value that the content is printed as under a schema, if anything stands in it.
    pub fn to_value(&self, alloc: Global, schema: &Schema) -> Result<Option<Value>, AllocError>
        ensures { IfOk result (λ o. option_map view o ≡ print (shape schema.now) self.now) }
    {
        print_map(schema, alloc, &self.map)
    }

    /// The value that a field is printed as, if the fields have one of the name and anything stands in it.
    pub fn field_value(
        &self,
        alloc: Global,
        fields: &[(String, Schema)],
        name: &str,
    ) -> Result<Option<Value>, AllocError>
        ensures { IfOk result (λ o. option_map view o ≡ option_and_then (λ s. print s (inside (name_text name.now) self.now)) (shape_at name.now (fields_in fields.now))) }
    {
        print_field(fields, alloc, name, &self.map)
    }

    /// Appends a member for each field in which something stands, of those whose names lie above the one and below the
    /// other, where there are such: with neither, all members that the content is printed with under a struct of these
    /// fields.
    pub fn write_between(
        &self,
        out: &mut TextWriter,
        alloc: Global,
        fields: &[(String, Schema)],
        low: Option<&str>,
        high: Option<&str>,
    ) -> Result<(), AllocError>
        ensures { is_well_formed (struct_of (fields_in fields.now) false) ≡ true → IsContent (struct_of (fields_in fields.now) false) self.now
            → OnOk result (AppendsMembers (then_fields (fields_between (option_map (λ b. b.now) low.entry) (option_map (λ b. b.now) high.entry) (fields_in fields.now)) self.now) out.old out.new) }
    {
        write_fields(fields, alloc, low, high, &self.map, out)
    }
}
