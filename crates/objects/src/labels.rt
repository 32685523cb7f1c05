//! How many labels an object is printed with; their limit stands in `size` of the crate `api_validation`.
ghost use Rattle.std.specs.Prelude.{◌≡◌, true, codes, IfOk};
ghost use Rattle.schema.specs.Lawful.{is_lawful};
ghost use Rattle.schema.specs.Shape.{shape};
ghost use Rattle.serde_json.specs.View.{members_view};
ghost use Rattle.json_values.specs.Members.{members_at};
ghost use Rattle.typed.specs.Printing.{print};
ghost use Rattle.objects.specs.Labels.{size};
ghost use Rattle.objects.specs.ObjectText.{metadata_members};

use crate::object::{members_of, metadata_members};
use crate::owned::Owned;
use json_values::members_at;
use schema::Schema;
use serde_json::{Map, Value};
use std::alloc::{AllocError, Global};

/// How many labels stand in `metadata`.
pub(crate) fn count_labels(metadata: &Map<String, Value>) -> usize
    ensures { result ≡ size (members_at (codes "labels") (members_view metadata.now.entries)) }
{
    match members_at(metadata, "labels") {
        Some(labels) => labels.len(),
        None => 0,
    }
}

impl Owned {
    /// What is printed of `metadata`: labels and annotations.
    pub(crate) fn printed_metadata(
        &self,
        alloc: Global,
        schema: &Schema,
    ) -> Result<Map<String, Value>, AllocError>
        ensures { is_lawful (shape schema.now) ≡ true → IfOk result (λ m. members_view m.entries ≡ metadata_members (print (shape schema.now) self.now.tree)) }
    {
        match schema.granular_fields() {
            Some(fields) => {
                let printed = self.tree.field_value(alloc, fields, "metadata")?;
                Ok(members_of(alloc, printed))
            }
            None => {
                let value = self.tree.to_value(alloc, schema)?;
                metadata_members(alloc, &value)
            }
        }
    }
}
