//! Which subresources the objects of a type have. The type itself stands in `served`.
ghost use Rattle.std.specs.Prelude.{◌≡◌};
ghost use Rattle.api_types.specs.ServedViews.{served};
ghost use Rattle.api_types.specs.Subresources.{has_status, is_apart};

use crate::served::Served;
use schema::{Schema, field_at};

impl Served {
    /// Whether objects have a status: the schema has that property.
    pub fn has_status(&self) -> bool
        ensures { result ≡ has_status (served self.now) }
    {
        match &self.schema {
            Schema::Struct(fields, _) => field_at(fields, "status").is_some(),
            _ => false,
        }
    }

    /// Whether a field of that name is written by the subresource `status` alone; else it is a field as others.
    pub fn is_apart(&self) -> bool
        ensures { result ≡ is_apart (served self.now) }
    {
        true
    }
}
