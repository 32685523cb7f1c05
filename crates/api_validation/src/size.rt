//! The limits of an object that is stored: its labels and the bytes of its text. The limit of a body stands in the crate
//! `requests`.

ghost use Rattle.std.specs.Prelude.{◌≡◌, codes};
ghost use Rattle.serde_json.specs.Data.{Data};
ghost use Rattle.serde_json.specs.Written.{compact_text};
ghost use Rattle.api_validation.specs.Naming.{metadata_object};
ghost use Rattle.api_request.specs.Views.{Returns};
ghost use Rattle.api_validation.specs.Size.{count_if_there, size_validated};

use crate::naming::{require, require_at};
use api_request::CallError;
use std::alloc::Global;

/// The most labels of an object.
const MAX_LABELS: usize = 64;

/// The most bytes of an object's text.
const MAX_BYTES: usize = 1_048_576;

/// The limits of an object of so many labels and of this text.
pub fn validate_size(alloc: Global, labels: usize, text: &str) -> Result<(), CallError>
    ensures { (object : Data) → text.now ≡ compact_text object → labels ≡ count_if_there (metadata_object (codes "labels") object) → Returns (λ u. u) result (size_validated object) }
{
    require_at(
        alloc,
        labels <= MAX_LABELS,
        "metadata.labels",
        "more than 64",
    )?;
    require(alloc, text.len() <= MAX_BYTES, "object over 1048576 bytes")
}
