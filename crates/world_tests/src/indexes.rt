//! An index by a label.

ghost use Rattle.std.specs.Prelude.{◌≡◌, IfOk, map, string_bytes};
ghost use Rattle.indexer.specs.Objects.{labels_of, stored_of};
ghost use Rattle.world_tests.specs.LabelKeys.{one_or_none, label_keys};
ghost use Rattle.std.specs.Cmp.Lexicographic.{slice_cmp};
ghost use Rattle.std.specs.FinMap.Entries.{find};
ghost use Rattle.std.specs.Ordering.{nat_cmp};
ghost use Rattle.std.specs.Prelude.{option_map};

use indexer::{IndexBy, Object};
use std::alloc::{AllocError, Global};
use std::collections::BTreeMap;

/// By the value of a label; an object without the label has no key.
#[derive(Drop)]
pub struct ByLabel {
    pub label: String,
}

impl IndexBy for ByLabel {
    ghost use Rattle.std.specs.Prelude.{string_bytes};
    ghost use Rattle.world_tests.specs.LabelKeys.{label_keys};

    ghost title = { λ b. string_bytes b.label };

    ghost keys = { λ b o. label_keys (string_bytes b.label) o };

    fn name(&self) -> &str {
        self.label.as_str()
    }

    fn keys_of(&self, alloc: Global, object: &Object) -> Result<Vec<String>, AllocError> {
        one_or_none(alloc, value_of(&object.labels, self.label.as_str()))
    }
}

fn value_of<'a>(labels: &'a BTreeMap<String, String>, label: &str) -> Option<&'a str>
    ensures { option_map (λ v. v.now) result ≡ find (slice_cmp nat_cmp) label.now (labels_of labels.now) }
{
    match labels.get(label) {
        Some(value) => Some(value.as_str()),
        None => None,
    }
}

fn one_or_none(alloc: Global, value: Option<&str>) -> Result<Vec<String>, AllocError>
    ensures { IfOk result (λ v. map string_bytes v.items ≡ one_or_none (option_map (λ b. b.now) value.entry)) }
{
    match value {
        Some(value) => Ok(vec![in alloc; String::from_str(alloc, value)?]?),
        None => Ok(Vec::new(alloc)),
    }
}
