//! Counts by value, one more or one less. What a notice adds and takes away stands in `summary`.

ghost use Rattle.std.specs.Prelude.{◌≡◌, OnErr, OnOk, option_map};
ghost use Rattle.indexer.specs.Objects.{stored_of};
ghost use Rattle.summary.specs.Counts.{value_of};
ghost use Rattle.summary.specs.Steps.{with_one_less, with_one_more};
ghost use Rattle.summary.specs.Summary.{counts_in};

use indexer::Object;
use std::alloc::{AllocError, Global};
use std::collections::BTreeMap;

/// The value that an object has of the label.
pub(crate) fn value_of<'a>(object: &'a Object, label: &str) -> Option<&'a str>
    ensures { option_map (λ v. v.now) result ≡ value_of label.now (stored_of object.now) }
{
    match object.labels.get(label) {
        Some(value) => Some(value.as_str()),
        None => None,
    }
}

/// Counts one more object with this value. Refused memory changes nothing.
pub(crate) fn add_one(
    alloc: Global,
    counts: &mut BTreeMap<String, u64>,
    value: &str,
) -> Result<(), AllocError>
    ensures ok { OnOk result (counts_in counts.new ≡ with_one_more (counts_in counts.old) value.now) }
    ensures err { OnErr result (counts_in counts.new ≡ counts_in counts.old) }
{
    match counts.get_mut(value) {
        Some(count) => *count = count.saturating_add(1),
        None => {
            counts.insert(String::from_str(alloc, value)?, 1)?;
        }
    }
    Ok(())
}

/// Counts one less; a value that no object has is removed.
pub(crate) fn take_one(counts: &mut BTreeMap<String, u64>, value: &str)
    ensures { counts_in counts.new ≡ with_one_less (counts_in counts.old) value.now }
{
    let Some(count) = counts.get_mut(value) else {
        return;
    };
    *count = count.saturating_sub(1);
    if *count == 0 {
        counts.remove(value);
    }
}
