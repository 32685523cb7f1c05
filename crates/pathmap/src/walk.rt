//! Steps over children in order, beside a name, for walks over two maps (`under`, `pick`). The binary search stands in
//! `place`.

ghost use Rattle.std.specs.Prelude.{◌≡◌, ◌++◌, ◌≤◌, length, IfOk, OnOk, string_bytes};
ghost use Rattle.std.specs.Option.{option_map};
ghost use Rattle.pathmap.specs.Levels.{IsRising};
ghost use Rattle.pathmap.specs.Maps.{content, contents_in};
ghost use Rattle.pathmap.specs.Merged.{back_of, first_of, prefix_of, left_of};

use crate::copying::push_copies;
use crate::pathmap::PathMap;
use crate::place::{is_before, is_named, place_of};
use fieldpath::ElemText;
use std::alloc::{AllocError, Global};

/// How many at the front have a name below this one.
pub(crate) fn count_before(entries: &[(ElemText, PathMap)], name: &ElemText) -> usize
    ensures count { result ≡ length (prefix_of (string_bytes name.now) (contents_in entries.now)) }
    ensures within { result ≤ length entries.now }
{
    let mut count = 0;
    for (known, _) in entries {
        if known.as_str() < name.as_str() {
            count += 1;
        } else {
            return count;
        }
    }
    count
}

/// Copies those with a name below this one, and gives the others.
pub(crate) fn pass<'a>(
    rest: &'a [(ElemText, PathMap)],
    alloc: Global,
    name: &ElemText,
    all: &mut Vec<(ElemText, PathMap)>,
) -> Result<&'a [(ElemText, PathMap)], AllocError>
    ensures passed { OnOk result (contents_in all.new.items ≡ contents_in all.old.items ++ prefix_of (string_bytes name.now) (contents_in rest.now)) }
    ensures left { IfOk result (λ r. contents_in r.now ≡ back_of (string_bytes name.now) (contents_in rest.now)) }
{
    let count = count_before(rest, name);
    push_copies(&rest[..count], alloc, all)?;
    Ok(&rest[count..])
}

/// Those from a name on, among children whose names rise. Mostly these are all, so the one in front is looked at first.
pub(crate) fn skip<'a>(
    rest: &'a [(ElemText, PathMap)],
    name: &ElemText,
) -> &'a [(ElemText, PathMap)]
    ensures { IsRising (contents_in rest.now) → contents_in result.now ≡ back_of (string_bytes name.now) (contents_in rest.now) }
{
    let Some((first, _)) = rest.split_first() else {
        return rest;
    };
    if is_before(first, name) {
        return &rest[place_of(rest, name)..];
    }
    rest
}

/// The map in front, if it has this name, and the others.
pub(crate) fn split_named<'a>(
    rest: &'a [(ElemText, PathMap)],
    name: &ElemText,
) -> (Option<&'a PathMap>, &'a [(ElemText, PathMap)])
    ensures first { option_map (λ m. content m.now) result.0 ≡ first_of (string_bytes name.now) (contents_in rest.now) }
    ensures others { contents_in result.1.now ≡ left_of (string_bytes name.now) (contents_in rest.now) }
{
    if let Some((first, left)) = rest.split_first() {
        if is_named(first, name) {
            return (Some(&first.1), left);
        }
    }
    (None, rest)
}
