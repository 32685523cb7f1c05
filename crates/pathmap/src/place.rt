//! Where a name stands among children, and a child put there: a binary search, as their names ascend. What stands along
//! a whole path is found in `find`.

ghost use Rattle.std.specs.Prelude.{◌≡◌, ◌≤◌, ◌<◌, true, not, length, Some, None, is_some, if◌then◌else◌, string_bytes, IfOk, OnErr};
ghost use Rattle.std.specs.Ordering.{is_lt, nat_cmp};
ghost use Rattle.std.specs.Cmp.Lexicographic.{slice_cmp};
ghost use Rattle.std.specs.Str.{bytes_eq};
ghost use Rattle.pathmap.specs.Cuts.{index_from};
ghost use Rattle.pathmap.specs.Levels.{child_of, IsRising};
ghost use Rattle.pathmap.specs.Maps.{content, contents_in};
ghost use Rattle.pathmap.specs.Merged.{prefix_of};
ghost use Rattle.pathmap.specs.Puts.{put_in};

use crate::pathmap::PathMap;
use fieldpath::ElemText;
use std::alloc::AllocError;

/// Whether the name of a child is below this one.
pub(crate) fn is_before(child: &(ElemText, PathMap), name: &ElemText) -> bool
    ensures { result ≡ is_lt (slice_cmp nat_cmp (string_bytes child.now.0) (string_bytes name.now)) }
{
    child.0.as_str() < name.as_str()
}

/// Whether a child has this name.
pub(crate) fn is_named(child: &(ElemText, PathMap), name: &ElemText) -> bool
    ensures { result ≡ bytes_eq (string_bytes child.now.0) (string_bytes name.now) }
{
    child.0.as_str() == name.as_str()
}

/// How many have a name below this one. A name above all others needs no search.
pub(crate) fn place_of(below: &[(ElemText, PathMap)], name: &ElemText) -> usize
    ensures count { IsRising (contents_in below.now) → result ≡ length (prefix_of (string_bytes name.now) (contents_in below.now)) }
    ensures within { result ≤ length below.now }
{
    let count = below.len();
    if count == 0 {
        return 0;
    }
    if is_before(&below[count - 1], name) {
        return count;
    }
    below.partition_point(|child| is_before(child, name))
}

/// Whether the one at a place has this name.
pub(crate) fn is_at(below: &[(ElemText, PathMap)], place: usize, name: &ElemText) -> bool
    ensures within { result ≡ true → place < length below.now }
    ensures index { IsRising (contents_in below.now) → place ≡ length (prefix_of (string_bytes name.now) (contents_in below.now)) → index_from 0 (string_bytes name.now) (contents_in below.now) ≡ (if result then Some place else None) }
{
    if place >= below.len() {
        return false;
    }
    is_named(&below[place], name)
}

/// Puts a child in its place among children whose names rise, unless one has its name already, and says whether it was put.
pub(crate) fn put_child(
    children: &mut Vec<(ElemText, PathMap)>,
    name: ElemText,
    map: PathMap,
) -> Result<bool, AllocError>
    ensures added { IfOk result (λ added. IsRising (contents_in children.old.items) → added ≡ not (is_some (child_of (string_bytes name) (contents_in children.old.items)))) }
    ensures put { IfOk result (λ added. IsRising (contents_in children.old.items) → contents_in children.new.items ≡ (if added then put_in (string_bytes name) (content map) (contents_in children.old.items) else contents_in children.old.items)) }
    ensures err { OnErr result (contents_in children.new.items ≡ contents_in children.old.items) }
{
    let place = place_of(children, &name);
    if is_at(children, place, &name) {
        return Ok(false);
    }
    children.insert(place, (name, map))?;
    Ok(true)
}
