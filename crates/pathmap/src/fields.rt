//! What stands below a field, by its name alone: the element's text is never built. Names rise, so a binary search finds
//! it. What stands below any other element is found in `find`.

ghost use Rattle.std.specs.Prelude.{◌≡◌, ◌≤◌, ◌<◌, true, length, Some, None, if◌then◌else◌, string_bytes, IfSome};
ghost use Rattle.std.specs.Option.{option_map};
ghost use Rattle.std.specs.Ordering.{is_lt, nat_cmp};
ghost use Rattle.std.specs.Cmp.Lexicographic.{slice_cmp};
ghost use Rattle.std.specs.Str.{bytes_eq};
ghost use Rattle.fieldpath.specs.Elements.{name_text};
ghost use Rattle.pathmap.specs.Cuts.{index_from};
ghost use Rattle.pathmap.specs.Insides.{inside};
ghost use Rattle.pathmap.specs.Levels.{child_of, has_path, IsRising};
ghost use Rattle.pathmap.specs.Maps.{content, content_or_nothing, contents_in};
ghost use Rattle.pathmap.specs.Merged.{prefix_of};

use crate::pathmap::PathMap;
use fieldpath::{ElemText, FIELD_PREFIX};

/// Whether the name of a child is below the text of this field's element.
fn is_before_field(child: &(ElemText, PathMap), name: &str) -> bool
    ensures { result ≡ is_lt (slice_cmp nat_cmp (string_bytes child.now.0) (name_text name.now)) }
{
    match child.0.field_name() {
        Some(known) => known < name,
        None => child.0.as_str() < FIELD_PREFIX,
    }
}

/// Whether a child is that of this field.
pub(crate) fn is_of_field(child: &(ElemText, PathMap), name: &str) -> bool
    ensures { result ≡ bytes_eq (string_bytes child.now.0) (name_text name.now) }
{
    match child.0.field_name() {
        Some(known) => known == name,
        None => false,
    }
}

/// How many have a name below the text of this field's element.
fn place_of_field(below: &[(ElemText, PathMap)], name: &str) -> usize
    ensures count { IsRising (contents_in below.now) → result ≡ length (prefix_of (name_text name.now) (contents_in below.now)) }
    ensures within { result ≤ length below.now }
{
    below.partition_point(|child| is_before_field(child, name))
}

/// Whether the one at a place is that of this field.
fn field_is_at(below: &[(ElemText, PathMap)], place: usize, name: &str) -> bool
    ensures within { result ≡ true → place < length below.now }
    ensures index { IsRising (contents_in below.now) → place ≡ length (prefix_of (name_text name.now) (contents_in below.now)) → index_from 0 (name_text name.now) (contents_in below.now) ≡ (if result then Some place else None) }
{
    if place >= below.len() {
        return false;
    }
    is_of_field(&below[place], name)
}

/// The map that is that of this field.
fn field_named<'a>(below: &'a [(ElemText, PathMap)], name: &str) -> Option<&'a PathMap>
    ensures { IsRising (contents_in below.now) → option_map (λ m. content m.now) result ≡ child_of (name_text name.now) (contents_in below.now) }
{
    let place = place_of_field(below, name);
    if field_is_at(below, place, name) {
        return Some(&below[place].1);
    }
    None
}

impl PathMap {
    /// What stands below the field of this name, if anything does.
    pub fn field(&self, name: &str) -> Option<&PathMap>
        ensures inside { content_or_nothing (option_map (λ m. m.now) result) ≡ inside (name_text name.now) (content self.now) }
        ensures full { IfSome result (λ m. has_path (content m.now) ≡ true) }
    {
        field_named(&self.below, name)
    }
}
