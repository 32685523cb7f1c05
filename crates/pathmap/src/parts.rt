//! The parts of a map by the first elements of its paths: those of one field, and all others. One child is found in
//! `fields`.

ghost use Rattle.std.specs.Prelude.{◌≡◌, ◌∷◌, [], IfOk, OnOk, string_bytes};
ghost use Rattle.pathmap.specs.Contents.{gather, over};
ghost use Rattle.pathmap.specs.Levels.{IsRising};
ghost use Rattle.pathmap.specs.Maps.{content, contents_in};
ghost use Rattle.pathmap.specs.Parted.{AreFree, children_in, children_outside, has, part_of, rest_of};

use crate::copying::copy_held;
use crate::fields::is_of_field;
use crate::pathmap::PathMap;
use fieldpath::ElemText;
use std::alloc::{AllocError, Global};

/// A part of a map, by the first elements of its paths. The empty path is in none.
#[derive(Clone, Copy)]
pub enum Part {
    /// What stands at and below a field.
    Field,
    /// What stands at and below the other elements.
    Others,
}

/// Whether a child is in the part by the field of this name.
fn is_in(child: &(ElemText, PathMap), name: &str, part: Part) -> bool
    ensures { result ≡ has part name.now (string_bytes child.now.0) }
{
    match part {
        Part::Field => is_of_field(child, name),
        Part::Others => !is_of_field(child, name),
    }
}

/// Keeps those in the part.
fn keep_part(below: &mut Vec<(ElemText, PathMap)>, name: &str, part: Part)
    ensures { contents_in below.new.items ≡ children_in part name.now (contents_in below.old.items) }
{
    below.retain(|child| is_in(child, name, part));
}

/// Puts a copy of a child into a map that has nothing there, unless the child is in the part.
fn put_outside(
    map: &mut PathMap,
    alloc: Global,
    child: &(ElemText, PathMap),
    name: &str,
    part: Part,
) -> Result<(), AllocError>
    ensures { OnOk result (AreFree part name.now (content map.old) (contents_in (child.now ∷ [])) → content map.new ≡ over (content map.old) (gather (children_outside part name.now (contents_in (child.now ∷ []))))) }
{
    if is_in(child, name, part) {
        return Ok(());
    }
    let copy = child.1.try_copy(alloc)?;
    map.insert_child(child.0.try_copy()?, copy)?;
    Ok(())
}

/// Puts copies of those outside of the part into a map that has nothing there.
fn put_all_outside(
    map: &mut PathMap,
    alloc: Global,
    children: &[(ElemText, PathMap)],
    name: &str,
    part: Part,
) -> Result<(), AllocError>
    ensures { OnOk result (IsRising (contents_in children.now) → AreFree part name.now (content map.old) (contents_in children.now)
        → content map.new ≡ over (content map.old) (gather (children_outside part name.now (contents_in children.now)))) }
{
    for child in children {
        put_outside(map, alloc, child, name, part)?;
    }
    Ok(())
}

impl PathMap {
    /// What stands in the part alone.
    pub fn part(self, name: &str, part: Part) -> PathMap
        ensures { content result ≡ part_of part name.now (content self) }
    {
        let PathMap { held: _, below } = self;
        let mut below = below;
        keep_part(&mut below, name, part);
        PathMap { held: None, below }
    }

    /// What stands in the part, beside what the other map has outside of it: nothing else is copied.
    pub fn part_beside(
        self,
        alloc: Global,
        name: &str,
        part: Part,
        other: &PathMap,
    ) -> Result<PathMap, AllocError>
        ensures { IfOk result (λ m. content m ≡ over (part_of part name.now (content self)) (rest_of part name.now (content other.now))) }
    {
        let mut map = self.part(name, part);
        put_all_outside(&mut map, alloc, &other.below, name, part)?;
        map.held = copy_held(&other.held)?;
        Ok(map)
    }
}
