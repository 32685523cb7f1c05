//! Puts one more path, or all paths of a map below an element. Two maps are put together in `under`.

ghost use Rattle.std.specs.Prelude.{◌≡◌, map, not, if◌then◌else◌, IfOk, OnOk, OnErr, string_bytes};
ghost use Rattle.std.specs.FinMap as fin;
ghost use Rattle.pathmap.specs.Contents.{here, mark, over, under};
ghost use Rattle.pathmap.specs.Insides.{inside};
ghost use Rattle.pathmap.specs.Levels.{child_of, has_path, IsRising};
ghost use Rattle.pathmap.specs.Maps.{content, content_or_nothing, contents_in, leaf_value};
ghost use Rattle.pathmap.specs.Puts.{put_in};

use crate::held::PathValue;
use crate::pathmap::PathMap;
use crate::place::{is_at, place_of, put_child};
use fieldpath::{ElemText, Path};
use std::alloc::{AllocError, Global};

#[cycle(insert)]
fn insert_below(
    below: &mut Vec<(ElemText, PathMap)>,
    alloc: Global,
    name: &ElemText,
    rest: &[ElemText],
    held: PathValue,
) -> Result<(), AllocError>
    ensures ok { OnOk result (IsRising (contents_in below.old.items) → contents_in below.new.items ≡ put_in (string_bytes name.now) (fin.insert (content_or_nothing (child_of (string_bytes name.now) (contents_in below.old.items))) (map string_bytes rest.now) (leaf_value held)) (contents_in below.old.items)) }
    ensures err { OnErr result (contents_in below.new.items ≡ contents_in below.old.items) }
{
    let place = place_of(below, name);
    if is_at(below, place, name) {
        return insert_at(&mut below[place].1, alloc, rest, held);
    }
    let mut made = PathMap::empty(alloc);
    insert_at(&mut made, alloc, rest, held)?;
    below.insert(place, (name.try_copy()?, made))?;
    Ok(())
}

#[cycle(insert)]
fn insert_at(
    here: &mut PathMap,
    alloc: Global,
    texts: &[ElemText],
    held: PathValue,
) -> Result<(), AllocError>
    ensures ok { OnOk result (content here.new ≡ fin.insert (content here.old) (map string_bytes texts.now) (leaf_value held)) }
    ensures err { OnErr result (content here.new ≡ content here.old) }
{
    let Some((name, rest)) = texts.split_first() else {
        here.held = Some(held);
        return Ok(());
    };
    insert_below(&mut here.below, alloc, name, rest, held)
}

impl PathMap {
    /// Puts something at a path. A refused insert changes no content.
    pub fn insert(&mut self, alloc: Global, path: &Path, held: PathValue) -> Result<(), AllocError>
        ensures ok { OnOk result (content self.new ≡ fin.insert (content self.old) path.now (leaf_value held)) }
        ensures err { OnErr result (content self.new ≡ content self.old) }
    {
        insert_at(self, alloc, path.texts(), held)
    }

    /// Whether something stands below an element.
    fn has_child(&self, name: &ElemText) -> bool
        ensures { result ≡ has_path (inside (string_bytes name.now) (content self.now)) }
    {
        self.child(name).is_some()
    }

    /// Puts what a map holds below an element, unless something stands there already, and says whether it was put.
    /// A refused allocation changes no content.
    pub fn insert_child(&mut self, name: ElemText, map: PathMap) -> Result<bool, AllocError>
        ensures added { IfOk result (λ added. added ≡ not (has_path (inside (string_bytes name) (content self.old)))) }
        ensures put { IfOk result (λ added. content self.new ≡ (if added then over (content self.old) (under (string_bytes name) (content map)) else content self.old)) }
        ensures err { OnErr result (content self.new ≡ content self.old) }
    {
        if map.is_bare() {
            return Ok(!self.has_child(&name));
        }
        put_child(&mut self.below, name, map)
    }

    /// Puts a mark at the empty path.
    pub fn mark(&mut self)
        ensures { content self.new ≡ over (here mark) (content self.old) }
    {
        self.held = Some(PathValue::Mark);
    }
}
