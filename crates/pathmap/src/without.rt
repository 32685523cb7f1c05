//! A map without the paths at or below those of a set; single paths are picked in `pick`.

ghost use Rattle.std.specs.Prelude.{◌≡◌, string_bytes};
ghost use Rattle.pathmap.specs.Beside.{without};
ghost use Rattle.pathmap.specs.Contents.{dom};
ghost use Rattle.pathmap.specs.Cuts.{cut_at, cut_each, full_in};
ghost use Rattle.pathmap.specs.Levels.{has_path, IsRising};
ghost use Rattle.pathmap.specs.Maps.{content, contents_in};

use crate::pathmap::PathMap;
use crate::place::{is_at, place_of};
use fieldpath::ElemText;

fn is_full(child: &(ElemText, PathMap)) -> bool
    ensures { result ≡ has_path (content child.now.1) }
{
    !child.1.is_bare()
}

/// Keeps those that have a path.
fn keep_full(below: &mut Vec<(ElemText, PathMap)>)
    ensures { contents_in below.new.items ≡ full_in (contents_in below.old.items) }
{
    below.retain(|child| is_full(child));
}

#[cycle(cut)]
fn cut_child(set: &PathMap, name: &ElemText, below: &mut Vec<(ElemText, PathMap)>)
    ensures { IsRising (contents_in below.old.items) → contents_in below.new.items ≡ cut_at (string_bytes name.now) (content set.now) (contents_in below.old.items) }
{
    let place = place_of(below, name);
    if is_at(below, place, name) {
        cut(set, &mut below[place].1);
    }
}

#[cycle(cut)]
fn cut_below(set: &[(ElemText, PathMap)], below: &mut Vec<(ElemText, PathMap)>)
    ensures { IsRising (contents_in below.old.items) → contents_in below.new.items ≡ cut_each (contents_in set.now) (contents_in below.old.items) }
{
    for (name, inner) in set {
        cut_child(inner, name, below);
    }
}

#[cycle(cut)]
fn cut(set: &PathMap, map: &mut PathMap)
    ensures { content map.new ≡ without (content map.old) (dom (content set.now)) }
{
    if set.held.is_some() {
        map.held = None;
        map.below.clear();
    } else {
        cut_below(&set.below, &mut map.below);
        keep_full(&mut map.below);
    }
}

impl PathMap {
    /// What is left without the paths at or below one of the set.
    pub fn without(self, set: &PathMap) -> PathMap
        ensures { content result ≡ without (content self) (dom (content set.now)) }
    {
        let mut map = self;
        cut(set, &mut map);
        map
    }
}
