//! What stands at a path, and at or below it. All paths are listed in `paths`.

ghost use Rattle.std.specs.Prelude.{◌≡◌, ◌++◌, map, string_bytes, IfSome, IsTrue, ◌↔◌, true};
ghost use Rattle.std.specs.Option.{option_map};
ghost use Rattle.std.specs.FinMap as fin;
ghost use Rattle.fieldpath.specs.Paths.{PathTexts};
ghost use Rattle.pathmap.specs.Beside.{has_at_or_below};
ghost use Rattle.pathmap.specs.Contents.{dom, nothing};
ghost use Rattle.pathmap.specs.Insides.{inside};
ghost use Rattle.pathmap.specs.Levels.{child_of, has_path, IsRising};
ghost use Rattle.pathmap.specs.Maps.{content, content_or_nothing, contents_in, leaf_value};

use crate::held::PathValue;
use crate::pathmap::PathMap;
use crate::place::{is_at, place_of};
use fieldpath::{ElemText, Path};

/// The map that has this name.
pub(crate) fn named<'a>(below: &'a [(ElemText, PathMap)], name: &ElemText) -> Option<&'a PathMap>
    ensures { IsRising (contents_in below.now) → option_map (λ m. content m.now) result ≡ child_of (string_bytes name.now) (contents_in below.now) }
{
    let place = place_of(below, name);
    if is_at(below, place, name) {
        return Some(&below[place].1);
    }
    None
}

impl PathMap {
    /// Whether it has no path.
    pub fn is_bare(&self) -> bool
        ensures { IsTrue result ↔ (content self.now ≡ nothing) }
    {
        if self.held.is_some() {
            return false;
        }
        let below: &[(ElemText, PathMap)] = &self.below;
        below.len() == 0
    }

    /// What stands at a path.
    pub fn get(&self, path: &Path) -> Option<&PathValue>
        ensures { option_map (λ h. leaf_value h.now) result ≡ fin.get (content self.now) path.now }
    {
        match self.at(path.texts()) {
            Some(map) => map.held.as_ref(),
            None => None,
        }
    }

    /// Whether it has a path at or below this one.
    pub fn has_at_or_below(&self, path: &Path) -> bool
        ensures { result ≡ has_at_or_below (dom (content self.now)) path.now }
    {
        match self.at(path.texts()) {
            Some(map) => !map.is_bare(),
            None => false,
        }
    }

    /// What stands below an element, if anything does.
    pub fn child(&self, name: &ElemText) -> Option<&PathMap>
        ensures inside { content_or_nothing (option_map (λ m. m.now) result) ≡ inside (string_bytes name.now) (content self.now) }
        ensures full { IfSome result (λ m. has_path (content m.now) ≡ true) }
    {
        named(&self.below, name)
    }

    /// The map at a path, of its elements' texts.
    fn at(&self, texts: &[ElemText]) -> Option<&PathMap>
        ensures { (q : PathTexts) → fin.get (content_or_nothing (option_map (λ m. m.now) result)) q ≡ fin.get (content self.now) (map string_bytes texts.now ++ q) }
    {
        let mut here = self;
        for text in texts {
            let Some(inner) = here.child(text) else {
                return None;
            };
            here = inner;
        }
        Some(here)
    }
}
