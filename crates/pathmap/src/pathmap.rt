//! The map itself, as a trie over the texts of elements: how one begins, what it holds at the empty path, and its
//! children. The other calls on it stand in modules of their own.

ghost use Rattle.std.specs.Prelude.{◌≡◌, map, [], IfOk};
ghost use Rattle.std.specs.Option.{option_map};
ghost use Rattle.std.specs.FinMap as fin;
ghost use Rattle.pathmap.specs.Contents.{gather, here, nothing, over};
ghost use Rattle.pathmap.specs.Insides.{heads, inside};
ghost use Rattle.pathmap.specs.Levels.{AreChildren};
ghost use Rattle.pathmap.specs.Maps.{at_top, content, contents_in, leaf_value};

use crate::held::PathValue;
use fieldpath::ElemText;
use std::alloc::{AllocError, Global};
use std::marker::Model;

/// A finite map from paths to what stands there, as a trie over the texts of elements.
#[derive(Debug, Drop)]
pub struct PathMap {
    /// What stands at the empty path.
    pub(crate) held: Option<PathValue>,
    /// What stands below, by the text of the first element: the texts ascend, and each map has a path.
    pub(crate) below: Vec<(ElemText, PathMap)>,
}

impl Model for PathMap {
    ghost use Rattle.pathmap.specs.Contents.{Content, over, gather};
    ghost use Rattle.pathmap.specs.Codes.{coded_content};

    ghost Value = { Content };

    ghost coded = { coded_content };

    ghost use Rattle.pathmap.specs.Levels.{at_top, named, AreChildren, height};

    ghost view = { λ a. over (at_top a.held) (gather (named a.below.items)) };

    ghost invariant = { λ a. AreChildren (named a.below.items) };

    ghost size = { height };

    ghost use Rattle.std.specs.Prelude.{◌+◌};
    ghost use Rattle.pathmap.specs.Sizes.{lower, no_more};

    ghost size_decreases = { λ a h. lower (at_top a.held) a.below.items h.1 _ (λ m. no_more (height m.1 + 1)) };
}

impl PathMap {
    /// The map of no path.
    pub fn empty(alloc: Global) -> PathMap
        ensures { content result ≡ nothing }
    {
        PathMap {
            held: None,
            below: Vec::new(alloc),
        }
    }

    /// The map of no path, with room for so many children.
    pub fn with_room(alloc: Global, children: usize) -> Result<PathMap, AllocError>
        ensures { IfOk result (λ m. content m ≡ nothing) }
    {
        let mut map = PathMap::empty(alloc);
        map.below.reserve(children)?;
        Ok(map)
    }

    /// What stands at the empty path alone.
    pub fn leaf(alloc: Global, held: PathValue) -> PathMap
        ensures { content result ≡ here (leaf_value held) }
    {
        PathMap {
            held: Some(held),
            below: Vec::new(alloc),
        }
    }

    /// What stands at the empty path.
    pub fn held(&self) -> Option<&PathValue>
        ensures { option_map (λ h. leaf_value h.now) result ≡ fin.get (content self.now) [] }
    {
        self.held.as_ref()
    }

    /// What stands below each first element, in order.
    pub fn children(&self) -> &[(ElemText, PathMap)]
        ensures { contents_in result.now ≡ map (λ f. (f, inside f (content self.now))) (heads (content self.now)) }
    {
        &self.below
    }
}
