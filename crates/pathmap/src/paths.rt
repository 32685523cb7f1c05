//! Lists the paths of a map in order; what stands at one of them is found in `find`.

ghost use Rattle.std.specs.Prelude.{◌≡◌, [], ◌∷◌, ◌++◌, map, is_some, if◌then◌else◌, IfOk, OnOk};
ghost use Rattle.pathmap.specs.Contents.{dom, gather, in_order};
ghost use Rattle.pathmap.specs.Levels.{IsRising};
ghost use Rattle.pathmap.specs.Maps.{content, contents_in};

use crate::held::PathValue;
use crate::pathmap::PathMap;
use fieldpath::{ElemText, Path};
use std::alloc::{AllocError, Global};

fn list_held(
    held: &Option<PathValue>,
    alloc: Global,
    prefix: &Path,
    all: &mut Vec<Path>,
) -> Result<(), AllocError>
    ensures { OnOk result (all.new.items ≡ all.old.items ++ (if is_some held.now then prefix.now ∷ [] else [])) }
{
    if held.is_some() {
        all.push(prefix.try_copy(alloc)?)?;
    }
    Ok(())
}

#[cycle(list)]
fn list_below(
    below: &[(ElemText, PathMap)],
    alloc: Global,
    prefix: &Path,
    all: &mut Vec<Path>,
) -> Result<(), AllocError>
    ensures { OnOk result (IsRising (contents_in below.now) → all.new.items ≡ all.old.items ++ map (λ q. prefix.now ++ q) (in_order (dom (gather (contents_in below.now))))) }
{
    for (name, inner) in below {
        let mut path = prefix.try_copy(alloc)?;
        path.push(alloc, name)?;
        list(inner, alloc, &path, all)?;
    }
    Ok(())
}

/// Each path of the map, with the prefix before it.
#[cycle(list)]
fn list(
    below: &PathMap,
    alloc: Global,
    prefix: &Path,
    all: &mut Vec<Path>,
) -> Result<(), AllocError>
    ensures { OnOk result (all.new.items ≡ all.old.items ++ map (λ q. prefix.now ++ q) (in_order (dom (content below.now)))) }
{
    list_held(&below.held, alloc, prefix, all)?;
    list_below(&below.below, alloc, prefix, all)
}

impl PathMap {
    /// Its paths, in order.
    pub fn paths(&self, alloc: Global) -> Result<Vec<Path>, AllocError>
        ensures { IfOk result (λ v. v.items ≡ in_order (dom (content self.now))) }
    {
        let mut all = Vec::new(alloc);
        list(self, alloc, &Path::new(alloc), &mut all)?;
        Ok(all)
    }
}
