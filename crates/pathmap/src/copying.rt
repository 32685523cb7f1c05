//! Copies of a whole map; parts of a map are copied in `pick` and `without`.

ghost use Rattle.std.specs.Prelude.{◌≡◌, ◌++◌, ◌∷◌, [], IfOk, OnOk, string_bytes};
ghost use Rattle.pathmap.specs.Maps.{at_top, content, contents_in};

use crate::held::PathValue;
use crate::pathmap::PathMap;
use fieldpath::ElemText;
use std::alloc::{AllocError, Global};

pub(crate) fn copy_held(held: &Option<PathValue>) -> Result<Option<PathValue>, AllocError>
    ensures { IfOk result (λ h. at_top h ≡ at_top held.now) }
{
    match held {
        Some(held) => Ok(Some(held.try_copy()?)),
        None => Ok(None),
    }
}

/// Puts a map behind the others, under a copy of the name.
pub(crate) fn push_made(
    all: &mut Vec<(ElemText, PathMap)>,
    name: &ElemText,
    made: PathMap,
) -> Result<(), AllocError>
    ensures { OnOk result (contents_in all.new.items ≡ contents_in all.old.items ++ (string_bytes name.now, content made) ∷ []) }
{
    all.push((name.try_copy()?, made))?;
    Ok(())
}

/// Puts copies behind the others.
#[cycle(copies)]
pub(crate) fn push_copies(
    below: &[(ElemText, PathMap)],
    alloc: Global,
    all: &mut Vec<(ElemText, PathMap)>,
) -> Result<(), AllocError>
    ensures { OnOk result (contents_in all.new.items ≡ contents_in all.old.items ++ contents_in below.now) }
{
    for (name, inner) in below {
        let made = inner.try_copy(alloc)?;
        push_made(all, name, made)?;
    }
    Ok(())
}

impl PathMap {
    /// A copy with texts of its own.
    #[cycle(copies)]
    pub fn try_copy(&self, alloc: Global) -> Result<PathMap, AllocError>
        ensures { IfOk result (λ n. content n ≡ content self.now) }
    {
        let held = copy_held(&self.held)?;
        let mut below = Vec::with_capacity(alloc, self.below.len())?;
        push_copies(&self.below, alloc, &mut below)?;
        Ok(PathMap { held, below })
    }
}
