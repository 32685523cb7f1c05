//! One map put under another: it gives what the other lacks. Paths of one map are picked in `pick`.

ghost use Rattle.std.specs.Prelude.{◌≡◌, ◌++◌, ◌∷◌, [], IfOk, OnOk, string_bytes};
ghost use Rattle.pathmap.specs.Contents.{over};
ghost use Rattle.pathmap.specs.Maps.{at_top, content, contents_in, either_top};
ghost use Rattle.pathmap.specs.Merged.{join_on, left_of, merged};

use crate::copying::{copy_held, push_copies};
use crate::held::PathValue;
use crate::pathmap::PathMap;
use crate::walk::{pass, split_named};
use fieldpath::ElemText;
use std::alloc::{AllocError, Global};

fn fill_held(
    mine: Option<PathValue>,
    theirs: &Option<PathValue>,
) -> Result<Option<PathValue>, AllocError>
    ensures { IfOk result (λ h. at_top h ≡ either_top mine theirs.now) }
{
    match mine {
        Some(held) => Ok(Some(held)),
        None => copy_held(theirs),
    }
}

/// Fills a map from the one at the front, if that has its name, and gives the others.
#[cycle(fill)]
fn fill_one<'a>(
    mine: PathMap,
    name: ElemText,
    alloc: Global,
    rest: &'a [(ElemText, PathMap)],
    all: &mut Vec<(ElemText, PathMap)>,
) -> Result<&'a [(ElemText, PathMap)], AllocError>
    ensures put { OnOk result (contents_in all.new.items ≡ contents_in all.old.items ++ (string_bytes name, join_on over (string_bytes name) (content mine) (contents_in rest.now)) ∷ []) }
    ensures left { IfOk result (λ r. contents_in r.now ≡ left_of (string_bytes name) (contents_in rest.now)) }
{
    let (map, left) = split_named(rest, &name);
    let made = match map {
        Some(theirs) => fill(mine, alloc, theirs)?,
        None => mine,
    };
    all.push((name, made))?;
    Ok(left)
}

/// Both in order, walked side by side.
#[cycle(fill)]
fn fill_below(
    mine: Vec<(ElemText, PathMap)>,
    alloc: Global,
    theirs: &[(ElemText, PathMap)],
) -> Result<Vec<(ElemText, PathMap)>, AllocError>
    ensures { IfOk result (λ v. contents_in v.items ≡ merged over (contents_in mine.items) (contents_in theirs.now)) }
{
    let mut all = Vec::with_capacity(alloc, mine.len())?;
    let mut rest = theirs;
    for (name, inner) in mine {
        rest = pass(rest, alloc, &name, &mut all)?;
        rest = fill_one(inner, name, alloc, rest, &mut all)?;
    }
    push_copies(rest, alloc, &mut all)?;
    Ok(all)
}

/// `put_under` with `mine` in front: the recursion goes down the first argument, and so it is proved to end.
#[cycle(fill)]
fn fill(mine: PathMap, alloc: Global, theirs: &PathMap) -> Result<PathMap, AllocError>
    ensures { IfOk result (λ n. content n ≡ over (content mine) (content theirs.now)) }
{
    let PathMap { held, below } = mine;
    let held = fill_held(held, &theirs.held)?;
    let below = fill_below(below, alloc, &theirs.below)?;
    Ok(PathMap { held, below })
}

/// What `theirs` holds, overridden by what `mine` holds: nothing that both have is copied.
pub fn put_under(theirs: &PathMap, alloc: Global, mine: PathMap) -> Result<PathMap, AllocError>
    ensures { IfOk result (λ n. content n ≡ over (content mine) (content theirs.now)) }
{
    fill(mine, alloc, theirs)
}
