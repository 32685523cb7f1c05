//! How a content differs from another: what was added, changed and removed, and whether anything was; and contents by sets
//! of their paths. Contents are read and printed in the crate `typed`.

ghost use Rattle.std.specs.Prelude.{◌≡◌, IfOk};
ghost use Rattle.std.specs.FinSet as set;
ghost use Rattle.pathmap.specs.Beside.{changed, is_unchanged, is_within, without};
ghost use Rattle.pathmap.specs.Contents.{dom};
ghost use Rattle.pathmap.specs.Maps.{content};

use fieldset::FieldSet;
use std::alloc::{AllocError, Global};
use typed::Tree;

/// How one content differs from another that it came from.
#[derive(Drop)]
pub struct Changes {
    /// Paths that the other content lacks.
    pub added: FieldSet,
    /// Paths of both whose values differ.
    pub modified: FieldSet,
    /// Paths of the other content alone.
    pub removed: FieldSet,
}

/// The paths of a content that have a value.
pub fn paths_in(tree: &Tree, alloc: Global) -> Result<FieldSet, AllocError>
    ensures { IfOk result (λ s. s ≡ dom tree.now) }
{
    Ok(FieldSet::of(tree.map().marks(alloc)?))
}

/// Those of these paths that the content lacks.
pub fn lacking(tree: &Tree, alloc: Global, paths: &FieldSet) -> Result<FieldSet, AllocError>
    ensures { IfOk result (λ s. s ≡ set.difference paths.now (dom tree.now)) }
{
    Ok(FieldSet::of(paths.map().minus(alloc, tree.map())?))
}

/// Whether the content has all of these paths.
pub fn has_all(tree: &Tree, paths: &FieldSet) -> bool
    ensures { result ≡ is_within paths.now (dom tree.now) }
{
    paths.map().is_within(tree.map())
}

/// The paths of a content that the other lacks or has another value at.
pub fn changed_from(tree: &Tree, alloc: Global, other: &Tree) -> Result<FieldSet, AllocError>
    ensures { IfOk result (λ s. s ≡ changed tree.now other.now) }
{
    Ok(FieldSet::of(tree.map().changed(alloc, other.map())?))
}

/// Whether the other content has the same value at each path of this one.
pub fn is_unchanged_from(tree: &Tree, other: &Tree) -> bool
    ensures { result ≡ is_unchanged tree.now other.now }
{
    tree.map().is_unchanged_from(other.map())
}

/// The paths that the other content lacks.
fn added_to(tree: &Tree, alloc: Global, other: &Tree) -> Result<FieldSet, AllocError>
    ensures { IfOk result (λ s. s ≡ set.difference (dom tree.now) (dom other.now)) }
{
    lacking(other, alloc, &paths_in(tree, alloc)?)
}

/// The paths of both whose values differ.
fn modified_from(tree: &Tree, alloc: Global, other: &Tree) -> Result<FieldSet, AllocError>
    ensures { IfOk result (λ s. s ≡ set.intersection (changed tree.now other.now) (dom other.now)) }
{
    changed_from(tree, alloc, other)?.common(alloc, &paths_in(other, alloc)?)
}

/// What a content added to another, modified and removed.
pub fn compare(tree: &Tree, alloc: Global, other: &Tree) -> Result<Changes, AllocError>
    ensures added { IfOk result (λ c. c.added ≡ set.difference (dom tree.now) (dom other.now)) }
    ensures modified { IfOk result (λ c. c.modified ≡ set.intersection (changed tree.now other.now) (dom other.now)) }
    ensures removed { IfOk result (λ c. c.removed ≡ set.difference (dom other.now) (dom tree.now)) }
{
    Ok(Changes {
        added: added_to(tree, alloc, other)?,
        modified: modified_from(tree, alloc, other)?,
        removed: added_to(other, alloc, tree)?,
    })
}

/// A content without every path at or below one of the set.
pub fn without(tree: Tree, set: &FieldSet) -> Tree
    ensures { result ≡ without tree set.now }
{
    Tree::of(tree.into_map().without(set.map()))
}
