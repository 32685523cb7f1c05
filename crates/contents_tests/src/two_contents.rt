//! Questions about two contents; the examples stand in `readings`.
//!
//! | question | answer |
//! |---|---|
//! | `merge TEXT and TEXT` | a copy of the second content over the first |
//! | `lay TEXT and TEXT` | the first content laid over the second |
//! | `less TEXT and TEXT` | the first content without the paths of the second |
//! | `own TEXT and TEXT` | the paths of the first content |
//! | `changed TEXT and TEXT`, `added ..`, `modified ..`, `removed ..` | those that differ from the second, and how |
//!
//! A function here holds at most one content or set of its own over a `?`: one with two took half a minute to prove.

use crate::given::{printed, shown_paths, tree};
use objects::{Changes, changed_from, compare, paths_in, without};
use schema::Schema;
use std::alloc::{AllocError, Global};
use std::test::Fail;
use typed::Tree;

/// The answer to a question about the contents of two texts.
pub fn answer_of_two(
    alloc: Global,
    schema: &Schema,
    call: &str,
    texts: &str,
) -> Result<String, Fail> {
    let (one, other) = texts.split_once(" and ").ok_or("no other text")?;
    let other = tree(alloc, schema, other)?;
    match call {
        "merge" | "lay" | "less" => made(alloc, schema, call, one, &other),
        _ => paths(alloc, schema, call, one, &other),
    }
}

fn made(
    alloc: Global,
    schema: &Schema,
    call: &str,
    text: &str,
    other: &Tree,
) -> Result<String, Fail> {
    let made = joined(alloc, call, tree(alloc, schema, text)?, other)?;
    printed(alloc, schema, &made)
}

fn joined(alloc: Global, call: &str, one: Tree, other: &Tree) -> Result<Tree, Fail> {
    match call {
        "merge" => Ok(merged(alloc, one, other)?),
        "lay" => Ok(one.laid_over(alloc, other)?),
        _ => Ok(less(alloc, one, other)?),
    }
}

fn merged(alloc: Global, one: Tree, other: &Tree) -> Result<Tree, AllocError> {
    one.merge(alloc, other)?.try_copy(alloc)
}

fn less(alloc: Global, one: Tree, other: &Tree) -> Result<Tree, AllocError> {
    Ok(without(one, &paths_in(other, alloc)?))
}

/// What is asked of the paths of two contents.
fn paths(
    alloc: Global,
    schema: &Schema,
    call: &str,
    text: &str,
    old: &Tree,
) -> Result<String, Fail> {
    let new = tree(alloc, schema, text)?;
    match call {
        "own" => shown_paths(alloc, &paths_in(&new, alloc)?),
        "changed" => shown_paths(alloc, &changed_from(&new, alloc, old)?),
        _ => shown_changes(alloc, call, &compare(&new, alloc, old)?),
    }
}

fn shown_changes(alloc: Global, call: &str, changes: &Changes) -> Result<String, Fail> {
    match call {
        "added" => shown_paths(alloc, &changes.added),
        "modified" => shown_paths(alloc, &changes.modified),
        "removed" => shown_paths(alloc, &changes.removed),
        _ => Err("no such call".into()),
    }
}
