//! The parts of a map that another map picks: what both have, what it lacks, what differs; and whether there is any.
//! All that stands at or below a path is taken out in `without`.

ghost use Rattle.std.specs.Prelude.{ℕ, List, ◌≡◌, ◌++◌, [], IfOk, OnOk, Some, None, string_bytes, if◌then◌else◌};
ghost use Rattle.std.specs.Option.{option_map};
ghost use Rattle.std.specs.FinSet as set;
ghost use Rattle.pathmap.specs.Contents.{dom, mark, marked, nothing};
ghost use Rattle.pathmap.specs.Beside.{changed, clear_of, is_empty, is_unchanged, is_within};
ghost use Rattle.pathmap.specs.Insides.{inside};
ghost use Rattle.pathmap.specs.Levels.{child_of, IsRising};
ghost use Rattle.pathmap.specs.Maps.{content, content_or_nothing, contents_in, leaf_value};
ghost use Rattle.pathmap.specs.Picks.{kept, no_child, picked, picked_in, picks, picks_alone, picks_some};

use crate::copying::push_made;
use crate::held::PathValue;
use crate::pathmap::PathMap;
use crate::walk::{skip, split_named};
use fieldpath::ElemText;
use std::alloc::{AllocError, Global};

/// Which paths of a map are picked beside another map.
#[derive(Clone, Copy)]
enum Rule {
    /// Those that the other lacks.
    Absent,
    /// Those that the other has too.
    Present,
    /// Those that the other lacks or has another value at.
    Changed,
    /// Those at or below which the other has none.
    Clear,
}

impl Rule {
    /// Whether the empty path is picked, beside a map.
    fn picks(self, mine: &PathValue, theirs: &PathMap) -> bool
        ensures { result ≡ picks self (leaf_value mine.now) (content theirs.now) }
    {
        match self {
            Rule::Absent => theirs.held.is_none(),
            Rule::Present => theirs.held.is_some(),
            Rule::Changed => match &theirs.held {
                Some(other) => !mine.same(other),
                None => true,
            },
            Rule::Clear => theirs.is_bare(),
        }
    }

    /// Whether a path is picked where there is nothing beside it.
    fn picks_alone(self) -> bool
        ensures { result ≡ picks_alone self }
    {
        match self {
            Rule::Present => false,
            Rule::Absent | Rule::Changed | Rule::Clear => true,
        }
    }
}

fn is_picked(rule: Rule, mine: &PathValue, theirs: Option<&PathMap>) -> bool
    ensures { result ≡ picks rule (leaf_value mine.now) (content_or_nothing (option_map (λ m. m.now) theirs.entry)) }
{
    match theirs {
        Some(map) => rule.picks(mine, map),
        None => rule.picks_alone(),
    }
}

/// Whether something stands at the empty path and is picked.
fn picks_held(rule: Rule, mine: &Option<PathValue>, theirs: Option<&PathMap>) -> bool
    ensures { result ≡ picks_some rule (option_map leaf_value mine.now) (content_or_nothing (option_map (λ m. m.now) theirs.entry)) }
{
    match mine {
        Some(held) => is_picked(rule, held, theirs),
        None => false,
    }
}

fn pick_held(rule: Rule, mine: &Option<PathValue>, theirs: Option<&PathMap>) -> Option<PathValue>
    ensures { option_map leaf_value result ≡ (if picks_some rule (option_map leaf_value mine.now) (content_or_nothing (option_map (λ m. m.now) theirs.entry)) then Some mark else None) }
{
    if picks_held(rule, mine, theirs) {
        Some(PathValue::Mark)
    } else {
        None
    }
}

/// What another map has below its elements.
fn below_of<'a>(theirs: Option<&'a PathMap>) -> &'a [(ElemText, PathMap)]
    ensures rising { IsRising (contents_in result.now) }
    ensures insides { (f : List ℕ) → content_or_nothing (child_of f (contents_in result.now)) ≡ inside f (content_or_nothing (option_map (λ m. m.now) theirs.entry)) }
{
    match theirs {
        Some(map) => &map.below,
        None => &[],
    }
}

/// Puts a map behind the others, unless it has no path.
fn push_full(
    all: &mut Vec<(ElemText, PathMap)>,
    name: &ElemText,
    made: PathMap,
) -> Result<(), AllocError>
    ensures { OnOk result (contents_in all.new.items ≡ contents_in all.old.items ++ kept (string_bytes name.now) (content made) []) }
{
    if made.is_bare() {
        return Ok(());
    }
    push_made(all, name, made)
}

/// Both in order, walked side by side.
#[cycle(pick)]
fn pick_below(
    mine: &[(ElemText, PathMap)],
    alloc: Global,
    theirs: &[(ElemText, PathMap)],
    rule: Rule,
) -> Result<Vec<(ElemText, PathMap)>, AllocError>
    ensures { IfOk result (λ v. IsRising (contents_in mine.now) → IsRising (contents_in theirs.now) → contents_in v.items ≡ picked_in rule (contents_in theirs.now) (contents_in mine.now)) }
{
    let mut all = Vec::new(alloc);
    let mut rest = theirs;
    for (name, inner) in mine {
        let (map, left) = split_named(skip(rest, name), name);
        rest = left;
        let made = pick(inner, alloc, map, rule)?;
        push_full(&mut all, name, made)?;
    }
    Ok(all)
}

/// A mark at each path that the rule picks.
#[cycle(pick)]
fn pick(
    mine: &PathMap,
    alloc: Global,
    theirs: Option<&PathMap>,
    rule: Rule,
) -> Result<PathMap, AllocError>
    ensures { IfOk result (λ m. content m ≡ marked (picked rule (content mine.now) (content_or_nothing (option_map (λ m. m.now) theirs.entry)))) }
{
    let held = pick_held(rule, &mine.held, theirs);
    let below = pick_below(&mine.below, alloc, below_of(theirs), rule)?;
    Ok(PathMap { held, below })
}

/// The paths that the rule picks.
fn picked_paths(
    mine: &PathMap,
    alloc: Global,
    theirs: Option<&PathMap>,
    rule: Rule,
) -> Result<PathMap, AllocError>
    ensures { IfOk result (λ m. dom (content m) ≡ picked rule (content mine.now) (content_or_nothing (option_map (λ m. m.now) theirs.entry))) }
{
    let made = pick(mine, alloc, theirs, rule)?;
    Ok(made)
}

/// Both in order, as in `pick_below`, up to the first child of which a path is picked.
#[cycle(picks_none)]
fn picks_none_below(
    mine: &[(ElemText, PathMap)],
    theirs: &[(ElemText, PathMap)],
    rule: Rule,
) -> bool
    ensures { IsRising (contents_in mine.now) → IsRising (contents_in theirs.now) → result ≡ no_child (picked_in rule (contents_in theirs.now) (contents_in mine.now)) }
{
    let mut rest = theirs;
    for (name, inner) in mine {
        let (map, left) = split_named(skip(rest, name), name);
        rest = left;
        if !picks_none(inner, map, rule) {
            return false;
        }
    }
    true
}

/// Whether the rule picks no path: the walk of `pick`, which makes nothing and stops at the first path that is picked.
#[cycle(picks_none)]
fn picks_none(mine: &PathMap, theirs: Option<&PathMap>, rule: Rule) -> bool
    ensures { result ≡ is_empty (picked rule (content mine.now) (content_or_nothing (option_map (λ m. m.now) theirs.entry))) }
{
    if picks_held(rule, &mine.held, theirs) {
        return false;
    }
    picks_none_below(&mine.below, below_of(theirs), rule)
}

impl PathMap {
    /// The paths that the other map lacks.
    pub fn minus(&self, alloc: Global, other: &PathMap) -> Result<PathMap, AllocError>
        ensures { IfOk result (λ m. dom (content m) ≡ set.difference (dom (content self.now)) (dom (content other.now))) }
    {
        picked_paths(self, alloc, Some(other), Rule::Absent)
    }

    /// Whether the other map has all of its paths: `minus` would have none.
    pub fn is_within(&self, other: &PathMap) -> bool
        ensures { result ≡ is_within (dom (content self.now)) (dom (content other.now)) }
    {
        picks_none(self, Some(other), Rule::Absent)
    }

    /// The paths that the other map has too.
    pub fn common(&self, alloc: Global, other: &PathMap) -> Result<PathMap, AllocError>
        ensures { IfOk result (λ m. dom (content m) ≡ set.intersection (dom (content self.now)) (dom (content other.now))) }
    {
        picked_paths(self, alloc, Some(other), Rule::Present)
    }

    /// The paths that the other map lacks or has another value at.
    pub fn changed(&self, alloc: Global, other: &PathMap) -> Result<PathMap, AllocError>
        ensures { IfOk result (λ m. dom (content m) ≡ changed (content self.now) (content other.now)) }
    {
        picked_paths(self, alloc, Some(other), Rule::Changed)
    }

    /// Whether the other map has the same value at each of its paths: `changed` would have none.
    pub fn is_unchanged_from(&self, other: &PathMap) -> bool
        ensures { result ≡ is_unchanged (content self.now) (content other.now) }
    {
        picks_none(self, Some(other), Rule::Changed)
    }

    /// The paths at or below which the other map has none.
    pub fn clear_of(&self, alloc: Global, other: &PathMap) -> Result<PathMap, AllocError>
        ensures { IfOk result (λ m. dom (content m) ≡ clear_of (dom (content self.now)) (dom (content other.now))) }
    {
        picked_paths(self, alloc, Some(other), Rule::Clear)
    }

    /// A mark at each of its paths.
    pub fn marks(&self, alloc: Global) -> Result<PathMap, AllocError>
        ensures { IfOk result (λ m. content m ≡ marked (dom (content self.now))) }
    {
        pick(self, alloc, None, Rule::Absent)
    }
}
