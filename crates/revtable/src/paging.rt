//! Pages of objects whose texts are kept: what is left of one namespace, and then what the namespaces after it have. The
//! statements stand in `statements`, and what reads their rows in `first_kept`.

ghost use Rattle.std.specs.Prelude.{◌≡◌, [], ◌∷◌, ◌++◌, ℕ, ◌^◌, ◌<◌, List, Option, map, IfOk, option_map, string_bytes};
ghost use Rattle.history.specs.History.{state_at};
ghost use Rattle.history.specs.Page.{listed};
ghost use Rattle.history.specs.Read.{entry_of};
ghost use Rattle.revtable.specs.Asked.{begins as place_of, in_later, in_one, low_of};
ghost use Rattle.revtable.specs.Kept.{first_kept};

use crate::fault::Fault;
use crate::keep::Keep;
use crate::table::Table;
use history::Entry;
use std::alloc::{AllocError, Global};
use std::cmp::Ordering;

/// What a page has: objects of a type, as they stood at a revision, and at most so many of those that are kept.
#[derive(Clone, Copy, Debug)]
pub(crate) struct Wanted {
    pub(crate) kind: u32,
    pub(crate) revision: u64,
    pub(crate) max: u64,
}

/// The namespace that a page begins in, and the name there after which it does: nowhere, if the place is past the
/// namespace that is asked for.
pub(crate) fn begins<'a>(
    namespace: Option<&'a str>,
    after: Option<(&'a str, &'a str)>,
) -> Option<(&'a str, Option<&'a str>)>
    ensures { option_map {U = List ℕ × Option (List ℕ)} (λ p. (p.0.now, option_map (λ b. b.now) p.1)) result ≡ place_of (option_map (λ b. b.now) namespace.entry) (option_map {U = List ℕ × List ℕ} (λ p. (p.0.now, p.1.now)) after.entry) }
{
    match (namespace, after) {
        (None, None) => Some(("", None)),
        (None, Some((first, name))) => Some((first, Some(name))),
        (Some(only), None) => Some((only, None)),
        (Some(only), Some((first, name))) => match only.cmp(first) {
            Ordering::Less => None,
            Ordering::Equal => Some((only, Some(name))),
            Ordering::Greater => Some((only, None)),
        },
    }
}

/// The text that comes next after this one: `namespace >= next` lets the index begin there, where `namespace > text`
/// would begin at the first object of the namespace itself.
pub(crate) fn next_after(alloc: Global, text: &str) -> Result<String, AllocError>
    ensures { IfOk result (λ s. string_bytes s ≡ text.now ++ 0 ∷ []) }
{
    let mut next = String::from_str(alloc, text)?;
    next.push_str("\0")?;
    Ok(next)
}

/// The text that the names after this one begin from, or all of them.
pub(crate) fn lowest(alloc: Global, after: Option<&str>) -> Result<String, AllocError>
    ensures { IfOk result (λ s. string_bytes s ≡ low_of (option_map (λ b. b.now) after.entry)) }
{
    match after {
        Some(name) => next_after(alloc, name),
        None => Ok(String::new(alloc)),
    }
}

/// The first kept of the objects of a type in one namespace at a revision, after a name if one is given.
fn kept_after<K: Keep>(
    alloc: Global,
    table: &mut Table,
    wanted: Wanted,
    namespace: &str,
    after: Option<&str>,
    keep: &K,
) -> Result<Vec<Entry>, Fault>
    requires fits { wanted.revision < 2 ^ 63 }
    ensures same { table.new ≡ table.old }
    ensures ok { IfOk result (λ v. map entry_of v.items
        ≡ first_kept (K.Keep.kept keep.now) wanted.max (in_one wanted.kind namespace.now (option_map (λ b. b.now) after.entry) (state_at table.old.changes wanted.revision))) }
{
    let low = lowest(alloc, after)?;
    table.kept_in(wanted, namespace, low.as_str(), keep)
}

/// The first kept of the objects of a type at a revision: of what is left of a namespace, and then of those after it.
fn kept_on<K: Keep>(
    alloc: Global,
    table: &mut Table,
    wanted: Wanted,
    first: &str,
    name: Option<&str>,
    keep: &K,
) -> Result<Vec<Entry>, Fault>
    requires fits { wanted.revision < 2 ^ 63 }
    ensures same { table.new ≡ table.old }
    ensures ok { IfOk result (λ v. map entry_of v.items ≡ first_kept (K.Keep.kept keep.now) wanted.max
        (in_one wanted.kind first.now (option_map (λ b. b.now) name.entry) (state_at table.old.changes wanted.revision)
        ++ in_later wanted.kind first.now (state_at table.old.changes wanted.revision))) }
{
    let mut found = kept_after(alloc, table, wanted, first, name, keep)?;
    let left = wanted.max.saturating_sub(found.len() as u64);
    if left == 0 {
        return Ok(found);
    }
    let next = next_after(alloc, first)?;
    let rest = Wanted {
        kind: wanted.kind,
        revision: wanted.revision,
        max: left,
    };
    let mut more = table.kept_from(rest, next.as_str(), keep)?;
    found.append(&mut more)?;
    Ok(found)
}

/// The first kept of the objects of a type, and of a namespace if one is named, at a revision and after a namespace and
/// name.
pub(crate) fn listed<K: Keep>(
    alloc: Global,
    table: &mut Table,
    wanted: Wanted,
    namespace: Option<&str>,
    after: Option<(&str, &str)>,
    keep: &K,
) -> Result<Vec<Entry>, Fault>
    requires fits { wanted.revision < 2 ^ 63 }
    ensures same { table.new ≡ table.old }
    ensures ok { IfOk result (λ v. map entry_of v.items ≡ first_kept (K.Keep.kept keep.now) wanted.max
        (listed wanted.kind (option_map (λ b. b.now) namespace.entry) (option_map (λ p. (p.0.now, p.1.now)) after.entry) (state_at table.old.changes wanted.revision))) }
{
    let Some((first, name)) = begins(namespace, after) else {
        return Ok(Vec::new(alloc));
    };
    if namespace.is_some() {
        kept_after(alloc, table, wanted, first, name, keep)
    } else {
        kept_on(alloc, table, wanted, first, name, keep)
    }
}
