//! A set of ids as ranges: what thousands of ids one after another take is the room of one.

ghost use Rattle.std.specs.Prelude.{◌≡◌};
ghost use Rattle.std.specs.BTreeMap.{IsOrdered, btree_map_len};
ghost use Rattle.std.specs.Ordering.{nat_cmp, eq_by_cmp};
ghost use Rattle.httpedge.specs.IdViews.{AreApart, IsBefore, IsAfter, covers, first_with, is_in};

use std::alloc::{AllocError, Global};
use std::collections::BTreeMap;

/// A set of ids: from the first of each range to its last.
#[derive(Debug, Drop)]
pub(crate) struct Ids {
    ranges: BTreeMap<u64, u64>,
    ghost apart: { AreApart ranges },
}

/// Whether a range reaches an id, before which it begins.
fn covers(range: Option<(u64, u64)>, id: u64) -> bool
    ensures { result ≡ covers range id }
{
    match range {
        Some((_, last)) => id <= last,
        None => false,
    }
}

/// The first of the range that ends just before an id, or the id.
fn first_with(range: Option<(u64, u64)>, id: u64) -> u64
    ensures { result ≡ first_with range id }
{
    match range {
        Some((first, last)) => {
            if id.saturating_sub(1) <= last {
                first
            } else {
                id
            }
        }
        None => id,
    }
}

impl Ids {
    ghost use Rattle.std.specs.Prelude.{◌≡◌, ◌<◌, ◌^◌, ℕ, OnOk, OnErr, true, false, cond};

    /// None.
    pub(crate) fn new(alloc: Global) -> Ids
        ensures { (q : ℕ) → is_in result.ranges q ≡ false }
    {
        Ids {
            ranges: BTreeMap::new(alloc),
        }
    }

    /// The last of the ranges that begin at an id or before it.
    fn before(&self, id: u64) -> Option<(u64, u64)>
        ensures last { IsBefore self.now.ranges id result }
        ensures ordered { IsOrdered nat_cmp self.now.ranges }
    {
        let (first, last) = self.ranges.range(..=id).next_back()?;
        Some((*first, *last))
    }

    /// The range that begins just after an id.
    fn after(&self, id: u64) -> Option<(u64, u64)>
        ensures { IsAfter self.now.ranges id result }
    {
        let next = id.checked_add(1)?;
        let last = self.ranges.get(&next)?;
        Some((next, *last))
    }

    /// How many ranges they are.
    pub(crate) fn len(&self) -> usize
        ensures len { result ≡ btree_map_len self.now.ranges }
        ensures small { result < 2 ^ 63 }
    {
        self.ranges.len()
    }

    /// Whether an id is one of them.
    pub(crate) fn contains(&self, id: u64) -> bool
        ensures { result ≡ is_in self.now.ranges id }
    {
        covers(self.before(id), id)
    }

    /// Adds an id; ranges that touch become one.
    pub(crate) fn insert(&mut self, id: u64) -> Result<(), AllocError>
        ensures ok { OnOk result ((q : ℕ) → is_in self.new.ranges q ≡ cond (eq_by_cmp nat_cmp id q) true (is_in self.old.ranges q)) }
        ensures err { OnErr result ((q : ℕ) → is_in self.new.ranges q ≡ is_in self.old.ranges q) }
    {
        let before = self.before(id);
        if covers(before, id) {
            return Ok(());
        }
        let first = first_with(before, id);
        match self.after(id) {
            None => {
                self.ranges.insert(first, id)?;
                Ok(())
            }
            Some((next, last)) => {
                self.ranges.insert(first, last)?;
                self.ranges.remove(&next);
                Ok(())
            }
        }
    }
}
