//! The slots in which states are cached: a table of a fixed size, in which many objects share a slot. A slot holds
//! the state of one of them at most, the last that a write left there. What it holds is right for the texts of its type
//! alone, so it is returned for no other; which object it is of is not kept, since a state is used only under the very
//! text that says it. A state is matched with its text in `cached`.

ghost use Rattle.std.specs.Prelude.{◌≡◌, IfOk, IfSome, List};
ghost use Rattle.api_types.specs.TypesFile.{ServedShape};
ghost use Rattle.verbs.specs.CachedStateViews.{AreCoherent, IsCoherentAt, IsCoherentIn};

use crate::cached::CachedState;
use std::alloc::{AllocError, Global};
use std::mem;

/// What is cached of an object of the type with this number, if anything is. The number is the type's place in the types
/// file; in an empty slot it says nothing.
#[derive(Drop)]
pub struct Slot {
    pub kind: u32,
    pub cached: Option<CachedState>,
}

/// How many slots there are: so many states stay in memory at most, each with a copy of its text.
const SLOTS: usize = 64;

/// The sum of a text's bytes, each weighed by its place. It only spreads objects over slots, and any factor would be right: by 37 numbered
/// names hardly share a slot, by 31 half of them do.
fn sum_of(start: u32, text: &str) -> u32 {
    let mut sum = start;
    for byte in text.as_bytes() {
        sum = sum.wrapping_mul(37).wrapping_add(*byte as u32);
    }
    sum
}

/// The number of the slot that an object has.
pub(crate) fn slot_of(kind: u32, namespace: &str, name: &str) -> usize {
    sum_of(sum_of(kind, namespace), name) as usize % SLOTS
}

/// All slots, with nothing in them.
pub(crate) fn empty_slots(alloc: Global) -> Result<Vec<Slot>, AllocError>
    ensures { (types : List ServedShape) → IfOk result (λ v. AreCoherent types v.items) }
{
    let mut slots = Vec::new(alloc);
    for _ in 0..SLOTS {
        slots.push(Slot {
            kind: 0,
            cached: None,
        })?;
    }
    Ok(slots)
}

/// What a slot holds of an object of the type, which it holds no longer. A slot with an object of another type keeps that.
pub(crate) fn taken_from(slots: &mut [Slot], at: usize, kind: u32) -> Option<CachedState>
    ensures coherent { (types : List ServedShape) → AreCoherent types slots.old → IfSome result (IsCoherentAt types kind) }
    ensures rest { (types : List ServedShape) → AreCoherent types slots.old → AreCoherent types slots.new }
{
    if slots.len() <= at || slots[at].kind != kind {
        return None;
    }
    let empty = Slot { kind, cached: None };
    let slot = mem::replace(&mut slots[at], empty);
    slot.cached
}

/// Puts this in place of what the slot holds, of whichever object that is; a slot that isn't there changes nothing.
pub(crate) fn put_in(slots: &mut [Slot], at: usize, slot: Slot)
    ensures { (types : List ServedShape) → AreCoherent types slots.old → IsCoherentIn types slot → AreCoherent types slots.new }
{
    if at < slots.len() {
        slots[at] = slot;
    }
}
