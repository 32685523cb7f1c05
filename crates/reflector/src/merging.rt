//! What differs between two lists of objects, both in the order of places. The notices are kept in `notifying`.

ghost use Rattle.std.specs.Prelude.{◌≡◌, ◌+◌, ◌++◌, ◌≤◌, true, drop, map, option_map, vec_capacity, vec_len};
ghost use Rattle.std.specs.FinMap as fin;
ghost use Rattle.indexer.specs.Objects.{place_cmp, place_of, place_of_object, shared_of};
ghost use Rattle.reflector.specs.BetweenViews.{between, first_object, first_order, first_notices, new_left, old_left};
ghost use Rattle.reflector.specs.Client.{by_place};
ghost use Rattle.reflector.specs.Views.{held_seen, notice_seen, notice_list};

use crate::notice::{Notice, notice_at, notify};
use indexer::{Object, ObjectKey};
use std::cmp::Ordering;
use std::collections::VecDeque;
use std::rc::Rc;

/// Objects that were kept, each beside its key.
type KeptObjects = VecDeque<(ObjectKey, Rc<Object>)>;

/// Objects of a list.
type Listed = VecDeque<Rc<Object>>;

fn order_of(key: &ObjectKey, object: &Rc<Object>) -> Ordering
    ensures { result ≡ place_cmp (place_of key.now) (place_of_object object.now.value) }
{
    key.namespace
        .cmp(&object.namespace)
        .then(key.name.cmp(&object.name))
}

/// How the first places of both are ordered; where one has no more objects, the other's is the first.
fn first_order(old: &KeptObjects, new: &Listed) -> Option<Ordering>
    ensures { result ≡ first_order (map held_seen old.now.items) (by_place (map shared_of new.now.items)) }
{
    match (old.front(), new.front()) {
        (Some(was), Some(now)) => Some(order_of(&was.0, now)),
        (Some(_), None) => Some(Ordering::Less),
        (None, Some(_)) => Some(Ordering::Greater),
        (None, None) => None,
    }
}

fn pop_held(old: &mut KeptObjects) -> Option<Rc<Object>>
    ensures first { option_map shared_of result ≡ first_object (map held_seen old.old.items) }
    ensures left { map held_seen old.new.items ≡ drop 1 (map held_seen old.old.items) }
{
    match old.pop_front() {
        Some((_, was)) => Some(was),
        None => None,
    }
}

fn pop_listed(new: &mut Listed) -> Option<Rc<Object>>
    ensures first { option_map shared_of result ≡ first_object (by_place (map shared_of new.old.items)) }
    ensures left { by_place (map shared_of new.new.items) ≡ drop 1 (by_place (map shared_of new.old.items)) }
{
    new.pop_front()
}

/// Takes the first place off both; answers its notice.
fn take_first(order: Ordering, old: &mut KeptObjects, new: &mut Listed) -> Option<Notice>
    ensures emitted { notice_list result ≡ first_notices order (map held_seen old.old.items) (by_place (map shared_of new.old.items)) }
    ensures old { map held_seen old.new.items ≡ old_left order (map held_seen old.old.items) }
    ensures new { by_place (map shared_of new.new.items) ≡ new_left order (by_place (map shared_of new.old.items)) }
{
    match order {
        Ordering::Less => notice_at(pop_held(old), None),
        Ordering::Equal => notice_at(pop_held(old), pop_listed(new)),
        Ordering::Greater => notice_at(None, pop_listed(new)),
    }
}

/// Adds the notices where the objects of the second list replace those of the first, for which there is room.
pub(crate) fn notify_of_differences(
    old: Vec<(ObjectKey, Rc<Object>)>,
    new: Vec<Rc<Object>>,
    emitted: &mut Vec<Notice>,
)
    requires old { fin.is_sorted place_cmp (map held_seen old.items) ≡ true }
    requires new { fin.is_sorted place_cmp (by_place (map shared_of new.items)) ≡ true }
    requires room { vec_len emitted.old + (vec_len old + vec_len new) ≤ vec_capacity emitted.old }
    ensures { map notice_seen emitted.new.items ≡ map notice_seen emitted.old.items ++ between (map held_seen old.items) (by_place (map shared_of new.items)) }
{
    let mut held = VecDeque::from_vec(old);
    let mut listed = VecDeque::from_vec(new);
    while let Some(order) = first_order(&held, &listed) {
        notify(emitted, take_first(order, &mut held, &mut listed));
    }
}
