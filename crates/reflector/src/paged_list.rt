//! What is set aside of a list until its last page. A page is taken in `pages`.

ghost use Rattle.std.specs.Prelude.{◌≡◌, ◌++◌, ◌&&◌, true, map, IfOk, OnOk, vec_len};
ghost use Rattle.std.specs.FinMap as fin;
ghost use Rattle.std.specs.Ordering.{is_lt};
ghost use Rattle.indexer.specs.Objects.{place_cmp, place_of_object, shared_of};
ghost use Rattle.reflector.specs.Client.{by_place};
ghost use Rattle.reflector.specs.Run.{ascends_within_limit};

use indexer::Object;
use std::alloc::{AllocError, Global};
use std::rc::Rc;

/// How many objects are kept at most.
pub(crate) const MAX_OBJECTS: usize = 4_294_967_295;

/// The objects of a list as far as it has come: their places strictly ascend, and they are not too many.
#[derive(Drop)]
pub(crate) struct PagedList {
    pub(crate) objects: Vec<Rc<Object>>,
    ghost listed: { ascends_within_limit (map shared_of objects.items) ≡ true },
}

fn is_before(one: &Rc<Object>, other: &Rc<Object>) -> bool
    ensures { result ≡ is_lt (place_cmp (place_of_object one.now.value) (place_of_object other.now.value)) }
{
    one.namespace
        .cmp(&other.namespace)
        .then(one.name.cmp(&other.name))
        .is_lt()
}

/// Whether the places strictly ascend.
fn ascends(objects: &[Rc<Object>]) -> bool
    ensures { result ≡ fin.is_sorted place_cmp (by_place (map shared_of objects.now)) }
{
    for i in 1..objects.len() {
        if !is_before(&objects[i - 1], &objects[i]) {
            return false;
        }
    }
    true
}

/// Whether the first that was found comes behind the last that is set aside.
fn joins(paged_list: &[Rc<Object>], found: &[Rc<Object>]) -> bool
    ensures { fin.is_sorted place_cmp (by_place (map shared_of paged_list.now)) ≡ true → (result && fin.is_sorted place_cmp (by_place (map shared_of found.now))) ≡ fin.is_sorted place_cmp (by_place (map shared_of paged_list.now ++ map shared_of found.now)) }
{
    let Some(last) = paged_list.last() else {
        return true;
    };
    match found.first() {
        Some(first) => is_before(last, first),
        None => true,
    }
}

/// Whether the objects that were found go on behind those that are set aside.
fn go_on(paged_list: &[Rc<Object>], found: &[Rc<Object>]) -> bool
    ensures { ascends_within_limit (map shared_of paged_list.now) ≡ true → result ≡ ascends_within_limit (map shared_of paged_list.now ++ map shared_of found.now) }
{
    joins(paged_list, found)
        && ascends(found)
        && found.len() <= MAX_OBJECTS.saturating_sub(paged_list.len())
}

/// The objects once more, shared.
fn shares(alloc: Global, objects: &[Rc<Object>]) -> Result<Vec<Rc<Object>>, AllocError>
    ensures { IfOk result (λ v. map shared_of v.items ≡ map shared_of objects.now) }
{
    let mut all = Vec::with_capacity(alloc, objects.len())?;
    for object in objects {
        all.push(object.clone()?)?;
    }
    Ok(all)
}

impl PagedList {
    ghost use Rattle.std.specs.Prelude.{◌≡◌, ◌++◌, [], map, is_some, IfOk, IfSome};
    ghost use Rattle.indexer.specs.Objects.{shared_of};
    ghost use Rattle.reflector.specs.PagedListViews.{paged_list_of};
    ghost use Rattle.reflector.specs.Run.{ascends_within_limit};

    pub(crate) fn new(alloc: Global) -> PagedList
        ensures { paged_list_of result ≡ [] }
    {
        PagedList {
            objects: Vec::new(alloc),
        }
    }

    /// The objects once more, shared.
    pub(crate) fn shares(&self, alloc: Global) -> Result<Vec<Rc<Object>>, AllocError>
        ensures { IfOk result (λ v. map shared_of v.items ≡ paged_list_of self.now) }
    {
        shares(alloc, &self.objects)
    }

    /// These, and behind them those that were found, if they go on.
    pub(crate) fn with(self, found: Vec<Rc<Object>>) -> Result<Option<PagedList>, AllocError>
        ensures fits { IfOk result (λ all. is_some all ≡ ascends_within_limit (paged_list_of self ++ map shared_of found.items)) }
        ensures all { IfOk result (λ o. IfSome o (λ all. paged_list_of all ≡ paged_list_of self ++ map shared_of found.items)) }
    {
        if !go_on(&self.objects, &found) {
            return Ok(None);
        }
        let mut objects = self.objects;
        let mut found = found;
        objects.append(&mut found)?;
        Ok(Some(PagedList { objects }))
    }
}
