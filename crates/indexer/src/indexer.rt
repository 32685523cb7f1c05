//! The indexer: the objects that the client keeps, indexes over them, and the calls on both. How both change together
//! stands in `kept`.

ghost use Rattle.std.specs.Prelude.{◌≡◌, List, map, IfOk, OnOk, string_bytes, true, false};
ghost use Rattle.std.specs.FinMap as fin;
ghost use Rattle.indexer.specs.PutAll.{put_all};
ghost use Rattle.indexer.specs.Kept.{HoldsPostings, indexed_objects_in};
ghost use Rattle.indexer.specs.Names.{are_distinct};
ghost use Rattle.indexer.specs.declared.indexer.IndexerFault.TheVariants.{Memory};
ghost use Rattle.indexer.specs.Objects.{shared_of};

use crate::entry::Entry;
use crate::index_by::{IndexBy, are_distinct, keys_by_each, names_of_each};
use crate::kept;
use crate::object::{Object, ObjectKey};
use crate::postings::{Postings, objects_under, texts_in};
use std::alloc::{AllocError, Global};
use std::collections::{BTreeMap, BTreeSet};
use std::error::Error;
use std::rc::Rc;
use std::{fmt, mem};

/// Objects by namespace and name, and indexes that follow them.
#[derive(Drop)]
pub struct Indexer<I: Drop> {
    objects: BTreeMap<ObjectKey, Entry>,
    postings: Vec<Postings>,
    names: Vec<String>,
    indexes: Vec<I>,
    alloc: Global,
    ghost indexed: { HoldsPostings objects postings.items },
}

/// Why no indexer was made.
#[derive(Debug, Drop)]
pub enum IndexerFault {
    /// Two indexes have one name.
    SameName,
    /// Out of memory.
    Memory,
}

impl fmt::Display for IndexerFault {
    ghost use Rattle.std.specs.Prelude.{Some};
    ghost use Rattle.indexer.specs.FaultViews.{error_text};

    ghost output = { λ e. Some (error_text e) };

    fn fmt<W: fmt::Write>(&self, f: &mut fmt::Formatter<W>) -> fmt::Result {
        match self {
            IndexerFault::SameName => f.write_str("two indexes have one name"),
            IndexerFault::Memory => f.write_str("out of memory"),
        }
    }
}

impl Error for IndexerFault {}

impl From<AllocError> for IndexerFault {
    ghost from_gives = { λ _ e. e ≡ Memory };

    fn from(_e: AllocError) -> IndexerFault {
        IndexerFault::Memory
    }
}

/// Objects put one after the other, and their postings.
#[derive(Drop)]
struct Gathered {
    objects: BTreeMap<ObjectKey, Entry>,
    postings: Vec<Postings>,
}

fn gather<I: IndexBy>(
    alloc: Global,
    indexes: &[I],
    from: Vec<Rc<Object>>,
) -> Result<Gathered, AllocError>
    ensures holds { IfOk result (λ r. HoldsPostings r.objects r.postings.items) }
    ensures held { IfOk result (λ r. indexed_objects_in r.objects ≡ put_all (λ o. map (λ b. I.keys b o) indexes.now) (map shared_of from.items) fin.empty) }
{
    let mut objects = BTreeMap::new(alloc);
    let mut postings = Vec::new(alloc);
    for object in from {
        let keys = keys_by_each(alloc, indexes, &object)?;
        kept::put(alloc, &mut objects, &mut postings, object, keys)?;
    }
    Ok(Gathered { objects, postings })
}

impl<I: IndexBy> Indexer<I> {
    ghost use Rattle.std.specs.Prelude.{◌≡◌, ◌<◌, ◌↔◌, ℕ, List, map, true, false, OnOk, OnErr, IfOk, IfSome, option_map, option_copied, string_bytes};
    ghost use Rattle.std.specs.BTreeSet.{btree_set_len};
    ghost use Rattle.std.specs.Cmp.Lexicographic.{slice_cmp};
    ghost use Rattle.std.specs.FinMap as fin;
    ghost use Rattle.std.specs.List.Sorted.{IsStrictlySortedBy};
    ghost use Rattle.std.specs.Ordering.{nat_cmp};
    ghost use Rattle.indexer.specs.declared.object.ObjectKey.{ObjectKey};
    ghost use Rattle.indexer.specs.Indexer.{indexed_objects_of, indexes_of, names_of, is_under};
    ghost use Rattle.indexer.specs.Kept.{objects_in};
    ghost use Rattle.indexer.specs.Names.{are_distinct};
    ghost use Rattle.indexer.specs.PutAll.{put_all};
    ghost use Rattle.indexer.specs.Objects.{place_of, place_of_object, shared_of, is_among};
    ghost use Rattle.indexer.specs.Postings.{has_in};

    /// No objects, and these indexes; refused where two have one name.
    pub fn new(alloc: Global, indexes: Vec<I>) -> Result<Indexer<I>, IndexerFault>
        ensures made { IfOk result (λ r. indexed_objects_of r ≡ fin.empty) }
        ensures indexes { IfOk result (λ r. indexes_of r ≡ indexes.items) }
        ensures names { IfOk result (λ r. names_of r ≡ map (λ b. I.title b) indexes.items) }
        ensures distinct { OnOk result (are_distinct (map (λ b. I.title b) indexes.items) ≡ true) }
        ensures same_name { result ≡ Err IndexerFault.SameName → are_distinct (map (λ b. I.title b) indexes.items) ≡ false }
    {
        let names = names_of_each(alloc, &indexes)?;
        if !are_distinct(&names) {
            return Err(IndexerFault::SameName);
        }
        Ok(Indexer {
            objects: BTreeMap::new(alloc),
            postings: Vec::new(alloc),
            names,
            indexes,
            alloc,
        })
    }

    /// Keeps just these objects, put one after the other; those that were kept are returned, each beside its key, in
    /// order of keys. Out of memory, it changes nothing.
    pub fn replace(
        &mut self,
        objects: Vec<Rc<Object>>,
    ) -> Result<Vec<(ObjectKey, Rc<Object>)>, AllocError>
        ensures ok { OnOk result (indexed_objects_of self.new ≡ put_all (λ o. map (λ b. I.keys b o) (indexes_of self.old)) (map shared_of objects.items) fin.empty) }
        ensures was { IfOk result (λ v. map (λ e. (place_of e.0, shared_of e.1)) v.items ≡ objects_in (indexed_objects_of self.old)) }
        ensures err { OnErr result (indexed_objects_of self.new ≡ indexed_objects_of self.old) }
        ensures indexes { indexes_of self.new ≡ indexes_of self.old }
        ensures names { names_of self.new ≡ names_of self.old }
    {
        let gathered = gather(self.alloc, &self.indexes, objects)?;
        let room = kept::room_for(self.alloc, &self.objects)?;
        let Gathered { objects, postings } = gathered;
        let was = mem::replace(&mut self.objects, objects);
        self.postings = postings;
        Ok(kept::handed_out(was, room))
    }

    /// Keeps the object where it stands, in place of the one that was there, which is returned, and in every
    /// index under its keys alone. Out of memory, it changes nothing.
    pub fn put(&mut self, object: Rc<Object>) -> Result<Option<Rc<Object>>, AllocError>
        ensures ok { OnOk result (indexed_objects_of self.new ≡ fin.insert (indexed_objects_of self.old) (place_of_object object.value) (shared_of object, map (λ b. I.keys b (shared_of object)) (indexes_of self.old))) }
        ensures was { IfOk result (λ o. option_map shared_of o ≡ option_map (λ h. h.0) (fin.get (indexed_objects_of self.old) (place_of_object object.value))) }
        ensures err { OnErr result (indexed_objects_of self.new ≡ indexed_objects_of self.old) }
        ensures indexes { indexes_of self.new ≡ indexes_of self.old }
        ensures names { names_of self.new ≡ names_of self.old }
    {
        let keys = keys_by_each(self.alloc, &self.indexes, &object)?;
        match kept::put(
            self.alloc,
            &mut self.objects,
            &mut self.postings,
            object,
            keys,
        )? {
            Some(was) => Ok(Some(was.object)),
            None => Ok(None),
        }
    }

    /// Keeps no object at the key, nor in any index; the one that was there is returned.
    pub fn remove(&mut self, key: &ObjectKey) -> Option<Rc<Object>>
        ensures removed { indexed_objects_of self.new ≡ fin.remove (indexed_objects_of self.old) (place_of key.now) }
        ensures was { option_map shared_of result ≡ option_map (λ h. h.0) (fin.get (indexed_objects_of self.old) (place_of key.now)) }
        ensures indexes { indexes_of self.new ≡ indexes_of self.old }
        ensures names { names_of self.new ≡ names_of self.old }
    {
        match kept::remove(&mut self.objects, &mut self.postings, key) {
            Some(was) => Some(was.object),
            None => None,
        }
    }

    /// Keeps no object. Takes no memory.
    pub fn clear(&mut self)
        ensures held { indexed_objects_of self.new ≡ fin.empty }
        ensures indexes { indexes_of self.new ≡ indexes_of self.old }
        ensures names { names_of self.new ≡ names_of self.old }
    {
        self.objects = BTreeMap::new(self.alloc);
        self.postings = Vec::new(self.alloc);
    }

    /// The object at the key. Takes no memory.
    pub fn get(&self, key: &ObjectKey) -> Option<&Rc<Object>>
        ensures { option_map (λ o. shared_of o.now) result ≡ option_map (λ h. h.0) (fin.get (indexed_objects_of self.now) (place_of key.now)) }
    {
        kept::object_at(&self.objects, key)
    }

    /// The objects, each beside its key, in order of keys.
    pub fn objects(&self) -> Result<Vec<(&ObjectKey, &Rc<Object>)>, AllocError>
        ensures { IfOk result (λ v. map (λ e. (place_of e.0.now, shared_of e.1.now)) v.items ≡ objects_in (indexed_objects_of self.now)) }
    {
        kept::all_of(self.alloc, &self.objects)
    }

    /// The names of the indexes, as they were given.
    pub fn index_names(&self) -> &[String]
        ensures { map string_bytes result.now ≡ names_of self.now }
    {
        &self.names
    }

    /// How many objects there are. Takes no memory.
    pub fn len(&self) -> usize
        ensures { result ≡ fin.len (indexed_objects_of self.now) }
    {
        self.objects.len()
    }

    /// The keys of the objects that have a key in the index of this name; None where none has it, or no index
    /// the name. Takes no memory.
    pub fn by_index(&self, name: &str, key: &str) -> Option<&BTreeSet<ObjectKey>>
        ensures members { (q : ObjectKey) → has_in (option_copied result) q ≡ is_under (indexed_objects_of self.now) (names_of self.now) name.now key.now (place_of q) }
        ensures some { IfSome result (λ keys. 0 < btree_set_len keys.now) }
    {
        objects_under(&self.names, &self.postings, name, key)
    }

    /// The keys in the index of this name that some object has, each once, in order of their bytes; none where no
    /// index has the name.
    pub fn keys(&self, name: &str) -> Result<Vec<&str>, AllocError>
        ensures members { IfOk result (λ v. (k : List ℕ) → (is_among (map (λ t. t.now) v.items) k ≡ true) ↔ ((q : ObjectKey) × (is_under (indexed_objects_of self.now) (names_of self.now) name.now k (place_of q) ≡ true))) }
        ensures ascending { IfOk result (λ v. IsStrictlySortedBy (slice_cmp nat_cmp) (map (λ t. t.now) v.items)) }
    {
        texts_in(self.alloc, &self.names, &self.postings, name)
    }
}
