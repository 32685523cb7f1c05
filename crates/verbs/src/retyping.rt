//! Other types in the place of those that are served: which objects' texts change, and what is written of each. How an object is
//! carried to its new type stands in `ownership`, and which types may follow which in `api_types`.

ghost use Rattle.std.specs.Prelude.{◌≡◌, ◌≢◌, ◌+◌, ◌++◌, [], ◌∷◌, Err, IfErr, IfOk, IfSome, List, None, OnOk, Ok, Some, length, map, option_map, slice_get, string_bytes};
ghost use Rattle.std.specs.FinMap as fin;
ghost use Rattle.std.specs.List.{All};
ghost use Rattle.serde_json.specs.View as value;
ghost use Rattle.schema.specs.ObjectShape.{IsObjectShape};
ghost use Rattle.api_types.specs.Served as types;
ghost use Rattle.api_types.specs.Served.{types_view};
ghost use Rattle.api_types.specs.Discovered.{declared_after};
ghost use Rattle.api_types.specs.TypesFile.{ServedShape};
ghost use Rattle.typed.specs.Fitting.{IsContent};
ghost use Rattle.objects.specs.WellTyped.{IsWellTypedState};
ghost use Rattle.objects.specs.Views.{stamp_of, state_of, system_of};
ghost use Rattle.history.specs.History.{History};
ghost use Rattle.history.specs.Page.{listed};
ghost use Rattle.history.specs.Read.{entry_of, key_of, write_of};
ghost use Rattle.history.specs.View.{view};
ghost use Rattle.verbs.specs.GatheredViews.{AreReadable, AreWritable, IsReadableEntry, IsTooMany, IsNewText, carried_at, file_fault, gathered, new_types, old_types};
ghost use Rattle.verbs.specs.Machine.{AreTexts, IsMachine};
ghost use Rattle.verbs.specs.Retyping.{if_compatible, retyping, retyping_writes};
ghost use Rattle.verbs.specs.Views.{IsFileFault, objects_in, retype_refusal, reported_of_file};
ghost use Rattle.verbs.specs.Step.{text_stamped};

use crate::catalog::Catalog;
use crate::existing::read_stored;
use crate::fault::{Fault, RetypeFault};
use crate::identity::identity_of;
use api_types::{Retyping, Served, Types, TypesFault};
use api_validation::api_version_of;
use history::{Entry, Key, LAST_REVISION, Write};
use ownership::{Carry, Owned, Stamp, Stored};
use revstore::{ListFault, Store};
use serde_json::Value;
use std::alloc::{AllocError, Global};

/// A change of the types, while a store's objects stand at this revision.
#[derive(Clone, Copy)]
pub(crate) struct Retyper<'a> {
    pub(crate) alloc: Global,
    pub(crate) types: Retyping<'a>,
    pub(crate) current: u64,
}

/// An object's text under its type, where the system says this of it.
fn printed(
    alloc: Global,
    served: &Served,
    key: &Key,
    stamp: Stamp<'_>,
    owned: &Owned,
) -> Result<String, AllocError>
    requires shaped { IsObjectShape (types.served served.now).shape }
    requires content { IsContent (types.served served.now).shape owned.now.tree }
    ensures { IfOk result (λ s. string_bytes s ≡ text_stamped (types.served served.now) (key_of key.now) (stamp_of stamp.entry) (state_of owned.now)) }
{
    let api_version = api_version_of(alloc, served)?;
    let identity = identity_of(served, key, api_version.as_str());
    owned.to_object(alloc, &served.schema, identity, stamp)
}

/// The objects of a type, as they stand now.
fn objects_of(store: &mut Store, kind: u32) -> Result<Vec<Entry>, Fault>
    ensures objects { IfOk result (λ v. map entry_of v.items ≡ listed kind None None (objects_in store.old)) }
    ensures readable { result ≢ Err Fault.Unreadable }
    ensures same { store.new ≡ store.old }
{
    let current = store.current();
    match store.list_at(kind, None, current, None, LAST_REVISION) {
        Ok(entries) => Ok(entries),
        Err(ListFault::Failed(fault)) => Err(Fault::from(fault)),
        Err(ListFault::Expired) => unreachable!(),
        Err(ListFault::TooLarge) => unreachable!(),
    }
}

impl Retyper<'_> {
    /// An object's state under its new type, and what the system says of it.
    fn carried(self, entry: &Entry) -> Result<Stored, Fault>
        ensures state { IfOk result (λ o. carried_at (old_types self.entry) (new_types self.entry) (entry_of entry.now) ≡ Some (state_of o.owned, option_map system_of o.system)) }
        ensures well_typed { IfOk result (λ o. (u : ServedShape) → slice_get (new_types self.entry) entry.now.key.kind ≡ Some u → IsWellTypedState u.shape (state_of o.owned)) }
        ensures readable { IsReadableEntry (old_types self.entry) (entry_of entry.now) → result ≢ Err Fault.Unreadable }
    {
        let kind = entry.key.kind;
        let Some(served) = self.types.old.get(kind) else {
            return Err(Fault::Unreadable);
        };
        let Some(schemas) = self.types.of_type(kind) else {
            return Err(Fault::Unreadable);
        };
        let stored = read_stored(self.alloc, served, &entry.key, &entry.object)?;
        let owned = schemas.carry(self.alloc, &stored.owned)?;
        let Stored {
            version,
            system,
            ..
        } = stored;
        Ok(Stored {
            owned,
            version,
            system,
        })
    }

    /// The text of an object under its new type at this revision, if it says another than the text that stands.
    fn new_text(self, entry: &Entry, revision: u64) -> Result<Option<String>, Fault>
        ensures text { IfOk result (λ o. IsNewText (old_types self.entry) (new_types self.entry) revision (entry_of entry.now) (option_map string_bytes o)) }
        ensures readable { IsReadableEntry (old_types self.entry) (entry_of entry.now) → result ≢ Err Fault.Unreadable }
    {
        let Stored { owned, system, .. } = self.carried(entry)?;
        let Some(served) = self.types.new.get(entry.key.kind) else {
            unreachable!()
        };
        let key = &entry.key;
        let stamp = Stamp {
            version: entry.object.revision,
            system: system.as_ref(),
        };
        let text = printed(self.alloc, served, key, stamp, &owned)?;
        if text == entry.object.body {
            return Ok(None);
        }
        let stamp = Stamp {
            version: revision,
            system: system.as_ref(),
        };
        Ok(Some(printed(self.alloc, served, key, stamp, &owned)?))
    }

    /// Adds the write of an object, if its text changes: it gets the revision after those of the other writes.
    fn add(self, entry: Entry, writes: &mut Vec<Write>) -> Result<(), RetypeFault>
        requires writable { AreWritable self.current (map write_of writes.old.items) }
        ensures ok { let ws = map write_of writes.old.items in
            OnOk result (map write_of writes.new.items ≡ ws ++ gathered (old_types self.entry) (new_types self.entry) (self.entry.current + length ws) (entry_of entry ∷ [])) }
        ensures writable { OnOk result (AreWritable self.entry.current (map write_of writes.new.items)) }
        ensures refused { let ws = map write_of writes.old.items in
            IfErr result (IsTooMany (self.entry.current + length ws + length (gathered (old_types self.entry) (new_types self.entry) (self.entry.current + length ws) (entry_of entry ∷ [])))) }
        ensures readable { IsReadableEntry (old_types self.entry) (entry_of entry) → result ≢ Err (RetypeFault.Failed Fault.Unreadable) }
    {
        let revision = self.current + writes.len() as u64 + 1;
        let Some(text) = self.new_text(&entry, revision)? else {
            return Ok(());
        };
        if revision > LAST_REVISION {
            return Err(RetypeFault::TooFewRevisions);
        }
        let write = Write {
            key: entry.key,
            body: Some(text),
        };
        match writes.push(write) {
            Ok(()) => Ok(()),
            Err(_) => Err(RetypeFault::Failed(Fault::Memory)),
        }
    }

    /// Adds the writes of those of these objects whose texts change.
    fn add_all(self, entries: Vec<Entry>, writes: &mut Vec<Write>) -> Result<(), RetypeFault>
        requires writable { AreWritable self.current (map write_of writes.old.items) }
        ensures ok { let ws = map write_of writes.old.items in
            OnOk result (map write_of writes.new.items ≡ ws ++ gathered (old_types self.entry) (new_types self.entry) (self.entry.current + length ws) (map entry_of entries.items)) }
        ensures writable { OnOk result (AreWritable self.entry.current (map write_of writes.new.items)) }
        ensures refused { let ws = map write_of writes.old.items in
            IfErr result (IsTooMany (self.entry.current + length ws + length (gathered (old_types self.entry) (new_types self.entry) (self.entry.current + length ws) (map entry_of entries.items)))) }
        ensures readable { AreReadable (old_types self.entry) (map entry_of entries.items) → result ≢ Err (RetypeFault.Failed Fault.Unreadable) }
    {
        for entry in entries {
            self.add(entry, writes)?;
        }
        Ok(())
    }

    /// The writes of all objects whose texts change, in the order of their keys.
    fn writes(self, store: &mut Store) -> Result<Vec<Write>, RetypeFault>
        requires current { AreWritable self.current [] }
        ensures ok { AreTexts (old_types self.entry) (objects_in store.old) → IfOk result (λ v. map write_of v.items ≡ gathered (old_types self.entry) (new_types self.entry) self.entry.current (fin.entries (objects_in store.old))) }
        ensures writable { IfOk result (λ v. AreWritable self.entry.current (map write_of v.items)) }
        ensures refused { IfErr result (IsTooMany (self.entry.current + length (gathered (old_types self.entry) (new_types self.entry) self.entry.current (fin.entries (objects_in store.old))))) }
        ensures readable { AreTexts (old_types self.entry) (objects_in store.old) → result ≢ Err (RetypeFault.Failed Fault.Unreadable) }
        ensures same { store.new ≡ store.old }
    {
        let mut writes = Vec::new(self.alloc);
        for kind in 0..u32::MAX {
            if self.types.old.get(kind).is_none() {
                break;
            }
            let entries = objects_of(store, kind)?;
            self.add_all(entries, &mut writes)?;
        }
        Ok(writes)
    }
}

/// What is written where the new types are to be served in the place of the old ones.
pub(crate) fn writes_under(
    alloc: Global,
    store: &mut Store,
    old: &Types,
    new: &Types,
) -> Result<Vec<Write>, RetypeFault>
    ensures lawful { (m : History) → IsMachine (types_view old.now) m → store.old ≡ view m
        → IfOk result (λ v. if_compatible (types_view old.now) m (types_view new.now) ≡ Ok (types_view new.now)) }
    ensures writes { (m : History) → IsMachine (types_view old.now) m → store.old ≡ view m
        → IfOk result (λ v. map write_of v.items ≡ retyping_writes (types_view old.now) (types_view new.now) m) }
    ensures writable { IfOk result (λ v. AreWritable store.old.current (map write_of v.items)) }
    ensures refused { (m : History) → IsMachine (types_view old.now) m → store.old ≡ view m
        → IfErr result (λ e. IfSome (retype_refusal e) (λ why. if_compatible (types_view old.now) m (types_view new.now) ≡ Err why)) }
    ensures reported { IfErr result (λ e. reported_of_file e ≡ None) }
    ensures readable { AreTexts (types_view old.now) (objects_in store.old) → result ≢ Err (RetypeFault.Failed Fault.Unreadable) }
    ensures same { store.new ≡ store.old }
{
    let Ok(types) = old.change_to(new) else {
        return Err(RetypeFault::NotLawful);
    };
    let current = store.current();
    let retyper = Retyper {
        alloc,
        types,
        current,
    };
    retyper.writes(store)
}

/// Why a value that isn't read stays without effect: it is no types file, unless memory ran out.
fn file_fault(fault: TypesFault) -> RetypeFault
    ensures { result ≡ file_fault fault }
{
    match fault {
        TypesFault::Memory => RetypeFault::Failed(Fault::Memory),
        TypesFault::UnknownKeyword => RetypeFault::NotTypes(fault),
        TypesFault::UnknownType => RetypeFault::NotTypes(fault),
        TypesFault::Misfit => RetypeFault::NotTypes(fault),
        TypesFault::TooDeep => RetypeFault::NotTypes(fault),
        TypesFault::SameNames => RetypeFault::NotTypes(fault),
        TypesFault::NotTheForm => RetypeFault::NotTypes(fault),
    }
}

/// The types of a types file that are to follow others.
fn types_in(alloc: Global, file: &Value, others: &Types) -> Result<Types, RetypeFault>
    ensures types { IfOk result (λ t. declared_after (types_view others.now) (value.view file.now) ≡ Ok (types_view t)) }
    ensures refused { (served : List ServedShape) (m : History) → IfErr result (λ e. IfSome (retype_refusal e) (λ why. retyping served m (value.view file.now) ≡ Err why)) }
    ensures reported { IfErr result (λ e. IfSome (reported_of_file e) (IsFileFault (value.view file.now))) }
    ensures readable { result ≢ Err (RetypeFault.Failed Fault.Unreadable) }
{
    match Types::read(alloc, others.profile(), file) {
        Ok(types) => Ok(types),
        Err(fault) => Err(file_fault(fault)),
    }
}

/// The types of a types file that are to follow others, of whose objects nothing is cached.
pub(crate) fn catalog_in(
    alloc: Global,
    file: &Value,
    others: &Types,
) -> Result<Catalog, RetypeFault>
    ensures types { IfOk result (λ c. declared_after (types_view others.now) (value.view file.now) ≡ Ok c) }
    ensures shaped { IfOk result (λ c. All (λ t. IsObjectShape t.shape) c) }
    ensures refused { (served : List ServedShape) (m : History) → IfErr result (λ e. IfSome (retype_refusal e) (λ why. retyping served m (value.view file.now) ≡ Err why)) }
    ensures reported { IfErr result (λ e. IfSome (reported_of_file e) (IsFileFault (value.view file.now))) }
    ensures readable { result ≢ Err (RetypeFault.Failed Fault.Unreadable) }
{
    let types = types_in(alloc, file, others)?;
    types.types_are_of_objects();
    match Catalog::new(alloc, types) {
        Ok(catalog) => Ok(catalog),
        Err(_) => Err(RetypeFault::Failed(Fault::Memory)),
    }
}
