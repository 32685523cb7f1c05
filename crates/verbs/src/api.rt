//! The API over the store. Calls are planned in `plans`, and changes are written in `writing`.

ghost use Rattle.std.specs.Prelude.{◌≡◌, ◌≢◌, ◌≤◌, Err, IfOk};
ghost use Rattle.history.specs.History.{fresh, last_revision};
ghost use Rattle.history.specs.View.{view};

use crate::catalog::Catalog;
use crate::fault::{Fault, RetypeFault};
use crate::plans::planned;
use crate::retyping::{catalog_in, writes_under};
use crate::watching::bookmarked;
use crate::writing::{write_all, write_change, write_each};
use api_request::{AdmitFault, Call, Changes, Method, Plan, Routes, Target};
use api_types::Types;
use lists::LabelCache;
use revstore::{CompactFault, Store};
use revtable::Table;
use serde_json::Value;
use std::alloc::Global;
use watchline::{Pumped, WatchCursor, watches_by_views};

/// The routes, and a store without an object at this revision.
fn opened(alloc: Global, revision: u64) -> Result<(Routes, Store), Fault>
    requires from { 1 ≤ revision }
    requires to { revision ≤ last_revision }
    ensures store { IfOk result (λ p. p.1 ≡ view (fresh revision)) }
    ensures readable { result ≢ Err Fault.Unreadable }
{
    let routes = Routes::new(alloc)?;
    let table = Table::open_at(alloc, revision)?;
    Ok((routes, Store::new(table)))
}

/// The API over a store of its objects' texts.
pub struct Api {
    alloc: Global,
    catalog: Catalog,
    routes: Routes,
    store: Store,
    /// The labels of texts that watches have read, so that the next watch of a change need not read its text.
    labels: LabelCache,
}

// It is written out, so that what holds an API does not prove again how each part is dropped.
impl Drop for Api {
    fn drop(self) {
        let Api {
            alloc: _,
            catalog: _,
            routes: _,
            store: _,
            labels: _,
        } = self;
    }
}

impl Api {
    ghost use Rattle.std.specs.Prelude.{◌≡◌, ◌≢◌, ◌↔◌, ◌<◌, ◌≤◌, List, Ok, Err, IfErr, IfOk, IfSome, None, OnOk, OnErr, false, option_map};
    ghost use Rattle.api_types.specs.Served as types;
    ghost use Rattle.api_types.specs.Served.{types_view};
    ghost use Rattle.api_types.specs.TypesFile.{ServedShape};
    ghost use Rattle.api_request.specs.Admit.{admitted};
    ghost use Rattle.history.specs.History.{History, compacted_to, fresh, last_revision};
    ghost use Rattle.verbs.specs.Machine.{AreNext, after};
    ghost use Rattle.serde_json.specs.View as value;
    ghost use Rattle.verbs.specs.Retyping.{retyped, retyping};
    ghost use Rattle.api_request.specs.Views.{Admits, call_of, plan_of};
    ghost use Rattle.verbs.specs.Views.{ComeNext, IsFileFault, ApiRepresents, retype_refusal, reported_of_file, types_of};
    ghost use Rattle.verbs.specs.Step.{planned};
    ghost use Rattle.verbs.specs.Watching.{bookmarked_in};
    ghost use Rattle.watchline.specs.Views.{bookmark_turn, turn_of};
    ghost use Rattle.watchline.specs.Watches.{from_history, is_bookmark_due, pumped};

    /// An API without objects, at revision 1.
    pub fn new(alloc: Global, types: Types) -> Result<Api, Fault>
        ensures represents { IfOk result (λ api. ApiRepresents api (types_view types) (fresh 1)) }
        ensures readable { result ≢ Err Fault.Unreadable }
    {
        Api::new_at(alloc, types, 1)
    }

    /// An API without objects whose current revision is this one, from 1 to 9223372036854775807.
    pub fn new_at(alloc: Global, types: Types, revision: u64) -> Result<Api, Fault>
        requires from { 1 ≤ revision }
        requires to { revision ≤ last_revision }
        ensures represents { IfOk result (λ api. ApiRepresents api (types_view types) (fresh revision)) }
        ensures readable { result ≢ Err Fault.Unreadable }
    {
        types.types_are_of_objects();
        let (routes, store) = opened(alloc, revision)?;
        let catalog = Catalog::new(alloc, types)?;
        Ok(Api {
            alloc,
            catalog,
            routes,
            store,
            labels: LabelCache::new(alloc),
        })
    }

    /// The types that it serves.
    pub fn types(&self) -> &Types
        ensures { types_view result.now ≡ types_of self.now }
    {
        self.catalog.types()
    }

    /// The routes to the objects of all types.
    pub fn routes(&self) -> &Routes {
        &self.routes
    }

    /// What a request asks, by its method, its path and the value of its `Content-Type`: the route is validated first,
    /// then the method, then the media type.
    pub fn admit(
        &self,
        method: Option<Method>,
        path: &str,
        media: Option<&[u8]>,
    ) -> Result<Target, AdmitFault>
        ensures { Admits result (admitted (types_of self.now) method path.now (option_map (λ b. b.now) media.entry)) }
    {
        self.routes
            .admit(self.alloc, self.catalog.types(), method, path, media)
    }

    /// The plan of a call: its answer, and the changes that it makes. It changes nothing.
    pub fn plan(&mut self, call: &Call) -> Result<Plan, Fault>
        ensures planned { (types : List ServedShape) (m : History) → ApiRepresents self.old types m
            → IfOk result (λ p. plan_of p ≡ planned types m (call_of call.now)) }
        ensures next { (types : List ServedShape) (m : History) → ApiRepresents self.old types m
            → IfOk result (λ p. AreNext types m (plan_of p).changes) }
        ensures comes { IfOk result (λ p. ComeNext self.new (plan_of p).changes) }
        ensures readable { (types : List ServedShape) (m : History) → ApiRepresents self.old types m → result ≢ Err Fault.Unreadable }
        ensures same { (types : List ServedShape) (m : History) → ApiRepresents self.old types m → ApiRepresents self.new types m }
        ensures unchanged { self.new ≡ self.old }
    {
        planned(self.alloc, &mut self.catalog, &mut self.store, call)
    }

    /// Makes the changes of a plan, one after the other: a plan of what stands now. On an error nothing is changed.
    pub fn commit(&mut self, plan: &Plan) -> Result<(), Fault>
        requires { ComeNext self.old (plan_of plan.now).changes }
        ensures ok { (types : List ServedShape) (m : History) → ApiRepresents self.old types m → AreNext types m (plan_of plan.now).changes
            → OnOk result (ApiRepresents self.new types (after m (plan_of plan.now).changes)) }
        ensures err { (types : List ServedShape) (m : History) → ApiRepresents self.old types m → OnErr result (ApiRepresents self.new types m) }
        ensures readable { result ≢ Err Fault.Unreadable }
        ensures unchanged { OnErr result (self.new ≡ self.old) }
    {
        let text = plan.answer.body.as_str();
        match &plan.changes {
            Changes::None => Ok(()),
            Changes::Answered(change) => write_change(&mut self.store, change, text),
            Changes::Each(writes) => write_each(&mut self.store, writes),
        }
    }

    /// The next lines of a watch, at most `max`. On an error the cursor stays; nothing else changes in any case.
    pub fn pump(&mut self, cursor: &mut WatchCursor, max: usize) -> Result<Pumped, Fault>
        ensures pumped { (types : List ServedShape) (m : History) → ApiRepresents self.old types m
            → IfOk result (λ p. turn_of p cursor.new ≡ pumped (from_history m) max cursor.old) }
        ensures err { OnErr result (cursor.new ≡ cursor.old) }
        ensures readable { result ≢ Err Fault.Unreadable }
        ensures same { (types : List ServedShape) (m : History) → ApiRepresents self.old types m → ApiRepresents self.new types m }
        ensures unchanged { self.new ≡ self.old }
    {
        watches_by_views();
        Ok(cursor.pump(&mut self.labels, &mut self.store, max)?)
    }

    /// The line of a bookmark, where one is due: the version up to which the watch has told all. On an error the
    /// cursor stays; it needs no memory where none is due.
    pub fn bookmark(&self, cursor: &mut WatchCursor) -> Result<Option<String>, Fault>
        ensures bookmarked { (types : List ServedShape) (m : History) → ApiRepresents self.now types m
            → IfOk result (λ o. bookmark_turn o cursor.new ≡ bookmarked_in types cursor.old) }
        ensures err { OnErr result (cursor.new ≡ cursor.old) }
        ensures needs { is_bookmark_due cursor.old ≡ false → result ≡ Ok None }
        ensures readable { result ≢ Err Fault.Unreadable }
    {
        bookmarked(self.alloc, self.catalog.types(), cursor)
    }

    /// Forgets what no answer from this revision on can show. The revision may be any from the compacted number to the current
    /// one.
    pub fn compact(&mut self, revision: u64) -> Result<(), CompactFault>
        ensures ok { (types : List ServedShape) (m : History) → ApiRepresents self.old types m → OnOk result (ApiRepresents self.new types (compacted_to revision m)) }
        ensures expired { (types : List ServedShape) (m : History) → ApiRepresents self.old types m → (result ≡ Err CompactFault.Expired) ↔ (revision < m.compacted) }
        ensures too_large { (types : List ServedShape) (m : History) → ApiRepresents self.old types m → (result ≡ Err CompactFault.TooLarge) ↔ (m.current < revision) }
        ensures err { (types : List ServedShape) (m : History) → ApiRepresents self.old types m → OnErr result (ApiRepresents self.new types m) }
        ensures unchanged { OnErr result (self.new ≡ self.old) }
    {
        self.store.compact(revision)
    }

    /// Serves other types from here on, those of a types file: what is said of each may differ in sets, map lists and granular
    /// maps that have become atomic, and in nothing else. Each object whose text changes gets the next revision, in the order
    /// of types, namespaces and names. Discovered types stay discovered. Refused, or out of memory, it changes nothing.
    pub fn retype(&mut self, file: &Value) -> Result<(), RetypeFault>
        ensures ok { (types : List ServedShape) (m : History) → ApiRepresents self.old types m
            → OnOk result ((next_types : List ServedShape) × (retyping types m (value.view file.now) ≡ Ok next_types) × ApiRepresents self.new next_types (retyped types next_types m)) }
        ensures refused { (types : List ServedShape) (m : History) → ApiRepresents self.old types m
            → IfErr result (λ e. IfSome (retype_refusal e) (λ why. retyping types m (value.view file.now) ≡ Err why)) }
        ensures err { (types : List ServedShape) (m : History) → ApiRepresents self.old types m → OnErr result (ApiRepresents self.new types m) }
        ensures reported { IfErr result (λ e. IfSome (reported_of_file e) (IsFileFault (value.view file.now))) }
        ensures readable { (types : List ServedShape) (m : History) → ApiRepresents self.old types m → result ≢ Err (RetypeFault.Failed Fault.Unreadable) }
        ensures unchanged { OnErr result (self.new ≡ self.old) }
    {
        let old = self.catalog.types();
        let catalog = catalog_in(self.alloc, file, old)?;
        let new = catalog.types();
        let writes = writes_under(self.alloc, &mut self.store, old, new)?;
        write_all(&mut self.store, &writes)?;
        self.catalog = catalog;
        Ok(())
    }

    /// The current revision and the compacted number.
    pub fn marks(&self) -> Result<(u64, u64), Fault>
        ensures { (types : List ServedShape) (m : History) → ApiRepresents self.now types m → result ≡ Ok (m.current, m.compacted) }
    {
        Ok((self.store.current(), self.store.compacted()))
    }
}
