//! The plan of a call, by what is asked, which objects it is of, and what stands in the store. The checks of a call on an object
//! stand in `validating`, lists in `listing`.

ghost use Rattle.std.specs.Prelude.{◌≡◌, ◌≢◌, Err, IfOk, List, Some, slice_get};
ghost use Rattle.std.specs.FinMap as fin;
ghost use Rattle.api_types.specs.Served.{types_view};
ghost use Rattle.api_types.specs.TypesFile.{ServedShape};
ghost use Rattle.history.specs.Read.{key_of};
ghost use Rattle.api_request.specs.Calls as calls;
ghost use Rattle.verbs.specs.ExistingViews.{IsWellDecoded, object_in};
ghost use Rattle.verbs.specs.Machine.{AreTexts, IsReadable};
ghost use Rattle.verbs.specs.PlannerViews.{IsSoundPlanner, call_of_entry, type_of};
ghost use Rattle.verbs.specs.CachedStateViews.{AreCoherentFor, AreCoherentOf};
ghost use Rattle.api_request.specs.Views.{FailsWith, Returns, call_of, plan_of, scope_seen, target_of};
ghost use Rattle.verbs.specs.Views.{objects_in};
ghost use Rattle.verbs.specs.Step.{body_of, create_plan, document_plan, get_plan, key_at, plan_for, planned_over, dispatch_call, dispatch_object, dispatch_scope, dispatch_write};
ghost use Rattle.api_request.specs.Validated.{Validated, and_then, detailed};
ghost use Rattle.verbs.specs.WritePlanViews.{CachesCoherently, plan_in};
ghost use Rattle.watchline.specs.Watches.{from_view};

use crate::answering::{ok_answer, plan_for, refused_for};
use crate::cached::{PlannedStates, WritePlan};
use crate::catalog::Catalog;
use crate::dry_run::run;
use crate::existing::{Existing, existing_at};
use crate::fault::Fault;
use crate::planner::{ObjectWrite, Planner};
use crate::validating::Creation;
use api_request::{
    Call, CallError, Changes, NO_PATH, NOT_SERVED, Plan, Reason, Scope, Target, Verb,
};
use api_types::Types;
use discovery::{Document, text_in};
use history::Key;
use ownership::Subresource;
use revstore::Store;
use std::alloc::Global;

/// The plan of a write, or of its refusal, and the state that its change stores.
fn finish_write(
    alloc: Global,
    written: Result<WritePlan, CallError>,
    states: &mut PlannedStates,
) -> Result<Plan, Fault>
    ensures plan_for { (answer : Validated calls.Plan) → Returns plan_in written answer → IfOk result (λ p. plan_of p ≡ plan_for answer) }
    ensures readable { result ≢ Err Fault.Unreadable }
    ensures coherent { (t : ServedShape) → IfOk written (CachesCoherently t) → AreCoherentOf t states.old → AreCoherentOf t states.new }
{
    match written {
        Ok(WritePlan { plan, cached }) => {
            states.stored = cached;
            Ok(plan)
        }
        Err(call_error) => plan_for(alloc, Err(call_error)),
    }
}

impl Planner<'_> {
    /// The plan of a refusal of a call on the object of this name.
    fn refuse(self, name: &str, call_error: CallError) -> Result<Plan, Fault>
        ensures planned { (validated : Validated calls.Plan) → FailsWith call_error validated
            → IfOk result (λ p. plan_of p ≡ plan_for (detailed (type_of self.entry) (Some name.now) validated)) }
        ensures readable { result ≢ Err Fault.Unreadable }
    {
        let call_error = call_error.in_detail(self.alloc, self.served, Some(name));
        plan_for(self.alloc, Err(call_error))
    }

    /// A get of an object.
    fn plan_get_from(self, store: &mut Store, namespace: &str, name: &str) -> Result<Plan, Fault>
        requires { self.current ≡ store.old.current }
        ensures planned { let c = call_of_entry self.entry in let k = key_at self.entry.kind namespace.now name.now in
            IfOk result (λ p. plan_of p ≡ plan_for (detailed (type_of self.entry) (Some name.now) (get_plan (type_of self.entry) store.old.current (fin.get (objects_in store.old) k) k c.query))) }
        ensures readable { result ≢ Err Fault.Unreadable }
        ensures same { store.new ≡ store.old }
    {
        let key = self.key(namespace, name)?;
        let object = store.get(&key)?;
        match self.plan_get(&key, object) {
            Ok(plan) => Ok(plan),
            Err(call_error) => self.refuse(name, call_error),
        }
    }

    /// The checks of a write of one object.
    fn plan_write(
        self,
        key: Key,
        write: ObjectWrite,
        subresource: Subresource,
        existing: &Existing,
    ) -> Result<WritePlan, CallError>
        requires planner { IsSoundPlanner self }
        requires existing { IsWellDecoded (type_of self) existing.now }
        ensures plan { let c = call_of_entry self.entry in
            Returns plan_in result (dispatch_write write subresource (type_of self.entry) self.entry.current (object_in existing.now) (key_of key) c.query c.body) }
        ensures coherent { IfOk result (CachesCoherently (type_of self.entry)) }
    {
        match (write, subresource) {
            (ObjectWrite::Update, _) => self.plan_update(key, subresource, existing),
            (ObjectWrite::Apply, _) => self.plan_apply(key, subresource, existing),
            (ObjectWrite::Delete, Subresource::Main) => self.plan_delete(key, existing),
            (ObjectWrite::Delete, Subresource::Status) => {
                Err(CallError::refused_for(self.alloc, Reason::MethodNotAllowed, NOT_SERVED))
            }
        }
    }

    /// The same; a refusal names the object.
    fn plan_write_named(
        self,
        name: &str,
        key: Key,
        write: ObjectWrite,
        subresource: Subresource,
        existing: &Existing,
    ) -> Result<WritePlan, CallError>
        requires planner { IsSoundPlanner self }
        requires existing { IsWellDecoded (type_of self) existing.now }
        ensures plan { let c = call_of_entry self.entry in
            Returns plan_in result (detailed (type_of self.entry) (Some name.now) (dispatch_write write subresource (type_of self.entry) self.entry.current (object_in existing.now) (key_of key) c.query c.body)) }
        ensures coherent { IfOk result (CachesCoherently (type_of self.entry)) }
    {
        match self.plan_write(key, write, subresource, existing) {
            Ok(written) => Ok(written),
            Err(call_error) => Err(call_error.in_detail(self.alloc, self.served, Some(name))),
        }
    }

    /// A write of an object: it begins from the state that is cached of the text that stands, or else from that text.
    fn plan_write_from(
        self,
        store: &mut Store,
        namespace: &str,
        name: &str,
        write: ObjectWrite,
        subresource: Subresource,
        states: &mut PlannedStates,
    ) -> Result<Plan, Fault>
        requires planner { IsSoundPlanner self }
        requires current { self.current ≡ store.old.current }
        requires coherent { AreCoherentOf (type_of self) states.old }
        ensures planned { let c = call_of_entry self.entry in let k = key_at self.entry.kind namespace.now name.now in
            IfOk result (λ p. plan_of p ≡ plan_for (detailed (type_of self.entry) (Some name.now) (dispatch_write write subresource (type_of self.entry) store.old.current (fin.get (objects_in store.old) k) k c.query c.body))) }
        ensures readable { let k = key_at self.entry.kind namespace.now name.now in
            IsReadable (type_of self.entry) k (fin.get (objects_in store.old) k) → result ≢ Err Fault.Unreadable }
        ensures coherent { AreCoherentOf (type_of self.entry) states.new }
        ensures same { store.new ≡ store.old }
    {
        let key = self.key(namespace, name)?;
        let object = store.get(&key)?;
        let cached = states.standing.take();
        let existing = existing_at(self.alloc, self.served, &key, object, cached)?;
        let written = self.plan_write_named(name, key, write, subresource, &existing);
        states.standing = existing.into_cached();
        finish_write(self.alloc, written, states)
    }

    /// A creation in a namespace: the body names the object.
    fn plan_create_in(
        self,
        store: &mut Store,
        namespace: &str,
        states: &mut PlannedStates,
    ) -> Result<Plan, Fault>
        requires planner { IsSoundPlanner self }
        requires current { self.current ≡ store.old.current }
        requires coherent { AreCoherentOf (type_of self) states.old }
        ensures planned { let c = call_of_entry self.entry in
            IfOk result (λ p. plan_of p ≡ plan_for (and_then (body_of c.body) (create_plan (type_of self.entry) (from_view store.old) self.entry.kind namespace.now c.query))) }
        ensures readable { result ≢ Err Fault.Unreadable }
        ensures coherent { AreCoherentOf (type_of self.entry) states.new }
        ensures same { store.new ≡ store.old }
    {
        let Creation { key, intent } = match self.validate_creation(namespace) {
            Ok(creation) => creation,
            Err(call_error) => return plan_for(self.alloc, Err(call_error)),
        };
        let stored = store.get(&key)?;
        let plan_create_in = self.plan_created(key, stored.as_ref(), intent);
        finish_write(self.alloc, plan_create_in, states)
    }

    /// What is asked of an object, or of its status.
    fn dispatch_object(
        self,
        store: &mut Store,
        namespace: &str,
        name: &str,
        subresource: Subresource,
        verb: Verb,
        states: &mut PlannedStates,
    ) -> Result<Plan, Fault>
        requires planner { IsSoundPlanner self }
        requires current { self.current ≡ store.old.current }
        requires coherent { AreCoherentOf (type_of self) states.old }
        ensures planned { let c = call_of_entry self.entry in let k = key_at self.entry.kind namespace.now name.now in
            IfOk result (λ p. plan_of p ≡ plan_for (detailed (type_of self.entry) (Some name.now) (dispatch_object verb subresource (type_of self.entry) store.old.current (fin.get (objects_in store.old) k) k c.query c.body))) }
        ensures readable { let k = key_at self.entry.kind namespace.now name.now in
            IsReadable (type_of self.entry) k (fin.get (objects_in store.old) k) → result ≢ Err Fault.Unreadable }
        ensures coherent { AreCoherentOf (type_of self.entry) states.new }
        ensures same { store.new ≡ store.old }
    {
        let write = match verb {
            Verb::Get => return self.plan_get_from(store, namespace, name),
            Verb::Create => {
                let reason = Reason::MethodNotAllowed;
                return self.refuse(name, CallError::refused_for(self.alloc, reason, NOT_SERVED));
            }
            Verb::Update => ObjectWrite::Update,
            Verb::Apply => ObjectWrite::Apply,
            Verb::Delete => ObjectWrite::Delete,
        };
        self.plan_write_from(store, namespace, name, write, subresource, states)
    }

    /// By the objects that the call is of, and what is asked of them.
    fn dispatch_scope(
        self,
        store: &mut Store,
        scope: &Scope,
        verb: Verb,
        states: &mut PlannedStates,
    ) -> Result<Plan, Fault>
        requires planner { IsSoundPlanner self }
        requires current { self.current ≡ store.old.current }
        requires coherent { AreCoherentOf (type_of self) states.old }
        ensures planned { IfOk result (λ p. plan_of p ≡ plan_for (dispatch_scope (scope_seen scope.now) verb (type_of self.entry) self.entry.kind (from_view store.old) (call_of_entry self.entry))) }
        ensures readable { (all : List ServedShape) → slice_get all self.entry.kind ≡ Some (type_of self.entry) → AreTexts all (objects_in store.old) → result ≢ Err Fault.Unreadable }
        ensures coherent { AreCoherentOf (type_of self.entry) states.new }
        ensures same { store.new ≡ store.old }
    {
        match (scope, verb) {
            (Scope::All, Verb::Get) => self.plan_list_from(store, None),
            (Scope::Namespace(namespace), Verb::Get) => self.plan_list_from(
                store,
                Some(namespace.as_str()),
            ),
            (Scope::Namespace(namespace), Verb::Create) => self.plan_create_in(
                store,
                namespace.as_str(),
                states,
            ),
            (Scope::Object(namespace, name, subresource), verb) => self.dispatch_object(
                store,
                namespace.as_str(),
                name.as_str(),
                *subresource,
                verb,
                states,
            ),
            _ => refused_for(self.alloc, Reason::MethodNotAllowed, NOT_SERVED),
        }
    }
}

/// The plan of a call on a document of discovery.
fn plan_document(alloc: Global, types: &Types, document: Document) -> Result<Plan, Fault>
    ensures planned { IfOk result (λ p. plan_of p ≡ plan_for (document_plan (types_view types.now) document)) }
    ensures readable { result ≢ Err Fault.Unreadable }
{
    match text_in(alloc, types, document)? {
        Some(text) => Ok(Plan {
            answer: ok_answer(text, None),
            changes: Changes::None,
        }),
        None => refused_for(alloc, Reason::NotFound, NO_PATH),
    }
}

/// The plan of a call by its checks, where this is cached of the object that it is of.
fn dispatch_call(
    alloc: Global,
    all: &Types,
    store: &mut Store,
    call: &Call,
    states: &mut PlannedStates,
) -> Result<Plan, Fault>
    requires { AreCoherentFor (types_view all.now) (target_of call.now.target) states.old }
    ensures planned { IfOk result (λ p. plan_of p ≡ plan_for (dispatch_call (types_view all.now) (from_view store.old) (call_of call.now))) }
    ensures readable { AreTexts (types_view all.now) (objects_in store.old) → result ≢ Err Fault.Unreadable }
    ensures coherent { AreCoherentFor (types_view all.now) (target_of call.now.target) states.new }
    ensures same { store.new ≡ store.old }
{
    let (kind, scope, verb) = match &call.target {
        Target::Objects(kind, scope, verb) => (*kind, scope, *verb),
        Target::Document(document) => return plan_document(alloc, all, *document),
    };
    let Some(served) = all.get(kind) else {
        return refused_for(alloc, Reason::NotFound, NO_PATH);
    };
    let planner = Planner {
        alloc,
        served,
        kind,
        call,
        current: store.current(),
    };
    planner.dispatch_scope(store, scope, verb, states)
}

/// The plan of a call.
pub(crate) fn planned(
    alloc: Global,
    catalog: &mut Catalog,
    store: &mut Store,
    call: &Call,
) -> Result<Plan, Fault>
    ensures planned { IfOk result (λ p. plan_of p ≡ planned_over catalog.old (from_view store.old) (call_of call.now)) }
    ensures readable { AreTexts catalog.old (objects_in store.old) → result ≢ Err Fault.Unreadable }
    ensures types { catalog.new ≡ catalog.old }
    ensures same { store.new ≡ store.old }
{
    let mut states = PlannedStates {
        standing: catalog.take(&call.target),
        stored: None,
    };
    let dispatched = dispatch_call(alloc, catalog.types(), store, call, &mut states)?;
    let plan = run(alloc, catalog.types(), store, call, dispatched)?;
    catalog.keep(&call.target, &plan, states.after(&plan));
    Ok(plan)
}
