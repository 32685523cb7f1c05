//! The checks of each call on an object, in their order, and the plan of a call that passes them (Kubernetes docs, "Server-Side
//! Apply" and its "Comparison with Client-Side Apply"; "Kubernetes API Concepts", "Resource versions", "Resource deletion").
//! Each check stands by itself: those of what a call gives in the crate `api_validation`, those against what stands in
//! `presence`, `conflicts` and `preconditions` (version, revisions). A list or a watch checks its parameters, then the
//! revision, in `listing`.

ghost use Rattle.std.specs.Prelude.{◌≡◌, ◌<◌, ◌≤◌, IfOk, None, OnOk, codes, option_map, string_bytes};
ghost use Rattle.serde_json.specs.Data.{Data};
ghost use Rattle.serde_json.specs.View.{view};
ghost use Rattle.serde_json.specs.Written.{compact_text};
ghost use Rattle.schema.specs.ObjectShape.{IsObjectShape};
ghost use Rattle.api_types.specs.Served as types;
ghost use Rattle.schema.specs.Shape.{Shape};
ghost use Rattle.api_types.specs.TypesFile.{ServedShape};
ghost use Rattle.typed.specs.Fitting.{IsContent};
ghost use Rattle.objects.specs.WellTyped.{IsWellTypedState};
ghost use Rattle.objects.specs.Views.{state_of};
ghost use Rattle.history.specs.History.{last_revision};
ghost use Rattle.history.specs.Read.{key_of};
ghost use Rattle.api_request.specs.Json.{IsJson};
ghost use Rattle.verbs.specs.ExistingViews.{IsWellDecoded, IsDecoded, object_in};
ghost use Rattle.verbs.specs.Machine.{decoded_state};
ghost use Rattle.api_validation.specs.Naming.{metadata_object};
ghost use Rattle.verbs.specs.PlannerViews.{IsSoundPlanner, call_of_entry, type_of};
ghost use Rattle.verbs.specs.CachedStateViews.{IsDecodedFrom, IsSystemFrom};
ghost use Rattle.api_request.specs.Views.{Returns, plan_of};
ghost use Rattle.api_validation.specs.Views.{expected_of};
ghost use Rattle.verbs.specs.Views.{creation_seen, intent_seen, object_of};
ghost use Rattle.api_validation.specs.Size.{count_if_there};
ghost use Rattle.verbs.specs.Step.{applied_over, apply_plan, plan_without_change, at_path, body_of, created_as, creation_validated, delete_plan, deleted, get_plan, intent_of, plan_put, plan_put_text, plan_put_unless_same, update_plan, updated_by, version_reached};
ghost use Rattle.api_request.specs.Validated.{and_then};
ghost use Rattle.verbs.specs.WritePlanViews.{CachesCoherently, plan_in};

use crate::answering::{body_of, ok_answer};
use crate::cached::{WritePlan, cache_state};
use crate::existing::Existing;
use crate::listing::too_large;
use crate::planner::Planner;
use crate::preconditions::check_version;
use api_request::{Answer, CREATED, CallError, Change, Changes, OK, Plan, Verb};
use api_types::Served;
use api_validation::{
    Expected, name_in, read_config, read_parameters, require_name, validate,
    validate_labels_and_annotations_by, validate_names, validate_options, validate_size,
};
use history::{Key, Object};
use ownership::{Outcome, Owned, Subresource, update, written_over};
use params::Asked;
use serde_json::Value;
use std::alloc::{AllocError, Global};
use std::snapshot::Snapshot;
use typed::Tree;

/// What a write intends, as its body and its parameters say.
#[derive(Drop)]
pub struct Intent<'a> {
    pub version: Option<u64>,
    /// Of it only what the subresource writes counts.
    pub content: Tree,
    pub manager: String,
    pub subresource: Subresource,
    pub is_forced: bool,
    /// The body, whose labels and annotations are checked next.
    pub body: &'a Value,
}

/// A creation: the object that the body names, and what is intended.
#[derive(Drop)]
pub struct Creation<'a> {
    pub key: Key,
    pub intent: Intent<'a>,
}

/// A write to the path of an object names that object.
fn at_path<'a>(
    served: &'a Served,
    key: &'a Key,
    verb: Verb,
    subresource: Subresource,
) -> Expected<'a>
    ensures { expected_of result ≡ at_path (types.served served.now) (key_of key.now) verb subresource }
{
    Expected {
        served,
        namespace: key.namespace.as_str(),
        name: Some(key.name.as_str()),
        verb,
        subresource,
    }
}

impl<'a> Planner<'a> {
    /// What a write intends. Checks, in order: envelope, shape, parameters.
    fn intent_of(
        self,
        expected: Expected<'_>,
        asked: Asked,
        body: &'a Value,
    ) -> Result<Intent<'a>, CallError>
        requires { IsJson (view body.now) }
        ensures { Returns intent_seen result (intent_of (expected_of expected.entry) asked (call_of_entry self.entry).query (view body.now)) }
    {
        let version = validate(self.alloc, body, expected)?;
        let content = read_config(self.alloc, expected.served, body)?;
        let params = read_parameters(self.alloc, expected.served, asked, &self.call.query)?;
        Ok(Intent {
            version,
            content,
            manager: params.manager,
            subresource: expected.subresource,
            is_forced: params.is_forced,
            body,
        })
    }

    /// The plan that stores the object of this text, which has so many labels. Checks, in order: number of labels, size, revisions
    /// left.
    fn plan_put_text(
        self,
        key: Key,
        status: u16,
        text: String,
        labels: usize,
    ) -> Result<Plan, CallError>
        requires numbered { self.current ≤ last_revision }
        ensures plan { (object : Data) → string_bytes text ≡ compact_text object → labels ≡ count_if_there (metadata_object (codes "labels") object)
            → Returns plan_of result (plan_put_text object self.entry.current (key_of key) status) }
        ensures text { IfOk result (λ p. string_bytes p.answer.body ≡ string_bytes text) }
        ensures left { OnOk result (self.entry.current < last_revision) }
    {
        validate_size(self.alloc, labels, text.as_str())?;
        self.check_revisions()?;
        let change = Change {
            revision: self.current + 1,
            key,
            text: Some(Snapshot::of(&text)),
        };
        Ok(Plan {
            answer: Answer {
                status,
                body: text,
                watch: None,
            },
            changes: Changes::Answered(change),
        })
    }

    /// The plan that stores a state, with the next revision.
    fn plan_put(self, key: Key, status: u16, owned: &Owned) -> Result<Plan, CallError>
        requires planner { IsSoundPlanner self }
        requires well_typed { IsWellTypedState (type_of self).shape (state_of owned.now) }
        ensures plan { Returns plan_of result (plan_put (type_of self.entry) self.entry.current (key_of key) status (state_of owned.now)) }
        ensures says { IfOk result (λ p. IsDecodedFrom (type_of self.entry) (string_bytes p.answer.body) (state_of owned.now)) }
        ensures system { IfOk result (λ p. IsSystemFrom (type_of self.entry) (string_bytes p.answer.body) None) }
    {
        let (text, labels) = self.printed(&key, self.current + 1, owned)?;
        self.plan_put_text(key, status, text, labels)
    }

    /// The plan that stores a state, and the state under the text that is stored, which is cached.
    fn plan_put_cached(self, key: Key, status: u16, owned: Owned) -> Result<WritePlan, CallError>
        requires planner { IsSoundPlanner self }
        requires well_typed { IsWellTypedState (type_of self).shape (state_of owned) }
        ensures plan { Returns plan_in result (plan_put (type_of self.entry) self.entry.current (key_of key) status (state_of owned)) }
        ensures coherent { IfOk result (CachesCoherently (type_of self.entry)) }
    {
        let plan = self.plan_put(key, status, &owned)?;
        let cached = cache_state(&plan.answer.body, owned, None);
        Ok(WritePlan { plan, cached })
    }

    /// The plan of a creation, or of a change of what stands. Checks, in order: whether anything changes of the state before (where
    /// nothing does, what stands is answered), number of labels and size, revisions left.
    fn plan_put_unless_same(
        self,
        key: Key,
        existing: &Existing,
        owned: Owned,
    ) -> Result<WritePlan, CallError>
        requires planner { IsSoundPlanner self }
        requires well_typed { IsWellTypedState (type_of self).shape (state_of owned) }
        requires said { IsDecoded (type_of self) existing.now }
        ensures plan { Returns plan_in result (plan_put_unless_same (type_of self.entry) self.entry.current (key_of key) (object_in existing.now) (state_of owned)) }
        ensures coherent { IfOk result (CachesCoherently (type_of self.entry)) }
    {
        match written_over(&owned, existing.before()) {
            Outcome::Created => self.plan_put_cached(key, CREATED, owned),
            Outcome::Configured => self.plan_put_cached(key, OK, owned),
            Outcome::Unchanged => match &existing.object {
                Some(object) => Ok(unchanged(object)?),
                None => unreachable!(),
            },
        }
    }

    /// Checks, in order: whether the object of a status is there, version, conflicts, those of `plan_put_unless_same`.
    fn applied_over(
        self,
        key: Key,
        existing: &Existing,
        intent: Intent<'_>,
    ) -> Result<WritePlan, CallError>
        requires planner { IsSoundPlanner self }
        requires content { IsContent (type_of self).shape intent.content }
        requires existing { IsWellDecoded (type_of self) existing.now }
        ensures plan { Returns plan_in result (applied_over (type_of self.entry) self.entry.current (key_of key) (object_in existing.now) (intent_seen intent.entry)) }
        ensures coherent { IfOk result (CachesCoherently (type_of self.entry)) }
    {
        self.check_object_of_status(intent.subresource, &key, existing.object.as_ref())?;
        check_version(self.alloc, intent.version, existing.object.as_ref())?;
        let owned = self.applied(&existing.state, intent)?;
        self.plan_put_unless_same(key, existing, owned)
    }

    /// An apply over what stands. Checks, in order: that there is a body, those of `intent_of`, names with labels and annotations,
    /// those of `applied_over`.
    pub(crate) fn plan_apply(
        self,
        key: Key,
        subresource: Subresource,
        existing: &Existing,
    ) -> Result<WritePlan, CallError>
        requires planner { IsSoundPlanner self }
        requires existing { IsWellDecoded (type_of self) existing.now }
        ensures plan { let c = call_of_entry self.entry in
            Returns plan_in result (and_then (body_of c.body) (apply_plan subresource (type_of self.entry) self.entry.current (object_in existing.now) (key_of key) c.query)) }
        ensures coherent { IfOk result (CachesCoherently (type_of self.entry)) }
    {
        let body = body_of(self.alloc, self.call)?;
        let expected = at_path(self.served, &key, Verb::Apply, subresource);
        let intent = self.intent_of(expected, Asked::Apply, body)?;
        validate_names(self.alloc, intent.subresource, &key, intent.body)?;
        self.applied_over(key, existing, intent)
    }

    /// An update of an object that is there. Checks, in order: that there is a body, those of `intent_of`, labels and annotations,
    /// whether the object is there, version, those of `plan_put_unless_same`.
    pub(crate) fn plan_update(
        self,
        key: Key,
        subresource: Subresource,
        existing: &Existing,
    ) -> Result<WritePlan, CallError>
        requires planner { IsSoundPlanner self }
        requires existing { IsWellDecoded (type_of self) existing.now }
        ensures plan { let c = call_of_entry self.entry in
            Returns plan_in result (and_then (body_of c.body) (update_plan subresource (type_of self.entry) self.entry.current (object_in existing.now) (key_of key) c.query)) }
        ensures coherent { IfOk result (CachesCoherently (type_of self.entry)) }
    {
        let body = body_of(self.alloc, self.call)?;
        let expected = at_path(self.served, &key, Verb::Update, subresource);
        let intent = self.intent_of(expected, Asked::Put, body)?;
        validate_labels_and_annotations_by(self.alloc, intent.subresource, intent.body)?;
        let Some(object) = &existing.object else {
            return Err(self.not_found(&key));
        };
        check_version(self.alloc, intent.version, Some(object))?;
        let owned = updated_by(self.alloc, self.served, intent, &existing.state)?;
        self.plan_put_unless_same(key, existing, owned)
    }

    /// The object that a creation is of, and what it intends: the call's body names the object. Checks, in order: that there is a
    /// body, those of `intent_of`, that there is a name. `plan_created` goes on.
    pub(crate) fn validate_creation(self, namespace: &str) -> Result<Creation<'a>, CallError>
        requires planner { IsSoundPlanner self }
        ensures validated { let c = call_of_entry self.entry in
            Returns creation_seen result (and_then (body_of c.body) (creation_validated (type_of self.entry) self.entry.kind namespace.now c.query)) }
        ensures content { IfOk result (λ c. IsContent (type_of self.entry).shape c.intent.content) }
    {
        let body = body_of(self.alloc, self.call)?;
        let expected = Expected {
            served: self.served,
            namespace,
            name: None,
            verb: Verb::Create,
            subresource: Subresource::Main,
        };
        let intent = self.intent_of(expected, Asked::Post, body)?;
        let name = require_name(self.alloc, name_in(body))?;
        let key = self.key(namespace, name)?;
        Ok(Creation { key, intent })
    }

    /// A creation, of an object that isn't there. Checks, in order: names with labels and annotations, that no object is there,
    /// number of labels and size, revisions left.
    pub(crate) fn plan_created(
        self,
        key: Key,
        existing: Option<&Object>,
        intent: Intent<'_>,
    ) -> Result<WritePlan, CallError>
        requires planner { IsSoundPlanner self }
        requires content { IsContent (type_of self).shape intent.content }
        ensures plan { Returns plan_in result (created_as (type_of self.entry) self.entry.current (option_map (λ o. object_of o.now) existing.entry) (key_of key) (intent_seen intent.entry)) }
        ensures coherent { IfOk result (CachesCoherently (type_of self.entry)) }
    {
        validate_names(self.alloc, intent.subresource, &key, intent.body)?;
        if existing.is_some() {
            return Err(self.already_exists(&key));
        }
        let owned = updated_by(self.alloc, self.served, intent, &Owned::empty(self.alloc))?;
        self.plan_put_cached(key, CREATED, owned)
    }

    /// The object's last state, with the deletion's revision.
    fn deleted(self, key: Key, existing: &Object, state: &Owned) -> Result<WritePlan, AllocError>
        requires numbered { self.current < last_revision }
        requires shaped { IsObjectShape (type_of self).shape }
        requires content { IsContent (type_of self).shape state.now.tree }
        requires said { state_of state.now ≡ decoded_state (type_of self).shape (object_of existing.now).body }
        ensures plan { IfOk result (λ w. plan_in w ≡ deleted (type_of self.entry) self.entry.current (key_of key) (object_of existing.now)) }
        ensures coherent { (t : ServedShape) → IfOk result (CachesCoherently t) }
    {
        let revision = self.current + 1;
        let (body, _) = self.printed(&key, revision, state)?;
        let change = Change {
            revision,
            key,
            text: None,
        };
        Ok(WritePlan {
            plan: Plan {
                answer: ok_answer(body, None),
                changes: Changes::Answered(change),
            },
            cached: None,
        })
    }

    /// A deletion. Checks, in order: the body's options, parameters, whether the object is there, version, revisions left. Nothing is
    /// stored, so no size is validated.
    pub(crate) fn plan_delete(self, key: Key, existing: &Existing) -> Result<WritePlan, CallError>
        requires planner { IsSoundPlanner self }
        requires existing { IsWellDecoded (type_of self) existing.now }
        ensures plan { let c = call_of_entry self.entry in
            Returns plan_in result (delete_plan (type_of self.entry) self.entry.current (object_in existing.now) (key_of key) c.query c.body) }
        ensures coherent { IfOk result (CachesCoherently (type_of self.entry)) }
    {
        let version = validate_options(self.alloc, self.served, self.call.body.as_ref())?;
        read_parameters(self.alloc, self.served, Asked::Delete, &self.call.query)?;
        let Some(object) = &existing.object else {
            return Err(self.not_found(&key));
        };
        check_version(self.alloc, version, Some(object))?;
        self.check_revisions()?;
        Ok(self.deleted(key, object, &existing.state)?)
    }

    /// The version that is asked for has come.
    fn check_version_reached(self, version: Option<u64>) -> Result<(), CallError>
        ensures { Returns (λ u. u) result (version_reached version self.entry.current) }
    {
        match version {
            None => Ok(()),
            Some(asked) if asked <= self.current => Ok(()),
            Some(asked) => Err(too_large(self.alloc, asked, self.current)),
        }
    }

    /// A get: the object as it stands. Checks, in order: parameters, whether the object is there, version.
    pub(crate) fn plan_get(self, key: &Key, object: Option<Object>) -> Result<Plan, CallError>
        ensures { Returns plan_of result (get_plan (type_of self.entry) self.entry.current (option_map object_of object) (key_of key.now) (call_of_entry self.entry).query) }
    {
        let params = read_parameters(self.alloc, self.served, Asked::Get, &self.call.query)?;
        let Some(object) = object else {
            return Err(self.not_found(key));
        };
        self.check_version_reached(params.version)?;
        Ok(Plan {
            answer: ok_answer(object.body, None),
            changes: Changes::None,
        })
    }
}

/// The plan that answers what stands and changes nothing. The text is copied, since what stands is cached.
fn unchanged(existing: &Object) -> Result<WritePlan, AllocError>
    ensures plan { IfOk result (λ w. plan_in w ≡ plan_without_change (object_of existing.now)) }
    ensures coherent { (t : ServedShape) → IfOk result (CachesCoherently t) }
{
    let body = existing.body.clone()?;
    Ok(WritePlan {
        plan: Plan {
            answer: ok_answer(body, None),
            changes: Changes::None,
        },
        cached: None,
    })
}

/// What stands after the write, over what stood: its manager owns what it changed.
fn updated_by(
    alloc: Global,
    served: &Served,
    intent: Intent<'_>,
    existing: &Owned,
) -> Result<Owned, AllocError>
    ensures state { IfOk result (λ o. state_of o ≡ updated_by (types.served served.now) (intent_seen intent.entry) (state_of existing.now)) }
    ensures well_typed { (s : Shape) → IsContent s intent.entry.content → IsWellTypedState s (state_of existing.now) → IfOk result (λ o. IsWellTypedState s (state_of o)) }
{
    let Intent {
        content,
        manager,
        subresource,
        ..
    } = intent;
    let is_apart = served.is_apart();
    update(
        alloc,
        existing,
        manager.as_str(),
        is_apart,
        subresource,
        content,
    )
}
