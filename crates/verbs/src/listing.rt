//! Lists and watches, and the refusals of a revision that they share with a get (Kubernetes docs, "Kubernetes API Concepts",
//! "Retrieving large results sets in chunks", "Efficient detection of changes", "410 Gone responses"). The page is cut in the crate
//! `lists`, and a watch begins in `watchline`.

ghost use Rattle.std.specs.Prelude.{◌≡◌, ◌≢◌, Err, IfOk, option_map};
ghost use Rattle.std.specs.declared.result.Result.{Result};
ghost use Rattle.params.specs.Views.{values_of};
ghost use Rattle.lists.specs.Views as views;
ghost use Rattle.lists.specs.declared.refusal.Refusal.{Refusal};
ghost use Rattle.api_request.specs.declared.reason.Reason.TheVariants.{Timeout};
ghost use Rattle.api_request.specs.Calls as calls;
ghost use Rattle.verbs.specs.PlannerViews.{call_of_entry, type_of};
ghost use Rattle.api_request.specs.Views.{Refuses, RefusesFor, answer_of, plan_of};
ghost use Rattle.watchline.specs.Watches.{from_view};
ghost use Rattle.verbs.specs.Step.{list_answered, list_refusal, list_plan, plan_for, shown_by, too_large_message};

use crate::answering::{ok_answer, plan_for};
use crate::fault::Fault;
use crate::planner::Planner;
use api_request::{Answer, CallError, Changes, Plan, Reason};
use api_validation::{api_version_of, read_parameters};
use lists::{Collection, ListFault, Refusal, list};
use params::{Asked, Params};
use revstore::Store;
use std::alloc::Global;
use watchline::{expired_message, start_watch};

/// The refusal of a version that hasn't come.
pub(crate) fn too_large(alloc: Global, asked: u64, current: u64) -> CallError
    ensures { RefusesFor result Timeout (too_large_message asked current) }
{
    let message = format!(in alloc; "Too large resource version: {asked}, current: {current}");
    CallError::reported(alloc, Reason::Timeout, message)
}

/// Why there is no list of a revision, or no watch from it on.
fn list_refusal(alloc: Global, refusal: Refusal) -> CallError
    ensures { Refuses result (list_refusal refusal) }
{
    match refusal {
        Refusal::Expired(asked, compacted) => {
            let message = expired_message(alloc, asked, compacted);
            CallError::reported(alloc, Reason::Expired, message)
        }
        Refusal::TooLarge(asked, current) => too_large(alloc, asked, current),
    }
}

/// Why there is neither a list nor a watch: a refusal is answered.
fn list_failed(alloc: Global, fault: ListFault) -> Result<Plan, Fault>
    ensures planned { (answer : Result calls.Answer Refusal) → views.FailsWith fault answer → IfOk result (λ p. plan_of p ≡ plan_for (list_answered answer)) }
    ensures readable { result ≢ Err Fault.Unreadable }
{
    match fault {
        ListFault::Refused(refusal) => plan_for(alloc, Err(list_refusal(alloc, refusal))),
        ListFault::Failed(revtable::Fault::Memory) => Err(Fault::Memory),
        ListFault::Failed(revtable::Fault::Store) => Err(Fault::Store),
    }
}

/// A watch where the parameters ask for one, whose lines come after its answer, and else a page.
fn answered(
    alloc: Global,
    store: &mut Store,
    of: Collection<'_>,
    params: Params,
) -> Result<Answer, ListFault>
    ensures answered { views.Returns answer_of result (shown_by (from_view store.old) (views.collection_of of.entry) (values_of params) (values_of params).watch) }
    ensures same { store.new ≡ store.old }
{
    let watch = params.watch;
    match watch {
        Some(watch) => {
            let from = start_watch(alloc, store, of, params, watch)?;
            Ok(ok_answer(String::new(alloc), Some(from)))
        }
        None => Ok(ok_answer(list(alloc, store, of, &params)?, None)),
    }
}

impl Planner<'_> {
    /// A list of a namespace, or of all, or a watch of these. Checks, in order: parameters, the revision.
    pub(crate) fn plan_list_from(
        self,
        store: &mut Store,
        namespace: Option<&str>,
    ) -> Result<Plan, Fault>
        ensures planned { let c = call_of_entry self.entry in
            IfOk result (λ p. plan_of p ≡ plan_for (list_plan (type_of self.entry) (from_view store.old) self.entry.kind (option_map (λ s. s.now) namespace.entry) c.query)) }
        ensures readable { result ≢ Err Fault.Unreadable }
        ensures same { store.new ≡ store.old }
    {
        let params = match read_parameters(self.alloc, self.served, Asked::List, &self.call.query) {
            Ok(params) => params,
            Err(call_error) => return plan_for(self.alloc, Err(call_error)),
        };
        let api_version = api_version_of(self.alloc, self.served)?;
        let of = Collection {
            kind: self.kind,
            namespace,
            api_version: api_version.as_str(),
            item_kind: self.served.kind.as_str(),
        };
        match answered(self.alloc, store, of, params) {
            Ok(answer) => Ok(Plan {
                answer,
                changes: Changes::None,
            }),
            Err(fault) => list_failed(self.alloc, fault),
        }
    }
}
