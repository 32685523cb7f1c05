//! Makes a call, and says what is written of its answer. The bytes stand in the crate `requests`.

ghost use Rattle.std.specs.Prelude.{List, IfOk, OnErr, option_map};
ghost use Rattle.api_types.specs.TypesFile.{ServedShape};
ghost use Rattle.history.specs.History.{History};
ghost use Rattle.api_request.specs.Views.{call_of};
ghost use Rattle.verbs.specs.Views.{ApiRepresents};
ghost use Rattle.httpedge.specs.CallReplyViews.{Serves};
ghost use Rattle.answers.specs.Views.{watch_from};

use answers::WatchFrom;
use api_request::Call;
use requests::answer_bytes;
use std::alloc::Global;
use verbs::{Api, Fault};

/// What is written of an answer, and the watch that it opens.
#[derive(Debug, Drop)]
pub(crate) struct CallReply {
    /// The reply, or what a watch begins with.
    pub bytes: Vec<u8>,
    /// The status that it begins with.
    pub status: u16,
    /// The watch, whose lines are written later.
    pub watch: Option<WatchFrom>,
}

/// Makes a call: what is written of its answer is there before its changes are made.
pub(crate) fn serve(alloc: Global, api: &mut Api, call: &Call) -> Result<CallReply, Fault>
    ensures ok { (types : List ServedShape) (m : History) → ApiRepresents api.old types m
        → IfOk result (λ v. Serves types m (call_of call.now) v.bytes.items v.status (option_map watch_from v.watch) api.new) }
    ensures err { (types : List ServedShape) (m : History) → ApiRepresents api.old types m → OnErr result (ApiRepresents api.new types m) }
{
    let plan = api.plan(call)?;
    let bytes = answer_bytes(alloc, &plan.answer)?;
    api.commit(&plan)?;
    Ok(CallReply {
        bytes,
        status: plan.answer.status,
        watch: plan.answer.watch,
    })
}
