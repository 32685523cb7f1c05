//! What is written on a connection for a refusal and for a call's answer. The bytes of a reply stand in `reply`.

ghost use Rattle.std.specs.Prelude.{◌≡◌, IfOk};
ghost use Rattle.api_request.specs.Views.{answer_of, denied_of};
ghost use Rattle.requests.specs.KeptReplies.{answer_bytes_by, refusal_reply_by};
ghost use Rattle.requests.specs.Replies.{answer_bytes, refusal_reply};

use crate::persistence::Persistence;
use crate::reply::{reply_bytes_by, watch_head};
use api_request::{Answer, Denied, status_value};
use std::alloc::{AllocError, Global};

/// The bytes of a refusal's reply: its Status as compact JSON, with the status code of its reason (RFC 9110, section
/// 15).
pub fn refusal_reply_by(
    alloc: Global,
    persistence: Persistence,
    denied: Denied,
) -> Result<Vec<u8>, AllocError>
    ensures { IfOk result (λ v. v.items ≡ refusal_reply_by persistence (denied_of denied)) }
{
    let status = status_value(alloc, denied.reason, denied.message)?;
    let text = status.to_string(alloc)?;
    reply_bytes_by(
        alloc,
        persistence,
        denied.reason.code(),
        denied.allow,
        text.as_str(),
    )
}

/// The same where it is the only reply on its connection.
pub fn refusal_reply(alloc: Global, denied: Denied) -> Result<Vec<u8>, AllocError>
    ensures { IfOk result (λ v. v.items ≡ refusal_reply (denied_of denied)) }
{
    refusal_reply_by(alloc, Persistence::Last, denied)
}

/// The reply of a call's answer, or what the watch that it opens begins with.
pub fn answer_bytes_by(
    alloc: Global,
    persistence: Persistence,
    answer: &Answer,
) -> Result<Vec<u8>, AllocError>
    ensures { IfOk result (λ v. v.items ≡ answer_bytes_by persistence (answer_of answer.now) (answer_of answer.now).watch) }
{
    match &answer.watch {
        None => reply_bytes_by(
            alloc,
            persistence,
            answer.status,
            None,
            answer.body.as_str(),
        ),
        Some(_) => watch_head(alloc, persistence, answer.status),
    }
}

/// The same where it is the only answer on its connection.
pub fn answer_bytes(alloc: Global, answer: &Answer) -> Result<Vec<u8>, AllocError>
    ensures { IfOk result (λ v. v.items ≡ answer_bytes (answer_of answer.now) (answer_of answer.now).watch) }
{
    answer_bytes_by(alloc, Persistence::Last, answer)
}
