//! What a connection asks, by all the bytes that came on it. Checks, in order: size and form of the head, number of
//! fields, version, `Host`, request target (`read_to` of `head`); route, method, media type (`Routes::admit`); of a
//! body Transfer-Encoding and length (`declared_length` of `body`), and once it has come JSON (`body_of`).

ghost use Rattle.std.specs.Prelude.{◌≡◌, ◌≤◌, ◌+◌, ◌++◌, ℕ, List, IfOk, IfSome, drop, take, option_map};
ghost use Rattle.api_types.specs.Served.{types_view};
ghost use Rattle.api_types.specs.TypesFile.{ServedShape};
ghost use Rattle.api_request.specs.Views.{target_of};
ghost use Rattle.wire.specs.Heads.{head_end, max_head};
ghost use Rattle.requests.specs.Asks.{call_with, call_in};
ghost use Rattle.requests.specs.Bodies.{body_by, declared_body, max_body};
ghost use Rattle.requests.specs.Pendings.{Awaits, Carries, Finds, FindsAll, FindsSized, asked_of, body_call};
ghost use Rattle.requests.specs.RequestSizes.{IsSizedBy};
ghost use Rattle.requests.specs.Views.{request_in};

use crate::body::{body_of, declared_length};
use crate::decision::Decision;
use crate::head::{Head, read_to};
use crate::request_target::{checked_media, path_of, query_of};
use api_request::{AdmitFault, Call, Denied, Method, Routes, Target};
use api_types::Types;
use std::alloc::{AllocError, Global};
use wire::MAX_HEAD;

/// A request whose head has come, and whose body hasn't come whole.
#[derive(Debug, Drop)]
pub struct Pending {
    target: Target,
    query: Vec<u8>,
    agent: Option<Vec<u8>>,
    /// How many bytes the head has.
    head: usize,
    /// How many bytes the body has.
    length: usize,
}

/// What a request asks once its head has come, or is known to be too long.
#[derive(Debug, Drop)]
pub enum Progress {
    /// More bytes of its body are needed.
    Pending(Pending),
    /// It is refused before a call is made of it.
    Refused(Denied),
    /// It asks this call.
    Call(Call),
}

/// What a request asks, and how many of the connection's bytes are the request: the fewest that decide it. Those behind
/// them are no part of it.
#[derive(Debug, Drop)]
pub struct Asked {
    pub progress: Progress,
    pub size: usize,
}

/// What a request asks by what came of its body.
fn ask_body(alloc: Global, pending: Pending, rest: &[u8]) -> Result<Progress, AllocError>
    ensures asks { IfOk result (λ a. asked_of a ≡ body_call pending rest.now) }
    ensures carries { IfOk result (Carries (body_call pending) pending.head) }
{
    match body_of(alloc, pending.length, rest)? {
        Decision::Undecided => Ok(Progress::Pending(pending)),
        Decision::Refused(denied) => Ok(Progress::Refused(denied)),
        Decision::Accepted(body) => {
            let Pending {
                target,
                query,
                agent,
                head: _,
                length: _,
            } = pending;
            Ok(Progress::Call(Call {
                target,
                query,
                body,
                agent,
                ticked: 0,
            }))
        }
    }
}

/// The bytes after the first so many.
fn bytes_after(bytes: &[u8], count: usize) -> &[u8]
    ensures { result.now ≡ drop count bytes.now }
{
    if count < bytes.len() {
        &bytes[count..]
    } else {
        &[]
    }
}

/// What a connection asks by all its bytes, of which more have come; those after the head are the body's (RFC 9112,
/// section 6.3).
pub fn ask_on(alloc: Global, pending: Pending, bytes: &[u8]) -> Result<Progress, AllocError>
    ensures { (types : List ServedShape) (prefix more : List ℕ) → bytes.now ≡ prefix ++ more → Awaits types prefix pending → IfOk result (Finds types bytes.now) }
{
    let rest = bytes_after(bytes, pending.head);
    let asked = ask_body(alloc, pending, rest)?;
    Ok(asked)
}

/// What the client calls itself in a head.
fn agent_of(alloc: Global, head: &Head<'_>) -> Result<Option<Vec<u8>>, AllocError>
    ensures { IfOk result (λ o. option_map (λ a. a.items) o ≡ (request_in head.now).agent) }
{
    let Some(agent) = head.agent else {
        return Ok(None);
    };
    Ok(Some(Vec::from_slice(alloc, agent)?))
}

/// How many bytes a request has by how many its head and its body have.
fn whole_size(head: usize, body: usize) -> usize
    requires head { head ≤ max_head }
    requires body { body ≤ max_body }
    ensures { result ≡ head + body }
{
    head + body
}

/// What a request asks whose head says that its body has so many bytes, or that there is none.
fn ask_by_length(
    alloc: Global,
    target: Target,
    head: &Head<'_>,
    length: Option<usize>,
) -> Result<Asked, AllocError>
    requires head { head.now.size ≤ max_head }
    requires length { IfSome length (λ n. n ≤ max_body) }
    ensures asks { IfOk result (λ a. asked_of a.progress ≡ call_with (request_in head.now) (target_of target) (declared_body length head.now.rest.now)) }
    ensures carries { IfOk result (λ a. Carries (λ rest. call_with (request_in head.now) (target_of target) (declared_body length rest)) head.now.size a.progress) }
    ensures size { IfOk result (λ a. IsSizedBy (λ rest. call_with (request_in head.now) (target_of target) (declared_body length rest)) head.now.size a.size) }
{
    let query = Vec::from_slice(alloc, query_of(head.request_target).as_bytes())?;
    let agent = agent_of(alloc, head)?;
    match length {
        None => Ok(Asked {
            progress: Progress::Call(Call {
                target,
                query,
                body: None,
                agent,
                ticked: 0,
            }),
            size: head.size,
        }),
        Some(length) => {
            let pending = Pending {
                target,
                query,
                agent,
                head: head.size,
                length,
            };
            let progress = ask_body(alloc, pending, head.rest)?;
            Ok(Asked {
                progress,
                size: whole_size(head.size, length),
            })
        }
    }
}

/// What a request asks that was admitted to this target; one whose body is refused before it is read ends with its head.
fn ask_admitted(
    alloc: Global,
    target: Target,
    method: Option<Method>,
    head: &Head<'_>,
) -> Result<Asked, AllocError>
    requires { head.now.size ≤ max_head }
    ensures asks { IfOk result (λ a. asked_of a.progress ≡ call_with (request_in head.now) (target_of target) (body_by method (request_in head.now) head.now.rest.now)) }
    ensures carries { IfOk result (λ a. Carries (λ rest. call_with (request_in head.now) (target_of target) (body_by method (request_in head.now) rest)) head.now.size a.progress) }
    ensures size { IfOk result (λ a. IsSizedBy (λ rest. call_with (request_in head.now) (target_of target) (body_by method (request_in head.now) rest)) head.now.size a.size) }
{
    match declared_length(method, head) {
        Ok(length) => ask_by_length(alloc, target, head, length),
        Err(denied) => Ok(Asked {
            progress: Progress::Refused(denied),
            size: head.size,
        }),
    }
}

/// What a request asks that has this head; it is admitted before its body is read, and ends with its head where it
/// isn't.
fn ask_by_head(
    alloc: Global,
    routes: &Routes,
    types: &Types,
    head: &Head<'_>,
) -> Result<Asked, AllocError>
    requires { head.now.size ≤ max_head }
    ensures asks { IfOk result (λ a. asked_of a.progress ≡ call_in (types_view types.now) (request_in head.now) head.now.rest.now) }
    ensures carries { IfOk result (λ a. Carries (call_in (types_view types.now) (request_in head.now)) head.now.size a.progress) }
    ensures size { IfOk result (λ a. IsSizedBy (call_in (types_view types.now) (request_in head.now)) head.now.size a.size) }
{
    let method = Method::named(head.method);
    match routes.admit(
        alloc,
        types,
        method,
        path_of(head.request_target),
        checked_media(method, head),
    ) {
        Ok(target) => ask_admitted(alloc, target, method, head),
        Err(AdmitFault::Denied(denied)) => Ok(Asked {
            progress: Progress::Refused(denied),
            size: head.size,
        }),
        Err(AdmitFault::Memory) => Err(AllocError),
    }
}

/// What the bytes that came on a connection ask where these types are served, and how many of them are the request, by
/// how many of them the head has (`ReadBuffer::find_end`); none while more of its head is to come. A head that is too
/// long ends with the first byte too many.
pub fn ask_sized(
    alloc: Global,
    routes: &Routes,
    types: &Types,
    bytes: &[u8],
    end: Option<usize>,
) -> Result<Option<Asked>, AllocError>
    requires { end ≡ head_end (take max_head bytes.now) }
    ensures { IfOk result (λ o. FindsSized (types_view types.now) bytes.now o) }
{
    match read_to(bytes, end) {
        Decision::Undecided => Ok(None),
        Decision::Refused(denied) => Ok(Some(Asked {
            progress: Progress::Refused(denied),
            size: end.unwrap_or(MAX_HEAD + 1),
        })),
        Decision::Accepted(head) => Ok(Some(ask_by_head(alloc, routes, types, &head)?)),
    }
}

/// What the bytes that came on a connection ask where these types are served, by how many of them the head has
/// (`ReadBuffer::find_end`); none while more of its head is to come.
pub fn ask(
    alloc: Global,
    routes: &Routes,
    types: &Types,
    bytes: &[u8],
    end: Option<usize>,
) -> Result<Option<Progress>, AllocError>
    requires { end ≡ head_end (take max_head bytes.now) }
    ensures { IfOk result (λ o. FindsAll (types_view types.now) bytes.now o) }
{
    match ask_sized(alloc, routes, types, bytes, end)? {
        None => Ok(None),
        Some(asked) => Ok(Some(asked.progress)),
    }
}
