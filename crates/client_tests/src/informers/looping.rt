//! What a caller of an informer writes who catches up over connections that are dialled: `docs/CLIENT.md` has it. The
//! connections are those of `mirrors`.

use crate::cached::By;
use crate::informers::mirrors::Server;
use crate::informers::playing::expect_rows;
use mirroring::{Dial, sync};
use reflector::Informer;
use std::alloc::Global;
use std::test::Fail;
use summary::Summary;

/// So many connections, until the informer has this version, and what the notices tell. Answers whether it is there.
fn catch_up<D: Dial>(
    alloc: Global,
    server: &mut D,
    informer: &mut Informer<By>,
    summary: &mut Summary,
    written: u64,
    turns: u64,
) -> Result<bool, Fail> {
    let is_there = sync(alloc, server, informer, written, turns).map_err(|_| "no connection")?;
    let notices = informer.take_notices();
    for notice in notices.iter() {
        summary.note(notice)?;
    }
    Ok(is_there)
}

/// The revision that is reported after each of these connections, and where the caller waits.
pub fn followed(
    alloc: Global,
    server: &mut Server,
    informer: &mut Informer<By>,
    summary: &mut Summary,
    turns: u64,
) -> Result<String, Fail> {
    let mut text = String::new(alloc);
    for _ in 0..turns {
        // One connection, to its end.
        catch_up(alloc, server, informer, summary, u64::MAX, 1)?;
        if let Some(revision) = informer.revision() {
            text.push_str(format!(in alloc; "at {revision};")?.as_str())?;
        }
        if let Some(relist_reason) = informer.relist_reason() {
            text.push_str(format!(in alloc; "{relist_reason}: waits;")?.as_str())?;
        }
    }
    Ok(text)
}

/// A refusal and a line that doesn't fit are told, once each, and end their connections, though these stay open; a cut
/// and an end are not.
#[test]
fn a_caller_waits_where_a_reply_is_given_up(rt: HostRuntime) -> Result<(), Fail> {
    let rows = "a_caller_waits_where_a_reply_is_given_up\n\
        follow 7 status 400 Bad Request|page 4 - w1@2,web w2@3,db|watch;line MODIFIED w1@5,db;line BOOKMARK 4;line ADDED w3@9\
        |status 503 Service Unavailable|page 6 - w1@5,db w2@3,db|watch;line DELETED w2@7,db;end|watch;half ADDED w4@8 => \
        status 400: waits;\
        at 4;\
        at 5;\
        a bookmark at a version below the reported one: waits;\
        at 5;\
        status 503: waits;\
        at 6;\
        at 7;\
        at 7;";
    expect_rows(rt.alloc(), "", rows)
}
