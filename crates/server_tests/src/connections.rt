//! What only linked calls show of connections and their bytes: how bytes are taken, what is kept of connections that are over,
//! and the parts of a request and of a reply.

use api_request::Method;
use requests::{Decision, Head, Length, checked_media, path_of, query_of, read_head, reply_bytes};
use std::alloc::Global;
use std::test::Fail;
use test_rows::{expect_text, in_words};

/// `hub_rows` says what the rows are, and plays them.
pub const CONNECTIONS: &str = r#"bytes_are_taken on widgets
ask 2 PATCH namespaces/default/widgets/w1?fieldManager=alice {"apiVersion":"demo.example/v1","kind":"Widget","metadata":{"name":"w1"},"spec":{"image":"a","replicas":3}} => 201
take 2 96 => 317
take 2 300 => 17
out 2 => a","replicas":3}}
take 2 1000 => 0
stand 2 => 0 false true
take 3 5 => 0
ask 4 GET namespaces/default/widgets/w2 => 404
out 4 => HTTP/1.1 404 Not Found|$Content-Type: application/json|$Content-Length: 149|$Connection: close|$|${"apiVersion":"v1","code":404,"kind":"Status","message":"widgets.demo.example \"w2\" not found","metadata":{},"reason":"NotFound","status":"Failure"}

over_leaves_a_range on widgets: connections that are over leave a range of ids, whoever is open meanwhile
kept 0 => 0 0
serve 1 10000 GET namespaces/default/widgets/w1 => -
kept 0 => 0 1
stand 1 => 0 false true
stand 10000 => 0 false true
open 10005 => -
kept 0 => 1 1
serve 10006 10007 GET namespaces/default/widgets/w1 => -
kept 0 => 1 2
stand 10004 => 0 false false
in 10004 GET => Refused(UnknownId)
gone 10005 => -
kept 0 => 0 3
stand 10005 => 0 false false
in 10005 GET => -
gone 10006 => -
stand 10006 => 0 false true
pump 10006 1 => -
pump 10006 0 => Refused(NoLines)
open 10007 => Refused(IdNotAbove)
ask 10008 GET namespaces/default/widgets/w1 => 404
kept 0 => 1 3
gone 10008 => -
kept 0 => 0 3
stand 10008 => 0 false true"#;

/// The path, the query, the media type, the length and the bytes after the head.
fn head_in_words(alloc: Global, head: &Head<'_>) -> Result<String, Fail> {
    let path = path_of(head.request_target);
    let query = query_of(head.request_target);
    let media = str::from_utf8(checked_media(Method::named(head.method), head).ok_or(
        "no media type",
    )?)?;
    let Length::Digits(digits) = head.length else {
        return Err("no length".into());
    };
    let length = str::from_utf8(digits)?;
    let rest = str::from_utf8(head.rest)?;
    in_words(alloc, (path, query, media, length, rest))
}

fn request_in_words(alloc: Global, request: &str) -> Result<String, Fail> {
    match read_head(request.as_bytes()) {
        Decision::Accepted(head) => head_in_words(alloc, &head),
        _ => Err("no head".into()),
    }
}

/// A request is read, a reply is written.
#[test]
fn parts_of_requests_and_replies(rt: HostRuntime) -> Result<(), Fail> {
    let alloc = rt.alloc();
    let request =
        "\r\nDELETE /a?b=c HTTP/1.1\nHOST: x\r\ncontent-type: t/u\r\nContent-Length: 02\r\ncontent-length: 2\r\n\r\n{}more";
    expect_text(
        request_in_words(alloc, request)?,
        r#"("/a", "b=c", "t/u", "2", "{}more")"#,
    )?;
    let reply = reply_bytes(alloc, 405, Some("PATCH"), "{}")?;
    expect_text(
        String::from_str(alloc, str::from_utf8(&reply)?)?,
        "HTTP/1.1 405 Method Not Allowed\r\nContent-Type: application/json\r\nContent-Length: 2\r\nConnection: close\r\nAllow: PATCH\r\n\r\n{}",
    )
}
