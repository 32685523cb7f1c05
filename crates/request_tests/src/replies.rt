//! The bytes of replies. A row is `PERSISTENCE WHAT REST => BYTES`, the bytes in one line (`test_rows::texts`). After a reply that
//! is `kept` others may follow on its connection; one that is `last` says that none does.
//!
//! | what | rest |
//! |---|---|
//! | `reply` | the status code, the methods that are allowed, or `-`, and the body |
//! | `answer` | the body of what is created |
//! | `watch` | nothing |
//! | `refusal` | nothing: of a method that a collection doesn't serve |

use answers::{InitialEvents, WatchFrom};
use api_request::{Answer, CREATED, Denied, NOT_SERVED, OK, Reason};
use requests::{Persistence, answer_bytes_by, refusal_reply_by, reply_bytes_by};
use selector::Selector;
use std::alloc::Global;
use std::test::Fail;
use test_rows::{Answers, first_word, line_of, number, play_all};

#[derive(Drop)]
struct Replies;

impl Answers for Replies {
    fn answer(&mut self, alloc: Global, question: &str) -> Result<String, Fail> {
        let (word, rest) = first_word(question);
        let persistence = if word == "kept" {
            Persistence::Kept
        } else {
            Persistence::Last
        };
        let (what, rest) = first_word(rest);
        line_of(alloc, &reply(alloc, persistence, what, rest)?)
    }
}

fn reply(alloc: Global, persistence: Persistence, what: &str, rest: &str) -> Result<Vec<u8>, Fail> {
    match what {
        "reply" => by_code(alloc, persistence, rest),
        "refusal" => refusal(alloc, persistence),
        "watch" => watch(alloc, persistence),
        _ => creation(alloc, persistence, rest),
    }
}

fn by_code(alloc: Global, persistence: Persistence, rest: &str) -> Result<Vec<u8>, Fail> {
    let (code, rest) = first_word(rest);
    let (allow, body) = first_word(rest);
    let allow = if allow == "-" { None } else { Some(allow) };
    let code = u16::try_from(number(code)?).ok().ok_or("no code")?;
    Ok(reply_bytes_by(alloc, persistence, code, allow, body)?)
}

fn refusal(alloc: Global, persistence: Persistence) -> Result<Vec<u8>, Fail> {
    let denied = Denied {
        reason: Reason::MethodNotAllowed,
        message: NOT_SERVED,
        allow: Some("GET, POST"),
    };
    Ok(refusal_reply_by(alloc, persistence, denied)?)
}

fn creation(alloc: Global, persistence: Persistence, body: &str) -> Result<Vec<u8>, Fail> {
    let answer = Answer {
        status: CREATED,
        body: String::from_str(alloc, body)?,
        watch: None,
    };
    Ok(answer_bytes_by(alloc, persistence, &answer)?)
}

fn watch_from(alloc: Global) -> Result<WatchFrom, Fail> {
    Ok(WatchFrom {
        kind: 0,
        namespace: None,
        selector: Selector::read(alloc, "")?,
        position: 1,
        initial: InitialEvents::Changes,
        bookmarks: false,
        timeout: 0,
    })
}

fn watch(alloc: Global, persistence: Persistence) -> Result<Vec<u8>, Fail> {
    let answer = Answer {
        status: OK,
        body: String::new(alloc),
        watch: Some(watch_from(alloc)?),
    };
    Ok(answer_bytes_by(alloc, persistence, &answer)?)
}

const EXAMPLES: &str = r#"replies
kept reply 200 - {} => HTTP/1.1 200 OK|$Content-Type: application/json|$Content-Length: 2|$|${}
last reply 200 - {} => HTTP/1.1 200 OK|$Content-Type: application/json|$Content-Length: 2|$Connection: close|$|${}
kept reply 405 GET {} => HTTP/1.1 405 Method Not Allowed|$Content-Type: application/json|$Content-Length: 2|$Allow: GET|$|${}
last reply 405 GET {} => HTTP/1.1 405 Method Not Allowed|$Content-Type: application/json|$Content-Length: 2|$Connection: close|$Allow: GET|$|${}
kept reply 422 - {"a b":"c"} => HTTP/1.1 422 Unprocessable Entity|$Content-Type: application/json|$Content-Length: 11|$|${"a b":"c"}
kept reply 504 - => HTTP/1.1 504 Gateway Timeout|$Content-Type: application/json|$Content-Length: 0|$|$

answers
kept answer {"kind":"Thing"} => HTTP/1.1 201 Created|$Content-Type: application/json|$Content-Length: 16|$|${"kind":"Thing"}
last answer {"kind":"Thing"} => HTTP/1.1 201 Created|$Content-Type: application/json|$Content-Length: 16|$Connection: close|$|${"kind":"Thing"}
kept watch => HTTP/1.1 200 OK|$Content-Type: application/json|$Transfer-Encoding: chunked|$|$
last watch => HTTP/1.1 200 OK|$Content-Type: application/json|$Transfer-Encoding: chunked|$Connection: close|$|$

refusals
kept refusal => HTTP/1.1 405 Method Not Allowed|$Content-Type: application/json|$Content-Length: 142|$Allow: GET, POST|$|${"apiVersion":"v1","code":405,"kind":"Status","message":"method not served here","metadata":{},"reason":"MethodNotAllowed","status":"Failure"}
last refusal => HTTP/1.1 405 Method Not Allowed|$Content-Type: application/json|$Content-Length: 142|$Connection: close|$Allow: GET, POST|$|${"apiVersion":"v1","code":405,"kind":"Status","message":"method not served here","metadata":{},"reason":"MethodNotAllowed","status":"Failure"}"#;

#[test]
fn bytes_of_replies(rt: HostRuntime) -> Result<(), Fail> {
    play_all(rt.alloc(), &mut Replies, EXAMPLES)
}
