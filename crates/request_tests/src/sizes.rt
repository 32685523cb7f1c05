//! How many of a connection's bytes are a request, and what it says of its client. A row is `MS BYTES => ANSWER`; the bytes are
//! shown as in `test_rows`. The answer is `more` where more bytes of the head are needed, and else how many bytes the
//! request has, and why it is refused; or that more of its body is needed; or what the client calls itself and the tick of the
//! call, which comes after the tick at these milliseconds.

use api_request::{Call, Routes};
use api_types::{Profile, Types};
use requests::{Asked, Progress, ReadBuffer, ask_sized};
use serde_json::Value;
use std::alloc::{AllocError, Global};
use std::test::Fail;
use test_rows::{Answers, bytes_of, first_word, in_words, number, play_all};

/// 2030-01-01.
const EPOCH: u64 = 1893456000;

const TYPES: &str =
    r#"{"types":[{"group":"wide.example","version":"v1","kind":"Thing","plural":"things","schema":{"type":"object","properties":{"spec":{"type":"object"}}}}]}"#;

fn given_types(alloc: Global) -> Result<Types, Fail> {
    let value = Value::from_str(alloc, TYPES)?;
    Ok(Types::read(alloc, Profile::Kubernetes(EPOCH), &value)?)
}

#[derive(Drop)]
struct Sizes {
    routes: Routes,
    types: Types,
}

impl Answers for Sizes {
    fn answer(&mut self, alloc: Global, question: &str) -> Result<String, Fail> {
        let (ms, text) = first_word(question);
        let bytes = bytes_of(alloc, text)?;
        match asked(alloc, &self.routes, &self.types, &bytes)? {
            Some(asked) => told(alloc, asked, number(ms)?),
            None => Ok(String::from_str(alloc, "more")?),
        }
    }
}

fn asked(
    alloc: Global,
    routes: &Routes,
    types: &Types,
    bytes: &[u8],
) -> Result<Option<Asked>, AllocError> {
    let mut buffer = ReadBuffer::new(alloc).with(bytes)?;
    let end = buffer.find_end();
    ask_sized(alloc, routes, types, buffer.bytes(), end)
}

fn told(alloc: Global, asked: Asked, ms: u64) -> Result<String, Fail> {
    let size = asked.size;
    match asked.progress {
        Progress::Call(call) => called(alloc, size, call.at_tick(ms)),
        Progress::Refused(denied) => in_words(alloc, (size, denied.message)),
        Progress::Pending(_) => in_words(alloc, (size, "more of its body")),
    }
}

fn called(alloc: Global, size: usize, call: Call) -> Result<String, Fail> {
    match &call.agent {
        Some(agent) => in_words(alloc, (size, str::from_utf8(agent)?, call.ticked)),
        None => in_words(alloc, (size, call.ticked)),
    }
}

const EXAMPLES: &str = r#"heads
0 GET /apis/wide.example/v1/namespaces/ns/things/a HTTP/1.1|$Host: x|$|$ => (70, 0)
1500 GET /apis/wide.example/v1/namespaces/ns/things/a HTTP/1.1|$Host: x|$|$ => (70, 1500)
0 GET /apis/wide.example/v1/namespaces/ns/things/a HTTP/1.1|$Host: x|$|$GET /apis/wide.example/v1/namespaces/ns/things/a HTTP/1.1|$Host: x|$|$ => (70, 0)
0 GET /apis/wide.example/v1/namespaces/ns/things/a HTTP/1.1|$Host: x|$|$GET => (70, 0)
0 |$|$GET /apis/wide.example/v1/namespaces/ns/things/a HTTP/1.1|$Host: x|$|$ => (74, 0)
0 GET /apis/wide.example/v1/namespaces/ns/things/a HTTP/1.1|$Host: x|$ => more
0 GET => more

bodies
7 PUT /apis/wide.example/v1/namespaces/ns/things/a HTTP/1.1|$Host: x|$User-Agent: probe/1.0|$Content-Type: application/json|$Content-Length: 2|$|${} => (146, "probe", 7)
7 PUT /apis/wide.example/v1/namespaces/ns/things/a HTTP/1.1|$Host: x|$User-Agent: probe/1.0|$Content-Type: application/json|$Content-Length: 2|$|${}GET /apis/wide.example/v1/namespaces/ns/things/a HTTP/1.1|$Host: x|$|$ => (146, "probe", 7)
7 PUT /apis/wide.example/v1/namespaces/ns/things/a HTTP/1.1|$Host: x|$User-Agent: probe/1.0|$Content-Type: application/json|$Content-Length: 2|$|${ => (146, "more of its body")
7 PUT /apis/wide.example/v1/namespaces/ns/things/a HTTP/1.1|$Host: x|$User-Agent: probe/1.0|$Content-Type: application/json|$Content-Length: 2|$|$ => (146, "more of its body")
7 PUT /apis/wide.example/v1/namespaces/ns/things/a HTTP/1.1|$Host: x|$User-Agent: probe/1.0|$Content-Type: application/json|$Content-Length: 2|$|${] => (146, "body is not JSON")
7 PUT /apis/wide.example/v1/namespaces/ns/things/a HTTP/1.1|$Host: x|$User-Agent: probe/1.0|$Content-Type: application/json|$Content-Length: 2|$|${]GET /apis/wide.example/v1/namespaces/ns/things/a HTTP/1.1|$Host: x|$|$ => (146, "body is not JSON")

refused_with_the_head
0 GET /apis/wide.example/v1/namespaces/ns/things/a HTTP/1.1|$|${} => (61, "one Host field is needed")
0 GET /nowhere HTTP/1.1|$Host: x|$Content-Length: 2|$|${} => (53, "no such path")
0 POST /apis/wide.example/v1/namespaces/ns/things HTTP/1.1|$Host: x|$Content-Type: application/json|$|${} => (101, "Content-Length is needed")
0 POST /apis/wide.example/v1/namespaces/ns/things HTTP/1.1|$Host: x|$Content-Type: application/json|$Transfer-Encoding: chunked|$|$2 => (129, "Transfer-Encoding is not served")
0 POST /apis/wide.example/v1/namespaces/ns/things HTTP/1.1|$Host: x|$Content-Type: application/json|$Content-Length: +5|$|${} => (121, "bad Content-Length")
0 PUT /apis/wide.example/v1/namespaces/ns/things/a HTTP/1.1|$Host: x|$User-Agent: probe/1.0|$Content-Type: application/json|$Content-Length: 262145|$|${} => (149, "body over 262144 bytes")
0 PUT /apis/wide.example/v1/namespaces/ns/things/a HTTP/1.1|$Host: x|$User-Agent: probe/1.0|$Content-Type: application/json|$Content-Length: 262144|$|${} => (262293, "more of its body")

long_heads
0 <16384 a> => more
0 <16385 a> => (16385, "request head too large")
0 <16500 a> => (16385, "request head too large")

agents
0 GET /apis/wide.example/v1/namespaces/ns/things/a HTTP/1.1|$Host: x|$User-Agent: probe/1.0|$|$ => (93, "probe", 0)
0 GET /apis/wide.example/v1/namespaces/ns/things/a HTTP/1.1|$Host: x|$user-agent: kubectl/v1.30.0 (linux/amd64) kubernetes/7c48c2b|$|$ => (132, "kubectl", 0)
0 GET /apis/wide.example/v1/namespaces/ns/things/a HTTP/1.1|$Host: x|$User-Agent: curl|$|$ => (88, "curl", 0)
0 GET /apis/wide.example/v1/namespaces/ns/things/a HTTP/1.1|$Host: x|$User-Agent:   a b/1  |$|$ => (93, "a b", 0)
0 GET /apis/wide.example/v1/namespaces/ns/things/a HTTP/1.1|$Host: x|$User-Agent: /1.0|$|$ => (88, "", 0)
0 GET /apis/wide.example/v1/namespaces/ns/things/a HTTP/1.1|$Host: x|$User-Agent:|$|$ => (83, "", 0)
0 GET /apis/wide.example/v1/namespaces/ns/things/a HTTP/1.1|$Host: x|$User-Agent: first/1|$User-Agent: second/2|$|$ => (113, "first", 0)
0 GET /apis/wide.example/v1/namespaces/ns/things/a HTTP/1.1|$Host: x|$Agent: probe/1.0|$|$ => (88, 0)"#;

#[test]
fn sizes_and_agents(rt: HostRuntime) -> Result<(), Fail> {
    let alloc = rt.alloc();
    let mut sizes = Sizes {
        routes: Routes::new(alloc)?,
        types: given_types(alloc)?,
    };
    play_all(alloc, &mut sizes, EXAMPLES)
}
