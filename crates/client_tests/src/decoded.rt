//! What lists and watch lines say of objects. What may be wrong with them is in `tests/mirrors/decoded.rows` at the top.
//!
//! `line` is a line of a watch, `any` one of any namespace, and `page` a list's body. The answer is what it says.

use crate::rows::{Answers, first_word, in_words, play};
use decoder::{Source, Wanted, read_line, read_page};
use std::alloc::{AllocError, Global};
use std::test::Fail;

#[derive(Drop)]
struct Decoded;

impl Answers for Decoded {
    fn answer(&mut self, alloc: Global, question: &str) -> Result<String, Fail> {
        let (what, text) = first_word(question);
        let mut wanted = widgets(alloc)?;
        if what == "any" {
            wanted.namespace = None;
        }
        match what {
            "page" => in_words(alloc, read_page(alloc, &wanted, text.as_bytes())),
            _ => in_words(alloc, read_line(alloc, &wanted, text.as_bytes())),
        }
    }
}

fn widgets(alloc: Global) -> Result<Wanted, AllocError> {
    Ok(Wanted {
        source: Source {
            group: String::from_str(alloc, "demo.example")?,
            version: String::from_str(alloc, "v1")?,
            kind: String::from_str(alloc, "Widget")?,
            plural: String::from_str(alloc, "widgets")?,
        },
        namespace: Some(String::from_str(alloc, "default")?),
    })
}

const EXAMPLE: &str = r#"lists_and_lines
line {"type":"ADDED","object":{"apiVersion":"demo.example/v1","kind":"Widget","metadata":{"labels":{"b":"","a":"x"},"name":"w1","namespace":"default","resourceVersion":"2"}}} => Ok(Put(Object { namespace: "default", name: "w1", revision: 2, labels: {"a": "x", "b": ""}, text: "{\"apiVersion\":\"demo.example/v1\",\"kind\":\"Widget\",\"metadata\":{\"labels\":{\"a\":\"x\",\"b\":\"\"},\"name\":\"w1\",\"namespace\":\"default\",\"resourceVersion\":\"2\"}}" }))
line {"type":"MODIFIED","object":{"apiVersion":"demo.example/v1","kind":"Widget","metadata":{"name":"w1","namespace":"default","resourceVersion":"3"},"spec":{"n":9223372036854775807}}} => Ok(Put(Object { namespace: "default", name: "w1", revision: 3, labels: {}, text: "{\"apiVersion\":\"demo.example/v1\",\"kind\":\"Widget\",\"metadata\":{\"name\":\"w1\",\"namespace\":\"default\",\"resourceVersion\":\"3\"},\"spec\":{\"n\":9223372036854775807}}" }))
line {"object":{"kind":"Widget","apiVersion":"demo.example/v1","metadata":{"labels":null,"name":"w1","namespace":"default","resourceVersion":"4"}},"type":"DELETED"} => Ok(Deleted(Object { namespace: "default", name: "w1", revision: 4, labels: {}, text: "{\"apiVersion\":\"demo.example/v1\",\"kind\":\"Widget\",\"metadata\":{\"labels\":null,\"name\":\"w1\",\"namespace\":\"default\",\"resourceVersion\":\"4\"}}" }))
line [] => Err(Malformed(Object))
any {"type":"ADDED","object":{"apiVersion":"demo.example/v1","kind":"Widget","metadata":{"name":"w1","namespace":"other","resourceVersion":"2"}}} => Ok(Put(Object { namespace: "other", name: "w1", revision: 2, labels: {}, text: "{\"apiVersion\":\"demo.example/v1\",\"kind\":\"Widget\",\"metadata\":{\"name\":\"w1\",\"namespace\":\"other\",\"resourceVersion\":\"2\"}}" }))
page {"apiVersion":"demo.example/v1","items":[{"apiVersion":"demo.example/v1","kind":"Widget","metadata":{"name":"w1","namespace":"default","resourceVersion":"2"}},{"apiVersion":"demo.example/v1","kind":"Widget","metadata":{"name":"w2","namespace":"default","resourceVersion":"3"}}],"kind":"WidgetList","metadata":{"continue":"6.default.w2","resourceVersion":"6"}} => Ok(Page { revision: 6, token: Some("6.default.w2"), objects: [Object { namespace: "default", name: "w1", revision: 2, labels: {}, text: "{\"apiVersion\":\"demo.example/v1\",\"kind\":\"Widget\",\"metadata\":{\"name\":\"w1\",\"namespace\":\"default\",\"resourceVersion\":\"2\"}}" }, Object { namespace: "default", name: "w2", revision: 3, labels: {}, text: "{\"apiVersion\":\"demo.example/v1\",\"kind\":\"Widget\",\"metadata\":{\"name\":\"w2\",\"namespace\":\"default\",\"resourceVersion\":\"3\"}}" }] })
page 7 => Err(Malformed(Object))"#;

#[test]
fn example(rt: HostRuntime) -> Result<(), Fail> {
    play(rt.alloc(), &mut Decoded, EXAMPLE)
}
