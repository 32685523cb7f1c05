//! The events of a run, as the words of a row say them.
//!
//! | words | event |
//! |---|---|
//! | `pump K N`, `compact C` | of the hub |
//! | `create W TIER`, `change W TIER`, `delete W` | a POST, PUT or DELETE of the widget W comes |
//! | `send`, `cut`, `restart`, `reconcile` | of the client |
//! | `server N`, `client N` | N bytes come to the server, or to the client; without N all |
//!
//! W is `NAME` in the namespace `default`, or `NAMESPACE/NAME`. Without TIER the widget has no label `tier`.

use httpedge::Event;
use std::alloc::{AllocError, Global};
use std::test::Fail;
use test_rows::{first_word, number};
use wireclient::request_bytes;
use world::WorldEvent;

fn target(alloc: Global, method: &str, namespace: &str, name: &str) -> Result<String, AllocError> {
    if method == "POST" {
        return format!(in alloc; "/apis/demo.example/v1/namespaces/{namespace}/widgets");
    }
    format!(in alloc; "/apis/demo.example/v1/namespaces/{namespace}/widgets/{name}")
}

fn body(alloc: Global, method: &str, name: &str, tier: &str) -> Result<String, AllocError> {
    if method == "DELETE" {
        return Ok(String::new(alloc));
    }
    if tier.is_empty() {
        return format!(in alloc;
            "{{\"apiVersion\":\"demo.example/v1\",\"kind\":\"Widget\",\"metadata\":{{\"name\":\"{name}\"}}}}"
        );
    }
    format!(in alloc;
        "{{\"apiVersion\":\"demo.example/v1\",\"kind\":\"Widget\",\"metadata\":{{\"labels\":{{\"tier\":\"{tier}\"}},\"name\":\"{name}\"}}}}"
    )
}

/// A request for a widget.
fn request(alloc: Global, method: &str, words: &str) -> Result<WorldEvent, Fail> {
    let (place, tier) = first_word(words);
    let (namespace, name) = place.split_once('/').unwrap_or(("default", place));
    let target = target(alloc, method, namespace, name)?;
    let body = body(alloc, method, name, tier)?;
    let content = Some(body.as_bytes());
    let bytes = request_bytes(alloc, method, target.as_str(), "application/json", content)?;
    Ok(WorldEvent::Request(bytes))
}

fn count(text: &str) -> Result<usize, Fail> {
    match text {
        "" => Ok(usize::MAX),
        _ => Ok(number(text)? as usize),
    }
}

fn pump(words: &str) -> Result<Event, Fail> {
    let (id, lines) = first_word(words);
    Ok(Event::Pump(number(id)?, number(lines)?))
}

fn event(alloc: Global, step: &str) -> Result<WorldEvent, Fail> {
    let (word, rest) = first_word(step);
    match word {
        "send" => Ok(WorldEvent::ClientSend),
        "cut" => Ok(WorldEvent::Cut),
        "restart" => Ok(WorldEvent::Restart),
        "reconcile" => Ok(WorldEvent::Reconcile),
        "server" => Ok(WorldEvent::ToServer(count(rest)?)),
        "client" => Ok(WorldEvent::ToClient(count(rest)?)),
        "create" => request(alloc, "POST", rest),
        "change" => request(alloc, "PUT", rest),
        "delete" => request(alloc, "DELETE", rest),
        "pump" => Ok(WorldEvent::Other(pump(rest)?)),
        "compact" => Ok(WorldEvent::Other(Event::Compact(number(rest)?))),
        _ => Err(Fail::new("no such event")),
    }
}

/// The events of steps with `; ` between them.
pub fn events(alloc: Global, steps: &str) -> Result<Vec<WorldEvent>, Fail> {
    let mut all = Vec::new(alloc);
    if !steps.is_empty() {
        for step in steps.split("; ") {
            all.push(event(alloc, step)?)?;
        }
    }
    Ok(all)
}
