//! What events did, as the hub tells it: how many bytes, how many lines and which status on which connection, which of
//! them ended, and which request was answered. The bytes themselves are rows of `tests/hub` at the top.

use crate::given::WIDGET_TYPES;
use api_types::{Profile, Types};
use httpedge::{Effect, Event, Hub};
use requests::Request;
use serde_json::Value;
use std::alloc::Global;
use std::mem;
use std::test::Fail;
use verbs::Api;

/// The head of a watch has 98 bytes, the one of the reply that creates an object 96, and its body 117.
const WATCH: &str =
    "GET /apis/demo.example/v1/widgets?watch=true&timeoutSeconds=1 HTTP/1.1\r\nHost: x\r\n\r\n";

const WATCHED: &str = "/apis/demo.example/v1/widgets?watch=true&timeoutSeconds=1";

const NOWHERE: &str = "GET /nowhere?x=1 HTTP/1.1\r\nHost: x\r\n\r\n";

/// The head of a creation with the first byte of its body, and the rest.
const FIRST_PIECE: &str =
    "POST /apis/demo.example/v1/namespaces/default/widgets HTTP/1.1\r\nHost: x\r\nContent-Type: application/json\r\nContent-Length: 73\r\n\r\n{";

const SECOND_PIECE: &str =
    "\"apiVersion\":\"demo.example/v1\",\"kind\":\"Widget\",\"metadata\":{\"name\":\"w1\"}}";

/// What the creation does on a connection.
const CREATED: &str = "213 0 201 ended; POST /apis/demo.example/v1/namespaces/default/widgets";

/// Method and request target of what was answered; `-` where it is no head.
fn asked(alloc: Global, request: &Request) -> Result<String, Fail> {
    match request.line() {
        Some(line) => Ok(format!(in alloc; " {} {}", line.method, line.request_target)?),
        None => Ok(String::from_str(alloc, " -")?),
    }
}

/// Of each change the id, the bytes, the lines and the status, and whether the connection ended; then what was answered.
fn in_words(alloc: Global, effect: &Effect) -> Result<String, Fail> {
    let mut text = String::new(alloc);
    for (id, change) in effect.changes() {
        let status = change.status.unwrap_or(0);
        let end = if change.has_ended { " ended" } else { "" };
        let one = format!(in alloc; "{}: {} {} {status}{end};", *id, change.bytes, change.lines)?;
        text.push_str(one.as_str())?;
    }
    if let Some(request) = effect.request() {
        text.push_str(asked(alloc, request)?.as_str())?;
    }
    Ok(text)
}

fn expect(alloc: Global, hub: &mut Hub, event: &Event, wanted: &str) -> Result<(), Fail> {
    let text = match hub.step(event) {
        Ok(effect) => in_words(alloc, &effect)?,
        Err(fault) => format!(in alloc; "{fault}")?,
    };
    if text.as_str() == wanted {
        return Ok(());
    }
    Err(
        format!(in alloc; "{text} in place of {wanted}")?
            .as_str()
            .into(),
    )
}

fn bytes_on(alloc: Global, id: u64, text: &str) -> Result<Event, Fail> {
    Ok(Event::In(id, Vec::from_slice(alloc, text.as_bytes())?))
}

fn expect_effects(alloc: Global, hub: &mut Hub) -> Result<(), Fail> {
    for id in 1..4 {
        expect(alloc, hub, &Event::Open(id), "")?;
    }
    for id in 1..3 {
        let wanted = format!(in alloc; "{id}: 98 0 200; GET {}", WATCHED)?;
        expect(alloc, hub, &bytes_on(alloc, id, WATCH)?, wanted.as_str())?;
    }
    expect(alloc, hub, &bytes_on(alloc, 3, "POST /apis")?, "")?;
    expect(alloc, hub, &Event::Gone(3), "")?;
    expect(alloc, hub, &Event::Open(4), "")?;
    let creation = format!(in alloc; "{}{}", FIRST_PIECE, SECOND_PIECE)?;
    let wanted = format!(in alloc; "4: {}", CREATED)?;
    expect(
        alloc,
        hub,
        &bytes_on(alloc, 4, creation.as_str())?,
        wanted.as_str(),
    )?;
    // a chunk of a line of 144 bytes, its length in hexadecimal and two line ends
    expect(alloc, hub, &Event::Pump(1, 10), "1: 150 1 0;")?;
    expect(alloc, hub, &Event::Pump(1, 10), "")?;
    expect(alloc, hub, &Event::Pump(4, 10), "")?;
    expect(
        alloc,
        hub,
        &Event::Pump(9, 10),
        "there is no connection of this id",
    )?;
    expect(alloc, hub, &Event::Compact(2), "")?;
    expect(alloc, hub, &Event::Tick(999), "")?;
    // the last chunk, which ends a watch
    expect(
        alloc,
        hub,
        &Event::Tick(1000),
        "1: 5 0 0 ended;2: 5 0 0 ended;",
    )?;
    expect(alloc, hub, &Event::Tick(2000), "")
}

/// Requests that are refused, and one that comes in pieces.
fn expect_requests(alloc: Global, hub: &mut Hub) -> Result<(), Fail> {
    for id in 1..7 {
        expect(alloc, hub, &Event::Open(id), "")?;
    }
    for (id, text, wanted) in [
        (1, NOWHERE, "1: 222 0 404 ended; GET /nowhere?x=1"),
        (2, "GET / HTTP/1.1\r\n\r\n", "2: 238 0 400 ended; GET /"),
        (
            3,
            "PUT /a HTTP/1.0\r\nHost: x\r\n\r\n",
            "3: 260 0 505 ended; PUT /a",
        ),
        (4, "~ ~\r\n\r\n", "4: 230 0 400 ended; -"),
    ] {
        expect(alloc, hub, &bytes_on(alloc, id, text)?, wanted)?;
    }
    expect(alloc, hub, &bytes_on(alloc, 5, FIRST_PIECE)?, "")?;
    let wanted = format!(in alloc; "5: {}", CREATED)?;
    expect(
        alloc,
        hub,
        &bytes_on(alloc, 5, SECOND_PIECE)?,
        wanted.as_str(),
    )?;
    // nothing more is answered on a connection that has ended
    expect(alloc, hub, &bytes_on(alloc, 5, NOWHERE)?, "")?;
    expect(alloc, hub, &bytes_on(alloc, 6, "GET /nowh")?, "")?;
    expect(alloc, hub, &Event::Gone(6), "")
}

#[test]
fn effects_say_what_was_answered(rt: HostRuntime) -> Result<(), Fail> {
    let alloc = rt.alloc();
    let types = Types::read(
        alloc,
        Profile::Plain,
        &Value::from_str(alloc, WIDGET_TYPES)?,
    )?;
    let mut hub = Hub::new(alloc, Api::new(alloc, types)?);
    let told = expect_requests(alloc, &mut hub);
    mem::forget(hub);
    told
}

#[test]
fn effects_of_events(rt: HostRuntime) -> Result<(), Fail> {
    let alloc = rt.alloc();
    let types = Types::read(
        alloc,
        Profile::Plain,
        &Value::from_str(alloc, WIDGET_TYPES)?,
    )?;
    let mut hub = Hub::new(alloc, Api::new(alloc, types)?);
    let told = expect_effects(alloc, &mut hub);
    mem::forget(hub);
    told
}
