//! Plays examples, each on a hub of its own: a line `NAME on WHAT: WHY`, and rows as `test_rows` plays them (`served_rows`)
//! up to the next blank line. WHAT is `widgets`, or `each kind` (widgets with each kind of list, and summaries); `: WHY` may be
//! absent. The examples stand in `connections` and `refused_memory`, the types that `types` rows name in `given`.

use crate::connections::CONNECTIONS;
use crate::given::{EACH_KIND, WIDGET_TYPES, fresh_api, types_text};
use crate::refused_memory::REFUSED_MEMORY;
use httpedge::{Event, Hub, HubFault};
use serde_json::Value;
use std::alloc::Global;
use std::mem;
use std::test::Fail;
use test_rows::{Serves, number, play_served};
use wireclient::request_bytes;

/// The event of a word, an id or another number, and what stands behind it.
pub fn event_of(alloc: Global, word: &str, id: u64, rest: &[u8]) -> Result<Event, Fail> {
    match word {
        "open" => Ok(Event::Open(id)),
        "in" => Ok(Event::In(id, Vec::from_slice(alloc, rest)?)),
        "gone" => Ok(Event::Gone(id)),
        "pump" => Ok(Event::Pump(id, number(str::from_utf8(rest)?)?)),
        "tick" => Ok(Event::Tick(id)),
        "compact" => Ok(Event::Compact(id)),
        "types" => {
            let text = types_text(str::from_utf8(rest)?);
            Ok(Event::Retype(Value::from_str(alloc, text)?))
        }
        _ => Err("no step".into()),
    }
}

/// A hub as rows see it.
#[derive(Drop)]
struct Served<'a> {
    hub: &'a mut Hub,
}

impl<'a> Serves for Served<'a> {
    type Event = Event;

    type Fault = HubFault;

    fn event(alloc: Global, word: &str, id: u64, rest: &[u8]) -> Result<Event, Fail> {
        event_of(alloc, word, id, rest)
    }

    fn on(&mut self, event: &Event) -> Result<(), HubFault> {
        self.hub.on(event)
    }

    fn out(&self, id: u64) -> &[u8] {
        self.hub.out(id)
    }

    fn take(&mut self, id: u64, count: usize) {
        self.hub.take(id, count);
    }

    fn wants(&self, id: u64) -> bool {
        self.hub.wants(id)
    }

    fn ended(&self, id: u64) -> bool {
        self.hub.ended(id)
    }

    fn kept(&self) -> (usize, usize) {
        self.hub.kept()
    }

    fn request(alloc: Global, method: &str, target: &str, body: &str) -> Result<Vec<u8>, Fail> {
        let target = format!(in alloc; "/apis/demo.example/v1/{target}")?;
        let media = match method {
            "PATCH" => "application/apply-patch+yaml",
            _ => "application/json",
        };
        let body = Some(body.as_bytes());
        Ok(request_bytes(alloc, method, target.as_str(), media, body)?)
    }
}

/// Plays an example. The hub is not dropped, and no other function holds one: one that drops a hub takes a minute to prove.
fn play(alloc: Global, example: &str) -> Result<(), Fail> {
    let (heading, rows) = example.split_once('\n').ok_or("no rows")?;
    let types = if heading.contains(" on each kind") {
        EACH_KIND
    } else {
        WIDGET_TYPES
    };
    let mut hub = Hub::new(alloc, fresh_api(alloc, types)?);
    let played = play_served(alloc, &mut Served { hub: &mut hub }, heading, rows);
    mem::forget(hub);
    played
}

fn play_all(rt: &HostRuntime, examples: &str) -> Result<(), Fail> {
    for example in examples.split("\n\n") {
        play(rt.alloc(), example)?;
    }
    Ok(())
}

#[test]
fn connections(rt: HostRuntime) -> Result<(), Fail> {
    play_all(&rt, CONNECTIONS)
}

#[test]
fn calls_that_are_refused_memory(rt: HostRuntime) -> Result<(), Fail> {
    play_all(&rt, REFUSED_MEMORY)
}
