//! A server of widgets and an informer of them, in one process. What a controller does with it stands in `controller`.

use crate::given::fresh_api;
use httpedge::{Event, Hub};
use indexer::{ByNamespace, Indexer, Object};
use reflector::{Informer, Notice, Source};
use std::alloc::Global;
use std::test::Fail;

const TYPES: &str =
    r#"{"types":[{"group":"demo.example","version":"v1","kind":"Widget","plural":"widgets","schema":{"type":"object","properties":{"spec":{"type":"object","properties":{"image":{"type":"string"}}}}}}]}"#;

const WIDGETS: &str = "/apis/demo.example/v1/namespaces/default/widgets";

/// How many lines of a watch the server gives at a turn.
const LINES: u64 = 100;

fn informer(alloc: Global) -> Result<Informer<ByNamespace>, Fail> {
    let widgets = Source {
        group: String::from_str(alloc, "demo.example")?,
        version: String::from_str(alloc, "v1")?,
        kind: String::from_str(alloc, "Widget")?,
        plural: String::from_str(alloc, "widgets")?,
    };
    let indexer = Indexer::new(alloc, vec![in alloc; ByNamespace]?)?;
    let made = Informer::new(alloc, widgets, None, String::new(alloc), 500, indexer);
    Ok(made.map_err(|_| "refused settings")?)
}

/// A server and an informer, and the connection that the informer has.
#[derive(Drop)]
pub struct Process {
    alloc: Global,
    hub: Hub,
    informer: Informer<ByNamespace>,
    connection: u64,
}

impl Process {
    /// Without objects.
    pub fn new(alloc: Global) -> Result<Process, Fail> {
        let informer = informer(alloc)?;
        Ok(Process {
            alloc,
            hub: Hub::new(alloc, fresh_api(alloc, TYPES)?),
            informer,
            connection: 0,
        })
    }

    /// Sends a request on a connection of its own, whose id is answered.
    fn send(&mut self, request: Vec<u8>) -> Result<u64, Fail> {
        let id = self.hub.next_id().ok_or("no id is left")?;
        self.hub.on(&Event::Open(id))?;
        self.hub.on(&Event::In(id, request))?;
        Ok(id)
    }

    /// Sends a request that must be done.
    fn ask(&mut self, request: String) -> Result<(), Fail> {
        let id = self.send(request.into_bytes())?;
        if self.hub.out(id).starts_with(b"HTTP/1.1 20") {
            return Ok(());
        }
        Err(Fail::new(String::from_utf8_lossy(self.alloc, self.hub.out(id))?))
    }

    /// Applies a widget.
    pub fn apply(&mut self, name: &str, body: &str) -> Result<(), Fail> {
        let length = body.len();
        self.ask(format!(in self.alloc;
            "PATCH {WIDGETS}/{name}?fieldManager=test HTTP/1.1\r\nHost: localhost\r\nContent-Type: application/apply-patch+yaml\r\nContent-Length: {length}\r\n\r\n{body}"
        )?)
    }

    /// Deletes a widget.
    pub fn delete(&mut self, name: &str) -> Result<(), Fail> {
        self.ask(format!(in self.alloc;
            "DELETE {WIDGETS}/{name} HTTP/1.1\r\nHost: localhost\r\n\r\n"
        )?)
    }

    /// The informer's turn: it asks what is due, and gets what the server has written for it. What it was told since its last
    /// turn is answered.
    pub fn turn(&mut self) -> Result<Vec<Notice>, Fail> {
        if let Some(request) = self.informer.next_request()? {
            self.connection = self.send(request)?;
        }
        let id = self.connection;
        self.hub.on(&Event::Pump(id, LINES))?;
        self.informer.feed(self.hub.out(id))?;
        let all = self.hub.out(id).len();
        self.hub.take(id, all);
        if self.hub.ended(id) {
            self.informer.closed();
        }
        Ok(self.informer.take_notices())
    }

    /// The informer, with its objects and their revision.
    pub fn informer(&self) -> &Informer<ByNamespace> {
        &self.informer
    }
}
