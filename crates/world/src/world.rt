//! A server, a client and the connection between them, and what each event makes of them.

ghost use Rattle.std.specs.Prelude.{◌≡◌, ◌≢◌, ℕ, List, if◌then◌else◌, option_and_then, option_map};
ghost use Rattle.httpedge.specs.Steps as edge;
ghost use Rattle.wireclient.specs.Reply.{ReplyItem};
ghost use Rattle.reflector.specs.Client.{Client};
ghost use Rattle.reflector.specs.InformerViews as informers;
ghost use Rattle.reflector.specs.Run.{closed};
ghost use Rattle.world.specs.Serving.{Serves, is_over_in};
ghost use Rattle.world.specs.Represents.{setup_in};
ghost use Rattle.world.specs.Recording.{ReportsRefusal};
ghost use Rattle.world.specs.Stepping.{Refuses, by_hub, hub_refusal};

use crate::connection::{ClientConnection, is_by_peer_on, next_of_request, next_piece};
use crate::event::WorldEvent;
use crate::fault::{RunFault, WorldFault};
use crate::link::Link;
use crate::refusal::Refusal;
use crate::server::Server;
use crate::settings::{Settings, client_of};
use api_types::Types;
use httpedge::{Event, HubRefusal};
use indexer::IndexBy;
use reflector::Informer;
use std::alloc::Global;
use summary::Summary;

/// A server and a client, the client's connection, and what is counted of its objects: a run that is taken event by event.
#[derive(Drop)]
pub struct World<I: Drop> {
    pub(crate) alloc: Global,
    pub(crate) server: Server,
    /// The connections that were opened for a request of another peer, oldest first.
    pub(crate) requested: Vec<u64>,
    pub(crate) client: Informer<I>,
    pub(crate) connection: Option<ClientConnection>,
    pub(crate) summary: Summary,
    pub(crate) label: String,
    /// The namespace and the name of the object to which the counts are applied.
    pub(crate) place: (String, String),
}

/// A refusal of the hub.
fn by_hub(refusal: Option<HubRefusal>) -> Option<Refusal>
    ensures refuses { (s : edge.State) (e : edge.Event) → ReportsRefusal s e refusal → Refuses result (option_map by_hub (edge.refusal s e)) }
    ensures same { option_and_then hub_refusal result ≡ refusal }
{
    match refusal {
        Some(why) => Some(Refusal::Hub(why)),
        None => None,
    }
}

/// Tells the client that its connection is closed, where the reply is over.
fn close_if_over<I: IndexBy>(server: &Server, client: &mut Informer<I>, id: u64, handed: usize)
    ensures closes { (s : edge.State) (c : Client) (bytes : List ℕ) (emitted : List ReplyItem) → Serves server.now s → informers.InformerRepresents (λ b s. I.keys b s) client.old c bytes emitted
        → informers.InformerRepresents (λ b s. I.keys b s) client.new (if is_over_in s id handed then closed c else c) bytes emitted }
    ensures setup { setup_in client.new ≡ setup_in client.old }
{
    if server.is_over(id, handed) {
        client.closed();
    }
}

impl<I: IndexBy> World<I> {
    ghost use Rattle.std.specs.Prelude.{◌≡◌, ◌≢◌, ◌≤◌, false, map, Err, IfOk, None, OnOk};
    ghost use Rattle.api_types.specs.Served.{types_view};
    ghost use Rattle.std.specs.FinMap as fin;
    ghost use Rattle.httpedge.specs.HubViews.{event_of};
    ghost use Rattle.reflector.specs.Client.{Objects, kept};
    ghost use Rattle.reflector.specs.InformerViews.{indexes_in, names_in};
    ghost use Rattle.world_laws.specs.Tasks.{IsTask, Task, settings_fault};
    ghost use Rattle.world_laws.specs.World as worlds;
    ghost use Rattle.world_laws.specs.World.{Steps};
    ghost use Rattle.world.specs.FaultViews.{Answers};
    ghost use Rattle.world.specs.Views.{event_seen, settings_seen};
    ghost use Rattle.world.specs.Extents.{AreNotesSince};
    ghost use Rattle.world.specs.Represents.{NotesLead, WorldRepresents, settled, setup_in};
    ghost use Rattle.httpedge.specs.Connections.{next_id};
    ghost use Rattle.world.specs.Stepping.{TellsFault, refusal_of};
    ghost use Rattle.history.specs.History.{last_revision};
    ghost use Rattle.world.specs.Starting.{start_at};

    /// A server without connections and objects, at revision 1, and the client that does what is asked.
    pub fn new(
        alloc: Global,
        types: Types,
        settings: Settings,
        indexes: Vec<I>,
    ) -> Result<World<I>, WorldFault>
        ensures represents { IfOk result (λ x. (task : Task) × IsTask (types_view types) task × (task.settings ≡ settings_seen settings) × WorldRepresents (λ b s. I.keys b s) task fin.empty x (worlds.start (types_view types))) }
        ensures settings { Answers (settings_fault (types_view types) (map (λ b. I.title b) indexes.items) (settings_seen settings)) result }
        ensures indexes { IfOk result (λ x. indexes_in x.client ≡ indexes.items) }
        ensures names { IfOk result (λ x. names_in x.client ≡ map (λ b. I.title b) indexes.items) }
        ensures link { result ≢ Err WorldFault.Link }
    {
        World::new_at(alloc, types, settings, indexes, 1)
    }

    /// The same, but that the server begins at this revision, from 1 to 9223372036854775807.
    pub fn new_at(
        alloc: Global,
        types: Types,
        settings: Settings,
        indexes: Vec<I>,
        revision: u64,
    ) -> Result<World<I>, WorldFault>
        requires from { 1 ≤ revision }
        requires to { revision ≤ last_revision }
        ensures represents { IfOk result (λ x. (task : Task) × IsTask (types_view types) task × (task.settings ≡ settings_seen settings) × WorldRepresents (λ b s. I.keys b s) task fin.empty x (start_at revision (types_view types))) }
        ensures settings { Answers (settings_fault (types_view types) (map (λ b. I.title b) indexes.items) (settings_seen settings)) result }
        ensures indexes { IfOk result (λ x. indexes_in x.client ≡ indexes.items) }
        ensures names { IfOk result (λ x. names_in x.client ≡ map (λ b. I.title b) indexes.items) }
        ensures link { result ≢ Err WorldFault.Link }
    {
        types.types_are_named();
        world_laws::tasks_are_made();
        let client = client_of(alloc, &types, &settings, indexes)?;
        let server = Server::new_at(alloc, types, revision)?;
        let Settings {
            kind: _,
            namespace: _,
            selector: _,
            page: _,
            label,
            summary,
        } = settings;
        let counted = label.clone()?;
        let counts = Summary::new(alloc, counted);
        let requested = Vec::new(alloc);
        Ok(World {
            alloc,
            server,
            requested,
            client,
            connection: None,
            summary: counts,
            label,
            place: summary,
        })
    }

    fn other(&mut self, event: &Event) -> Result<Option<Refusal>, RunFault>
        ensures happens { (task : Task) (o : Objects) (w : worlds.World) → WorldRepresents (λ b s. I.keys b s) task o self.old w
            → OnOk result ((v : worlds.World) × worlds.Happens task w (worlds.other (event_of event.now)) v × WorldRepresents (λ b s. I.keys b s) task o self.new v × NotesLead self.old w self.new v) }
        ensures refused { (task : Task) (o : Objects) (w : worlds.World) → WorldRepresents (λ b s. I.keys b s) task o self.old w → IfOk result (λ r. Refuses r (refusal_of task w (worlds.other (event_of event.now)))) }
        ensures fault { IfOk result (TellsFault (worlds.other (event_of event.now))) }
        ensures setup { setup_in self.new.client ≡ setup_in self.old.client }
        ensures link { result ≢ Err RunFault.Link }
    {
        if is_by_peer_on(&self.connection, event) {
            return Ok(Some(Refusal::ClientConnection));
        }
        httpedge::written_stays();
        Ok(by_hub(self.server.on(event)?))
    }

    fn request(&mut self, bytes: &[u8]) -> Result<Option<Refusal>, RunFault>
        ensures happens { (task : Task) (o : Objects) (w : worlds.World) → WorldRepresents (λ b s. I.keys b s) task o self.old w
            → OnOk result ((v : worlds.World) × worlds.Happens task w (worlds.request bytes.now) v × WorldRepresents (λ b s. I.keys b s) task o self.new v × NotesLead self.old w self.new v) }
        ensures refused { (task : Task) (o : Objects) (w : worlds.World) → WorldRepresents (λ b s. I.keys b s) task o self.old w → IfOk result (λ r. Refuses r (refusal_of task w (worlds.request bytes.now))) }
        ensures setup { setup_in self.new.client ≡ setup_in self.old.client }
        ensures link { result ≢ Err RunFault.Link }
    {
        let Some(id) = self.server.next_id() else {
            return Ok(Some(Refusal::NoId));
        };
        let copy = Vec::from_slice(self.alloc, bytes)?;
        self.requested.push(id)?;
        httpedge::written_stays();
        self.server.on_new(id, copy)?;
        Ok(None)
    }

    fn send(&mut self) -> Result<Option<Refusal>, RunFault>
        ensures happens { (task : Task) (o : Objects) (w : worlds.World) → WorldRepresents (λ b s. I.keys b s) task o self.old w
            → OnOk result ((v : worlds.World) × worlds.Happens task w worlds.send v × WorldRepresents (λ b s. I.keys b s) task o self.new v × NotesLead self.old w self.new v) }
        ensures refused { (task : Task) (o : Objects) (w : worlds.World) → WorldRepresents (λ b s. I.keys b s) task o self.old w → IfOk result (λ r. Refuses r (refusal_of task w worlds.send)) }
        ensures setup { setup_in self.new.client ≡ setup_in self.old.client }
        ensures link { result ≢ Err RunFault.Link }
    {
        let Some(id) = self.server.next_id() else {
            return Ok(Some(Refusal::NoId));
        };
        let Some(request) = self.client.next_request()? else {
            return Ok(Some(Refusal::NothingDue));
        };
        self.server.leave(&self.connection)?;
        self.server.on(&Event::Open(id))?;
        self.connection = Some(ClientConnection {
            id,
            request,
            sent: 0,
            handed: 0,
        });
        Ok(None)
    }

    fn to_server<L: Link>(&mut self, n: usize, link: &mut L) -> Result<Option<Refusal>, RunFault>
        ensures happens { (task : Task) (o : Objects) (w : worlds.World) → WorldRepresents (λ b s. I.keys b s) task o self.old w
            → OnOk result ((v : worlds.World) × worlds.Happens task w (worlds.to_server n) v × WorldRepresents (λ b s. I.keys b s) task o self.new v × NotesLead self.old w self.new v) }
        ensures refused { (task : Task) (o : Objects) (w : worlds.World) → WorldRepresents (λ b s. I.keys b s) task o self.old w → IfOk result (λ r. Refuses r (refusal_of task w (worlds.to_server n))) }
        ensures setup { setup_in self.new.client ≡ setup_in self.old.client }
        ensures link { L.may_fail ≡ false → result ≢ Err RunFault.Link }
    {
        let Some(own) = &mut self.connection else {
            return Ok(Some(Refusal::NothingWaits));
        };
        let piece = next_of_request(self.alloc, link, own, n)?;
        if piece.is_empty() {
            return Ok(Some(Refusal::NothingWaits));
        }
        own.sent = own.sent.saturating_add(piece.len());
        httpedge::written_stays();
        self.server.on(&Event::In(own.id, piece))?;
        close_if_over(&self.server, &mut self.client, own.id, own.handed);
        Ok(None)
    }

    fn to_client<L: Link>(&mut self, n: usize, link: &mut L) -> Result<Option<Refusal>, RunFault>
        ensures happens { (task : Task) (o : Objects) (w : worlds.World) → WorldRepresents (λ b s. I.keys b s) task o self.old w
            → OnOk result ((v : worlds.World) × worlds.Happens task w (worlds.to_client n) v × WorldRepresents (λ b s. I.keys b s) task o self.new v × NotesLead self.old w self.new v) }
        ensures refused { (task : Task) (o : Objects) (w : worlds.World) → WorldRepresents (λ b s. I.keys b s) task o self.old w → IfOk result (λ r. Refuses r (refusal_of task w (worlds.to_client n))) }
        ensures setup { setup_in self.new.client ≡ setup_in self.old.client }
        ensures link { L.may_fail ≡ false → result ≢ Err RunFault.Link }
    {
        let Some(own) = &mut self.connection else {
            return Ok(Some(Refusal::NothingWaits));
        };
        let written = self.server.written(own.id);
        let piece = next_piece(self.alloc, link, written, own.handed, n)?;
        if piece.is_empty() {
            return Ok(Some(Refusal::NothingWaits));
        }
        own.handed = own.handed.saturating_add(piece.len());
        self.client.feed(&piece)?;
        close_if_over(&self.server, &mut self.client, own.id, own.handed);
        Ok(None)
    }

    fn cut(&mut self) -> Result<Option<Refusal>, RunFault>
        ensures happens { (task : Task) (o : Objects) (w : worlds.World) → WorldRepresents (λ b s. I.keys b s) task o self.old w
            → OnOk result ((v : worlds.World) × worlds.Happens task w worlds.cut v × WorldRepresents (λ b s. I.keys b s) task o self.new v × NotesLead self.old w self.new v) }
        ensures refused { (task : Task) (o : Objects) (w : worlds.World) → WorldRepresents (λ b s. I.keys b s) task o self.old w → IfOk result (λ r. Refuses r (refusal_of task w worlds.cut)) }
        ensures setup { setup_in self.new.client ≡ setup_in self.old.client }
        ensures link { result ≢ Err RunFault.Link }
    {
        if self.connection.is_none() {
            return Ok(Some(Refusal::NoConnection));
        }
        self.client.closed();
        self.server.leave(&self.connection)?;
        self.connection = None;
        Ok(None)
    }

    fn restart(&mut self) -> Result<Option<Refusal>, RunFault>
        ensures happens { (task : Task) (o : Objects) (w : worlds.World) → WorldRepresents (λ b s. I.keys b s) task o self.old w
            → OnOk result ((v : worlds.World) × worlds.Happens task w worlds.restart v × WorldRepresents (λ b s. I.keys b s) task fin.empty self.new v × NotesLead self.old w self.new v) }
        ensures refused { (task : Task) (o : Objects) (w : worlds.World) → WorldRepresents (λ b s. I.keys b s) task o self.old w → IfOk result (λ r. Refuses r (refusal_of task w worlds.restart)) }
        ensures setup { setup_in self.new.client ≡ setup_in self.old.client }
        ensures link { result ≢ Err RunFault.Link }
    {
        let label = self.label.clone()?;
        self.client.restart();
        self.summary = Summary::new(self.alloc, label);
        self.server.leave(&self.connection)?;
        self.connection = None;
        Ok(None)
    }

    fn reconcile(&mut self) -> Result<Option<Refusal>, RunFault>
        ensures happens { (task : Task) (w : worlds.World) → WorldRepresents (λ b s. I.keys b s) task (kept w.client.cache) self.old w
            → OnOk result ((v : worlds.World) × worlds.Happens task w worlds.reconcile v × WorldRepresents (λ b s. I.keys b s) task (kept w.client.cache) self.new v × NotesLead self.old w self.new v) }
        ensures refused { (task : Task) (w : worlds.World) → WorldRepresents (λ b s. I.keys b s) task (kept w.client.cache) self.old w → IfOk result (λ r. Refuses r (refusal_of task w worlds.reconcile)) }
        ensures setup { setup_in self.new.client ≡ setup_in self.old.client }
        ensures link { result ≢ Err RunFault.Link }
    {
        if self.client.revision().is_none() {
            return Ok(Some(Refusal::NoRevision));
        }
        let Some(id) = self.server.next_id() else {
            return Ok(Some(Refusal::NoId));
        };
        let request = self
            .summary
            .apply_call(self.place.0.as_str(), self.place.1.as_str())?;
        httpedge::written_stays();
        self.server.on_new(id, request)?;
        Ok(None)
    }

    fn happen<L: Link>(
        &mut self,
        event: &WorldEvent,
        link: &mut L,
    ) -> Result<Option<Refusal>, RunFault>
        ensures happens { (task : Task) (w : worlds.World) → WorldRepresents (λ b s. I.keys b s) task (kept w.client.cache) self.old w
            → OnOk result ((v : worlds.World) × (o : Objects) × worlds.Happens task w (event_seen event.now) v × WorldRepresents (λ b s. I.keys b s) task o self.new v × NotesLead self.old w self.new v) }
        ensures refused { (task : Task) (w : worlds.World) → WorldRepresents (λ b s. I.keys b s) task (kept w.client.cache) self.old w → IfOk result (λ r. Refuses r (refusal_of task w (event_seen event.now))) }
        ensures fault { IfOk result (TellsFault (event_seen event.now)) }
        ensures setup { setup_in self.new.client ≡ setup_in self.old.client }
        ensures link { L.may_fail ≡ false → result ≢ Err RunFault.Link }
    {
        match event {
            WorldEvent::Other(event) => self.other(event),
            WorldEvent::Request(bytes) => self.request(bytes),
            WorldEvent::ClientSend => self.send(),
            WorldEvent::ToServer(n) => self.to_server(*n, link),
            WorldEvent::ToClient(n) => self.to_client(*n, link),
            WorldEvent::Cut => self.cut(),
            WorldEvent::Restart => self.restart(),
            WorldEvent::Reconcile => self.reconcile(),
        }
    }

    /// Counts what the client's notices tell.
    fn settle(&mut self) -> Result<(), RunFault>
        ensures settles { (task : Task) (o : Objects) (w : worlds.World) → WorldRepresents (λ b s. I.keys b s) task o self.old w → OnOk result (WorldRepresents (λ b s. I.keys b s) task (kept w.client.cache) self.new (settled w)) }
        ensures server { self.new.server ≡ self.old.server }
        ensures setup { setup_in self.new.client ≡ setup_in self.old.client }
        ensures link { result ≢ Err RunFault.Link }
    {
        let notices = self.client.take_notices();
        self.summary.note_all(&notices)?;
        Ok(())
    }

    /// Takes the next event.
    pub(crate) fn take<L: Link>(
        &mut self,
        event: &WorldEvent,
        link: &mut L,
    ) -> Result<Option<Refusal>, RunFault>
        ensures steps { (task : Task) (w : worlds.World) → WorldRepresents (λ b s. I.keys b s) task (kept w.client.cache) self.old w → OnOk result ((v : worlds.World) × Steps task w (event_seen event.now) v × WorldRepresents (λ b s. I.keys b s) task (kept v.client.cache) self.new v × AreNotesSince w.hub self.new.server.noted v.hub) }
        ensures refused { (task : Task) (w : worlds.World) → WorldRepresents (λ b s. I.keys b s) task (kept w.client.cache) self.old w → IfOk result (λ r. Refuses r (refusal_of task w (event_seen event.now))) }
        ensures fault { IfOk result (TellsFault (event_seen event.now)) }
        ensures setup { setup_in self.new.client ≡ setup_in self.old.client }
        ensures link { L.may_fail ≡ false → result ≢ Err RunFault.Link }
    {
        self.server.begin_notes();
        let refused = self.happen(event, link)?;
        self.settle()?;
        Ok(refused)
    }
}
