//! The server's side of a run: a hub of which nothing is taken, the ids of its connections, and how far those were that an
//! event has changed. The client's side stands in `world`.

ghost use Rattle.std.specs.Prelude.{◌≡◌, ◌≢◌, ◌≤◌, ◌++◌, Err, IfOk, OnOk, Some, map, option_map};
ghost use Rattle.api_types.specs.Served.{types_view};
ghost use Rattle.history.specs.History.{fresh, last_revision};
ghost use Rattle.httpedge.specs.Connections.{next_id, written_on};
ghost use Rattle.httpedge.specs.HubViews.{event_of};
ghost use Rattle.httpedge.specs.NextTurns.{next_turn};
ghost use Rattle.httpedge.specs.Runs.{Steps};
ghost use Rattle.httpedge.specs.Steps as edge;
ghost use Rattle.world.specs.Recording.{Records, ReportsFile, ReportsRefusal};
ghost use Rattle.world.specs.Views.{connection_seen, reply_seen};
ghost use Rattle.world.specs.Serving.{Left, Serves, all_written, is_over_in, opened_by, written_at};
ghost use Rattle.world.specs.Extents.{AreNotesSince, NotesFollow};

use crate::connection::ClientConnection;
use crate::extents::{Extent, note_changes};
use crate::fault::RunFault;
use crate::recording::{Handled, Recording};
use api_types::Types;
use httpedge::{Event, HubFailure, HubRefusal};
use std::alloc::{AllocError, Global};
use std::collections::BTreeMap;
use verbs::Api;

/// A hub of which nothing is taken, and the ids of all its connections, which rise.
#[derive(Drop)]
pub(crate) struct Server {
    alloc: Global,
    pub(crate) recording: Recording,
    ids: Vec<u64>,
    /// How far the connections were, before they changed, that have changed since the notes were begun.
    pub(crate) noted: BTreeMap<u64, Extent>,
}

/// Notes the id of a connection that opened.
fn note_id(ids: &mut Vec<u64>, event: &Event) -> Result<(), AllocError>
    ensures { OnOk result (ids.new.items ≡ ids.old.items ++ opened_by (event_of event.now)) }
{
    if let Event::Open(id) = event {
        ids.push(*id)?;
    }
    Ok(())
}

/// All that was written on these connections.
fn replies_of(
    alloc: Global,
    recording: &Recording,
    ids: &[u64],
) -> Result<Vec<(u64, Vec<u8>)>, AllocError>
    ensures { (s : edge.State) → Records recording.now s → IfOk result (λ v. map reply_seen v.items ≡ map (written_at s) ids.now) }
{
    let mut all = Vec::with_capacity(alloc, ids.len())?;
    for id in ids {
        let written = Vec::from_slice(alloc, recording.written(*id))?;
        all.push((*id, written))?;
    }
    Ok(all)
}

impl Server {
    /// A hub without connections, over an API without objects at this revision.
    pub(crate) fn new_at(alloc: Global, types: Types, revision: u64) -> Result<Server, RunFault>
        requires from { 1 ≤ revision }
        requires to { revision ≤ last_revision }
        ensures serves { IfOk result (λ server. Serves server (edge.start (types_view types) (fresh revision))) }
        ensures link { result ≢ Err RunFault.Link }
    {
        Ok(Server {
            alloc,
            recording: Recording::new(alloc, Api::new_at(alloc, types, revision)?),
            ids: Vec::new(alloc),
            noted: BTreeMap::new(alloc),
        })
    }

    /// Begins the notes: from here on it is noted how far connections were before they changed.
    pub(crate) fn begin_notes(&mut self)
        ensures serves { (s : edge.State) → Serves self.old s → Serves self.new s }
        ensures notes { (s : edge.State) → AreNotesSince s self.new.noted s }
    {
        self.noted = BTreeMap::new(self.alloc);
    }

    /// Hands the hub an event: why it was refused, if it was. A refused one changes nothing.
    pub(crate) fn on(&mut self, event: &Event) -> Result<Option<HubRefusal>, HubFailure>
        ensures steps { (s : edge.State) → Serves self.old s → OnOk result ((t : edge.State) × Steps s (event_of event.now) t × Serves self.new t × NotesFollow self.old.noted s self.new.noted t) }
        ensures refused { (s : edge.State) → Serves self.old s → IfOk result (ReportsRefusal s (event_of event.now)) }
        ensures reported { IfOk result (ReportsFile (event_of event.now)) }
    {
        httpedge::each_changes();
        httpedge::written_stays();
        httpedge::ends_stay();
        match self.recording.on(event)? {
            Handled::Refused(why) => Ok(Some(why)),
            Handled::Done(effect) => {
                note_id(&mut self.ids, event)?;
                note_changes(&mut self.noted, &self.recording, effect.changes())?;
                Ok(None)
            }
        }
    }

    /// These bytes come in one piece on a new connection.
    pub(crate) fn on_new(&mut self, id: u64, bytes: Vec<u8>) -> Result<(), HubFailure>
        ensures { (s : edge.State) → Serves self.old s → OnOk result ((mid : edge.State) × (t : edge.State) × Steps s (edge.opens id) mid × Steps mid (edge.comes id bytes.items) t × Serves self.new t × NotesFollow self.old.noted s self.new.noted t) }
    {
        self.on(&Event::Open(id))?;
        self.on(&Event::In(id, bytes))?;
        Ok(())
    }

    /// The client leaves its connection, if it has one.
    pub(crate) fn leave(&mut self, own: &Option<ClientConnection>) -> Result<(), HubFailure>
        ensures { (s : edge.State) → Serves self.old s → OnOk result ((t : edge.State) × Left (option_map connection_seen own.now) s t × Serves self.new t × NotesFollow self.old.noted s self.new.noted t) }
    {
        match own {
            Some(own) => {
                self.on(&Event::Gone(own.id))?;
                Ok(())
            }
            None => Ok(()),
        }
    }

    /// The id after those of all connections, if one is left.
    pub(crate) fn next_id(&self) -> Option<u64>
        ensures { (s : edge.State) → Serves self.now s → result ≡ next_id s.connections }
    {
        self.recording.hub.next_id()
    }

    /// The machine's current revision, which there always is.
    pub(crate) fn current(&self) -> Option<u64>
        ensures { (s : edge.State) → Serves self.now s → result ≡ Some s.machine.current }
    {
        let Ok((current, _)) = self.recording.hub.marks() else {
            return None;
        };
        Some(current)
    }

    /// The event that gives the watch on a connection its next turn.
    pub(crate) fn next_turn(&self, id: u64) -> Option<Event>
        ensures { (s : edge.State) → Serves self.now s → option_map event_of result ≡ next_turn s id }
    {
        self.recording.hub.next_turn(id)
    }

    /// All that was written on a connection.
    pub(crate) fn written(&self, id: u64) -> &[u8]
        ensures { (s : edge.State) → Serves self.now s → result.now ≡ written_on s.connections id }
    {
        self.recording.written(id)
    }

    /// Whether a connection has ended, and this many bytes are all that was written on it.
    pub(crate) fn is_over(&self, id: u64, handed: usize) -> bool
        ensures { (s : edge.State) → Serves self.now s → result ≡ is_over_in s id handed }
    {
        self.recording.hub.ended(id) && self.recording.written(id).len() <= handed
    }

    /// All that was written on each connection, by their ids.
    pub(crate) fn replies(&self) -> Result<Vec<(u64, Vec<u8>)>, AllocError>
        ensures { (s : edge.State) → Serves self.now s → IfOk result (λ v. map reply_seen v.items ≡ all_written s) }
    {
        replies_of(self.alloc, &self.recording, &self.ids)
    }
}
