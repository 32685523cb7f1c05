//! How far connections were before they changed, and what became of them since.

ghost use Rattle.std.specs.Prelude.{◌≡◌, ◌++◌, ◌&&◌, ◌-◌, ◌∷◌, [], not, IfOk, OnOk, drop, map};
ghost use Rattle.std.specs.List.{filter};
ghost use Rattle.httpedge.specs.Steps.{State};
ghost use Rattle.world.specs.Extents.{AreNoted, AreNotesSince, extent_seen};
ghost use Rattle.world.specs.Recording.{Records};
ghost use Rattle.world.specs.Stepping.{added, ended_since, is_some_bytes};
ghost use Rattle.world.specs.Views.{reply_seen};

use crate::recording::{Recording, put_first};
use httpedge::Change;
use std::alloc::{AllocError, Global};
use std::collections::BTreeMap;

/// How far a connection is.
#[derive(Clone, Copy, Debug)]
pub(crate) struct Extent {
    /// How many bytes were written on it.
    pub(crate) written: usize,
    /// Whether it has ended.
    pub(crate) ended: bool,
}

/// How far a connection was before a change, by how far it is.
fn extent_before(written: usize, has_ended: bool, change: &Change) -> Extent
    ensures { extent_seen result ≡ (written - change.now.bytes, has_ended && not change.now.has_ended) }
{
    Extent {
        written: written.saturating_sub(change.bytes),
        ended: has_ended && !change.has_ended,
    }
}

/// Notes how far the connections of these changes were before, where it isn't noted.
pub(crate) fn note_changes(
    noted: &mut BTreeMap<u64, Extent>,
    recording: &Recording,
    changes: &[(u64, Change)],
) -> Result<(), AllocError>
    ensures { (t : State) → Records recording.now t → OnOk result (AreNoted t changes.now noted.old noted.new) }
{
    for (id, change) in changes {
        let written = recording.written(*id).len();
        let extent = extent_before(written, recording.hub.ended(*id), change);
        put_first(noted, *id, extent)?;
    }
    Ok(())
}

/// The bytes from a place on.
fn rest_of(bytes: &[u8], from: usize) -> &[u8]
    ensures { result.now ≡ drop from bytes.entry.now }
{
    bytes.get(from..).unwrap_or(&[])
}

/// Keeps what was written on a connection, if something was.
fn push_added(
    alloc: Global,
    all: &mut Vec<(u64, Vec<u8>)>,
    id: u64,
    bytes: &[u8],
) -> Result<(), AllocError>
    ensures { OnOk result (map reply_seen all.new.items ≡ map reply_seen all.old.items ++ filter is_some_bytes ((id, bytes.now) ∷ [])) }
{
    if bytes.is_empty() {
        return Ok(());
    }
    let copy = Vec::from_slice(alloc, bytes)?;
    all.push((id, copy))?;
    Ok(())
}

/// What was written on each connection since the notes were begun, where something was, by their ids.
pub(crate) fn added_since(
    alloc: Global,
    recording: &Recording,
    noted: &BTreeMap<u64, Extent>,
) -> Result<Vec<(u64, Vec<u8>)>, AllocError>
    ensures { (s t : State) → Records recording.now t → AreNotesSince s noted.now t → IfOk result (λ v. map reply_seen v.items ≡ added s t) }
{
    let mut all = Vec::new(alloc);
    for (id, extent) in noted.iter() {
        let rest = rest_of(recording.written(*id), extent.written);
        push_added(alloc, &mut all, *id, rest)?;
    }
    Ok(all)
}

/// Whether a connection has just ended, by whether it had ended and has.
fn has_just_ended(had_ended: bool, has_ended: bool) -> bool
    ensures { result ≡ (has_ended && not had_ended) }
{
    has_ended && !had_ended
}

/// Keeps a connection that has just ended.
fn push_ended(
    all: &mut Vec<u64>,
    id: u64,
    had_ended: bool,
    has_ended: bool,
) -> Result<(), AllocError>
    ensures { OnOk result (all.new.items ≡ all.old.items ++ filter (λ _. has_ended && not had_ended) (id ∷ [])) }
{
    if !has_just_ended(had_ended, has_ended) {
        return Ok(());
    }
    Ok(all.push(id)?)
}

/// The connections that ended since the notes were begun, by their ids.
pub(crate) fn ended_since(
    alloc: Global,
    recording: &Recording,
    noted: &BTreeMap<u64, Extent>,
) -> Result<Vec<u64>, AllocError>
    ensures { (s t : State) → Records recording.now t → AreNotesSince s noted.now t → IfOk result (λ v. v.items ≡ ended_since s t) }
{
    let mut all = Vec::new(alloc);
    for (id, extent) in noted.iter() {
        push_ended(&mut all, *id, extent.ended, recording.hub.ended(*id))?;
    }
    Ok(all)
}
