//! What a watch sends at a pump, and where it stands then. The bytes of the lines stand in `lines`.

ghost use Rattle.std.specs.Prelude.{◌≡◌, ◌≤◌, ◌++◌, [], ◌∷◌, true, IfOk, OnOk, map};
ghost use Rattle.history.specs.Seen.{reached};
ghost use Rattle.history.specs.Read.{entry_of};
ghost use Rattle.watchline.specs.Lines.{added, error_line, line_of};
ghost use Rattle.watchline.specs.Watches.{from_view, position_by, sending};
ghost use Rattle.watchline.specs.Views.{seen_change_of, cursor_of, lines_in, turn_of};

use crate::batches::seen_after;
use crate::cursor::{Progress, Pumped, WatchScope};
use crate::lines::{change_line, error_line, object_line};
use crate::objects::objects_sent;
use crate::seen::{Seen, reached};
use history::Entry;
use lists::{LabelCache, Start};
use revstore::Store;
use revtable::Fault;
use std::alloc::{AllocError, Global};

/// The lines of objects.
fn object_lines(alloc: Global, objects: &[Entry]) -> Result<Vec<String>, AllocError>
    ensures { IfOk result (λ v. lines_in v.items ≡ map line_of (map added (map entry_of objects.now))) }
{
    let mut lines = Vec::new(alloc);
    for object in objects {
        lines.push(object_line(alloc, object)?)?;
    }
    Ok(lines)
}

/// The lines of changes, behind those that are there.
fn push_change_lines(alloc: Global, lines: &mut Vec<String>, changes: &[Seen]) -> Result<(), Fault>
    ensures { OnOk result (lines_in lines.new.items ≡ lines_in lines.old.items ++ map line_of (map seen_change_of changes.now)) }
{
    for change in changes {
        lines.push(change_line(alloc, change)?)?;
    }
    Ok(())
}

/// The lines of objects, and then of changes.
fn lines_of(alloc: Global, objects: &[Entry], changes: &[Seen]) -> Result<Vec<String>, Fault>
    ensures { IfOk result (λ v. lines_in v.items ≡ map line_of (map added (map entry_of objects.now) ++ map seen_change_of changes.now)) }
{
    let mut lines = object_lines(alloc, objects)?;
    push_change_lines(alloc, &mut lines, changes)?;
    Ok(lines)
}

/// A position is moved to the current revision where nothing else was to be seen up to it.
fn position_by(has_room: bool, current: u64, position: u64) -> u64
    ensures { result ≡ position_by has_room current position }
{
    if has_room {
        return position.max(current);
    }
    position
}

/// Where a watch stands that has sent these changes: where room was left, nothing else was to be seen up to now.
fn moved(
    progress: &Progress,
    changes: &[Seen],
    left: Option<Start>,
    has_room: bool,
    current: u64,
) -> Progress
    ensures position { result.position ≡ position_by has_room current (reached progress.now.position (map seen_change_of changes.now)) }
    ensures sent { result.sent ≡ reached progress.now.sent (map seen_change_of changes.now) }
    ensures left { result.left ≡ left }
{
    let position = reached(progress.position, changes);
    Progress {
        position: position_by(has_room, current, position),
        sent: reached(progress.sent, changes),
        left,
    }
}

/// The next lines of a watch that has missed nothing, at most so many, and where it then stands.
pub(crate) fn next_turn(
    labels: &mut LabelCache,
    store: &mut Store,
    scope: &WatchScope,
    progress: &Progress,
    max: usize,
) -> Result<(Pumped, Progress), Fault>
    requires low { store.old.compacted ≤ progress.now.position }
    ensures sent { IfOk result (λ p. turn_of p.0 (cursor_of scope.now p.1) ≡ sending (from_view store.old) max (cursor_of scope.now progress.now)) }
    ensures same { store.new ≡ store.old }
{
    let alloc = labels.allocator();
    let current = store.current();
    let (objects, left) = objects_sent(alloc, store, scope, progress, max)?;
    let room = max.saturating_sub(objects.len());
    let changes = seen_after(labels, store, scope, progress.position, room)?;
    let lines = lines_of(alloc, &objects, &changes)?;
    let next = moved(progress, &changes, left, lines.len() < max, current);
    Ok((
        Pumped {
            lines,
            ended: false,
        },
        next,
    ))
}

/// The end of a watch whose next changes were forgotten.
pub(crate) fn expired(alloc: Global, position: u64, compacted: u64) -> Result<Pumped, AllocError>
    ensures lines { IfOk result (λ p. lines_in p.lines.items ≡ error_line position compacted ∷ []) }
    ensures ended { IfOk result (λ p. p.ended ≡ true) }
{
    let mut lines = Vec::new(alloc);
    lines.push(error_line(alloc, position, compacted)?)?;
    Ok(Pumped { lines, ended: true })
}
