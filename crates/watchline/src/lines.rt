//! The bytes of a watch's lines. Which lines are due stands in `sending`, their types in `event`.

ghost use Rattle.std.specs.Prelude.{◌≡◌, IfOk, string_bytes};
ghost use Rattle.serde_json.specs.View.{view};
ghost use Rattle.serde_json.specs.Written.{compact_text};
ghost use Rattle.std.specs.Fmt.{decimal};
ghost use Rattle.history.specs.Read.{entry_of};
ghost use Rattle.watchline.specs.Lines.{added, bookmark_line, bookmark_value, deleted_line, error_line, line, line_of};
ghost use Rattle.watchline.specs.Views.{seen_change_of};

use crate::event::EventType;
use crate::seen::{Seen, SeenKind};
use crate::status::expired_text;
use crate::version::text_at_version;
use history::Entry;
use revtable::Fault;
use serde_json::{Value, json};
use std::alloc::{AllocError, Global};

/// How many bytes of a line stand around its object's text at most.
const FRAME: usize = 30;

/// A line: its type, the text of its object, which is copied, and a line feed.
pub fn line(alloc: Global, event_type: EventType, object: &str) -> Result<String, AllocError>
    ensures { IfOk result (λ s. string_bytes s ≡ line event_type object.now) }
{
    let mut line = String::with_capacity(alloc, object.len().saturating_add(FRAME))?;
    line.push_str("{\"type\":\"")?;
    line.push_str(event_type.text())?;
    line.push_str("\",\"object\":")?;
    line.push_str(object)?;
    line.push_str("}\n")?;
    Ok(line)
}

/// The line of an object that stood when the watch was opened.
pub(crate) fn object_line(alloc: Global, entry: &Entry) -> Result<String, AllocError>
    ensures { IfOk result (λ s. string_bytes s ≡ line_of (added (entry_of entry.now))) }
{
    line(alloc, EventType::Added, entry.object.body.as_str())
}

fn deleted_line(alloc: Global, body: &str, revision: u64) -> Result<String, Fault>
    ensures { IfOk result (λ s. string_bytes s ≡ deleted_line revision body.now) }
{
    let text = text_at_version(alloc, body, revision)?;
    Ok(line(alloc, EventType::Deleted, text.as_str())?)
}

/// The line of a change that is seen.
pub(crate) fn change_line(alloc: Global, seen: &Seen) -> Result<String, Fault>
    ensures { IfOk result (λ s. string_bytes s ≡ line_of (seen_change_of seen.now)) }
{
    let body = seen.object.body.as_str();
    match seen.kind {
        SeenKind::Added => Ok(line(alloc, EventType::Added, body)?),
        SeenKind::Modified => Ok(line(alloc, EventType::Modified, body)?),
        SeenKind::Deleted => deleted_line(alloc, body, seen.object.revision),
    }
}

fn bookmark_value(
    alloc: Global,
    api_version: &str,
    kind: &str,
    version: &str,
) -> Result<Value, AllocError>
    ensures { IfOk result (λ v. view v ≡ bookmark_value api_version.now kind.now version.now) }
{
    json!(in alloc; {
        "apiVersion": api_version,
        "kind": kind,
        "metadata": {"resourceVersion": version}
    })
}

fn bookmark_text(
    alloc: Global,
    api_version: &str,
    kind: &str,
    revision: u64,
) -> Result<String, AllocError>
    ensures { IfOk result (λ s. string_bytes s ≡ compact_text (bookmark_value api_version.now kind.now (decimal revision))) }
{
    let version = revision.to_string(alloc)?;
    let value = bookmark_value(alloc, api_version, kind, version.as_str())?;
    Ok(value.to_string(alloc)?)
}

/// The line of a bookmark: all changes up to the revision were sent.
pub(crate) fn bookmark_line(
    alloc: Global,
    api_version: &str,
    kind: &str,
    revision: u64,
) -> Result<String, AllocError>
    ensures { IfOk result (λ s. string_bytes s ≡ bookmark_line api_version.now kind.now revision) }
{
    let text = bookmark_text(alloc, api_version, kind, revision)?;
    line(alloc, EventType::Bookmark, text.as_str())
}

/// The line that ends a watch whose next changes were forgotten.
pub(crate) fn error_line(alloc: Global, revision: u64, compacted: u64) -> Result<String, AllocError>
    ensures { IfOk result (λ s. string_bytes s ≡ error_line revision compacted) }
{
    let text = expired_text(alloc, revision, compacted)?;
    line(alloc, EventType::Error, text.as_str())
}
