//! Reads a line of a watch: a change, a bookmark or an error. The object in it is read in `object`, the body of a list in
//! `page`.

ghost use Rattle.std.specs.Prelude.{◌≡◌, option_map};
ghost use Rattle.serde_json.specs.View.{members_view, view};
ghost use Rattle.decoder.specs.Lines.{bookmark_of, line_in, line_of, line_by_type};
ghost use Rattle.decoder.specs.Views.{Returns, Says, line_seen, object_value_in, type_in, wanted_of};

use crate::fault::DecodeFault;
use crate::kinds::check_kind;
use crate::malformed::Malformed;
use crate::members::{at, members_of, metadata_in, text_at, value_in, version_in};
use crate::object::{object_of, shared_object_of};
use crate::wanted::Wanted;
use indexer::Object;
use serde_json::{Map, Value};
use std::alloc::Global;
use std::rc::Rc;

/// What a line of a watch says.
#[derive(Debug, Drop)]
pub enum Line {
    /// The object was added or modified.
    Put(Rc<Object>),
    /// The object was deleted: as it stood before, with the deletion's revision.
    Deleted(Object),
    /// All changes up to this revision have been told.
    Bookmark(u64),
    /// The watch has failed.
    Error,
}

fn bookmark_of(wanted: &Wanted, value: &Value) -> Result<u64, Malformed>
    ensures { Says (λ n. n) result (bookmark_of (wanted_of wanted.now) (view value.now)) }
{
    let top = members_of(value)?;
    check_kind(wanted, top)?;
    version_in(metadata_in(top)?)
}

fn line_by_type(
    alloc: Global,
    wanted: &Wanted,
    name: &str,
    value: &Value,
) -> Result<Line, DecodeFault>
    ensures { Returns line_seen result (line_by_type (wanted_of wanted.now) name.now (view value.now)) }
{
    match name {
        "ADDED" | "MODIFIED" => Ok(Line::Put(shared_object_of(alloc, wanted, value)?)),
        "DELETED" => Ok(Line::Deleted(object_of(alloc, wanted, value)?)),
        "BOOKMARK" => Ok(Line::Bookmark(bookmark_of(wanted, value)?)),
        "ERROR" => Ok(Line::Error),
        _ => Err(DecodeFault::Malformed(Malformed::LineType)),
    }
}

fn type_in(top: &Map<String, Value>) -> Result<&str, Malformed>
    ensures { Says (λ s. s.now) result (type_in (members_view top.now.entries)) }
{
    text_at(top, "type").ok_or(Malformed::LineType)
}

fn object_value_in(top: &Map<String, Value>) -> Result<&Value, Malformed>
    ensures { Says (λ v. view v.now) result (object_value_in (members_view top.now.entries)) }
{
    at(top, "object").ok_or(Malformed::Object)
}

fn line_of(alloc: Global, wanted: &Wanted, value: &Value) -> Result<Line, DecodeFault>
    ensures { Returns line_seen result (line_of (wanted_of wanted.now) (view value.now)) }
{
    let top = members_of(value)?;
    let name = type_in(top)?;
    let object = object_value_in(top)?;
    line_by_type(alloc, wanted, name, object)
}

/// What a line of a watch says (Kubernetes API Concepts, "Efficient detection of changes"), or its first error.
pub fn read_line(alloc: Global, wanted: &Wanted, bytes: &[u8]) -> Result<Line, DecodeFault>
    ensures { Returns line_seen result (line_in (wanted_of wanted.now) bytes.now) }
{
    let value = value_in(alloc, bytes)?;
    line_of(alloc, wanted, &value)
}
