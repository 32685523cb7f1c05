//! Reads the body of a list's answer: revision, token and objects. An object is read in `object`, a watch's line in
//! `line`.

ghost use Rattle.std.specs.Prelude.{◌≡◌, map, option_map};
ghost use Rattle.serde_json.specs.View.{items_view, members_view, view};
ghost use Rattle.indexer.specs.Objects.{shared_of};
ghost use Rattle.decoder.specs.Pages.{objects_of, page_in, page_of, token_of};
ghost use Rattle.decoder.specs.Views.{Returns, Says, items_in, page_seen, wanted_of};

use crate::fault::DecodeFault;
use crate::kinds::check_list_kind;
use crate::malformed::Malformed;
use crate::members::{at, members_of, metadata_in, value_in, version_in};
use crate::object::shared_object_of;
use crate::wanted::Wanted;
use indexer::Object;
use json_values::{copied, unless_empty};
use serde_json::{Map, Value};
use std::alloc::Global;
use std::rc::Rc;

/// A list, or the part of it that one answer has.
#[derive(Debug, Drop)]
pub struct Page {
    /// The revision that the list is of.
    pub revision: u64,
    /// Where it goes on, if some objects are left.
    pub token: Option<String>,
    pub objects: Vec<Rc<Object>>,
}

/// The text of `continue`; an empty one is none.
fn token_in(value: Option<&Value>) -> Result<Option<&str>, Malformed>
    ensures { Says (option_map (λ s. s.now)) result (token_of (option_map (λ v. view v.now) value.entry)) }
{
    let Some(value) = value else {
        return Ok(None);
    };
    match value.as_str() {
        Some(text) => Ok(unless_empty(text)),
        None => Err(Malformed::Token),
    }
}

fn items_in(top: &Map<String, Value>) -> Result<&[Value], Malformed>
    ensures { Says (λ v. items_view v.now) result (items_in (members_view top.now.entries)) }
{
    match at(top, "items") {
        Some(Value::Array(items)) => Ok(items),
        _ => Err(Malformed::Items),
    }
}

fn objects_of(
    alloc: Global,
    wanted: &Wanted,
    items: &[Value],
) -> Result<Vec<Rc<Object>>, DecodeFault>
    ensures { Returns (λ v. map shared_of v.items) result (objects_of (wanted_of wanted.now) (items_view items.now)) }
{
    let mut objects = Vec::with_capacity(alloc, items.len())?;
    for item in items {
        objects.push(shared_object_of(alloc, wanted, item)?)?;
    }
    Ok(objects)
}

fn page_of(alloc: Global, wanted: &Wanted, value: &Value) -> Result<Page, DecodeFault>
    ensures { Returns page_seen result (page_of (wanted_of wanted.now) (view value.now)) }
{
    let top = members_of(value)?;
    check_list_kind(wanted, top)?;
    let metadata = metadata_in(top)?;
    let revision = version_in(metadata)?;
    let token = token_in(at(metadata, "continue"))?;
    let items = items_in(top)?;
    let objects = objects_of(alloc, wanted, items)?;
    Ok(Page {
        revision,
        token: copied(alloc, token)?,
        objects,
    })
}

/// What the body of a list's answer says (Kubernetes API Concepts, "Retrieving large results sets in chunks"), or
/// its first error.
pub fn read_page(alloc: Global, wanted: &Wanted, bytes: &[u8]) -> Result<Page, DecodeFault>
    ensures { Returns page_seen result (page_in (wanted_of wanted.now) bytes.now) }
{
    let value = value_in(alloc, bytes)?;
    page_of(alloc, wanted, &value)
}
