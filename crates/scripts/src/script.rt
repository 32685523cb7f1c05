//! Scripts: the events of a text, one JSON object a line. They are played in `replaying`.
ghost use Rattle.std.specs.Prelude.{◌≡◌, ℕ, IfOk, IsErrOf, Some, map, option_and_then, option_map, string_bytes};
ghost use Rattle.std.specs.Vec.Iter.{into_iter_items};
ghost use Rattle.serde_json.specs.View.{items_view, members_view, view};
ghost use Rattle.serde_json.specs.Find.{as_bool, as_object, as_str};
ghost use Rattle.world.specs.Views.{event_seen};
ghost use Rattle.std.specs.Result.{result_ok};
ghost use Rattle.hex.specs.Hex.{decode_of};
ghost use Rattle.scripts.specs.Script.{AreEvents, IsFirstBad, ReadsLine, lines_of};
ghost use Rattle.scripts.specs.declared.line_fault.LineFault.{LineFault};
ghost use Rattle.scripts.specs.ScriptSteps.{Makes, applies, apply_in, client_named, comes_in, digits_in, event_of_digits, happens, is_target, line_in, line_named, event_named, line_of, next_item, next_named, number_in, numbered, only_member, pumps_in, text_in, with_items, with_rest};
ghost use Rattle.scripts.specs.Views.{apply_of, line_view};

use crate::apply_line::{ApplyLine, request_of};
use crate::line_fault::{LineFault, line_fault};
use hex::FromHexError;
use httpedge::Event;
use json_values::{into_array, into_object};
use serde_json::{Map, Value};
use std::alloc::{AllocError, AllocFailed, Global};
use std::collections::btree_map::IntoIter;
use std::vec;
use thiserror::Error;
use world::WorldEvent;

/// What a line says: an apply, whose request is still to be made, bytes of a connection, whose digits are still to be read, or
/// an event as it is.
#[derive(Debug, Drop)]
pub(crate) enum Line {
    Apply(ApplyLine),
    Bytes(u64, String),
    Event(WorldEvent),
}

fn into_text(value: Value) -> Option<String>
    ensures { option_map string_bytes result ≡ as_str (view value) }
{
    match value {
        Value::String(text) => Some(text),
        _ => None,
    }
}

/// The next member's value, if the member has this name.
fn next_named(members: &mut IntoIter<String, Value>, name: &str) -> Option<Value>
    ensures { option_map (λ v. (view v, members_view members.new)) result ≡ next_named name.now (members_view members.old) }
{
    match members.next() {
        Some((known, value)) if known.as_str() == name => Some(value),
        _ => None,
    }
}

fn next_truth(members: &mut IntoIter<String, Value>, name: &str) -> Option<bool>
    ensures { option_map (λ b. (b, members_view members.new)) result ≡ with_rest as_bool (next_named name.now (members_view members.old)) }
{
    next_named(members, name)?.as_bool()
}

fn next_text(members: &mut IntoIter<String, Value>, name: &str) -> Option<String>
    ensures { option_map (λ s. (string_bytes s, members_view members.new)) result ≡ with_rest as_str (next_named name.now (members_view members.old)) }
{
    into_text(next_named(members, name)?)
}

fn is_target(target: &str) -> bool
    ensures { result ≡ is_target target.now }
{
    target
        .bytes()
        .all(|byte| (33..=126).contains(&byte) && byte != b'?')
}

fn apply_in(members: Map<String, Value>) -> Option<ApplyLine>
    ensures { option_map apply_of result ≡ apply_in (members_view members.entries) }
{
    // A map gives its members in byte order of their names.
    let mut members = members.into_iter();
    let body = next_named(&mut members, "body")?;
    let force = next_truth(&mut members, "force")?;
    let manager = next_text(&mut members, "manager")?;
    let target = next_text(&mut members, "target")?;
    if members.next().is_some() || !is_target(target.as_str()) {
        return None;
    }
    Some(ApplyLine {
        body,
        force,
        manager,
        target,
    })
}

/// The name and the value of an object's only member.
pub(crate) fn only_member(members: Map<String, Value>) -> Option<(String, Value)>
    ensures { option_map (λ m. (string_bytes m.0, view m.1)) result ≡ only_member (members_view members.entries) }
{
    let mut members = members.into_iter();
    let member = members.next()?;
    if members.next().is_some() {
        return None;
    }
    Some(member)
}

/// The next item's value. Its clause says what `next` does in the words of the definition, for both functions below.
fn next_item(items: &mut vec::IntoIter<Value>) -> Option<Value>
    ensures { option_map (λ v. (view v, items_view (into_iter_items items.new))) result ≡ next_item (items_view (into_iter_items items.old)) }
{
    items.next()
}

fn next_number(items: &mut vec::IntoIter<Value>) -> Option<u64>
    ensures { option_map (λ n. (n, items_view (into_iter_items items.new))) result ≡ with_items number_in (next_item (items_view (into_iter_items items.old))) }
{
    next_item(items)?.as_u64()
}

fn next_words(items: &mut vec::IntoIter<Value>) -> Option<String>
    ensures { option_map (λ s. (string_bytes s, items_view (into_iter_items items.new))) result ≡ with_items as_str (next_item (items_view (into_iter_items items.old))) }
{
    into_text(next_item(items)?)
}

/// A connection, and a text that comes on it.
fn comes_in(items: Vec<Value>) -> Option<(u64, String)>
    ensures { option_map (λ p. (p.0, string_bytes p.1)) result ≡ comes_in (items_view items.items) }
{
    let mut items = items.into_iter();
    let connection = next_number(&mut items)?;
    let text = next_words(&mut items)?;
    if items.next().is_some() {
        return None;
    }
    Some((connection, text))
}

/// The text's bytes come on a connection.
fn text_in(items: Vec<Value>) -> Option<WorldEvent>
    ensures { option_map event_seen result ≡ text_in (items_view items.items) }
{
    let (connection, text) = comes_in(items)?;
    Some(WorldEvent::Other(Event::In(connection, text.into_bytes())))
}

/// The bytes whose hexadecimal digits the text has come on a connection.
fn digits_in(items: Vec<Value>) -> Option<Line>
    ensures { option_map line_view result ≡ digits_in (items_view items.items) }
{
    let (connection, digits) = comes_in(items)?;
    Some(Line::Bytes(connection, digits))
}

/// A connection, and how many lines may be written on it.
fn pumps_in(items: Vec<Value>) -> Option<WorldEvent>
    ensures { option_map event_seen result ≡ pumps_in (items_view items.items) }
{
    let mut items = items.into_iter();
    let connection = next_number(&mut items)?;
    let max = next_number(&mut items)?;
    if items.next().is_some() {
        return None;
    }
    Some(WorldEvent::Other(Event::Pump(connection, max)))
}

/// An event that is told by one number.
fn numbered(name: &str, number: u64) -> Option<WorldEvent>
    ensures { option_map event_seen result ≡ numbered name.now number }
{
    match name {
        "open" => Some(WorldEvent::Other(Event::Open(number))),
        "gone" => Some(WorldEvent::Other(Event::Gone(number))),
        "tick" => Some(WorldEvent::Other(Event::Tick(number))),
        "compact" => Some(WorldEvent::Other(Event::Compact(number))),
        "toServer" => Some(WorldEvent::ToServer(number as usize)),
        "toClient" => Some(WorldEvent::ToClient(number as usize)),
        _ => None,
    }
}

/// What the client does, by its name.
fn client_named(name: &str) -> Option<WorldEvent>
    ensures { option_map event_seen result ≡ client_named name.now }
{
    match name {
        "send" => Some(WorldEvent::ClientSend),
        "cut" => Some(WorldEvent::Cut),
        "restart" => Some(WorldEvent::Restart),
        "reconcile" => Some(WorldEvent::Reconcile),
        _ => None,
    }
}

fn event_named(name: &str, value: Value) -> Option<WorldEvent>
    ensures { option_map event_seen result ≡ event_named name.now (view value) }
{
    match name {
        "in" => text_in(into_array(value)?),
        "pump" => pumps_in(into_array(value)?),
        "client" => client_named(value.as_str()?),
        _ => numbered(name, value.as_u64()?),
    }
}

fn line_named(name: &str, value: Value) -> Option<Line>
    ensures { option_map line_view result ≡ line_named name.now (view value) }
{
    match name {
        "apply" => Some(Line::Apply(apply_in(into_object(value)?)?)),
        "bytes" => digits_in(into_array(value)?),
        "types" => Some(Line::Event(WorldEvent::Other(Event::Retype(value)))),
        _ => Some(Line::Event(event_named(name, value)?)),
    }
}

fn line_in(value: Value) -> Option<Line>
    ensures { option_map line_view result ≡ line_in (view value) }
{
    let (name, value) = only_member(into_object(value)?)?;
    line_named(name.as_str(), value)
}

/// What a text says, or None where it is no event's.
fn line_of(alloc: Global, text: &str) -> Result<Option<Line>, AllocError>
    ensures { IfOk result (λ o. option_map line_view o ≡ line_of text.now) }
{
    match Value::from_str(alloc, text) {
        Ok(value) => Ok(line_in(value)),
        Err(error) if error.is_memory() => Err(AllocError),
        Err(_) => Ok(None),
    }
}

/// The bytes that hexadecimal digits tell, two digits a byte, or None where a text has no such digits.
fn bytes_of(alloc: Global, digits: &str) -> Result<Option<Vec<u8>>, AllocError>
    ensures { IfOk result (λ o. option_map (λ v. v.items) o ≡ result_ok (decode_of digits.now)) }
{
    match hex::decode(alloc, digits) {
        Ok(bytes) => Ok(Some(bytes)),
        Err(FromHexError::OutOfMemory) => Err(AllocError),
        Err(FromHexError::InvalidHexCharacter { .. }) => Ok(None),
        Err(FromHexError::OddLength) => Ok(None),
        Err(FromHexError::InvalidStringLength) => Ok(None),
    }
}

/// The event of bytes that come on a connection.
fn event_of_bytes(
    alloc: Global,
    connection: u64,
    digits: &str,
) -> Result<Option<WorldEvent>, AllocError>
    ensures { IfOk result (λ o. option_map event_seen o ≡ event_of_digits connection digits.now) }
{
    match bytes_of(alloc, digits)? {
        Some(bytes) => Ok(Some(WorldEvent::Other(Event::In(connection, bytes)))),
        None => Ok(None),
    }
}

/// The event of a line, of an apply its request; or None where there are no bytes.
fn event_of(alloc: Global, line: Line) -> Result<Option<WorldEvent>, AllocError>
    ensures { IfOk result (λ o. Makes (line_view line) (option_map event_seen o)) }
{
    match line {
        Line::Apply(line) => Ok(Some(WorldEvent::Request(request_of(alloc, &line)?))),
        Line::Bytes(connection, digits) => event_of_bytes(alloc, connection, digits.as_str()),
        Line::Event(event) => Ok(Some(event)),
    }
}

/// The event whose line a text is, or None where it is no event's.
pub(crate) fn read_line(alloc: Global, text: &str) -> Result<Option<WorldEvent>, AllocError>
    ensures { IfOk result (λ o. ReadsLine text.now (option_map event_seen o)) }
{
    match line_of(alloc, text)? {
        Some(line) => event_of(alloc, line),
        None => Ok(None),
    }
}

/// Why a script has no events. A program tells it as a `RunFault`.
#[derive(Debug, Drop, Error)]
pub enum ScriptFault {
    /// The first bad line, counted from 1, and why it is bad.
    #[error("line {0}: bad event: {1}")]
    BadEvent(usize, LineFault),
    /// Out of memory.
    #[error("out of memory")]
    Memory,
}

impl From<AllocError> for ScriptFault {
    ghost use Rattle.std.specs.Prelude.{◌≡◌};
    ghost use Rattle.scripts.specs.declared.script.ScriptFault.TheVariants.{Memory};

    ghost from_gives = { λ _ e. e ≡ Memory };

    fn from(_: AllocError) -> ScriptFault {
        ScriptFault::Memory
    }
}

impl<T: Drop> From<AllocFailed<T>> for ScriptFault {
    ghost use Rattle.std.specs.Prelude.{◌≡◌};
    ghost use Rattle.scripts.specs.declared.script.ScriptFault.TheVariants.{Memory};

    ghost from_gives = { λ _ e. e ≡ Memory };

    fn from(_: AllocFailed<T>) -> ScriptFault {
        ScriptFault::Memory
    }
}

fn read_lines(alloc: Global, lines: &[&str]) -> Result<Vec<WorldEvent>, ScriptFault>
    ensures ok { IfOk result (λ v. AreEvents (map (λ l. l.now) lines.now) (map event_seen v.items)) }
    ensures bad { (n : ℕ) (why : LineFault) → IsErrOf result (ScriptFault.BadEvent n why) → IsFirstBad (map (λ l. l.now) lines.now) n }
{
    let mut events = Vec::new(alloc);
    for (index, line) in lines.iter().enumerate() {
        if line.is_empty() {
            continue;
        }
        match read_line(alloc, line)? {
            Some(event) => events.push(event)?,
            None => return Err(ScriptFault::BadEvent(index + 1, line_fault(alloc, line)?)),
        }
    }
    Ok(events)
}

/// Reads a script: the events of its lines in order, or its first bad line.
pub fn read_script(alloc: Global, text: &str) -> Result<Vec<WorldEvent>, ScriptFault>
    ensures ok { IfOk result (λ v. AreEvents (lines_of text.now) (map event_seen v.items)) }
    ensures bad { (n : ℕ) (why : LineFault) → IsErrOf result (ScriptFault.BadEvent n why) → IsFirstBad (lines_of text.now) n }
{
    let lines: Vec<&str> = text.split('\n').collect(alloc)?;
    read_lines(alloc, &lines)
}
