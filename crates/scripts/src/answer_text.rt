//! What is printed of one event of a pipe, or of a bad line: a JSON object a line. Which lines there are is said in `answering`.
ghost use Rattle.std.specs.Prelude.{◌≡◌, ◌++◌, ℕ, List, IfOk, OnOk, codes, map, option_map, string_bytes};
ghost use Rattle.std.specs.List.{flat_map};
ghost use Rattle.std.specs.Option.{option_to_list};
ghost use Rattle.std.specs.FinMap as fin;
ghost use Rattle.summary.specs.Summary.{counts_in};
ghost use Rattle.httpedge.specs.HubViews.{event_of};
ghost use Rattle.indexer.specs.Objects.{shared_of, stored_of};
ghost use Rattle.world.specs.Views.{event_seen, reply_seen};
ghost use Rattle.scripts.specs.AskedTexts.{client_words, hub_words, move_text, move_words, number_words, object_text};
ghost use Rattle.scripts.specs.Piped.{Part, bad_text, ended, holds, last_text, moves, number_text, opened, part_text, quoted, refused_text, report_text, step_text, written_part, written_text};

use crate::line_fault::LineFault;
use crate::printing::counts_text;
use httpedge::Event;
use indexer::Object;
use serde_json::Value;
use std::alloc::{AllocError, Global};
use std::rc::Rc;
use world::{Refusal, Report, Step, WorldEvent};

/// A JSON object of one number.
fn number_line(alloc: Global, name: &str, number: u64) -> Result<String, AllocError>
    ensures { IfOk result (λ s. string_bytes s ≡ number_text name.now number) }
{
    format!(in alloc; "{{\"{name}\":{number}}}\n")
}

/// A text as a JSON string.
fn quoted(alloc: Global, text: &str) -> Result<String, AllocError>
    ensures { IfOk result (λ s. string_bytes s ≡ quoted text.now) }
{
    Value::String(String::from_str(alloc, text)?).to_string(alloc)
}

/// What was written on a connection: a text, or digits where it is none.
fn written_line(alloc: Global, id: u64, bytes: &[u8]) -> Result<String, AllocError>
    ensures { IfOk result (λ s. string_bytes s ≡ written_text id bytes.now) }
{
    match str::from_utf8(bytes) {
        Ok(text) => {
            let text = quoted(alloc, text)?;
            format!(in alloc; "{{\"out\":[{id},{text}]}}\n")
        }
        Err(_) => {
            let digits = hex::encode(alloc, bytes)?;
            format!(in alloc; "{{\"bytes\":[{id},\"{digits}\"]}}\n")
        }
    }
}

/// What the client reports.
fn report_line(alloc: Global, report: &Report) -> Result<String, AllocError>
    ensures { IfOk result (λ s. string_bytes s ≡ report_text report.now) }
{
    let event = report.event;
    let revision = report.revision;
    let objects = report.objects.len();
    let counts = counts_text(alloc, &report.counts)?;
    format!(in alloc;
        "{{\"report\":{{\"event\":{event},\"revision\":{revision},\"objects\":{objects},\"counts\":{counts}}}}}\n"
    )
}

/// The end of the answer to a refused event, with the reason.
fn refused_line(alloc: Global, number: usize, why: Refusal) -> Result<String, AllocError>
    ensures { IfOk result (λ s. (why : List ℕ) × (string_bytes s ≡ refused_text number why)) }
{
    let why = format!(in alloc; "{why}")?;
    let why = quoted(alloc, why.as_str())?;
    format!(in alloc; "{{\"done\":{number},\"refused\":{why}}}\n")
}

/// The end of the answer to an event.
fn last_line(alloc: Global, number: usize, refused: Option<Refusal>) -> Result<String, AllocError>
    ensures { IfOk result (λ s. (why : List ℕ) × (string_bytes s ≡ last_text number refused why)) }
{
    match refused {
        Some(why) => refused_line(alloc, number, why),
        None => number_line(alloc, "done", number as u64),
    }
}

/// The answer to a line that is no event's; the last event before it has this number.
pub(crate) fn bad_line(
    alloc: Global,
    number: usize,
    fault: &LineFault,
) -> Result<Vec<u8>, AllocError>
    ensures { IfOk result (λ v. (why : List ℕ) × (v.items ≡ bad_text number why)) }
{
    let why = format!(in alloc; "{fault}")?;
    let why = quoted(alloc, why.as_str())?;
    Ok(format!(in alloc; "{{\"done\":{number},\"bad\":{why}}}\n")?.into_bytes())
}

fn push(text: &mut Vec<u8>, line: &str) -> Result<(), AllocError>
    ensures { OnOk result (text.new.items ≡ text.old.items ++ line.now) }
{
    Ok(text.extend_from_slice(line.as_bytes())?)
}

fn push_opened(alloc: Global, text: &mut Vec<u8>, id: Option<u64>) -> Result<(), AllocError>
    ensures { OnOk result (text.new.items ≡ text.old.items ++ flat_map part_text (map opened (option_to_list id))) }
{
    match id {
        Some(id) => push(text, number_line(alloc, "opened", id)?.as_str()),
        None => Ok(()),
    }
}

fn push_written(
    alloc: Global,
    text: &mut Vec<u8>,
    written: &[(u64, Vec<u8>)],
) -> Result<(), AllocError>
    ensures { OnOk result (text.new.items ≡ text.old.items ++ flat_map part_text (map written_part (map reply_seen written.now))) }
{
    for entry in written {
        push(text, written_line(alloc, entry.0, &entry.1)?.as_str())?;
    }
    Ok(())
}

fn push_ended(alloc: Global, text: &mut Vec<u8>, ids: &[u64]) -> Result<(), AllocError>
    ensures { OnOk result (text.new.items ≡ text.old.items ++ flat_map part_text (map ended ids.now)) }
{
    for id in ids {
        push(text, number_line(alloc, "ended", *id)?.as_str())?;
    }
    Ok(())
}

fn push_report(alloc: Global, text: &mut Vec<u8>, report: &Option<Report>) -> Result<(), AllocError>
    ensures { OnOk result (text.new.items ≡ text.old.items ++ flat_map report_text (option_to_list report.now)) }
{
    match report {
        Some(report) => push(text, report_line(alloc, report)?.as_str()),
        None => Ok(()),
    }
}

/// The answer to an event, by what it added.
pub(crate) fn step_text(alloc: Global, number: usize, step: &Step) -> Result<Vec<u8>, AllocError>
    ensures { IfOk result (λ v. (why : List ℕ) × (v.items ≡ step_text number step.now why)) }
{
    let mut text = Vec::new(alloc);
    push_opened(alloc, &mut text, step.opened)?;
    push_written(alloc, &mut text, &step.written)?;
    push_ended(alloc, &mut text, &step.ended)?;
    push_report(alloc, &mut text, &step.report)?;
    let last = last_line(alloc, number, step.refused)?;
    push(&mut text, last.as_str())?;
    Ok(text)
}

/// An event that is told by one number, as the line of a script.
fn number_words(alloc: Global, name: &str, number: u64) -> Result<String, AllocError>
    ensures { IfOk result (λ s. string_bytes s ≡ number_words name.now number) }
{
    format!(in alloc; "{{\"{name}\":{number}}}")
}

/// What the client does, as the line of a script.
fn client_words(alloc: Global, name: &str) -> Result<String, AllocError>
    ensures { IfOk result (λ s. string_bytes s ≡ client_words name.now) }
{
    format!(in alloc; "{{\"client\":\"{name}\"}}")
}

/// What is no move.
fn no_words(alloc: Global) -> Result<String, AllocError>
    ensures { IfOk result (λ s. string_bytes s ≡ codes "null") }
{
    String::from_str(alloc, "null")
}

/// What the hub does of itself, as the line of a script.
fn hub_words(alloc: Global, event: &Event) -> Result<String, AllocError>
    ensures { IfOk result (λ s. string_bytes s ≡ hub_words (event_of event.now)) }
{
    match event {
        Event::Pump(id, max) => format!(in alloc; "{{\"pump\":[{id},{max}]}}"),
        Event::Tick(ms) => number_words(alloc, "tick", *ms),
        Event::Open(_) => no_words(alloc),
        Event::In(_, _) => no_words(alloc),
        Event::Gone(_) => no_words(alloc),
        Event::Compact(_) => no_words(alloc),
        Event::Retype(_) => no_words(alloc),
    }
}

/// A move, as the line of a script.
fn move_words(alloc: Global, event: &WorldEvent) -> Result<String, AllocError>
    ensures { IfOk result (λ s. string_bytes s ≡ move_words (event_seen event.now)) }
{
    match event {
        WorldEvent::Other(event) => hub_words(alloc, event),
        WorldEvent::ClientSend => client_words(alloc, "send"),
        WorldEvent::Cut => client_words(alloc, "cut"),
        WorldEvent::ToServer(n) => number_words(alloc, "toServer", *n as u64),
        WorldEvent::ToClient(n) => number_words(alloc, "toClient", *n as u64),
        WorldEvent::Request(_) => no_words(alloc),
        WorldEvent::Restart => no_words(alloc),
        WorldEvent::Reconcile => no_words(alloc),
    }
}

fn move_line(alloc: Global, event: &WorldEvent) -> Result<String, AllocError>
    ensures { IfOk result (λ s. string_bytes s ≡ move_text (event_seen event.now)) }
{
    let words = move_words(alloc, event)?;
    format!(in alloc; "{{\"move\":{words}}}\n")
}

fn push_move(
    alloc: Global,
    text: &mut Vec<u8>,
    event: &Option<WorldEvent>,
) -> Result<(), AllocError>
    ensures { OnOk result (text.new.items ≡ text.old.items ++ flat_map part_text (map moves (option_to_list (option_map event_seen event.now)))) }
{
    match event {
        Some(event) => push(text, move_line(alloc, event)?.as_str()),
        None => Ok(()),
    }
}

/// The answer to what the next move is, behind so many events.
pub(crate) fn next_text(
    alloc: Global,
    number: usize,
    event: &Option<WorldEvent>,
) -> Result<Vec<u8>, AllocError>
    ensures { IfOk result (λ v. v.items ≡ flat_map part_text (map moves (option_to_list (option_map event_seen event.now))) ++ number_text (codes "done") number) }
{
    let mut text = Vec::new(alloc);
    push_move(alloc, &mut text, event)?;
    push(
        &mut text,
        number_line(alloc, "done", number as u64)?.as_str(),
    )?;
    Ok(text)
}

fn object_line(alloc: Global, object: &Object) -> Result<String, AllocError>
    ensures { IfOk result (λ s. string_bytes s ≡ object_text (stored_of object.now).text) }
{
    let text = object.text.as_str();
    format!(in alloc; "{{\"object\":{text}}}\n")
}

fn push_objects(alloc: Global, text: &mut Vec<u8>, objects: &[Rc<Object>]) -> Result<(), AllocError>
    ensures { OnOk result (text.new.items ≡ text.old.items ++ flat_map part_text (map holds (map shared_of objects.now))) }
{
    for object in objects {
        push(text, object_line(alloc, object)?.as_str())?;
    }
    Ok(())
}

/// The answer to which objects the client has, behind so many events.
pub(crate) fn objects_text(
    alloc: Global,
    number: usize,
    objects: &[Rc<Object>],
) -> Result<Vec<u8>, AllocError>
    ensures { IfOk result (λ v. v.items ≡ flat_map part_text (map holds (map shared_of objects.now)) ++ number_text (codes "done") number) }
{
    let mut text = Vec::new(alloc);
    push_objects(alloc, &mut text, objects)?;
    push(
        &mut text,
        number_line(alloc, "done", number as u64)?.as_str(),
    )?;
    Ok(text)
}
