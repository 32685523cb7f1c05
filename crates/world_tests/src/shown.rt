//! How what a run shows is written in a row.

use indexer::Object;
use std::alloc::{AllocError, Global};
use std::rc::Rc;
use std::test::Fail;
use test_rows::{in_words, line_of, number};
use world::{Moves, Report, Trace};

/// What was written on a connection.
fn written(trace: &Trace, id: u64) -> Result<&[u8], Fail> {
    for entry in trace.written.iter() {
        if entry.0 == id {
            return Ok(entry.1.as_slice());
        }
    }
    Err(Fail::new("no such connection"))
}

/// How many bytes were written on a connection.
pub fn length(alloc: Global, trace: &Trace, id: &str) -> Result<String, Fail> {
    in_words(alloc, written(trace, number(id)?)?.len())
}

/// `NAMESPACE/NAME@REVISION`, with a blank before it where others are.
fn push_object(alloc: Global, text: &mut String, object: &Object) -> Result<(), AllocError> {
    if !text.is_empty() {
        text.push_str(" ")?;
    }
    let (namespace, name) = (object.namespace.as_str(), object.name.as_str());
    let revision = object.revision;
    text.push_str(format!(in alloc; "{namespace}/{name}@{revision}")?.as_str())
}

fn objects(alloc: Global, objects: &[Rc<Object>]) -> Result<String, AllocError> {
    let mut text = String::new(alloc);
    for object in objects {
        push_object(alloc, &mut text, object)?;
    }
    Ok(text)
}

/// `EVENT REVISION [OBJECT ..] COUNTS`, with a bar before it where others are.
fn push_report(alloc: Global, text: &mut String, report: &Report) -> Result<(), AllocError> {
    if !text.is_empty() {
        text.push_str(" | ")?;
    }
    let objects = objects(alloc, &report.objects)?;
    let (event, revision, counts) = (report.event, report.revision, &report.counts);
    text.push_str(format!(in alloc; "{event} {revision} [{objects}] {counts:?}")?.as_str())
}

/// Reports; `-` where there are none.
fn reports(alloc: Global, reports: &[Report]) -> Result<String, AllocError> {
    if reports.is_empty() {
        return String::from_str(alloc, "-");
    }
    let mut text = String::new(alloc);
    for report in reports {
        push_report(alloc, &mut text, report)?;
    }
    Ok(text)
}

/// `MOVES -> REPORTS`.
pub fn moves_and_reports(alloc: Global, moves: &Moves) -> Result<String, Fail> {
    let reports = reports(alloc, &moves.reports)?;
    let events = &moves.events;
    Ok(format!(in alloc; "{events:?} -> {reports}")?)
}

fn push_written(alloc: Global, text: &mut String, bytes: &[u8]) -> Result<(), Fail> {
    text.push_str(" / ")?;
    Ok(text.push_str(line_of(alloc, bytes)?.as_str())?)
}

/// The reports, and what was written on these connections: `REPORTS / BYTES / ..`.
pub fn told(alloc: Global, trace: &Trace, ids: &str) -> Result<String, Fail> {
    let mut text = reports(alloc, &trace.reports)?;
    if ids != "-" {
        for id in ids.split(',') {
            push_written(alloc, &mut text, written(trace, number(id)?)?)?;
        }
    }
    Ok(text)
}

/// `[TARGET][TARGET]..` of the client's requests among the bytes that a link carried.
pub fn targets(alloc: Global, carried: &[u8]) -> Result<String, Fail> {
    let mut text = String::new(alloc);
    for part in str::from_utf8(carried)?.split("GET /apis/") {
        if let Some((target, _)) = part.split_once(" HTTP/1.1\r\nHost") {
            text.push_str("[")?;
            text.push_str(target)?;
            text.push_str("]")?;
        }
    }
    Ok(text)
}
