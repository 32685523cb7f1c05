//! What is printed of a run: a line for each reply, each connection and each report. The run itself stands in `replaying`.
ghost use Rattle.std.specs.Prelude.{◌≡◌, ◌++◌, ℕ, List, IfErr, IfOk, OnErr, OnOk, map, string_bytes};
ghost use Rattle.std.specs.Io.KnownBytes.{Appends};
ghost use Rattle.std.specs.List.{flat_map};
ghost use Rattle.std.specs.FinMap as fin;
ghost use Rattle.serde_json.specs.View.{members_view};
ghost use Rattle.wireclient.specs.Views.{reply_item_of};
ghost use Rattle.summary.specs.Apply.{count_members};
ghost use Rattle.summary.specs.Summary.{counts_in};
ghost use Rattle.world.specs.Views.{reply_seen};
ghost use Rattle.scripts.specs.Output.{Prints, PrintsPrefix, WritesPart, WritesReply, connection_text, connections_in, counts_text, parts_of, replies_in, report_text, words_of};
ghost use Rattle.scripts.specs.Parts.{IsOfOutput, IsSetOf, part_seen};

use crate::replay_fault::ReplayFault;
use serde_json::{Map, Value};
use std::alloc::{AllocError, Global};
use std::collections::{BTreeMap, BTreeSet};
use std::io::Write;
use wireclient::{Item, ReplyReader};
use world::{Report, Trace};

/// A part of what is printed.
#[derive(Clone, Copy, Debug)]
pub(crate) enum Part<'a> {
    /// The reply to a request.
    Reply(&'a [u8]),
    /// What was written on another connection.
    Connection(u64, &'a [u8]),
    /// What the client reported.
    Report(&'a Report),
}

/// Writes what is printed of a part of a reply.
fn push_words(alloc: Global, line: &mut Vec<u8>, item: &Item) -> Result<(), AllocError>
    ensures { OnOk result (line.new.items ≡ line.old.items ++ words_of (reply_item_of item.now)) }
{
    match item {
        Item::Head(status) => {
            line.extend_from_slice(status.to_string(alloc)?.as_bytes())?;
            line.push(b' ')?;
        }
        Item::Body(body) => line.extend_from_slice(body)?,
        Item::End => line.push(b'\n')?,
        Item::Line(_) | Item::Malformed => {}
    }
    Ok(())
}

/// What is printed of the parts of a reply.
fn line_of(alloc: Global, items: &[Item]) -> Result<Vec<u8>, AllocError>
    ensures { IfOk result (λ v. v.items ≡ flat_map words_of (map reply_item_of items.now)) }
{
    let mut line = Vec::new(alloc);
    for item in items {
        push_words(alloc, &mut line, item)?;
    }
    Ok(line)
}

/// The line that tells a reply: `<status> <body>` and a line feed.
fn reply_line(alloc: Global, reply: &[u8]) -> Result<Vec<u8>, AllocError>
    ensures { IfOk result (λ v. WritesReply reply.now v.items) }
{
    match ReplyReader::new(alloc).feed(reply) {
        Ok(items) => line_of(alloc, &items),
        Err(_) => Err(AllocError),
    }
}

/// What was written on a connection, under a line with its id and the number of bytes.
fn connection_lines(alloc: Global, id: u64, written: &[u8]) -> Result<Vec<u8>, AllocError>
    ensures { IfOk result (λ v. v.items ≡ connection_text id written.now) }
{
    let count = written.len();
    let head = format!(in alloc; "connection {id} {count}\n")?;
    let mut lines = Vec::from_slice(alloc, head.as_bytes())?;
    lines.extend_from_slice(written)?;
    lines.push(b'\n')?;
    Ok(lines)
}

/// A member for each value of the label.
fn count_members(
    alloc: Global,
    counts: &BTreeMap<String, u64>,
) -> Result<Map<String, Value>, AllocError>
    ensures { IfOk result (λ m. members_view m.entries ≡ count_members (fin.entries (counts_in counts.now))) }
{
    let mut members = Map::new(alloc);
    for (value, count) in counts.iter() {
        serde_json::put(&mut members, alloc, value.as_str(), Value::from(*count))?;
    }
    Ok(members)
}

/// The counts as compact JSON.
pub(crate) fn counts_text(
    alloc: Global,
    counts: &BTreeMap<String, u64>,
) -> Result<String, AllocError>
    ensures { IfOk result (λ s. string_bytes s ≡ counts_text counts.now) }
{
    Value::Object(count_members(alloc, counts)?).to_string(alloc)
}

/// The line of a report: its event, the revision, how many objects there were, and their counts.
fn report_line(alloc: Global, report: &Report) -> Result<String, AllocError>
    ensures { IfOk result (λ s. string_bytes s ≡ report_text report.now) }
{
    let event = report.event;
    let revision = report.revision;
    let objects = report.objects.len();
    let counts = counts_text(alloc, &report.counts)?;
    format!(in alloc; "report {event} {revision} {objects} {counts}\n")
}

fn text_of(alloc: Global, part: Part<'_>) -> Result<Vec<u8>, AllocError>
    ensures { IfOk result (λ v. WritesPart (part_seen part.entry) v.items) }
{
    match part {
        Part::Reply(bytes) => reply_line(alloc, bytes),
        Part::Connection(id, bytes) => connection_lines(alloc, id, bytes),
        Part::Report(report) => Ok(report_line(alloc, report)?.into_bytes()),
    }
}

fn set_of(alloc: Global, ids: &[u64]) -> Result<BTreeSet<u64>, AllocError>
    ensures { IfOk result (λ s. IsSetOf s ids.now) }
{
    ids.iter().copied().collect(alloc)
}

/// The replies to these requests.
fn push_replies<'a>(
    parts: &mut Vec<Part<'a>>,
    requested: &BTreeSet<u64>,
    written: &'a [(u64, Vec<u8>)],
) -> Result<(), AllocError>
    ensures { (ids : List ℕ) → IsSetOf requested.now ids → OnOk result (map part_seen parts.new.items ≡ map part_seen parts.old.items ++ replies_in ids (map reply_seen written.entry.now)) }
{
    for entry in written {
        if requested.contains(&entry.0) {
            parts.push(Part::Reply(entry.1.as_slice()))?;
        }
    }
    Ok(())
}

/// The other connections.
fn push_connections<'a>(
    parts: &mut Vec<Part<'a>>,
    requested: &BTreeSet<u64>,
    written: &'a [(u64, Vec<u8>)],
) -> Result<(), AllocError>
    ensures { (ids : List ℕ) → IsSetOf requested.now ids → OnOk result (map part_seen parts.new.items ≡ map part_seen parts.old.items ++ connections_in ids (map reply_seen written.entry.now)) }
{
    for entry in written {
        if !requested.contains(&entry.0) {
            parts.push(Part::Connection(entry.0, entry.1.as_slice()))?;
        }
    }
    Ok(())
}

/// The parts of what is printed of a trace, in order.
fn parts_of<'a>(alloc: Global, trace: &'a Trace) -> Result<Vec<Part<'a>>, AllocError>
    ensures { IfOk result (λ v. map part_seen v.items ≡ parts_of trace.entry.now) }
{
    let requested = set_of(alloc, &trace.requested)?;
    let mut parts = Vec::with_capacity(alloc, trace.written.len())?;
    push_replies(&mut parts, &requested, &trace.written)?;
    push_connections(&mut parts, &requested, &trace.written)?;
    for report in &trace.reports {
        parts.push(Part::Report(report))?;
    }
    Ok(parts)
}

fn write<W: Write>(writer: &mut W, text: &[u8]) -> Result<(), ReplayFault>
    ensures all { OnOk result (Appends (W.contents writer.old) (W.contents writer.new) text.now) }
    ensures prefix { (emitted : List ℕ) × (rest : List ℕ) × (text.now ≡ emitted ++ rest) × Appends (W.contents writer.old) (W.contents writer.new) emitted }
    ensures fault { IfErr result IsOfOutput }
{
    wire::write_whole(writer, text).map_err(ReplayFault::Write)
}

fn write_parts<W: Write>(
    alloc: Global,
    parts: &[Part<'_>],
    writer: &mut W,
) -> Result<(), ReplayFault>
    ensures ok { OnOk result ((text : List ℕ) × Prints (map part_seen parts.now) text × Appends (W.contents writer.old) (W.contents writer.new) text) }
    ensures prefix { OnErr result ((text : List ℕ) × PrintsPrefix (map part_seen parts.now) text × Appends (W.contents writer.old) (W.contents writer.new) text) }
    ensures fault { IfErr result IsOfOutput }
{
    for part in parts {
        let text = text_of(alloc, *part)?;
        write(writer, &text)?;
    }
    Ok(())
}

/// Writes what is printed of a trace; after a fault, a prefix of it is written.
pub(crate) fn print<W: Write>(
    alloc: Global,
    trace: &Trace,
    writer: &mut W,
) -> Result<(), ReplayFault>
    ensures ok { OnOk result ((text : List ℕ) × Prints (parts_of trace.now) text × Appends (W.contents writer.old) (W.contents writer.new) text) }
    ensures prefix { OnErr result ((text : List ℕ) × PrintsPrefix (parts_of trace.now) text × Appends (W.contents writer.old) (W.contents writer.new) text) }
    ensures fault { IfErr result IsOfOutput }
{
    let parts = parts_of(alloc, trace)?;
    write_parts(alloc, &parts, writer)
}
