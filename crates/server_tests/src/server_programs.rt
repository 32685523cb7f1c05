//! The program `ssa-server` without its sockets and files: the options that it reads, the lines that it records and logs, and
//! the faults of calls. Which words it refuses, and what it tells of files and requests, is in `tests/server` at the top.
//!
//! | question | answer |
//! |---|---|
//! | `options WORDS` | the options that these words ask for, behind the program's name |
//! | `line STEP` | the line of a script by which the event of a step of `hub_rows` happens |
//! | `fault NAME` | the exit status and the text of a call's fault |
//! | `log METHOD TARGET STATUS BYTES MICROS` | the line of a reply that took so many microseconds, on connection 7 at the start of 1970 |
//! | `disturbed KIND` | the line of a watch that is disturbed so |

use crate::given::{WIDGET_TYPES, fresh_api};
use crate::hub_rows::event_of;
use crate::streams::given::LIST;
use event_log::{Line, Log, LogCall, Moment, Sink, Told, script_line};
use httpedge::{Effect, Event, Hub, HubFault};
use observing::Disturbance;
use server_program::{ServerFault, options};
use std::alloc::{AllocError, Global};
use std::mem;
use std::test::Fail;
use std::time::{Duration, Instant};
use test_rows::{Answers, bytes_of, expect_text, first_word, in_words, line_of, number, play_all};
use verbs::Fault;

fn options_in_words(alloc: Global, words: &str) -> Result<String, Fail> {
    let words: Vec<&str> = words.split(' ').collect(alloc)?;
    let found = options(alloc, words.as_slice()).map_err(|_| "refused words")?;
    in_words(alloc, found)
}

/// The line of an event, in one line.
fn recorded(alloc: Global, event: &Event) -> Result<String, Fail> {
    let line = script_line(alloc, event)?;
    line_of(alloc, line.as_bytes())
}

/// The line of the event of a step.
fn line_of_step(alloc: Global, step: &str) -> Result<String, Fail> {
    let (word, rest) = first_word(step);
    let (id, rest) = first_word(rest);
    let id = number(id)?;
    let bytes = bytes_of(alloc, rest)?;
    recorded(alloc, &event_of(alloc, word, id, &bytes)?)
}

fn fault_named(name: &str) -> Result<Fault, Fail> {
    match name {
        "Memory" => Ok(Fault::Memory),
        "Store" => Ok(Fault::Store),
        "Unreadable" => Ok(Fault::Unreadable),
        _ => Err("no such fault".into()),
    }
}

/// How a call's fault ends the program.
fn ended(alloc: Global, name: &str) -> Result<String, Fail> {
    let fault = ServerFault::from(fault_named(name)?);
    Ok(format!(in alloc; "{}: {fault}", fault.status())?)
}

/// The line of a reply, by the words of a row.
fn logged(alloc: Global, words: &str) -> Result<String, Fail> {
    let (method, rest) = first_word(words);
    let (target, rest) = first_word(rest);
    let (status, rest) = first_word(rest);
    let (bytes, micros) = first_word(rest);
    let told = Told::Reply(
        u16::try_from(number(status)?).ok(),
        number(bytes)?,
        Duration::from_micros(number(micros)?),
    );
    let line = Line::new(Duration::ZERO, 7, LogCall { method, target }, told);
    Ok(format!(in alloc; "{line}")?)
}

/// The line of a watch that is disturbed, by the kind that a row names.
fn disturbed(alloc: Global, kind: &str) -> Result<String, Fail> {
    let how = match kind {
        "cuts" => Disturbance::Cut,
        "holds" => Disturbance::Hold,
        "expiries" => Disturbance::Expiry,
        _ => return Err("no such kind".into()),
    };
    let call = LogCall {
        method: "GET",
        target: "/a?watch=true",
    };
    let line = Line::new(Duration::ZERO, 7, call, Told::Disturbed(how));
    Ok(format!(in alloc; "{line}")?)
}

/// What answers by the program's library.
#[derive(Drop)]
struct Program;

impl Answers for Program {
    fn answer(&mut self, alloc: Global, question: &str) -> Result<String, Fail> {
        let (word, rest) = first_word(question);
        match word {
            "options" => options_in_words(alloc, rest),
            "line" => line_of_step(alloc, rest),
            "fault" => ended(alloc, rest),
            "log" => logged(alloc, rest),
            "disturbed" => disturbed(alloc, rest),
            _ => Err("no such question".into()),
        }
    }
}

const EXAMPLES: &str =
    r#"options_are_read: defaults; each option once; the least and the greatest numbers, where 0 connections are no limit; other forms of words and numbers; all kinds of disturbances, one, two
options ssa-server --types t => ServerOptions { types: "t", port: 0, keep: 1000, pump: 500, serve: 18446744073709551615, concurrent: false, patience: 30000, disturb: None, log: false, record: None, objects: None, discovery: false }
options ssa-server --types widgets.json --port 8001 --keep 2 --pump 3 --serve 4 --concurrent --patience 5 => ServerOptions { types: "widgets.json", port: 8001, keep: 2, pump: 3, serve: 4, concurrent: true, patience: 5, disturb: None, log: false, record: None, objects: None, discovery: false }
options ssa-server --types t --log --record r.jsonl => ServerOptions { types: "t", port: 0, keep: 1000, pump: 500, serve: 18446744073709551615, concurrent: false, patience: 30000, disturb: None, log: true, record: Some("r.jsonl"), objects: None, discovery: false }
options ssa-server --types t --port 0 --keep 0 --pump 1 --serve 0 --patience 1 => ServerOptions { types: "t", port: 0, keep: 0, pump: 1, serve: 18446744073709551615, concurrent: false, patience: 1, disturb: None, log: false, record: None, objects: None, discovery: false }
options ssa-server --types t --port 65535 --keep 18446744073709551615 => ServerOptions { types: "t", port: 65535, keep: 18446744073709551615, pump: 500, serve: 18446744073709551615, concurrent: false, patience: 30000, disturb: None, log: false, record: None, objects: None, discovery: false }
options ssa-server --types t --pump 18446744073709551615 --serve 18446744073709551615 --patience 18446744073709551615 => ServerOptions { types: "t", port: 0, keep: 1000, pump: 18446744073709551615, serve: 18446744073709551615, concurrent: false, patience: 18446744073709551615, disturb: None, log: false, record: None, objects: None, discovery: false }
options ssa-server --concurrent --serve=1 --pump=007 --keep=+7 --types=t => ServerOptions { types: "t", port: 0, keep: 7, pump: 7, serve: 1, concurrent: true, patience: 30000, disturb: None, log: false, record: None, objects: None, discovery: false }
options ssa-server --types t --objects o => ServerOptions { types: "t", port: 0, keep: 1000, pump: 500, serve: 18446744073709551615, concurrent: false, patience: 30000, disturb: None, log: false, record: None, objects: Some("o"), discovery: false }
options ssa-server --types t --discovery => ServerOptions { types: "t", port: 0, keep: 1000, pump: 500, serve: 18446744073709551615, concurrent: false, patience: 30000, disturb: None, log: false, record: None, objects: None, discovery: true }
options ssa-server --types t --concurrent --disturb 7 => ServerOptions { types: "t", port: 0, keep: 1000, pump: 500, serve: 18446744073709551615, concurrent: true, patience: 30000, disturb: Some(Disturbances { seed: 7, cuts: true, holds: true, expiries: true }), log: false, record: None, objects: None, discovery: false }
options ssa-server --types t --concurrent --disturb 18446744073709551615:cuts => ServerOptions { types: "t", port: 0, keep: 1000, pump: 500, serve: 18446744073709551615, concurrent: true, patience: 30000, disturb: Some(Disturbances { seed: 18446744073709551615, cuts: true, holds: false, expiries: false }), log: false, record: None, objects: None, discovery: false }
options ssa-server --types t --concurrent --disturb +07:expiries,holds,holds => ServerOptions { types: "t", port: 0, keep: 1000, pump: 500, serve: 18446744073709551615, concurrent: true, patience: 30000, disturb: Some(Disturbances { seed: 7, cuts: false, holds: true, expiries: true }), log: false, record: None, objects: None, discovery: false }

events_are_lines: each event; texts that JSON escapes
line open 1 => {"open":1}$
line in 18446744073709551615 GET / HTTP/1.1$ => {"in":[18446744073709551615,"GET / HTTP/1.1\n"]}$
line in 2 "a\b" é => {"in":[2,"\"a\\b\" é"]}$
line gone 4 => {"gone":4}$
line pump 5 500 => {"pump":[5,500]}$
line tick 1000 => {"tick":1000}$
line compact 7 => {"compact":7}$
line types 0 {"types": [ ]} => {"types":{"types":[]}}$

replies_are_logged: milliseconds; the manager that the target's query names first, as it stands there; bytes that are no printable ASCII
log GET /a 200 188 102 => 0.000 7 GET /a 200 188 - 0.102
log PATCH /a?force=true&fieldManager=alice&x=1 201 413 1234567 => 0.000 7 PATCH /a?force=true&fieldManager=alice&x=1 201 413 alice 1234.567
log PUT /a?xfieldManager=b&fieldManager=c%20d&fieldManager=e 200 1 999 => 0.000 7 PUT /a?xfieldManager=b&fieldManager=c%20d&fieldManager=e 200 1 c%20d 0.999
log PUT /a?fieldManager= 422 1 1000 => 0.000 7 PUT /a?fieldManager= 422 1 - 1.000
log GET /é 404 20 0 => 0.000 7 GET /\xc3\xa9 404 20 - 0.000

disturbances_are_logged
disturbed cuts => 0.000 7 GET /a?watch=true disturbed: cut
disturbed holds => 0.000 7 GET /a?watch=true disturbed: held back
disturbed expiries => 0.000 7 GET /a?watch=true disturbed: expired

faults_of_calls_are_told
fault Store => 5: the store failed
fault Unreadable => 5: the store failed
fault Memory => 5: out of memory"#;

#[test]
fn examples(rt: HostRuntime) -> Result<(), Fail> {
    play_all(rt.alloc(), &mut Program, EXAMPLES)
}

/// Bytes that are no text are digits.
#[test]
fn no_text_is_recorded_as_digits(rt: HostRuntime) -> Result<(), Fail> {
    let event = Event::In(3, Vec::from_slice(rt.alloc(), b"a\xff")?);
    expect_text(recorded(rt.alloc(), &event)?, r#"{"bytes":[3,"61ff"]}$"#)
}

/// The lines that were told.
#[derive(Drop)]
struct Lines {
    alloc: Global,
    text: String,
}

impl Sink for Lines {
    fn tell(&mut self, line: &Line<'_>) {
        if let Ok(shown) = format!(in self.alloc; "{line}\n") {
            let _ = self.text.push_str(shown.as_str());
        }
    }
}

/// A call in a function of its own, so that what calls it carries none of its clauses.
fn step(hub: &mut Hub, event: &Event) -> Result<Effect, HubFault> {
    hub.step(event)
}

/// Tells of an event.
fn tell(hub: &mut Hub, log: &mut Log, lines: &mut Lines, moment: Moment, event: &Event) {
    log.begin(moment.now);
    let done = step(hub, event);
    log.tell(lines, hub, event, &done, moment);
}

/// What is told of a list on a connection that opens, and whose peer then goes.
fn list_told(alloc: Global, hub: &mut Hub, moment: Moment) -> Result<String, Fail> {
    let asked = Event::In(1, Vec::from_slice(alloc, LIST.as_bytes())?);
    let mut log = Log::new(alloc, true, moment.now);
    let mut lines = Lines {
        alloc,
        text: String::new(alloc),
    };
    tell(hub, &mut log, &mut lines, moment, &Event::Open(1));
    tell(hub, &mut log, &mut lines, moment, &asked);
    tell(hub, &mut log, &mut lines, moment, &Event::Gone(1));
    Ok(lines.text)
}

/// A line of the log begins with its moment, of three digits behind the seconds, and ends with how long it took. The hub is not
/// dropped.
#[test]
fn a_request_is_logged_at_its_moment(rt: HostRuntime) -> Result<(), Fail> {
    let moment = Moment {
        now: Instant::now(&rt)?,
        since_1970: Duration::from_millis(1_764_391_355_007),
    };
    let mut hub = Hub::new(rt.alloc(), fresh_api(rt.alloc(), WIDGET_TYPES)?);
    let told = list_told(rt.alloc(), &mut hub, moment);
    mem::forget(hub);
    expect_text(
        told?,
        "1764391355.007 1 GET /apis/demo.example/v1/widgets 200 188 - 0.000\n",
    )
}
