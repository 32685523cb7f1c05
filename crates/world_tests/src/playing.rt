//! A type that answers rows. What is asked is `WORD LOOKED SETTINGS: EVENTS`, of a run of its own: its settings, indexes and
//! link are those of `given`, its events those of `events`.
//!
//! | question | answer |
//! |---|---|
//! | `run IDS ..` | the reports, and what was written on these connections (`-` for none): `REPORTS / BYTES / ..`; or why the run ended |
//! | `anew IDS ..` | the same of a run between the marks of refused memory, where it was refused of another one; before it the connections of other peers' requests |
//! | `length ID ..` | how many bytes were written on the connection |
//! | `indexes - ..` | the indexes in the last report |
//! | `carried - ..` | the targets of the client's requests that the link carried |
//! | `moves N ..` | at most N moves behind the events, by which the client comes to the current revision, and their reports: `MOVES -> REPORTS` |
//!
//! A report is `EVENT REVISION [OBJECT ..] {VALUE: COUNT, ..}`, the event by its place, an object `NAMESPACE/NAME@REVISION`.
//! Bytes have `|` for a carriage return and `$` for a line feed; where nothing is to be shown it is `-`.

use crate::events::events;
use crate::given::{indexes, linked, settings, types};
use crate::links::Noting;
use crate::shown::{length, moves_and_reports, targets, told};
use indexer::IndexBy;
use std::alloc::Global;
use std::mem;
use std::test::Fail;
use test_rows::{Answers, bytes_of, first_word, in_words, mark, number};
use world::{OverMemory, Trace, World, WorldEvent, WorldFault, run, run_over};

#[derive(Drop)]
pub struct Play;

/// Over a link.
fn ran(
    alloc: Global,
    words: &str,
    all: &[WorldEvent],
    link: &mut Noting,
) -> Result<Result<Trace, WorldFault>, Fail> {
    Ok(run_over(
        alloc,
        types(alloc)?,
        settings(alloc, words)?,
        indexes(alloc, words)?,
        all,
        link,
    ))
}

/// Over memory, between the marks of refused memory.
fn ran_marked(
    alloc: Global,
    words: &str,
    all: &[WorldEvent],
) -> Result<Result<Trace, WorldFault>, Fail> {
    let types = types(alloc)?;
    let settings = settings(alloc, words)?;
    let indexes = indexes(alloc, words)?;
    mark(alloc)?;
    let trace = run(alloc, types, settings, indexes, all);
    mark(alloc)?;
    Ok(trace)
}

/// The same; where memory was refused, of another run.
fn anew(alloc: Global, words: &str, all: &[WorldEvent], ids: &str) -> Result<String, Fail> {
    let trace = match ran_marked(alloc, words, all)? {
        Err(WorldFault::Memory | WorldFault::Store) => {
            ran(alloc, words, all, &mut linked(alloc, words)?)?
        }
        trace => trace,
    };
    let trace = trace?;
    let told = told(alloc, &trace, ids)?;
    let requested = &trace.requested;
    Ok(format!(in alloc; "{requested:?} {told}")?)
}

fn take_all<I: IndexBy>(world: &mut World<I>, all: &[WorldEvent]) -> Result<(), Fail> {
    for (index, event) in all.iter().enumerate() {
        world.step(index + 1, event, &mut OverMemory)?;
    }
    Ok(())
}

fn moved<I: IndexBy>(
    alloc: Global,
    world: &mut World<I>,
    all: &[WorldEvent],
    most: &str,
) -> Result<String, Fail> {
    take_all(world, all)?;
    let most = all.len().saturating_add(number(most)? as usize);
    let made = world.run_until_current(all.len(), most, &mut OverMemory)?;
    moves_and_reports(alloc, &made)
}

/// The world isn't dropped.
fn moves(alloc: Global, words: &str, all: &[WorldEvent], most: &str) -> Result<String, Fail> {
    let settings = settings(alloc, words)?;
    let mut world = World::new(alloc, types(alloc)?, settings, indexes(alloc, words)?)?;
    let told = moved(alloc, &mut world, all, most);
    mem::forget(world);
    told
}

fn shown(
    alloc: Global,
    word: &str,
    looked: &str,
    trace: &Trace,
    link: &Noting,
) -> Result<String, Fail> {
    match word {
        "length" => length(alloc, trace, looked),
        "carried" => targets(alloc, &link.carried),
        "indexes" => {
            let report = trace.reports.last().ok_or("no report")?;
            in_words(alloc, &report.indexes)
        }
        _ => told(alloc, trace, looked),
    }
}

fn looked_at(
    alloc: Global,
    words: &str,
    all: &[WorldEvent],
    word: &str,
    looked: &str,
) -> Result<String, Fail> {
    let mut link = linked(alloc, words)?;
    match ran(alloc, words, all, &mut link)? {
        Ok(trace) => shown(alloc, word, looked, &trace, &link),
        Err(fault) => in_words(alloc, fault),
    }
}

impl Answers for Play {
    fn answer(&mut self, alloc: Global, question: &str) -> Result<String, Fail> {
        let (asked, steps) = question.split_once(": ").unwrap_or((question, ""));
        let (word, rest) = first_word(asked);
        let (looked, words) = first_word(rest);
        let words = String::from_utf8(bytes_of(alloc, words)?).map_err(|_| "no text")?;
        let all = events(alloc, steps)?;
        match word {
            "moves" => moves(alloc, words.as_str(), &all, looked),
            "anew" => anew(alloc, words.as_str(), &all, looked),
            _ => looked_at(alloc, words.as_str(), &all, word, looked),
        }
    }
}
