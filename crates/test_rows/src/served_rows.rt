//! Plays examples on a server of connections: rows `STEP => ANSWER`.
//!
//! | step | what happens |
//! |---|---|
//! | `open K`, `open A B` | a connection opens, or each from A to B |
//! | `ask K METHOD TARGET BODY` | a request comes in one piece on K, which opens unless it waits |
//! | `in K TEXT`, `gone K`, `pump K N`, `tick MS`, `compact C` | the event |
//! | `types 0 NAME` | the types of this file are served, or of this JSON value |
//! | `serve A B METHOD TARGET BODY` | on each from A to B, one after another: it opens, the request comes, its reply is taken |
//! | `out K` | no event; the bytes that are out on K are taken |
//! | `take K N` | the next N of them are taken: how many are left |
//! | `stand K` | no event: how many are out, whether K waits, whether it has ended |
//! | `kept 0` | no event: how many connections are held, and how many ranges of ids of all others |
//! | `marked STEP` | the event of the step between the marks of refused memory; its answer counts where it isn't refused |
//! | `else STEP`, `done STEP` | the step, where the last marked one was refused memory, or where it wasn't |
//!
//! The answer of an event is why it is refused, or the bytes that then are out on connection 1, which are taken; of an `ask` on
//! another connection it is the status of its reply, which stays out. Requests and replies are shown in one line (`texts`).

use crate::marking::mark;
use crate::served::{Serves, comes, opens, received, request_of};
use crate::texts::bytes_of;
use crate::words::{first_word, in_words, number};
use std::alloc::{AllocError, Global};
use std::test::Fail;

/// The event of a step.
fn event_of<S: Serves>(alloc: Global, word: &str, id: u64, rest: &str) -> Result<S::Event, Fail> {
    match word {
        "ask" => S::event(alloc, "in", id, &request_of::<S>(alloc, rest)?),
        "in" => S::event(alloc, word, id, &bytes_of(alloc, rest)?),
        _ => S::event(alloc, word, id, rest.as_bytes()),
    }
}

/// The word, the number and the rest of a step.
fn parts_of(step: &str) -> Result<(&str, u64, &str), Fail> {
    let (word, rest) = first_word(step);
    let (first, rest) = first_word(rest);
    Ok((word, number(first)?, rest))
}

/// Opens each connection from one to another, up to one that is refused.
fn opens_all<S: Serves>(
    alloc: Global,
    served: &mut S,
    first: u64,
    last: u64,
) -> Result<Option<String>, Fail> {
    for id in first..=last {
        let refused = opens(alloc, served, id)?;
        if refused.is_some() {
            return Ok(refused);
        }
    }
    Ok(None)
}

/// The test fails where an event that comes is refused.
fn expect_done(refused: Option<String>) -> Result<(), Fail> {
    match refused {
        Some(why) => Err(Fail::new(why)),
        None => Ok(()),
    }
}

/// A request comes in one piece on a connection that opens, and its reply is taken.
fn serve_one<S: Serves>(
    alloc: Global,
    served: &mut S,
    id: u64,
    request: &[u8],
) -> Result<(), Fail> {
    expect_done(opens(alloc, served, id)?)?;
    let event = S::event(alloc, "in", id, request)?;
    expect_done(comes(alloc, served, event)?)?;
    served.take(id, usize::MAX);
    Ok(())
}

/// Of the words `B METHOD TARGET BODY`: a request is served on each connection from one to B.
fn serves<S: Serves>(alloc: Global, served: &mut S, first: u64, rest: &str) -> Result<(), Fail> {
    let (last, line) = first_word(rest);
    let last = number(last)?;
    let request = request_of::<S>(alloc, line)?;
    for id in first..=last {
        serve_one(alloc, served, id, &request)?;
    }
    Ok(())
}

/// What happens at a step: why it is refused, if it is. At one that only looks nothing does. Where a request comes, its
/// connection opens before; that is refused, and changes nothing, where it waits.
fn acts<S: Serves>(
    alloc: Global,
    served: &mut S,
    word: &str,
    id: u64,
    rest: &str,
) -> Result<Option<String>, Fail> {
    match word {
        "out" | "take" | "stand" | "kept" => return Ok(None),
        "open" if !rest.is_empty() => return opens_all(alloc, served, id, number(rest)?),
        "serve" => {
            serves(alloc, served, id, rest)?;
            return Ok(None);
        }
        "ask" => {
            opens(alloc, served, id)?;
        }
        _ => {}
    }
    let event = event_of::<S>(alloc, word, id, rest)?;
    comes(alloc, served, event)
}

/// Takes bytes that are out on a connection: how many are left.
fn taken<S: Serves>(alloc: Global, served: &mut S, id: u64, count: &str) -> Result<String, Fail> {
    served.take(id, number(count)? as usize);
    Ok(served.out(id).len().to_string(alloc)?)
}

fn standing<S: Serves>(alloc: Global, served: &S, id: u64) -> Result<String, Fail> {
    let length = served.out(id).len();
    let wants = served.wants(id);
    let has_ended = served.ended(id);
    Ok(format!(in alloc; "{length} {wants} {has_ended}")?)
}

fn kept<S: Serves>(alloc: Global, served: &S) -> Result<String, Fail> {
    let (held, ranges) = served.kept();
    Ok(format!(in alloc; "{held} {ranges}")?)
}

/// The status of a reply, or `-`.
fn status_of(alloc: Global, reply: &[u8]) -> Result<String, Fail> {
    let status = str::from_utf8(reply.get(9..12).unwrap_or(b"-"))?;
    Ok(String::from_str(alloc, status)?)
}

/// What is seen behind a step.
fn seen<S: Serves>(
    alloc: Global,
    served: &mut S,
    word: &str,
    id: u64,
    rest: &str,
) -> Result<String, Fail> {
    match word {
        "out" => received(alloc, served, id),
        "take" => taken(alloc, served, id, rest),
        "stand" => standing(alloc, served, id),
        "kept" => kept(alloc, served),
        "ask" if id != 1 => status_of(alloc, served.out(id)),
        _ => received(alloc, served, 1),
    }
}

fn answer_to<S: Serves>(alloc: Global, served: &mut S, step: &str) -> Result<String, Fail> {
    let (word, id, rest) = parts_of(step)?;
    match acts(alloc, served, word, id, rest)? {
        None => seen(alloc, served, word, id, rest),
        Some(why) => Ok(why),
    }
}

/// An event between the marks of refused memory.
fn marked<S: Serves>(
    alloc: Global,
    served: &mut S,
    event: S::Event,
) -> Result<Result<(), S::Fault>, AllocError> {
    mark(alloc)?;
    let done = served.on(&event);
    mark(alloc)?;
    Ok(done)
}

/// What is seen behind the event of a step, which comes between marks; nothing where memory was refused.
fn marked_answer_to<S: Serves>(
    alloc: Global,
    served: &mut S,
    step: &str,
) -> Result<Option<String>, Fail> {
    let (word, id, rest) = parts_of(step)?;
    let event = event_of::<S>(alloc, word, id, rest)?;
    let Err(fault) = marked(alloc, served, event)? else {
        return Ok(Some(seen(alloc, served, word, id, rest)?));
    };
    let why = in_words(alloc, fault)?;
    match why.as_str() {
        "Failed(Memory)" | "Failed(Store)" => Ok(None),
        _ => Ok(Some(why)),
    }
}

/// Plays a row, where the last marked step was or wasn't refused memory: what it is answered if that isn't wanted, and whether
/// the last marked step now was refused.
fn play_row<S: Serves>(
    alloc: Global,
    served: &mut S,
    row: &str,
    was_refused: bool,
) -> Result<(Option<String>, bool), Fail> {
    let (step, wanted) = row.split_once(" => ").ok_or("no answer is wanted")?;
    let (word, rest) = first_word(step);
    let answer = match word {
        "else" if !was_refused => return Ok((None, false)),
        "done" if was_refused => return Ok((None, true)),
        "else" | "done" => Some(answer_to(alloc, served, rest)?),
        "marked" => marked_answer_to(alloc, served, rest)?,
        _ => Some(answer_to(alloc, served, step)?),
    };
    match answer {
        None => Ok((None, true)),
        Some(answer) if answer.as_str() == wanted => Ok((None, was_refused && word != "marked")),
        answer => Ok((answer, false)),
    }
}

/// Plays the rows of an example; the first that is answered otherwise fails, and is shown with its answer.
pub fn play_served<S: Serves>(
    alloc: Global,
    served: &mut S,
    heading: &str,
    rows: &str,
) -> Result<(), Fail> {
    let mut was_refused = false;
    for row in rows.lines() {
        let (otherwise, is_refused) = play_row(alloc, served, row, was_refused)?;
        if let Some(answer) = otherwise {
            return Err(Fail::new(format!(in alloc; "{heading}\n{row}\nis answered {answer}")?));
        }
        was_refused = is_refused;
    }
    Ok(())
}
