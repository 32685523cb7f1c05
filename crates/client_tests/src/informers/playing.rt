//! An informer and a summary that answer the questions of rows; the replies that they are fed are made in `replies`.

use crate::cached::By;
use crate::informers::looping::followed;
use crate::informers::mirrors::{mirrored, server_of, troubled};
use crate::informers::replies::{replies, reply};
use crate::informers::syncing::synced;
use crate::rows::{Answers, expect_text, first_word, in_words, mark, number, play};
use indexer::Indexer;
use reflector::{Informer, Notice, SettingsFault, Source};
use std::alloc::{AllocError, Global};
use std::mem;
use std::test::Fail;
use summary::Summary;

pub fn widgets(alloc: Global) -> Result<Source, AllocError> {
    Ok(Source {
        group: String::from_str(alloc, "demo.example")?,
        version: String::from_str(alloc, "v1")?,
        kind: String::from_str(alloc, "Widget")?,
        plural: String::from_str(alloc, "widgets")?,
    })
}

/// Without objects, by namespace, with this page size; or why the settings are refused.
pub fn informer(
    alloc: Global,
    page: u32,
    namespace: Option<String>,
    selector: &str,
) -> Result<Result<Informer<By>, SettingsFault>, Fail> {
    let selector = String::from_str(alloc, selector)?;
    let indexer = Indexer::new(alloc, vec![in alloc; By { is_text: false }]?)?;
    Ok(Informer::new(alloc, widgets(alloc)?, namespace, selector, page, indexer))
}

pub fn tiers(alloc: Global) -> Result<Summary, AllocError> {
    Ok(Summary::new(alloc, String::from_str(alloc, "tier")?))
}

#[derive(Drop)]
struct Play {
    informer: Informer<By>,
    summary: Summary,
}

/// Plays rows on an informer of all namespaces, two objects in a page, with nothing kept yet. It isn't dropped, and no other
/// function holds one that may drop it.
pub fn expect_rows(alloc: Global, selector: &str, rows: &str) -> Result<(), Fail> {
    let summary = tiers(alloc)?;
    let made = informer(alloc, 2, None, selector)?;
    let mut it = Play {
        informer: made.map_err(|_| "refused settings")?,
        summary,
    };
    let played = play(alloc, &mut it, rows);
    mem::forget(it);
    played
}

impl Answers for Play {
    /// | question | answer |
    /// |---|---|
    /// | `ask` | the request that is due |
    /// | `counts`, `apply` | what the summary says |
    /// | `why A;B <- C;D` | why the reply was given up, after a restart and these events |
    /// | `marked S\|T: A;B <- C;D` | what stands after A and B in one piece between the marks of refused memory, and which objects; where it is refused, S or T stands, a first page is asked, and C and D lead to the same |
    /// | `mirror`, `turns`, `follow` | as `mirrors` and `looping` say |
    /// | `sync` | as `syncing` says |
    /// | another event | what stands after it |
    fn answer(&mut self, alloc: Global, question: &str) -> Result<String, Fail> {
        let (word, rest) = first_word(question);
        match word {
            "ask" => ask(alloc, &mut self.informer),
            "counts" => in_words(alloc, self.summary.counts()),
            "apply" => apply(alloc, &self.summary),
            "why" => {
                self.restart(alloc)?;
                for events in rest.split(" <- ") {
                    self.events(alloc, events)?;
                }
                in_words(alloc, self.informer.relist_reason())
            }
            "marked" => self.marked(alloc, rest),
            "mirror" | "turns" | "follow" => self.connected(alloc, word, rest),
            "sync" => {
                let mut text = synced(alloc, &mut self.informer, rest)?;
                text.push_str(self.stands(alloc)?.as_str())?;
                Ok(text)
            }
            _ => {
                self.event(alloc, question)?;
                self.stands(alloc)
            }
        }
    }
}

impl Play {
    /// What is told of so many connections, after a restart.
    fn connected(&mut self, alloc: Global, word: &str, words: &str) -> Result<String, Fail> {
        self.restart(alloc)?;
        let (turns, words) = first_word(words);
        let turns = number(turns)?;
        let mut server = server_of(alloc, words)?;
        let server = &mut server;
        match word {
            "mirror" => mirrored(alloc, server, &mut self.informer, turns),
            "turns" => troubled(alloc, server, &mut self.informer, turns),
            _ => followed(alloc, server, &mut self.informer, &mut self.summary, turns),
        }
    }

    /// `cut`, `restart`, `ask`, or a reply, byte by byte.
    fn event(&mut self, alloc: Global, question: &str) -> Result<(), Fail> {
        match question {
            "cut" => self.informer.closed(),
            "restart" => self.restart(alloc)?,
            "ask" => drop(ask(alloc, &mut self.informer)?),
            _ => {
                let text = reply(alloc, question)?;
                for piece in text.as_bytes().chunks(1) {
                    self.informer.feed(piece)?;
                }
            }
        }
        Ok(())
    }

    fn restart(&mut self, alloc: Global) -> Result<(), Fail> {
        self.informer.restart();
        self.summary = tiers(alloc)?;
        Ok(())
    }

    /// What stands, and the notices.
    fn stands(&mut self, alloc: Global) -> Result<String, Fail> {
        let mut text = standing(alloc, &self.informer)?;
        let notices = self.informer.take_notices();
        for notice in notices.iter() {
            self.summary.note(notice)?;
            push_notice(&mut text, notice)?;
        }
        Ok(text)
    }

    /// Events with semicolons between them.
    fn events(&mut self, alloc: Global, events: &str) -> Result<(), Fail> {
        for event in events.split(';') {
            self.event(alloc, event)?;
        }
        Ok(())
    }

    /// Feeds replies between marks.
    fn marked(&mut self, alloc: Global, words: &str) -> Result<String, Fail> {
        let (words, events) = words.split_once(" <- ").ok_or("no replies")?;
        let (standings, words) = words.split_once(": ").ok_or("no standings")?;
        let text = replies(alloc, words)?;
        mark(alloc)?;
        let is_refused = self.informer.feed(text.as_bytes()).is_err();
        mark(alloc)?;
        if is_refused {
            self.given_up(alloc, standings)?;
            self.events(alloc, events)?;
        }
        let mut text = self.stands(alloc)?;
        push_objects(alloc, &mut text, &self.informer)?;
        Ok(text)
    }

    /// The test fails unless one of these stands, with just its objects, out of memory is told, and a first page is asked.
    fn given_up(&mut self, alloc: Global, standings: &str) -> Result<(), Fail> {
        let mut standing = standing(alloc, &self.informer)?;
        push_objects(alloc, &mut standing, &self.informer)?;
        if !standings.split('|').any(|it| it == standing.as_str()) {
            return Err(Fail::new(standing));
        }
        let reason = in_words(alloc, self.informer.relist_reason())?;
        expect_text(reason, "Some(OutOfMemory)")?;
        expect_text(ask(alloc, &mut self.informer)?, "/widgets?limit=2")
    }
}

/// The revision, how many objects there are, and how many of them the index has.
fn standing(alloc: Global, informer: &Informer<By>) -> Result<String, Fail> {
    let indexer = informer.indexer();
    let all = indexer.by_index("namespace", "default");
    in_words(
        alloc,
        (
            informer.revision(),
            indexer.len(),
            all.map_or(0, |keys| keys.len()),
        ),
    )
}

/// Puts the objects, ` NAME@REVISION` each.
fn push_objects(alloc: Global, text: &mut String, informer: &Informer<By>) -> Result<(), Fail> {
    for (_, object) in informer.indexer().objects()? {
        text.push_str(format!(in alloc; " {}@{}", object.name, object.revision)?.as_str())?;
    }
    Ok(())
}

fn push_notice(text: &mut String, notice: &Notice) -> Result<(), AllocError> {
    let (sign, object) = match notice {
        Notice::Added(new) => (" +", new),
        Notice::Updated(_, new) => (" *", new),
        Notice::Deleted(old) => (" -", old),
    };
    text.push_str(sign)?;
    text.push_str(object.name.as_str())
}

/// What of the target of the request that is due stands behind the type's group and version; `none` while a request is
/// under way. Whether one is under way is told before, and one is then.
pub fn ask(alloc: Global, informer: &mut Informer<By>) -> Result<String, Fail> {
    let was_awaiting_reply = informer.is_awaiting_reply();
    let request = informer.next_request()?;
    if request.is_some() == was_awaiting_reply || !informer.is_awaiting_reply() {
        return Err("told another state".into());
    }
    match request {
        Some(request) => Ok(String::from_str(alloc, target_in(&request)?)?),
        None => Ok(String::from_str(alloc, "none")?),
    }
}

/// What of a request's target stands behind the type's group and version.
pub fn target_in(request: &[u8]) -> Result<&str, &'static str> {
    let text = str::from_utf8(request).map_err(|_| "no text")?;
    let text = text
        .strip_prefix("GET /apis/demo.example/v1")
        .ok_or("another path")?;
    text.strip_suffix(" HTTP/1.1\r\nHost: localhost\r\n\r\n")
        .ok_or("another head")
}

/// The lines of the apply, with bars between them.
fn apply(alloc: Global, summary: &Summary) -> Result<String, Fail> {
    let bytes = summary.apply_call("default", "summary")?;
    let lines = str::from_utf8(&bytes).map_err(|_| "no text")?;
    Ok(lines.replace(alloc, "\r\n", "|")?)
}
