//! A store over a table: that the calls succeed where memory is ample, and what refused memory leaves. The table alone is
//! tested in `tables`.
//!
//! Each example is played on a store of its own; its first line begins `store REVISION`, where the store begins.
//!
//! | question | answer |
//! |---|---|
//! | `write KEY BODY`, `erase KEY`, `compact REVISION` | a change is made |
//! | `both NAME BODY` | it is written under this name in `default` and in `other`, at once |
//! | `anew write KEY BODY`, `anew compact KEY REVISION` | whether it is made between marks; where it failed it must leave all as it was, and is made again |
//! | `many KEY COUNT LENGTH` | so many changes of a key are made, each with a text of so many bytes; the current revision |
//! | `again CALL KEY WORD` | whether it is done between marks, where what waits to be written still waits; where it failed it is made again |
//! | `get KEY`, `before KEY REVISION` | what stands under the key, or stood before the revision, which is one that has come and isn't compacted |
//! | `stood KEY REVISION` | whether something stood there before the revision |
//! | `list REVISION`, `changes REVISION` | the objects that stand at it; the changes that came in `default` after it |
//! | `kept REVISION MAX` | the first objects there that have a text of one byte, at most so many; how many texts were looked at |
//! | `numbers`, `seen` | the current and the compacted revision; all that there is to be seen |

use crate::rows::{Answers, expect_text, first_word, in_words, mark, number, play};
use crate::tables::{key, table_at};
use history::{Key, Object, Write};
use revstore::{Store, WriteFault};
use revtable::{Fault, Keep};
use std::alloc::{AllocError, Global};
use std::cell::Cell;
use std::mem;
use std::test::Fail;

/// Whether there was an object; then it is erased.
fn erase(store: &mut Store, key: &Key) -> Result<bool, WriteFault> {
    let found = store.get(key)?;
    if found.is_none() {
        return Ok(false);
    }
    store.write(key, None)?;
    Ok(true)
}

/// What stood before a revision, if that is one that has come and isn't compacted.
fn before(store: &mut Store, key: &Key, revision: u64) -> Result<Option<Object>, Fault> {
    if store.compacted() < revision && revision <= store.current() {
        store.before(key, revision)
    } else {
        Ok(None)
    }
}

/// Whether something stood before a revision, if that is one that has come and isn't compacted.
fn stood(store: &mut Store, key: &Key, revision: u64) -> Result<bool, Fault> {
    if store.compacted() < revision && revision <= store.current() {
        store.stood_before(key, revision)
    } else {
        Ok(false)
    }
}

/// Keeps the texts of a length, and counts how often it was asked.
#[derive(Drop)]
struct OfLength {
    length: usize,
    asked: Cell<u64>,
}

impl Keep for OfLength {
    ghost use Rattle.std.specs.Prelude.{◌==◌, length};

    ghost kept = { λ k text. length text == k.length };

    fn keeps(&self, text: &str) -> Result<bool, AllocError> {
        self.asked.set(self.asked.get().saturating_add(1));
        Ok(text.len() == self.length)
    }
}

fn written(alloc: Global, place: &str, body: &str) -> Result<(Key, String), AllocError> {
    Ok((key(alloc, place)?, String::from_str(alloc, body)?))
}

fn write_both(
    alloc: Global,
    store: &mut Store,
    one: (Key, String),
    other: (Key, String),
) -> Result<String, Fail> {
    let writes = [
        Write {
            key: one.0,
            body: Some(one.1),
        },
        Write {
            key: other.0,
            body: Some(other.1),
        },
    ];
    in_words(alloc, store.write_all(&writes))
}

fn both(alloc: Global, store: &mut Store, name: &str, body: &str) -> Result<String, Fail> {
    let one = written(alloc, name, body)?;
    let other = format!(in alloc; "other/{name}")?;
    write_both(alloc, store, one, written(alloc, other.as_str(), body)?)
}

fn kept(alloc: Global, store: &mut Store, revision: u64, max: u64) -> Result<String, Fail> {
    let keep = OfLength {
        length: 1,
        asked: Cell::new(0),
    };
    let found = store.first_kept(7, None, revision, None, max, &keep);
    in_words(alloc, (found, keep.asked.get()))
}

/// What answers by a store.
#[derive(Drop)]
struct Stored {
    store: Store,
}

impl Answers for Stored {
    fn answer(&mut self, alloc: Global, question: &str) -> Result<String, Fail> {
        let (call, words) = first_word(question);
        let (one, other) = first_word(words);
        let store = &mut self.store;
        match call {
            "numbers" => in_words(alloc, (store.current(), store.compacted())),
            "seen" => seen(alloc, store),
            "kept" => kept(alloc, store, number(one)?, number(other)?),
            "list" => in_words(alloc, store.list_at(7, None, number(one)?, None, 10)),
            "changes" => in_words(alloc, store.changes(7, Some("default"), number(one)?, 10)),
            "compact" => in_words(alloc, store.compact(number(one)?)),
            "anew" | "again" => marked(alloc, store, call == "anew", words),
            "many" => many(alloc, store, one, other),
            "both" => both(alloc, store, one, other),
            _ => answer_of_key(alloc, store, call, &key(alloc, one)?, other),
        }
    }
}

fn answer_of_key(
    alloc: Global,
    store: &mut Store,
    call: &str,
    key: &Key,
    word: &str,
) -> Result<String, Fail> {
    match call {
        "write" => in_words(alloc, store.write(key, Some(word))),
        "erase" => in_words(alloc, erase(store, key)),
        "get" => in_words(alloc, store.get(key)),
        "before" => in_words(alloc, before(store, key, number(word)?)),
        "stood" => in_words(alloc, stood(store, key, number(word)?)),
        _ => Err("no such call".into()),
    }
}

/// All that can be seen: the numbers, what stood at the first and at the last of the two, the changes between them, and what
/// stands under `a` and `b`.
fn seen(alloc: Global, store: &mut Store) -> Result<String, Fail> {
    let (current, compacted) = (store.current(), store.compacted());
    let first = store.list_at(7, None, compacted, None, 10);
    let last = store.list_at(7, None, current, None, 10);
    let between = store.changes(7, None, compacted, 10);
    let (a, b) = (store.get(&key(alloc, "a")?), store.get(&key(alloc, "b")?));
    in_words(alloc, (current, compacted, first, last, (between, a, b)))
}

/// Writes, or compacts to the revision of a word, or looks. Whether it is done.
fn change(store: &mut Store, call: &str, key: &Key, word: &str) -> bool {
    let revision = word.parse::<u64>().unwrap_or(0);
    match call {
        "write" => store.write(key, Some(word)).is_ok(),
        "get" => store.get(key).is_ok(),
        "list" => store.list_at(7, None, revision, None, 10).is_ok(),
        "changes" => store.changes(7, None, revision, 10).is_ok(),
        _ => store.compact(revision).is_ok(),
    }
}

/// A call between marks, with a look at all before it or none; where it failed, all is seen as in that look, and it is made
/// again.
fn marked(alloc: Global, store: &mut Store, is_seen: bool, words: &str) -> Result<String, Fail> {
    let (call, words) = first_word(words);
    let (place, word) = first_word(words);
    let key = key(alloc, place)?;
    let before = if is_seen {
        Some(seen(alloc, store)?)
    } else {
        None
    };
    mark(alloc)?;
    let is_done = change(store, call, &key, word);
    mark(alloc)?;
    if is_done {
        return in_words(alloc, true);
    }
    if let Some(before) = before {
        expect_text(seen(alloc, store)?, before.as_str())?;
    }
    in_words(alloc, change(store, call, &key, word))
}

/// Writes a key so often, with a text of so many bytes.
fn many(alloc: Global, store: &mut Store, place: &str, words: &str) -> Result<String, Fail> {
    let (count, length) = first_word(words);
    let key = key(alloc, place)?;
    let mut body = String::new(alloc);
    for _ in 0..number(length)? {
        body.push('m')?;
    }
    for _ in 0..number(count)? {
        change(store, "write", &key, body.as_str());
    }
    in_words(alloc, store.current())
}

/// Plays an example on a store that begins at its revision. The store is not dropped, and no other function holds one.
fn play_on_store(alloc: Global, example: &str) -> Result<(), Fail> {
    let (_, words) = first_word(example);
    let (revision, _) = first_word(words);
    let mut stored = Stored {
        store: Store::new(table_at(alloc, number(revision)?)?),
    };
    let played = play(alloc, &mut stored, example);
    mem::forget(stored);
    played
}

fn play_each(alloc: Global, examples: &str) -> Result<(), Fail> {
    for example in examples.split("\n\n") {
        play_on_store(alloc, example)?;
    }
    Ok(())
}

const EXAMPLES: &str = r#"store 1 a_fresh_store
numbers => (1, 1)
list 1 => Ok([])
list 2 => Err(TooLarge)
list 0 => Err(Expired)
compact 0 => Err(Expired)
compact 2 => Err(TooLarge)
compact 1 => Ok(())

store 1 a_deleted_object_until_it_is_compacted
write w1 a => Ok(2)
write w1 b => Ok(3)
erase w1 => Ok(true)
get w1 => Ok(None)
changes 1 => Ok([Change { revision: 2, key: Key { kind: 7, namespace: "default", name: "w1" }, body: Some("a") }, Change { revision: 3, key: Key { kind: 7, namespace: "default", name: "w1" }, body: Some("b") }, Change { revision: 4, key: Key { kind: 7, namespace: "default", name: "w1" }, body: None }])
before w1 4 => Ok(Some(Object { revision: 3, body: "b" }))
stood w1 4 => Ok(true)
stood w1 2 => Ok(false)
compact 4 => Ok(())
numbers => (4, 4)
changes 3 => Err(Expired)
changes 4 => Ok([])

store 1 the_first_that_are_kept
write a long => Ok(2)
write b b => Ok(3)
write c long => Ok(4)
write other/a a => Ok(5)
write other/b long => Ok(6)
kept 6 0 => (Ok([]), 0)
kept 6 1 => (Ok([Entry { key: Key { kind: 7, namespace: "default", name: "b" }, object: Object { revision: 3, body: "b" } }]), 2)
kept 6 2 => (Ok([Entry { key: Key { kind: 7, namespace: "default", name: "b" }, object: Object { revision: 3, body: "b" } }, Entry { key: Key { kind: 7, namespace: "other", name: "a" }, object: Object { revision: 5, body: "a" } }]), 4)
kept 6 3 => (Ok([Entry { key: Key { kind: 7, namespace: "default", name: "b" }, object: Object { revision: 3, body: "b" } }, Entry { key: Key { kind: 7, namespace: "other", name: "a" }, object: Object { revision: 5, body: "a" } }]), 5)
kept 2 9 => (Ok([]), 1)
kept 7 1 => (Err(TooLarge), 0)
compact 3 => Ok(())
kept 2 1 => (Err(Expired), 0)
kept 3 9 => (Ok([Entry { key: Key { kind: 7, namespace: "default", name: "b" }, object: Object { revision: 3, body: "b" } }]), 2)

store 9223372036854775807 revisions_are_used_up
write w1 a => Err(Exhausted)
both w1 a => Err(Exhausted)
get w1 => Ok(None)

store 9223372036854775805 two_revisions_for_two_changes
both w1 a => Ok(9223372036854775807)
list 9223372036854775806 => Ok([Entry { key: Key { kind: 7, namespace: "default", name: "w1" }, object: Object { revision: 9223372036854775806, body: "a" } }])
list 9223372036854775807 => Ok([Entry { key: Key { kind: 7, namespace: "default", name: "w1" }, object: Object { revision: 9223372036854775806, body: "a" } }, Entry { key: Key { kind: 7, namespace: "other", name: "w1" }, object: Object { revision: 9223372036854775807, body: "a" } }])
both w1 b => Err(Exhausted)
numbers => (9223372036854775807, 9223372036854775805)

store 9223372036854775806 one_revision_for_two_changes: neither is made
both w1 a => Err(Exhausted)
numbers => (9223372036854775806, 9223372036854775806)
get w1 => Ok(None)
changes 9223372036854775806 => Ok([])
write w1 a => Ok(9223372036854775807)
both w1 b => Err(Exhausted)
get w1 => Ok(Some(Object { revision: 9223372036854775807, body: "a" }))

store 1 a_write_where_64_wait
many a 64 1 => 65
write b b66 => Ok(66)
numbers => (66, 1)
list 65 => Ok([Entry { key: Key { kind: 7, namespace: "default", name: "a" }, object: Object { revision: 65, body: "m" } }])
list 66 => Ok([Entry { key: Key { kind: 7, namespace: "default", name: "a" }, object: Object { revision: 65, body: "m" } }, Entry { key: Key { kind: 7, namespace: "default", name: "b" }, object: Object { revision: 66, body: "b66" } }])
before a 65 => Ok(Some(Object { revision: 64, body: "m" }))
stood a 65 => Ok(true)
both c c => Ok(68)
changes 63 => Ok([Change { revision: 64, key: Key { kind: 7, namespace: "default", name: "a" }, body: Some("m") }, Change { revision: 65, key: Key { kind: 7, namespace: "default", name: "a" }, body: Some("m") }, Change { revision: 66, key: Key { kind: 7, namespace: "default", name: "b" }, body: Some("b66") }, Change { revision: 67, key: Key { kind: 7, namespace: "default", name: "c" }, body: Some("c") }])"#;

#[test]
fn examples(rt: HostRuntime) -> Result<(), Fail> {
    play_each(rt.alloc(), EXAMPLES)
}

const WRITTEN_ANEW: &str = r#"store 1 a_write_that_is_refused_memory
write b b2 => Ok(2)
write a a3 => Ok(3)
write other/a o4 => Ok(4)
erase b => Ok(true)
write a a6 => Ok(6)
anew write b b7 => true
seen => (7, 1, Ok([]), Ok([Entry { key: Key { kind: 7, namespace: "default", name: "a" }, object: Object { revision: 6, body: "a6" } }, Entry { key: Key { kind: 7, namespace: "default", name: "b" }, object: Object { revision: 7, body: "b7" } }, Entry { key: Key { kind: 7, namespace: "other", name: "a" }, object: Object { revision: 4, body: "o4" } }]), (Ok([Change { revision: 2, key: Key { kind: 7, namespace: "default", name: "b" }, body: Some("b2") }, Change { revision: 3, key: Key { kind: 7, namespace: "default", name: "a" }, body: Some("a3") }, Change { revision: 4, key: Key { kind: 7, namespace: "other", name: "a" }, body: Some("o4") }, Change { revision: 5, key: Key { kind: 7, namespace: "default", name: "b" }, body: None }, Change { revision: 6, key: Key { kind: 7, namespace: "default", name: "a" }, body: Some("a6") }, Change { revision: 7, key: Key { kind: 7, namespace: "default", name: "b" }, body: Some("b7") }]), Ok(Some(Object { revision: 6, body: "a6" })), Ok(Some(Object { revision: 7, body: "b7" }))))"#;

#[test]
fn a_write_that_is_refused_memory(rt: HostRuntime) -> Result<(), Fail> {
    play_each(rt.alloc(), WRITTEN_ANEW)
}

const COMPACTED_ANEW: &str = r#"store 1 a_compaction_that_is_refused_memory
write b b2 => Ok(2)
write a a3 => Ok(3)
write other/a o4 => Ok(4)
erase b => Ok(true)
write a a6 => Ok(6)
anew compact - 5 => true
seen => (6, 5, Ok([Entry { key: Key { kind: 7, namespace: "default", name: "a" }, object: Object { revision: 3, body: "a3" } }, Entry { key: Key { kind: 7, namespace: "other", name: "a" }, object: Object { revision: 4, body: "o4" } }]), Ok([Entry { key: Key { kind: 7, namespace: "default", name: "a" }, object: Object { revision: 6, body: "a6" } }, Entry { key: Key { kind: 7, namespace: "other", name: "a" }, object: Object { revision: 4, body: "o4" } }]), (Ok([Change { revision: 6, key: Key { kind: 7, namespace: "default", name: "a" }, body: Some("a6") }]), Ok(Some(Object { revision: 6, body: "a6" })), Ok(None)))"#;

#[test]
fn a_compaction_that_is_refused_memory(rt: HostRuntime) -> Result<(), Fail> {
    play_each(rt.alloc(), COMPACTED_ANEW)
}

const WAITING: &str = r#"store 1 a_write_where_256_KiB_wait
many a 1 262144 => 2
again write a a3 => true
again write b b4 => true
numbers => (4, 1)
list 3 => Ok([Entry { key: Key { kind: 7, namespace: "default", name: "a" }, object: Object { revision: 3, body: "a3" } }])
list 4 => Ok([Entry { key: Key { kind: 7, namespace: "default", name: "a" }, object: Object { revision: 3, body: "a3" } }, Entry { key: Key { kind: 7, namespace: "default", name: "b" }, object: Object { revision: 4, body: "b4" } }])
both c c => Ok(6)
changes 2 => Ok([Change { revision: 3, key: Key { kind: 7, namespace: "default", name: "a" }, body: Some("a3") }, Change { revision: 4, key: Key { kind: 7, namespace: "default", name: "b" }, body: Some("b4") }, Change { revision: 5, key: Key { kind: 7, namespace: "default", name: "c" }, body: Some("c") }])

store 1 a_list_where_two_wait
both b b => Ok(3)
many a 2 1 => 5
again list - 4 => true
numbers => (5, 1)
changes 1 => Ok([Change { revision: 2, key: Key { kind: 7, namespace: "default", name: "b" }, body: Some("b") }, Change { revision: 4, key: Key { kind: 7, namespace: "default", name: "a" }, body: Some("m") }, Change { revision: 5, key: Key { kind: 7, namespace: "default", name: "a" }, body: Some("m") }])
list 4 => Ok([Entry { key: Key { kind: 7, namespace: "default", name: "a" }, object: Object { revision: 4, body: "m" } }, Entry { key: Key { kind: 7, namespace: "default", name: "b" }, object: Object { revision: 2, body: "b" } }, Entry { key: Key { kind: 7, namespace: "other", name: "b" }, object: Object { revision: 3, body: "b" } }])
list 5 => Ok([Entry { key: Key { kind: 7, namespace: "default", name: "a" }, object: Object { revision: 5, body: "m" } }, Entry { key: Key { kind: 7, namespace: "default", name: "b" }, object: Object { revision: 2, body: "b" } }, Entry { key: Key { kind: 7, namespace: "other", name: "b" }, object: Object { revision: 3, body: "b" } }])
get a => Ok(Some(Object { revision: 5, body: "m" }))

store 1 a_look_at_a_key_where_two_wait
both b b => Ok(3)
many a 2 1 => 5
again get a - => true
numbers => (5, 1)
changes 1 => Ok([Change { revision: 2, key: Key { kind: 7, namespace: "default", name: "b" }, body: Some("b") }, Change { revision: 4, key: Key { kind: 7, namespace: "default", name: "a" }, body: Some("m") }, Change { revision: 5, key: Key { kind: 7, namespace: "default", name: "a" }, body: Some("m") }])
list 4 => Ok([Entry { key: Key { kind: 7, namespace: "default", name: "a" }, object: Object { revision: 4, body: "m" } }, Entry { key: Key { kind: 7, namespace: "default", name: "b" }, object: Object { revision: 2, body: "b" } }, Entry { key: Key { kind: 7, namespace: "other", name: "b" }, object: Object { revision: 3, body: "b" } }])
list 5 => Ok([Entry { key: Key { kind: 7, namespace: "default", name: "a" }, object: Object { revision: 5, body: "m" } }, Entry { key: Key { kind: 7, namespace: "default", name: "b" }, object: Object { revision: 2, body: "b" } }, Entry { key: Key { kind: 7, namespace: "other", name: "b" }, object: Object { revision: 3, body: "b" } }])
get a => Ok(Some(Object { revision: 5, body: "m" }))

store 1 changes_where_two_wait
both b b => Ok(3)
many a 2 1 => 5
again changes - 1 => true
numbers => (5, 1)
changes 1 => Ok([Change { revision: 2, key: Key { kind: 7, namespace: "default", name: "b" }, body: Some("b") }, Change { revision: 4, key: Key { kind: 7, namespace: "default", name: "a" }, body: Some("m") }, Change { revision: 5, key: Key { kind: 7, namespace: "default", name: "a" }, body: Some("m") }])
list 4 => Ok([Entry { key: Key { kind: 7, namespace: "default", name: "a" }, object: Object { revision: 4, body: "m" } }, Entry { key: Key { kind: 7, namespace: "default", name: "b" }, object: Object { revision: 2, body: "b" } }, Entry { key: Key { kind: 7, namespace: "other", name: "b" }, object: Object { revision: 3, body: "b" } }])
list 5 => Ok([Entry { key: Key { kind: 7, namespace: "default", name: "a" }, object: Object { revision: 5, body: "m" } }, Entry { key: Key { kind: 7, namespace: "default", name: "b" }, object: Object { revision: 2, body: "b" } }, Entry { key: Key { kind: 7, namespace: "other", name: "b" }, object: Object { revision: 3, body: "b" } }])
get a => Ok(Some(Object { revision: 5, body: "m" }))

store 1 a_compaction_where_two_wait
both b b => Ok(3)
many a 2 1 => 5
again compact - 4 => true
numbers => (5, 4)
list 3 => Err(Expired)
list 4 => Ok([Entry { key: Key { kind: 7, namespace: "default", name: "a" }, object: Object { revision: 4, body: "m" } }, Entry { key: Key { kind: 7, namespace: "default", name: "b" }, object: Object { revision: 2, body: "b" } }, Entry { key: Key { kind: 7, namespace: "other", name: "b" }, object: Object { revision: 3, body: "b" } }])
list 5 => Ok([Entry { key: Key { kind: 7, namespace: "default", name: "a" }, object: Object { revision: 5, body: "m" } }, Entry { key: Key { kind: 7, namespace: "default", name: "b" }, object: Object { revision: 2, body: "b" } }, Entry { key: Key { kind: 7, namespace: "other", name: "b" }, object: Object { revision: 3, body: "b" } }])
changes 4 => Ok([Change { revision: 5, key: Key { kind: 7, namespace: "default", name: "a" }, body: Some("m") }])"#;

#[test]
fn waiting_writes_that_are_refused_memory(rt: HostRuntime) -> Result<(), Fail> {
    play_each(rt.alloc(), WAITING)
}
