//! Histories of objects in a table: that the calls succeed where memory is ample, and what refused memory leaves. The
//! store over it is tested in `stores`.
//!
//! Each example is played on a table of its own; its first line begins `table REVISION`, where the table begins, or `table 0`
//! where it is opened without a revision.
//!
//! | question | answer |
//! |---|---|
//! | `add KEY BODY`, `remove KEY`, `prune KEY REVISION` | whether a change is made |
//! | `anew add KEY BODY`, `anew prune KEY REVISION` | the same between marks; where it failed it must leave all as it was, and is made again |
//! | `stood KEY REVISION` | what stood under the key |
//! | `page PLACE REVISION MAX` | a page, of all (`-`), of a namespace, or of all after `NAMESPACE/NAME` |
//! | `changes NAMESPACE FROM TO MAX` | the changes of a namespace or of all |
//! | `marks`, `rows`, `seen` | the current and the compacted revision; how many rows hold an object, and how many there are in all; all that there is to be seen |

use crate::rows::{Answers, expect_text, first_word, in_words, mark, number, play};
use history::Key;
use revtable::{Fault, Table};
use std::alloc::{AllocError, Global};
use std::mem;
use std::test::Fail;

pub const LAST_REVISION: u64 = i64::MAX as u64;

/// The key of `NAMESPACE/NAME`, or of a name in the namespace `default`.
pub fn key(alloc: Global, words: &str) -> Result<Key, AllocError> {
    let (namespace, name) = words.split_once('/').unwrap_or(("default", words));
    Ok(Key {
        kind: 7,
        namespace: String::from_str(alloc, namespace)?,
        name: String::from_str(alloc, name)?,
    })
}

pub fn table_at(alloc: Global, revision: u64) -> Result<Table, Fault> {
    if (1..=LAST_REVISION).contains(&revision) {
        Table::open_at(alloc, revision)
    } else {
        Table::open(alloc)
    }
}

/// Whether there was a revision left; then it is put at the next one.
fn add(table: &mut Table, key: &Key, body: &str) -> Result<bool, Fault> {
    let current = table.marks().current;
    if current >= LAST_REVISION {
        return Ok(false);
    }
    table.put(current + 1, key, Some(body))?;
    Ok(true)
}

/// Whether there was an object, and a revision left; then its deletion is put at that.
fn remove(table: &mut Table, key: &Key) -> Result<bool, Fault> {
    let current = table.marks().current;
    let found = table.latest(key)?;
    if current >= LAST_REVISION || found.is_none() {
        return Ok(false);
    }
    table.put(current + 1, key, None)?;
    Ok(true)
}

/// Makes a change, if it can be made.
fn change(table: &mut Table, call: &str, key: &Key, word: &str) -> Result<bool, Fault> {
    match call {
        "add" => add(table, key, word),
        "remove" => remove(table, key),
        _ => {
            table.prune(word.parse::<u64>().unwrap_or(0))?;
            Ok(true)
        }
    }
}

/// What answers by a table.
#[derive(Drop)]
struct Tabled {
    table: Table,
}

impl Answers for Tabled {
    fn answer(&mut self, alloc: Global, question: &str) -> Result<String, Fail> {
        let (call, words) = first_word(question);
        let (one, other) = first_word(words);
        let table = &mut self.table;
        match call {
            "rows" => in_words(alloc, table.rows()),
            "marks" => in_words(alloc, table.marks()),
            "seen" => seen(alloc, table),
            "page" => page(alloc, table, one, other),
            "changes" => changes(alloc, table, one, other),
            "stood" => in_words(alloc, table.latest_at(&key(alloc, one)?, number(other)?)),
            "anew" => anew(alloc, table, one, other),
            _ => in_words(alloc, change(table, call, &key(alloc, one)?, other)),
        }
    }
}

fn page(alloc: Global, table: &mut Table, place: &str, words: &str) -> Result<String, Fail> {
    let (revision, max) = first_word(words);
    let after = place.split_once('/');
    let namespace = if place == "-" || after.is_some() {
        None
    } else {
        Some(place)
    };
    in_words(
        alloc,
        table.at(7, namespace, number(revision)?, after, number(max)?),
    )
}

fn changes(alloc: Global, table: &mut Table, place: &str, words: &str) -> Result<String, Fail> {
    let (from, words) = first_word(words);
    let (to, max) = first_word(words);
    let namespace = if place == "-" { None } else { Some(place) };
    in_words(
        alloc,
        table.span(7, namespace, number(from)?, number(to)?, number(max)?),
    )
}

/// All that can be seen: the numbers, the rows, what stood at the first and at the last of the two, and the
/// changes between them.
fn seen(alloc: Global, table: &mut Table) -> Result<String, Fail> {
    let marks = table.marks();
    let first = table.at(7, None, marks.compacted, None, 10);
    let last = table.at(7, None, marks.current, None, 10);
    let between = table.span(7, None, marks.compacted, marks.current, 10);
    in_words(alloc, (marks, table.rows(), first, last, between))
}

/// A change between marks; where the table failed, all is seen as before, and the change is made again.
fn anew(alloc: Global, table: &mut Table, call: &str, words: &str) -> Result<String, Fail> {
    let (place, word) = first_word(words);
    let key = key(alloc, place)?;
    let before = seen(alloc, table)?;
    mark(alloc)?;
    let is_failed = change(table, call, &key, word).is_err();
    mark(alloc)?;
    if !is_failed {
        return in_words(alloc, true);
    }
    expect_text(seen(alloc, table)?, before.as_str())?;
    in_words(alloc, change(table, call, &key, word).is_ok())
}

/// Plays an example on a table that begins at its revision. The table is not dropped, and no other function holds one: one
/// that drops a table takes a minute to prove.
fn play_on_table(alloc: Global, example: &str) -> Result<(), Fail> {
    let (_, words) = first_word(example);
    let (revision, _) = first_word(words);
    let mut tabled = Tabled {
        table: table_at(alloc, number(revision)?)?,
    };
    let played = play(alloc, &mut tabled, example);
    mem::forget(tabled);
    played
}

const EXAMPLES: &str =
    r#"table 1 rows_after_a_prune: one key has five writes, another is made and deleted: a prune leaves what still stands or came later; a deletion has no row
add w1 a => Ok(true)
add w1 b => Ok(true)
add w1 c => Ok(true)
add w1 d => Ok(true)
add w1 e => Ok(true)
add w2 f => Ok(true)
remove w2 => Ok(true)
marks => Marks { current: 8, compacted: 1 }
rows => Ok(6)
prune - 5 => Ok(true)
rows => Ok(3)
prune - 8 => Ok(true)
rows => Ok(1)
marks => Marks { current: 8, compacted: 8 }

table 9223372036854775806 the_highest_revision
add w1 a => Ok(true)
marks => Marks { current: 9223372036854775807, compacted: 9223372036854775806 }
stood w1 18446744073709551615 => Ok(Some(Object { revision: 9223372036854775807, body: "a" }))
page - 18446744073709551615 18446744073709551615 => Ok([Entry { key: Key { kind: 7, namespace: "default", name: "w1" }, object: Object { revision: 9223372036854775807, body: "a" } }])
prune - 18446744073709551615 => Ok(true)
rows => Ok(1)

table 0 a_table_that_is_opened: without a revision, so that it begins at 1
marks => Marks { current: 1, compacted: 1 }
rows => Ok(0)
add w1 a => Ok(true)
marks => Marks { current: 2, compacted: 1 }
stood w1 2 => Ok(Some(Object { revision: 2, body: "a" }))
rows => Ok(1)

table 1 pages_are_in_the_order_of_keys: of all and of one namespace, whole and after a key, of ten and of one
add b b2 => Ok(true)
add a a3 => Ok(true)
add other/a o4 => Ok(true)
remove b => Ok(true)
add a a6 => Ok(true)
page - 4 10 => Ok([Entry { key: Key { kind: 7, namespace: "default", name: "a" }, object: Object { revision: 3, body: "a3" } }, Entry { key: Key { kind: 7, namespace: "default", name: "b" }, object: Object { revision: 2, body: "b2" } }, Entry { key: Key { kind: 7, namespace: "other", name: "a" }, object: Object { revision: 4, body: "o4" } }])
page default 6 10 => Ok([Entry { key: Key { kind: 7, namespace: "default", name: "a" }, object: Object { revision: 6, body: "a6" } }])
page default/a 4 10 => Ok([Entry { key: Key { kind: 7, namespace: "default", name: "b" }, object: Object { revision: 2, body: "b2" } }, Entry { key: Key { kind: 7, namespace: "other", name: "a" }, object: Object { revision: 4, body: "o4" } }])
page default/a 4 1 => Ok([Entry { key: Key { kind: 7, namespace: "default", name: "b" }, object: Object { revision: 2, body: "b2" } }])

table 1 changes_are_in_the_order_of_revisions: those of `default` after 2 up to 6, and the first two of all after 1
add b b2 => Ok(true)
add a a3 => Ok(true)
add other/a o4 => Ok(true)
remove b => Ok(true)
add a a6 => Ok(true)
changes default 2 6 10 => Ok([Change { revision: 3, key: Key { kind: 7, namespace: "default", name: "a" }, body: Some("a3") }, Change { revision: 5, key: Key { kind: 7, namespace: "default", name: "b" }, body: None }, Change { revision: 6, key: Key { kind: 7, namespace: "default", name: "a" }, body: Some("a6") }])
changes - 1 6 2 => Ok([Change { revision: 2, key: Key { kind: 7, namespace: "default", name: "b" }, body: Some("b2") }, Change { revision: 3, key: Key { kind: 7, namespace: "default", name: "a" }, body: Some("a3") }])"#;

#[test]
fn examples(rt: HostRuntime) -> Result<(), Fail> {
    for example in EXAMPLES.split("\n\n") {
        play_on_table(rt.alloc(), example)?;
    }
    Ok(())
}

const PUT_ANEW: &str = r#"table 1 a_put_that_is_refused_memory
add b b2 => Ok(true)
add a a3 => Ok(true)
add other/a o4 => Ok(true)
remove b => Ok(true)
add a a6 => Ok(true)
anew add b b7 => true
seen => (Marks { current: 7, compacted: 1 }, Ok(5), Ok([]), Ok([Entry { key: Key { kind: 7, namespace: "default", name: "a" }, object: Object { revision: 6, body: "a6" } }, Entry { key: Key { kind: 7, namespace: "default", name: "b" }, object: Object { revision: 7, body: "b7" } }, Entry { key: Key { kind: 7, namespace: "other", name: "a" }, object: Object { revision: 4, body: "o4" } }]), Ok([Change { revision: 2, key: Key { kind: 7, namespace: "default", name: "b" }, body: Some("b2") }, Change { revision: 3, key: Key { kind: 7, namespace: "default", name: "a" }, body: Some("a3") }, Change { revision: 4, key: Key { kind: 7, namespace: "other", name: "a" }, body: Some("o4") }, Change { revision: 5, key: Key { kind: 7, namespace: "default", name: "b" }, body: None }, Change { revision: 6, key: Key { kind: 7, namespace: "default", name: "a" }, body: Some("a6") }, Change { revision: 7, key: Key { kind: 7, namespace: "default", name: "b" }, body: Some("b7") }]))"#;

#[test]
fn a_put_that_is_refused_memory(rt: HostRuntime) -> Result<(), Fail> {
    play_on_table(rt.alloc(), PUT_ANEW)
}

const PRUNED_ANEW: &str = r#"table 1 a_prune_that_is_refused_memory
add b b2 => Ok(true)
add a a3 => Ok(true)
add other/a o4 => Ok(true)
remove b => Ok(true)
add a a6 => Ok(true)
anew prune - 5 => true
seen => (Marks { current: 6, compacted: 5 }, Ok(3), Ok([Entry { key: Key { kind: 7, namespace: "default", name: "a" }, object: Object { revision: 3, body: "a3" } }, Entry { key: Key { kind: 7, namespace: "other", name: "a" }, object: Object { revision: 4, body: "o4" } }]), Ok([Entry { key: Key { kind: 7, namespace: "default", name: "a" }, object: Object { revision: 6, body: "a6" } }, Entry { key: Key { kind: 7, namespace: "other", name: "a" }, object: Object { revision: 4, body: "o4" } }]), Ok([Change { revision: 6, key: Key { kind: 7, namespace: "default", name: "a" }, body: Some("a6") }]))"#;

#[test]
fn a_prune_that_is_refused_memory(rt: HostRuntime) -> Result<(), Fail> {
    play_on_table(rt.alloc(), PRUNED_ANEW)
}
