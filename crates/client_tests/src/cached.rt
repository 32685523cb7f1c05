//! Puts, changes and removals under two indexes, and each refusal. Objects are read from replies in `decoded`.
//!
//! Each example is played on an indexer without objects; its first line begins with `indexer`. An object is told by
//! `NAME REVISION TEXT`.
//!
//! | question | answer |
//! |---|---|
//! | `put OBJECT` | the object that it replaced |
//! | `replace OBJECT,OBJECT` | just these objects are kept; those before |
//! | `anew put OBJECT`, `anew replace OBJECT,OBJECT` | whether it is done between marks; out of memory it must leave all as it was, and is made again |
//! | `remove NAME`, `get NAME` | the object that it removed; the object |
//! | `under INDEX KEY`, `keys INDEX` | the objects' keys under the index's key; the index's keys |
//! | `twice` | why two indexes with one name are refused |

use crate::rows::{Answers, expect_text, first_word, in_words, mark, number, play};
use indexer::{IndexBy, Indexer, Object, ObjectKey};
use std::alloc::{AllocError, Global};
use std::collections::BTreeMap;
use std::rc::{Rc, RcStr};
use std::test::Fail;

/// By the object's text, told twice, or by its namespace.
#[derive(Drop)]
pub struct By {
    pub is_text: bool,
}

impl IndexBy for By {
    ghost use Rattle.std.specs.Prelude.{codes, [], ◌∷◌, if◌then◌else◌};

    ghost title = { λ b. if b.is_text then codes "text" else codes "namespace" };

    ghost keys = { λ b o. if b.is_text then o.text ∷ o.text ∷ [] else o.namespace ∷ [] };

    fn name(&self) -> &str {
        if self.is_text { "text" } else { "namespace" }
    }

    fn keys_of(&self, alloc: Global, object: &Object) -> Result<Vec<String>, AllocError> {
        if self.is_text {
            return Ok(vec![in alloc; object.text.clone()?, object.text.clone()?]?);
        }
        Ok(vec![in alloc; String::from_str(alloc, object.namespace.as_str())?]?)
    }
}

/// The objects of `NAME REVISION TEXT`, with commas between them.
fn objects(alloc: Global, words: &str) -> Result<Vec<Rc<Object>>, Fail> {
    let mut objects = Vec::new(alloc);
    for each in words.split(',') {
        let (name, words) = first_word(each);
        let (revision, text) = first_word(words);
        let object = Object {
            namespace: RcStr::from_str(alloc, "default")?,
            name: RcStr::from_str(alloc, name)?,
            revision: number(revision)?,
            labels: BTreeMap::new(alloc),
            text: String::from_str(alloc, text)?,
        };
        objects.push(object.shared(alloc)?)?;
    }
    Ok(objects)
}

/// Plays an example on an indexer without objects, by namespace and by text.
fn play_on_indexer(alloc: Global, example: &str) -> Result<(), Fail> {
    let indexes = vec![in alloc; By { is_text: false }, By { is_text: true }]?;
    let mut cached = Cached {
        indexer: Indexer::new(alloc, indexes)?,
    };
    play(alloc, &mut cached, example)
}

/// What answers by an indexer.
#[derive(Drop)]
struct Cached {
    indexer: Indexer<By>,
}

impl Answers for Cached {
    fn answer(&mut self, alloc: Global, question: &str) -> Result<String, Fail> {
        let (call, words) = first_word(question);
        let (one, other) = first_word(words);
        let indexer = &mut self.indexer;
        match call {
            "put" => {
                let mut made = objects(alloc, words)?;
                let object = made.pop().ok_or("no object")?;
                in_words(alloc, indexer.put(object))
            }
            "replace" => in_words(alloc, indexer.replace(objects(alloc, words)?)),
            "anew" => anew(alloc, indexer, one, other),
            "under" => in_words(alloc, indexer.by_index(one, other)),
            "keys" => in_words(alloc, indexer.keys(one)),
            "twice" => in_words(alloc, Indexer::new(alloc, two_of_one_name(alloc)?).err()),
            _ => answer_of_key(alloc, indexer, call, one),
        }
    }
}

fn answer_of_key(
    alloc: Global,
    indexer: &mut Indexer<By>,
    call: &str,
    name: &str,
) -> Result<String, Fail> {
    let key = ObjectKey {
        namespace: RcStr::from_str(alloc, "default")?,
        name: RcStr::from_str(alloc, name)?,
    };
    match call {
        "remove" => in_words(alloc, indexer.remove(&key)),
        "get" => in_words(alloc, indexer.get(&key)),
        _ => Err("no such call".into()),
    }
}

/// Two boxed indexes by text.
fn two_of_one_name(alloc: Global) -> Result<Vec<Box<dyn IndexBy>>, AllocError> {
    let mut indexes: Vec<Box<dyn IndexBy>> = Vec::new(alloc);
    indexes.push(Box::new(alloc, By { is_text: true })?)?;
    indexes.push(Box::new(alloc, By { is_text: true })?)?;
    Ok(indexes)
}

/// The objects, and what stands under each key that examples use.
fn seen(alloc: Global, indexer: &Indexer<By>) -> Result<String, Fail> {
    let namespace = indexer.by_index("namespace", "default");
    let (x, y) = (indexer.by_index("text", "x"), indexer.by_index("text", "y"));
    in_words(alloc, (indexer.objects(), namespace, x, y))
}

/// Puts the last of the objects, or keeps just these. Whether memory sufficed.
fn change(indexer: &mut Indexer<By>, call: &str, mut objects: Vec<Rc<Object>>) -> bool {
    if call == "replace" {
        return indexer.replace(objects).is_ok();
    }
    match objects.pop() {
        Some(object) => indexer.put(object).is_ok(),
        None => false,
    }
}

/// A change between marks; out of memory, all is seen as before, and the change is made again.
fn anew(alloc: Global, indexer: &mut Indexer<By>, call: &str, words: &str) -> Result<String, Fail> {
    let before = seen(alloc, indexer)?;
    let made = objects(alloc, words)?;
    mark(alloc)?;
    let is_done = change(indexer, call, made);
    mark(alloc)?;
    if is_done {
        return in_words(alloc, true);
    }
    expect_text(seen(alloc, indexer)?, before.as_str())?;
    in_words(alloc, change(indexer, call, objects(alloc, words)?))
}

const EXAMPLES: &str = r#"indexer an_index_follows_a_change
put a 2 x => Ok(None)
get a => Some(Object { namespace: "default", name: "a", revision: 2, labels: {}, text: "x" })
under namespace default => Some({ObjectKey { namespace: "default", name: "a" }})
under text x => Some({ObjectKey { namespace: "default", name: "a" }})
under text y => None
put b 3 x => Ok(None)
get b => Some(Object { namespace: "default", name: "b", revision: 3, labels: {}, text: "x" })
under namespace default => Some({ObjectKey { namespace: "default", name: "a" }, ObjectKey { namespace: "default", name: "b" }})
under text x => Some({ObjectKey { namespace: "default", name: "a" }, ObjectKey { namespace: "default", name: "b" }})
under text y => None
put a 4 y => Ok(Some(Object { namespace: "default", name: "a", revision: 2, labels: {}, text: "x" }))
get a => Some(Object { namespace: "default", name: "a", revision: 4, labels: {}, text: "y" })
under namespace default => Some({ObjectKey { namespace: "default", name: "a" }, ObjectKey { namespace: "default", name: "b" }})
under text x => Some({ObjectKey { namespace: "default", name: "b" }})
under text y => Some({ObjectKey { namespace: "default", name: "a" }})
under none y => None

indexer an_index_follows_removals
put a 4 y => Ok(None)
put b 3 x => Ok(None)
remove b => Some(Object { namespace: "default", name: "b", revision: 3, labels: {}, text: "x" })
remove b => None
under text x => None
replace c 5 y,d 5 z => Ok([(ObjectKey { namespace: "default", name: "a" }, Object { namespace: "default", name: "a", revision: 4, labels: {}, text: "y" })])
get a => None
under namespace default => Some({ObjectKey { namespace: "default", name: "c" }, ObjectKey { namespace: "default", name: "d" }})
under text x => None
under text y => Some({ObjectKey { namespace: "default", name: "c" }})
keys text => Ok(["y", "z"])
keys none => Ok([])

indexer two_indexes_with_one_name
twice => Some(SameName)"#;

#[test]
fn examples(rt: HostRuntime) -> Result<(), Fail> {
    for example in EXAMPLES.split("\n\n") {
        play_on_indexer(rt.alloc(), example)?;
    }
    Ok(())
}

const PUT_ANEW: &str = r#"indexer a_put_that_is_refused_memory
anew put a 2 x => true
get a => Some(Object { namespace: "default", name: "a", revision: 2, labels: {}, text: "x" })
under namespace default => Some({ObjectKey { namespace: "default", name: "a" }})
under text x => Some({ObjectKey { namespace: "default", name: "a" }})
under text y => None
anew put a 4 y => true
get a => Some(Object { namespace: "default", name: "a", revision: 4, labels: {}, text: "y" })
under namespace default => Some({ObjectKey { namespace: "default", name: "a" }})
under text x => None
under text y => Some({ObjectKey { namespace: "default", name: "a" }})
anew put b 5 x => true
get b => Some(Object { namespace: "default", name: "b", revision: 5, labels: {}, text: "x" })
under namespace default => Some({ObjectKey { namespace: "default", name: "a" }, ObjectKey { namespace: "default", name: "b" }})
under text x => Some({ObjectKey { namespace: "default", name: "b" }})
under text y => Some({ObjectKey { namespace: "default", name: "a" }})"#;

/// Whichever allocation of a put is refused, the objects and both indexes are as they were, and the put is done when
/// it is called again.
#[test]
fn a_put_that_is_refused_memory(rt: HostRuntime) -> Result<(), Fail> {
    play_on_indexer(rt.alloc(), PUT_ANEW)
}

const REPLACED: &str = r#"indexer a_replace_that_is_refused_memory
put a 4 y => Ok(None)
anew replace c 5 x,d 5 x => true
get a => None
get c => Some(Object { namespace: "default", name: "c", revision: 5, labels: {}, text: "x" })
under namespace default => Some({ObjectKey { namespace: "default", name: "c" }, ObjectKey { namespace: "default", name: "d" }})
under text x => Some({ObjectKey { namespace: "default", name: "c" }, ObjectKey { namespace: "default", name: "d" }})
under text y => None"#;

/// Whichever allocation of a replace is refused, the objects and both indexes are as they were.
#[test]
fn a_replace_that_is_refused_memory(rt: HostRuntime) -> Result<(), Fail> {
    play_on_indexer(rt.alloc(), REPLACED)
}
