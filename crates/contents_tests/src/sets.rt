//! Sets of paths and the maps that they are kept in: each public call with ample memory. Single elements and paths are
//! tested in `elements`, the reading of FieldsV1 in `fields_v1`.
//!
//! Paths stand between commas, their elements between blanks; in a map each has a value behind `=`.
//!
//! | question | answer |
//! |---|---|
//! | `union SET and SET`, `minus ..`, `common ..`, `clear-of ..` | the paths of what is made of two sets |
//! | `find PATH in SET` | whether the set has the path, has one at or below it, and has none |
//! | `under MAP and MAP`, `changed-under ..`, `without ..`, `changed ..`, `copy ..` | the paths of what is made of two maps |
//! | `holds PATH=VALUE in MAP` | whether the value stands at the path |
//! | `children ELEMENT=VALUE,..` | of each value that is put below an element, whether it was put; then the children, in order |
//! | `below ELEMENT in MAP` | what stands at the element itself |
//! | `simplest` | whether a new set and a new map are empty, a leaf has the empty path, and a marked map has a mark there |

use crate::given::{path, shown_paths};
use fieldpath::{ElemText, Path};
use fieldset::FieldSet;
use pathmap::{PathMap, PathValue, put_under};
use std::alloc::{AllocError, Global};
use std::test::Fail;
use test_rows::{Answers, first_word, in_words, play_all};

#[derive(Drop)]
struct Sets;

impl Answers for Sets {
    fn answer(&mut self, alloc: Global, question: &str) -> Result<String, Fail> {
        let (call, words) = first_word(question);
        match call {
            "union" | "minus" | "common" | "clear-of" => of_two_sets(alloc, call, words),
            "find" => found(alloc, words),
            "holds" => is_held(alloc, words),
            "children" => children(alloc, words),
            "below" => below(alloc, words),
            "simplest" => simplest(alloc),
            _ => of_two_maps(alloc, call, words),
        }
    }
}

fn set(alloc: Global, paths: &str) -> Result<FieldSet, Fail> {
    let mut set = FieldSet::new(alloc);
    for elements in paths.split(',') {
        set.insert(alloc, &path(alloc, elements)?)?;
    }
    Ok(set)
}

fn made(
    alloc: Global,
    one: FieldSet,
    call: &str,
    other: &FieldSet,
) -> Result<FieldSet, AllocError> {
    match call {
        "union" => one.union(alloc, other),
        "minus" => one.minus(alloc, other),
        "common" => one.common(alloc, other),
        _ => one.clear_of(alloc, other),
    }
}

fn of_two_sets(alloc: Global, call: &str, words: &str) -> Result<String, Fail> {
    let (one, other) = words.split_once(" and ").ok_or("no other set")?;
    let one = set(alloc, one)?;
    let other = set(alloc, other)?;
    shown_paths(alloc, &made(alloc, one, call, &other)?)
}

/// A copy of the set of the marks at these paths.
fn marked(alloc: Global, paths: &str) -> Result<FieldSet, Fail> {
    let set = set(alloc, paths)?;
    Ok(FieldSet::of(set.map().marks(alloc)?).try_copy(alloc)?)
}

fn found(alloc: Global, words: &str) -> Result<String, Fail> {
    let (elements, paths) = words.split_once(" in ").ok_or("no set")?;
    let set = marked(alloc, paths)?;
    let path = path(alloc, elements)?;
    in_words(
        alloc,
        (
            set.contains(&path),
            set.has_at_or_below(&path),
            set.is_empty(),
        ),
    )
}

/// A number, or else a text.
fn value_of(alloc: Global, text: &str) -> Result<PathValue, AllocError> {
    match text.parse::<i64>() {
        Ok(number) => Ok(PathValue::Whole(number)),
        Err(_) => Ok(PathValue::Text(String::from_str(alloc, text)?)),
    }
}

fn put(alloc: Global, map: &mut PathMap, value: &str) -> Result<(), Fail> {
    let (elements, value) = value.split_once('=').ok_or("no value")?;
    let path = path(alloc, elements)?;
    Ok(map.insert(alloc, &path, value_of(alloc, value)?)?)
}

fn map(alloc: Global, values: &str) -> Result<PathMap, Fail> {
    let mut map = PathMap::empty(alloc);
    for value in values.split(',') {
        put(alloc, &mut map, value)?;
    }
    Ok(map)
}

fn joined(
    alloc: Global,
    one: &PathMap,
    call: &str,
    other: &PathMap,
) -> Result<PathMap, AllocError> {
    let copy = one.try_copy(alloc)?;
    match call {
        "under" => put_under(other, alloc, copy),
        "changed-under" => put_under(other, alloc, copy)?.changed(alloc, other),
        "without" => Ok(copy.without(other)),
        "changed" => copy.changed(alloc, other),
        _ => Ok(copy),
    }
}

fn of_two_maps(alloc: Global, call: &str, words: &str) -> Result<String, Fail> {
    let (one, other) = words.split_once(" and ").ok_or("no other map")?;
    let one = map(alloc, one)?;
    let other = map(alloc, other)?;
    shown_paths(alloc, &FieldSet::of(joined(alloc, &one, call, &other)?))
}

/// Whether a copy of what stands at the path is the value.
fn is_same_at(map: &PathMap, path: &Path, value: &PathValue) -> Result<bool, Fail> {
    let held = map.get(path).ok_or("nothing is held")?;
    Ok(held.try_copy()?.same(value))
}

fn holds(alloc: Global, map: &PathMap, words: &str) -> Result<String, Fail> {
    let (elements, value) = words.split_once('=').ok_or("no value")?;
    let path = path(alloc, elements)?;
    in_words(alloc, is_same_at(map, &path, &value_of(alloc, value)?)?)
}

fn is_held(alloc: Global, words: &str) -> Result<String, Fail> {
    let (value, values) = words.split_once(" in ").ok_or("no map")?;
    holds(alloc, &map(alloc, values)?, value)
}

fn element(alloc: Global, text: &str) -> Result<ElemText, Fail> {
    Ok(ElemText::read(alloc, text).ok().ok_or("no element")?)
}

/// Puts the value of `ELEMENT=VALUE` below the element, and answers whether it was put.
fn put_child(alloc: Global, map: &mut PathMap, words: &str) -> Result<bool, Fail> {
    let (name, value) = words.split_once('=').ok_or("no value")?;
    let name = element(alloc, name)?;
    let value = value_of(alloc, value)?;
    Ok(map.insert_child(name, PathMap::leaf(alloc, value))?)
}

fn put_children(
    alloc: Global,
    text: &mut String,
    map: &mut PathMap,
    values: &str,
) -> Result<(), Fail> {
    for words in values.split(',') {
        let is_put = put_child(alloc, map, words)?;
        text.push_str(if is_put { "put " } else { "taken " })?;
    }
    Ok(())
}

fn push_children(text: &mut String, map: &PathMap) -> Result<(), AllocError> {
    text.push_str("children")?;
    for (name, _) in map.children() {
        text.push(' ')?;
        text.push_str(name.as_str())?;
    }
    Ok(())
}

fn children(alloc: Global, values: &str) -> Result<String, Fail> {
    let mut shown = String::new(alloc);
    let mut map = PathMap::empty(alloc);
    put_children(alloc, &mut shown, &mut map, values)?;
    push_children(&mut shown, &map)?;
    Ok(shown)
}

fn held_below(alloc: Global, map: &PathMap, name: &str) -> Result<String, Fail> {
    let child = map.child(&element(alloc, name)?).ok_or("no child")?;
    in_words(alloc, child.held().ok_or("nothing is held")?)
}

fn below(alloc: Global, words: &str) -> Result<String, Fail> {
    let (name, values) = words.split_once(" in ").ok_or("no map")?;
    held_below(alloc, &map(alloc, values)?, name)
}

fn simplest(alloc: Global) -> Result<String, Fail> {
    let leaf = PathMap::leaf(alloc, PathValue::Whole(1));
    let has_empty_path = leaf.get(&Path::new(alloc)).is_some();
    let mut map = PathMap::empty(alloc);
    let is_bare = map.is_bare();
    map.mark();
    let is_empty = FieldSet::new(alloc).is_empty();
    in_words(alloc, (is_empty, is_bare, has_empty_path, map.held()))
}

const EXAMPLES: &str = r#"set_operations
union f:a,f:ports k:{"name":"web"},f:ports k:{"name":"web"} f:port and f:a,f:ports k:{"name":"web"} f:note => paths .a .ports[name="web"] .ports[name="web"].note .ports[name="web"].port
minus f:a,f:ports k:{"name":"web"},f:ports k:{"name":"web"} f:port and f:a,f:ports k:{"name":"web"} f:note => paths .ports[name="web"] .ports[name="web"].port
common f:a,f:ports k:{"name":"web"},f:ports k:{"name":"web"} f:port and f:a,f:ports k:{"name":"web"} f:note => paths .a
clear-of f:a,f:ports k:{"name":"web"},f:ports k:{"name":"web"} f:port and f:a,f:ports k:{"name":"web"} f:note => paths .ports[name="web"].port

paths_are_found
find f:a f:b in f:a f:b => (true, true, false)
find f:a in f:a f:b => (false, true, false)
find f:a f:b in f:a => (false, false, false)

maps_of_paths
under f:a=x,f:b=1,f:c f:d=2 and f:a=y,f:b=1,f:c=3 => paths .a .b .c .c.d
changed-under f:a=x,f:b=1,f:c f:d=2 and f:a=y,f:b=1,f:c=3 => paths .a .c.d
without f:a=x,f:b=1,f:c f:d=2 and f:a=y,f:b=1,f:c=3 => paths
changed f:a=x,f:b=1,f:c f:d=2 and f:a=y,f:b=1,f:c=3 => paths .a .c.d
copy f:a=x,f:b=1,f:c f:d=2 and f:a=y,f:b=1,f:c=3 => paths .a .b .c.d
holds f:a=1 in f:a=1,f:b=x => true
holds f:b=1 in f:a=1,f:b=x => false
children f:b=1,f:a=2,f:b=3,f:c=4 => put put taken put children f:a f:b f:c
below f:b in f:a=1,f:b=2,f:b f:c=3 => Whole(2)

simplest_sets_and_maps
simplest => (true, true, true, Some(Mark))"#;

#[test]
fn examples(rt: HostRuntime) -> Result<(), Fail> {
    play_all(rt.alloc(), &mut Sets, EXAMPLES)
}
