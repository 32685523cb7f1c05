//! Texts of elements, key fields, paths as conflicts show them, and the order of paths. Sets of paths are tested in
//! `sets`.
//!
//! | question | answer |
//! |---|---|
//! | `show ELEMENT / ELEMENT ..` | how conflicts show the path |
//! | `read TEXT` | the text of the element that is read, or why none is |
//! | `keys NAME ..` | the key fields of these names, the first a number, or why they are none |
//! | `order ELEMENT .. / ELEMENT ..` | how two paths compare, and whether they are equal |
//! | `last ELEMENT ..` | the text of the path's last element |

use crate::given::{path, push};
use fieldpath::{Elem, Keys, Path, Scalar};
use std::alloc::{AllocError, Global};
use std::test::Fail;
use test_rows::{Answers, first_word, in_words, play_all};

#[derive(Drop)]
struct Elements;

impl Answers for Elements {
    fn answer(&mut self, alloc: Global, question: &str) -> Result<String, Fail> {
        let (call, words) = first_word(question);
        match call {
            "show" => shown(alloc, words),
            "read" => read(alloc, words),
            "keys" => keys_of(alloc, words),
            "order" => compared(alloc, words),
            "last" => last_of(alloc, words),
            _ => Err("no such call".into()),
        }
    }
}

fn shown(alloc: Global, elements: &str) -> Result<String, Fail> {
    let mut path = Path::new(alloc);
    for element in elements.split(" / ") {
        push(alloc, &mut path, element)?;
    }
    Ok(path.shown(alloc)?)
}

fn read(alloc: Global, text: &str) -> Result<String, Fail> {
    match Elem::read(alloc, text) {
        Ok(elem) => Ok(elem.text(alloc)?),
        Err(fault) => in_words(alloc, fault),
    }
}

/// Puts a key field, the first with a number.
fn push_key(
    alloc: Global,
    fields: &mut Vec<(String, Scalar)>,
    name: &str,
) -> Result<(), AllocError> {
    let value = match fields.is_empty() {
        true => Scalar::Int(1),
        false => Scalar::Bool(true),
    };
    fields.push((String::from_str(alloc, name)?, value))?;
    Ok(())
}

fn keys_of(alloc: Global, names: &str) -> Result<String, Fail> {
    let mut fields = Vec::new(alloc);
    for name in names.split_whitespace() {
        push_key(alloc, &mut fields, name)?;
    }
    match Keys::new(fields) {
        Ok(keys) => {
            let fields = keys.fields();
            Ok(format!(in alloc; "{fields:?}")?)
        }
        Err(fault) => in_words(alloc, fault),
    }
}

fn compared(alloc: Global, words: &str) -> Result<String, Fail> {
    let (one, other) = words.split_once(" / ").ok_or("no other path")?;
    let one = path(alloc, one)?;
    let other = path(alloc, other)?.try_copy(alloc)?;
    in_words(alloc, (one.cmp(&other), one == other))
}

fn last_of(alloc: Global, elements: &str) -> Result<String, Fail> {
    let path = path(alloc, elements)?;
    let last = path.texts().last().ok_or("no element")?;
    Ok(String::from_str(alloc, last.as_str())?)
}

const EXAMPLES: &str = r#"conflict_paths_as_shown
show f:spec / f:replicas => .spec.replicas
show f:tags / v:"a" => .tags[="a"]
show k:{"name":"web"} / f:port => [name="web"].port
show f:a b / k:{"a":1,"b":"x"} => .a b[a=1,b="x"]

texts_read_and_printed
read f:replicas => f:replicas
read k:{"name":"web"} => k:{"name":"web"}
read v:"a" => v:"a"
read v:10 => v:10
read v:true => v:true

texts_of_no_element
read  => NoPrefix
read x:a => NoPrefix
read . => NoPrefix
read k: => BadJson
read v:a => BadJson
read v:1e999 => BadJson
read k:[] => NotCanonical
read k:{} => NotCanonical
read v:{} => NotCanonical
read v:null => NotCanonical
read v:1.5 => NotCanonical
read v:9223372036854775808 => NotCanonical
read v: 1 => NotCanonical
read k:{"b":1,"a":2} => NotCanonical
read k:{"a":1,"a":1} => NotCanonical

keys_ascend
keys a b => [("a", Int(1)), ("b", Bool(true))]
keys b a => NotAscending
keys a a => NotAscending
keys => NotAscending

a_front_comes_before_what_extends_it
order f:spec / f:spec v:10 => (Less, false)
order f:spec v:10 / f:spec v:9 => (Less, false)
order f:spec v:10 / f:spec => (Greater, false)
order f:spec v:10 / f:spec v:10 => (Equal, true)
last f:spec => f:spec
last f:spec v:10 => v:10"#;

#[test]
fn examples(rt: HostRuntime) -> Result<(), Fail> {
    play_all(rt.alloc(), &mut Elements, EXAMPLES)
}
