//! JSON Pointers: the examples of RFC 6901, and texts that are none.
//!
//! A row is `TEXT in VALUE => FOUND`: the compact text of what lies at the pointer, `-` where nothing does, `no pointer` where
//! the text isn't one. `whole` stands for the document of the RFC.

use json_patch::Pointer;
use serde_json::Value;
use std::alloc::Global;
use std::test::Fail;
use test_rows::{Answers, play_all};

/// The document of RFC 6901, section 5.
const WHOLE: &str =
    r#"{"foo":["bar","baz"],"":0,"a/b":1,"c%d":2,"e^f":3,"g|h":4,"i\\j":5,"k\"l":6," ":7,"m~n":8}"#;

fn found(alloc: Global, text: &str, value: &str) -> Result<String, Fail> {
    let Some(pointer) = Pointer::read(alloc, text)? else {
        return Ok(String::from_str(alloc, "no pointer")?);
    };
    let value = Value::from_str(alloc, if value == "whole" { WHOLE } else { value })?;
    match pointer.find(&value) {
        Some(found) => Ok(found.to_string(alloc)?),
        None => Ok(String::from_str(alloc, "-")?),
    }
}

#[derive(Drop)]
struct Pointers;

impl Answers for Pointers {
    fn answer(&mut self, alloc: Global, question: &str) -> Result<String, Fail> {
        let (text, value) = question.split_once(" in ").ok_or("no value")?;
        found(alloc, text, value)
    }
}

const EXAMPLES: &str = r#"section_5
 in [1] => [1]
/foo in whole => ["bar","baz"]
/foo/0 in whole => "bar"
/ in whole => 0
/a~1b in whole => 1
/c%d in whole => 2
/e^f in whole => 3
/g|h in whole => 4
/i\j in whole => 5
/k"l in whole => 6
/  in whole => 7
/m~0n in whole => 8

escapes
/~01 in {"~1":1,"/":2} => 1
/~1 in {"~1":1,"/":2} => 2
/~10 in {"/0":1} => 1
/~0~1~0 in {"~/~":1} => 1
/~ in {"~":1} => no pointer
/a~2 in {"a~2":1} => no pointer
/a~/b in {"a~":{"b":1}} => no pointer
/~~0 in {"~~":1} => no pointer

texts
foo in whole => no pointer
a/foo in whole => no pointer
#/foo in whole => no pointer
// in {"":{"":1}} => 1
/foo/ in whole => -
/ü in {"ü":1} => 1

indexes
/0 in [5,6] => 5
/1 in [5,6] => 6
/2 in [5,6] => -
/- in [5,6] => -
/00 in [5,6] => -
/01 in [5,6] => -
/+1 in [5,6] => -
/-1 in [5,6] => -
/1e0 in [5,6] => -
/1.0 in [5,6] => -
/18446744073709551616 in [5,6] => -
/0 in {"0":7} => 7
/01 in {"01":7} => 7
/0/1 in [[5,6]] => 6
/a in 1 => -
/a/b in {"a":null} => -"#;

#[test]
fn examples(rt: HostRuntime) -> Result<(), Fail> {
    play_all(rt.alloc(), &mut Pointers, EXAMPLES)
}
