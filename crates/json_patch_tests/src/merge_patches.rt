//! Merge patches: the examples of RFC 7386, and what its definition says at the edges.
//!
//! A row is `TARGET with PATCH => RESULT`, the result as its compact text, whose members are in the order of their names.

use json_patch::merge_patch;
use serde_json::Value;
use std::alloc::Global;
use std::test::Fail;
use test_rows::{Answers, expect_text, mark, play_all};

fn merged(alloc: Global, patch: &str, target: &str) -> Result<String, Fail> {
    let patch = Value::from_str(alloc, patch)?;
    let target = Value::from_str(alloc, target)?;
    Ok(merge_patch(alloc, &patch, target)?.to_string(alloc)?)
}

#[derive(Drop)]
struct MergePatches;

impl Answers for MergePatches {
    fn answer(&mut self, alloc: Global, question: &str) -> Result<String, Fail> {
        let (target, patch) = question.split_once(" with ").ok_or("no patch")?;
        merged(alloc, patch, target)
    }
}

const EXAMPLES: &str = r#"appendix_a
{"a":"b"} with {"a":"c"} => {"a":"c"}
{"a":"b"} with {"b":"c"} => {"a":"b","b":"c"}
{"a":"b"} with {"a":null} => {}
{"a":"b","b":"c"} with {"a":null} => {"b":"c"}
{"a":["b"]} with {"a":"c"} => {"a":"c"}
{"a":"c"} with {"a":["b"]} => {"a":["b"]}
{"a":{"b":"c"}} with {"a":{"b":"d","c":null}} => {"a":{"b":"d"}}
{"a":[{"b":"c"}]} with {"a":[1]} => {"a":[1]}
["a","b"] with ["c","d"] => ["c","d"]
{"a":"b"} with ["c"] => ["c"]
{"a":"foo"} with null => null
{"a":"foo"} with "bar" => "bar"
{"e":null} with {"a":1} => {"a":1,"e":null}
[1,2] with {"a":"b","c":null} => {"a":"b"}
{} with {"a":{"bb":{"ccc":null}}} => {"a":{"bb":{}}}

section_3
{"title":"Goodbye!","author":{"givenName":"John","familyName":"Doe"},"tags":["example","sample"],"content":"This will be unchanged"} with {"title":"Hello!","phoneNumber":"+01-123-456-7890","author":{"familyName":null},"tags":["example"]} => {"author":{"givenName":"John"},"content":"This will be unchanged","phoneNumber":"+01-123-456-7890","tags":["example"],"title":"Hello!"}

section_1
{"a":"b","c":{"d":"e","f":"g"}} with {"a":"z","c":{"f":null}} => {"a":"z","c":{"d":"e"}}

nulls_in_lists_and_in_what_is_new
{} with {"a":[null,{"b":null}]} => {"a":[null,{"b":null}]}
{} with {"a":{"b":null,"c":{"d":null,"e":1}}} => {"a":{"c":{"e":1}}}
{"a":{"b":null}} with {"a":{"c":1}} => {"a":{"b":null,"c":1}}
{} with {"a":null} => {}
null with {"a":null} => {}

what_is_no_object
1 with {} => {}
{"a":1} with {} => {"a":1}
{"a":{"b":1}} with {"a":{}} => {"a":{"b":1}}
{"a":[1]} with {"a":{}} => {"a":{}}
{"a":1} with true => true
[{"a":1}] with [{"a":null}] => [{"a":null}]

of_equal_names_the_last_counts
{"a":1} with {"a":null,"a":2} => {"a":2}
{"a":1} with {"a":2,"a":null} => {}"#;

#[test]
fn examples(rt: HostRuntime) -> Result<(), Fail> {
    play_all(rt.alloc(), &mut MergePatches, EXAMPLES)
}

const TARGET: &str = r#"{"a":{"b":"c","d":[1]},"e":1,"f":"g"}"#;

const PATCH: &str = r#"{"a":{"b":null,"h":{"i":[2],"j":null}},"e":null,"k":{"l":"m"}}"#;

const MERGED: &str = r#"{"a":{"d":[1],"h":{"i":[2]}},"f":"g","k":{"l":"m"}}"#;

/// Whichever allocation of a merge is refused, it says so, the patch is as it was, and the same merge is done after.
#[test]
fn a_merge_that_is_refused_memory(rt: HostRuntime) -> Result<(), Fail> {
    let alloc = rt.alloc();
    let patch = Value::from_str(alloc, PATCH)?;
    let target = Value::from_str(alloc, TARGET)?;
    mark(alloc)?;
    let first = merge_patch(alloc, &patch, target);
    mark(alloc)?;
    let merged = match first {
        Ok(merged) => merged,
        Err(_) => merge_patch(alloc, &patch, Value::from_str(alloc, TARGET)?)?,
    };
    expect_text(patch.to_string(alloc)?, PATCH)?;
    expect_text(merged.to_string(alloc)?, MERGED)
}
