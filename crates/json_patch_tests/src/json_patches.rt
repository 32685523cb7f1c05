//! JSON patches: the examples of RFC 6902, the public JSON Patch test suite, and what the definitions say at the edges.
//!
//! A row is `TARGET with PATCH => RESULT`: the result as its compact text, whose members are in the order of their names, why
//! the patch isn't read, or the number of the operation that fails.

use json_patch::{apply, read_patch};
use serde_json::Value;
use std::alloc::{AllocError, Global};
use std::test::Fail;
use test_rows::{Answers, expect_text, mark, play_all};

fn patched(alloc: Global, patch: &str, target: &str) -> Result<String, Fail> {
    let patch = Value::from_str(alloc, patch)?;
    let target = Value::from_str(alloc, target)?;
    let operations = match read_patch(alloc, patch)? {
        Ok(operations) => operations,
        Err(why) => return Ok(format!(in alloc; "{why}")?),
    };
    match apply(alloc, &operations, target)? {
        Ok(whole) => Ok(whole.to_string(alloc)?),
        Err(number) => Ok(format!(in alloc; "operation {number} fails")?),
    }
}

#[derive(Drop)]
struct JsonPatches;

impl Answers for JsonPatches {
    fn answer(&mut self, alloc: Global, question: &str) -> Result<String, Fail> {
        let (target, patch) = question.split_once(" with ").ok_or("no patch")?;
        patched(alloc, patch, target)
    }
}

/// RFC 6902, appendix A, in its order.
const EXAMPLES: &str = r#"appendix_a
{"foo":"bar"} with [{"op":"add","path":"/baz","value":"qux"}] => {"baz":"qux","foo":"bar"}
{"foo":["bar","baz"]} with [{"op":"add","path":"/foo/1","value":"qux"}] => {"foo":["bar","qux","baz"]}
{"baz":"qux","foo":"bar"} with [{"op":"remove","path":"/baz"}] => {"foo":"bar"}
{"foo":["bar","qux","baz"]} with [{"op":"remove","path":"/foo/1"}] => {"foo":["bar","baz"]}
{"baz":"qux","foo":"bar"} with [{"op":"replace","path":"/baz","value":"boo"}] => {"baz":"boo","foo":"bar"}
{"foo":{"bar":"baz","waldo":"fred"},"qux":{"corge":"grault"}} with [{"op":"move","from":"/foo/waldo","path":"/qux/thud"}] => {"foo":{"bar":"baz"},"qux":{"corge":"grault","thud":"fred"}}
{"foo":["all","grass","cows","eat"]} with [{"op":"move","from":"/foo/1","path":"/foo/3"}] => {"foo":["all","cows","eat","grass"]}
{"baz":"qux","foo":["a",2,"c"]} with [{"op":"test","path":"/baz","value":"qux"},{"op":"test","path":"/foo/1","value":2}] => {"baz":"qux","foo":["a",2,"c"]}
{"baz":"qux"} with [{"op":"test","path":"/baz","value":"bar"}] => operation 0 fails
{"foo":"bar"} with [{"op":"add","path":"/child","value":{"grandchild":{}}}] => {"child":{"grandchild":{}},"foo":"bar"}
{"foo":"bar"} with [{"op":"add","path":"/baz","value":"qux","xyz":123}] => {"baz":"qux","foo":"bar"}
{"foo":"bar"} with [{"op":"add","path":"/baz/bat","value":"qux"}] => operation 0 fails
{"foo":"bar"} with [{"op":"add","path":"/baz","value":"qux","op":"remove"}] => operation 0 fails
{"/":9,"~1":10} with [{"op":"test","path":"/~01","value":10}] => {"/":9,"~1":10}
{"/":9,"~1":10} with [{"op":"test","path":"/~01","value":"10"}] => operation 0 fails
{"foo":["bar"]} with [{"op":"add","path":"/foo/-","value":["abc","def"]}] => {"foo":["bar",["abc","def"]]}"#;

#[test]
fn examples(rt: HostRuntime) -> Result<(), Fail> {
    play_all(rt.alloc(), &mut JsonPatches, EXAMPLES)
}

/// The cases of the JSON Patch test suite, as `tests.js` of Debian's `python-json-patch` 1.32 has them, in its order, without
/// the one of an `op` that comes twice, which it leaves out too.
const SUITE: &str = r#"suite
{} with [] => {}
{"foo":1} with [] => {"foo":1}
{"foo":1,"bar":2} with [] => {"bar":2,"foo":1}
[{"foo":1,"bar":2}] with [] => [{"bar":2,"foo":1}]
{"foo":{"foo":1,"bar":2}} with [] => {"foo":{"bar":2,"foo":1}}
{"foo":null} with [{"op":"add","path":"/foo","value":1}] => {"foo":1}
[] with [{"op":"add","path":"/0","value":"foo"}] => ["foo"]
["foo"] with [] => ["foo"]
{} with [{"op":"add","path":"/foo","value":"1"}] => {"foo":"1"}
{} with [{"op":"add","path":"/foo","value":1}] => {"foo":1}
"foo" with [{"op":"replace","path":"","value":"bar"}] => "bar"
{} with [{"op":"add","path":"/","value":1}] => {"":1}
{"foo":{}} with [{"op":"add","path":"/foo/","value":1}] => {"foo":{"":1}}
{"foo":1} with [{"op":"add","path":"/bar","value":[1,2]}] => {"bar":[1,2],"foo":1}
{"foo":1,"baz":[{"qux":"hello"}]} with [{"op":"add","path":"/baz/0/foo","value":"world"}] => {"baz":[{"foo":"world","qux":"hello"}],"foo":1}
{"bar":[1,2]} with [{"op":"add","path":"/bar/8","value":"5"}] => operation 0 fails
{"bar":[1,2]} with [{"op":"add","path":"/bar/-1","value":"5"}] => operation 0 fails
{"foo":1} with [{"op":"add","path":"/bar","value":true}] => {"bar":true,"foo":1}
{"foo":1} with [{"op":"add","path":"/bar","value":false}] => {"bar":false,"foo":1}
{"foo":1} with [{"op":"add","path":"/bar","value":null}] => {"bar":null,"foo":1}
{"foo":1} with [{"op":"add","path":"/0","value":"bar"}] => {"0":"bar","foo":1}
["foo"] with [{"op":"add","path":"/1","value":"bar"}] => ["foo","bar"]
["foo","sil"] with [{"op":"add","path":"/1","value":"bar"}] => ["foo","bar","sil"]
["foo","sil"] with [{"op":"add","path":"/0","value":"bar"}] => ["bar","foo","sil"]
["foo","sil"] with [{"op":"add","path":"/2","value":"bar"}] => ["foo","sil","bar"]
["foo","sil"] with [{"op":"add","path":"/3","value":"bar"}] => operation 0 fails
{"1e0":"foo"} with [{"op":"test","path":"/1e0","value":"foo"}] => {"1e0":"foo"}
["foo","bar"] with [{"op":"test","path":"/1e0","value":"bar"}] => operation 0 fails
["foo","sil"] with [{"op":"add","path":"/bar","value":42}] => operation 0 fails
["foo","sil"] with [{"op":"add","path":"/1","value":["bar","baz"]}] => ["foo",["bar","baz"],"sil"]
{"foo":1,"bar":[1,2,3,4]} with [{"op":"remove","path":"/bar"}] => {"foo":1}
{"foo":1,"baz":[{"qux":"hello"}]} with [{"op":"remove","path":"/baz/0/qux"}] => {"baz":[{}],"foo":1}
{"foo":1,"baz":[{"qux":"hello"}]} with [{"op":"replace","path":"/foo","value":[1,2,3,4]}] => {"baz":[{"qux":"hello"}],"foo":[1,2,3,4]}
{"foo":[1,2,3,4],"baz":[{"qux":"hello"}]} with [{"op":"replace","path":"/baz/0/qux","value":"world"}] => {"baz":[{"qux":"world"}],"foo":[1,2,3,4]}
["foo"] with [{"op":"replace","path":"/0","value":"bar"}] => ["bar"]
[""] with [{"op":"replace","path":"/0","value":0}] => [0]
[""] with [{"op":"replace","path":"/0","value":true}] => [true]
[""] with [{"op":"replace","path":"/0","value":false}] => [false]
[""] with [{"op":"replace","path":"/0","value":null}] => [null]
["foo","sil"] with [{"op":"replace","path":"/1","value":["bar","baz"]}] => ["foo",["bar","baz"]]
{"foo":"bar"} with [{"op":"replace","path":"","value":{"baz":"qux"}}] => {"baz":"qux"}
{"foo":1} with [{"op":"test","path":"/foo","value":1,"spurious":1}] => {"foo":1}
{"foo":null} with [{"op":"test","path":"/foo","value":null}] => {"foo":null}
{"foo":null} with [{"op":"replace","path":"/foo","value":"truthy"}] => {"foo":"truthy"}
{"foo":null} with [{"op":"move","from":"/foo","path":"/bar"}] => {"bar":null}
{"foo":null} with [{"op":"copy","from":"/foo","path":"/bar"}] => {"bar":null,"foo":null}
{"foo":null} with [{"op":"remove","path":"/foo"}] => {}
{"foo":"bar"} with [{"op":"replace","path":"/foo","value":null}] => {"foo":null}
{"foo":{"foo":1,"bar":2}} with [{"op":"test","path":"/foo","value":{"bar":2,"foo":1}}] => {"foo":{"bar":2,"foo":1}}
{"foo":[{"foo":1,"bar":2}]} with [{"op":"test","path":"/foo","value":[{"bar":2,"foo":1}]}] => {"foo":[{"bar":2,"foo":1}]}
{"foo":{"bar":[1,2,5,4]}} with [{"op":"test","path":"/foo","value":{"bar":[1,2,5,4]}}] => {"foo":{"bar":[1,2,5,4]}}
{"foo":{"bar":[1,2,5,4]}} with [{"op":"test","path":"/foo","value":[1,2]}] => operation 0 fails
{"foo":1} with [{"op":"test","path":"","value":{"foo":1}}] => {"foo":1}
{"":1} with [{"op":"test","path":"/","value":1}] => {"":1}
{"foo":["bar","baz"],"":0,"a/b":1,"c%d":2,"e^f":3,"g|h":4,"i\\j":5,"k\"l":6," ":7,"m~n":8} with [{"op":"test","path":"/foo","value":["bar","baz"]},{"op":"test","path":"/foo/0","value":"bar"},{"op":"test","path":"/","value":0},{"op":"test","path":"/a~1b","value":1},{"op":"test","path":"/c%d","value":2},{"op":"test","path":"/e^f","value":3},{"op":"test","path":"/g|h","value":4},{"op":"test","path":"/i\\j","value":5},{"op":"test","path":"/k\"l","value":6},{"op":"test","path":"/ ","value":7},{"op":"test","path":"/m~0n","value":8}] => {"":0," ":7,"a/b":1,"c%d":2,"e^f":3,"foo":["bar","baz"],"g|h":4,"i\\j":5,"k\"l":6,"m~n":8}
{"foo":1} with [{"op":"move","from":"/foo","path":"/foo"}] => {"foo":1}
{"foo":1,"baz":[{"qux":"hello"}]} with [{"op":"move","from":"/foo","path":"/bar"}] => {"bar":1,"baz":[{"qux":"hello"}]}
{"baz":[{"qux":"hello"}],"bar":1} with [{"op":"move","from":"/baz/0/qux","path":"/baz/1"}] => {"bar":1,"baz":[{},"hello"]}
{"baz":[{"qux":"hello"}],"bar":1} with [{"op":"copy","from":"/baz/0","path":"/boo"}] => {"bar":1,"baz":[{"qux":"hello"}],"boo":{"qux":"hello"}}
{"foo":"bar"} with [{"op":"add","path":"","value":{"baz":"qux"}}] => {"baz":"qux"}
[1,2] with [{"op":"add","path":"/-","value":{"foo":["bar","baz"]}}] => [1,2,{"foo":["bar","baz"]}]
[1,2,[3,[4,5]]] with [{"op":"add","path":"/2/1/-","value":{"foo":["bar","baz"]}}] => [1,2,[3,[4,5,{"foo":["bar","baz"]}]]]
{"foo":1,"baz":[{"qux":"hello"}]} with [{"op":"remove","path":"/baz/1e0/qux"}] => operation 0 fails
[1,2,3,4] with [{"op":"remove","path":"/0"}] => [2,3,4]
[1,2,3,4] with [{"op":"remove","path":"/1"},{"op":"remove","path":"/2"}] => [1,3]
[1,2,3,4] with [{"op":"remove","path":"/1e0"}] => operation 0 fails
[""] with [{"op":"replace","path":"/1e0","value":false}] => operation 0 fails
{"baz":[1,2,3],"bar":1} with [{"op":"copy","from":"/baz/1e0","path":"/boo"}] => operation 0 fails
{"foo":1,"baz":[1,2,3,4]} with [{"op":"move","from":"/baz/1e0","path":"/foo"}] => operation 0 fails
["foo","sil"] with [{"op":"add","path":"/1e0","value":"bar"}] => operation 0 fails
[1] with [{"op":"add","path":"/-"}] => bad patch
[1] with [{"op":"replace","path":"/0"}] => bad patch
[null] with [{"op":"test","path":"/0"}] => bad patch
[false] with [{"op":"test","path":"/0"}] => bad patch
[1] with [{"op":"copy","path":"/-"}] => bad patch
{"foo":1} with [{"op":"move","path":""}] => bad patch
{"foo":1} with [{"op":"spam","path":"/foo","value":1}] => bad patch
["foo","bar"] with [{"op":"test","path":"/00","value":"foo"}] => operation 0 fails
["foo","bar"] with [{"op":"test","path":"/01","value":"bar"}] => operation 0 fails"#;

#[test]
fn test_suite(rt: HostRuntime) -> Result<(), Fail> {
    play_all(rt.alloc(), &mut JsonPatches, SUITE)
}

const EDGES: &str = r#"numbers_are_equal_by_value
{"a":1} with [{"op":"test","path":"/a","value":1}] => {"a":1}
{"a":1} with [{"op":"test","path":"/a","value":2}] => operation 0 fails
{"a":-1} with [{"op":"test","path":"/a","value":1}] => operation 0 fails
{"a":0} with [{"op":"test","path":"/a","value":0.0}] => {"a":0}
{"a":0} with [{"op":"test","path":"/a","value":-0.0}] => {"a":0}
{"a":1} with [{"op":"test","path":"/a","value":1.0}] => {"a":1}
{"a":10} with [{"op":"test","path":"/a","value":1e1}] => {"a":10}
{"a":1} with [{"op":"test","path":"/a","value":1.5}] => operation 0 fails
{"a":-3} with [{"op":"test","path":"/a","value":-3.0}] => {"a":-3}
{"a":-3} with [{"op":"test","path":"/a","value":3.0}] => operation 0 fails
{"a":9007199254740993} with [{"op":"test","path":"/a","value":9007199254740992.0}] => operation 0 fails
{"a":9007199254740992} with [{"op":"test","path":"/a","value":9007199254740992.0}] => {"a":9007199254740992}
{"a":9007199254740993} with [{"op":"test","path":"/a","value":9007199254740993}] => {"a":9007199254740993}
{"a":18446744073709551615} with [{"op":"test","path":"/a","value":18446744073709551616.0}] => operation 0 fails
{"a":18446744073709551615} with [{"op":"test","path":"/a","value":1.8446744073709552e19}] => operation 0 fails
{"a":9223372036854775808} with [{"op":"test","path":"/a","value":9223372036854775808.0}] => {"a":9223372036854775808}
{"a":-9223372036854775808} with [{"op":"test","path":"/a","value":-9223372036854775808.0}] => {"a":-9223372036854775808}
{"a":-9223372036854775808} with [{"op":"test","path":"/a","value":9223372036854775808.0}] => operation 0 fails
{"a":-9007199254740993} with [{"op":"test","path":"/a","value":-9007199254740992.0}] => operation 0 fails
{"a":1} with [{"op":"test","path":"/a","value":"1"}] => operation 0 fails
{"a":1} with [{"op":"test","path":"/a","value":true}] => operation 0 fails
{"a":0} with [{"op":"test","path":"/a","value":false}] => operation 0 fails
{"a":0} with [{"op":"test","path":"/a","value":null}] => operation 0 fails

tests_of_other_values
{"a":null} with [{"op":"test","path":"/a","value":null}] => {"a":null}
{"a":null} with [{"op":"test","path":"/a","value":0}] => operation 0 fails
{"a":true} with [{"op":"test","path":"/a","value":true}] => {"a":true}
{"a":true} with [{"op":"test","path":"/a","value":false}] => operation 0 fails
{"a":"a"} with [{"op":"test","path":"/a","value":"a"}] => {"a":"a"}
{"a":"a"} with [{"op":"test","path":"/a","value":"b"}] => operation 0 fails
{"a":"a"} with [{"op":"test","path":"/a","value":"A"}] => operation 0 fails
{"a":[1,2]} with [{"op":"test","path":"/a","value":[1,2]}] => {"a":[1,2]}
{"a":[1,2]} with [{"op":"test","path":"/a","value":[2,1]}] => operation 0 fails
{"a":[1]} with [{"op":"test","path":"/a","value":[1,1]}] => operation 0 fails
{"a":[1,1]} with [{"op":"test","path":"/a","value":[1]}] => operation 0 fails
{"a":[]} with [{"op":"test","path":"/a","value":[]}] => {"a":[]}
{"a":[]} with [{"op":"test","path":"/a","value":{}}] => operation 0 fails
{"a":{"b":1,"c":2}} with [{"op":"test","path":"/a","value":{"c":2,"b":1}}] => {"a":{"b":1,"c":2}}
{"a":{"b":1}} with [{"op":"test","path":"/a","value":{"b":1,"c":2}}] => operation 0 fails
{"a":{"b":1,"c":2}} with [{"op":"test","path":"/a","value":{"b":1}}] => operation 0 fails
{"a":{"b":1}} with [{"op":"test","path":"/a","value":{"c":1}}] => operation 0 fails
{"a":{"b":null}} with [{"op":"test","path":"/a","value":{}}] => operation 0 fails
{"a":{"b":[{"c":1}]}} with [{"op":"test","path":"/a","value":{"b":[{"c":1.0}]}}] => {"a":{"b":[{"c":1}]}}
{"a":{"b":1,"c":2}} with [{"op":"test","path":"/a","value":{"b":1,"b":2,"c":2}}] => operation 0 fails

forms
{} with {} => bad patch
{} with null => bad patch
{} with "[]" => bad patch
{} with [[]] => bad patch
{} with [null] => bad patch
{} with [{}] => bad patch
{} with [{"op":"add","value":1}] => bad patch
{} with [{"op":"add","path":"a","value":1}] => bad patch
{} with [{"op":"add","path":"/~2","value":1}] => bad patch
{} with [{"op":"add","path":1,"value":1}] => bad patch
{} with [{"op":1,"path":"/a","value":1}] => bad patch
{} with [{"op":"Add","path":"/a","value":1}] => bad patch
{} with [{"op":"","path":"/a","value":1}] => bad patch
{} with [{"op":"move","from":"a","path":"/b"}] => bad patch
{} with [{"op":"copy","from":null,"path":"/b"}] => bad patch
{} with [{"op":"add","path":"/a","value":1},{"op":"add","path":"/b"}] => bad patch
{} with [{"op":"remove","path":"/a"},{"op":"add","path":"/b"}] => bad patch
{} with [{"op":"add","path":"/a","value":null}] => {"a":null}
{} with [{"op":"remove","path":"/a","path":"/b","value":1}] => operation 0 fails

the_whole
{"a":1} with [{"op":"add","path":"","value":2}] => 2
{"a":1} with [{"op":"replace","path":"","value":[]}] => []
{"a":1} with [{"op":"remove","path":""}] => operation 0 fails
{"a":1} with [{"op":"test","path":"","value":{"a":1}}] => {"a":1}
{"a":1} with [{"op":"move","from":"","path":""}] => operation 0 fails
{"a":1} with [{"op":"move","from":"","path":"/a"}] => operation 0 fails
{"a":1} with [{"op":"move","from":"/a","path":""}] => 1
{"a":1} with [{"op":"copy","from":"","path":""}] => {"a":1}
{"a":1} with [{"op":"copy","from":"","path":"/b"}] => {"a":1,"b":{"a":1}}
1 with [{"op":"add","path":"/a","value":2}] => operation 0 fails
1 with [{"op":"add","path":"","value":2}] => 2

moves
{"a":{"b":1}} with [{"op":"move","from":"/a","path":"/a/b"}] => operation 0 fails
{"a":{"b":1}} with [{"op":"move","from":"/a","path":"/a/b/c"}] => operation 0 fails
{"a":{"b":1}} with [{"op":"move","from":"/a","path":"/a"}] => {"a":{"b":1}}
{"a":{"b":1}} with [{"op":"move","from":"/a/b","path":"/a"}] => {"a":1}
{"a":1,"ab":{}} with [{"op":"move","from":"/a","path":"/ab/c"}] => {"ab":{"c":1}}
[1,2,3] with [{"op":"move","from":"/0","path":"/2"}] => [2,3,1]
[1,2,3] with [{"op":"move","from":"/0","path":"/3"}] => operation 0 fails
[1,2,3] with [{"op":"move","from":"/2","path":"/0"}] => [3,1,2]
[1,2,3] with [{"op":"move","from":"/0","path":"/-"}] => [2,3,1]
[1,2,3] with [{"op":"move","from":"/-","path":"/0"}] => operation 0 fails
[[1],[2]] with [{"op":"move","from":"/0","path":"/0/0"}] => operation 0 fails
[[1],[2]] with [{"op":"move","from":"/1","path":"/0/0"}] => [[[2],1]]
{"a":1} with [{"op":"move","from":"/b","path":"/a"}] => operation 0 fails
{"a":1} with [{"op":"move","from":"/a","path":"/b/c"}] => operation 0 fails
{"a":[1,{"b":2}],"c":3} with [{"op":"move","from":"/a/1/b","path":"/a/0"}] => {"a":[2,1,{}],"c":3}

copies
{"a":{"b":1}} with [{"op":"copy","from":"/a","path":"/a/b"}] => {"a":{"b":{"b":1}}}
[1,2] with [{"op":"copy","from":"/0","path":"/1"}] => [1,1,2]
[1,2] with [{"op":"copy","from":"/0","path":"/-"}] => [1,2,1]
[1,2] with [{"op":"copy","from":"/2","path":"/-"}] => operation 0 fails
[1,2] with [{"op":"copy","from":"/0","path":"/4"}] => operation 0 fails
{"a":1} with [{"op":"copy","from":"/a","path":"/a"}] => {"a":1}
{"a":1,"b":{"c":2}} with [{"op":"copy","from":"/b","path":"/a"},{"op":"replace","path":"/b/c","value":3}] => {"a":{"c":2},"b":{"c":3}}

all_or_none
{"a":1} with [{"op":"replace","path":"/a","value":2},{"op":"remove","path":"/b"}] => operation 1 fails
{"a":1} with [{"op":"remove","path":"/b"},{"op":"replace","path":"/a","value":2}] => operation 0 fails
{"a":1} with [{"op":"add","path":"/b","value":2},{"op":"add","path":"/b/c","value":3},{"op":"remove","path":"/a"}] => operation 1 fails
{"a":1} with [{"op":"add","path":"/b","value":{}},{"op":"add","path":"/b/c","value":3},{"op":"remove","path":"/a"}] => {"b":{"c":3}}
{"a":1} with [{"op":"test","path":"/a","value":1},{"op":"test","path":"/a","value":2}] => operation 1 fails
{"a":1} with [] => {"a":1}

indexes
[1] with [{"op":"add","path":"/1","value":2}] => [1,2]
[1] with [{"op":"add","path":"/2","value":2}] => operation 0 fails
[1] with [{"op":"add","path":"/01","value":2}] => operation 0 fails
[1] with [{"op":"add","path":"/+1","value":2}] => operation 0 fails
[] with [{"op":"add","path":"/-","value":2}] => [2]
[1] with [{"op":"replace","path":"/1","value":2}] => operation 0 fails
[1] with [{"op":"replace","path":"/-","value":2}] => operation 0 fails
[1] with [{"op":"remove","path":"/-"}] => operation 0 fails
[1] with [{"op":"remove","path":"/1"}] => operation 0 fails
[[1]] with [{"op":"add","path":"/-/0","value":2}] => operation 0 fails
{"-":[1]} with [{"op":"add","path":"/-/0","value":2}] => {"-":[2,1]}
{"0":1} with [{"op":"replace","path":"/0","value":2}] => {"0":2}
[1] with [{"op":"add","path":"/18446744073709551616","value":2}] => operation 0 fails
[1] with [{"op":"add","path":"/18446744073709551615","value":2}] => operation 0 fails"#;

#[test]
fn edges(rt: HostRuntime) -> Result<(), Fail> {
    play_all(rt.alloc(), &mut JsonPatches, EDGES)
}

/// A list of this operation, so many times.
fn repeated(alloc: Global, operation: &str, count: usize) -> Result<String, Fail> {
    let mut text = String::from_str(alloc, "[")?;
    for number in 0..count {
        if number > 0 {
            text.push_str(",")?;
        }
        text.push_str(operation)?;
    }
    text.push_str("]")?;
    Ok(text)
}

/// Holds of an empty object.
const TEST: &str = r#"{"op":"test","path":"","value":{}}"#;

#[test]
fn at_most_10000_operations(rt: HostRuntime) -> Result<(), Fail> {
    let alloc = rt.alloc();
    let patch = repeated(alloc, TEST, 10_000)?;
    expect_text(patched(alloc, patch.as_str(), "{}")?, "{}")?;
    let patch = repeated(alloc, TEST, 10_001)?;
    expect_text(
        patched(alloc, patch.as_str(), "{}")?,
        "patch over 10000 operations",
    )
}

/// Makes an array more than twice as large.
const COPY: &str = r#"{"op":"copy","from":"","path":"/-"}"#;

/// Copies of 1,048,554 bytes are done; the next is one too many.
#[test]
fn copies_are_bounded(rt: HostRuntime) -> Result<(), Fail> {
    let alloc = rt.alloc();
    let patch = repeated(alloc, COPY, 18)?;
    let whole = patched(alloc, patch.as_str(), "[1]")?;
    if whole.len() != 1_048_575 {
        return Err(Fail::new(whole));
    }
    let patch = repeated(alloc, COPY, 19)?;
    expect_text(patched(alloc, patch.as_str(), "[1]")?, "operation 18 fails")
}

const TARGET: &str = r#"{"a":{"b":"c","d":[1]},"e":1,"f":"g"}"#;

const PATCH: &str =
    r#"[{"op":"add","path":"/h","value":{"i":[2]}},{"op":"copy","from":"/h","path":"/a/d/-"},{"op":"move","from":"/f","path":"/a/b"},{"op":"replace","path":"/a/d/1/i/0","value":"k"},{"op":"remove","path":"/e"},{"op":"test","path":"/h/i","value":[2]}]"#;

const PATCHED: &str = r#"{"a":{"b":"g","d":[1,{"i":["k"]}]},"h":{"i":[2]}}"#;

/// The target after a patch, where it is read and all of it is done.
fn after(alloc: Global, patch: Value, target: Value) -> Result<Option<Value>, AllocError> {
    let Ok(operations) = read_patch(alloc, patch)? else {
        return Ok(None);
    };
    match apply(alloc, &operations, target)? {
        Ok(whole) => Ok(Some(whole)),
        Err(_) => Ok(None),
    }
}

/// Whichever allocation of a patch is refused, it says so, and the same patch is done after.
#[test]
fn a_patch_that_is_refused_memory(rt: HostRuntime) -> Result<(), Fail> {
    let alloc = rt.alloc();
    let patch = Value::from_str(alloc, PATCH)?;
    let target = Value::from_str(alloc, TARGET)?;
    mark(alloc)?;
    let first = after(alloc, patch, target);
    mark(alloc)?;
    let whole = match first {
        Ok(whole) => whole,
        Err(_) => {
            let patch = Value::from_str(alloc, PATCH)?;
            after(alloc, patch, Value::from_str(alloc, TARGET)?)?
        }
    };
    let whole = whole.ok_or("the patch isn't done")?;
    expect_text(whole.to_string(alloc)?, PATCHED)
}
