//! Writes that run out of memory, and the order of managers. With ample memory writes are in `tests/owners` at the top;
//! contents without owners are tested in `readings`, objects' texts in `object_texts`.
//!
//! Each example begins without an object.
//!
//! | question | answer |
//! |---|---|
//! | `NAME SPEC` | after an apply, by force with `!` behind the name, or after an update with `=`: whether what stands is as before, and its text at version 4; or the conflicts |
//! | `NAME SPEC STATUS` | the same of a body that has a `status` too; `/status` behind the name (before `!` and `=`) writes by it, `/field` by the main resource where the status is a field as others, `/none` by `status` there |
//! | `anew NAME SPEC` | the same between marks, or once more where it was refused memory; what stands stays |
//! | `managers NAME/OPERATION NAME/OPERATION` | how two managers compare, and whether they are the same; `/status` behind one that wrote by `status` |

use crate::contents::w1;
use crate::given::{READY_TYPES, WIDGET_TYPES, first_schema, tree, types_of};
use api_types::Types;
use ownership::{
    ApplyFault, Conflict, Manager, Operation, Owned, Stamp, Subresource, apply, is_same, update,
};
use schema::Schema;
use std::alloc::{AllocError, Global};
use std::mem;
use std::test::Fail;
use test_rows::{Answers, first_word, in_words, mark, play};
use typed::Tree;

/// An object of the first type, as it stands with its owners.
#[derive(Drop)]
struct Existing {
    types: Types,
    owned: Owned,
}

impl Answers for Existing {
    fn answer(&mut self, alloc: Global, question: &str) -> Result<String, Fail> {
        let schema = first_schema(&self.types)?;
        let (call, words) = first_word(question);
        match call {
            "anew" => answer_anew(alloc, schema, &self.owned, words),
            "managers" => compared(alloc, words),
            _ => step(alloc, schema, &mut self.owned, call, words),
        }
    }
}

/// Plays an example from no object of the first type. What stands then is not dropped.
fn play_one(alloc: Global, types: Types, example: &str) -> Result<(), Fail> {
    let owned = Owned::empty(alloc);
    let mut live = Existing { types, owned };
    let played = play(alloc, &mut live, example);
    mem::forget(live);
    played
}

/// Plays examples with blank lines between them, each from no object of the first type.
fn play_each(alloc: Global, types: &str, examples: &str) -> Result<(), Fail> {
    for example in examples.split("\n\n") {
        play_one(alloc, types_of(alloc, types)?, example)?;
    }
    Ok(())
}

/// A body with this `spec`, and this `status` if there is a second word.
fn body_text(alloc: Global, words: &str) -> Result<String, AllocError> {
    let (spec, status) = first_word(words);
    if status.is_empty() {
        return format!(in alloc; "{{\"spec\":{spec}}}");
    }
    format!(in alloc; "{{\"spec\":{spec},\"status\":{status}}}")
}

/// The content of a body.
fn body(alloc: Global, schema: &Schema, words: &str) -> Result<Tree, Fail> {
    let text = body_text(alloc, words)?;
    tree(alloc, schema, text.as_str())
}

/// What stands and who owns it.
fn shown(alloc: Global, schema: &Schema, owned: &Owned) -> Result<String, AllocError> {
    owned.to_object(alloc, schema, w1(), Stamp::plain(4))
}

fn push_conflict(alloc: Global, text: &mut String, conflict: &Conflict) -> Result<(), AllocError> {
    let path = conflict.path.shown(alloc)?;
    let manager = &conflict.manager;
    text.push_str(format!(in alloc; " {path} {manager:?}")?.as_str())
}

/// Each conflict's path and who owns it.
fn listed(alloc: Global, conflicts: &[Conflict]) -> Result<String, Fail> {
    let mut text = String::from_str(alloc, "conflicts:")?;
    for conflict in conflicts {
        push_conflict(alloc, &mut text, conflict)?;
    }
    Ok(text)
}

/// Whether what stands then is as what stood, and its text; or the conflicts.
fn shown_beside(
    alloc: Global,
    schema: &Schema,
    live: &Owned,
    answer: &Result<Owned, ApplyFault>,
) -> Result<String, Fail> {
    match answer {
        Ok(owned) => {
            let text = shown(alloc, schema, owned)?;
            Ok(format!(in alloc; "{} {text}", is_same(owned, live))?)
        }
        Err(ApplyFault::Conflicts(conflicts)) => listed(alloc, conflicts),
        Err(ApplyFault::Memory) => Err("no memory".into()),
    }
}

/// The name of who writes, whether the status is apart, and what by.
fn writer(words: &str) -> (&str, bool, Subresource) {
    match words.split_once('/') {
        Some((name, "status")) => (name, true, Subresource::Status),
        Some((name, "field")) => (name, false, Subresource::Main),
        Some((name, "none")) => (name, false, Subresource::Status),
        _ => (words, true, Subresource::Main),
    }
}

/// Applies a content, by force with `!` behind the name, or updates to it with `=`.
fn write(alloc: Global, live: &Owned, words: &str, content: Tree) -> Result<Owned, ApplyFault> {
    if let Some(words) = words.strip_suffix("=") {
        let (name, is_apart, subresource) = writer(words);
        return Ok(update(alloc, live, name, is_apart, subresource, content)?);
    }
    let by = words.strip_suffix("!").unwrap_or(words);
    let (name, is_apart, subresource) = writer(by);
    let force = by != words;
    apply(alloc, live, name, is_apart, subresource, content, force)
}

/// Writes and tells the answer; what is done becomes what stands.
fn step(
    alloc: Global,
    schema: &Schema,
    live: &mut Owned,
    name: &str,
    words: &str,
) -> Result<String, Fail> {
    let answer = write(alloc, live, name, body(alloc, schema, words)?);
    let text = shown_beside(alloc, schema, live, &answer)?;
    match answer {
        Ok(owned) => *live = owned,
        Err(fault) => drop(fault),
    }
    Ok(text)
}

/// The manager of `NAME/OPERATION`, or of `NAME/OPERATION/status`.
fn manager(alloc: Global, words: &str) -> Result<Manager, Fail> {
    let (name, operation) = words.split_once('/').ok_or("no operation")?;
    match operation {
        "Apply" => Ok(Manager::new(alloc, name, Operation::Apply)?),
        "Update" => Ok(Manager::new(alloc, name, Operation::Update)?),
        "Apply/status" => Ok(Manager::by(alloc, name, Operation::Apply, Subresource::Status)?),
        _ => Err("no such operation".into()),
    }
}

fn compared(alloc: Global, words: &str) -> Result<String, Fail> {
    let (one, other) = first_word(words);
    let one = manager(alloc, one)?;
    let other = manager(alloc, other)?.try_copy()?;
    in_words(alloc, (one.compare(&other), one.is_same(&other)))
}

/// A write between marks.
fn marked(
    alloc: Global,
    live: &Owned,
    name: &str,
    content: Tree,
) -> Result<Result<Owned, ApplyFault>, AllocError> {
    mark(alloc)?;
    let answer = write(alloc, live, name, content);
    mark(alloc)?;
    Ok(answer)
}

/// What a write answers, or the same write again where it was refused memory.
fn answer_or_again(
    alloc: Global,
    live: &Owned,
    name: &str,
    content: Tree,
) -> Result<Result<Owned, ApplyFault>, AllocError> {
    match marked(alloc, live, name, content.try_copy(alloc)?)? {
        Err(ApplyFault::Memory) => Ok(write(alloc, live, name, content)),
        answer => Ok(answer),
    }
}

/// The test fails unless what stands is as before.
fn expect_kept(alloc: Global, schema: &Schema, live: &Owned, before: String) -> Result<(), Fail> {
    if shown(alloc, schema, live)?.as_str() != before.as_str() {
        return Err("what stood was changed".into());
    }
    Ok(())
}

/// What a write answers; out of memory, it leaves what stands as it was, and is answered when it is called again.
fn answer_anew(alloc: Global, schema: &Schema, live: &Owned, line: &str) -> Result<String, Fail> {
    let (name, words) = first_word(line);
    let before = shown(alloc, schema, live)?;
    let answer = answer_or_again(alloc, live, name, body(alloc, schema, words)?)?;
    expect_kept(alloc, schema, live, before)?;
    shown_beside(alloc, schema, live, &answer)
}

const MANAGERS: &str = r#"managers_in_order
managers alice/Update bob/Apply => (Less, false)
managers bob/Apply bob/Update => (Less, false)
managers bob/Apply bob/Apply => (Equal, true)
managers bob/Apply bob/Apply/status => (Less, false)
managers bob/Apply/status bob/Update => (Less, false)
managers bob/Apply/status bob/Apply/status => (Equal, true)"#;

#[test]
fn managers(rt: HostRuntime) -> Result<(), Fail> {
    play_each(rt.alloc(), WIDGET_TYPES, MANAGERS)
}

const ANEW: &str = r#"an apply with conflicts, one by force, one that drops
alice {"image":"a","ports":[{"name":"web","port":80}]} => false {"apiVersion":"demo.example/v1","kind":"Widget","metadata":{"managedFields":[{"apiVersion":"demo.example/v1","fieldsType":"FieldsV1","fieldsV1":{"f:spec":{"f:image":{},"f:ports":{"k:{\"name\":\"web\"}":{".":{},"f:name":{},"f:port":{}}}}},"manager":"alice","operation":"Apply"}],"name":"w1","namespace":"default","resourceVersion":"4"},"spec":{"image":"a","ports":[{"name":"web","port":80}]}}
bob {"image":"a","tags":["x"]} => false {"apiVersion":"demo.example/v1","kind":"Widget","metadata":{"managedFields":[{"apiVersion":"demo.example/v1","fieldsType":"FieldsV1","fieldsV1":{"f:spec":{"f:image":{},"f:ports":{"k:{\"name\":\"web\"}":{".":{},"f:name":{},"f:port":{}}}}},"manager":"alice","operation":"Apply"},{"apiVersion":"demo.example/v1","fieldsType":"FieldsV1","fieldsV1":{"f:spec":{"f:image":{},"f:tags":{"v:\"x\"":{}}}},"manager":"bob","operation":"Apply"}],"name":"w1","namespace":"default","resourceVersion":"4"},"spec":{"image":"a","ports":[{"name":"web","port":80}],"tags":["x"]}}
anew alice {"image":"b","tags":["y"]} => conflicts: .spec.image Manager { name: "bob", operation: Apply, subresource: Main }
anew alice! {"image":"b","tags":["y"]} => false {"apiVersion":"demo.example/v1","kind":"Widget","metadata":{"managedFields":[{"apiVersion":"demo.example/v1","fieldsType":"FieldsV1","fieldsV1":{"f:spec":{"f:image":{},"f:tags":{"v:\"y\"":{}}}},"manager":"alice","operation":"Apply"},{"apiVersion":"demo.example/v1","fieldsType":"FieldsV1","fieldsV1":{"f:spec":{"f:tags":{"v:\"x\"":{}}}},"manager":"bob","operation":"Apply"}],"name":"w1","namespace":"default","resourceVersion":"4"},"spec":{"image":"b","tags":["x","y"]}}
anew alice {} => false {"apiVersion":"demo.example/v1","kind":"Widget","metadata":{"managedFields":[{"apiVersion":"demo.example/v1","fieldsType":"FieldsV1","fieldsV1":{"f:spec":{"f:image":{},"f:tags":{"v:\"x\"":{}}}},"manager":"bob","operation":"Apply"}],"name":"w1","namespace":"default","resourceVersion":"4"},"spec":{"image":"a","tags":["x"]}}

one that creates
carol= {} => true {"apiVersion":"demo.example/v1","kind":"Widget","metadata":{"name":"w1","namespace":"default","resourceVersion":"4"}}
anew alice {"image":"a"} => false {"apiVersion":"demo.example/v1","kind":"Widget","metadata":{"managedFields":[{"apiVersion":"demo.example/v1","fieldsType":"FieldsV1","fieldsV1":{"f:spec":{"f:image":{}}},"manager":"alice","operation":"Apply"}],"name":"w1","namespace":"default","resourceVersion":"4"},"spec":{"image":"a"}}"#;

/// Whichever allocation of an apply is refused, what stands stays, and the apply is answered when it is called again.
#[test]
fn an_apply_that_is_refused_memory(rt: HostRuntime) -> Result<(), Fail> {
    play_each(rt.alloc(), WIDGET_TYPES, ANEW)
}

const STATUS_ANEW: &str = r#"an apply and an update of each side
alice {"replicas":3} => false {"apiVersion":"demo.example/v1","kind":"Widget","metadata":{"managedFields":[{"apiVersion":"demo.example/v1","fieldsType":"FieldsV1","fieldsV1":{"f:spec":{"f:replicas":{}}},"manager":"alice","operation":"Apply"}],"name":"w1","namespace":"default","resourceVersion":"4"},"spec":{"replicas":3}}
anew ctl/status {} {"ready":2} => false {"apiVersion":"demo.example/v1","kind":"Widget","metadata":{"managedFields":[{"apiVersion":"demo.example/v1","fieldsType":"FieldsV1","fieldsV1":{"f:spec":{"f:replicas":{}}},"manager":"alice","operation":"Apply"},{"apiVersion":"demo.example/v1","fieldsType":"FieldsV1","fieldsV1":{"f:status":{"f:ready":{}}},"manager":"ctl","operation":"Apply","subresource":"status"}],"name":"w1","namespace":"default","resourceVersion":"4"},"spec":{"replicas":3},"status":{"ready":2}}
anew ctl/status= {} {"ready":2} => false {"apiVersion":"demo.example/v1","kind":"Widget","metadata":{"managedFields":[{"apiVersion":"demo.example/v1","fieldsType":"FieldsV1","fieldsV1":{"f:spec":{"f:replicas":{}}},"manager":"alice","operation":"Apply"},{"apiVersion":"demo.example/v1","fieldsType":"FieldsV1","fieldsV1":{"f:status":{"f:ready":{}}},"manager":"ctl","operation":"Update","subresource":"status"}],"name":"w1","namespace":"default","resourceVersion":"4"},"spec":{"replicas":3},"status":{"ready":2}}
ctl/status {} {"ready":2} => false {"apiVersion":"demo.example/v1","kind":"Widget","metadata":{"managedFields":[{"apiVersion":"demo.example/v1","fieldsType":"FieldsV1","fieldsV1":{"f:spec":{"f:replicas":{}}},"manager":"alice","operation":"Apply"},{"apiVersion":"demo.example/v1","fieldsType":"FieldsV1","fieldsV1":{"f:status":{"f:ready":{}}},"manager":"ctl","operation":"Apply","subresource":"status"}],"name":"w1","namespace":"default","resourceVersion":"4"},"spec":{"replicas":3},"status":{"ready":2}}
anew alice {"replicas":4} => false {"apiVersion":"demo.example/v1","kind":"Widget","metadata":{"managedFields":[{"apiVersion":"demo.example/v1","fieldsType":"FieldsV1","fieldsV1":{"f:spec":{"f:replicas":{}}},"manager":"alice","operation":"Apply"},{"apiVersion":"demo.example/v1","fieldsType":"FieldsV1","fieldsV1":{"f:status":{"f:ready":{}}},"manager":"ctl","operation":"Apply","subresource":"status"}],"name":"w1","namespace":"default","resourceVersion":"4"},"spec":{"replicas":4},"status":{"ready":2}}
anew alice= {"replicas":4} => false {"apiVersion":"demo.example/v1","kind":"Widget","metadata":{"managedFields":[{"apiVersion":"demo.example/v1","fieldsType":"FieldsV1","fieldsV1":{"f:spec":{"f:replicas":{}}},"manager":"alice","operation":"Update"},{"apiVersion":"demo.example/v1","fieldsType":"FieldsV1","fieldsV1":{"f:status":{"f:ready":{}}},"manager":"ctl","operation":"Apply","subresource":"status"}],"name":"w1","namespace":"default","resourceVersion":"4"},"spec":{"replicas":4},"status":{"ready":2}}"#;

/// The same of applies and updates of each side.
#[test]
fn a_write_by_status_that_is_refused_memory(rt: HostRuntime) -> Result<(), Fail> {
    play_each(rt.alloc(), READY_TYPES, STATUS_ANEW)
}

const FIELD_AS_OTHERS: &str =
    r#"an apply owns the status, an update leaves it out, and the subresource writes nothing
alice/field {"replicas":3} {"ready":1} => false {"apiVersion":"demo.example/v1","kind":"Widget","metadata":{"managedFields":[{"apiVersion":"demo.example/v1","fieldsType":"FieldsV1","fieldsV1":{"f:spec":{"f:replicas":{}},"f:status":{"f:ready":{}}},"manager":"alice","operation":"Apply"}],"name":"w1","namespace":"default","resourceVersion":"4"},"spec":{"replicas":3},"status":{"ready":1}}
bob/field {"replicas":3} {"ready":2} => conflicts: .status.ready Manager { name: "alice", operation: Apply, subresource: Main }
anew ctl/none {} {"ready":2} => true {"apiVersion":"demo.example/v1","kind":"Widget","metadata":{"managedFields":[{"apiVersion":"demo.example/v1","fieldsType":"FieldsV1","fieldsV1":{"f:spec":{"f:replicas":{}},"f:status":{"f:ready":{}}},"manager":"alice","operation":"Apply"}],"name":"w1","namespace":"default","resourceVersion":"4"},"spec":{"replicas":3},"status":{"ready":1}}
anew ctl/none= {} {"ready":2} => true {"apiVersion":"demo.example/v1","kind":"Widget","metadata":{"managedFields":[{"apiVersion":"demo.example/v1","fieldsType":"FieldsV1","fieldsV1":{"f:spec":{"f:replicas":{}},"f:status":{"f:ready":{}}},"manager":"alice","operation":"Apply"}],"name":"w1","namespace":"default","resourceVersion":"4"},"spec":{"replicas":3},"status":{"ready":1}}
anew bob/field= {"replicas":4} => false {"apiVersion":"demo.example/v1","kind":"Widget","metadata":{"managedFields":[{"apiVersion":"demo.example/v1","fieldsType":"FieldsV1","fieldsV1":{"f:spec":{"f:replicas":{}}},"manager":"bob","operation":"Update"}],"name":"w1","namespace":"default","resourceVersion":"4"},"spec":{"replicas":4}}"#;

/// A status that isn't apart is a field as others.
#[test]
fn a_status_as_a_field(rt: HostRuntime) -> Result<(), Fail> {
    play_each(rt.alloc(), READY_TYPES, FIELD_AS_OTHERS)
}
