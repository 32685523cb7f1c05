//! Types as they are read, and changes from a file without types; the other files, and why they are refused, are in
//! `tests/types_files` at the top, documents of discovery in `tests/documents`. Contents under a schema stand in `readings`.
//!
//! | question | answer |
//! |---|---|
//! | `find GROUP VERSION PLURAL` | where the widgets' file has the type |
//! | `kind N`, `shown N` | the kind of its type and whether the schema is lawful; how the schema is shown |
//! | `made TEXT` | how the schema of a file of one type is shown, and whether it is lawful |
//! | `owned TEXT` | the same, read for the profile `Kubernetes` |
//! | `change TEXT -> TEXT` | why the second file may not follow the first, if it may not |

use crate::given::{WIDGET_TYPES, first_schema, types_for, types_of};
use api_types::{Profile, Types, is_lawful};
use schema::Schema;
use std::alloc::Global;
use std::test::Fail;
use test_rows::{Answers, first_word, in_words, play_all};

#[derive(Drop)]
struct TypesFile {
    types: Types,
}

impl Answers for TypesFile {
    fn answer(&mut self, alloc: Global, question: &str) -> Result<String, Fail> {
        let (call, words) = first_word(question);
        match call {
            "find" => found(alloc, &self.types, words),
            "kind" => kind_of(alloc, &self.types, words),
            "shown" => shown(alloc, &self.types, words),
            "made" => made(alloc, Profile::Plain, words),
            "owned" => made(alloc, Profile::Kubernetes(0), words),
            "change" => changed(alloc, words),
            _ => Err("no such call".into()),
        }
    }
}

fn found(alloc: Global, types: &Types, words: &str) -> Result<String, Fail> {
    let (group, words) = first_word(words);
    let (version, plural) = first_word(words);
    in_words(alloc, types.find(group, version, plural))
}

fn kind_of(alloc: Global, types: &Types, place: &str) -> Result<String, Fail> {
    match types.get(place.parse::<u32>().ok().ok_or("no place")?) {
        Some(served) => in_words(alloc, (&served.kind, is_lawful(&served.schema))),
        None => Ok(String::from_str(alloc, "none")?),
    }
}

fn shown(alloc: Global, types: &Types, place: &str) -> Result<String, Fail> {
    let place = place.parse::<u32>().ok().ok_or("no place")?;
    in_words(alloc, &types.get(place).ok_or("no type")?.schema)
}

fn shown_with_law(alloc: Global, schema: &Schema) -> Result<String, Fail> {
    in_words(alloc, (schema, is_lawful(schema)))
}

fn made(alloc: Global, profile: Profile, file: &str) -> Result<String, Fail> {
    let types = types_for(alloc, profile, file)?;
    shown_with_law(alloc, first_schema(&types)?)
}

fn change_of(alloc: Global, old: &Types, new: &Types) -> Result<String, Fail> {
    in_words(alloc, old.change_to(new).err())
}

fn changed(alloc: Global, files: &str) -> Result<String, Fail> {
    let (old, new) = files.split_once(" -> ").ok_or("no other file")?;
    change_of(alloc, &types_of(alloc, old)?, &types_of(alloc, new)?)
}

const EXAMPLES: &str = r#"changes_of_files
change {"types":[]} -> {"types":[]} => None
change {"types":[]} -> {"types":[{"group":"g","version":"v","kind":"K","plural":"p","schema":{"type":"object","properties":{}}}]} => Some(NotLawful)

widget_types
find demo.example v1 widgets => Some(0)
find summary.example v1 labelsummaries => Some(1)
find demo.example v2 widgets => None
kind 2 => none
kind 0 => ("Widget", true)

widget_schemas
shown 0 => Struct([("metadata", Struct([("annotations", MapOf(Text, false)), ("labels", MapOf(Text, false))], false)), ("spec", Struct([("args", List(Text, Atomic)), ("config", MapOf(Text, false)), ("image", Text), ("ports", List(Struct([("name", Text), ("note", Text), ("port", Whole)], false), Keyed(["name"]))), ("replicas", Whole), ("tags", List(Text, Set))], false))], false)
shown 1 => Struct([("metadata", Struct([("annotations", MapOf(Text, false)), ("labels", MapOf(Text, false))], false)), ("spec", Struct([("counts", MapOf(Whole, false)), ("label", Text), ("total", Whole)], false))], false)

read_past_and_sorted
made {"types":[{"group":"demo.example","kind":"Widget","plural":"widgets","version":"v1","schema":{"type":"object","title":5,"properties":{"apiVersion":{"enum":[]},"kind":5,"metadata":{"type":"number"},"zone":{"type":"boolean","description":"where","format":"x"},"ports":{"type":"array","x-kubernetes-list-type":"map","x-kubernetes-list-map-keys":["protocol","port"],"items":{"type":"object","x-kubernetes-map-type":"granular","properties":{"port":{"type":"integer"},"protocol":{"type":"string"}}}},"at":{"type":"object","x-kubernetes-map-type":"atomic"},"by":{"type":"object","x-kubernetes-map-type":"atomic","additionalProperties":{"type":"object"}}}}}]} => (Struct([("at", Struct([], true)), ("by", MapOf(Struct([], false), true)), ("metadata", Struct([("annotations", MapOf(Text, false)), ("labels", MapOf(Text, false))], false)), ("ports", List(Struct([("port", Whole), ("protocol", Text)], false), Keyed(["port", "protocol"]))), ("zone", Truth)], false), true)

metadata_of_controllers
owned {"types":[{"group":"demo.example","kind":"Widget","plural":"widgets","version":"v1","schema":{"type":"object","properties":{"metadata":{"type":"number"}}}}]} => (Struct([("metadata", Struct([("annotations", MapOf(Text, false)), ("finalizers", List(Text, Set)), ("generateName", Text), ("labels", MapOf(Text, false)), ("ownerReferences", List(Struct([("apiVersion", Text), ("blockOwnerDeletion", Truth), ("controller", Truth), ("kind", Text), ("name", Text), ("uid", Text)], false), Keyed(["uid"])))], false))], false), true)"#;

#[test]
fn examples(rt: HostRuntime) -> Result<(), Fail> {
    let mut file = TypesFile {
        types: types_of(rt.alloc(), WIDGET_TYPES)?,
    };
    play_all(rt.alloc(), &mut file, EXAMPLES)
}

/// Places under the schema of the widgets, which `contents` answers.
pub const PLACES: &str = r#"widget_places
place f:spec => None
place f:spec f:image => Some(Leaf)
place f:spec f:nope => None
place f:spec f:args => Some(Leaf)
place f:spec f:args v:"x" => None
place f:spec f:config f:any => Some(Leaf)
place f:spec f:tags v:"a" => Some(SetItem)
place f:spec f:tags v:1 => None
place f:spec f:tags k:{"name":"a"} => None
place f:spec f:ports k:{"name":"web"} => Some(MapItem)
place f:spec f:ports k:{"name":"web"} f:port => Some(Leaf)
place f:spec f:ports k:{"name":"web"} f:name => None
place f:spec f:ports k:{"port":80} => None"#;
