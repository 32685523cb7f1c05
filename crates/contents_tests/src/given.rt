//! What several tests are given: texts, paths, and a types file of widgets. Questions about contents are answered in
//! `contents`, those about paths in `elements` and `sets`.

use api_types::{Profile, Types};
use fieldpath::{ElemText, Path};
use fieldset::FieldSet;
use schema::Schema;
use serde_json::Value;
use std::alloc::Global;
use std::test::Fail;
use typed::Tree;

/// Two types: one with each kind of list, and one of counts.
pub const WIDGET_TYPES: &str = r#"{"types":[
 {"group":"demo.example","version":"v1","kind":"Widget","plural":"widgets",
  "schema":{"type":"object","properties":{"spec":{"type":"object","properties":{
   "args":{"type":"array","items":{"type":"string"}},
   "config":{"type":"object","additionalProperties":{"type":"string"}},
   "image":{"type":"string"},
   "ports":{"type":"array","x-kubernetes-list-type":"map",
    "x-kubernetes-list-map-keys":["name"],
    "items":{"type":"object","properties":{"name":{"type":"string"},
     "note":{"type":"string"},"port":{"type":"integer"}}}},
   "replicas":{"type":"integer"},
   "tags":{"type":"array","x-kubernetes-list-type":"set","items":{"type":"string"}}
  }}}}},
 {"group":"summary.example","version":"v1","kind":"LabelSummary","plural":"labelsummaries",
  "schema":{"type":"object","properties":{"spec":{"type":"object","properties":{
   "counts":{"type":"object","additionalProperties":{"type":"integer"}},
   "label":{"type":"string"},"total":{"type":"integer"}}}}}}]}"#;

/// A type with a status.
pub const READY_TYPES: &str = r#"{"types":[
 {"group":"demo.example","version":"v1","kind":"Widget","plural":"widgets",
  "schema":{"type":"object","properties":{
   "spec":{"type":"object","properties":{"replicas":{"type":"integer"}}},
   "status":{"type":"object","properties":{"ready":{"type":"integer"}}}}}}]}"#;

/// The types of a types file that is read for a profile.
pub fn types_for(alloc: Global, profile: Profile, text: &str) -> Result<Types, Fail> {
    Ok(Types::read(alloc, profile, &Value::from_str(alloc, text)?)?)
}

/// The types of a types file.
pub fn types_of(alloc: Global, text: &str) -> Result<Types, Fail> {
    types_for(alloc, Profile::Plain, text)
}

/// The schema of the first type.
pub fn first_schema(types: &Types) -> Result<&Schema, Fail> {
    Ok(&types.get(0).ok_or("no type")?.schema)
}

/// The path whose elements stand between blanks; the empty text is the empty path.
pub fn path(alloc: Global, elements: &str) -> Result<Path, Fail> {
    let mut path = Path::new(alloc);
    for element in elements.split_whitespace() {
        push(alloc, &mut path, element)?;
    }
    Ok(path)
}

/// Puts the element of this text behind a path.
pub fn push(alloc: Global, path: &mut Path, element: &str) -> Result<(), Fail> {
    let text = ElemText::read(alloc, element).ok().ok_or("no element")?;
    Ok(path.push(alloc, &text)?)
}

/// The paths as conflicts show them, behind a word.
pub fn shown_paths(alloc: Global, set: &FieldSet) -> Result<String, Fail> {
    let mut text = String::from_str(alloc, "paths")?;
    for path in set.paths(alloc)? {
        text.push_str(" ")?;
        text.push_str(path.shown(alloc)?.as_str())?;
    }
    Ok(text)
}

pub fn tree(alloc: Global, schema: &Schema, text: &str) -> Result<Tree, Fail> {
    Ok(Tree::read(schema, alloc, &Value::from_str(alloc, text)?)?)
}

/// What is printed of a content, if anything is.
pub fn printed(alloc: Global, schema: &Schema, tree: &Tree) -> Result<String, Fail> {
    match tree.to_value(alloc, schema)? {
        Some(value) => Ok(value.to_string(alloc)?),
        None => Ok(String::from_str(alloc, "nothing")?),
    }
}
