//! What a run is asked for.

use crate::indexes::ByLabel;
use crate::links::Noting;
use api_types::{Profile, Types};
use indexer::{ByNamespace, IndexBy};
use serde_json::Value;
use std::alloc::{AllocError, Global};
use std::test::Fail;
use test_rows::{first_word, number};
use world::Settings;

/// Widgets, with each kind of list, and label summaries.
const TYPES: &str =
    r#"{"types":[{"group":"demo.example","version":"v1","kind":"Widget","plural":"widgets","schema":{"type":"object","properties":{"spec":{"type":"object","properties":{"args":{"type":"array","items":{"type":"string"}},"config":{"type":"object","additionalProperties":{"type":"string"}},"image":{"type":"string"},"ports":{"type":"array","x-kubernetes-list-type":"map","x-kubernetes-list-map-keys":["name"],"items":{"type":"object","properties":{"name":{"type":"string"},"note":{"type":"string"},"port":{"type":"integer"}}}},"replicas":{"type":"integer"},"tags":{"type":"array","x-kubernetes-list-type":"set","items":{"type":"string"}}}}}}},{"group":"summary.example","version":"v1","kind":"LabelSummary","plural":"labelsummaries","schema":{"type":"object","properties":{"spec":{"type":"object","properties":{"counts":{"type":"object","additionalProperties":{"type":"integer"}},"label":{"type":"string"},"total":{"type":"integer"}}}}}}]}"#;

pub fn types(alloc: Global) -> Result<Types, Fail> {
    Ok(Types::read(alloc, Profile::Plain, &Value::from_str(alloc, TYPES)?)?)
}

/// What stands behind the name in words `NAME=VALUE ..`, or what stands for it.
fn value_of<'a>(words: &'a str, name: &str, otherwise: &'a str) -> &'a str {
    match words.split_once(name) {
        Some((_, rest)) => first_word(rest).0,
        None => otherwise,
    }
}

fn small_number(text: &str) -> Result<u32, Fail> {
    Ok(text.parse::<u32>().ok().ok_or("no number")?)
}

fn namespace(alloc: Global, words: &str) -> Result<Option<String>, AllocError> {
    match value_of(words, "namespace=", "") {
        "" => Ok(None),
        name => Ok(Some(String::from_str(alloc, name)?)),
    }
}

/// Of the word `summary=NAMESPACE/NAME`.
fn summary(alloc: Global, words: &str) -> Result<(String, String), AllocError> {
    let place = value_of(words, "summary=", "default/summary");
    let (namespace, name) = place.split_once('/').unwrap_or(("default", place));
    let namespace = String::from_str(alloc, namespace)?;
    Ok((namespace, String::from_str(alloc, name)?))
}

/// Of the words `kind=`, `namespace=`, `selector=`, `page=`, `label=` and `summary=`. Without them: widgets of all namespaces, two
/// in a page, counted by `tier` in the object `summary` of `default`.
pub fn settings(alloc: Global, words: &str) -> Result<Settings, Fail> {
    Ok(Settings {
        kind: small_number(value_of(words, "kind=", "0"))?,
        namespace: namespace(alloc, words)?,
        selector: String::from_str(alloc, value_of(words, "selector=", ""))?,
        page: small_number(value_of(words, "page=", "2"))?,
        label: String::from_str(alloc, value_of(words, "label=", "tier"))?,
        summary: summary(alloc, words)?,
    })
}

/// The index `namespace`, or the one by the value of the label of this name.
fn index(alloc: Global, name: &str) -> Result<Box<dyn IndexBy>, AllocError> {
    match name {
        "namespace" => Ok(Box::new(alloc, ByNamespace)?),
        _ => {
            let label = String::from_str(alloc, name)?;
            Ok(Box::new(alloc, ByLabel { label })?)
        }
    }
}

/// Of the word `indexes=NAME,NAME..`; by namespace without it.
pub fn indexes(alloc: Global, words: &str) -> Result<Vec<Box<dyn IndexBy>>, AllocError> {
    let mut all = Vec::new(alloc);
    for name in value_of(words, "indexes=", "namespace").split(',') {
        all.push(index(alloc, name)?)?;
    }
    Ok(all)
}

/// Of the word `link=N`: a link that carries N pieces; without it, as many as come.
pub fn linked(alloc: Global, words: &str) -> Result<Noting, Fail> {
    Ok(Noting {
        left: number(value_of(words, "link=", "18446744073709551615"))?,
        carried: Vec::new(alloc),
    })
}
