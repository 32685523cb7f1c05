//! The types files that tests are given, and an API of one.

use api_types::{Profile, Types};
use serde_json::Value;
use std::alloc::Global;
use std::test::Fail;
use verbs::Api;

/// One type, whose objects have an image, replicas and settings by name.
pub const WIDGET_TYPES: &str =
    r#"{"types":[{"group":"demo.example","version":"v1","kind":"Widget","plural":"widgets","schema":{"type":"object","properties":{"spec":{"type":"object","properties":{"config":{"type":"object","additionalProperties":{"type":"string"}},"image":{"type":"string"},"replicas":{"type":"integer"}}}}}}]}"#;

/// Widgets, with each kind of list, and label summaries.
pub const EACH_KIND: &str =
    r#"{"types":[{"group":"demo.example","version":"v1","kind":"Widget","plural":"widgets","schema":{"type":"object","properties":{"spec":{"type":"object","properties":{"args":{"type":"array","items":{"type":"string"}},"config":{"type":"object","additionalProperties":{"type":"string"}},"image":{"type":"string"},"ports":{"type":"array","x-kubernetes-list-type":"map","x-kubernetes-list-map-keys":["name"],"items":{"type":"object","properties":{"name":{"type":"string"},"note":{"type":"string"},"port":{"type":"integer"}}}},"replicas":{"type":"integer"},"tags":{"type":"array","x-kubernetes-list-type":"set","items":{"type":"string"}}}}}}},{"group":"summary.example","version":"v1","kind":"LabelSummary","plural":"labelsummaries","schema":{"type":"object","properties":{"spec":{"type":"object","properties":{"counts":{"type":"object","additionalProperties":{"type":"integer"}},"label":{"type":"string"},"total":{"type":"integer"}}}}}}]}"#;

/// The same, but that the list of ports has become atomic.
const PORTS_ATOMIC: &str =
    r#"{"types":[{"group":"demo.example","version":"v1","kind":"Widget","plural":"widgets","schema":{"type":"object","properties":{"spec":{"type":"object","properties":{"args":{"type":"array","items":{"type":"string"}},"config":{"type":"object","additionalProperties":{"type":"string"}},"image":{"type":"string"},"ports":{"type":"array","x-kubernetes-list-type":"atomic","items":{"type":"object","properties":{"name":{"type":"string"},"note":{"type":"string"},"port":{"type":"integer"}}}},"replicas":{"type":"integer"},"tags":{"type":"array","x-kubernetes-list-type":"set","items":{"type":"string"}}}}}}},{"group":"summary.example","version":"v1","kind":"LabelSummary","plural":"labelsummaries","schema":{"type":"object","properties":{"spec":{"type":"object","properties":{"counts":{"type":"object","additionalProperties":{"type":"integer"}},"label":{"type":"string"},"total":{"type":"integer"}}}}}}]}"#;

/// The text of a types file by its name, or that of any other value.
pub fn types_text(name: &str) -> &str {
    match name {
        "ports atomic" => PORTS_ATOMIC,
        text => text,
    }
}

pub fn types_of(alloc: Global, text: &str) -> Result<Types, Fail> {
    Ok(Types::read(alloc, Profile::Plain, &Value::from_str(alloc, text)?)?)
}

/// An API of these types without objects.
pub fn fresh_api(alloc: Global, types: &str) -> Result<Api, Fail> {
    Ok(Api::new(alloc, types_of(alloc, types)?)?)
}
