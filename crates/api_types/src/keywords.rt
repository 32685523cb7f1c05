//! The keywords of a schema, and what stands at them. What they say together stands in `forms`.
ghost use Rattle.std.specs.Prelude.{◌≡◌, map, option_map, length};
ghost use Rattle.std.specs.List.{list_all};
ghost use Rattle.serde_json.specs.Find.{get_member};
ghost use Rattle.serde_json.specs.View.{members_view};
ghost use Rattle.schema.specs.Among.{is_in};
ghost use Rattle.api_types.specs.Keywords.{has_no, has_only, is_object_or_absent, text_or, keywords, type_named, type_in, is_scalar_type, map_type};
ghost use Rattle.api_types.specs.Views.{type_name};

use json_values::{has, member, members_at, text_at};
use schema::is_in;
use serde_json::{Map, Value};

/// The keywords that a schema takes.
pub(crate) const KEYWORDS: [&str; 10] = [
    "type",
    "properties",
    "additionalProperties",
    "x-kubernetes-map-type",
    "items",
    "x-kubernetes-list-type",
    "x-kubernetes-list-map-keys",
    "description",
    "title",
    "format",
];

/// What a schema's `type` says.
#[derive(Clone, Copy, Debug, PartialEq, Eq)]
pub(crate) enum TypeName {
    Object,
    Array,
    Text,
    Whole,
    Truth,
}

impl TypeName {
    pub(crate) fn is_scalar(self) -> bool
        ensures { result ≡ is_scalar_type (Some (type_name self)) }
    {
        matches!(self, TypeName::Text | TypeName::Whole | TypeName::Truth)
    }
}

pub(crate) fn has_no(members: &Map<String, Value>, names: &[&str]) -> bool
    ensures { result ≡ has_no (map (λ n. n.now) names.now) (members_view members.now.entries) }
{
    names.iter().all(|name| !has(members, name))
}

/// Whether all names are among these.
pub(crate) fn has_only(members: &Map<String, Value>, names: &[&str]) -> bool
    ensures { result ≡ has_only (map (λ n. n.now) names.now) (members_view members.now.entries) }
{
    for (name, _) in members.iter() {
        if !is_in(names, name.as_str()) {
            return false;
        }
    }
    true
}

pub(crate) fn is_object_or_absent(members: &Map<String, Value>, name: &str) -> bool
    ensures { result ≡ is_object_or_absent name.now (members_view members.now.entries) }
{
    !has(members, name) || members_at(members, name).is_some()
}

/// The text at a name, or the default where nothing is there.
pub(crate) fn text_or<'a>(
    members: &'a Map<String, Value>,
    name: &str,
    default: &'a str,
) -> Option<&'a str>
    ensures { option_map (λ s. s.now) result ≡ text_or default.now (get_member name.now (members_view members.now.entries)) }
{
    match member(members, name) {
        Some(value) => value.as_str(),
        None => Some(default),
    }
}

fn type_named(name: &str) -> Option<TypeName>
    ensures { option_map type_name result ≡ type_named name.now }
{
    match name {
        "object" => Some(TypeName::Object),
        "array" => Some(TypeName::Array),
        "string" => Some(TypeName::Text),
        "integer" => Some(TypeName::Whole),
        "boolean" => Some(TypeName::Truth),
        _ => None,
    }
}

/// The type of a schema.
pub(crate) fn type_in(schema: &Map<String, Value>) -> Option<TypeName>
    ensures { option_map type_name result ≡ type_in (members_view schema.now.entries) }
{
    type_named(text_at(schema, "type")?)
}

/// Whether a map or struct is atomic.
pub(crate) fn map_type(schema: &Map<String, Value>) -> Option<bool>
    ensures { result ≡ map_type (members_view schema.now.entries) }
{
    match text_or(schema, "x-kubernetes-map-type", "granular")? {
        "granular" => Some(false),
        "atomic" => Some(true),
        _ => None,
    }
}
