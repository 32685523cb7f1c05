//! What is left out of an object, and copies of objects without it. A content is read without it in `without`.

ghost use Rattle.std.specs.Prelude.{◌≡◌, ◌||◌, IfOk, map};
ghost use Rattle.serde_json.specs.View.{members_view, view};
ghost use Rattle.schema.specs.Among.{is_in};
ghost use Rattle.typed.specs.Reading.{is_null};
ghost use Rattle.typed.specs.Without.{but, kept, members_kept, omitted_of, without};

use schema::is_in;
use serde_json::{Map, Value};
use std::alloc::{AllocError, Global};

/// What is left out of an object that is read: members of it, and members of one of its members.
#[derive(Clone, Copy)]
pub struct Omitted<'a> {
    /// The object's members of these names.
    pub names: &'a [&'a str],
    /// The member of which the inner names are left out, where it is an object.
    pub inside: &'a str,
    pub inner: &'a [&'a str],
}

/// Whether a member counts for nothing: it is left out, or null.
pub(crate) fn is_absent(name: &str, member: &Value, names: &[&str]) -> bool
    ensures { result ≡ (is_in (map (λ n. n.now) names.now) name.now || is_null (view member.now)) }
{
    is_in(names, name) || member.is_null()
}

fn copy_members_but(
    alloc: Global,
    members: &Map<String, Value>,
    names: &[&str],
) -> Result<Map<String, Value>, AllocError>
    ensures { IfOk result (λ m. members_view m.entries ≡ members_kept (is_in (map (λ n. n.now) names.now)) (λ k d. d) (members_view members.now.entries)) }
{
    let mut left = Map::new(alloc);
    for (name, member) in members.iter() {
        let text = name.as_str();
        if !is_in(names, text) {
            serde_json::put(&mut left, alloc, text, member.clone()?)?;
        }
    }
    Ok(left)
}

/// A copy without the members of these names.
pub(crate) fn copy_but(alloc: Global, value: &Value, names: &[&str]) -> Result<Value, AllocError>
    ensures { IfOk result (λ v. view v ≡ but (map (λ n. n.now) names.now) (view value.now)) }
{
    match value.as_object() {
        Some(members) => Ok(Value::Object(copy_members_but(alloc, members, names)?)),
        None => value.clone(),
    }
}

/// What a member keeps.
fn copy_kept(
    alloc: Global,
    name: &str,
    value: &Value,
    omitted: Omitted<'_>,
) -> Result<Value, AllocError>
    ensures { IfOk result (λ v. view v ≡ kept (omitted_of omitted.entry) name.now (view value.now)) }
{
    if name == omitted.inside {
        return copy_but(alloc, value, omitted.inner);
    }
    value.clone()
}

fn copy_members(
    alloc: Global,
    members: &Map<String, Value>,
    omitted: Omitted<'_>,
) -> Result<Map<String, Value>, AllocError>
    ensures { IfOk result (λ m. members_view m.entries ≡ members_kept (is_in (omitted_of omitted.entry).names) (kept (omitted_of omitted.entry)) (members_view members.now.entries)) }
{
    let mut left = Map::new(alloc);
    for (name, member) in members.iter() {
        let text = name.as_str();
        if !is_in(omitted.names, text) {
            let copy = copy_kept(alloc, text, member, omitted)?;
            serde_json::put(&mut left, alloc, text, copy)?;
        }
    }
    Ok(left)
}

/// A copy without what is left out.
pub(crate) fn copy_without(
    alloc: Global,
    value: &Value,
    omitted: Omitted<'_>,
) -> Result<Value, AllocError>
    ensures { IfOk result (λ v. view v ≡ without (omitted_of omitted.entry) (view value.now)) }
{
    match value.as_object() {
        Some(members) => Ok(Value::Object(copy_members(alloc, members, omitted)?)),
        None => value.clone(),
    }
}
