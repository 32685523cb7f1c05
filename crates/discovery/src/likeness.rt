//! Types of one group, of one version or of one kind. The documents that name these stand in `groups`, `resources` and
//! `open_api`.
ghost use Rattle.std.specs.Prelude.{◌≡◌, IfOk, OnOk, map, string_bytes};
ghost use Rattle.std.specs.List.{list_any};
ghost use Rattle.api_types.specs.ServedViews.{served};
ghost use Rattle.discovery.specs.Groups.{firsts, group_version, is_like, with_first};

use api_types::Served;
use std::alloc::{AllocError, Global};

/// What types have in common.
#[derive(Clone, Copy)]
pub(crate) enum Likeness {
    Group,
    Version,
    Kind,
}

/// Whether two types have that in common.
pub(crate) fn is_like(likeness: Likeness, one: &Served, other: &Served) -> bool
    ensures { result ≡ is_like likeness (served one.now) (served other.now) }
{
    match likeness {
        Likeness::Group => one.group == other.group,
        Likeness::Version => one.group == other.group && one.version == other.version,
        Likeness::Kind => {
            one.group == other.group && one.version == other.version && one.kind == other.kind
        }
    }
}

/// Whether one of these types is like another one.
fn is_among(likeness: Likeness, found: &[&Served], other: &Served) -> bool
    ensures { result ≡ list_any (is_like likeness (served other.now)) (map (λ t. served t.now) found.now) }
{
    for one in found {
        if is_like(likeness, other, one) {
            return true;
        }
    }
    false
}

fn add_first<'a>(
    likeness: Likeness,
    found: &mut Vec<&'a Served>,
    other: &'a Served,
) -> Result<(), AllocError>
    ensures { OnOk result (map (λ t. served t.now) found.new.items ≡ with_first likeness (map (λ t. served t.now) found.old.items) (served other.now)) }
{
    if is_among(likeness, found, other) {
        return Ok(());
    }
    found.push(other)?;
    Ok(())
}

/// Of types that are alike the first, in their order.
pub(crate) fn firsts<'a>(
    alloc: Global,
    likeness: Likeness,
    types: &'a [Served],
) -> Result<Vec<&'a Served>, AllocError>
    ensures { IfOk result (λ v. map (λ t. served t.now) v.items ≡ firsts likeness (map served types.now)) }
{
    let mut found = Vec::new(alloc);
    for one in types {
        add_first(likeness, &mut found, one)?;
    }
    Ok(found)
}

/// The group and the version of a type, as they stand in `apiVersion`.
pub(crate) fn group_version(alloc: Global, one: &Served) -> Result<String, AllocError>
    ensures { IfOk result (λ s. string_bytes s ≡ group_version (served one.now)) }
{
    format!(in alloc; "{}/{}", one.group, one.version)
}
