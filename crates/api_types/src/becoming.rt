//! Which schemas a schema may become while objects of its type stand. The change of a whole types file stands in
//! `retyping`.
ghost use Rattle.std.specs.Prelude.{◌≡◌, map};
ghost use Rattle.schema.specs.Becoming.{are_among, becomes, fields_become, is_atomic, is_same_kind, may_become};
ghost use Rattle.schema.specs.KeyNames.{names_in};
ghost use Rattle.schema.specs.Shape.{fields_in, kind_of, shape};

use schema::{ListKind, Schema, is_key};

/// Whether each name is one of the others.
fn are_among(names: &[String], others: &[String]) -> bool
    ensures { result ≡ are_among (names_in names.now) (names_in others.now) }
{
    names.iter().all(|name| is_key(others, name.as_str()))
}

fn is_atomic(kind: &ListKind) -> bool
    ensures { result ≡ is_atomic (kind_of kind.now) }
{
    matches!(kind, ListKind::Atomic)
}

/// Whether it is the other kind; key names in any order.
fn is_same_kind(kind: &ListKind, other: &ListKind) -> bool
    ensures { result ≡ is_same_kind (kind_of kind.now) (kind_of other.now) }
{
    match kind {
        ListKind::Atomic => is_atomic(other),
        ListKind::Set => matches!(other, ListKind::Set),
        ListKind::Keyed(names) => match other {
            ListKind::Keyed(others) => are_among(names, others) && are_among(others, names),
            _ => false,
        },
    }
}

#[cycle(becomes)]
fn fields_become(fields: &[(String, Schema)], others: &[(String, Schema)], rises: bool) -> bool
    ensures { result ≡ fields_become rises (fields_in fields.now) (fields_in others.now) }
{
    let mut left = others;
    for (name, inner) in fields {
        let Some(((known, other), rest)) = left.split_first() else {
            return false;
        };
        if name != known || !becomes(inner, other, rises) {
            return false;
        }
        left = rest;
    }
    left.is_empty()
}

/// Whether the other schema is this one, but that, where `rises`, sets, map lists and granular maps in it have
/// become atomic. What such a list or map holds has to be the same.
#[cycle(becomes)]
fn becomes(schema: &Schema, other: &Schema, rises: bool) -> bool
    ensures { result ≡ becomes rises (shape schema.now) (shape other.now) }
{
    match schema {
        Schema::Text => matches!(other, Schema::Text),
        Schema::Whole => matches!(other, Schema::Whole),
        Schema::Truth => matches!(other, Schema::Truth),
        Schema::Struct(fields, was) => match other {
            Schema::Struct(others, is) => was == is && fields_become(fields, others, rises),
            _ => false,
        },
        Schema::MapOf(inner, was) => match other {
            Schema::MapOf(other, is) => {
                if was == is {
                    becomes(inner, other, rises)
                } else {
                    rises && *is && becomes(inner, other, false)
                }
            }
            _ => false,
        },
        Schema::List(inner, was) => match other {
            Schema::List(other, is) => {
                if is_same_kind(was, is) {
                    becomes(inner, other, rises)
                } else {
                    rises && is_atomic(is) && becomes(inner, other, false)
                }
            }
            _ => false,
        },
    }
}

/// Whether the other schema is this one, but that some sets, map lists and granular maps in it have become atomic.
pub(crate) fn may_become(schema: &Schema, other: &Schema) -> bool
    ensures { result ≡ may_become (shape schema.now) (shape other.now) }
{
    becomes(schema, other, true)
}
