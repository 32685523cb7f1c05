//! One step down a schema and what it looks at, and the place of a path, which is the fold of its steps. What stands at a
//! place is named in `place`.
ghost use Rattle.std.specs.Prelude.{◌≡◌, false, IfSome, None, Some, map, option_map, string_bytes};
ghost use Rattle.std.specs.List.{list_all, list_any};
ghost use Rattle.std.specs.Str.{bytes_eq};
ghost use Rattle.fieldpath.specs.Elements.{field};
ghost use Rattle.fieldpath.specs.ElementViews.{element};
ghost use Rattle.fieldpath.specs.Scalars.{key_fields, scalar};
ghost use Rattle.schema.specs.KeyFields.{fits_key};
ghost use Rattle.schema.specs.KeyNames.{names_in};
ghost use Rattle.schema.specs.Lawful.{is_granular_struct};
ghost use Rattle.schema.specs.Shape.{shape, fields_in, shape_at, struct_of};
ghost use Rattle.schema.specs.Place.{fit_keys, fits, fits_some, place_of};
ghost use Rattle.schema.specs.TypeRefs.{type_ref};
ghost use Rattle.schema.specs.Steps.{is_leaf, value_of, place_from, place_here, step, step_beside, step_field, step_item, step_key, step_scalar, step_value};

use crate::place::Place;
use crate::schema::{ListKind, Schema};
use fieldpath::{Elem, Keys, Path, Scalar};

/// Where a prefix of a path leads.
#[derive(Clone, Copy)]
pub enum TypeRef<'a> {
    /// To a value of this schema.
    Value(&'a Schema),
    /// To an item of a set; nothing stands below it.
    SetItem,
    /// To an item of a map list, which has these fields but for the key fields of these names.
    MapItem(&'a [(String, Schema)], &'a [String]),
}

/// Whether the name is that of a key field.
pub fn is_key(names: &[String], name: &str) -> bool
    ensures { result ≡ list_any (bytes_eq name.now) (names_in names.now) }
{
    for known in names {
        if name == known.as_str() {
            return true;
        }
    }
    false
}

/// The schema of the field of this name.
pub fn field_at<'a>(fields: &'a [(String, Schema)], name: &str) -> Option<&'a Schema>
    ensures { option_map (λ s. shape s.now) result ≡ shape_at name.now (fields_in fields.now) }
{
    for (known, inner) in fields {
        if known.as_str() == name {
            return Some(inner);
        }
    }
    None
}

fn fits_field(fields: &[(String, Schema)], name: &str, value: &Scalar) -> bool
    ensures { result ≡ fits_some (shape_at name.now (fields_in fields.now)) (scalar value.now) }
{
    match field_at(fields, name) {
        Some(inner) => inner.fits(value),
        None => false,
    }
}

/// Whether a key field is one of those named, and of its field's type.
fn fits_key(names: &[String], fields: &[(String, Schema)], key: &(String, Scalar)) -> bool
    ensures { result ≡ fits_key (names_in names.now) (fields_in fields.now) (string_bytes key.now.0, scalar key.now.1) }
{
    is_key(names, key.0.as_str()) && fits_field(fields, key.0.as_str(), &key.1)
}

fn fit_each(names: &[String], fields: &[(String, Schema)], keys: &[(String, Scalar)]) -> bool
    ensures { result ≡ list_all (fits_key (names_in names.now) (fields_in fields.now)) (key_fields keys.now) }
{
    for key in keys {
        if !fits_key(names, fields, key) {
            return false;
        }
    }
    true
}

/// Whether the key fields are just those named, each of its field's type.
fn fit_keys(names: &[String], fields: &[(String, Schema)], keys: &Keys) -> bool
    ensures { result ≡ fit_keys (names_in names.now) (fields_in fields.now) keys.now }
{
    let keys = keys.fields();
    keys.len() == names.len() && fit_each(names, fields, keys)
}

fn field_type_ref<'a>(fields: &'a [(String, Schema)], name: &str) -> Option<TypeRef<'a>>
    ensures { option_map type_ref result ≡ option_map value_of (shape_at name.now (fields_in fields.now)) }
{
    match field_at(fields, name) {
        Some(inner) => Some(TypeRef::Value(inner)),
        None => None,
    }
}

/// A field of an item of a map list; the key fields stand in the item's element alone.
fn field_beside<'a>(
    fields: &'a [(String, Schema)],
    names: &'a [String],
    name: &str,
) -> Option<TypeRef<'a>>
    ensures { option_map type_ref result ≡ step_beside (names_in names.now) (fields_in fields.now) (field name.now) }
{
    if is_key(names, name) {
        return None;
    }
    field_type_ref(fields, name)
}

fn step_beside<'a>(
    fields: &'a [(String, Schema)],
    names: &'a [String],
    elem: &Elem,
) -> Option<TypeRef<'a>>
    ensures { option_map type_ref result ≡ step_beside (names_in names.now) (fields_in fields.now) (element elem.now) }
{
    match elem {
        Elem::Field(name) => field_beside(fields, names, name.as_str()),
        Elem::Key(_) | Elem::Value(_) => None,
    }
}

impl<'a> TypeRef<'a> {
    /// Where one element more leads, if the schema has it there (Server-Side Apply, "Merge strategy").
    pub fn step(self, elem: &Elem) -> Option<TypeRef<'a>>
        ensures { option_map type_ref result ≡ step (type_ref self.entry) (element elem.now) }
    {
        match self {
            TypeRef::Value(schema) => schema.step(elem),
            TypeRef::SetItem => None,
            TypeRef::MapItem(fields, names) => step_beside(fields, names, elem),
        }
    }

    /// Where the field of this name leads: `step` without its element.
    pub fn step_field(self, name: &str) -> Option<TypeRef<'a>>
        ensures { option_map type_ref result ≡ step (type_ref self.entry) (field name.now) }
    {
        match self {
            TypeRef::Value(schema) => schema.step_field(name),
            TypeRef::SetItem => None,
            TypeRef::MapItem(fields, names) => field_beside(fields, names, name),
        }
    }

    /// The place of a path that ends here.
    pub fn place(self) -> Option<Place>
        ensures { result ≡ place_here (type_ref self.entry) }
    {
        match self {
            TypeRef::Value(schema) => {
                if schema.is_leaf() {
                    Some(Place::Leaf)
                } else {
                    None
                }
            }
            TypeRef::SetItem => Some(Place::SetItem),
            TypeRef::MapItem(_, _) => Some(Place::MapItem),
        }
    }
}

fn place_from(here: TypeRef<'_>, elems: &[Elem]) -> Option<Place>
    ensures { result ≡ place_from (Some (type_ref here.entry)) (map element elems.now) }
{
    let Some((elem, rest)) = elems.split_first() else {
        return here.place();
    };
    match here.step(elem) {
        Some(next) => place_from(next, rest),
        None => None,
    }
}

impl Schema {
    /// Whether a scalar is of this type.
    fn fits(&self, value: &Scalar) -> bool
        ensures { result ≡ fits (shape self.now) (scalar value.now) }
    {
        match self {
            Schema::Text => matches!(value, Scalar::Str(_)),
            Schema::Whole => matches!(value, Scalar::Int(_)),
            Schema::Truth => matches!(value, Scalar::Bool(_)),
            _ => false,
        }
    }

    /// Whether its values are leaves: scalars and atomic values.
    pub fn is_leaf(&self) -> bool
        ensures { result ≡ is_leaf (shape self.now) }
    {
        match self {
            Schema::Text | Schema::Whole | Schema::Truth => true,
            Schema::Struct(_, is_atomic) | Schema::MapOf(_, is_atomic) => *is_atomic,
            Schema::List(_, ListKind::Atomic) => true,
            Schema::List(_, ListKind::Set | ListKind::Keyed(_)) => false,
        }
    }

    /// The fields, if it is a struct whose members merge one by one.
    pub fn granular_fields(&self) -> Option<&[(String, Schema)]>
        ensures there { IfSome result (λ fs. shape self.now ≡ struct_of (fields_in fs.now) false) }
        ensures none { result ≡ None → is_granular_struct (shape self.now) ≡ false }
    {
        match self {
            Schema::Struct(fields, is_atomic) => {
                if *is_atomic {
                    return None;
                }
                Some(fields.as_slice())
            }
            _ => None,
        }
    }

    fn step_field(&self, name: &str) -> Option<TypeRef<'_>>
        ensures { option_map type_ref result ≡ step_field (shape self.now) name.now }
    {
        match self {
            Schema::Struct(fields, is_atomic) => {
                if *is_atomic {
                    return None;
                }
                field_type_ref(fields, name)
            }
            Schema::MapOf(inner, is_atomic) => {
                if *is_atomic {
                    return None;
                }
                Some(TypeRef::Value(inner))
            }
            _ => None,
        }
    }

    fn step_item<'a>(&'a self, names: &'a [String], keys: &Keys) -> Option<TypeRef<'a>>
        ensures { option_map type_ref result ≡ step_item (names_in names.now) (shape self.now) keys.now }
    {
        match self {
            Schema::Struct(fields, _) => {
                if fit_keys(names, fields, keys) {
                    Some(TypeRef::MapItem(fields, names))
                } else {
                    None
                }
            }
            _ => None,
        }
    }

    fn step_key(&self, keys: &Keys) -> Option<TypeRef<'_>>
        ensures { option_map type_ref result ≡ step_key (shape self.now) keys.now }
    {
        match self {
            Schema::List(inner, kind) => match kind {
                ListKind::Keyed(names) => inner.step_item(names, keys),
                _ => None,
            },
            _ => None,
        }
    }

    fn step_scalar(&self, value: &Scalar) -> Option<TypeRef<'_>>
        ensures { option_map type_ref result ≡ step_scalar (shape self.now) (scalar value.now) }
    {
        match self {
            Schema::List(inner, kind) => match kind {
                ListKind::Set => {
                    if inner.fits(value) {
                        Some(TypeRef::SetItem)
                    } else {
                        None
                    }
                }
                _ => None,
            },
            _ => None,
        }
    }

    fn step(&self, elem: &Elem) -> Option<TypeRef<'_>>
        ensures { option_map type_ref result ≡ step_value (shape self.now) (element elem.now) }
    {
        match elem {
            Elem::Field(name) => self.step_field(name.as_str()),
            Elem::Key(keys) => self.step_key(keys),
            Elem::Value(scalar) => self.step_scalar(scalar),
        }
    }

    /// The place that the schema gives a path, if any (Server-Side Apply, "Merge strategy").
    pub fn place(&self, path: &Path) -> Option<Place>
        ensures { result ≡ place_of (shape self.now) path.now }
    {
        place_from(TypeRef::Value(self), path.elems())
    }
}
