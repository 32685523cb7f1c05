//! Profiles: what types follow beside what their file declares. Reading a types file stands in `file`.
ghost use Rattle.std.specs.Prelude.{◌≡◌, [], ◌∷◌, IfOk, codes, false};
ghost use Rattle.schema.specs.ObjectShape.{metadata};
ghost use Rattle.schema.specs.Shape.{keyed, list_of, map_of, shape, text};
ghost use Rattle.api_types.specs.Profiles.{is_discovered, is_kubernetes, metadata_of, own_metadata, reference};

use schema::{ListKind, Schema};
use std::alloc::{AllocError, Global};

/// What a type follows beside what its file declares. All types of a server follow the same.
#[derive(Clone, Copy, Debug, PartialEq, Eq)]
pub enum Profile {
    /// No document tells clients of it.
    Plain,
    /// Documents do (Kubernetes docs, "The Kubernetes API", "Discovery API").
    Discovered,
    /// They do, and its objects have the metadata that controllers write. Moments are counted from this second after
    /// 1970-01-01T00:00:00Z.
    Kubernetes(u64),
}

impl Profile {
    /// Whether documents tell clients of types that follow it.
    pub fn is_discovered(self) -> bool
        ensures { result ≡ is_discovered self }
    {
        !matches!(self, Profile::Plain)
    }

    /// Whether its objects have the metadata that controllers write.
    pub fn is_kubernetes(self) -> bool
        ensures { result ≡ is_kubernetes self }
    {
        matches!(self, Profile::Kubernetes(_))
    }

    /// The `metadata` of types that follow it.
    pub(crate) fn metadata(self, alloc: Global) -> Result<Schema, AllocError>
        ensures { IfOk result (λ s. shape s ≡ metadata_of self) }
    {
        match self {
            Profile::Plain => metadata(alloc),
            Profile::Discovered => metadata(alloc),
            Profile::Kubernetes(_) => own_metadata(alloc),
        }
    }
}

fn texts_by_name(alloc: Global) -> Result<Schema, AllocError>
    ensures { IfOk result (λ s. shape s ≡ map_of text false) }
{
    Ok(Schema::MapOf(Box::new(alloc, Schema::Text)?, false))
}

fn metadata(alloc: Global) -> Result<Schema, AllocError>
    ensures { IfOk result (λ s. shape s ≡ metadata) }
{
    let mut fields = Vec::new(alloc);
    fields.push((
        String::from_str(alloc, "annotations")?,
        texts_by_name(alloc)?,
    ))?;
    fields.push((String::from_str(alloc, "labels")?, texts_by_name(alloc)?))?;
    Ok(Schema::Struct(fields, false))
}

/// One of the objects that own an object.
fn reference(alloc: Global) -> Result<Schema, AllocError>
    ensures { IfOk result (λ s. shape s ≡ reference) }
{
    let mut fields = Vec::new(alloc);
    fields.push((String::from_str(alloc, "apiVersion")?, Schema::Text))?;
    fields.push((
        String::from_str(alloc, "blockOwnerDeletion")?,
        Schema::Truth,
    ))?;
    fields.push((String::from_str(alloc, "controller")?, Schema::Truth))?;
    fields.push((String::from_str(alloc, "kind")?, Schema::Text))?;
    fields.push((String::from_str(alloc, "name")?, Schema::Text))?;
    fields.push((String::from_str(alloc, "uid")?, Schema::Text))?;
    Ok(Schema::Struct(fields, false))
}

/// References to owners, of each uid one.
fn references(alloc: Global) -> Result<Schema, AllocError>
    ensures { IfOk result (λ s. shape s ≡ list_of reference (keyed (codes "uid" ∷ []))) }
{
    let mut names = Vec::new(alloc);
    names.push(String::from_str(alloc, "uid")?)?;
    let of = Box::new(alloc, reference(alloc)?)?;
    Ok(Schema::List(of, ListKind::Keyed(names)))
}

fn own_metadata(alloc: Global) -> Result<Schema, AllocError>
    ensures { IfOk result (λ s. shape s ≡ own_metadata) }
{
    let finalizers = Schema::List(Box::new(alloc, Schema::Text)?, ListKind::Set);
    let mut fields = Vec::new(alloc);
    fields.push((
        String::from_str(alloc, "annotations")?,
        texts_by_name(alloc)?,
    ))?;
    fields.push((String::from_str(alloc, "finalizers")?, finalizers))?;
    fields.push((String::from_str(alloc, "generateName")?, Schema::Text))?;
    fields.push((String::from_str(alloc, "labels")?, texts_by_name(alloc)?))?;
    fields.push((
        String::from_str(alloc, "ownerReferences")?,
        references(alloc)?,
    ))?;
    Ok(Schema::Struct(fields, false))
}
