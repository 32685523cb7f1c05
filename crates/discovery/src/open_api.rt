//! The documents of OpenAPI v3. Operations stand in `operations`, schemas of types in `type_schema`.
ghost use Rattle.std.specs.Prelude.{IfOk, OnOk, ◌≡◌, ◌∷◌, ◌++◌, [], codes, map, string_bytes};
ghost use Rattle.json.specs.Token.{begin_object, end_object, key, string};
ghost use Rattle.json.specs.Tree.{members_tokens};
ghost use Rattle.api_types.specs.ServedViews.{served};
ghost use Rattle.discovery.specs.Documents.{members_by, release};
ghost use Rattle.discovery.specs.Groups.{group_version};
ghost use Rattle.discovery.specs.OpenApi.{add_reference, components, open_api, open_api_index, open_api_path};
ghost use Rattle.discovery.specs.Writing.{Adds, AddsMembers, AddsValue};

use crate::likeness::{Likeness, firsts};
use crate::operations::put_paths;
use crate::put::put;
use crate::type_schema::put_schemas;
use crate::version::RELEASE;
use api_types::Served;
use json::{Token, Writer};
use std::alloc::{AllocError, Global};

fn begin(writer: &mut Writer) -> Result<(), AllocError>
    ensures { OnOk result (Adds (begin_object ∷ key (codes "openapi") ∷ string (codes "3.0.0") ∷ key (codes "info") ∷ begin_object ∷ key (codes "title") ∷ string (codes "Kubernetes") ∷ key (codes "version") ∷ string release
        ∷ end_object ∷ key (codes "paths") ∷ begin_object ∷ []) writer.old writer.new) }
{
    put(
        writer,
        &[
            Token::BeginObject,
            Token::Key("openapi"),
            Token::String("3.0.0"),
            Token::Key("info"),
            Token::BeginObject,
            Token::Key("title"),
            Token::String("Kubernetes"),
            Token::Key("version"),
            Token::String(RELEASE),
            Token::EndObject,
            Token::Key("paths"),
            Token::BeginObject,
        ],
    )
}

/// The schemas of a type's version, and the end of the document.
fn put_components(
    alloc: Global,
    writer: &mut Writer,
    types: &[Served],
    of: &Served,
) -> Result<(), AllocError>
    ensures { OnOk result (Adds (members_tokens (components (map served types.now) (served of.now))) writer.old writer.new) }
{
    let kinds = firsts(alloc, Likeness::Kind, types)?;
    put(
        writer,
        &[
            Token::Key("components"),
            Token::BeginObject,
            Token::Key("schemas"),
            Token::BeginObject,
        ],
    )?;
    put_schemas(alloc, writer, of, &kinds)?;
    put(writer, &[Token::EndObject, Token::EndObject])
}

/// The document of a type's version.
pub(crate) fn put_open_api(
    alloc: Global,
    writer: &mut Writer,
    types: &[Served],
    of: &Served,
) -> Result<(), AllocError>
    ensures { OnOk result (AddsValue (open_api (map served types.now) (served of.now)) writer.old writer.new) }
{
    begin(writer)?;
    put_paths(alloc, writer, of, types)?;
    put_components(alloc, writer, types, of)
}

fn put_reference<'a>(writer: &mut Writer, name: &'a str, path: &'a str) -> Result<(), AllocError>
    ensures { OnOk result (Adds (key name.now ∷ begin_object ∷ key (codes "serverRelativeURL") ∷ string path.now ∷ end_object ∷ []) writer.old writer.new) }
{
    put(
        writer,
        &[
            Token::Key(name),
            Token::BeginObject,
            Token::Key("serverRelativeURL"),
            Token::String(path),
            Token::EndObject,
        ],
    )
}

/// The name of a type's version in the index.
fn index_name(alloc: Global, one: &Served) -> Result<String, AllocError>
    ensures { IfOk result (λ s. string_bytes s ≡ codes "apis/" ++ group_version (served one.now)) }
{
    format!(in alloc; "apis/{}/{}", one.group, one.version)
}

/// Where the document of a type's version is.
fn open_api_path(alloc: Global, one: &Served) -> Result<String, AllocError>
    ensures { IfOk result (λ s. string_bytes s ≡ open_api_path (served one.now)) }
{
    format!(in alloc; "/openapi/v3/apis/{}/{}", one.group, one.version)
}

/// The same as a member of the index.
fn add_reference(alloc: Global, writer: &mut Writer, one: &Served) -> Result<(), AllocError>
    ensures { OnOk result (AddsMembers (add_reference (served one.now)) writer.old writer.new) }
{
    let name = index_name(alloc, one)?;
    let path = open_api_path(alloc, one)?;
    put_reference(writer, name.as_str(), path.as_str())
}

/// The documents of versions, and the end of the object.
fn put_references(
    alloc: Global,
    writer: &mut Writer,
    versions: &[&Served],
) -> Result<(), AllocError>
    ensures { OnOk result (Adds (members_tokens (members_by add_reference (map (λ t. served t.now) versions.now))) writer.old writer.new) }
{
    for one in versions {
        add_reference(alloc, writer, one)?;
    }
    put(writer, &[Token::EndObject])
}

/// The documents of all versions.
pub(crate) fn put_open_api_index(
    alloc: Global,
    writer: &mut Writer,
    types: &[Served],
) -> Result<(), AllocError>
    ensures { OnOk result (AddsValue (open_api_index (map served types.now)) writer.old writer.new) }
{
    let versions = firsts(alloc, Likeness::Version, types)?;
    put(
        writer,
        &[Token::BeginObject, Token::Key("paths"), Token::BeginObject],
    )?;
    put_references(alloc, writer, &versions)?;
    put(writer, &[Token::EndObject])
}
