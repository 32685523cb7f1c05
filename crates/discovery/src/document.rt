//! Which path has which document, and the text of each.
ghost use Rattle.std.specs.Prelude.{OnOk, IfOk, ◌≡◌, ◌++◌, [], codes, map, option_map, string_bytes};
ghost use Rattle.json.specs.Print.{print};
ghost use Rattle.std.specs.Str.{bytes_eq};
ghost use Rattle.api_types.specs.Served.{types_view};
ghost use Rattle.api_types.specs.ServedViews.{served};
ghost use Rattle.discovery.specs.Groups.{group_version};
ghost use Rattle.discovery.specs.Paths.{document_at, first_at, server_document_at, server_value, text_of, type_document_at, type_value};
ghost use Rattle.discovery.specs.Writing.{AddsValue};

use crate::groups::{put_group, put_group_list};
use crate::open_api::{put_open_api, put_open_api_index};
use crate::resources::put_resource_list;
use crate::version::{put_api_versions, put_version_info};
use api_types::{Served, Types};
use json::Writer;
use std::alloc::{AllocError, Global};

/// A document of the server.
#[derive(Clone, Copy, Debug, PartialEq, Eq)]
pub enum ServerDocument {
    /// The version of the server.
    Version,
    /// The versions of the core group.
    CoreGroup,
    /// All groups.
    Groups,
    /// Where OpenAPI's documents are.
    OpenApiIndex,
}

/// A document of a type's group or version.
#[derive(Clone, Copy, Debug, PartialEq, Eq)]
pub enum TypeDocument {
    /// The group.
    Group,
    /// The resources of the version.
    Resources,
    /// OpenAPI's document of the version.
    OpenApi,
}

/// A document of discovery.
#[derive(Clone, Copy, Debug, PartialEq, Eq)]
pub enum Document {
    OfServer(ServerDocument),
    /// By the number of the type.
    OfType(u32, TypeDocument),
}

/// Whether a text is these two, one after the other.
fn is_joined(text: &str, prefix: &str, end: &str) -> bool
    ensures { result ≡ bytes_eq text.now (prefix.now ++ end.now) }
{
    match text.strip_prefix(prefix) {
        Some(rest) => rest == end,
        None => false,
    }
}

/// Whether a text is these two with `/` between.
fn is_group_and_version(text: &str, group: &str, version: &str) -> bool
    ensures { result ≡ bytes_eq text.now (group.now ++ (codes "/" ++ version.now)) }
{
    match text.strip_prefix(group) {
        Some(rest) => is_joined(rest, "/", version),
        None => false,
    }
}

/// Whether a text is that of a type's group and version.
fn is_group_version(text: &str, one: &Served) -> bool
    ensures { result ≡ bytes_eq text.now (group_version (served one.now)) }
{
    is_group_and_version(text, one.group.as_str(), one.version.as_str())
}

/// Whether it stands behind a prefix.
fn is_version_path(path: &str, prefix: &str, one: &Served) -> bool
    ensures { result ≡ bytes_eq path.now (prefix.now ++ group_version (served one.now)) }
{
    match path.strip_prefix(prefix) {
        Some(rest) => is_group_version(rest, one),
        None => false,
    }
}

fn server_document_at(path: &str) -> Option<ServerDocument>
    ensures { result ≡ server_document_at path.now }
{
    match path {
        "/version" => Some(ServerDocument::Version),
        "/api" => Some(ServerDocument::CoreGroup),
        "/apis" => Some(ServerDocument::Groups),
        "/openapi/v3" => Some(ServerDocument::OpenApiIndex),
        _ => None,
    }
}

/// The document of a type's group or version that is at the path.
fn type_document_at(path: &str, one: &Served) -> Option<TypeDocument>
    ensures { result ≡ type_document_at path.now (served one.now) }
{
    if is_joined(path, "/apis/", one.group.as_str()) {
        return Some(TypeDocument::Group);
    }
    if is_version_path(path, "/apis/", one) {
        return Some(TypeDocument::Resources);
    }
    if is_version_path(path, "/openapi/v3/apis/", one) {
        return Some(TypeDocument::OpenApi);
    }
    None
}

/// That of the first type that has one at the path.
fn first_at(path: &str, types: &Types) -> Option<Document>
    ensures { result ≡ first_at path.now (types_view types.now) }
{
    let mut number = 0;
    let all = types.all();
    for one in all {
        if let Some(document) = type_document_at(path, one) {
            return Some(Document::OfType(number, document));
        }
        number += 1;
    }
    None
}

/// The document at a path, of these types.
pub(crate) fn document_at(types: &Types, path: &str) -> Option<Document>
    ensures { result ≡ document_at (types_view types.now) path.now }
{
    match server_document_at(path) {
        Some(document) => Some(Document::OfServer(document)),
        None => first_at(path, types),
    }
}

fn put_server_document(
    alloc: Global,
    writer: &mut Writer,
    types: &[Served],
    document: ServerDocument,
) -> Result<(), AllocError>
    ensures { OnOk result (AddsValue (server_value (map served types.now) document) writer.old writer.new) }
{
    match document {
        ServerDocument::Version => put_version_info(writer),
        ServerDocument::CoreGroup => put_api_versions(writer),
        ServerDocument::Groups => put_group_list(alloc, writer, types),
        ServerDocument::OpenApiIndex => put_open_api_index(alloc, writer, types),
    }
}

fn put_type_document(
    alloc: Global,
    writer: &mut Writer,
    types: &[Served],
    of: &Served,
    document: TypeDocument,
) -> Result<(), AllocError>
    ensures { OnOk result (AddsValue (type_value (map served types.now) (served of.now) document) writer.old writer.new) }
{
    match document {
        TypeDocument::Group => put_group(alloc, writer, types, of),
        TypeDocument::Resources => put_resource_list(alloc, writer, types, of),
        TypeDocument::OpenApi => put_open_api(alloc, writer, types, of),
    }
}

/// What was written.
fn written(writer: Writer) -> String
    requires { writer.before ≡ [] }
    ensures { string_bytes result ≡ print writer.tokens }
{
    match String::from_utf8(writer.into_inner()) {
        Ok(text) => text,
        Err(_) => unreachable!(),
    }
}

/// The text of a document, of these types; none of a number that no type has.
pub(crate) fn text(
    alloc: Global,
    types: &Types,
    document: Document,
) -> Result<Option<String>, AllocError>
    ensures { IfOk result (λ o. option_map string_bytes o ≡ text_of (types_view types.now) document) }
{
    let all = types.all();
    let mut writer = Writer::new(Vec::new(alloc));
    match document {
        Document::OfServer(document) => put_server_document(alloc, &mut writer, all, document)?,
        Document::OfType(number, document) => {
            let Some(of) = types.get(number) else {
                return Ok(None);
            };
            put_type_document(alloc, &mut writer, all, of, document)?;
        }
    }
    Ok(Some(written(writer)))
}
