//! The documents of a server's types, where documents tell of them.
ghost use Rattle.std.specs.Prelude.{IfOk, ◌≡◌, option_map, string_bytes};
ghost use Rattle.api_types.specs.Served.{types_view};
ghost use Rattle.discovery.specs.Paths.{document_in, text_in};

use crate::document::{Document, document_at, text};
use api_types::Types;
use std::alloc::{AllocError, Global};

/// The document at a path, where documents tell clients of these types.
pub fn document_in(types: &Types, path: &str) -> Option<Document>
    ensures { result ≡ document_in (types_view types.now) path.now }
{
    if !types.are_discovered() {
        return None;
    }
    document_at(types, path)
}

/// The text of a document, where documents tell clients of these types; none of a number that no type has.
pub fn text_in(
    alloc: Global,
    types: &Types,
    document: Document,
) -> Result<Option<String>, AllocError>
    ensures { IfOk result (λ o. option_map string_bytes o ≡ text_in (types_view types.now) document) }
{
    match types.are_discovered() {
        true => text(alloc, types, document),
        false => Ok(None),
    }
}
