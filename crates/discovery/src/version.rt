//! The documents that are the same whatever types are served.
ghost use Rattle.std.specs.Prelude.{OnOk};
ghost use Rattle.discovery.specs.Documents.{api_versions, version_info};
ghost use Rattle.discovery.specs.Writing.{AddsValue};

use crate::put::put;
use json::{Token, Writer};
use std::alloc::AllocError;

/// The release of Kubernetes whose discovery this is.
pub(crate) const RELEASE: &str = "v1.30.0";

/// The version of the server.
pub(crate) fn put_version_info(writer: &mut Writer) -> Result<(), AllocError>
    ensures { OnOk result (AddsValue version_info writer.old writer.new) }
{
    put(
        writer,
        &[
            Token::BeginObject,
            Token::Key("major"),
            Token::String("1"),
            Token::Key("minor"),
            Token::String("30"),
            Token::Key("gitVersion"),
            Token::String(RELEASE),
            Token::Key("gitCommit"),
            Token::String(""),
            Token::Key("gitTreeState"),
            Token::String(""),
            Token::Key("buildDate"),
            Token::String(""),
            Token::Key("goVersion"),
            Token::String(""),
            Token::Key("compiler"),
            Token::String(""),
            Token::Key("platform"),
            Token::String(""),
            Token::EndObject,
        ],
    )
}

/// The versions of the core group: none.
pub(crate) fn put_api_versions(writer: &mut Writer) -> Result<(), AllocError>
    ensures { OnOk result (AddsValue api_versions writer.old writer.new) }
{
    put(
        writer,
        &[
            Token::BeginObject,
            Token::Key("kind"),
            Token::String("APIVersions"),
            Token::Key("versions"),
            Token::BeginArray,
            Token::EndArray,
            Token::Key("serverAddressByClientCIDRs"),
            Token::BeginArray,
            Token::EndArray,
            Token::EndObject,
        ],
    )
}
