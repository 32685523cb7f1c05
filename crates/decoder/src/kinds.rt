//! Checks that an object or a list in a reply is of the wanted type; an object's name and namespace are read in `object`.

ghost use Rattle.std.specs.Prelude.{◌≡◌, ◌++◌, codes};
ghost use Rattle.serde_json.specs.View.{members_view};
ghost use Rattle.decoder.specs.Members.{is_of, is_text, text_at};
ghost use Rattle.decoder.specs.Wanted.{api_version_of};
ghost use Rattle.decoder.specs.Views.{Says, wanted_of};

use crate::malformed::Malformed;
use crate::members::text_at;
use crate::wanted::{Wanted, is_api_version, is_kind, is_list_kind};
use serde_json::{Map, Value};

fn has_api_version(wanted: &Wanted, top: &Map<String, Value>) -> bool
    ensures { result ≡ is_text (api_version_of (wanted_of wanted.now)) (text_at (codes "apiVersion") (members_view top.now.entries)) }
{
    match text_at(top, "apiVersion") {
        Some(text) => is_api_version(wanted, text),
        None => false,
    }
}

fn has_kind(wanted: &Wanted, top: &Map<String, Value>) -> bool
    ensures { result ≡ is_text (wanted_of wanted.now).kind (text_at (codes "kind") (members_view top.now.entries)) }
{
    match text_at(top, "kind") {
        Some(text) => is_kind(wanted, text),
        None => false,
    }
}

fn has_list_kind(wanted: &Wanted, top: &Map<String, Value>) -> bool
    ensures { result ≡ is_text ((wanted_of wanted.now).kind ++ codes "List") (text_at (codes "kind") (members_view top.now.entries)) }
{
    match text_at(top, "kind") {
        Some(text) => is_list_kind(wanted, text),
        None => false,
    }
}

/// Checks that it is of the wanted type.
pub(crate) fn check_kind(wanted: &Wanted, top: &Map<String, Value>) -> Result<(), Malformed>
    ensures { Says (λ u. u) result (is_of (api_version_of (wanted_of wanted.now)) (wanted_of wanted.now).kind (members_view top.now.entries)) }
{
    if !has_api_version(wanted, top) {
        return Err(Malformed::ApiVersion);
    }
    if !has_kind(wanted, top) {
        return Err(Malformed::Kind);
    }
    Ok(())
}

/// Checks that it is a list of the wanted type.
pub(crate) fn check_list_kind(wanted: &Wanted, top: &Map<String, Value>) -> Result<(), Malformed>
    ensures { Says (λ u. u) result (is_of (api_version_of (wanted_of wanted.now)) ((wanted_of wanted.now).kind ++ codes "List") (members_view top.now.entries)) }
{
    if !has_api_version(wanted, top) {
        return Err(Malformed::ApiVersion);
    }
    if !has_list_kind(wanted, top) {
        return Err(Malformed::Kind);
    }
    Ok(())
}
