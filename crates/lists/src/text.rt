//! The text of a list, put together from the texts of its items; which items these are stands in `page`.

ghost use Rattle.std.specs.Prelude.{◌≡◌, ◌++◌, [], ◌∷◌, IfOk, OnOk, None, Some, flat_map, map, option_map, string_bytes};
ghost use Rattle.serde_json.specs.Data.{string};
ghost use Rattle.serde_json.specs.View.{view};
ghost use Rattle.serde_json.specs.Written.{compact_text};
ghost use Rattle.history.specs.Seen.{last_key};
ghost use Rattle.history.specs.Read.{entry_of, key_of};
ghost use Rattle.lists.specs.Body.{continued_at, joined_text, list_kind, list_text, metadata_by, metadata_of, with_commas};
ghost use Rattle.lists.specs.Views.{collection_of, page_seen};

use crate::collection::Collection;
use crate::page::Page;
use crate::rows::last_key;
use history::{Entry, Key};
use params::Token;
use serde_json::{Value, json};
use std::alloc::{AllocError, Global};

/// A text as JSON.
fn quoted(alloc: Global, text: &str) -> Result<String, AllocError>
    ensures { IfOk result (λ s. string_bytes s ≡ compact_text (string text.now)) }
{
    Value::String(String::from_str(alloc, text)?).to_string(alloc)
}

fn push_quoted(alloc: Global, onto: &mut String, text: &str) -> Result<(), AllocError>
    ensures { OnOk result (string_bytes onto.new ≡ string_bytes onto.old ++ compact_text (string text.now)) }
{
    onto.push_str(quoted(alloc, text)?.as_str())
}

fn list_kind(alloc: Global, of: Collection<'_>) -> Result<String, AllocError>
    ensures { IfOk result (λ s. string_bytes s ≡ list_kind (collection_of of.entry)) }
{
    let mut kind = String::from_str(alloc, of.item_kind)?;
    kind.push_str("List")?;
    Ok(kind)
}

/// The texts of the items, with commas between them.
fn push_items(onto: &mut String, items: &[Entry]) -> Result<(), AllocError>
    ensures { OnOk result (string_bytes onto.new ≡ string_bytes onto.old ++ with_commas (map (λ e. e.1.body) (map entry_of items.now))) }
{
    let Some((first, others)) = items.split_first() else {
        return Ok(());
    };
    onto.push_str(first.object.body.as_str())?;
    for item in others {
        onto.push_str(",")?;
        onto.push_str(item.object.body.as_str())?;
    }
    Ok(())
}

/// Where the list goes on after an object.
fn continued_at(alloc: Global, revision: u64, key: &Key) -> Result<String, AllocError>
    ensures { IfOk result (λ s. string_bytes s ≡ continued_at revision (key_of key.now)) }
{
    let token = Token {
        revision,
        namespace: key.namespace.clone()?,
        name: key.name.clone()?,
    };
    token.text(alloc)
}

fn last_metadata(alloc: Global, version: &str) -> Result<Value, AllocError>
    ensures { IfOk result (λ v. view v ≡ metadata_by version.now None) }
{
    json!(in alloc; {"resourceVersion": version})
}

fn metadata_before(alloc: Global, version: &str, token: &str) -> Result<Value, AllocError>
    ensures { IfOk result (λ v. view v ≡ metadata_by version.now (Some token.now)) }
{
    json!(in alloc; {"continue": token, "resourceVersion": version})
}

fn metadata(alloc: Global, revision: u64, next: Option<&Key>) -> Result<Value, AllocError>
    ensures { IfOk result (λ v. view v ≡ metadata_of revision (option_map (continued_at revision) (option_map (λ k. key_of k.now) next.entry))) }
{
    let version = revision.to_string(alloc)?;
    match next {
        Some(key) => {
            let token = continued_at(alloc, revision, key)?;
            metadata_before(alloc, version.as_str(), token.as_str())
        }
        None => last_metadata(alloc, version.as_str()),
    }
}

fn metadata_text(alloc: Global, revision: u64, next: Option<&Key>) -> Result<String, AllocError>
    ensures { IfOk result (λ s. string_bytes s ≡ compact_text (metadata_of revision (option_map (continued_at revision) (option_map (λ k. key_of k.now) next.entry)))) }
{
    let metadata = metadata(alloc, revision, next)?;
    Ok(metadata.to_string(alloc)?)
}

/// The key after which the next page begins.
pub(crate) fn next_of(page: &Page) -> Option<&Key>
    ensures { option_map (λ k. key_of k.now) result ≡ (page_seen page.now).next }
{
    if page.has_more {
        last_key(&page.found)
    } else {
        None
    }
}

/// The text of a page of a revision.
pub(crate) fn list_text(
    alloc: Global,
    of: Collection<'_>,
    revision: u64,
    page: &Page,
) -> Result<String, AllocError>
    ensures { IfOk result (λ s. string_bytes s ≡ list_text (collection_of of.entry) revision (page_seen page.now)) }
{
    let kind = list_kind(alloc, of)?;
    let metadata = metadata_text(alloc, revision, next_of(page))?;
    let mut text = String::from_str(alloc, "{\"apiVersion\":")?;
    push_quoted(alloc, &mut text, of.api_version)?;
    text.push_str(",\"items\":[")?;
    push_items(&mut text, &page.found)?;
    text.push_str("],\"kind\":")?;
    push_quoted(alloc, &mut text, kind.as_str())?;
    text.push_str(",\"metadata\":")?;
    text.push_str(metadata.as_str())?;
    text.push_str("}")?;
    Ok(text)
}
