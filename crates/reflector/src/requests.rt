//! The bytes of an informer's requests, for pages of a list and for watches. Which is due stands in `sync`.

ghost use Rattle.std.specs.Prelude.{◌≡◌, ◌++◌, ◌∷◌, [], None, codes, decimal, IfOk, OnOk, option_map, string_bytes};
ghost use Rattle.form_urlencoded.specs.Form.{append_pair};
ghost use Rattle.wireclient.specs.Request.{request};
ghost use Rattle.decoder.specs.Views.{wanted_of};
ghost use Rattle.decoder.specs.Wanted.{api_version_of};
ghost use Rattle.reflector.specs.Requests.{list_query, namespace_part, path_of, query_at, watch_query, with_selector, with_token};
ghost use Rattle.reflector.specs.Views.{sync_of, settings_of};

use crate::settings::Settings;
use crate::sync::SyncPhase;
use decoder::Wanted;
use form_urlencoded::Serializer;
use std::alloc::{AllocError, Global};
use wireclient::request_bytes;

fn api_version(alloc: Global, wanted: &Wanted) -> Result<String, AllocError>
    ensures { IfOk result (λ s. string_bytes s ≡ api_version_of (wanted_of wanted.now)) }
{
    let mut text = String::from_str(alloc, wanted.source.group.as_str())?;
    text.push_str("/")?;
    text.push_str(wanted.source.version.as_str())?;
    Ok(text)
}

fn namespace_part(alloc: Global, namespace: &Option<String>) -> Result<String, AllocError>
    ensures { IfOk result (λ s. string_bytes s ≡ namespace_part (option_map string_bytes namespace.now)) }
{
    match namespace {
        Some(namespace) => {
            let mut text = String::from_str(alloc, "/namespaces/")?;
            text.push_str(namespace.as_str())?;
            Ok(text)
        }
        None => Ok(String::new(alloc)),
    }
}

fn path_of(alloc: Global, wanted: &Wanted) -> Result<String, AllocError>
    ensures { IfOk result (λ s. string_bytes s ≡ path_of (wanted_of wanted.now)) }
{
    let mut path = String::from_str(alloc, "/apis/")?;
    path.push_str(api_version(alloc, wanted)?.as_str())?;
    path.push_str(namespace_part(alloc, &wanted.namespace)?.as_str())?;
    path.push_str("/")?;
    path.push_str(wanted.source.plural.as_str())?;
    Ok(path)
}

fn append_selector(query: &mut Serializer, selector: &str) -> Result<(), AllocError>
    ensures prefix { OnOk result (query.new.prefix ≡ query.old.prefix) }
    ensures form { OnOk result (query.new.form ≡ with_selector selector.now query.old.form) }
{
    if !selector.is_empty() {
        query.append_pair("labelSelector", selector)?;
    }
    Ok(())
}

fn append_token(query: &mut Serializer, token: Option<&str>) -> Result<(), AllocError>
    ensures prefix { OnOk result (query.new.prefix ≡ query.old.prefix) }
    ensures form { OnOk result (query.new.form ≡ with_token (option_map (λ t. t.now) token.entry) query.old.form) }
{
    if let Some(token) = token {
        query.append_pair("continue", token)?;
    }
    Ok(())
}

fn begin_list_query(alloc: Global, page: u32) -> Result<Serializer, AllocError>
    ensures prefix { IfOk result (λ q. q.prefix ≡ []) }
    ensures form { IfOk result (λ q. q.form ≡ append_pair [] (codes "limit") (decimal page)) }
{
    let mut query = Serializer::new(String::new(alloc));
    query.append_pair("limit", page.to_string(alloc)?.as_str())?;
    Ok(query)
}

fn list_query(alloc: Global, settings: &Settings, token: Option<&str>) -> Result<String, AllocError>
    ensures { IfOk result (λ s. string_bytes s ≡ list_query (settings_of settings.now) (option_map (λ t. t.now) token.entry)) }
{
    let mut query = begin_list_query(alloc, settings.page)?;
    append_token(&mut query, token)?;
    append_selector(&mut query, settings.selector.as_str())?;
    Ok(query.finish())
}

fn begin_watch_query(alloc: Global, revision: u64) -> Result<Serializer, AllocError>
    ensures prefix { IfOk result (λ q. q.prefix ≡ []) }
    ensures form { IfOk result (λ q. q.form ≡ append_pair (append_pair [] (codes "watch") (codes "true")) (codes "resourceVersion") (decimal revision)) }
{
    let mut query = Serializer::new(String::new(alloc));
    query.append_pair("watch", "true")?;
    query.append_pair("resourceVersion", revision.to_string(alloc)?.as_str())?;
    Ok(query)
}

fn append_bookmarks(query: &mut Serializer) -> Result<(), AllocError>
    ensures prefix { OnOk result (query.new.prefix ≡ query.old.prefix) }
    ensures form { OnOk result (query.new.form ≡ append_pair query.old.form (codes "allowWatchBookmarks") (codes "true")) }
{
    query.append_pair("allowWatchBookmarks", "true")?;
    Ok(())
}

fn watch_query(alloc: Global, settings: &Settings, revision: u64) -> Result<String, AllocError>
    ensures { IfOk result (λ s. string_bytes s ≡ watch_query (settings_of settings.now) revision) }
{
    let mut query = begin_watch_query(alloc, revision)?;
    append_bookmarks(&mut query)?;
    append_selector(&mut query, settings.selector.as_str())?;
    Ok(query.finish())
}

fn query_of(
    alloc: Global,
    settings: &Settings,
    sync: &SyncPhase,
    revision: Option<u64>,
) -> Result<String, AllocError>
    ensures { IfOk result (λ s. string_bytes s ≡ query_at (settings_of settings.now) (sync_of sync.now) revision) }
{
    match sync {
        SyncPhase::First => list_query(alloc, settings, None),
        SyncPhase::Next(_, token, _) => list_query(alloc, settings, Some(token.as_str())),
        SyncPhase::Streaming => match revision {
            Some(revision) => watch_query(alloc, settings, revision),
            None => list_query(alloc, settings, None),
        },
    }
}

/// The bytes of the request that asks this.
pub(crate) fn request_of(
    alloc: Global,
    settings: &Settings,
    sync: &SyncPhase,
    revision: Option<u64>,
) -> Result<Vec<u8>, AllocError>
    ensures { IfOk result (λ v. v.items ≡ request (codes "GET") (path_of (settings_of settings.now).wanted ++ 63 ∷ query_at (settings_of settings.now) (sync_of sync.now) revision) None) }
{
    let path = path_of(alloc, &settings.wanted)?;
    let query = query_of(alloc, settings, sync, revision)?;
    let target = format!(in alloc; "{path}?{query}")?;
    request_bytes(alloc, "GET", target.as_str(), "", None)
}
