//! What a run is asked for, and the client that does it. The run itself stands in `world`.

ghost use Rattle.std.specs.Prelude.{◌≡◌, is_ok, is_some, [], IfOk, map, option_map, slice_get, string_bytes, None, Some};
ghost use Rattle.api_types.specs.Served.{types_view};
ghost use Rattle.api_types.specs.TypesFile.{ServedShape};
ghost use Rattle.selector.specs.Grammar.{parse_selector};
ghost use Rattle.indexer.specs.Indexer.{indexes_of, names_of};
ghost use Rattle.indexer.specs.Names.{are_distinct};
ghost use Rattle.reflector.specs.Client.{fresh};
ghost use Rattle.reflector.specs.Faults.{is_page_size};
ghost use Rattle.reflector.specs.InformerViews.{InformerRepresents, settings_in};
ghost use Rattle.world_laws.specs.Tasks.{client_settings, or_fault, settings_fault};
ghost use Rattle.world.specs.FaultViews.{Refuses};
ghost use Rattle.world.specs.Views.{IsSourceOf, settings_seen};
ghost use Rattle.world.specs.Represents.{setup_in};

use crate::fault::WorldFault;
use api_types::Types;
use indexer::{IndexBy, Indexer, IndexerFault};
use reflector::{Informer, SettingsFault, Source};
use selector::{ReadError, Selector};
use std::alloc::{AllocError, Global};

/// How many objects a page has at most.
const MAX_PAGE: u32 = 500;

/// What a run is asked for.
#[derive(Debug, Drop)]
pub struct Settings {
    /// The number of the type whose objects the client mirrors.
    pub kind: u32,
    /// In this namespace, or in all.
    pub namespace: Option<String>,
    /// The label selector of the objects; the empty text selects all.
    pub selector: String,
    /// How many objects a page has at most, 1 to 500.
    pub page: u32,
    /// The label whose values are counted.
    pub label: String,
    /// The namespace and the name of the object to which the counts are applied.
    pub summary: (String, String),
}

fn is_page_size(size: u32) -> bool
    ensures { result ≡ is_page_size size }
{
    1 <= size && size <= MAX_PAGE
}

fn check_page(size: u32) -> Result<(), WorldFault>
    ensures { Refuses (or_fault 1 (is_page_size size) None) result }
{
    if !is_page_size(size) {
        return Err(WorldFault::Settings(1));
    }
    Ok(())
}

fn check_selector(alloc: Global, text: &str) -> Result<(), WorldFault>
    ensures { Refuses (or_fault 2 (is_ok (parse_selector text.now)) None) result }
{
    match Selector::read(alloc, text) {
        Ok(_) => Ok(()),
        Err(ReadError::Fault(_)) => Err(WorldFault::Settings(2)),
        Err(ReadError::Memory) => Err(WorldFault::Memory),
    }
}

/// The type of this number, as a client asks for it.
fn source_of(types: &Types, kind: u32) -> Result<Source, WorldFault>
    ensures fault { Refuses (or_fault 3 (is_some (slice_get (types_view types.now) kind)) None) result }
    ensures source { IfOk result (λ s. (t : ServedShape) × (slice_get (types_view types.now) kind ≡ Some t) × IsSourceOf t s) }
{
    let Some(served) = types.get(kind) else {
        return Err(WorldFault::Settings(3));
    };
    Ok(Source {
        group: served.group.clone()?,
        version: served.version.clone()?,
        kind: served.kind.clone()?,
        plural: served.plural.clone()?,
    })
}

fn indexer_of<I: IndexBy>(alloc: Global, indexes: Vec<I>) -> Result<Indexer<I>, WorldFault>
    ensures fault { Refuses (or_fault 4 (are_distinct (map (λ b. I.title b) indexes.items)) None) result }
    ensures indexes { IfOk result (λ r. indexes_of r ≡ indexes.items) }
    ensures names { IfOk result (λ r. names_of r ≡ map (λ b. I.title b) indexes.items) }
{
    match Indexer::new(alloc, indexes) {
        Ok(indexer) => Ok(indexer),
        Err(IndexerFault::SameName) => Err(WorldFault::Settings(4)),
        Err(IndexerFault::Memory) => Err(WorldFault::Memory),
    }
}

fn copied(namespace: &Option<String>) -> Result<Option<String>, AllocError>
    ensures { IfOk result (λ n. option_map string_bytes n ≡ option_map string_bytes namespace.now) }
{
    match namespace {
        Some(namespace) => Ok(Some(namespace.clone()?)),
        None => Ok(None),
    }
}

/// The client that does what is asked, with these indexes. It keeps nothing yet.
pub(crate) fn client_of<I: IndexBy>(
    alloc: Global,
    types: &Types,
    settings: &Settings,
    indexes: Vec<I>,
) -> Result<Informer<I>, WorldFault>
    ensures fault { Refuses (settings_fault (types_view types.now) (map (λ b. I.title b) indexes.items) (settings_seen settings.now)) result }
    ensures fresh { IfOk result (λ i. InformerRepresents (λ b s. I.keys b s) i fresh [] []) }
    ensures settings { (t : ServedShape) → slice_get (types_view types.now) settings.now.kind ≡ Some t → IfOk result (λ i. settings_in i ≡ client_settings (record { settings = settings_seen settings.now; t = t; requirements = [] })) }
    ensures setup { IfOk result (λ i. setup_in i ≡ record { settings = settings_in i; indexes = indexes.items; names = map (λ b. I.title b) indexes.items }) }
{
    check_page(settings.page)?;
    check_selector(alloc, settings.selector.as_str())?;
    let source = source_of(types, settings.kind)?;
    let indexer = indexer_of(alloc, indexes)?;
    let namespace = copied(&settings.namespace)?;
    let selector = settings.selector.clone()?;
    match Informer::new(alloc, source, namespace, selector, settings.page, indexer) {
        Ok(client) => Ok(client),
        Err(SettingsFault::Page) => Err(WorldFault::Settings(1)),
        Err(SettingsFault::Namespace) => Err(WorldFault::Settings(5)),
    }
}
