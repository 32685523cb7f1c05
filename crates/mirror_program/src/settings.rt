//! The client that a mirror's options ask for. Its turns are `mirroring`'s.

ghost use Rattle.std.specs.Prelude.{◌≡◌, ◌⊎◌, [], IfErr, IfOk, OnOk, Some, None, true, false, is_ok, option_map, string_bytes};
ghost use Rattle.api_types.specs.Served.{types_view};
ghost use Rattle.api_types.specs.TypesFile.{ServedShape};
ghost use Rattle.selector.specs.Grammar.{parse_selector};
ghost use Rattle.reflector.specs.Client.{fresh};
ghost use Rattle.reflector.specs.InformerViews.{InformerRepresents, settings_in};
ghost use Rattle.mirror_program.specs.Asked.{IsSourceOf, asked_of, settings_of, type_of};
ghost use Rattle.programs.specs.Views.{resource_of};
ghost use Rattle.mirror_program.specs.Statuses.{status_of};
ghost use Rattle.mirror_program.specs.declared.fault.ProgramFault.TheVariants.{Run};
ghost use Rattle.programs.specs.declared.run_fault.RunFault.TheVariants.{Memory};

use crate::arguments::MirrorOptions;
use crate::fault::ProgramFault;
use api_types::Types;
use indexer::{IndexBy, Indexer, IndexerFault, Object};
use programs::{Resource, RunFault};
use reflector::{Informer, Source};
use selector::{ReadError, Selector};
use std::alloc::{AllocError, Global};

/// A mirror keeps no index beside the objects: none of its indexes is this one.
#[derive(Drop)]
pub struct NoIndex;

impl IndexBy for NoIndex {
    ghost use Rattle.std.specs.Prelude.{[]};

    ghost title = { λ _. [] };

    ghost keys = { λ _ _. [] };

    fn name(&self) -> &str {
        ""
    }

    fn keys_of(&self, alloc: Global, _: &Object) -> Result<Vec<String>, AllocError> {
        Ok(Vec::new(alloc))
    }
}

/// Whether there is such a selector.
fn check_selector(alloc: Global, text: &str) -> Result<(), ProgramFault>
    ensures ok { OnOk result (is_ok (parse_selector text.now) ≡ true) }
    ensures refused { IfErr result (λ f. (f ≡ Run Memory) ⊎ ((is_ok (parse_selector text.now) ≡ false) × (status_of f ≡ 2))) }
{
    match Selector::read(alloc, text) {
        Ok(_) => Ok(()),
        Err(ReadError::Fault(fault)) => Err(ProgramFault::Selector(fault)),
        Err(ReadError::Memory) => Err(ProgramFault::Run(RunFault::Memory)),
    }
}

/// The type's names, as a client asks for it.
fn source_of(types: &Types, resource: Resource<'_>) -> Result<Source, ProgramFault>
    ensures source { IfOk result (λ s. (t : ServedShape) × (type_of (types_view types.now) (resource_of resource.entry) ≡ Some t) × IsSourceOf t s) }
    ensures refused { IfErr result (λ f. (f ≡ Run Memory) ⊎ ((type_of (types_view types.now) (resource_of resource.entry) ≡ None) × (status_of f ≡ 2))) }
{
    let Some(number) = types.find(resource.group, resource.version, resource.plural) else {
        return Err(ProgramFault::NoType);
    };
    let Some(served) = types.get(number) else {
        return Err(ProgramFault::NoType);
    };
    Ok(Source {
        group: served.group.clone()?,
        version: served.version.clone()?,
        kind: served.kind.clone()?,
        plural: served.plural.clone()?,
    })
}

fn copied(alloc: Global, text: Option<&str>) -> Result<Option<String>, AllocError>
    ensures { IfOk result (λ t. option_map string_bytes t ≡ option_map (λ s. s.now) text.entry) }
{
    match text {
        Some(text) => Ok(Some(String::from_str(alloc, text)?)),
        None => Ok(None),
    }
}

/// No objects, and no index.
fn indexer_of(alloc: Global) -> Result<Indexer<NoIndex>, AllocError> {
    match Indexer::new(alloc, Vec::new(alloc)) {
        Ok(indexer) => Ok(indexer),
        Err(IndexerFault::SameName) => unreachable!(),
        Err(IndexerFault::Memory) => Err(AllocError),
    }
}

/// The client that the options ask for. It keeps nothing yet.
pub(crate) fn informer_of(
    alloc: Global,
    types: &Types,
    options: &MirrorOptions<'_>,
) -> Result<Informer<NoIndex>, ProgramFault>
    ensures settings { IfOk result (λ i. settings_of (types_view types.now) (asked_of options.now) ≡ Some (settings_in i)) }
    ensures fresh { IfOk result (λ i. InformerRepresents (λ b s. []) i fresh [] []) }
    ensures refused { IfErr result (λ f. (f ≡ Run Memory) ⊎ ((settings_of (types_view types.now) (asked_of options.now) ≡ None) × (status_of f ≡ 2))) }
{
    let source = source_of(types, options.resource)?;
    check_selector(alloc, options.selector)?;
    let namespace = copied(alloc, options.namespace)?;
    let selector = String::from_str(alloc, options.selector)?;
    let indexer = indexer_of(alloc)?;
    match Informer::new(alloc, source, namespace, selector, options.page, indexer) {
        Ok(informer) => Ok(informer),
        Err(fault) => Err(ProgramFault::Settings(fault)),
    }
}
