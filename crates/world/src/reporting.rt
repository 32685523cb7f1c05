//! Reports of what the client has.

ghost use Rattle.std.specs.Prelude.{◌≡◌, ◌≢◌, Err, IfOk, Option, map, option_map};
ghost use Rattle.std.specs.Option.{option_to_list};
ghost use Rattle.indexer.specs.Indexer.{indexed_objects_of};
ghost use Rattle.indexer.specs.Kept.{objects_in};
ghost use Rattle.indexer.specs.Objects.{shared_of};
ghost use Rattle.reflector.specs.Client.{Cache, kept};
ghost use Rattle.reflector.specs.InformerViews.{indexes_in, names_in};
ghost use Rattle.summary.specs.Summary.{counts_in, summed};
ghost use Rattle.world_laws.specs.Reports.{reports_between};
ghost use Rattle.world_laws.specs.Tasks.{Task};
ghost use Rattle.world_laws.specs.World as worlds;
ghost use Rattle.world.specs.Reporting.{is_due};
ghost use Rattle.world.specs.Represents.{WorldRepresents};
ghost use Rattle.world.specs.Shown.{AllShow};

use crate::fault::RunFault;
use crate::indexes::shots;
use crate::trace::Report;
use crate::world::World;
use indexer::{IndexBy, Indexer, Object, ObjectKey};
use std::alloc::{AllocError, Global};
use std::collections::BTreeMap;
use std::rc::Rc;
use summary::Summary;

/// The objects, shared with those that have them.
fn shares(alloc: Global, pairs: &[(&ObjectKey, &Rc<Object>)]) -> Result<Vec<Rc<Object>>, AllocError>
    ensures { IfOk result (λ v. map shared_of v.items ≡ map (λ e. shared_of e.1.now) pairs.now) }
{
    let mut all = Vec::with_capacity(alloc, pairs.len())?;
    for pair in pairs {
        all.push(pair.1.clone()?)?;
    }
    Ok(all)
}

/// The objects of an indexer, shared with it.
fn objects_of<I: IndexBy>(
    alloc: Global,
    indexer: &Indexer<I>,
) -> Result<Vec<Rc<Object>>, AllocError>
    ensures { IfOk result (λ v. map shared_of v.items ≡ map (λ e. e.1) (objects_in (indexed_objects_of indexer.now))) }
{
    let pairs = indexer.objects()?;
    shares(alloc, &pairs)
}

/// A copy of the counts. `clone` says of each entry that it is the same, and this says it of all of them together.
fn counts_of(summary: &Summary) -> Result<BTreeMap<String, u64>, AllocError>
    ensures { IfOk result (λ m. counts_in m ≡ (summed summary.now).counts) }
{
    summary.counts().clone()
}

/// Whether a revision is the first, or has risen.
fn is_due(before: Option<u64>, now: u64) -> bool
    ensures { result ≡ is_due before now }
{
    match before {
        None => true,
        Some(was) => was < now,
    }
}

/// What the client has after this event, if it is to be reported: its revision is the first, or has risen.
pub(crate) fn report<I: IndexBy>(
    world: &World<I>,
    before: Option<u64>,
    event: usize,
) -> Result<Option<Report>, RunFault>
    ensures reports { (task : Task) (was : Option Cache) (w : worlds.World) → WorldRepresents (λ b s. I.keys b s) task (kept w.client.cache) world.now w → before ≡ option_map (λ now. now.revision) was
        → IfOk result (λ r. AllShow (λ b s. I.keys b s) (indexes_in world.now.client) (names_in world.now.client) task.settings.label (option_to_list r) (reports_between event w.hub.machine was w.client.cache)) }
    ensures link { result ≢ Err RunFault.Link }
{
    let Some(revision) = world.client.revision() else {
        return Ok(None);
    };
    if !is_due(before, revision) {
        return Ok(None);
    }
    let objects = objects_of(world.alloc, world.client.indexer())?;
    let indexes = shots(world.alloc, world.client.indexer())?;
    let counts = counts_of(&world.summary)?;
    Ok(Some(Report {
        event,
        revision,
        objects,
        indexes,
        counts,
    }))
}

impl<I: IndexBy> World<I> {
    ghost use Rattle.std.specs.FinMap as fin;
    ghost use Rattle.reflector.specs.Client.{Objects};

    /// What the client has: its objects in order of namespace, then name, shared with it.
    pub fn objects(&self) -> Result<Vec<Rc<Object>>, AllocError>
        ensures { (task : Task) (o : Objects) (w : worlds.World) → WorldRepresents (λ b s. I.keys b s) task o self.now w → IfOk result (λ v. map shared_of v.items ≡ map (λ e. e.1) (fin.entries (kept w.client.cache))) }
    {
        objects_of(self.alloc, self.client.indexer())
    }
}
