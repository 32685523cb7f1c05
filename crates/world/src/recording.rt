//! A hub of which nothing is taken. What was written on a connection stays: the hub forgets it where the peer goes, so that
//! it is kept here.

ghost use Rattle.std.specs.Prelude.{◌≡◌, ℕ, List, IfOk, OnOk};
ghost use Rattle.std.specs.BTreeMap.{get};
ghost use Rattle.std.specs.Ordering.{eq_by_cmp, nat_cmp};
ghost use Rattle.api_types.specs.TypesFile.{ServedShape};
ghost use Rattle.history.specs.History.{History};
ghost use Rattle.verbs.specs.Views.{ApiRepresents};
ghost use Rattle.httpedge.specs.Connections.{written_on};
ghost use Rattle.httpedge.specs.HubViews.{HubRepresents, event_of};
ghost use Rattle.httpedge.specs.Steps.{State, goes, start};
ghost use Rattle.world.specs.Recording.{HandledBy, Records, ReportsFileOf, kept_after};

use httpedge::{Effect, Event, Hub, HubFailure, HubFault, HubRefusal};
use std::alloc::{AllocError, Global};
use std::collections::BTreeMap;
use verbs::Api;

/// What became of an event: what it did, or why the hub refused it, which changes nothing.
#[derive(Debug, Drop)]
pub(crate) enum Handled {
    Done(Effect),
    Refused(HubRefusal),
}

/// Hands an event to the hub.
fn hand(hub: &mut Hub, event: &Event) -> Result<Handled, HubFailure>
    ensures handled { (s : State) → HubRepresents hub.old s → IfOk result (λ h. (t : State) × HandledBy s (event_of event.now) h t × HubRepresents hub.new t) }
    ensures reported { IfOk result (ReportsFileOf (event_of event.now)) }
{
    match hub.step(event) {
        Ok(effect) => Ok(Handled::Done(effect)),
        Err(HubFault::Refused(why)) => Ok(Handled::Refused(why)),
        Err(HubFault::Failed(failure)) => Err(failure),
    }
}

/// Puts a value at an id that has none.
pub(crate) fn put_first<V: Drop>(
    values: &mut BTreeMap<u64, V>,
    id: u64,
    value: V,
) -> Result<(), AllocError>
    ensures { OnOk result ((q : ℕ) → get nat_cmp values.new q ≡ kept_after (get nat_cmp values.old q) (eq_by_cmp nat_cmp id q) value) }
{
    if !values.contains_key(&id) {
        values.insert(id, value)?;
    }
    Ok(())
}

/// A hub, and what was written on the connections whose peers have gone.
#[derive(Drop)]
pub(crate) struct Recording {
    alloc: Global,
    pub(crate) hub: Hub,
    gone: BTreeMap<u64, Vec<u8>>,
}

impl Recording {
    /// A hub without connections.
    pub(crate) fn new(alloc: Global, api: Api) -> Recording
        ensures { (types : List ServedShape) (m : History) → ApiRepresents api types m → Records result (start types m) }
    {
        httpedge::all_is_out();
        Recording {
            alloc,
            hub: Hub::new(alloc, api),
            gone: BTreeMap::new(alloc),
        }
    }

    /// Handles an event.
    pub(crate) fn on(&mut self, event: &Event) -> Result<Handled, HubFailure>
        ensures handled { (s : State) → Records self.old s → IfOk result (λ h. (t : State) × HandledBy s (event_of event.now) h t × Records self.new t) }
        ensures reported { IfOk result (ReportsFileOf (event_of event.now)) }
    {
        httpedge::all_is_out();
        httpedge::gone_stays();
        match event {
            Event::Gone(id) => self.go(*id),
            Event::Open(_)
            | Event::In(_, _)
            | Event::Pump(_, _)
            | Event::Tick(_)
            | Event::Compact(_)
            | Event::Retype(_) => hand(&mut self.hub, event),
        }
    }

    /// The peer of a connection goes.
    fn go(&mut self, id: u64) -> Result<Handled, HubFailure>
        ensures handled { (s : State) → Records self.old s → IfOk result (λ h. (t : State) × HandledBy s (goes id) h t × Records self.new t) }
        ensures reported { IfOk result (ReportsFileOf (goes id)) }
    {
        httpedge::all_is_out();
        httpedge::gone_stays();
        let written = Vec::from_slice(self.alloc, self.hub.out(id))?;
        match hand(&mut self.hub, &Event::Gone(id))? {
            Handled::Refused(why) => Ok(Handled::Refused(why)),
            Handled::Done(effect) => {
                put_first(&mut self.gone, id, written)?;
                Ok(Handled::Done(effect))
            }
        }
    }

    /// All that was written on a connection; nothing for an unknown id.
    pub(crate) fn written(&self, id: u64) -> &[u8]
        ensures { (s : State) → Records self.now s → result.now ≡ written_on s.connections id }
    {
        httpedge::all_is_out();
        match self.gone.get(&id) {
            Some(written) => written,
            None => self.hub.out(id),
        }
    }
}
