//! Hands events to a hub, and tells an observer of them.

ghost use Rattle.std.specs.Prelude.{◌≡◌, true, IfOk};
ghost use Rattle.httpedge.specs.Effects.{Does};
ghost use Rattle.httpedge.specs.HubViews.{IsActionOf, HubRepresents, ReportsOutcome, ReportsFile, event_of, outcome_of};
ghost use Rattle.httpedge.specs.Runs.{Follows, Action};
ghost use Rattle.httpedge.specs.Steps.{State};
ghost use Rattle.httpedge.specs.StreamViews.{Compacts, Hands, IsDone, MovesBy};

use crate::observer::Observer;
use httpedge::{Effect, Event, Hub, HubFault};

/// The hub handles an event; what it did, as `Hub::step` says.
pub fn step<O: Observer>(hub: &mut Hub, observer: &mut O, event: &Event) -> Result<Effect, HubFault>
    ensures follows { (s : State) → HubRepresents hub.old s → (h : Action) × (t : State) × IsActionOf (event_of event.now) (outcome_of result) h × Follows s h t × IfOk result (Does s (event_of event.now) t) × HubRepresents hub.new t }
    ensures refused { (s : State) → HubRepresents hub.old s → ReportsOutcome s (event_of event.now) (outcome_of result) }
    ensures reported { ReportsFile (event_of event.now) result }
    ensures hands { MovesBy (Hands (event_of event.now)) hub.old hub.new }
{
    observer.sees(event);
    let done = hub.step(event);
    observer.learns(hub, event, &done);
    done
}

/// Hands the hub an event, and answers whether it was done.
pub fn hand<O: Observer>(hub: &mut Hub, observer: &mut O, event: Event) -> bool
    ensures hands { MovesBy (Hands (event_of event)) hub.old hub.new }
    ensures done { result ≡ true → MovesBy (IsDone (event_of event)) hub.old hub.new }
{
    step(hub, observer, &event).is_ok()
}

/// Forgets what lies more than so many revisions before the current one, where that raises the compacted number.
pub fn compact<O: Observer>(hub: &mut Hub, observer: &mut O, keep: u64)
    ensures { MovesBy (Compacts keep) hub.old hub.new }
{
    let Ok((current, compacted)) = hub.marks() else {
        return;
    };
    let revision = current.saturating_sub(keep);
    if compacted < revision {
        hand(hub, observer, Event::Compact(revision));
    }
}
