//! What a controller comes to that counts labels and applies the counts: laws of its events. A function does nothing; what it
//! promises is the law.
//!
//! `specs/SummaryType` says which type its objects are of; `specs/Said` what an object says of counts; `specs/Applying` what an
//! apply of them makes of a machine; `specs/Settling` what a Reconcile leads to, and another after it;
//! `specs/Rest` that it then stays so; `specs/Resting` that catching up and reconciling leads there.
#![tactic(auto)]

ghost use Rattle.settling_laws.specs.SummaryType.{SummariesCanBeServed};
ghost use Rattle.settling_laws.specs.Applying.{AppliesAsk, AppliesStay, ReconcilesApply};
ghost use Rattle.settling_laws.specs.Said.{AppliedStay};
ghost use Rattle.settling_laws.specs.Rest.{RestLasts, RestStays, SettledRests};
ghost use Rattle.settling_laws.specs.Resting.{ComesToRest, ComesToRestInSteps};
ghost use Rattle.settling_laws.specs.Settling.{SettledStays, Settles};

/// A types file can declare the type of summaries, as the pages print it.
pub fn summaries_can_be_served()
    ensures { SummariesCanBeServed }
{}

/// The bytes by which a controller applies its counts ask an apply of them: where the type is served, the object's name is one that an
/// object may have, the counts are texts and numbers of 64 bits, and they fit into a body.
pub fn applies_ask()
    ensures { AppliesAsk }
{
    wire_laws::requests_ask();
}

/// An apply of counts, whatever stood there and whoever owned it, leads to an object that says them, and leaves every other object as
/// it was: where the type is served as it is printed, the object with the counts is within an object's limits, and a revision is left.
pub fn reconciles_apply()
    ensures { ReconcilesApply }
{}

/// Where the object is already what an apply of the counts makes of it, the apply changes nothing; so it is after one.
pub fn applies_stay()
    ensures stays { AppliesStay }
    ensures again { AppliedStay }
{}

/// From the world after any run in which the client has the machine's revision, a Reconcile leads to an object that says the counts of
/// the objects of that revision: where the type is served as it is printed, the label and what stands are texts, the counts fit into a
/// body and the object into its limits, and a revision and a connection are left (`CanReconcile`).
pub fn settles()
    ensures { Settles }
{
    applies_ask();
    reconciles_apply();
    liveness_laws::both_ends();
}

/// Rest is a state of the world: where the client has the machine's revision, and the object is already what an apply of its counts
/// makes of it (`IsAtRest`), a Reconcile changes nothing (`stays`). It lasts, whatever else happens, while what is counted and the object
/// stand as they did and the client has caught up (`lasts`).
pub fn rest_stays()
    ensures stays { RestStays }
    ensures lasts { RestLasts }
{
    applies_ask();
    applies_stay();
    liveness_laws::both_ends();
}

/// After such a Reconcile, once the client has caught up, the world is at rest (`rests`), so another changes nothing (`stays`): where the
/// object isn't of the type that is counted, and meanwhile nobody changed it or what is counted.
pub fn settled_stays()
    ensures rests { SettledRests }
    ensures stays { SettledStays }
{
    applies_stay();
    rest_stays();
    settles();
    world_laws::one_world();
    liveness_laws::both_ends();
}

/// From the world after any run, whatever happened in it, catching up, a Reconcile and catching up come to rest, where another Reconcile
/// changes nothing: nobody else acts meanwhile, and all that is needed is said of that world (`whole`, `CanComeToRest`). Step by step each
/// needs what is said of the world where it happens (`steps`).
pub fn comes_to_rest()
    ensures steps { ComesToRestInSteps }
    ensures whole { ComesToRest }
{
    settles();
    settled_stays();
    liveness_laws::catches_up();
}
