//! The laws of paths; those of calls stand in the crate `verbs`. A function does nothing; what it promises is the law.

ghost use Rattle.api_request.specs.RouteLaws.{DocumentsLeavePlaces, OnlyObjects, PathsOfAll, PathsOfCollections, PathsOfObjects, PathsOfStatus};

/// A path leads where its parts between slashes say: to all objects of a type, to those in a namespace, to one, or to
/// its status, where the objects of the type have one.
pub fn paths_lead_by_parts()
    ensures all { PathsOfAll }
    ensures collections { PathsOfCollections }
    ensures objects { PathsOfObjects }
    ensures status { PathsOfStatus }
{}

/// Discovered types have the places that they have else, and beside them documents; without discovery there are only places.
pub fn documents_leave_places()
    ensures places { DocumentsLeavePlaces }
    ensures objects { OnlyObjects }
{}
