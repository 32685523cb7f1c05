//! Laws of calls (the step of a machine); those of paths stand in `api_request`. Each function does nothing; what it promises is
//! the law.

ghost use Rattle.verbs.specs.PromiseLaws.{AppliesKeepOthers, BodiesSayStates, CallsChangeOneObject, CallsKeepMachines, CompactionsKeepMachines, DocumentsOfTypes, ErrorsAreRefusals, GetsChangeNothing, MachinesBegin, ManagersOwnTheirSides, NoDocuments, PlansAreShort, PlansByViews, PlansComeNext, RefusalsChangeNothing, RetypingsCarryObjects, RetypingsKeepMachines, RetypingsLeaveTexts, SameTypesChangeNothing, StoredTextsDecode, StepsKeepMachines, TextsSayStates, UpdatesTakeChanges, WritesLeaveOtherSide, DryRunsChangeNothing, OthersAreRun};

/// A machine begins without a change. What a call plans may come next, and a text in it is no longer than an object may
/// be; a machine stays one over each call, over calls one after the other, and over a compaction.
pub fn machines_stay()
    ensures begins { MachinesBegin }
    ensures next { PlansComeNext }
    ensures short { PlansAreShort }
    ensures stays { StepsKeepMachines }
    ensures calls { CallsKeepMachines }
    ensures compacts { CompactionsKeepMachines }
{}

/// The plan of a call depends on the view of the history alone.
pub fn plans_by_views()
    ensures { PlansByViews }
{}

/// Each text that stands at a revision is that of one state, the one that is read of it under the schema of its time,
/// and so is each change's. What stands now is the text of the state that a call starts from.
pub fn texts_say_states()
    ensures revisions { TextsSayStates }
    ensures changes { BodiesSayStates }
    ensures represents { StoredTextsDecode }
{}

/// An apply without force changes no field that another manager owns.
pub fn applies_keep_others()
    ensures { AppliesKeepOthers }
{}

/// An update takes from other managers only what it changes.
pub fn updates_take_changes()
    ensures { UpdatesTakeChanges }
{}

/// Where a type's status is apart, it is written by the subresource `status` alone, and that writes nothing else: a PATCH and a PUT leave
/// the values and the owners of what they don't write, and each manager owns only what its subresource writes.
pub fn status_is_apart()
    ensures leaves { WritesLeaveOtherSide }
    ensures sides { ManagersOwnTheirSides }
{}

/// A refused call and a GET change nothing; any other call changes one object at most, the one that it is of.
pub fn calls_change_one_object()
    ensures refusals { RefusalsChangeNothing }
    ensures gets { GetsChangeNothing }
    ensures one { CallsChangeOneObject }
{}

/// A dry run changes nothing; any other call comes to what its checks plan.
pub fn dry_runs_change_nothing()
    ensures dry { DryRunsChangeNothing }
    ensures others { OthersAreRun }
{}

/// The error that ends a watch has the Status with which a list of the same revision is refused.
pub fn errors_are_refusals()
    ensures { ErrorsAreRefusals }
{}

/// Where other types are served from here on the machine is one of theirs. Each object is carried to its new type; one whose
/// text stays keeps its revision, and under the same types nothing changes.
pub fn other_types_carry()
    ensures keep { RetypingsKeepMachines }
    ensures carry { RetypingsCarryObjects }
    ensures stay { RetypingsLeaveTexts }
    ensures same { SameTypesChangeNothing }
{}

/// A document of discovery is a function of the types as they are at the moment. Where they aren't discovered, there is none:
/// a call that names no objects is refused, as if there were no discovery.
pub fn documents_tell_types()
    ensures types { DocumentsOfTypes }
    ensures none { NoDocuments }
{}
