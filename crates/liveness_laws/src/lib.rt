//! What a server and a client can always come to: laws of a schedule, each of whose events is computed of the world where it
//! happens. A function does nothing; what it promises is the law.
//!
//! `specs/Moves` of `world_laws` says what happens next; `specs/Listable` what a list needs to come whole; `specs/Progress` what
//! the schedule leads to, after a restart and without one; `specs/Leading` what it leads to whatever the client was doing;
//! `specs/Telling` what turns of a watch lead to that write few lines each; `specs/BothEnds` what all of these laws stand on.
#![tactic(auto)]

ghost use Rattle.liveness_laws.specs.BothEnds.{BothEnds};
ghost use Rattle.liveness_laws.specs.Leading.{CatchesUp, ListsGoOn, RepliesEnd, WatchesCatchUp, WatchesGoOn};
ghost use Rattle.liveness_laws.specs.Progress.{ExpiredWatchesAreGivenUp, ListsComeAnew, PastListsAreGivenUp, ReportsCanCome};
ghost use Rattle.liveness_laws.specs.Telling.{WatchesTell};

/// What is known of a server, of its client and of the bytes between them, in one: how requests are answered and replies are read,
/// what lasts over any run, and that what the client keeps is right. The laws here, and those of `settling_laws`, stand on it.
pub fn both_ends()
    ensures { BothEnds }
{
    wireclient::one_reading();
    wireclient::prefixes_stand();
    wire_laws::requests_ask();
    wire_laws::lists_are_planned();
    wire_laws::replies_are_read();
    wire_laws::watches_are_read();
    wire_laws::refusals_are_read();
    reflector::follows_the_server();
    verbs::machines_stay();
    httpedge::machines_grow();
    httpedge::machines_last();
    world_laws::pages_are_answered();
    world_laws::tasks_last();
    world_laws::headline();
}

/// From the world after any run, a restart and then the moves of the schedule, at most three for each page of the list, lead to
/// a report of the machine's current revision, and change nothing else: where the list can come whole (`IsListable`), and ids and a
/// connection are left (`HasRoom`).
pub fn reports_can_come()
    ensures { ReportsCanCome }
{
    both_ends();
}

/// From the world after any run in which the client awaits no reply and asks for the first page next, the moves of the schedule
/// lead to the machine's current revision, without a restart, and change nothing else: where the list can come whole, and ids and a
/// connection are left.
pub fn lists_come_anew()
    ensures { ListsComeAnew }
{
    both_ends();
}

/// From the world after any run in which the client is in the middle of a list of another revision than the machine's, between
/// two pages or in one, the moves of the schedule give that list up, and lead to the machine's current revision, without a
/// restart: where the list can come whole, and ids and a connection are left. They change nothing else.
pub fn past_lists_are_given_up()
    ensures { PastListsAreGivenUp }
{
    both_ends();
}

/// From the world after any run in which the client is to watch from a revision that is forgotten, the moves of the schedule lead
/// to a 410, or a 431 where its request is too long, and then to the machine's current revision, without a restart: where the list can
/// come whole, and ids and a connection are left. They change nothing else.
pub fn expired_watches_are_given_up()
    ensures { ExpiredWatchesAreGivenUp }
{
    both_ends();
}

/// From the world after any run in which the client is between two pages of the list that stands now, the moves of the schedule
/// lead to the machine's current revision, without a restart, and change nothing else: where the list can come whole, and ids and a
/// connection are left.
pub fn lists_go_on()
    ensures { ListsGoOn }
{
    both_ends();
}

/// From the world after any run in which the client awaits a page of the list that stands now, of which a part may have come, at
/// most two moves of the schedule end the reply: then it awaits none. They change nothing else.
pub fn replies_end()
    ensures { RepliesEnd }
{
    both_ends();
}

/// From the world after any run in which the client reads a watch, of which any part may be on the way, at most eight moves of the
/// schedule lead to the machine's current revision, or give the watch up. They change nothing else, but that on other peers'
/// watches bookmarks come that were due.
pub fn watches_go_on()
    ensures { WatchesGoOn }
{
    both_ends();
}

/// From the world after any run in which the client is to watch from a revision that isn't forgotten, at most eight moves of the
/// schedule lead to the machine's current revision, or to where the client asks for the first page: it does where its request was too
/// long, where it didn't take a line, and where it has no room for more objects. An id and a connection are left for it. They change
/// nothing else, but that on other peers' watches bookmarks come that were due.
pub fn watches_catch_up()
    ensures { WatchesCatchUp }
{
    both_ends();
}

/// From the world after any run in which the client is to watch from a revision that isn't forgotten, turns of its watch that write
/// at most so many lines each, however few, and their bytes lead to the machine's current revision, or to where the client asks for
/// the first page. An id and a connection are left for it. Nobody writes an object meanwhile, and nothing is cut. They change nothing
/// else, but that on other peers' watches bookmarks come that were due.
pub fn watches_tell()
    ensures { WatchesTell }
{
    both_ends();
}

/// From the world after any run, whatever the client was doing in it, the moves of the schedule lead to the machine's current
/// revision and to its objects of it, without a restart: at most three for each page of the list, and twenty; where the list can come
/// whole (`IsListable`), and ids are left and others leave a connection (`OthersLeaveRoom`). The machine stays as it is, and so does
/// each other peer's connection, but for bookmarks that were due.
pub fn catches_up()
    ensures { CatchesUp }
{
    both_ends();
    past_lists_are_given_up();
    expired_watches_are_given_up();
    lists_go_on();
    replies_end();
    watches_go_on();
    watches_catch_up();
}
