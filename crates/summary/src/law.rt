//! Laws: what notices make of the counts. The calls that count them stand in `summary`.

ghost use Rattle.std.specs.Prelude.{◌≡◌, ℕ, Bool, List};
ghost use Rattle.std.specs.FinMap as fin;
ghost use Rattle.indexer.specs.Objects.{Stored};
ghost use Rattle.decoder.specs.Wanted.{Wanted};
ghost use Rattle.reflector.specs.Client.{Client, Notice, Objects, kept};
ghost use Rattle.reflector.specs.EventLaws.{Event, start};
ghost use Rattle.reflector.specs.FollowsLaws.{Server};
ghost use Rattle.reflector.specs.ReplayLaws.{OldSidesMatch, OldSideMatches, LeadFrom, NotifiesSince, replayed, with_notice};
ghost use Rattle.summary.specs.Counts.{count, counted, counted_all, counts_of, how_many, some_if_any};
ghost use Rattle.summary.specs.RunLaws.{AllCounted};

/// What is counted of objects by any test, as by a value of a label or by the label: of no objects there are none, and
/// a notice whose old side is what stood there adds its new side and takes the old one away. The counts by value have
/// just the values that some object has, each with its count.
pub fn counts_follow()
    ensures none { (test : Stored → Bool) → how_many test fin.empty ≡ 0 }
    ensures one { (test : Stored → Bool) (o : Objects) (n : Notice) → OldSideMatches o n → how_many test (with_notice o n) ≡ counted test (how_many test o) n }
    ensures by_value { (label value : List ℕ) (o : Objects) → fin.get (counts_of label o) value ≡ some_if_any (count label value o) }
{}

/// Counted notice by notice, the counts are those of the objects after the notices (`all`); so of what a client keeps,
/// by its waiting notices (`waiting`), or by those that came with some items (`since`); and over any run of events,
/// whatever the server answers, by the notices each time that they are taken (`runs`).
pub fn counts_those_kept()
    ensures all { (test : Stored → Bool) (o : Objects) (ns : List Notice) → OldSidesMatch o ns → counted_all test (how_many test o) ns ≡ how_many test (replayed o ns) }
    ensures waiting { (test : Stored → Bool) (o : Objects) (c : Client) → LeadFrom o c → counted_all test (how_many test o) c.notices ≡ how_many test (kept c.cache) }
    ensures since { (test : Stored → Bool) (wanted : Wanted) (before now : Client) (emitted : NotifiesSince wanted before now) → counted_all test (how_many test (kept before.cache)) emitted.since ≡ how_many test (kept now.cache) }
    ensures runs { (test : Stored → Bool) (wanted : Wanted) (server : Server) (events : List Event) → AllCounted test wanted (start server) 0 events }
{}
