//! Laws of the client run, which crates above build on. Each function does nothing; what it promises is the law. The
//! calls on a client stand in `informer`.

ghost use Rattle.std.specs.Prelude.{◌≡◌, ◌≤◌, ℕ, true, List, [], ◌++◌, None, Some, is_some};
ghost use Rattle.std.specs.FinMap as fin;
ghost use Rattle.wireclient.specs.Reply.{ReplyItem};
ghost use Rattle.decoder.specs.Wanted.{Wanted};
ghost use Rattle.reflector.specs.Client.{Client, Objects, first, streaming, fresh, kept, max_objects};
ghost use Rattle.reflector.specs.Run.{relisting, asked, closed, receives, receives_all, restarted, taken};
ghost use Rattle.reflector.specs.RelistReasons.{item_reason, relist_reason_after};
ghost use Rattle.reflector.specs.FollowsLaws.{Server, IsReplyTo, Follows, FollowsFrom, IsLater, IsWatchReply};
ghost use Rattle.reflector.specs.ListLaws.{ArePages, answered};
ghost use Rattle.reflector.specs.FittingLaws.{AreFitting, revision_after_all};
ghost use Rattle.reflector.specs.EventLaws.{AllLead, AreLawful, CachesMatch, Event, start};
ghost use Rattle.reflector.specs.ReplayLaws.{AreUnderKey, AllMatchTheirTexts, LeadFrom, Notifies, NotifiesSince};

/// Whatever comes of a server's answers, and whatever else happens, the client's objects are the server's at the
/// revision that it reports, and that revision never falls. So it is after any of the items, in whichever parts
/// (`received`). So it is after a request, if what then comes is its answer (`asked`); after a cut, a call that was out of
/// memory, or a restart, whatever was still to come; and after the server has changed (`later`). Where all items of a
/// watch fit, the objects at the end are those to which they lead (`reached`).
pub fn follows_the_server()
    ensures received { (server : Server) (wanted : Wanted) (m : ℕ) (c : Client) (xs ys : List ReplyItem) (p : ℕ) → Follows server wanted m c (xs ++ ys) p → FollowsFrom server wanted m (receives_all wanted c xs) ys p }
    ensures asked { (server : Server) (wanted : Wanted) (m : ℕ) (c : Client) (xs ys : List ReplyItem) (p q : ℕ) → Follows server wanted m c xs p → IsReplyTo server wanted m c.sync c.cache ys q → Follows server wanted m (asked c) ys q }
    ensures closed { (server : Server) (wanted : Wanted) (m : ℕ) (c : Client) (xs ys : List ReplyItem) (p q : ℕ) → Follows server wanted m c xs p → Follows server wanted m (closed c) ys q }
    ensures given_up { (server : Server) (wanted : Wanted) (m : ℕ) (c : Client) (xs ys : List ReplyItem) (p q : ℕ) → Follows server wanted m c xs p → Follows server wanted m (relisting c) ys q }
    ensures restarted { (server : Server) (wanted : Wanted) (m : ℕ) (c : Client) (ys : List ReplyItem) (q : ℕ) → m ≤ server.top → Follows server wanted m (restarted c) ys q }
    ensures taken { (server : Server) (wanted : Wanted) (m : ℕ) (c : Client) (xs : List ReplyItem) (p : ℕ) → Follows server wanted m c xs p → Follows server wanted m (taken c) xs p }
    ensures later { (server later : Server) (wanted : Wanted) (m : ℕ) (c : Client) (xs : List ReplyItem) (p : ℕ) → IsLater server later → Follows server wanted m c xs p → Follows later wanted m c xs p }
    ensures written { (server : Server) (wanted : Wanted) (r p q : ℕ) (xs ys : List ReplyItem) → IsWatchReply server wanted r xs p → IsWatchReply server wanted p ys q → IsWatchReply server wanted r (xs ++ ys) q }
    ensures reached { (server : Server) (wanted : Wanted) (m : ℕ) (c : Client) (xs : List ReplyItem) (p : ℕ) → Follows server wanted m c xs p → c.sync ≡ streaming → (receives_all wanted c xs).is_awaiting_reply ≡ true → kept (receives_all wanted c xs).cache ≡ server.at p }
{}

/// After each event of any run, what the client keeps is the server's objects at the revision that it reports. The server
/// has that revision, and it is not below any that the client reported before, also over restarts. The server answers
/// what is asked and keeps what it had. Events are requests, items received, more of a watch, cuts, calls that are out of
/// memory, restarts, notices taken, and changes of the server.
pub fn mirrors_the_server()
    ensures { (wanted : Wanted) (server : Server) (events : List Event) → AreLawful wanted (start server) events → CachesMatch wanted (start server) events }
{}

/// The pages of a list of these objects at r, each the answer to a request of its own, leave a client with the
/// objects at r.
pub fn takes_whole_lists()
    ensures { (wanted : Wanted) (c : Client) (o : Objects) (r : ℕ) (bodies : List (List ℕ)) → c.sync ≡ first → ArePages wanted o r [] bodies → fin.len o ≤ max_objects → (answered wanted c bodies).cache ≡ Some (record { revision = r; objects = o }) }
{}

/// Items of a watch that fit are taken, all of them, where there is room for the server's objects at each revision: the
/// client still asks, and has the objects to which they lead, at the last revision that they tell.
pub fn takes_fitting_items()
    ensures { (server : Server) (wanted : Wanted) (m : ℕ) (c : Client) (xs : List ReplyItem) (p : ℕ) → Follows server wanted m c xs p → c.sync ≡ streaming → c.is_awaiting_reply ≡ true → AreFitting wanted xs
        → ((r : ℕ) → r ≤ server.top → fin.len (server.at r) ≤ max_objects)
        → ((receives_all wanted c xs).is_awaiting_reply ≡ true) × ((receives_all wanted c xs).cache ≡ Some (record { revision = revision_after_all wanted m xs; objects = server.at p })) }
{}

/// The notices that came with the items, replayed on the objects before them, give the objects after them: the same
/// text at each place.
pub fn notices_replay()
    ensures received { (wanted : Wanted) (c : Client) (xs : List ReplyItem) → AreUnderKey (kept c.cache) → Notifies c (receives_all wanted c xs) }
    ensures fresh { AreUnderKey (kept fresh.cache) }
{}

/// The notices that came with the items, replayed on the objects before them, are the objects after them, whole, and
/// each one's old side is what stood at its place (`received`). That asks that what the client keeps and has set aside was
/// read from the objects' texts, which holds at the start (`fresh`), after items, and after all else that happens to it.
/// So the waiting notices lead from the objects of the last time that they were taken, or of the start, to those of now
/// (`waiting`); a request, the connection's end or giving up change neither notices nor objects.
pub fn notices_replay_exactly()
    ensures received { (wanted : Wanted) (c : Client) (xs : List ReplyItem) → AllMatchTheirTexts wanted c → NotifiesSince wanted c (receives_all wanted c xs) }
    ensures waiting { (wanted : Wanted) (o : Objects) (c : Client) (xs : List ReplyItem) → AllMatchTheirTexts wanted c → LeadFrom o c → LeadFrom o (receives_all wanted c xs) }
    ensures fresh { (wanted : Wanted) → AllMatchTheirTexts wanted fresh × LeadFrom (kept fresh.cache) fresh }
    ensures asked { (wanted : Wanted) (o : Objects) (c : Client) → AllMatchTheirTexts wanted c → LeadFrom o c → AllMatchTheirTexts wanted (asked c) × LeadFrom o (asked c) }
    ensures closed { (wanted : Wanted) (o : Objects) (c : Client) → AllMatchTheirTexts wanted c → LeadFrom o c → AllMatchTheirTexts wanted (closed c) × LeadFrom o (closed c) }
    ensures given_up { (wanted : Wanted) (o : Objects) (c : Client) → AllMatchTheirTexts wanted c → LeadFrom o c → AllMatchTheirTexts wanted (relisting c) × LeadFrom o (relisting c) }
    ensures taken { (wanted : Wanted) (c : Client) → AllMatchTheirTexts wanted c → AllMatchTheirTexts wanted (taken c) × LeadFrom (kept c.cache) (taken c) }
{}

/// Over any run of events, whatever the server answers: after each of them the notices that wait, replayed on the
/// objects of the last time that they were taken (of the start or the last restart: on none), are the objects that the
/// client keeps, and each one's old side is what stood at its place.
pub fn notices_lead_on()
    ensures { (wanted : Wanted) (server : Server) (events : List Event) → AllLead wanted (start server) fin.empty events }
{}

/// A client gives a reply up at an item with which something is wrong (`gives_up`), and at no other (`gave_up`); so there
/// is no such reason while more of the reply is awaited (`none_yet`).
pub fn relist_reasons_are_exact()
    ensures gives_up { (wanted : Wanted) (c : Client) (x : ReplyItem) → c.is_awaiting_reply ≡ true → is_some (item_reason wanted c.cache c.sync x) ≡ true → receives wanted c x ≡ relisting c }
    ensures gave_up { (wanted : Wanted) (c : Client) (x : ReplyItem) → c.is_awaiting_reply ≡ true → receives wanted c x ≡ relisting c → is_some (item_reason wanted c.cache c.sync x) ≡ true }
    ensures none_yet { (wanted : Wanted) (c : Client) (xs : List ReplyItem) → (receives_all wanted c xs).is_awaiting_reply ≡ true → relist_reason_after wanted c None xs ≡ None }
{}
