//! Informers that catch up over connections that rows dial, and what they ask for it. The connections are those of `mirrors`.
//!
//! `sync LEAST TURNS REPLIES|REPLIES`: how it ends, how often the dialer was told that a reply was given up, and what was
//! asked; then what stands.

use crate::cached::By;
use crate::informers::mirrors::server_of;
use crate::informers::playing::expect_rows;
use crate::rows::{first_word, number};
use mirroring::{MirrorFault, sync};
use reflector::Informer;
use std::alloc::Global;
use std::test::Fail;

/// How catching up ends, how often the dialer was told that a reply was given up, and what was asked.
pub fn synced(alloc: Global, informer: &mut Informer<By>, words: &str) -> Result<String, Fail> {
    let (least, words) = first_word(words);
    let (turns, words) = first_word(words);
    let mut server = server_of(alloc, words)?;
    let done = sync(alloc, &mut server, informer, number(least)?, number(turns)?);
    let end = match &done {
        Ok(true) => "there",
        Ok(false) => "not there",
        Err(MirrorFault::Dial(_)) => "no connection",
        Err(_) => "another fault",
    };
    Ok(format!(in alloc; "{end}, {} given up:{}; ", server.times, server.targets)?)
}

const EXAMPLES: &str =
    r#"lists_are_whole_with_the_last_page: a list in two pages is whole with the second, and no more is asked; where the turns end between them, the next ones go on
sync 0 9 page 6 6.default.w2 w1@2 w2@3|page 6 - w3@4|watch => there, 0 given up: /widgets?limit=2 /widgets?limit=2&continue=6.default.w2; (Some(6), 3, 3) +w1 +w2 +w3
restart => (None, 0, 0)
sync 0 2 page 6 6.default.w2 w1@2 w2@3|page 6 - w3@4|watch => there, 0 given up: /widgets?limit=2 /widgets?limit=2&continue=6.default.w2; (Some(6), 3, 3) +w1 +w2 +w3
restart => (None, 0, 0)
sync 0 1 page 6 6.default.w2 w1@2 w2@3|page 6 - w3@4|watch => not there, 0 given up: /widgets?limit=2; (None, 0, 0)
sync 0 1 page 6 - w3@4 => there, 0 given up: /widgets?limit=2&continue=6.default.w2; (Some(6), 3, 3) +w1 +w2 +w3
sync 0 1 page 7 - w3@7 => there, 0 given up:; (Some(6), 3, 3)
sync 7 0 page 7 - w3@7 => not there, 0 given up:; (Some(6), 3, 3)

cut_lists_begin_again: a list that is cut begins again, and so does one whose connection was another's
sync 0 9 page 6 t w1@2 w2@3|bytes HTTP/1.1 200 OK¶Content-Length: 9¶¶{|page 7 - w1@2 => there, 0 given up: /widgets?limit=2 /widgets?limit=2&continue=t /widgets?limit=2; (Some(7), 1, 1) +w1
restart => (None, 0, 0)
ask => /widgets?limit=2
page 6 t w1@2 w2@3 => (None, 0, 0)
ask => /widgets?limit=2&continue=t
sync 0 9 page 6 - w3@4 => there, 0 given up: /widgets?limit=2; (Some(6), 1, 1) +w3

watches_lead_to_the_revision: a watch is followed to the revision and no further, over a cut, and begins again from where it came to
sync 9 9 page 7 - w1@2|watch;line MODIFIED w1@8;half ADDED w2@9|watch;line ADDED w2@9;line ADDED w3@10|status 410 Gone => there, 0 given up: /widgets?limit=2 /widgets?watch=true&resourceVersion=7&allowWatchBookmarks=true /widgets?watch=true&resourceVersion=8&allowWatchBookmarks=true; (Some(9), 2, 2) +w1 *w1 +w2
sync 9 9 status 410 Gone => there, 0 given up:; (Some(9), 2, 2)
sync 12 9 watch;line ADDED w3@10;line BOOKMARK 12;line DELETED w1@13 => there, 0 given up: /widgets?watch=true&resourceVersion=9&allowWatchBookmarks=true; (Some(12), 3, 3) +w3
sync 13 9 watch;line DELETED w1@14 => there, 0 given up: /widgets?watch=true&resourceVersion=12&allowWatchBookmarks=true; (Some(14), 2, 2) -w1
sync 16 9 watch;line MODIFIED w2@15 => no connection, 0 given up: /widgets?watch=true&resourceVersion=14&allowWatchBookmarks=true /widgets?watch=true&resourceVersion=15&allowWatchBookmarks=true; (Some(15), 2, 2) *w2

refusals_are_told: the dialer is told of each refusal; the objects are kept until a list is whole, and where the turns end it isn't there
sync 0 2 status 503 Service Unavailable|status 503 Service Unavailable|page 9 - w1@2 => not there, 2 given up: /widgets?limit=2 /widgets?limit=2; (None, 0, 0)
sync 0 9 page 9 - w1@2 => there, 0 given up: /widgets?limit=2; (Some(9), 1, 1) +w1
sync 12 2 status 410 Gone|status 503 Service Unavailable|page 12 - w2@12 => not there, 2 given up: /widgets?watch=true&resourceVersion=9&allowWatchBookmarks=true /widgets?limit=2; (Some(9), 1, 1)
sync 12 1 page 12 - w2@12 => there, 0 given up: /widgets?limit=2; (Some(12), 1, 1) -w1 +w2

pages_that_are_too_long_are_given_up: a page that is longer than a client takes is given up with its head, as often as it comes; one that is as long as it may be is read on, until it is cut
sync 0 3 bytes HTTP/1.1 200 OK¶Content-Length: 1073741825¶¶{|bytes HTTP/1.1 200 OK¶Content-Length: 1073741825¶¶{|bytes HTTP/1.1 200 OK¶Content-Length: 1073741825¶¶{|page 6 - w1@2 => not there, 3 given up: /widgets?limit=2 /widgets?limit=2 /widgets?limit=2; (None, 0, 0)
sync 0 2 bytes HTTP/1.1 200 OK¶Content-Length: 1073741824¶¶{|page 6 - w1@2 => there, 0 given up: /widgets?limit=2 /widgets?limit=2; (Some(6), 1, 1) +w1

pages_that_are_not_unicode_are_given_up: a page whose texts aren't Unicode is given up
sync 0 1 body {"apiVersion":"demo.example/v1","items":[{"apiVersion":"demo.example/v1","kind":"Widget","metadata":{"annotations":{"a":"\ud800"},"name":"w1","namespace":"default","resourceVersion":"2"}}],"kind":"WidgetList","metadata":{"resourceVersion":"2"}} => not there, 1 given up: /widgets?limit=2; (None, 0, 0)
sync 0 1 body {"apiVersion":"demo.example/v1","items":[{"apiVersion":"demo.example/v1","kind":"Widget","metadata":{"annotations":{"a":"\ud83d\ude00"},"name":"w1","namespace":"default","resourceVersion":"2"}}],"kind":"WidgetList","metadata":{"resourceVersion":"2"}} => there, 0 given up: /widgets?limit=2; (Some(2), 1, 1) +w1

lists_below_the_revision_are_not_enough: a list below the revision that is wanted isn't enough: the watch behind it has to lead there
sync 7 1 page 6 - w1@2|watch;line BOOKMARK 7 => not there, 0 given up: /widgets?limit=2; (Some(6), 1, 1) +w1
sync 7 1 watch;line BOOKMARK 7 => there, 0 given up: /widgets?watch=true&resourceVersion=6&allowWatchBookmarks=true; (Some(7), 1, 1)"#;

#[test]
fn examples(rt: HostRuntime) -> Result<(), Fail> {
    for example in EXAMPLES.split("\n\n") {
        expect_rows(rt.alloc(), "", example)?;
    }
    Ok(())
}
