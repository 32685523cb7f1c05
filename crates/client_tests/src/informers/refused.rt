//! Settings that are refused, and replies that are refused memory; and what is fed or cut before a request, or forgotten by a restart.

use crate::informers::playing::{expect_rows, informer};
use crate::rows::{expect_text, in_words};
use std::alloc::Global;
use std::mem;
use std::test::Fail;

#[test]
fn nothing_asked_nothing_changed(rt: HostRuntime) -> Result<(), Fail> {
    let rows = "nothing_asked_nothing_changed\n\
        page 6 - w1@2 => (None, 0, 0)\n\
        cut => (None, 0, 0)\n\
        why cut <- cut => None\n\
        why ask;status 503 Service Unavailable <- restart => None\n";
    expect_rows(rt.alloc(), "", rows)
}

/// Out of memory, what stands is as after the last whole line, and a list tells what the watch would have told.
#[test]
fn a_piece_that_is_refused_memory_is_given_up(rt: HostRuntime) -> Result<(), Fail> {
    let rows = "a_piece_that_is_refused_memory_is_given_up\n\
        ask => /widgets?limit=2\n\
        page 2 - w1@2 => (Some(2), 1, 1) +w1\n\
        ask => /widgets?watch=true&resourceVersion=2&allowWatchBookmarks=true\n\
        watch => (Some(2), 1, 1)\n\
        marked (Some(2), 1, 1) w1@2|(Some(3), 1, 1) w1@3|(Some(4), 2, 2) w1@3 w2@4: line MODIFIED w1@3;line ADDED w2@4,web <- page 4 - w1@3 w2@4,web => (Some(4), 2, 2) *w1 +w2 w1@3 w2@4\n\
        counts => {\"web\": 1}\n";
    expect_rows(rt.alloc(), "", rows)
}

/// Out of memory, the list begins again; until its last page is whole what stood before it stays.
#[test]
fn a_page_that_is_refused_memory_is_given_up(rt: HostRuntime) -> Result<(), Fail> {
    let rows = "a_page_that_is_refused_memory_is_given_up\n\
        ask => /widgets?limit=2\n\
        marked (None, 0, 0): page 6 6.default.w2 w1@2 w2@3 <- page 6 6.default.w2 w1@2 w2@3 => (None, 0, 0)\n\
        ask => /widgets?limit=2&continue=6.default.w2\n\
        marked (None, 0, 0): page 6 6.default.w4 w3@4 w4@5 <- page 6 6.default.w2 w1@2 w2@3;ask;page 6 6.default.w4 w3@4 w4@5 => (None, 0, 0)\n\
        ask => /widgets?limit=2&continue=6.default.w4\n\
        marked (None, 0, 0): page 6 - w5@6 <- page 6 6.default.w2 w1@2 w2@3;ask;page 6 6.default.w4 w3@4 w4@5;ask;page 6 - w5@6 => (Some(6), 5, 5) +w1 +w2 +w3 +w4 +w5 w1@2 w2@3 w3@4 w4@5 w5@6\n\
        ask => /widgets?watch=true&resourceVersion=6&allowWatchBookmarks=true\n\
        status 410 Gone => (Some(6), 5, 5)\n\
        ask => /widgets?limit=2\n\
        marked (Some(6), 5, 5) w1@2 w2@3 w3@4 w4@5 w5@6: page 8 8.default.w2 w1@2 w2@3 <- page 8 8.default.w2 w1@2 w2@3 => (Some(6), 5, 5) w1@2 w2@3 w3@4 w4@5 w5@6\n\
        ask => /widgets?limit=2&continue=8.default.w2\n\
        marked (Some(6), 5, 5) w1@2 w2@3 w3@4 w4@5 w5@6: page 8 8.default.w4 w3@4 w4@5 <- page 8 8.default.w2 w1@2 w2@3;ask;page 8 8.default.w4 w3@4 w4@5 => (Some(6), 5, 5) w1@2 w2@3 w3@4 w4@5 w5@6\n\
        ask => /widgets?limit=2&continue=8.default.w4\n\
        marked (Some(6), 5, 5) w1@2 w2@3 w3@4 w4@5 w5@6: page 8 - w5@8 <- page 8 8.default.w2 w1@2 w2@3;ask;page 8 8.default.w4 w3@4 w4@5;ask;page 8 - w5@8 => (Some(8), 5, 5) *w5 w1@2 w2@3 w3@4 w4@5 w5@8\n";
    expect_rows(rt.alloc(), "", rows)
}

#[test]
fn settings_are_refused(rt: HostRuntime) -> Result<(), Fail> {
    let alloc = rt.alloc();
    expect_refused(alloc, 0, None, "Page")?;
    let namespace = Some(String::from_str(alloc, "Default")?);
    expect_refused(alloc, 1, namespace, "Namespace")
}

fn expect_refused(
    alloc: Global,
    page: u32,
    namespace: Option<String>,
    wanted: &str,
) -> Result<(), Fail> {
    match informer(alloc, page, namespace, "")? {
        Ok(made) => {
            mem::forget(made);
            Err("settings aren't refused".into())
        }
        Err(fault) => expect_text(in_words(alloc, fault)?, wanted),
    }
}
