//! Many connections at once over loopback, within this process, as rows; one after another are tested in `loopback`.
//!
//! | step | what happens |
//! |---|---|
//! | `send TEXT` | a connection opens, and sends this; it is the next one, from 0 |
//! | `close K` | connection K sends no more |
//! | `drop K` | its peer goes, and the next one takes its place |
//! | `turn`, `serve N` | the server has a turn; it has turns until so many connections have ended |
//! | `hear K TEXT` | nothing: K gets this, and its end but where it is a watch |

use crate::given::{WIDGET_TYPES, fresh_api};
use crate::streams::given::{
    ADDED, APPLY, End, HALF, LIST, NO_ITEMS, OVERTAKEN, WATCH, expect_received, sent,
};
use observing::Unobserved;
use polling::{Options, Server};
use std::mem;
use std::net::{Ipv4Addr, Shutdown, SocketAddr, TcpStream};
use std::test::Fail;

/// A text by its name in a row.
fn text_named(name: &str) -> Result<&'static str, Fail> {
    match name {
        "list" => Ok(LIST),
        "half" => Ok(HALF),
        "watch" => Ok(WATCH),
        "apply" => Ok(APPLY),
        "no-items" => Ok(NO_ITEMS),
        "added" => Ok(ADDED),
        "overtaken" => Ok(OVERTAKEN),
        "nothing" => Ok(""),
        _ => Err("no such text".into()),
    }
}

fn step(
    rt: &HostRuntime,
    server: &mut Server,
    streams: &mut Vec<TcpStream>,
    row: &str,
) -> Result<(), Fail> {
    let (word, rest) = row.split_once(' ').unwrap_or((row, ""));
    let (number, name) = rest.split_once(' ').unwrap_or((rest, ""));
    let count = number.parse::<usize>().unwrap_or(0);
    match word {
        "turn" => server.turn(rt, &mut Unobserved)?,
        "serve" => server.serve(rt, &mut Unobserved, count as u64)?,
        "send" => {
            let addr = SocketAddr::from((Ipv4Addr::LOCALHOST, server.port()?));
            streams.push(sent(rt, addr, text_named(rest)?)?)?;
        }
        "drop" if count < streams.len() => drop(streams.remove(count)),
        _ => {
            let stream = streams.get(count).ok_or("no connection")?;
            if word == "close" {
                stream.shutdown(Shutdown::Write)?;
            } else {
                let ends = if name == "added" {
                    End::Stays
                } else {
                    End::Comes
                };
                expect_received(rt.alloc(), stream, text_named(name)?, ends)?;
            }
        }
    }
    Ok(())
}

fn play_rows(rt: &HostRuntime, server: &mut Server, rows: &str) -> Result<(), Fail> {
    let mut streams = Vec::new(rt.alloc());
    for row in rows.lines() {
        step(rt, server, &mut streams, row)?;
    }
    Ok(())
}

/// Plays rows on a fresh server that keeps so many revisions and has this patience, in milliseconds. The server is not dropped:
/// a function that drops one takes a minute to prove.
fn play(rt: &HostRuntime, keep: u64, patience: u64, rows: &str) -> Result<(), Fail> {
    let options = Options {
        port: 0,
        keep,
        lines: 500,
        patience,
        disturbances: None,
    };
    let mut server = Server::listen(rt, fresh_api(rt.alloc(), WIDGET_TYPES)?, options)?;
    let played = play_rows(rt, &mut server, rows);
    mem::forget(server);
    played
}

/// A peer that sends nothing, one that sent half a request and one that went hold up nobody.
const SILENT: &str = "send nothing
send half
send half
drop 2
send list
turn
hear 2 no-items";

/// A watch gets its line while another connection is open and silent, and another watch has gone.
const WATCHING: &str = "send nothing
send watch
drop 1
send watch
turn
send apply
turn
hear 1 added";

/// A watch is told that an apply overtook it, where no revision before the current one is kept.
const OVERTAKING: &str = "send watch
turn
send apply
turn
hear 0 overtaken";

/// Peers that send no more after their requests get their replies, and are counted.
const HALF_CLOSED: &str = "send list
close 0
send list
close 1
serve 2
hear 0 no-items
hear 1 no-items";

/// A peer that is silent before its request is whole is dropped, a quiet watch isn't.
const PATIENCE: &str = "send half
send watch
serve 1
hear 0 nothing
send apply
turn
hear 1 added";

#[test]
fn many_at_once(rt: HostRuntime) -> Result<(), Fail> {
    play(&rt, 1000, 30_000, SILENT)?;
    play(&rt, 1000, 30_000, WATCHING)?;
    play(&rt, 0, 30_000, OVERTAKING)?;
    play(&rt, 1000, 30_000, HALF_CLOSED)?;
    play(&rt, 1000, 1, PATIENCE)
}
