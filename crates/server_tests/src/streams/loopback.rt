//! Connections over loopback, within this process, one after another: each has sent its request before it is served.
//! Many at once are tested in `polled_loopback`, streams that fail in `turns`.

use crate::given::{WIDGET_TYPES, fresh_api};
use crate::streams::given::{
    ADDED, APPLY, BEFORE, CREATED, EXPIRED, End, HALF, NO_ITEMS, OVERTAKEN, WATCH, expect_received,
    sent,
};
use observing::Unobserved;
use serving::{Limits, Server, serve_all};
use std::mem;
use std::net::{Ipv4Addr, SocketAddr, TcpListener, TcpStream};
use std::test::Fail;

fn serve_one(
    rt: &HostRuntime,
    listener: &TcpListener,
    server: &mut Server<TcpStream>,
) -> Result<(), Fail> {
    Ok(serve_all(rt, &mut Unobserved, listener, server, 1)?)
}

/// A connection that has sent this, once it was served.
fn served(
    rt: &HostRuntime,
    listener: &TcpListener,
    server: &mut Server<TcpStream>,
    text: &str,
) -> Result<TcpStream, Fail> {
    let stream = sent(rt, listener.local_addr()?, text)?;
    serve_one(rt, listener, server)?;
    Ok(stream)
}

/// The test fails unless a connection that has sent this gets just that.
fn gets(
    rt: &HostRuntime,
    listener: &TcpListener,
    server: &mut Server<TcpStream>,
    asked: &str,
    wanted: &str,
) -> Result<(), Fail> {
    let stream = served(rt, listener, server, asked)?;
    expect_received(rt.alloc(), &stream, wanted, End::Comes)
}

/// A peer goes in the middle of its request, and one of a watch goes. Another watch gets the first of these, and its end or
/// nothing more, once a change is made while it is open; a list of what was before it gets the second.
fn tried(
    rt: &HostRuntime,
    listener: &TcpListener,
    server: &mut Server<TcpStream>,
    in_words: (&str, End),
    before: &str,
) -> Result<(), Fail> {
    let (watched, end) = in_words;
    drop(sent(rt, listener.local_addr()?, HALF)?);
    serve_one(rt, listener, server)?;
    drop(served(rt, listener, server, WATCH)?);
    let watching = served(rt, listener, server, WATCH)?;
    gets(rt, listener, server, APPLY, CREATED)?;
    gets(rt, listener, server, BEFORE, before)?;
    expect_received(rt.alloc(), &watching, watched, end)
}

/// A server that keeps so many revisions. It is not dropped: a function that drops one takes a minute to prove.
fn kept(rt: &HostRuntime, keep: u64, in_words: (&str, End), before: &str) -> Result<(), Fail> {
    let listener = TcpListener::bind(rt, SocketAddr::from((Ipv4Addr::LOCALHOST, 0)))?;
    let limits = Limits { keep, lines: 500 };
    let mut server = Server::new(rt.alloc(), fresh_api(rt.alloc(), WIDGET_TYPES)?, limits);
    let tried = tried(rt, &listener, &mut server, in_words, before);
    mem::forget(server);
    tried
}

/// Peers that have gone hold up nobody. A watch gets each change; where no revision before the current one is kept, it is told
/// that the change overtook it.
#[test]
fn watch_beside_others(rt: HostRuntime) -> Result<(), Fail> {
    kept(&rt, 1000, (ADDED, End::Stays), NO_ITEMS)?;
    kept(&rt, 0, (OVERTAKEN, End::Comes), EXPIRED)
}
