//! A client over loopback, within this process, of a server that serves one connection after another: each connection that
//! it dials is served before its reply is read, and then what others write. Replies by hand are told in `client_tests`.

use crate::given::{WIDGET_TYPES, fresh_api, types_of};
use crate::streams::given::APPLY;
use mirror_program::{Loopback, MirrorOptions, print_changes};
use mirroring::Dial;
use observing::Unobserved;
use programs::Resource;
use reflector::RelistReason;
use serving::{Limits, Server, serve_all};
use std::io::Write;
use std::net::{Ipv4Addr, SocketAddr, TcpListener, TcpStream};
use std::test::Fail;
use std::time::Duration;
use std::{io, mem};

/// How many milliseconds a watch may be quiet before it is cut.
const QUIET: u64 = 50;

const DELETE: &str =
    "DELETE /apis/demo.example/v1/namespaces/default/widgets/w1 HTTP/1.1\r\nHost: localhost\r\n\r\n";

/// Dials the listener, whose server then serves the connection, and another one with the next of these writes, if it is one.
#[derive(Drop)]
struct Beside<'a> {
    rt: &'a HostRuntime,
    dialer: Loopback<'a, HostRuntime>,
    listener: &'a TcpListener,
    server: &'a mut Server<TcpStream>,
    writes: &'a [Option<&'a str>],
}

impl<'a> Beside<'a> {
    /// Another connection writes, and is served.
    fn write(&mut self, text: &str) -> io::Result<()> {
        let mut writer = TcpStream::connect(self.rt, self.listener.local_addr()?)?;
        writer.write_all(text.as_bytes())?;
        serve_all(self.rt, &mut Unobserved, self.listener, self.server, 1)
    }
}

impl<'a> Dial for Beside<'a> {
    type Reader = TcpStream;

    fn dial(&mut self, request: &[u8]) -> io::Result<TcpStream> {
        let stream = self.dialer.dial(request)?;
        stream.set_read_timeout(Some(Duration::from_millis(QUIET)))?;
        serve_all(self.rt, &mut Unobserved, self.listener, self.server, 1)?;
        let [due, later @ ..] = self.writes else {
            return Ok(stream);
        };
        self.writes = later;
        if let Some(text) = due {
            self.write(text)?;
        }
        Ok(stream)
    }

    fn given_up(&mut self, relist_reason: RelistReason) {
        self.dialer.given_up(relist_reason);
    }
}

/// All widgets, over three connections to this port.
fn all_widgets<'a>(port: u16) -> MirrorOptions<'a> {
    MirrorOptions {
        types: "types.json",
        port,
        resource: Resource {
            group: "demo.example",
            version: "v1",
            plural: "widgets",
        },
        namespace: None,
        selector: "",
        page: 500,
        turns: 3,
    }
}

/// What is printed of a list and two watches, beside which a widget is applied and deleted.
fn printed(
    rt: &HostRuntime,
    listener: &TcpListener,
    server: &mut Server<TcpStream>,
) -> Result<Vec<u8>, Fail> {
    let port = listener.local_addr()?.port();
    let types = types_of(rt.alloc(), WIDGET_TYPES)?;
    let mut dialer = Beside {
        rt,
        dialer: Loopback::new(rt, port),
        listener,
        server,
        writes: &[None, Some(APPLY), Some(DELETE)],
    };
    let mut out = Vec::new(rt.alloc());
    let done = print_changes(
        rt.alloc(),
        &types,
        &all_widgets(port),
        &mut dialer,
        &mut out,
    );
    done.map_err(|_| "the mirror ended")?;
    Ok(out)
}

/// A mirror prints the first list's revision, and what is made and deleted beside its watches.
#[test]
fn mirror_beside_writes(rt: HostRuntime) -> Result<(), Fail> {
    let listener = TcpListener::bind(&rt, SocketAddr::from((Ipv4Addr::LOCALHOST, 0)))?;
    let limits = Limits {
        keep: 1000,
        lines: 500,
    };
    let mut server = Server::new(rt.alloc(), fresh_api(rt.alloc(), WIDGET_TYPES)?, limits);
    let printed = printed(&rt, &listener, &mut server);
    mem::forget(server);
    let text = "synced 1\nadded default/w1 2\ndeleted default/w1 2\n";
    if printed?.as_slice() != text.as_bytes() {
        return Err(Fail::from("another text was printed"));
    }
    Ok(())
}
