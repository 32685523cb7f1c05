//! Connections to a server on loopback.

use mirroring::Dial;
use reflector::RelistReason;
use std::io::Write;
use std::net::{Ipv4Addr, Net, SocketAddr, TcpStream};
use std::rt::Clock;
use std::time::Duration;
use std::{io, thread};

/// How many milliseconds pass after a reply that was given up, and before a request is sent once more.
const PAUSE: u64 = 1000;

/// Dials a port of loopback. Why a reply was given up is told on the standard error, and the next request then waits. So
/// does a request that was sent twice on end, so that a peer that ends each connection isn't asked without end; the second
/// time it doesn't wait, since a server that has gone is found then.
#[derive(Drop)]
pub struct Loopback<'a, R> {
    rt: &'a R,
    port: u16,
    /// The last request.
    last: Vec<u8>,
    /// Whether it was the one before too.
    is_second: bool,
}

impl<'a, R: AllocGlobal> Loopback<'a, R> {
    pub fn new(rt: &'a R, port: u16) -> Loopback<'a, R> {
        Loopback {
            rt,
            port,
            last: Vec::new(rt.alloc()),
            is_second: false,
        }
    }
}

impl<'a, R: Net + Clock + Eprint + AllocGlobal> Dial for Loopback<'a, R> {
    type Reader = R::Stream;

    fn dial(&mut self, request: &[u8]) -> io::Result<R::Stream> {
        let is_same = self.last.as_slice() == request;
        if is_same && self.is_second {
            thread::sleep(self.rt, Duration::from_millis(PAUSE));
        }
        self.is_second = is_same;
        self.last = Vec::from_slice(self.rt.alloc(), request)?;
        let address = SocketAddr::from((Ipv4Addr::LOCALHOST, self.port));
        let mut stream = TcpStream::connect(self.rt, address)?;
        // One that ends while the request is sent is cut: what came on it until then still counts.
        let _ = stream.write_all(request);
        Ok(stream)
    }

    fn given_up(&mut self, relist_reason: RelistReason) {
        // Where the standard error takes nothing, the mirror goes on all the same.
        let _ = eprintln!(self.rt; "reply given up: {relist_reason}");
        thread::sleep(self.rt, Duration::from_millis(PAUSE));
        self.is_second = false;
    }
}
