//! The server: a listener on loopback, and the loop over what the system reports. The connections stand in `peers`.

ghost use Rattle.std.specs.Prelude.{◌≡◌, ◌≤◌, IfOk, List, Ok, OnOk};
ghost use Rattle.api_types.specs.TypesFile.{ServedShape};
ghost use Rattle.history.specs.History.{History};
ghost use Rattle.verbs.specs.Views.{ApiRepresents};
ghost use Rattle.httpedge.specs.HubViews.{HubRepresents};
ghost use Rattle.httpedge.specs.Steps.{State, retypes, start};
ghost use Rattle.serde_json.specs.View.{view};
ghost use Rattle.polling.specs.Happens.{Answers, Reaches, ReachesUnasked};
ghost use Rattle.polling.specs.ServerViews.{hub_of, over_of};

use crate::options::Options;
use crate::peers::{LISTENER, Peers};
use httpedge::{Effect, Hub, HubFault};
use mio::net::TcpListener;
use mio::{Events, Interest, Poll};
use observing::Observer;
use serde_json::Value;
use std::alloc::AllocGlobal;
use std::io::{self, ErrorKind};
use std::net::{Ipv4Addr, Net, SocketAddr};
use std::rt::Clock;
use std::time::Instant;
use verbs::{Api, Fault};

/// The most reports of the system that are taken in one turn.
const EVENTS: usize = 1024;

fn take_reports<O: Observer>(peers: &mut Peers, observer: &mut O, events: &Events, now: Instant)
    ensures { Reaches peers.old.hub peers.new.hub }
{
    for event in events {
        peers.take_report(observer, event.token(), now);
    }
}

/// A hub, and the connections of a listener.
#[derive(Drop)]
pub struct Server {
    events: Events,
    peers: Peers,
}

impl Server {
    /// Listens on loopback, and serves nobody yet.
    pub fn listen<R: Net + Clock + AllocGlobal>(
        rt: &R,
        api: Api,
        options: Options,
    ) -> io::Result<Server>
        ensures { IfOk result (λ server. (types : List ServedShape) (m : History) → ApiRepresents api types m → HubRepresents (hub_of server) (start types m)) }
    {
        let alloc = rt.alloc();
        let addr = SocketAddr::from((Ipv4Addr::LOCALHOST, options.port));
        let mut listener = TcpListener::bind(rt, addr)?;
        let poll = Poll::new(rt)?;
        poll.registry()
            .register(&mut listener, LISTENER, Interest::READABLE)?;
        let events = Events::with_capacity(alloc, EVENTS)?;
        let now = Instant::now(rt)?;
        let hub = Hub::new(alloc, api);
        let peers = Peers::new(alloc, options, poll, listener, hub, now);
        Ok(Server { events, peers })
    }

    /// The port that it listens on.
    pub fn port(&self) -> io::Result<u16> {
        Ok(self.peers.listener.local_addr()?.port())
    }

    /// Waits until the system reports something, a second at most, and does what is to be done: each connection that is
    /// reported has its turn, and those that wait are accepted; then comes the tick, each second; what isn't kept is
    /// forgotten; and the watches get what was written.
    pub fn turn<O: Observer, R: Clock>(&mut self, rt: &R, observer: &mut O) -> io::Result<()>
        ensures { Reaches (hub_of self.old) (hub_of self.new) }
    {
        let before = Instant::now(rt)?;
        self.peers.wait(&mut self.events, before)?;
        let now = Instant::now(rt)?;
        self.peers.look_again(observer, now);
        take_reports(&mut self.peers, observer, &self.events, now);
        self.peers.accept_all(observer, now);
        self.peers.settle(observer, now);
        Ok(())
    }

    /// Serves the types of a types file from here on, or tells why not. The watches get what that changed. No bytes come on a
    /// connection.
    pub fn retype<O: Observer>(
        &mut self,
        observer: &mut O,
        file: Value,
        now: Instant,
    ) -> Result<Effect, HubFault>
        ensures answers { Answers (retypes (view file)) result (hub_of self.old) (hub_of self.new) }
        ensures reaches { ReachesUnasked (hub_of self.old) (hub_of self.new) }
    {
        self.peers.retype(observer, file, now)
    }

    /// The revision that stands now.
    pub fn revision(&self) -> Result<u64, Fault>
        ensures { (s : State) → HubRepresents (hub_of self.now) s → result ≡ Ok s.machine.current }
    {
        Ok(self.peers.hub.marks()?.0)
    }

    /// How many connections are over.
    pub fn over(&self) -> u64
        ensures { result ≡ over_of self.now }
    {
        self.peers.closed()
    }

    /// Serves until so many connections are over.
    pub fn serve<O: Observer, R: Clock>(
        &mut self,
        rt: &R,
        observer: &mut O,
        most: u64,
    ) -> io::Result<()>
        ensures reaches { Reaches (hub_of self.old) (hub_of self.new) }
        ensures served { OnOk result (most ≤ over_of self.new) }
    {
        'turns: for _ in 0..u64::MAX {
            if self.over() >= most {
                return Ok(());
            }
            self.turn(rt, observer)?;
        }
        // More turns than a count of connections can tell.
        Err(io::Error::from(ErrorKind::Other))
    }
}
