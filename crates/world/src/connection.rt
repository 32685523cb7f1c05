//! The client's connection: its request, and how far request and reply have come. The hub's side stands in `server`.

ghost use Rattle.std.specs.Prelude.{◌≡◌, ◌≢◌, false, Err, IfOk, drop, option_map, take};
ghost use Rattle.httpedge.specs.HubViews.{event_of};
ghost use Rattle.world_laws.specs.World.{is_by_peer_on};
ghost use Rattle.world.specs.Views.{connection_seen};

use crate::fault::RunFault;
use crate::link::{Link, carried};
use httpedge::Event;
use std::alloc::Global;

/// The client's connection: its request, how many bytes of it came to the server, and how many bytes of the reply came to
/// the client.
#[derive(Debug, Drop)]
pub(crate) struct ClientConnection {
    pub(crate) id: u64,
    pub(crate) request: Vec<u8>,
    pub(crate) sent: usize,
    pub(crate) handed: usize,
}

/// Whether by the event another peer would open, use or leave the client's connection.
pub(crate) fn is_by_peer_on(own: &Option<ClientConnection>, event: &Event) -> bool
    ensures { result ≡ is_by_peer_on (option_map connection_seen own.now) (event_of event.now) }
{
    let Some(own) = own else {
        return false;
    };
    match event {
        Event::Open(id) => own.id == *id,
        Event::In(id, _) => own.id == *id,
        Event::Gone(id) => own.id == *id,
        Event::Pump(_, _) => false,
        Event::Tick(_) => false,
        Event::Compact(_) => false,
        Event::Retype(_) => false,
    }
}

/// The next n bytes from this place on, or all that are left, carried by the link.
pub(crate) fn next_piece<L: Link>(
    alloc: Global,
    link: &mut L,
    bytes: &[u8],
    from: usize,
    n: usize,
) -> Result<Vec<u8>, RunFault>
    ensures piece { IfOk result (λ v. v.items ≡ take n (drop from bytes.now)) }
    ensures link { L.may_fail ≡ false → result ≢ Err RunFault.Link }
{
    let left = bytes.get(from..).unwrap_or(&[]);
    carried(alloc, link, &left[..n.min(left.len())])
}

/// The next n bytes of the request, or all that are left, carried by the link.
pub(crate) fn next_of_request<L: Link>(
    alloc: Global,
    link: &mut L,
    own: &ClientConnection,
    n: usize,
) -> Result<Vec<u8>, RunFault>
    ensures piece { IfOk result (λ v. v.items ≡ take n (connection_seen own.now).unsent) }
    ensures link { L.may_fail ≡ false → result ≢ Err RunFault.Link }
{
    next_piece(alloc, link, &own.request, own.sent, n)
}
