//! A link over sockets of loopback. What goes over it is `world`'s.
ghost use Rattle.std.specs.Prelude.{◌≡◌, ◌≤◌, IfOk, length};

use std::alloc::Global;
use std::io::{self, ErrorKind, Read, Write};
use std::net::{Ipv4Addr, Net, OpenListener, OpenStream, SocketAddr, TcpListener, TcpStream};
use world::{Link, LinkFault};

/// How many bytes are under way at most.
const MOST: usize = 4096;

/// A link whose bytes go over two connected sockets of this process. They are connected when the first piece is carried.
#[derive(Drop)]
pub struct OverLoopback<'a, R: Net> {
    rt: &'a R,
    ends: Option<Ends<R::Stream>>,
}

/// Two connected sockets: what is written at the near one is read at the far one.
#[derive(Drop)]
struct Ends<S> {
    near: S,
    far: S,
}

/// Connects two sockets. It fails where another process was faster to connect.
fn connected<R: Net>(rt: &R) -> io::Result<Ends<R::Stream>> {
    let listener = TcpListener::bind(rt, SocketAddr::from((Ipv4Addr::LOCALHOST, 0)))?;
    let near = TcpStream::connect(rt, listener.local_addr()?)?;
    let (far, peer) = listener.accept()?;
    if peer != near.local_addr()? {
        return Err(io::Error::from(ErrorKind::ConnectionRefused));
    }
    // A piece isn't to wait for the receipt of the one before.
    near.set_nodelay(true)?;
    Ok(Ends { near, far })
}

/// Writes bytes at the near end and reads as many at the far one.
fn pass<W: Write, R: Read>(
    alloc: Global,
    near: &mut W,
    far: &mut R,
    bytes: &[u8],
) -> io::Result<Vec<u8>>
    requires { length bytes.now ≤ 4096 }
    ensures { IfOk result (λ v. length v.items ≡ length bytes.now) }
{
    let mut arrived = vec![in alloc; 0u8; bytes.len()]?;
    near.write_all(bytes)?;
    far.read_exact(&mut arrived)?;
    Ok(arrived)
}

/// Carries a piece, so many bytes at a time.
fn carried<W: Write, R: Read>(
    alloc: Global,
    near: &mut W,
    far: &mut R,
    piece: &[u8],
) -> io::Result<Vec<u8>> {
    let mut arrived = Vec::with_capacity(alloc, piece.len())?;
    for bytes in piece.chunks(MOST) {
        let passed = pass(alloc, near, far, bytes)?;
        arrived.extend_from_slice(&passed)?;
    }
    Ok(arrived)
}

fn fault_of(error: &io::Error) -> LinkFault {
    match error.kind() {
        ErrorKind::OutOfMemory => LinkFault::Memory,
        _ => LinkFault::Failed,
    }
}

impl<'a, R: Net> OverLoopback<'a, R> {
    /// A link that isn't connected yet.
    pub fn new(rt: &'a R) -> OverLoopback<'a, R> {
        OverLoopback { rt, ends: None }
    }

    /// Carries a piece over the sockets, which are connected now if they aren't yet.
    fn carry_over(&mut self, alloc: Global, piece: &[u8]) -> io::Result<Vec<u8>> {
        let mut ends = match self.ends.take() {
            Some(ends) => ends,
            None => connected(self.rt)?,
        };
        let arrived = carried(alloc, &mut ends.near, &mut ends.far, piece)?;
        self.ends = Some(ends);
        Ok(arrived)
    }
}

impl<R: Net> Link for OverLoopback<'_, R> {
    ghost use Rattle.std.specs.Prelude.{true};

    ghost may_fail = { true };

    fn carry(&mut self, alloc: Global, piece: &[u8]) -> Result<Vec<u8>, LinkFault> {
        let arrived = match self.carry_over(alloc, piece) {
            Ok(arrived) => arrived,
            Err(error) => return Err(fault_of(&error)),
        };
        if arrived.as_slice() != piece {
            return Err(LinkFault::Failed);
        }
        Ok(arrived)
    }
}
