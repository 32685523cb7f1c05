//! A network whose sockets fail after so many calls, or take in other bytes than were written. What is played over it is
//! tested in `failing`.

use std::cell::Cell;
use std::io::{self, ErrorKind, Read, Write};
use std::net::{Net, OpenListener, OpenStream, SocketAddr, TcpListener, TcpStream};
use std::os::fd::{AsRawFd, RawFd};

/// What is still to happen to the sockets of a network.
#[derive(Drop)]
pub struct Fate {
    /// After how many more calls each one fails.
    calls: Cell<usize>,
    /// Whether the bytes that are read are other ones.
    is_garbled: bool,
}

impl Fate {
    pub fn new(calls: usize, is_garbled: bool) -> Fate {
        Fate {
            calls: Cell::new(calls),
            is_garbled,
        }
    }

    /// A call, which fails where none is left.
    fn call(&self) -> io::Result<()> {
        match self.calls.get() {
            0 => Err(io::Error::from(ErrorKind::ConnectionReset)),
            calls => Ok(self.calls.set(calls - 1)),
        }
    }
}

/// The network of a runtime, with this fate.
#[derive(Drop)]
pub struct FailingNet<'a> {
    pub rt: &'a HostRuntime,
    pub fate: &'a Fate,
}

#[derive(Drop)]
pub struct FailingStream<'a> {
    stream: TcpStream,
    fate: &'a Fate,
}

#[derive(Drop)]
pub struct FailingListener<'a> {
    listener: TcpListener,
    fate: &'a Fate,
}

impl<'a> Net for FailingNet<'a> {
    type Stream = FailingStream<'a>;

    type Listener = FailingListener<'a>;

    fn bind(&self, addr: SocketAddr) -> io::Result<FailingListener<'a>> {
        self.fate.call()?;
        let listener = self.rt.bind(addr)?;
        Ok(FailingListener {
            listener,
            fate: self.fate,
        })
    }

    fn connect(&self, addr: SocketAddr) -> io::Result<FailingStream<'a>> {
        self.fate.call()?;
        let stream = self.rt.connect(addr)?;
        Ok(FailingStream {
            stream,
            fate: self.fate,
        })
    }
}

impl<'a> OpenListener for FailingListener<'a> {
    type Stream = FailingStream<'a>;

    fn accept(&self) -> io::Result<(FailingStream<'a>, SocketAddr)> {
        self.fate.call()?;
        let (stream, peer) = self.listener.accept()?;
        let stream = FailingStream {
            stream,
            fate: self.fate,
        };
        Ok((stream, peer))
    }

    fn local_addr(&self) -> io::Result<SocketAddr> {
        self.listener.local_addr()
    }
}

impl OpenStream for FailingStream<'_> {
    fn local_addr(&self) -> io::Result<SocketAddr> {
        self.stream.local_addr()
    }

    fn set_nodelay(&self, nodelay: bool) -> io::Result<()> {
        self.stream.set_nodelay(nodelay)
    }
}

impl Read for FailingStream<'_> {
    fn read(&mut self, buf: &mut [u8]) -> io::Result<usize> {
        self.fate.call()?;
        let count = self.stream.read(buf)?;
        if self.fate.is_garbled {
            buf.reverse();
        }
        Ok(count)
    }
}

impl Write for FailingStream<'_> {
    fn write(&mut self, buf: &[u8]) -> io::Result<usize> {
        self.fate.call()?;
        self.stream.write(buf)
    }

    fn flush(&mut self) -> io::Result<()> {
        self.stream.flush()
    }
}

impl AsRawFd for FailingStream<'_> {
    fn as_raw_fd(&self) -> RawFd {
        self.stream.as_raw_fd()
    }
}

impl AsRawFd for FailingListener<'_> {
    fn as_raw_fd(&self) -> RawFd {
        self.listener.as_raw_fd()
    }
}
