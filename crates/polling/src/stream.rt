//! What a connection's stream must do beside reading and writing. It is read in `reading` and written in `writing`.

use mio::net::TcpStream;
use std::io;
use std::net::Shutdown;

/// A stream whose reads and writes never block: where nothing can be read or written they answer `WouldBlock`.
pub trait Stream {
    /// Sends no more. What the peer sends can still be read.
    fn end(&mut self) -> io::Result<()>;
}

impl Stream for TcpStream {
    fn end(&mut self) -> io::Result<()> {
        self.shutdown(Shutdown::Write)
    }
}
