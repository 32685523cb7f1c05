//! What was written on a connection and not yet taken. The connection stands in `connection`.

ghost use Rattle.std.specs.Prelude.{◌≡◌, ◌≤◌, drop, length};

use std::alloc::{AllocError, Global};
use std::mem;

/// The last bytes that were written on a connection, and how many of these were taken.
#[derive(Debug, Drop)]
pub(crate) struct Out {
    bytes: Vec<u8>,
    taken: usize,
    ghost within: { taken ≤ length bytes.items },
}

/// Removes the first n bytes: what is left moves to the front.
fn remove_prefix(bytes: &mut Vec<u8>, n: usize)
    requires { n ≤ length bytes.old.items }
    ensures { bytes.new.items ≡ drop n bytes.old.items }
{
    let end = bytes.len();
    bytes.as_mut_slice().copy_within(n..end, 0);
    bytes.truncate(end - n);
}

impl Out {
    ghost use Rattle.std.specs.Prelude.{◌≡◌, ◌++◌, [], drop, OnOk, OnErr};
    ghost use Rattle.httpedge.specs.ConnectionViews.{left};

    /// These bytes, none of them taken.
    pub(crate) fn of(bytes: Vec<u8>) -> Out
        ensures { left result ≡ bytes.items }
    {
        Out { bytes, taken: 0 }
    }

    pub(crate) fn empty(alloc: Global) -> Out
        ensures { left result ≡ [] }
    {
        Out::of(Vec::new(alloc))
    }

    pub(crate) fn left(&self) -> &[u8]
        ensures { result.now ≡ left self.now }
    {
        &self.bytes[self.taken..]
    }

    /// More bytes are written.
    pub(crate) fn add(&mut self, more: &[u8]) -> Result<(), AllocError>
        ensures ok { OnOk result (left self.new ≡ left self.old ++ more.now) }
        ensures err { OnErr result (left self.new ≡ left self.old) }
    {
        self.bytes.extend_from_slice(more)
    }

    /// Takes the first n bytes of what is left, at most all. Once all is taken, no buffer is kept; once more was taken
    /// than is left, what is left moves to the front of the buffer.
    pub(crate) fn take(&mut self, alloc: Global, n: usize)
        ensures { left self.new ≡ drop n (left self.old) }
    {
        if n >= self.bytes.len() - self.taken {
            *self = Out::empty(alloc);
            return;
        }
        self.taken += n;
        if self.taken > self.bytes.len() / 2 {
            self.forget_taken();
        }
    }

    fn forget_taken(&mut self)
        ensures { left self.new ≡ left self.old }
    {
        let taken = mem::replace(&mut self.taken, 0);
        remove_prefix(&mut self.bytes, taken);
    }
}
