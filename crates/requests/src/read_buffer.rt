//! The bytes of a request whose head hasn't come whole. The search for the head's end stands in `head_end`.

ghost use Rattle.std.specs.Prelude.{take};
ghost use Rattle.wire.specs.Heads.{max_head};
ghost use Rattle.requests.specs.HeadEnds.{IsSearchedTo, IsWithin};

use crate::head_end::{Searched, bytes_before, search_from};
use std::alloc::{AllocError, Global};
use wire::ScanState;

/// All the bytes that came, and how far they were searched for the head's end.
#[derive(Debug, Drop)]
pub struct ReadBuffer {
    bytes: Vec<u8>,
    searched: Searched,
    ghost within: { IsWithin (take max_head bytes.items) searched },
    ghost goes_on: { IsSearchedTo bytes.items searched },
}

impl ReadBuffer {
    ghost use Rattle.std.specs.Prelude.{◌≡◌, ◌++◌, [], take, IfOk};
    ghost use Rattle.wire.specs.Heads.{head_end, max_head};
    ghost use Rattle.requests.specs.ReadBufferViews.{buffered};

    /// The prefix of a connection on which nothing has come.
    pub fn new(alloc: Global) -> ReadBuffer
        ensures { buffered result ≡ [] }
    {
        ReadBuffer {
            bytes: Vec::new(alloc),
            searched: Searched {
                count: 0,
                place: ScanState::Leading,
            },
        }
    }

    /// The same with the bytes that come next.
    pub fn with(self, more: &[u8]) -> Result<ReadBuffer, AllocError>
        ensures { IfOk result (λ prefix. buffered prefix ≡ buffered self ++ more.now) }
    {
        let ReadBuffer {
            mut bytes,
            searched,
        } = self;
        bytes.extend_from_slice(more)?;
        Ok(ReadBuffer { bytes, searched })
    }

    /// All the bytes that came.
    pub fn bytes(&self) -> &[u8]
        ensures { result.now ≡ buffered self.now }
    {
        &self.bytes
    }

    /// The same by value.
    pub fn into_bytes(self) -> Vec<u8>
        ensures { result.items ≡ buffered self }
    {
        let ReadBuffer { bytes, searched: _ } = self;
        bytes
    }

    /// How many bytes the head has, where it ends within the 16,384 bytes that a head may have (RFC 9112, section 2.2);
    /// the search goes on where the last one stopped.
    pub fn find_end(&mut self) -> Option<usize>
        ensures end { result ≡ head_end (take max_head (buffered self.old)) }
        ensures bytes { buffered self.new ≡ buffered self.old }
    {
        let found = search_from(
            bytes_before(&self.bytes),
            self.searched.count,
            self.searched.place,
        );
        self.searched = found.searched;
        found.end
    }
}
