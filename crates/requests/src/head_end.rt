//! Where the head of a request ends: at its first empty line, searched for once however its bytes come. What the head
//! says stands in `head`.

ghost use Rattle.std.specs.Prelude.{◌≡◌, ◌≤◌, ◌++◌, ℕ, List, length, take, drop};
ghost use Rattle.wire.specs.Heads.{end_from, head_end, max_head};
ghost use Rattle.requests.specs.HeadEnds.{IsWithin, end_after};

use wire::{MAX_HEAD, ScanState, place_after};

/// How far a head was searched for its end.
#[derive(Clone, Copy, Debug)]
pub(crate) struct Searched {
    /// How many of its bytes were searched.
    pub(crate) count: usize,
    /// Where these stand.
    pub(crate) place: ScanState,
}

/// What a search for a head's end finds.
#[derive(Clone, Copy, Debug)]
pub(crate) struct Found {
    /// How many bytes the head has, where it ends.
    pub(crate) end: Option<usize>,
    /// Where the search goes on when more bytes have come.
    pub(crate) searched: Searched,
}

/// Searches from a byte on, before which the head stands at this place.
pub(crate) fn search_from(bytes: &[u8], from: usize, begin: ScanState) -> Found
    requires { from ≤ length bytes.now }
    ensures end { result.end ≡ end_from begin from (drop from bytes.now) }
    ensures within { IsWithin bytes.now result.searched }
    ensures alike { (more : List ℕ) → end_from begin from (drop from (bytes.now ++ more)) ≡ end_after result.searched (bytes.now ++ more) }
{
    let mut place = begin;
    for i in from..bytes.len() {
        match place_after(place, bytes[i]) {
            Some(next) => place = next,
            None => {
                return Found {
                    end: Some(i + 1),
                    searched: Searched { count: i, place },
                };
            }
        }
    }
    Found {
        end: None,
        searched: Searched {
            count: bytes.len(),
            place,
        },
    }
}

pub(crate) fn bytes_before(bytes: &[u8]) -> &[u8]
    ensures { result.now ≡ take max_head bytes.now }
{
    if bytes.len() > MAX_HEAD {
        &bytes[..MAX_HEAD]
    } else {
        bytes
    }
}

/// How many bytes the head has, where it ends within the limit.
pub(crate) fn end_of(bytes: &[u8]) -> Option<usize>
    ensures { result ≡ head_end (take max_head bytes.now) }
{
    search_from(bytes_before(bytes), 0, ScanState::Leading).end
}
