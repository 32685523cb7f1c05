//! Bytes that only lengthen what is kept, taken by one copy; the byte that ends a body, a chunk or a line is left to a step.

ghost use Rattle.std.specs.Prelude.{◌≡◌, ◌==◌, ◌-◌, length, min, IfOk};
ghost use Rattle.std.specs.List.{position_or_len};
ghost use Rattle.wireclient.specs.Reads.{TakesIn};
ghost use Rattle.wireclient.specs.Reply.{body, data_in};
ghost use Rattle.wireclient.specs.Views.{state_of};

use crate::state::{MAX_LINE, State};
use memchr::memchr;
use std::alloc::AllocError;

/// What came of the first bytes of a piece, and how many these were.
#[derive(Drop)]
pub(crate) struct Taken {
    pub(crate) state: State,
    pub(crate) count: usize,
}

/// How many bytes of the piece stand before the last of so many.
fn before_last(left: u64, piece: &[u8]) -> usize
    ensures { result ≡ min (left - 1) (length piece.now) }
{
    left.saturating_sub(1).min(piece.len() as u64) as usize
}

/// How many bytes of the piece stand before its first line feed.
fn before_line_feed(piece: &[u8]) -> usize
    ensures { result ≡ position_or_len (λ b. b == 10) piece.now }
{
    memchr(b'\n', piece).unwrap_or(piece.len())
}

fn take_body(left: u64, mut bytes: Vec<u8>, piece: &[u8]) -> Result<Taken, AllocError>
    ensures { IfOk result (λ r. TakesIn (body left bytes.items) piece.now r.count (state_of r.state)) }
{
    let count = before_last(left, piece);
    bytes.extend_from_slice(&piece[..count])?;
    Ok(Taken {
        state: State::Body(left - count as u64, bytes),
        count,
    })
}

fn take_data(left: u64, mut text: Vec<u8>, piece: &[u8]) -> Result<Taken, AllocError>
    ensures { IfOk result (λ r. TakesIn (data_in left text.items) piece.now r.count (state_of r.state)) }
{
    let room = before_last(left, piece).min(MAX_LINE.saturating_sub(text.len()));
    let count = before_line_feed(&piece[..room]);
    text.extend_from_slice(&piece[..count])?;
    Ok(Taken {
        state: State::Data(left - count as u64, text),
        count,
    })
}

/// Takes the first bytes of the piece of which nothing is emitted.
pub(crate) fn take_in(state: State, piece: &[u8]) -> Result<Taken, AllocError>
    ensures { IfOk result (λ r. TakesIn (state_of state) piece.now r.count (state_of r.state)) }
{
    match state {
        State::Body(left, bytes) => take_body(left, bytes, piece),
        State::Data(left, text) => take_data(left, text, piece),
        State::Ended => Ok(Taken {
            state: State::Ended,
            count: piece.len(),
        }),
        State::Broken => Ok(Taken {
            state: State::Broken,
            count: piece.len(),
        }),
        other => Ok(Taken {
            state: other,
            count: 0,
        }),
    }
}
