//! What has come of a reply, and how a further byte changes it. Bytes that only lengthen what is kept stand in `taking`.

ghost use Rattle.std.specs.Prelude.{◌≡◌, ◌++◌, [], ◌∷◌, None, map, IfOk, OnOk, ◌==◌, if◌then◌else◌};
ghost use Rattle.wireclient.specs.Reads.{Steps};
ghost use Rattle.wireclient.specs.Reply.{heading, HeadCheck, data_after, step, begun, fails, goes_to, broken, body, size, size_lf, data_in, last_lf, malformed};
ghost use Rattle.wireclient.specs.Views.{state_of, reply_item_of, check_of};

use crate::head::check_head;
use crate::item::Item;
use httparse::parse_hex_digit;
use std::alloc::{AllocError, Global};
use wire::{MAX_HEAD, ScanState, place_after};

pub(crate) const MAX_LINE: usize = 2_097_152;

/// How the body is framed.
#[derive(Clone, Copy, Debug, PartialEq, Eq)]
pub(crate) enum Framing {
    Length(u64),
    Chunks,
}

/// What has come of a reply; the bytes kept are of what nothing was emitted yet.
#[derive(Debug, Drop)]
pub(crate) enum State {
    Heading(Vec<u8>, ScanState),
    /// So many bytes are to come, and those that came.
    Body(u64, Vec<u8>),
    /// Digits of a chunk's size, their value, and the line so far.
    Size(u8, u64, Vec<u8>),
    SizeLf(u64, Vec<u8>),
    Data(u64, Vec<u8>),
    DataCr(Vec<u8>),
    DataLf(Vec<u8>),
    LastCr(Vec<u8>),
    LastLf(Vec<u8>),
    Ended,
    Broken,
}

fn fails(emitted: &mut Vec<Item>) -> Result<State, AllocError>
    ensures state { IfOk result (λ s. state_of s ≡ broken) }
    ensures emitted { OnOk result (map reply_item_of emitted.new.items ≡ map reply_item_of emitted.old.items ++ malformed ∷ []) }
{
    emitted.push(Item::Malformed)?;
    Ok(State::Broken)
}

fn body_step(
    mut bytes: Vec<u8>,
    left: u64,
    byte: u8,
    emitted: &mut Vec<Item>,
) -> Result<State, AllocError>
    ensures state { IfOk result (λ s. state_of s ≡ (step None (body left bytes.items) byte).0) }
    ensures emitted { OnOk result (map reply_item_of emitted.new.items ≡ map reply_item_of emitted.old.items ++ (step None (body left bytes.items) byte).1) }
{
    bytes.push(byte)?;
    if left > 1 {
        return Ok(State::Body(left - 1, bytes));
    }
    emitted.push(Item::Body(bytes))?;
    emitted.push(Item::End)?;
    Ok(State::Ended)
}

fn data_after(left: u64, text: Vec<u8>) -> State
    ensures { state_of result ≡ data_after left text.items }
{
    if left == 0 {
        State::DataCr(text)
    } else {
        State::Data(left, text)
    }
}

fn data_step(
    alloc: Global,
    mut text: Vec<u8>,
    left: u64,
    byte: u8,
    emitted: &mut Vec<Item>,
) -> Result<State, AllocError>
    ensures state { IfOk result (λ s. state_of s ≡ (step None (data_in left text.items) byte).0) }
    ensures emitted { OnOk result (map reply_item_of emitted.new.items ≡ map reply_item_of emitted.old.items ++ (step None (data_in left text.items) byte).1) }
{
    if text.len() >= MAX_LINE {
        return fails(emitted);
    }
    if byte == b'\n' {
        emitted.push(Item::Line(text))?;
        return Ok(data_after(left.saturating_sub(1), Vec::new(alloc)));
    }
    text.push(byte)?;
    Ok(data_after(left.saturating_sub(1), text))
}

fn size_step(
    text: Vec<u8>,
    count: u8,
    value: u64,
    byte: u8,
    emitted: &mut Vec<Item>,
) -> Result<State, AllocError>
    ensures state { IfOk result (λ s. state_of s ≡ (step None (size count value text.items) byte).0) }
    ensures emitted { OnOk result (map reply_item_of emitted.new.items ≡ map reply_item_of emitted.old.items ++ (step None (size count value text.items) byte).1) }
{
    match parse_hex_digit(byte) {
        Some(digit) if count < 16 => {
            let value = value.saturating_mul(16).saturating_add(digit);
            Ok(State::Size(count + 1, value, text))
        }
        None if byte == b'\r' && count > 0 => Ok(State::SizeLf(value, text)),
        _ => fails(emitted),
    }
}

fn size_lf_step(
    text: Vec<u8>,
    value: u64,
    byte: u8,
    emitted: &mut Vec<Item>,
) -> Result<State, AllocError>
    ensures state { IfOk result (λ s. state_of s ≡ (step None (size_lf value text.items) byte).0) }
    ensures emitted { OnOk result (map reply_item_of emitted.new.items ≡ map reply_item_of emitted.old.items ++ (step None (size_lf value text.items) byte).1) }
{
    if byte != b'\n' {
        return fails(emitted);
    }
    if value == 0 {
        Ok(State::LastCr(text))
    } else {
        Ok(State::Data(value, text))
    }
}

fn last_lf_step(text: Vec<u8>, byte: u8, emitted: &mut Vec<Item>) -> Result<State, AllocError>
    ensures state { IfOk result (λ s. state_of s ≡ (step None (last_lf text.items) byte).0) }
    ensures emitted { OnOk result (map reply_item_of emitted.new.items ≡ map reply_item_of emitted.old.items ++ (step None (last_lf text.items) byte).1) }
{
    if byte != b'\n' || !text.is_empty() {
        return fails(emitted);
    }
    emitted.push(Item::End)?;
    Ok(State::Ended)
}

/// Goes on where the byte is the one that has to come.
fn expect(next: State, wanted: u8, byte: u8, emitted: &mut Vec<Item>) -> Result<State, AllocError>
    ensures state { IfOk result (λ s. state_of s ≡ (if byte == wanted then goes_to (state_of next) else fails).0) }
    ensures emitted { OnOk result (map reply_item_of emitted.new.items ≡ map reply_item_of emitted.old.items ++ (if byte == wanted then goes_to (state_of next) else fails).1) }
{
    if byte == wanted {
        Ok(next)
    } else {
        fails(emitted)
    }
}

fn begun(
    alloc: Global,
    checked: Option<(u16, Framing)>,
    emitted: &mut Vec<Item>,
) -> Result<State, AllocError>
    ensures state { IfOk result (λ s. state_of s ≡ (begun (check_of checked)).0) }
    ensures emitted { OnOk result (map reply_item_of emitted.new.items ≡ map reply_item_of emitted.old.items ++ (begun (check_of checked)).1) }
{
    let Some((status, framing)) = checked else {
        return fails(emitted);
    };
    emitted.push(Item::Head(status))?;
    match framing {
        Framing::Chunks => Ok(State::Size(0, 0, Vec::new(alloc))),
        Framing::Length(0) => {
            emitted.push(Item::Body(Vec::new(alloc)))?;
            emitted.push(Item::End)?;
            Ok(State::Ended)
        }
        Framing::Length(left) => Ok(State::Body(left, Vec::new(alloc))),
    }
}

fn heading_step(
    alloc: Global,
    mut bytes: Vec<u8>,
    place: ScanState,
    byte: u8,
    emitted: &mut Vec<Item>,
) -> Result<State, AllocError>
    ensures { IfOk result (λ s. Steps (heading bytes.items place) byte (state_of s) (map reply_item_of emitted.old.items) (map reply_item_of emitted.new.items)) }
{
    if bytes.len() >= MAX_HEAD {
        return fails(emitted);
    }
    bytes.push(byte)?;
    match place_after(place, byte) {
        Some(place) => Ok(State::Heading(bytes, place)),
        None => begun(alloc, check_head(&bytes), emitted),
    }
}

/// What a byte more makes of it, and what is emitted then.
pub(crate) fn step(
    alloc: Global,
    state: State,
    byte: u8,
    emitted: &mut Vec<Item>,
) -> Result<State, AllocError>
    ensures { IfOk result (λ s. Steps (state_of state) byte (state_of s) (map reply_item_of emitted.old.items) (map reply_item_of emitted.new.items)) }
{
    match state {
        State::Heading(bytes, place) => heading_step(alloc, bytes, place, byte, emitted),
        State::Body(left, bytes) => body_step(bytes, left, byte, emitted),
        State::Size(count, value, text) => size_step(text, count, value, byte, emitted),
        State::SizeLf(value, text) => size_lf_step(text, value, byte, emitted),
        State::Data(left, text) => data_step(alloc, text, left, byte, emitted),
        State::DataCr(text) => expect(State::DataLf(text), b'\r', byte, emitted),
        State::DataLf(text) => expect(State::Size(0, 0, text), b'\n', byte, emitted),
        State::LastCr(text) => expect(State::LastLf(text), b'\r', byte, emitted),
        State::LastLf(text) => last_lf_step(text, byte, emitted),
        State::Ended => Ok(State::Ended),
        State::Broken => Ok(State::Broken),
    }
}
