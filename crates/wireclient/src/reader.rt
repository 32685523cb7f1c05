//! A reader of replies, fed in pieces. What a single byte changes stands in `state`.

ghost use Rattle.std.specs.Prelude.{◌≡◌, IfOk, map};
ghost use Rattle.wireclient.specs.Reads.{Reaches};
ghost use Rattle.wireclient.specs.Views.{state_of, reply_item_of};

use crate::item::Item;
use crate::state::{State, step};
use crate::taking::take_in;
use std::alloc::{AllocError, Global};
use std::marker::Model;
use std::mem;
use thiserror::Error;
use wire::ScanState;

/// Why nothing more is emitted.
#[derive(Clone, Copy, Debug, PartialEq, Eq, Error)]
pub enum ReadFault {
    /// The reply broke a rule, as was emitted.
    #[error("malformed reply")]
    Malformed,
    /// Out of memory.
    #[error("out of memory")]
    Memory,
}

/// Contracts see what has come of the reply, or none once the reader was out of memory.
#[derive(Debug, Drop)]
pub struct ReplyReader {
    state: State,
    is_dead: bool,
    alloc: Global,
}

impl Model for ReplyReader {
    ghost use Rattle.std.specs.Prelude.{Option, Some, None, if◌then◌else◌};
    ghost use Rattle.wireclient.specs.Reply as reply;
    ghost use Rattle.wireclient.specs.Views.{state_of};

    ghost Value = { Option reply.State };

    ghost view = { λ r. if r.is_dead then None else Some (state_of r.state) };
}

/// A state, and what was emitted on the way to it.
#[derive(Drop)]
struct Reading {
    state: State,
    emitted: Vec<Item>,
}

/// Takes one byte, then as many as only lengthen what is kept, until none is left.
fn read(alloc: Global, from: State, piece: &[u8]) -> Result<Reading, AllocError>
    ensures { IfOk result (λ r. Reaches (state_of from) piece.now (state_of r.state) (map reply_item_of r.emitted.items)) }
{
    let mut emitted = Vec::new(alloc);
    let mut state = from;
    let mut at = 0;
    while at < piece.len() {
        let next = step(alloc, state, piece[at], &mut emitted)?;
        let taken = take_in(next, &piece[at + 1..])?;
        state = taken.state;
        at += 1 + taken.count;
    }
    Ok(Reading { state, emitted })
}

impl ReplyReader {
    ghost use Rattle.std.specs.Prelude.{◌≡◌, ◌↔◌, ℕ, List, [], ◌++◌, map, IfOk, None, IsTrue};
    ghost use Rattle.wireclient.specs.Reads.{Items, ReaderRepresents, has_malformed};
    ghost use Rattle.wireclient.specs.Reply.{ReplyItem};
    ghost use Rattle.wireclient.specs.Views.{reply_item_of};

    /// A reader of which nothing has come.
    pub fn new(alloc: Global) -> ReplyReader
        ensures represents { ReaderRepresents result [] }
        ensures nothing { Items [] [] }
    {
        ReplyReader {
            state: State::Heading(Vec::new(alloc), ScanState::Leading),
            is_dead: false,
            alloc,
        }
    }

    /// Takes the next piece and emits what it completes. After `Malformed` was emitted, or once out of memory, it refuses
    /// every later call in the same way.
    pub fn feed(&mut self, piece: &[u8]) -> Result<Vec<Item>, ReadFault>
        ensures represents { (bytes : List ℕ) → ReaderRepresents self.old bytes → IfOk result (λ _. ReaderRepresents self.new (bytes ++ piece.now)) }
        ensures emitted { (bytes : List ℕ) (before : List ReplyItem) → ReaderRepresents self.old bytes → Items bytes before → IfOk result (λ out. Items (bytes ++ piece.now) (before ++ map reply_item_of out.items)) }
        ensures malformed { (bytes : List ℕ) (before : List ReplyItem) → ReaderRepresents self.old bytes → Items bytes before → (result ≡ Err ReadFault.Malformed) ↔ IsTrue (has_malformed before) }
        ensures kept { result ≡ Err ReadFault.Malformed → self.new ≡ self.old }
        ensures memory { self.old ≡ None → result ≡ Err ReadFault.Memory }
        ensures lost { result ≡ Err ReadFault.Memory → self.new ≡ None }
    {
        if self.is_dead {
            return Err(ReadFault::Memory);
        }
        if let State::Broken = self.state {
            return Err(ReadFault::Malformed);
        }
        let state = mem::replace(&mut self.state, State::Broken);
        match read(self.alloc, state, piece) {
            Ok(Reading { state, emitted }) => {
                self.state = state;
                Ok(emitted)
            }
            Err(_) => {
                self.is_dead = true;
                Err(ReadFault::Memory)
            }
        }
    }
}
