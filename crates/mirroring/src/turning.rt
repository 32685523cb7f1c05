//! The turns of a mirror: dialling, reading, the informer, telling. The text stands in `printing`.

ghost use Rattle.std.specs.Prelude.{◌≡◌, ◌≤◌, [], List, None, ℕ, IfErr, IfOk, OnErr, OnOk, Option, false, option_map, true};
ghost use Rattle.std.specs.Io.KnownBytes.{Appends};
ghost use Rattle.wireclient.specs.Reads.{Items};
ghost use Rattle.wireclient.specs.Reply.{ReplyItem};
ghost use Rattle.reflector.specs.Client.{Cache, Client};
ghost use Rattle.reflector.specs.InformerViews.{InformerRepresents, settings_in, relist_reason_in};
ghost use Rattle.reflector.specs.Run.{asked, closed, taken};
ghost use Rattle.mirroring.specs.Printing.{mirror_text};
ghost use Rattle.mirroring.specs.Pieces.{ReceivedPrefix, ReceivedSoFar, Emits, EmitsPrefix};
ghost use Rattle.mirroring.specs.Turns.{Answers, Is, IsIdle, MirrorsAll, MirrorsPrefix, MirrorsOnce, MirrorsSoFar, MirrorsSome, WritesPrefix, is_undialled, synced_by};

use crate::dial::{Dial, report_relist_reason};
use crate::fault::MirrorFault;
use crate::printing::{first_revision, mirror_text, report};
use crate::reading::next_piece;
use crate::syncing::catch_up;
use indexer::IndexBy;
use reflector::Informer;
use std::alloc::Global;
use std::io::{Read, Write};

/// The lines of what is new are written: of the first list, where the informer had no revision, and of the notices.
fn tell<I: IndexBy, W: Write>(
    alloc: Global,
    informer: &mut Informer<I>,
    was: Option<u64>,
    out: &mut W,
) -> Result<(), MirrorFault>
    ensures settings { settings_in informer.new ≡ settings_in informer.old }
    ensures relist_reason { relist_reason_in informer.new ≡ relist_reason_in informer.old }
    ensures taken { (c : Client) (bytes : List ℕ) (items : List ReplyItem) → InformerRepresents (λ b s. I.keys b s) informer.old c bytes items → InformerRepresents (λ b s. I.keys b s) informer.new (taken c) bytes items }
    ensures told { (before : Option Cache) (c : Client) (bytes : List ℕ) (items : List ReplyItem) → InformerRepresents (λ b s. I.keys b s) informer.old c bytes items → was ≡ option_map (λ now. now.revision) before
        → OnOk result (Appends (W.contents out.old) (W.contents out.new) (mirror_text (synced_by before c.cache) c.notices)) }
    ensures prefix { (before : Option Cache) (c : Client) (bytes : List ℕ) (items : List ReplyItem) → InformerRepresents (λ b s. I.keys b s) informer.old c bytes items → was ≡ option_map (λ now. now.revision) before
        → OnErr result (WritesPrefix (W.contents out.old) (W.contents out.new) (mirror_text (synced_by before c.cache) c.notices)) }
    ensures dialled { IfErr result (λ f. is_undialled f ≡ false) }
{
    let first = first_revision(was, informer.revision());
    let notices = informer.take_notices();
    let text = mirror_text(alloc, first, &notices)?;
    report(out, text.as_str()).map_err(MirrorFault::Output)
}

/// The informer takes a piece of its reply, and the lines of its notices are written.
fn take_piece<I: IndexBy, W: Write>(
    alloc: Global,
    informer: &mut Informer<I>,
    piece: &[u8],
    out: &mut W,
) -> Result<(), MirrorFault>
    ensures settings { settings_in informer.new ≡ settings_in informer.old }
    ensures emitted { (c : Client) (bytes : List ℕ) (items : List ReplyItem) → InformerRepresents (λ b s. I.keys b s) informer.old c bytes items → Items bytes items → c.is_awaiting_reply ≡ true → c.notices ≡ []
        → OnOk result (Emits (λ b s. I.keys b s) (settings_in informer.old).wanted c bytes items piece.now informer.new (W.contents out.old) (W.contents out.new)) }
    ensures fault { (c : Client) (bytes : List ℕ) (items : List ReplyItem) → InformerRepresents (λ b s. I.keys b s) informer.old c bytes items → Items bytes items → c.is_awaiting_reply ≡ true → c.notices ≡ []
        → OnErr result (EmitsPrefix (settings_in informer.old).wanted c bytes items (W.contents out.old) (W.contents out.new)) }
    ensures dialled { IfErr result (λ f. is_undialled f ≡ false) }
{
    let was = informer.revision();
    informer.feed(piece)?;
    tell(alloc, informer, was, out)
}

/// Hands the reply to the informer as long as that awaits it, and writes what comes of it.
fn receive<R: Read, I: IndexBy, W: Write>(
    alloc: Global,
    reader: &mut R,
    informer: &mut Informer<I>,
    out: &mut W,
) -> Result<(), MirrorFault>
    ensures settings { settings_in informer.new ≡ settings_in informer.old }
    ensures received { (c : Client) → InformerRepresents (λ b s. I.keys b s) informer.old (asked c) [] [] → c.notices ≡ [] → relist_reason_in informer.old ≡ None
        → OnOk result (ReceivedSoFar (λ b s. I.keys b s) (settings_in informer.old).wanted c informer.new (R.remaining reader.old) (R.remaining reader.new) (W.contents out.old) (W.contents out.new)) }
    ensures fault { (c : Client) → InformerRepresents (λ b s. I.keys b s) informer.old (asked c) [] [] → c.notices ≡ [] → relist_reason_in informer.old ≡ None
        → OnErr result (ReceivedPrefix (settings_in informer.old).wanted c (W.contents out.old) (W.contents out.new)) }
    ensures dialled { IfErr result (λ f. is_undialled f ≡ false) }
{
    'pieces: for _ in 0..u64::MAX {
        if !informer.is_awaiting_reply() {
            break;
        }
        let piece = next_piece(alloc, reader)?;
        if piece.is_empty() {
            break;
        }
        take_piece(alloc, informer, &piece, out)?;
    }
    Ok(())
}

/// One connection: it is dialled, the request that is due is sent, and the reply is received and written out as far as it comes.
/// With a request under way already, nothing is done. Where the reply was given up, the informer then says why
/// (`Informer::relist_reason`): who takes turn after turn waits a moment there.
pub fn turn<D: Dial, I: IndexBy, W: Write>(
    alloc: Global,
    dialer: &mut D,
    informer: &mut Informer<I>,
    out: &mut W,
) -> Result<(), MirrorFault>
    ensures settings { settings_in informer.new ≡ settings_in informer.old }
    ensures emitted { (c : Client) → Is (λ b s. I.keys b s) informer.old c → IsIdle c
        → OnOk result (MirrorsOnce (λ b s. I.keys b s) (Answers (λ a q r b. D.dials a q r b) (λ r. D.Reader.remaining r)) (settings_in informer.old) dialer.old c dialer.new informer.new (W.contents out.old) (W.contents out.new)) }
    ensures fault { (c : Client) → Is (λ b s. I.keys b s) informer.old c → IsIdle c
        → OnErr result (ReceivedPrefix (settings_in informer.old).wanted c (W.contents out.old) (W.contents out.new)) }
    ensures undialled { (c : Client) → Is (λ b s. I.keys b s) informer.old c → IsIdle c → IfErr result (λ f. is_undialled f ≡ true → Is (λ b s. I.keys b s) informer.new (closed (asked c)) × (out.new ≡ out.old)) }
{
    let Some(request) = informer.next_request()? else {
        return Ok(());
    };
    let mut reader = match dialer.dial(&request) {
        Ok(reader) => reader,
        Err(error) => {
            informer.closed();
            return Err(MirrorFault::Dial(error));
        }
    };
    let done = receive(alloc, &mut reader, informer, out);
    informer.closed();
    done
}

/// Turns until there is a first list, and its lines. Answers how many it took; none, where there is one already.
fn first_list<D: Dial, I: IndexBy, W: Write>(
    alloc: Global,
    dialer: &mut D,
    informer: &mut Informer<I>,
    out: &mut W,
    turns: u64,
) -> Result<u64, MirrorFault>
    ensures settings { settings_in informer.new ≡ settings_in informer.old }
    ensures few { IfOk result (λ n. n ≤ turns) }
    ensures emitted { (c : Client) → Is (λ b s. I.keys b s) informer.old c → IsIdle c
        → IfOk result (λ n. MirrorsSoFar (λ b s. I.keys b s) (Answers (λ a q r b. D.dials a q r b) (λ r. D.Reader.remaining r)) (λ a t b. D.learns a t b) (settings_in informer.old) n dialer.old c dialer.new informer.new (W.contents out.old) (W.contents out.new)) }
    ensures fault { (c : Client) → Is (λ b s. I.keys b s) informer.old c → IsIdle c
        → OnErr result (MirrorsPrefix (Answers (λ a q r b. D.dials a q r b) (λ r. D.Reader.remaining r)) (λ a t b. D.learns a t b) (settings_in informer.old) turns dialer.old c (W.contents out.old) (W.contents out.new)) }
    ensures undialled { (c : Client) → Is (λ b s. I.keys b s) informer.old c → IsIdle c
        → IfErr result (λ f. is_undialled f ≡ true → MirrorsSome (λ b s. I.keys b s) (Answers (λ a q r b. D.dials a q r b) (λ r. D.Reader.remaining r)) (λ a t b. D.learns a t b) (settings_in informer.old) turns dialer.old c informer.new (W.contents out.old) (W.contents out.new)) }
{
    let was = informer.revision();
    let made = catch_up(alloc, dialer, informer, 0, turns)?;
    if made == 0 {
        return Ok(0);
    }
    tell(alloc, informer, was, out)?;
    Ok(made)
}

/// So many turns, one after another: those that catch up with a first list, and others. After a reply that was given up, the dialer is told why.
pub fn mirror<D: Dial, I: IndexBy, W: Write>(
    alloc: Global,
    dialer: &mut D,
    informer: &mut Informer<I>,
    out: &mut W,
    turns: u64,
) -> Result<(), MirrorFault>
    ensures settings { settings_in informer.new ≡ settings_in informer.old }
    ensures emitted { (c : Client) → Is (λ b s. I.keys b s) informer.old c → IsIdle c
        → OnOk result (MirrorsAll (λ b s. I.keys b s) (Answers (λ a q r b. D.dials a q r b) (λ r. D.Reader.remaining r)) (λ a t b. D.learns a t b) (settings_in informer.old) turns dialer.old c dialer.new informer.new (W.contents out.old) (W.contents out.new)) }
    ensures fault { (c : Client) → Is (λ b s. I.keys b s) informer.old c → IsIdle c
        → OnErr result (MirrorsPrefix (Answers (λ a q r b. D.dials a q r b) (λ r. D.Reader.remaining r)) (λ a t b. D.learns a t b) (settings_in informer.old) turns dialer.old c (W.contents out.old) (W.contents out.new)) }
    ensures undialled { (c : Client) → Is (λ b s. I.keys b s) informer.old c → IsIdle c
        → IfErr result (λ f. is_undialled f ≡ true → MirrorsSome (λ b s. I.keys b s) (Answers (λ a q r b. D.dials a q r b) (λ r. D.Reader.remaining r)) (λ a t b. D.learns a t b) (settings_in informer.old) turns dialer.old c informer.new (W.contents out.old) (W.contents out.new)) }
{
    let made = first_list(alloc, dialer, informer, out, turns)?;
    'turns: for _ in made..turns {
        turn(alloc, dialer, informer, out)?;
        report_relist_reason(dialer, informer.relist_reason());
    }
    Ok(())
}
