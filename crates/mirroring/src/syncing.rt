//! Catching up: an informer's turns until it has a revision. Turns whose changes are written out stand in `turning`.

ghost use Rattle.std.specs.Prelude.{◌≡◌, ◌≤◌, [], List, length, Option, None, false, true, IfErr, IfOk, OnErr, OnOk, option_map};
ghost use Rattle.wireclient.specs.Reply.{ReplyItem};
ghost use Rattle.reflector.specs.Client.{Cache, Client};
ghost use Rattle.reflector.specs.InformerViews.{InformerRepresents, settings_in, relist_reason_in};
ghost use Rattle.reflector.specs.Run.{asked, closed};
ghost use Rattle.mirroring.specs.Syncs.{CatchesUp, Leaves, Received, ReceivedUntilFault, Replies, Syncs, SyncsSome, has_reached};
ghost use Rattle.mirroring.specs.Turns.{Answers, Is, is_undialled};

use crate::dial::{Dial, report_relist_reason};
use crate::fault::MirrorFault;
use crate::reading::next_piece;
use indexer::IndexBy;
use reflector::Informer;
use std::alloc::Global;
use std::io::Read;

/// Whether there is a revision that isn't below the least.
fn has_reached(revision: Option<u64>, least: u64) -> bool
    ensures { (cache : Option Cache) → revision ≡ option_map (λ c. c.revision) cache → result ≡ has_reached least cache }
{
    match revision {
        Some(revision) => least <= revision,
        None => false,
    }
}

/// Hands the reply to the informer as long as that awaits it and hasn't the revision.
fn receive_until<R: Read, I: IndexBy>(
    alloc: Global,
    reader: &mut R,
    informer: &mut Informer<I>,
    least: u64,
) -> Result<(), MirrorFault>
    ensures settings { settings_in informer.new ≡ settings_in informer.old }
    ensures received { (c : Client) → InformerRepresents (λ b s. I.keys b s) informer.old (asked c) [] [] → relist_reason_in informer.old ≡ None
        → OnOk result (Received (λ b s. I.keys b s) (settings_in informer.old).wanted c informer.new (R.remaining reader.old) (R.remaining reader.new)) }
    ensures left { (c : Client) → InformerRepresents (λ b s. I.keys b s) informer.old (asked c) [] [] → relist_reason_in informer.old ≡ None
        → OnErr result (ReceivedUntilFault (λ b s. I.keys b s) (settings_in informer.old).wanted c informer.new) }
    ensures dialled { IfErr result (λ f. is_undialled f ≡ false) }
{
    'pieces: for _ in 0..u64::MAX {
        if !informer.is_awaiting_reply() {
            break;
        }
        if has_reached(informer.revision(), least) {
            break;
        }
        let piece = next_piece(alloc, reader)?;
        if piece.is_empty() {
            break;
        }
        informer.feed(&piece)?;
    }
    Ok(())
}

/// One connection: it is dialled, the request that is due is sent, and the reply is received until the informer has the
/// revision.
fn turn_until<D: Dial, I: IndexBy>(
    alloc: Global,
    dialer: &mut D,
    informer: &mut Informer<I>,
    least: u64,
) -> Result<(), MirrorFault>
    ensures settings { settings_in informer.new ≡ settings_in informer.old }
    ensures replied { (c : Client) → Is (λ b s. I.keys b s) informer.old c → c.is_awaiting_reply ≡ false
        → OnOk result (Replies (λ b s. I.keys b s) (Answers (λ a q r b. D.dials a q r b) (λ r. D.Reader.remaining r)) (settings_in informer.old) dialer.old c dialer.new informer.new) }
    ensures left { (c : Client) → Is (λ b s. I.keys b s) informer.old c → c.is_awaiting_reply ≡ false
        → IfErr result (λ f. (part : List ReplyItem) × (d : Client) × Leaves (λ b s. I.keys b s) (settings_in informer.old).wanted c part d informer.new × (is_undialled f ≡ true → d ≡ closed (asked c))) }
{
    let Some(request) = informer.next_request()? else {
        return Ok(());
    };
    let mut reader = match dialer.dial(&request) {
        Ok(reader) => reader,
        Err(error) => {
            informer.closed();
            return Err(MirrorFault::Dial(error));
        }
    };
    let done = receive_until(alloc, &mut reader, informer, least);
    informer.closed();
    done
}

/// Turns until the informer has the revision, at most so many. Answers how many it took.
pub(crate) fn catch_up<D: Dial, I: IndexBy>(
    alloc: Global,
    dialer: &mut D,
    informer: &mut Informer<I>,
    least: u64,
    turns: u64,
) -> Result<u64, MirrorFault>
    ensures settings { settings_in informer.new ≡ settings_in informer.old }
    ensures few { IfOk result (λ n. n ≤ turns) }
    ensures made { (c : Client) → Is (λ b s. I.keys b s) informer.old c
        → IfOk result (λ n. (replies : List (List ReplyItem)) × (length replies ≡ n) × CatchesUp (λ b s. I.keys b s) (Answers (λ a q r b. D.dials a q r b) (λ r. D.Reader.remaining r)) (λ a t b. D.learns a t b) (settings_in informer.old) least turns dialer.old (closed c) dialer.new informer.new replies) }
    ensures fault { (c : Client) → Is (λ b s. I.keys b s) informer.old c
        → IfErr result (λ f. SyncsSome (λ b s. I.keys b s) (Answers (λ a q r b. D.dials a q r b) (λ r. D.Reader.remaining r)) (λ a t b. D.learns a t b) (settings_in informer.old) least turns dialer.old (closed c) informer.new (is_undialled f)) }
{
    informer.closed();
    'turns: for made in 0..turns {
        if has_reached(informer.revision(), least) {
            return Ok(made);
        }
        turn_until(alloc, dialer, informer, least)?;
        report_relist_reason(dialer, informer.relist_reason());
    }
    Ok(turns)
}

/// Catches up: asks what is due, one connection after another, until the informer has a whole list whose revision, or that
/// of the watch since, isn't below `least` (0: any), and drops the connection then. Answers whether it got there: else it
/// took so many turns. A request that was under way before is taken for cut. The notices of all that came wait in the
/// informer; after a reply that was given up, the dialer is told why.
///
/// Where the dialer hands replies of a server, the cache is then exactly the server's objects at the informer's revision;
/// and a list whose pages come whole is reached within as many turns as it has pages.
pub fn sync<D: Dial, I: IndexBy>(
    alloc: Global,
    dialer: &mut D,
    informer: &mut Informer<I>,
    least: u64,
    turns: u64,
) -> Result<bool, MirrorFault>
    ensures settings { settings_in informer.new ≡ settings_in informer.old }
    ensures synced { (c : Client) → Is (λ b s. I.keys b s) informer.old c
        → IfOk result (λ is_there. Syncs (λ b s. I.keys b s) (Answers (λ a q r b. D.dials a q r b) (λ r. D.Reader.remaining r)) (λ a t b. D.learns a t b) (settings_in informer.old) least turns dialer.old (closed c) dialer.new informer.new is_there) }
    ensures fault { (c : Client) → Is (λ b s. I.keys b s) informer.old c
        → IfErr result (λ f. SyncsSome (λ b s. I.keys b s) (Answers (λ a q r b. D.dials a q r b) (λ r. D.Reader.remaining r)) (λ a t b. D.learns a t b) (settings_in informer.old) least turns dialer.old (closed c) informer.new (is_undialled f)) }
{
    catch_up(alloc, dialer, informer, least, turns)?;
    Ok(has_reached(informer.revision(), least))
}
