//! The text that a mirror prints, and its writing.

ghost use Rattle.std.specs.Prelude.{◌≡◌, Option, IfOk, OnOk, map, option_map, string_bytes};
ghost use Rattle.std.specs.Io.KnownBytes.{Appends};
ghost use Rattle.indexer.specs.Objects.{stored_of};
ghost use Rattle.reflector.specs.Client.{Cache};
ghost use Rattle.reflector.specs.Views.{notice_seen};
ghost use Rattle.mirroring.specs.Printing.{mirror_text, notice_line, object_line, synced_line};
ghost use Rattle.mirroring.specs.Turns.{WritesPrefix, synced_by};

use indexer::Object;
use reflector::Notice;
use std::alloc::{AllocError, Global};
use std::io;
use std::io::Write;
use wire::write_whole;

fn object_line(alloc: Global, what: &str, object: &Object) -> Result<String, AllocError>
    ensures { IfOk result (λ s. string_bytes s ≡ object_line what.now (stored_of object.now)) }
{
    let Object {
        namespace,
        name,
        revision,
        ..
    } = object;
    format!(in alloc; "{what} {namespace}/{name} {revision}\n")
}

fn notice_line(alloc: Global, notice: &Notice) -> Result<String, AllocError>
    ensures { IfOk result (λ s. string_bytes s ≡ notice_line (notice_seen notice.now)) }
{
    match notice {
        Notice::Added(new) => object_line(alloc, "added", new),
        Notice::Updated(_, new) => object_line(alloc, "updated", new),
        Notice::Deleted(old) => object_line(alloc, "deleted", old),
    }
}

fn synced_line(alloc: Global, first: Option<u64>) -> Result<String, AllocError>
    ensures { IfOk result (λ s. string_bytes s ≡ synced_line first) }
{
    match first {
        Some(revision) => format!(in alloc; "synced {revision}\n"),
        None => Ok(String::new(alloc)),
    }
}

/// The revision of the first list, where there is one, and then each notice.
pub(crate) fn mirror_text(
    alloc: Global,
    first: Option<u64>,
    notices: &[Notice],
) -> Result<String, AllocError>
    ensures { IfOk result (λ s. string_bytes s ≡ mirror_text first (map notice_seen notices.now)) }
{
    let mut text = synced_line(alloc, first)?;
    for notice in notices {
        text.push_str(notice_line(alloc, notice)?.as_str())?;
    }
    Ok(text)
}

/// The revision of the first list, by what was the informer's before and is now.
pub(crate) fn first_revision(was: Option<u64>, now: Option<u64>) -> Option<u64>
    ensures { (before : Option Cache) (after : Option Cache) → was ≡ option_map (λ c. c.revision) before → now ≡ option_map (λ c. c.revision) after → result ≡ synced_by before after }
{
    match was {
        Some(_) => None,
        None => now,
    }
}

/// Writes the text through. After an error the writer has a prefix of it.
pub(crate) fn report<W: Write>(out: &mut W, text: &str) -> io::Result<()>
    ensures prefix { WritesPrefix (W.contents out.old) (W.contents out.new) text.now }
    ensures all { OnOk result (Appends (W.contents out.old) (W.contents out.new) text.now) }
{
    write_whole(out, text.as_bytes())?;
    out.flush()
}
