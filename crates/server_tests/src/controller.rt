//! How a controller is tested in one process: a server and an informer, without a socket or a clock. A test applies objects and
//! deletes them, gives the informer its turn, and looks at what it was told and what it keeps.

mod process;

use crate::controller::process::Process;
use reflector::Notice;
use std::alloc::Global;
use std::mem;
use std::test::Fail;

const A: &str = r#"{"apiVersion":"demo.example/v1","kind":"Widget","spec":{"image":"a"}}"#;

const B: &str = r#"{"apiVersion":"demo.example/v1","kind":"Widget","spec":{"image":"b"}}"#;

/// What happened, as `added w1 2`: the name, and the version of what is there now, or was there last.
fn in_words(alloc: Global, notice: &Notice) -> Result<String, Fail> {
    let (what, object) = match notice {
        Notice::Added(new) => ("added", new),
        Notice::Updated(_, new) => ("updated", new),
        Notice::Deleted(old) => ("deleted", old),
    };
    Ok(format!(in alloc; "{what} {} {}", object.name, object.revision)?)
}

/// The informer's turn must tell just this, a line each, and leave it at this revision.
fn expect(process: &mut Process, alloc: Global, lines: &str, revision: u64) -> Result<(), Fail> {
    let notices = process.turn()?;
    let mut said = Vec::new(alloc);
    for notice in notices.iter() {
        said.push(in_words(alloc, notice)?)?;
    }
    let said = said.join(alloc, "\n")?;
    if said.as_str() == lines && process.informer().revision() == Some(revision) {
        return Ok(());
    }
    Err(Fail::new(said))
}

/// A widget is applied twice, and another one; then the first is deleted.
fn play(process: &mut Process, alloc: Global) -> Result<(), Fail> {
    process.apply("w1", A)?;
    expect(process, alloc, "added w1 2", 2)?;
    process.apply("w1", B)?;
    process.apply("w2", A)?;
    expect(process, alloc, "updated w1 3\nadded w2 4", 4)?;
    process.delete("w1")?;
    expect(process, alloc, "deleted w1 3", 5)?;
    match process.informer().indexer().len() {
        1 => Ok(()),
        _ => Err(Fail::new(String::from_str(alloc, "one widget is left")?)),
    }
}

// The process isn't dropped: the prover would have to see how each of its parts is.
#[test]
fn a_controller_sees_each_change(rt: HostRuntime) -> Result<(), Fail> {
    let alloc = rt.alloc();
    let mut process = Process::new(alloc)?;
    let played = play(&mut process, alloc);
    mem::forget(process);
    played
}
