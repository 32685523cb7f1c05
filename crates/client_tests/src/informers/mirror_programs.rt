//! The program `ssa-mirror` without its sockets: its arguments, and what it prints of replies where streams fail. The
//! connections are those of `mirrors`.

use crate::informers::mirrors::server_of;
use crate::rows::{expect_text, in_words};
use api_types::{Profile, Types};
use mirror_program::{MirrorOptions, options, print_changes};
use programs::Resource;
use serde_json::Value;
use std::alloc::Global;
use std::io;
use std::io::{ErrorKind, Write};
use std::test::Fail;

/// One type.
const WIDGETS: &str =
    r#"{"types":[{"group":"demo.example","version":"v1","kind":"Widget","plural":"widgets","schema":{"type":"object","properties":{"spec":{"type":"object","properties":{}}}}}]}"#;

/// A list, a watch that adds and deletes and is cut, and one that goes on.
const REPLIES: &str =
    "page 6 - w1@2 w2@3|watch;line ADDED w3@7;line DELETED w1@8;half ADDED w4@9|watch;line ADDED w4@9";

/// What is printed of them.
const PRINTED: &str =
    "synced 6\nadded default/w1 2\nadded default/w2 3\nadded default/w3 7\ndeleted default/w1 2\nadded default/w4 9\n";

/// An output that takes so many writes and then none.
#[derive(Drop)]
struct Output {
    taken: Vec<u8>,
    writes: usize,
}

impl Write for Output {
    fn write(&mut self, buf: &[u8]) -> io::Result<usize> {
        if self.writes == 0 {
            return Err(io::Error::from(ErrorKind::BrokenPipe));
        }
        self.writes -= 1;
        // Half of it at most, so that there are more writes.
        let most = buf.len().div_ceil(2);
        self.taken.extend_from_slice(&buf[..most])?;
        Ok(most)
    }

    fn flush(&mut self) -> io::Result<()> {
        Ok(())
    }
}

/// Three connections for all widgets.
const ALL: MirrorOptions<'static> = MirrorOptions {
    types: "types.json",
    port: 8001,
    resource: Resource {
        group: "demo.example",
        version: "v1",
        plural: "widgets",
    },
    namespace: None,
    selector: "",
    page: 500,
    turns: 3,
};

/// What is printed with so many reads and so many writes, and how it ends.
fn printed(alloc: Global, reads: usize, writes: usize) -> Result<(String, String), Fail> {
    let mut server = server_of(alloc, REPLIES)?;
    server.reads = reads;
    let mut output = Output {
        taken: Vec::new(alloc),
        writes,
    };
    let types = Types::read(alloc, Profile::Plain, &Value::from_str(alloc, WIDGETS)?)?;
    let options = ALL;
    let done = print_changes(alloc, &types, &options, &mut server, &mut output);
    let end = match done {
        Ok(()) => String::from_str(alloc, "done")?,
        Err(fault) => format!(in alloc; "{}: {fault}", fault.status())?,
    };
    Ok((String::from_utf8(output.taken).map_err(|_| "no text")?, end))
}

#[test]
fn arguments_are_read(rt: HostRuntime) -> Result<(), Fail> {
    let alloc = rt.alloc();
    for (words, wanted) in [
        (
            "ssa-mirror --types t --port 8001 --type g/v/p",
            r#"MirrorOptions { types: "t", port: 8001, resource: Resource { group: "g", version: "v", plural: "p" }, namespace: None, selector: "", page: 500, turns: 18446744073709551615 }"#,
        ),
        (
            "ssa-mirror --types t --port 65535 --type /v/ --namespace default --selector a=b --page 4294967295 --turns 7",
            r#"MirrorOptions { types: "t", port: 65535, resource: Resource { group: "", version: "v", plural: "" }, namespace: Some("default"), selector: "a=b", page: 4294967295, turns: 7 }"#,
        ),
        (
            "ssa-mirror --types t --port 1 --type g/v/p --page 0",
            r#"MirrorOptions { types: "t", port: 1, resource: Resource { group: "g", version: "v", plural: "p" }, namespace: None, selector: "", page: 0, turns: 18446744073709551615 }"#,
        ),
    ] {
        let words: Vec<&str> = words.split(' ').collect(alloc)?;
        let found = options(alloc, words.as_slice()).map_err(|_| "refused words")?;
        expect_text(in_words(alloc, found)?, wanted)?;
    }
    let words: Vec<&str> = "ssa-mirror --types t --port 0 --type g/v/p"
        .split(' ')
        .collect(alloc)?;
    let refused = options(alloc, words.as_slice());
    match refused {
        Ok(_) => Err("words are read".into()),
        Err(fault) => expect_text(
            format!(in alloc; "{}: {fault}", fault.status())?,
            "2: --port: a whole number from 1 to 65535",
        ),
    }
}

/// The test fails unless what is printed is a prefix of all, and ends so, or is all and ends well. Whether it is all.
fn is_all(printed: (String, String), wanted: &str) -> Result<bool, Fail> {
    let (text, end) = printed;
    if text.as_str() == PRINTED {
        expect_text(end, "done")?;
        return Ok(true);
    }
    if !PRINTED.starts_with(text.as_str()) {
        return Err(Fail::new(text));
    }
    expect_text(end, wanted)?;
    Ok(false)
}

/// An output that takes so many writes and then fails has a prefix of what is printed, and ends it with status 1.
#[test]
fn outputs_that_fail_keep_a_prefix(rt: HostRuntime) -> Result<(), Fail> {
    for writes in 0..1000 {
        let printed = printed(rt.alloc(), usize::MAX, writes)?;
        if is_all(printed, "1: standard output: broken pipe")? {
            return Ok(());
        }
    }
    Err("all writes fail".into())
}

/// Where reads fail from one on, the connections are cut: what was told before stays, and no fault ends it.
#[test]
fn reads_that_fail_are_cuts(rt: HostRuntime) -> Result<(), Fail> {
    for reads in 0..1000 {
        if is_all(printed(rt.alloc(), reads, usize::MAX)?, "done")? {
            return Ok(());
        }
    }
    Err("all reads fail".into())
}
