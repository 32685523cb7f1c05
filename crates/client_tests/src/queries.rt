//! Names, selectors and parameters: each call once, and what no reply shows. The rest is in `tests/` at the top.

use crate::rows::{expect_text, in_words};
use names::{
    decimal_up_to, is_dns_label, is_dns_subdomain, is_label_key, is_label_value, version_of,
};
use params::{Asked, Params, is_dry_run};
use selector::Selector;
use std::alloc::Global;
use std::collections::BTreeMap;
use std::test::Fail;

#[test]
fn names_and_versions(rt: HostRuntime) -> Result<(), Fail> {
    let alloc = rt.alloc();
    let names = (
        is_dns_label("a"),
        is_dns_subdomain("a.b"),
        is_label_key("a.b/c"),
    );
    expect_text(in_words(alloc, names)?, "(true, true, true)")?;
    let others = (
        is_dns_label("a.b"),
        is_dns_subdomain("A"),
        is_label_key("/c"),
    );
    expect_text(in_words(alloc, others)?, "(false, false, false)")?;
    let values = (is_label_value("a"), is_label_value("a/b"));
    expect_text(in_words(alloc, values)?, "(true, false)")?;
    let numbers = (
        version_of("7"),
        version_of("07"),
        decimal_up_to(7, "7"),
        decimal_up_to(7, "8"),
    );
    expect_text(in_words(alloc, numbers)?, "(Some(7), None, Some(7), None)")
}

#[test]
fn selectors(rt: HostRuntime) -> Result<(), Fail> {
    let alloc = rt.alloc();
    let selector = Selector::read(alloc, "!old,tier notin (db)")?;
    let fault = Selector::read(alloc, "a,,b").err();
    let told = (selector.matches(&BTreeMap::new(alloc)), fault);
    expect_text(in_words(alloc, told)?, "(true, Some(Fault(EmptyPart)))")
}

/// Whether field selectors take an object of the name `w1`, and whether they take one without a name.
#[test]
fn objects_without_a_name(rt: HostRuntime) -> Result<(), Fail> {
    let alloc = rt.alloc();
    for (text, wanted) in [
        ("", "(true, true)"),
        ("metadata.name=w1", "(true, false)"),
        ("metadata.name==w1", "(true, false)"),
        ("metadata.name!=w1", "(false, true)"),
        ("metadata.name=w1.old", "(false, false)"),
        ("metadata.name!=w1.old", "(true, true)"),
    ] {
        expect_text(named(alloc, text)?, wanted)?;
    }
    expect_text(named(alloc, "spec.image=a")?, "none")
}

fn named(alloc: Global, text: &str) -> Result<String, Fail> {
    let Some(selector) = Selector::read_fields(alloc, text)? else {
        return Ok(String::from_str(alloc, "none")?);
    };
    let labels = BTreeMap::new(alloc);
    let taken = selector.matches_named(&labels, Some("w1"));
    in_words(alloc, (taken, selector.matches(&labels)))
}

/// The watch, the version, the force and the manager of a list and of a lenient apply.
#[test]
fn parameters(rt: HostRuntime) -> Result<(), Fail> {
    let alloc = rt.alloc();
    for (query, wanted) in [
        (
            "resourceVersionMatch=NotOlderThan&resourceVersion=0",
            "(None, Some(0), false, \"\")",
        ),
        (
            "continue=4.default.w1&resourceVersion=0",
            "(None, Some(0), false, \"\")",
        ),
    ] {
        let it = Params::read(alloc, Asked::List, query.as_bytes())?;
        let values = (it.watch, it.version, it.is_forced, it.manager.as_str());
        expect_text(in_words(alloc, values)?, wanted)?;
    }
    let it = Params::read_leniently(alloc, Asked::Apply, b"fieldManager=a&force=True")?;
    let values = (it.watch, it.version, it.is_forced, it.manager.as_str());
    expect_text(in_words(alloc, values)?, "(None, None, true, \"a\")")?;
    let is_asked = (
        is_dry_run(alloc, b"dryRun=All")?,
        is_dry_run(alloc, b"dryRun=all")?,
    );
    expect_text(in_words(alloc, is_asked)?, "(true, false)")
}

#[test]
fn tokens_and_faults(rt: HostRuntime) -> Result<(), Fail> {
    let alloc = rt.alloc();
    let it = Params::read(alloc, Asked::List, b"limit=2&continue=4.default.w1.old")?;
    match &it.token {
        Some(token) => expect_text(token.text(alloc)?, "4.default.w1.old")?,
        None => return Err("no token".into()),
    }
    match Params::read(alloc, Asked::List, b"resourceVersionMatch=Exact") {
        Ok(_) => Err("no fault".into()),
        Err(fault) => expect_text(
            format!(in alloc; "{fault:?} {fault}")?,
            "Bad(ResourceVersionMatch) bad parameter: resourceVersionMatch",
        ),
    }
}
