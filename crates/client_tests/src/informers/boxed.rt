//! A boxed index by the value of a label: what an informer answers by it after a list and each kind of change. The
//! replies are made in `replies`.

ghost use Rattle.std.specs.Option.{option_to_list};
ghost use Rattle.std.specs.Prelude.{◌≡◌, IfOk, map, option_map, string_bytes};
ghost use Rattle.indexer.specs.Objects.{stored_of};
ghost use Rattle.summary.specs.Counts.{value_of};

use crate::informers::playing::widgets;
use crate::informers::replies::replies;
use crate::rows::{expect_text, in_words};
use indexer::{IndexBy, Indexer, Object};
use reflector::Informer;
use std::alloc::{AllocError, Global};
use std::mem;
use std::test::Fail;

/// By the value of a label; an object without the label has no key.
#[derive(Drop)]
struct Label {
    label: String,
}

impl IndexBy for Label {
    ghost use Rattle.std.specs.Option.{option_to_list};
    ghost use Rattle.std.specs.Prelude.{string_bytes};
    ghost use Rattle.summary.specs.Counts.{value_of};

    ghost title = { λ b. string_bytes b.label };

    ghost keys = { λ b o. option_to_list (value_of (string_bytes b.label) o) };

    fn name(&self) -> &str {
        self.label.as_str()
    }

    fn keys_of(&self, alloc: Global, object: &Object) -> Result<Vec<String>, AllocError> {
        one_or_none(alloc, value_of(object, self.label.as_str()))
    }
}

/// The value that an object has of the label.
fn value_of<'a>(object: &'a Object, label: &str) -> Option<&'a str>
    ensures { option_map (λ v. v.now) result ≡ value_of label.now (stored_of object.now) }
{
    match object.labels.get(label) {
        Some(value) => Some(value.as_str()),
        None => None,
    }
}

fn one_or_none(alloc: Global, value: Option<&str>) -> Result<Vec<String>, AllocError>
    ensures { IfOk result (λ v. map string_bytes v.items ≡ option_to_list (option_map (λ b. b.now) value.entry)) }
{
    match value {
        Some(value) => Ok(vec![in alloc; String::from_str(alloc, value)?]?),
        None => Ok(Vec::new(alloc)),
    }
}

/// The objects' keys under each value, after these replies.
fn fed_all<I: IndexBy + Drop>(alloc: Global, informer: &mut Informer<I>) -> Result<(), Fail> {
    for (words, wanted) in [
        (
            "page 4 - a@1,web b@2,web c@3",
            "(Some({ObjectKey { namespace: \"default\", name: \"a\" }, ObjectKey { namespace: \"default\", name: \"b\" }}), None)",
        ),
        (
            "watch;line ADDED d@5,db",
            "(Some({ObjectKey { namespace: \"default\", name: \"a\" }, ObjectKey { namespace: \"default\", name: \"b\" }}), Some({ObjectKey { namespace: \"default\", name: \"d\" }}))",
        ),
        (
            "line MODIFIED a@6,db",
            "(Some({ObjectKey { namespace: \"default\", name: \"b\" }}), Some({ObjectKey { namespace: \"default\", name: \"a\" }, ObjectKey { namespace: \"default\", name: \"d\" }}))",
        ),
        (
            "line DELETED b@7,web",
            "(None, Some({ObjectKey { namespace: \"default\", name: \"a\" }, ObjectKey { namespace: \"default\", name: \"d\" }}))",
        ),
    ] {
        informer.next_request()?;
        informer.feed(replies(alloc, words)?.as_bytes())?;
        let indexer = informer.indexer();
        let told = (
            indexer.by_index("tier", "web"),
            indexer.by_index("tier", "db"),
        );
        expect_text(in_words(alloc, told)?, wanted)?;
    }
    Ok(())
}

/// One function makes the boxes and the informer, since another that took boxes behind a reference would hide what is in
/// them; what feeds it takes any index.
#[test]
fn a_boxed_index_follows(rt: HostRuntime) -> Result<(), Fail> {
    let alloc = rt.alloc();
    let mut indexes: Vec<Box<dyn IndexBy>> = Vec::new(alloc);
    let label = String::from_str(alloc, "tier")?;
    indexes.push(Box::new(alloc, Label { label })?)?;
    let indexer = Indexer::new(alloc, indexes)?;
    let source = widgets(alloc)?;
    let made = Informer::new(alloc, source, None, String::new(alloc), 500, indexer);
    let mut informer = made.map_err(|_| "refused settings")?;
    let followed = fed_all(alloc, &mut informer);
    mem::forget(informer);
    followed
}
