//! Whether writes refuse unknown fields. A row is `QUERY => WHETHER`.

use params::is_strict;
use std::alloc::Global;
use std::test::Fail;
use test_rows::{Answers, in_words, play_all};

#[derive(Drop)]
struct Queries;

impl Answers for Queries {
    fn answer(&mut self, alloc: Global, question: &str) -> Result<String, Fail> {
        in_words(alloc, is_strict(alloc, question.as_bytes())?)
    }
}

const EXAMPLES: &str = "the_first_value_that_is_given
fieldValidation=Strict => true
fieldManager=a&fieldValidation=%53trict => true
fieldValidation=Strict&fieldValidation=Ignore => true
fieldValidation=&fieldValidation=Strict => true
fieldValidation=Ignore&fieldValidation=Strict => false
fieldValidation=Warn => false
fieldValidation=strict => false
fieldValidation=Strict%20 => false
fieldValidation= => false
fieldManager=Strict => false";

#[test]
fn who_refuses_unknown_fields(rt: HostRuntime) -> Result<(), Fail> {
    play_all(rt.alloc(), &mut Queries, EXAMPLES)
}
