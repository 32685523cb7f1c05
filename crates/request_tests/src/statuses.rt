//! The Status of a refusal, in detail: what it says of the object and of the field. A row is `TYPE NAME FAULT TEXT => STATUS`.
//!
//! The type is `Thing` of a group, of the profile `kubernetes`, or `core` of none; `discovered` and `plain` follow other profiles.
//! The name is `-` where it isn't known. The fault is `conflict`, which is of no field; `misread`, of a field; or what the rule is that
//! a field breaks: `invalid`, `required`, `repeated` or `forbidden`. The text is the path of the field, a colon and what is wrong.

use api_request::{CallError, CallRefusal, CauseType, Reason};
use api_types::{Profile, Served};
use schema::Schema;
use std::alloc::{AllocError, Global};
use std::test::Fail;
use test_rows::{Answers, expect_text, first_word, in_words, play_all};

#[derive(Drop)]
struct Statuses;

impl Answers for Statuses {
    fn answer(&mut self, alloc: Global, question: &str) -> Result<String, Fail> {
        let (word, rest) = first_word(question);
        let (name, rest) = first_word(rest);
        let (fault, text) = first_word(rest);
        let served = served(alloc, word)?;
        let name = if name == "-" { None } else { Some(name) };
        let error = error_of(alloc, fault, text)?;
        status(alloc, error.in_detail(alloc, &served, name))
    }
}

/// The type of a row's first word.
fn served(alloc: Global, word: &str) -> Result<Served, AllocError> {
    let group = if word == "core" { "" } else { "wide.example" };
    let profile = match word {
        "discovered" => Profile::Discovered,
        "plain" => Profile::Plain,
        _ => Profile::Kubernetes(0),
    };
    Ok(Served {
        group: String::from_str(alloc, group)?,
        version: String::from_str(alloc, "v1")?,
        kind: String::from_str(alloc, "Thing")?,
        plural: String::from_str(alloc, "things")?,
        schema: Schema::Text,
        profile,
    })
}

fn cause_of(fault: &str) -> CauseType {
    match fault {
        "required" => CauseType::FieldValueRequired,
        "repeated" => CauseType::FieldValueDuplicate,
        _ => CauseType::FieldValueForbidden,
    }
}

fn error_of(alloc: Global, fault: &str, text: &str) -> Result<CallError, Fail> {
    if fault == "conflict" {
        return Ok(CallError::refused_for(alloc, Reason::Conflict, text));
    }
    let (path, what) = text.split_once(": ").ok_or("no path")?;
    let reason = Reason::Invalid;
    match fault {
        "invalid" => Ok(CallError::invalid_at(alloc, path, what)),
        "misread" => Ok(misread(alloc, path, what)),
        _ => Ok(CallError::Refused(CallRefusal::at_field(
            alloc,
            reason,
            cause_of(fault),
            path,
            what,
        )?)),
    }
}

fn misread(alloc: Global, path: &str, what: &str) -> CallError {
    let cause = CauseType::FieldValueInvalid;
    CallError::at_field(alloc, Reason::BadRequest, cause, path, what)
}

fn status(alloc: Global, error: CallError) -> Result<String, Fail> {
    match error {
        CallError::Refused(refusal) => Ok(refusal.into_text(alloc)?),
        CallError::Memory => Err("no memory".into()),
    }
}

const EXAMPLES: &str = r#"fields_that_break_a_rule
Thing a invalid metadata.uid: immutable => {"apiVersion":"v1","code":422,"details":{"causes":[{"field":"metadata.uid","message":"immutable","reason":"FieldValueInvalid"}],"group":"wide.example","kind":"Thing","name":"a"},"kind":"Status","message":"metadata.uid: immutable","metadata":{},"reason":"Invalid","status":"Failure"}
Thing z1 forbidden metadata.finalizers: no new finalizers while the object is being deleted => {"apiVersion":"v1","code":422,"details":{"causes":[{"field":"metadata.finalizers","message":"no new finalizers while the object is being deleted","reason":"FieldValueForbidden"}],"group":"wide.example","kind":"Thing","name":"z1"},"kind":"Status","message":"metadata.finalizers: no new finalizers while the object is being deleted","metadata":{},"reason":"Invalid","status":"Failure"}
Thing m3 repeated .spec.tags: duplicate item => {"apiVersion":"v1","code":422,"details":{"causes":[{"field":".spec.tags","message":"duplicate item","reason":"FieldValueDuplicate"}],"group":"wide.example","kind":"Thing","name":"m3"},"kind":"Status","message":".spec.tags: duplicate item","metadata":{},"reason":"Invalid","status":"Failure"}
Thing m3 required .spec.ports[0]: key field missing => {"apiVersion":"v1","code":422,"details":{"causes":[{"field":".spec.ports[0]","message":"key field missing","reason":"FieldValueRequired"}],"group":"wide.example","kind":"Thing","name":"m3"},"kind":"Status","message":".spec.ports[0]: key field missing","metadata":{},"reason":"Invalid","status":"Failure"}

of_an_object_without_a_name
Thing - invalid metadata.generateName: bad name => {"apiVersion":"v1","code":422,"details":{"causes":[{"field":"metadata.generateName","message":"bad name","reason":"FieldValueInvalid"}]},"kind":"Status","message":"metadata.generateName: bad name","metadata":{},"reason":"Invalid","status":"Failure"}
Thing - misread .metadata.generateName: wrong type => {"apiVersion":"v1","code":400,"kind":"Status","message":".metadata.generateName: wrong type","metadata":{},"reason":"BadRequest","status":"Failure"}

other_refusals
Thing c misread .metadata.uid: wrong type => {"apiVersion":"v1","code":400,"details":{"group":"wide.example","kind":"things","name":"c"},"kind":"Status","message":".metadata.uid: wrong type","metadata":{},"reason":"BadRequest","status":"Failure"}
Thing z1 conflict uid x is not the stored one, 00000000-0000-8000-8000-000000000002 => {"apiVersion":"v1","code":409,"details":{"group":"wide.example","kind":"things","name":"z1"},"kind":"Status","message":"uid x is not the stored one, 00000000-0000-8000-8000-000000000002","metadata":{},"reason":"Conflict","status":"Failure"}

the_core_group_has_no_name
core a invalid metadata.uid: immutable => {"apiVersion":"v1","code":422,"details":{"causes":[{"field":"metadata.uid","message":"immutable","reason":"FieldValueInvalid"}],"kind":"Thing","name":"a"},"kind":"Status","message":"metadata.uid: immutable","metadata":{},"reason":"Invalid","status":"Failure"}
core a conflict version 1 is not the stored one, 5 => {"apiVersion":"v1","code":409,"details":{"kind":"things","name":"a"},"kind":"Status","message":"version 1 is not the stored one, 5","metadata":{},"reason":"Conflict","status":"Failure"}

other_profiles_name_neither
plain a invalid metadata.labels: bad value => {"apiVersion":"v1","code":422,"kind":"Status","message":"metadata.labels: bad value","metadata":{},"reason":"Invalid","status":"Failure"}
discovered a repeated .spec.tags: duplicate item => {"apiVersion":"v1","code":422,"kind":"Status","message":".spec.tags: duplicate item","metadata":{},"reason":"Invalid","status":"Failure"}
discovered a conflict version 1 is not the stored one, 5 => {"apiVersion":"v1","code":409,"kind":"Status","message":"version 1 is not the stored one, 5","metadata":{},"reason":"Conflict","status":"Failure"}"#;

#[test]
fn statuses_in_detail(rt: HostRuntime) -> Result<(), Fail> {
    play_all(rt.alloc(), &mut Statuses, EXAMPLES)
}

/// A refusal is of a broken rule by its reason alone.
#[test]
fn reasons_of_broken_rules(rt: HostRuntime) -> Result<(), Fail> {
    let are = (
        Reason::Invalid.is_invalid(),
        Reason::BadRequest.is_invalid(),
        Reason::Conflict.is_invalid(),
    );
    expect_text(in_words(rt.alloc(), are)?, "(true, false, false)")
}
