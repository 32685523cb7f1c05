//! Schemas made by hand, whose map list names its key fields in any order: the names of the key fields, `-` for none, and a
//! question as `contents` says.

use crate::contents::answer_under;
use schema::{ListKind, Schema};
use std::alloc::{AllocError, Global};
use std::test::Fail;
use test_rows::{Answers, first_word, play_all};

fn push_field(
    fields: &mut Vec<(String, Schema)>,
    alloc: Global,
    name: &str,
    schema: Schema,
) -> Result<(), Fail> {
    Ok(fields.push((String::from_str(alloc, name)?, schema))?)
}

fn port(alloc: Global) -> Result<Schema, Fail> {
    let mut fields = Vec::new(alloc);
    push_field(&mut fields, alloc, "note", Schema::Text)?;
    push_field(&mut fields, alloc, "port", Schema::Whole)?;
    push_field(&mut fields, alloc, "protocol", Schema::Text)?;
    Ok(Schema::Struct(fields, false))
}

/// The words of a text, `-` for none.
fn words(alloc: Global, text: &str) -> Result<Vec<String>, AllocError> {
    let mut words = Vec::new(alloc);
    if text != "-" {
        for word in text.split(',') {
            words.push(String::from_str(alloc, word)?)?;
        }
    }
    Ok(words)
}

/// A struct with a list of ports that are told apart by the fields of these names.
fn schema(alloc: Global, names: &str) -> Result<Schema, Fail> {
    let kind = ListKind::Keyed(words(alloc, names)?);
    let mut fields = Vec::new(alloc);
    let ports = Schema::List(Box::new(alloc, port(alloc)?)?, kind);
    push_field(&mut fields, alloc, "ports", ports)?;
    Ok(Schema::Struct(fields, false))
}

#[derive(Drop)]
struct Ports;

impl Answers for Ports {
    fn answer(&mut self, alloc: Global, question: &str) -> Result<String, Fail> {
        let (names, question) = first_word(question);
        answer_under(alloc, &schema(alloc, names)?, question)
    }
}

const EXAMPLES: &str = r#"key_names_in_any_order
port,protocol lawful => true
protocol,port lawful => true
protocol,note,port lawful => true
protocol,port,protocol lawful => false
protocol,nope lawful => false
- lawful => false
protocol,port place f:ports k:{"port":80,"protocol":"tcp"} => Some(MapItem)
protocol,port place f:ports k:{"port":80,"protocol":"tcp"} f:note => Some(Leaf)
protocol,port place f:ports k:{"port":80,"protocol":"tcp"} f:port => None
protocol,port place f:ports k:{"port":80,"protocol":"tcp"} f:protocol => None
protocol,port place f:ports k:{"port":80} => None
protocol,port place f:ports k:{"note":"x","port":80,"protocol":"tcp"} => None
protocol,port place f:ports k:{"note":"x","port":80} => None
protocol,port place f:ports k:{"port":"80","protocol":"tcp"} => None
port,protocol place f:ports k:{"port":80,"protocol":"tcp"} => Some(MapItem)
protocol,port,protocol place f:ports k:{"port":80,"protocol":"tcp"} => None
protocol,port print {"ports":[{"protocol":"udp","port":80,"note":"x"},{"port":80,"protocol":"tcp"}]} => {"ports":[{"port":80,"protocol":"tcp"},{"note":"x","port":80,"protocol":"udp"}]}
protocol,port fields {"f:ports":{"k:{\"port\":80,\"protocol\":\"tcp\"}":{".":{},"f:note":{},"f:port":{},"f:protocol":{}}}} => {"f:ports":{"k:{\"port\":80,\"protocol\":\"tcp\"}":{".":{},"f:note":{},"f:port":{},"f:protocol":{}}}}
protocol,port fields {"f:ports":{"k:{\"port\":80,\"protocol\":\"tcp\"}":{".":{},"f:port":{}}}} => NotCanonical
protocol,port fields {"f:ports":{"k:{\"protocol\":\"tcp\"}":{".":{},"f:protocol":{}}}} => OffSchema"#;

#[test]
fn examples(rt: HostRuntime) -> Result<(), Fail> {
    play_all(rt.alloc(), &mut Ports, EXAMPLES)
}
