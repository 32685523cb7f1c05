//! Replies as a server writes them, each made from a few words of a row; what is asked after them stands in `playing`.

use crate::rows::first_word;
use std::alloc::{AllocError, Global};
use std::test::Fail;

const WATCH: &str =
    "HTTP/1.1 200 OK\r\nContent-Type: application/json\r\nTransfer-Encoding: chunked\r\nConnection: close\r\n\r\n";

/// The bytes that a word stands for; in plain bytes `¶` is the end of a line.
pub fn reply(alloc: Global, words: &str) -> Result<String, Fail> {
    let (word, rest) = first_word(words);
    match word {
        "page" => page(alloc, rest),
        "body" => whole(alloc, "200 OK", rest),
        "status" => whole(alloc, rest, "{}"),
        "watch" => Ok(String::from_str(alloc, WATCH)?),
        "line" => line(alloc, rest),
        "half" => half(alloc, line(alloc, rest)?.as_str()),
        "end" => Ok(String::from_str(alloc, "0\r\n\r\n")?),
        "bytes" => Ok(rest.replace(alloc, "¶", "\r\n")?),
        _ => Err(Fail::new("no such word")),
    }
}

/// The replies that these words stand for, one after another.
pub fn replies(alloc: Global, words: &str) -> Result<String, Fail> {
    let mut text = String::new(alloc);
    for word in words.split(';') {
        text.push_str(reply(alloc, word)?.as_str())?;
    }
    Ok(text)
}

/// The prefix of a line's chunk, up to its first `resourceVersion`.
fn half(alloc: Global, text: &str) -> Result<String, Fail> {
    let (prefix, _) = text.split_once("resourceVersion").ok_or("no version")?;
    Ok(String::from_str(alloc, prefix)?)
}

/// A reply with this body.
fn whole(alloc: Global, status: &str, body: &str) -> Result<String, Fail> {
    let length = body.len();
    Ok(format!(in alloc;
        "HTTP/1.1 {status}\r\nContent-Type: application/json\r\nContent-Length: {length}\r\nConnection: close\r\n\r\n{body}"
    )?)
}

/// A chunk of this line.
fn chunk(alloc: Global, line: &str) -> Result<String, Fail> {
    let size = line.len() + 1;
    Ok(format!(in alloc; "{size:x}\r\n{line}\n\r\n")?)
}

/// The reply to a list: `REVISION TOKEN OBJECT..`, where the token `-` is none.
fn page(alloc: Global, words: &str) -> Result<String, Fail> {
    let (revision, words) = words.split_once(" ").ok_or("no token")?;
    let (token, words) = words.split_once(" ").ok_or("no objects")?;
    let items = objects(alloc, words)?;
    let token = token_member(alloc, token)?;
    let body = format!(in alloc;
        "{{\"apiVersion\":\"demo.example/v1\",\"items\":[{items}],\"kind\":\"WidgetList\",\"metadata\":{{{token}\"resourceVersion\":\"{revision}\"}}}}"
    )?;
    whole(alloc, "200 OK", body.as_str())
}

fn token_member(alloc: Global, token: &str) -> Result<String, AllocError> {
    if token == "-" {
        return Ok(String::new(alloc));
    }
    format!(in alloc; "\"continue\":\"{token}\",")
}

/// Objects with commas between them.
fn objects(alloc: Global, words: &str) -> Result<String, Fail> {
    let mut text = String::new(alloc);
    for word in words.split(' ') {
        push_item(alloc, &mut text, word)?;
    }
    Ok(text)
}

fn push_item(alloc: Global, text: &mut String, word: &str) -> Result<(), Fail> {
    if !text.is_empty() {
        text.push_str(",")?;
    }
    Ok(text.push_str(object(alloc, word)?.as_str())?)
}

/// The object `NAME@REVISION` or `NAME@REVISION,TIER` of namespace `default`.
fn object(alloc: Global, word: &str) -> Result<String, Fail> {
    let (name, rest) = word.split_once("@").ok_or("no revision")?;
    let (revision, tier) = rest.split_once(",").unwrap_or((rest, ""));
    let labels = labels_member(alloc, tier)?;
    Ok(format!(in alloc;
        "{{\"apiVersion\":\"demo.example/v1\",\"kind\":\"Widget\",\"metadata\":{{{labels}\"name\":\"{name}\",\"namespace\":\"default\",\"resourceVersion\":\"{revision}\"}}}}"
    )?)
}

fn labels_member(alloc: Global, tier: &str) -> Result<String, AllocError> {
    if tier.is_empty() {
        return Ok(String::new(alloc));
    }
    format!(in alloc; "\"labels\":{{\"tier\":\"{tier}\"}},")
}

/// A watch's line, as a chunk: `TYPE OBJECT`, or `BOOKMARK REVISION`.
fn line(alloc: Global, words: &str) -> Result<String, Fail> {
    let (kind, rest) = first_word(words);
    let subject = subject(alloc, kind, rest)?;
    let text = format!(in alloc; "{{\"type\":\"{kind}\",\"object\":{subject}}}")?;
    chunk(alloc, text.as_str())
}

fn subject(alloc: Global, kind: &str, word: &str) -> Result<String, Fail> {
    if kind != "BOOKMARK" {
        return object(alloc, word);
    }
    Ok(format!(in alloc;
        "{{\"apiVersion\":\"demo.example/v1\",\"kind\":\"Widget\",\"metadata\":{{\"resourceVersion\":\"{word}\"}}}}"
    )?)
}
