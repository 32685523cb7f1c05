//! A client's requests, and replies cut at every place. What lists and lines in them say stands in `decoded`.
//!
//! A reply stands in one line: `#` is a head up to its body's length, `§` a head of chunks, `¶` the end of a line, and `␍` and
//! `␊` are its two bytes. `FRONT~COUNT PIECE~BACK` is a reply with the piece so many times.
//!
//! | question | answer |
//! |---|---|
//! | `reply TEXT` | what is told of the reply, if that is the same wherever it is cut in two |
//! | `once FILLED` | what is told of it, cut behind its first byte |
//! | `line FILLED` | how many items are told of it in one piece, and the last of them |
//! | `limit FILLED` | how many bytes have come, one by one, when a bad one is told; 0 where no byte is bad |
//! | `bad` | what is told of a bad byte, and of a piece and one of no bytes after it |
//! | `request METHOD TARGET`, `request METHOD TARGET TYPE BODY` | the bytes of the request |

use crate::rows::{Answers, first_word, in_words, number, play};
use std::alloc::{AllocError, Global};
use std::test::Fail;
use wireclient::{Item, ReadFault, ReplyReader, request_bytes};

const LENGTH: &str = "HTTP/1.1 200 OK\r\nContent-Length: ";

const CHUNKED: &str = "HTTP/1.1 200 OK\r\ntransfer-encoding: Chunked\r\n\r\n";

#[derive(Drop)]
struct Wire;

impl Answers for Wire {
    fn answer(&mut self, alloc: Global, question: &str) -> Result<String, Fail> {
        let (call, text) = first_word(question);
        match call {
            "reply" => in_words_however_cut(alloc, unfolded(alloc, text)?.as_str()),
            "bad" => {
                let mut reader = ReplyReader::new(alloc);
                let bad = reader.feed(b"HTTP/1.1 200 OK\r\n\r\nabc");
                in_words(alloc, (bad, reader.feed(b"abc"), reader.feed(b"")))
            }
            "request" => request(alloc, text),
            _ => in_words_of_filled(alloc, call, filled(alloc, text)?.as_str()),
        }
    }
}

fn unfolded(alloc: Global, line: &str) -> Result<String, AllocError> {
    let mut text = String::new(alloc);
    for letter in line.chars() {
        match letter {
            '§' => text.push_str(CHUNKED)?,
            '#' => text.push_str(LENGTH)?,
            '¶' => text.push_str("\r\n")?,
            '␍' => text.push('\r')?,
            '␊' => text.push('\n')?,
            _ => text.push(letter)?,
        }
    }
    Ok(text)
}

/// The reply of `FRONT~COUNT PIECE~BACK`.
fn filled(alloc: Global, line: &str) -> Result<String, Fail> {
    let (prefix, line) = line.split_once('~').ok_or("no piece")?;
    let (pieces, back) = line.split_once('~').ok_or("no back")?;
    let (count, piece) = first_word(pieces);
    let pieces = piece.repeat(alloc, number(count)? as usize)?;
    let line = format!(in alloc; "{prefix}{pieces}{back}")?;
    Ok(unfolded(alloc, line.as_str())?)
}

/// Puts what a reader tells of a piece, a status, the bytes of a body and of each line, the end or a bad byte; after a bad
/// byte that is nothing.
fn push_in_words(
    alloc: Global,
    text: &mut String,
    reader: &mut ReplyReader,
    piece: &[u8],
) -> Result<(), AllocError> {
    let items = match reader.feed(piece) {
        Ok(items) => items,
        Err(ReadFault::Malformed) => return Ok(()),
        Err(ReadFault::Memory) => return Err(AllocError),
    };
    for item in items.iter() {
        let told = match item {
            Item::Head(status) => format!(in alloc; " {status}")?,
            Item::Body(bytes) => format!(in alloc; " body {:?}", str::from_utf8(bytes).ok())?,
            Item::Line(bytes) => format!(in alloc; " line {:?}", str::from_utf8(bytes).ok())?,
            Item::End => String::from_str(alloc, " end")?,
            Item::Malformed => String::from_str(alloc, " malformed")?,
        };
        text.push_str(told.as_str())?;
    }
    Ok(())
}

/// What a reader tells of the reply, which comes in two pieces.
fn in_words_in_two(alloc: Global, reply: &str, cut: usize) -> Result<String, AllocError> {
    let mut reader = ReplyReader::new(alloc);
    let mut text = String::from_str(alloc, "told")?;
    let bytes = reply.as_bytes();
    let (prefix, back) = bytes.split_at(cut.min(bytes.len()));
    push_in_words(alloc, &mut text, &mut reader, prefix)?;
    push_in_words(alloc, &mut text, &mut reader, back)?;
    Ok(text)
}

/// What a reader tells of the reply byte by byte, if it tells the same of two pieces, wherever the reply is cut.
fn in_words_however_cut(alloc: Global, reply: &str) -> Result<String, Fail> {
    let mut reader = ReplyReader::new(alloc);
    let mut text = String::from_str(alloc, "told")?;
    for piece in reply.as_bytes().chunks(1) {
        push_in_words(alloc, &mut text, &mut reader, piece)?;
    }
    for cut in 0..=reply.len() {
        if in_words_in_two(alloc, reply, cut)?.as_str() != text.as_str() {
            return Err("cut otherwise, it is told otherwise".into());
        }
    }
    Ok(text)
}

fn in_words_of_filled(alloc: Global, call: &str, reply: &str) -> Result<String, Fail> {
    match call {
        "once" => Ok(in_words_in_two(alloc, reply, 1)?),
        "limit" => in_words(alloc, bytes_to_malformed(alloc, reply)),
        "line" => {
            let items = ReplyReader::new(alloc).feed(reply.as_bytes())?;
            in_words(alloc, (items.len(), items.last()))
        }
        _ => Err("no such call".into()),
    }
}

fn bytes_to_malformed(alloc: Global, reply: &str) -> Result<usize, ReadFault> {
    let mut reader = ReplyReader::new(alloc);
    for (i, piece) in reply.as_bytes().chunks(1).enumerate() {
        if reader.feed(piece)?.contains(&Item::Malformed) {
            return Ok(i + 1);
        }
    }
    Ok(0)
}

fn request(alloc: Global, words: &str) -> Result<String, Fail> {
    let (method, words) = first_word(words);
    let (target, words) = first_word(words);
    let (media, content) = first_word(words);
    let body = if media.is_empty() {
        None
    } else {
        Some(content.as_bytes())
    };
    let bytes = request_bytes(alloc, method, target, media, body)?;
    in_words(alloc, str::from_utf8(&bytes))
}

const EXAMPLES: &str = r#"a_reply_is_told_the_same_however_it_is_cut
reply #0003¶¶abc HTTP => told 200 body Some("abc") end
reply #0¶¶ => told 200 body Some("") end
reply §4¶ab␊c¶0A¶d␊␊efghij␊¶0¶¶more => told 200 line Some("ab") line Some("cd") line Some("") line Some("efghij") end
reply §0¶¶ => told 200 end
reply ¶HTTP/1.0 204 ␊Date: x␊Content-Length: 1␊␊␊ => told 204 body Some("\n") end
reply §4¶ab␊c¶1;a=b¶ => told 200 line Some("ab") malformed

a_bad_byte_is_told_when_it_comes
reply #1¶Content-Length: 1¶¶ => told malformed
reply #1¶Transfer-Encoding: chunked¶¶ => told malformed
reply #1073741824¶¶ => told 200
reply #1073741825¶¶ => told malformed
reply #1073741825¶␍ => told
reply #¶¶ => told malformed
reply #+1¶¶ => told malformed
reply #1 1¶¶ => told malformed
reply HTTP/2.0 200 OK¶Content-Length: 1¶¶ => told malformed
reply HTTP/1.1 20 OK¶Content-Length: 1¶¶ => told malformed
reply HTTP/1.1 200 OK¶¶ => told malformed
reply HTTP/1.1 200 OK¶Transfer-Encoding: gzip¶¶ => told malformed
reply HTTP/1.1 200 OK¶Transfer-Encoding: chunked¶Transfer-Encoding: chunked¶¶ => told malformed
reply ICY 200 OK¶Content-Length: 1¶¶ => told malformed
reply §␍ => told 200 malformed
reply §0000000000000001¶a¶ => told 200
reply §00000000000000001 => told 200 malformed
reply §00000000000000000001¶a¶ => told 200 malformed
reply §1␊ => told 200 malformed
reply §g => told 200 malformed
reply §1 ¶ => told 200 malformed
reply §1;a=b¶ => told 200 malformed
reply §1¶ab => told 200 malformed
reply §0¶x => told 200 malformed
reply §1¶a¶0¶␍ => told 200
reply §1¶a¶0¶¶ => told 200 malformed
bad => (Ok([Malformed]), Err(Malformed), Err(Malformed))

a_head_has_16384_bytes_and_64_fields: 41 bytes before the letters and 4 behind them
once HTTP/1.1 200 OK¶Content-Length: 1¶~63 a:b¶~¶ => told 200
once HTTP/1.1 200 OK¶Content-Length: 1¶~64 a:b¶~¶ => told malformed
once HTTP/1.1 200 OK¶Content-Length: 1¶Pad: ~16339 a~¶¶ => told 200
once HTTP/1.1 200 OK¶Content-Length: 1¶Pad: ~16340 a~¶¶ => told malformed

requests_have_a_host_and_a_framed_body
request GET /api/widgets?watch=true => Ok("GET /api/widgets?watch=true HTTP/1.1\r\nHost: localhost\r\n\r\n")
request PATCH /w application/json {"a":1} => Ok("PATCH /w HTTP/1.1\r\nHost: localhost\r\nContent-Type: application/json\r\nContent-Length: 7\r\n\r\n{\"a\":1}")"#;

#[test]
fn examples(rt: HostRuntime) -> Result<(), Fail> {
    for example in EXAMPLES.split("\n\n") {
        play(rt.alloc(), &mut Wire, example)?;
    }
    Ok(())
}

const LONG: &str = r#"a_line_has_2097152_bytes: its line feed is the last
line §200000¶~2097151 a~␊¶0¶¶ => (3, Some(End))
line §200001¶~2097152 a~␊¶0¶¶ => (2, Some(Malformed))

a_limit_is_met_with_the_byte_that_passes_it: a head's, a chunk size's behind 47 bytes, a line's behind 55
limit HTTP/1.1 200 OK¶Pad: ~16386 a~ => Ok(16385)
limit ~16386 ␊~ => Ok(16385)
limit §~65 0~ => Ok(64)
limit HTTP/1.1 200 OK¶Transfer-Encoding: chunked¶¶ffffff¶~2097209 a~ => Ok(2097208)"#;

#[test]
fn long_replies(rt: HostRuntime) -> Result<(), Fail> {
    for example in LONG.split("\n\n") {
        play(rt.alloc(), &mut Wire, example)?;
    }
    Ok(())
}
