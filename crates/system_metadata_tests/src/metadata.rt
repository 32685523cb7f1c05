//! Moments, uids and names that are made of a prefix.
//!
//! | question | answer |
//! |---|---|
//! | `second EPOCH MS` | the second of an event |
//! | `moment EPOCH MS` | its moment |
//! | `uid EPOCH REVISION` | the uid, and the version and the variant that are read in it |
//! | `name NUMBER PREFIX` | the name |
//! | `free NUMBER LETTER PREFIX` | the first name that is free where all that end in a letter are taken |
//! | `prefix TEXT` | whether it can be a `generateName` |

use crate::taken::EndingIn;
use std::alloc::Global;
use std::test::Fail;
use system_metadata::{free_name, generated_name, is_name_prefix, moment, second_at, uid};
use test_rows::{Answers, first_word, in_words, number, play_all};
use uuid::Uuid;

#[derive(Drop)]
struct Metadata;

impl Answers for Metadata {
    fn answer(&mut self, alloc: Global, question: &str) -> Result<String, Fail> {
        let (word, rest) = first_word(question);
        match word {
            "prefix" => in_words(alloc, is_name_prefix(rest)),
            _ => of_number(alloc, word, rest),
        }
    }
}

fn of_number(alloc: Global, word: &str, rest: &str) -> Result<String, Fail> {
    let (first, rest) = first_word(rest);
    let first = number(first)?;
    match word {
        "name" => Ok(generated_name(alloc, rest, first)?),
        "free" => free(alloc, first, rest),
        "second" => Ok(second_at(first, number(rest)?).to_string(alloc)?),
        "moment" => Ok(moment(alloc, first, number(rest)?)?),
        _ => read_uid(alloc, first, number(rest)?),
    }
}

fn free(alloc: Global, first: u64, rest: &str) -> Result<String, Fail> {
    let (letter, prefix) = first_word(rest);
    let letter = *letter.as_bytes().first().ok_or("no letter")?;
    let name = free_name(alloc, &mut EndingIn { letter }, prefix, first)?;
    Ok(name.ok_or("no name is free")?)
}

fn read_uid(alloc: Global, epoch: u64, revision: u64) -> Result<String, Fail> {
    let text = uid(alloc, epoch, revision)?;
    let read = Uuid::parse_str(text.as_str()).ok().ok_or("no UUID")?;
    let told = in_words(alloc, (read.get_version(), read.get_variant()))?;
    Ok(format!(in alloc; "{text} {told}")?)
}

const EXAMPLES: &str = "seconds
second 0 1999 => 1
second 253402207200 1000 => 253402207200

moments: what Python's datetime and GNU date say of the second
moment 0 0 => 1970-01-01T00:00:00Z
moment 0 999 => 1970-01-01T00:00:00Z
moment 0 1000 => 1970-01-01T00:00:01Z
moment 0 1999 => 1970-01-01T00:00:01Z
moment 1893456000 0 => 2030-01-01T00:00:00Z
moment 1893456000 86399999 => 2030-01-01T23:59:59Z
moment 1893456000 86400000 => 2030-01-02T00:00:00Z
moment 946684799 1000 => 2000-01-01T00:00:00Z
moment 951782399 1000 => 2000-02-29T00:00:00Z
moment 951868799 1000 => 2000-03-01T00:00:00Z
moment 1709209815 250 => 2024-02-29T12:30:15Z
moment 1709251199 1000 => 2024-03-01T00:00:00Z
moment 2147483647 1000 => 2038-01-19T03:14:08Z
moment 4107542399 1000 => 2100-03-01T00:00:00Z

last_moments: none is later
moment 253402207199 999 => 9999-12-30T21:59:59Z
moment 253402207199 1000 => 9999-12-30T22:00:00Z
moment 253402207200 0 => 9999-12-30T22:00:00Z
moment 253402207200 1000 => 9999-12-30T22:00:00Z
moment 0 18446744073709551615 => 9999-12-30T22:00:00Z
moment 18446744073709551615 18446744073709551615 => 9999-12-30T22:00:00Z

uids: the digits as Python writes them, and what the crate uuid reads
uid 0 1 => 00000000-0000-8000-8000-000000000001 (Some(Custom), RFC4122)
uid 1893456000 1 => 000070db-d880-8000-8000-000000000001 (Some(Custom), RFC4122)
uid 1893456000 255 => 000070db-d880-8000-8000-0000000000ff (Some(Custom), RFC4122)
uid 1893456001 255 => 000070db-d881-8000-8000-0000000000ff (Some(Custom), RFC4122)
uid 1893456000 281474976710655 => 000070db-d880-8000-8000-ffffffffffff (Some(Custom), RFC4122)
uid 1893456000 281474976710656 => 000070db-d880-8000-8001-000000000000 (Some(Custom), RFC4122)
uid 1893456000 1152921504606846976 => 000070db-d880-8001-8000-000000000000 (Some(Custom), RFC4122)
uid 78187493530 81985529216486895 => 00123456-789a-8000-8123-456789abcdef (Some(Custom), RFC4122)
uid 253402207200 9223372036854775807 => 003afff2-d3e0-8007-8fff-ffffffffffff (Some(Custom), RFC4122)

names: the digits as Python writes them
name 0 gen- => gen-bbbbb
name 1 gen- => gen-bbbbc
name 26 gen- => gen-bbbb9
name 27 gen- => gen-bbbcb
name 729 gen- => gen-bbcbb
name 14348906 gen- => gen-99999
name 14348907 gen- => gen-bbbbb
name 9223372036854775808 gen- => gen-k7n79
name 1 pppppppppppppppppppppppppppppppppppppppppppppppppppppppppp => ppppppppppppppppppppppppppppppppppppppppppppppppppppppppppbbbbc
name 1 ppppppppppppppppppppppppppppppppppppppppppppppppppppppppppa => ppppppppppppppppppppppppppppppppppppppppppppppppppppppppppbbbbc
name 1 pppppppppppppppppppppppppppppppppppppppppppppppppppppppppé => pppppppppppppppppppppppppppppppppppppppppppppppppppppppppbbbbc
name 1 ppppppppppppppppppppppppppppppppppppppppppppppppppppppppé => ppppppppppppppppppppppppppppppppppppppppppppppppppppppppébbbbc

free_names: where each that ends in a letter is taken
free 1 d gen- => gen-bbbbc
free 1 c gen- => gen-bbbbd
free 14348906 9 gen- => gen-bbbbb
free 28697813 9 gen- => gen-bbbbb

prefixes: a name, or a name and a dash
prefix gen => true
prefix gen- => true
prefix a.b- => true
prefix  => false
prefix - => false
prefix gen-- => false
prefix gen. => false
prefix Gen- => false
prefix nnnnnnnnnnnnnnnnnnnnnnnnnnnnnnnnnnnnnnnnnnnnnnnnnnnnnnnnnnnnnnnnnnnnnnnnnnnnnnnnnnnnnnnnnnnnnnnnnnnnnnnnnnnnnnnnnnnnnnnnnnnnnnnnnnnnnnnnnnnnnnnnnnnnnnnnnnnnnnnnnnnnnnnnnnnnnnnnnnnnnnnnnnnnnnnnnnnnnnnnnnnnnnnnnnnnnnnnnnnnnnnnnnnnnnnnnnnnnnnnnnnnnnnnnnnn- => true
prefix nnnnnnnnnnnnnnnnnnnnnnnnnnnnnnnnnnnnnnnnnnnnnnnnnnnnnnnnnnnnnnnnnnnnnnnnnnnnnnnnnnnnnnnnnnnnnnnnnnnnnnnnnnnnnnnnnnnnnnnnnnnnnnnnnnnnnnnnnnnnnnnnnnnnnnnnnnnnnnnnnnnnnnnnnnnnnnnnnnnnnnnnnnnnnnnnnnnnnnnnnnnnnnnnnnnnnnnnnnnnnnnnnnnnnnnnnnnnnnnnnnnnnnnnnnnnn => true
prefix nnnnnnnnnnnnnnnnnnnnnnnnnnnnnnnnnnnnnnnnnnnnnnnnnnnnnnnnnnnnnnnnnnnnnnnnnnnnnnnnnnnnnnnnnnnnnnnnnnnnnnnnnnnnnnnnnnnnnnnnnnnnnnnnnnnnnnnnnnnnnnnnnnnnnnnnnnnnnnnnnnnnnnnnnnnnnnnnnnnnnnnnnnnnnnnnnnnnnnnnnnnnnnnnnnnnnnnnnnnnnnnnnnnnnnnnnnnnnnnnnnnnnnnnnnnnn- => false
prefix nnnnnnnnnnnnnnnnnnnnnnnnnnnnnnnnnnnnnnnnnnnnnnnnnnnnnnnnnnnnnnnnnnnnnnnnnnnnnnnnnnnnnnnnnnnnnnnnnnnnnnnnnnnnnnnnnnnnnnnnnnnnnnnnnnnnnnnnnnnnnnnnnnnnnnnnnnnnnnnnnnnnnnnnnnnnnnnnnnnnnnnnnnnnnnnnnnnnnnnnnnnnnnnnnnnnnnnnnnnnnnnnnnnnnnnnnnnnnnnnnnnnnnnnnnnnnn => false";

#[test]
fn what_the_system_says(rt: HostRuntime) -> Result<(), Fail> {
    play_all(rt.alloc(), &mut Metadata, EXAMPLES)
}
