//! How much a copied value counts towards all that a patch may copy: each function says what is left of some room.

ghost use Rattle.std.specs.Prelude.{◌≡◌, false, length, nat_lt};
ghost use Rattle.json.specs.Print.{escape_byte, escape_letter, quoted, token_text};
ghost use Rattle.json.specs.Token.{boolean};
ghost use Rattle.serde_json.specs.View.{items_view, members_view, number_view, view};
ghost use Rattle.serde_json.specs.Data as values;
ghost use Rattle.serde_json.specs.Written.{comma_if, items_text, members_text};
ghost use Rattle.json_patch.specs.CopiedSize.{copied_size, items_without_floats, left_of, members_without_floats};

use itoa::Buffer;
use serde_json::{Map, Number, Value};

/// Whether a backslash and a letter stand in a text for this byte.
fn has_short_escape(byte: u8) -> bool
    ensures { result ≡ nat_lt 0 (escape_letter byte) }
{
    (byte == b'"')
        | (byte == b'\\')
        | (byte == 8)
        | (byte == 9)
        | (byte == 10)
        | (byte == 12)
        | (byte == 13)
}

/// How many bytes stand in a text for this one.
fn escaped_size(byte: u8) -> usize
    ensures { result ≡ length (escape_byte byte) }
{
    if has_short_escape(byte) {
        2
    } else if byte < 32 {
        6
    } else {
        1
    }
}

fn after_text(text: &str, room: usize) -> Option<usize>
    ensures { result ≡ left_of room (length (quoted text.now)) }
{
    let bytes = text.as_bytes();
    let mut left = room.checked_sub(2)?;
    for byte in bytes {
        left = left.checked_sub(escaped_size(*byte))?;
    }
    Some(left)
}

fn after_number(number: &Number, room: usize) -> Option<usize>
    ensures { result ≡ left_of room (copied_size (values.number (number_view number.now))) }
{
    let mut buffer = Buffer::new();
    if let Some(integer) = number.as_u64() {
        return room.checked_sub(buffer.format(integer).len());
    }
    match number.as_i64() {
        Some(integer) => room.checked_sub(buffer.format(integer).len()),
        None => room.checked_sub(4),
    }
}

fn truth_size(truth: bool) -> usize
    ensures { result ≡ length (token_text (boolean truth)) }
{
    if truth { 4 } else { 5 }
}

/// A comma stands before all but the first.
fn after_comma(is_later: bool, room: usize) -> Option<usize>
    ensures { result ≡ left_of room (length (comma_if is_later)) }
{
    if is_later {
        room.checked_sub(1)
    } else {
        Some(room)
    }
}

#[cycle(size)]
fn after_items(items: &[Value], room: usize) -> Option<usize>
    ensures { result ≡ left_of room (length (items_text false (items_without_floats (items_view items.now)))) }
{
    let mut left = room;
    let mut is_later = false;
    for item in items {
        left = after_comma(is_later, left)?;
        left = after_value(item, left)?;
        is_later = true;
    }
    left.checked_sub(1)
}

#[cycle(size)]
fn after_members(members: &Map<String, Value>, room: usize) -> Option<usize>
    ensures { result ≡ left_of room (length (members_text false (members_without_floats (members_view members.now.entries)))) }
{
    let mut left = room;
    let mut is_later = false;
    for (name, member) in members.iter() {
        left = after_comma(is_later, left)?;
        left = after_text(name.as_str(), left)?;
        left = left.checked_sub(1)?;
        left = after_value(member, left)?;
        is_later = true;
    }
    left.checked_sub(1)
}

/// What is left of the room after the value's compact text; none where that is longer.
#[cycle(size)]
pub(crate) fn after_value(value: &Value, room: usize) -> Option<usize>
    ensures { result ≡ left_of room (copied_size (view value.now)) }
{
    match value {
        Value::Null => room.checked_sub(4),
        Value::Bool(truth) => room.checked_sub(truth_size(*truth)),
        Value::Number(number) => after_number(number, room),
        Value::String(text) => after_text(text.as_str(), room),
        Value::Array(items) => after_items(items, room.checked_sub(1)?),
        Value::Object(members) => after_members(members, room.checked_sub(1)?),
    }
}
