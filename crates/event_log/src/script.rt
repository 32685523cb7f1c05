//! The line of a script by which an event happens. Where it is kept stands in `record`.

ghost use Rattle.std.specs.Prelude.{◌≡◌, IfOk, false, string_bytes};
ghost use Rattle.serde_json.specs.Data.{string};
ghost use Rattle.serde_json.specs.View.{view};
ghost use Rattle.serde_json.specs.Written.{compact_text, has_float};
ghost use Rattle.httpedge.specs.HubViews.{event_of};
ghost use Rattle.event_log.specs.ScriptLines.{bytes_line, event_line, holds_float, number_line, types_line};

use httpedge::Event;
use serde_json::Value;
use std::alloc::{AllocError, Global};

/// The line of what one number tells.
fn line_of_number(alloc: Global, name: &str, number: u64) -> Result<String, AllocError>
    ensures { IfOk result (λ s. string_bytes s ≡ number_line name.now number) }
{
    format!(in alloc; "{{\"{name}\":{number}}}\n")
}

/// A text as a JSON string.
fn quoted(alloc: Global, text: &str) -> Result<String, AllocError>
    ensures { IfOk result (λ s. string_bytes s ≡ compact_text (string text.now)) }
{
    Value::String(String::from_str(alloc, text)?).to_string(alloc)
}

/// The line of bytes that came: as text, or else as digits.
fn line_of_bytes(alloc: Global, id: u64, bytes: &[u8]) -> Result<String, AllocError>
    ensures { IfOk result (λ s. string_bytes s ≡ bytes_line id bytes.now) }
{
    match str::from_utf8(bytes) {
        Ok(text) => {
            let text = quoted(alloc, text)?;
            format!(in alloc; "{{\"in\":[{id},{text}]}}\n")
        }
        Err(_) => {
            let digits = hex::encode(alloc, bytes)?;
            format!(in alloc; "{{\"bytes\":[{id},\"{digits}\"]}}\n")
        }
    }
}

/// The line of other types.
fn line_of_types(alloc: Global, file: &Value) -> Result<String, AllocError>
    ensures { has_float (view file.now) ≡ false → IfOk result (λ s. string_bytes s ≡ types_line (view file.now)) }
{
    let text = file.to_string(alloc)?;
    format!(in alloc; "{{\"types\":{text}}}\n")
}

/// The line of a script by which this event happens, with its line feed.
pub fn script_line(alloc: Global, event: &Event) -> Result<String, AllocError>
    ensures { holds_float (event_of event.now) ≡ false → IfOk result (λ s. string_bytes s ≡ event_line (event_of event.now)) }
{
    match event {
        Event::Open(id) => line_of_number(alloc, "open", *id),
        Event::In(id, bytes) => line_of_bytes(alloc, *id, bytes),
        Event::Gone(id) => line_of_number(alloc, "gone", *id),
        Event::Pump(id, lines) => format!(in alloc; "{{\"pump\":[{id},{lines}]}}\n"),
        Event::Tick(ms) => line_of_number(alloc, "tick", *ms),
        Event::Compact(revision) => line_of_number(alloc, "compact", *revision),
        Event::Retype(file) => line_of_types(alloc, file),
    }
}
