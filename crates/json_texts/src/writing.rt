//! JSON texts written token by token, with the commas that the JSON library puts; the text of a value that is there already
//! is taken as it is. They are read in `reading`.

ghost use Rattle.std.specs.Prelude.{◌≡◌, ◌++◌, ◌∷◌, [], false, Bool, IfOk, IsUtf8, OnOk, string_bytes};
ghost use Rattle.json.specs.Print.{ends_value};
ghost use Rattle.serde_json.specs.Data.{object, string};
ghost use Rattle.serde_json.specs.View.{members_view, view};
ghost use Rattle.serde_json.specs.Written.{comma_if, compact_text, has_float, members_have_float};
ghost use Rattle.json_texts.specs.Writing.{Follows, blank, bytes_of, with_closing, with_name, with_opening, with_text};

use json::Writer;
use serde_json::{Map, Value};
use std::alloc::{AllocError, Global};
use std::marker::Model;
use std::mem;

/// A JSON text that is being written.
#[derive(Drop)]
pub struct TextWriter {
    writer: Writer,
    /// Whether a value ends here, so that a comma is due before the next.
    is_later: bool,
    /// Whether that value's text was taken as it is: the library's writer has begun anew behind it, and puts no comma.
    is_behind_text: bool,
}

impl Model for TextWriter {
    ghost use Rattle.json_texts.specs.Writing.{IsWriting, Writing, bytes_of, writing_code};

    ghost Value = { Writing };

    ghost coded = { writing_code };

    ghost view = { λ w. record { text = bytes_of w.writer; later = w.is_later } };

    ghost invariant = { λ w. IsWriting w.is_later w.is_behind_text w.writer };
}

/// The bytes that were written.
fn taken(writer: &mut Writer, alloc: Global) -> Vec<u8>
    ensures bytes { result.items ≡ bytes_of writer.old }
    ensures utf8 { IsUtf8 writer.old.before → IsUtf8 result.items }
{
    mem::replace(writer, Writer::new(Vec::new(alloc))).into_inner()
}

/// Appends a comma where one is due.
fn push_comma(all: &mut Vec<u8>, later: bool) -> Result<(), AllocError>
    ensures utf8 { IsUtf8 all.old.items → IsUtf8 all.new.items }
    ensures appended { OnOk result (all.new.items ≡ all.old.items ++ comma_if later) }
{
    if later {
        return all.extend_from_slice(",".as_bytes());
    }
    Ok(())
}

/// Appends a text, behind a comma where one is due.
fn extend(all: &mut Vec<u8>, later: bool, text: &str) -> Result<(), AllocError>
    ensures utf8 { IsUtf8 all.old.items → IsUtf8 all.new.items }
    ensures appended { OnOk result (all.new.items ≡ all.old.items ++ (comma_if later ++ text.now)) }
{
    push_comma(all, later)?;
    all.extend_from_slice(text.as_bytes())
}

/// Appends a text, behind a comma where one is due; the writer begins anew behind it.
fn append(writer: &mut Writer, alloc: Global, later: bool, text: &str) -> Result<(), AllocError>
    ensures utf8 { IsUtf8 writer.old.before → IsUtf8 writer.new.before }
    ensures bytes { OnOk result (bytes_of writer.new ≡ bytes_of writer.old ++ (comma_if later ++ text.now)) }
    ensures anew { writer.new.tokens ≡ [] }
{
    let mut all = taken(writer, alloc);
    let extended = extend(&mut all, later, text);
    *writer = Writer::new(all);
    extended
}

/// Puts the comma that is due behind a text that was taken as it is.
fn settle(writer: &mut Writer, alloc: Global, is_behind_text: bool) -> Result<(), AllocError>
    ensures utf8 { IsUtf8 writer.old.before → IsUtf8 writer.new.before }
    ensures kept { (later : Bool) → Follows later is_behind_text writer.old.tokens → Follows later is_behind_text writer.new.tokens }
    ensures settled { OnOk result ((later : Bool) → Follows later is_behind_text writer.old.tokens
        → bytes_of writer.new ++ comma_if (ends_value writer.new.tokens) ≡ bytes_of writer.old ++ comma_if later) }
{
    if is_behind_text {
        return append(writer, alloc, true, "");
    }
    Ok(())
}

impl TextWriter {
    /// Nothing so far, with room for so many bytes.
    pub fn with_capacity(alloc: Global, capacity: usize) -> Result<TextWriter, AllocError>
        ensures { IfOk result (λ w. w ≡ blank) }
    {
        Ok(TextWriter {
            writer: Writer::new(Vec::with_capacity(alloc, capacity)?),
            is_later: false,
            is_behind_text: false,
        })
    }

    /// Appends a member's name and the colon.
    pub fn name(&mut self, alloc: Global, name: &str) -> Result<(), AllocError>
        ensures { OnOk result (self.new ≡ with_name name.now self.old) }
    {
        settle(&mut self.writer, alloc, self.is_behind_text)?;
        self.writer.key(name)?;
        self.is_later = false;
        self.is_behind_text = false;
        Ok(())
    }

    /// Appends a string.
    pub fn string(&mut self, alloc: Global, text: &str) -> Result<(), AllocError>
        ensures { OnOk result (self.new ≡ with_text (compact_text (string text.now)) self.old) }
    {
        settle(&mut self.writer, alloc, self.is_behind_text)?;
        self.writer.string(text)?;
        self.is_later = true;
        self.is_behind_text = false;
        Ok(())
    }

    /// Appends an opening brace.
    pub fn begin_object(&mut self, alloc: Global) -> Result<(), AllocError>
        ensures { OnOk result (self.new ≡ with_opening 123 self.old) }
    {
        settle(&mut self.writer, alloc, self.is_behind_text)?;
        self.writer.begin_object()?;
        self.is_later = false;
        self.is_behind_text = false;
        Ok(())
    }

    /// Appends an opening bracket.
    pub fn begin_array(&mut self, alloc: Global) -> Result<(), AllocError>
        ensures { OnOk result (self.new ≡ with_opening 91 self.old) }
    {
        settle(&mut self.writer, alloc, self.is_behind_text)?;
        self.writer.begin_array()?;
        self.is_later = false;
        self.is_behind_text = false;
        Ok(())
    }

    /// Appends a closing brace.
    pub fn end_object(&mut self) -> Result<(), AllocError>
        ensures { OnOk result (self.new ≡ with_closing 125 self.old) }
    {
        self.writer.end_object()?;
        self.is_later = true;
        self.is_behind_text = false;
        Ok(())
    }

    /// Appends a closing bracket.
    pub fn end_array(&mut self) -> Result<(), AllocError>
        ensures { OnOk result (self.new ≡ with_closing 93 self.old) }
    {
        self.writer.end_array()?;
        self.is_later = true;
        self.is_behind_text = false;
        Ok(())
    }

    /// Appends a value by its text, which is taken as it is.
    pub fn raw(&mut self, alloc: Global, text: &str) -> Result<(), AllocError>
        ensures { OnOk result (self.new ≡ with_text text.now self.old) }
    {
        let later = self.is_later;
        self.is_later = true;
        self.is_behind_text = true;
        append(&mut self.writer, alloc, later, text)
    }

    /// Appends a value. Of an object each member is appended, since behind a text taken as it is the library's writer begins
    /// anew.
    #[cycle(values)]
    pub fn value(&mut self, alloc: Global, value: &Value) -> Result<(), AllocError>
        ensures { OnOk result (has_float (view value.now) ≡ false → self.new ≡ with_text (compact_text (view value.now)) self.old) }
    {
        match value {
            Value::Object(members) => self.object(alloc, members),
            _ => {
                let text = value.to_string(alloc)?;
                self.raw(alloc, text.as_str())
            }
        }
    }

    /// Appends the object of these members.
    #[cycle(values)]
    pub fn object(&mut self, alloc: Global, members: &Map<String, Value>) -> Result<(), AllocError>
        ensures { OnOk result (members_have_float (members_view members.now.entries) ≡ false → self.new ≡ with_text (compact_text (object (members_view members.now.entries))) self.old) }
    {
        self.begin_object(alloc)?;
        for (name, value) in members.iter() {
            self.name(alloc, name.as_str())?;
            self.value(alloc, value)?;
        }
        self.end_object()
    }

    /// The text.
    pub fn into_text(self) -> String
        ensures { string_bytes result ≡ self.text }
    {
        match String::from_utf8(self.writer.into_inner()) {
            Ok(text) => text,
            Err(_) => unreachable!(),
        }
    }
}
