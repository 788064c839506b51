//! Text that is being written.
ghost use Rattle.std.specs.Prelude.{◌≡◌, ◌++◌, ◌∷◌, [], IfOk, OnOk, MatchOption, IsTrue, string_bytes};
ghost use Rattle.std.specs.Fmt.{decimal, signed_decimal};
ghost use Rattle.spec_value.specs.Datum.{list, of_list, text as text_of, is_text};
ghost use Rattle.spec_value.specs.Literal.{literal};
ghost use Rattle.spec_world.specs.Checkpoint.{flag, object_text, letter_if};
ghost use Rattle.checkpoint_text.specs.Behind.{BeginsOtherwise};

use itoa::Buffer;
use moo_value::text::Text;
use moo_value::value::{Shown, Value};
use slot_content::writing::put_quoted;
use std::alloc::{AllocError, Global};
use std::marker::Model;

/// Text that is being written, by its bytes. After an `Err` part of what was to come may stand there.
#[derive(Drop)]
pub struct Page {
    text: String,
    pub(crate) alloc: Global,
}

impl Model for Page {
    ghost use Rattle.std.specs.Prelude.{ℕ, List, string_bytes};

    ghost Value = { List ℕ };

    ghost view = { λ a. string_bytes a.text };
}

impl Page {
    /// Nothing is written.
    pub fn new(alloc: Global) -> Page
        ensures { result ≡ [] }
    {
        Page {
            text: String::new(alloc),
            alloc,
        }
    }

    /// What was written.
    pub fn into_string(self) -> String
        ensures { string_bytes result ≡ self }
    {
        self.text
    }

    /// Nothing is written any more. The memory stays for what comes.
    pub(crate) fn clear(&mut self)
        ensures { self.new ≡ [] }
    {
        self.text.clear();
    }

    /// What stands behind what was written, in a text that begins with it.
    pub(crate) fn behind<'b>(&self, bytes: &'b [u8]) -> Option<&'b [u8]>
        ensures { MatchOption result (BeginsOtherwise self.now bytes.now) (λ rest. bytes.now ≡ self.now ++ rest.now) }
    {
        behind(self.text.as_str().as_bytes(), bytes)
    }

    /// Writes text.
    pub fn put(&mut self, text: &str) -> Result<(), AllocError>
        ensures { OnOk result (self.new ≡ self.old ++ text.now) }
    {
        self.text.push_str(text)
    }

    /// Ends the line.
    pub fn end_line(&mut self) -> Result<(), AllocError>
        ensures { OnOk result (self.new ≡ self.old ++ 10 ∷ []) }
    {
        self.text.push_str("\n")
    }

    /// Writes a number.
    pub fn put_number(&mut self, number: u64) -> Result<(), AllocError>
        ensures { OnOk result (self.new ≡ self.old ++ decimal number) }
    {
        let mut digits = Buffer::new();
        self.text.push_str(digits.format(number))
    }

    /// Writes a number that may be negative.
    pub fn put_signed(&mut self, number: i32) -> Result<(), AllocError>
        ensures { OnOk result (self.new ≡ self.old ++ signed_decimal number) }
    {
        let mut digits = Buffer::new();
        self.text.push_str(digits.format(number))
    }

    /// Writes an object.
    pub fn put_object(&mut self, object: i32) -> Result<(), AllocError>
        ensures { OnOk result (self.new ≡ self.old ++ object_text object) }
    {
        self.put("#")?;
        self.put_signed(object)
    }

    /// Writes 1 or 0.
    pub fn put_flag(&mut self, is_set: bool) -> Result<(), AllocError>
        ensures { OnOk result (self.new ≡ self.old ++ flag is_set) }
    {
        self.put(if is_set { "1" } else { "0" })
    }

    /// Writes a letter if it is set.
    pub fn put_letter(&mut self, letter: &str, is_set: bool) -> Result<(), AllocError>
        ensures { OnOk result (self.new ≡ self.old ++ letter_if letter.now is_set) }
    {
        if is_set { self.put(letter) } else { Ok(()) }
    }

    /// Writes a value as a program would write it.
    pub fn put_value(&mut self, value: &Value) -> Result<(), AllocError>
        ensures { OnOk result (self.new ≡ self.old ++ literal value.now) }
    {
        let items = self.put_unless_list(value)?;
        match items {
            Some(items) => self.put_values(items),
            None => Ok(()),
        }
    }

    /// Writes an item of a list as a program would write it.
    pub fn put_item(&mut self, value: &Value) -> Result<(), AllocError>
        ensures { OnOk result (self.new ≡ self.old ++ literal value.now) }
    {
        let items = self.put_unless_list(value)?;
        match items {
            Some(items) => self.put_nested(items),
            None => Ok(()),
        }
    }

    /// Writes a value as a program would write it, unless it is a list. Gives the items of a list.
    pub(crate) fn put_unless_list<'v>(
        &mut self,
        value: &'v Value,
    ) -> Result<Option<&'v [Value]>, AllocError>
        ensures { IfOk result (λ o. MatchOption o (self.new ≡ self.old ++ literal value.now) (λ items. (self.new ≡ self.old) × (value.now ≡ list (of_list items.now)))) }
    {
        value.know();
        match value.shown() {
            Shown::Integer(number) => self.put_signed(number)?,
            Shown::Object(number) => self.put_object(number)?,
            Shown::Text(text) => self.put_quoted(text)?,
            Shown::Error(error) => self.put(error.name())?,
            Shown::List(items) => return Ok(Some(items)),
        }
        Ok(None)
    }

    /// Writes a text as a program would write it.
    pub fn put_text(&mut self, text: &Text) -> Result<(), AllocError>
        ensures { OnOk result (self.new ≡ self.old ++ literal (text_of text.now)) }
    {
        text.know();
        self.put_quoted(text.as_str())
    }

    /// Writes a text, whose characters are known to be allowed, as a program would write it.
    pub fn put_quoted(&mut self, text: &str) -> Result<(), AllocError>
        requires { IsTrue (is_text text.now) }
        ensures { OnOk result (self.new ≡ self.old ++ literal (text_of text.now)) }
    {
        put_quoted(&mut self.text, text)
    }
}

/// What stands behind a text, in one that begins with it.
pub(crate) fn behind<'b>(front: &[u8], bytes: &'b [u8]) -> Option<&'b [u8]>
    ensures { MatchOption result (BeginsOtherwise front.now bytes.now) (λ rest. bytes.now ≡ front.now ++ rest.now) }
{
    bytes.strip_prefix(front)
}
