//! A line that is being written.
ghost use Rattle.std.specs.Prelude.{◌≡◌, ◌++◌, [], IfOk, OnOk, IsTrue};
ghost use Rattle.spec_value.specs.Datum.{integer, is_text};
ghost use Rattle.spec_value.specs.Literal.{literal};
ghost use Rattle.spec_program.specs.Spelling.{literal_text};

use itoa::Buffer;
use moo_value::text::Text;
use moo_value::value::{Shown, Value};
use moo_value::write::Literal;
use std::alloc::{AllocError, Global};
use std::marker::Model;
use std::mem;

/// A line that is being written: at each time its characters are those of texts.
#[derive(Drop)]
pub struct Line {
    characters: String,
}

impl Model for Line {
    ghost use Rattle.std.specs.Prelude.{ℕ, List, IsTrue, string_bytes};
    ghost use Rattle.spec_value.specs.Datum.{is_text};

    ghost Value = { List ℕ };

    ghost view = { λ a. string_bytes a.characters };

    ghost invariant = { λ a. IsTrue (is_text (string_bytes a.characters)) };
}

/// For how many characters a line has room at first: most lines of programs have fewer.
const ROOM: usize = 64;

impl Line {
    /// A line with nothing in it.
    pub fn new(alloc: Global) -> Result<Line, AllocError>
        ensures { IfOk result (λ line. line ≡ []) }
    {
        let characters = String::with_capacity(alloc, ROOM)?;
        Ok(Line { characters })
    }

    /// Adds characters that are known to be allowed in texts.
    #[tactic(auto, using(crate::proofs::Digits::text_behind))]
    pub fn push_str(&mut self, text: &str) -> Result<(), AllocError>
        requires { IsTrue (is_text text.now) }
        ensures { OnOk result (self.new ≡ self.old ++ text.now) }
    {
        self.characters.push_str(text)
    }

    /// Adds a text.
    pub fn push_text(&mut self, text: &Text) -> Result<(), AllocError>
        ensures { OnOk result (self.new ≡ self.old ++ text.now) }
    {
        text.know();
        self.push_str(text.as_str())
    }

    /// Adds a literal value.
    pub fn push_literal(&mut self, value: &Value) -> Result<(), AllocError>
        ensures { OnOk result (self.new ≡ self.old ++ literal_text value.now) }
    {
        match value.shown() {
            Shown::Integer(number) => self.push_number(number),
            _ => self.push_plain_literal(value),
        }
    }

    // Adds a number. The least integer is written as the number after the greatest.
    #[tactic(auto, using(crate::proofs::Digits::text_decimal))]
    fn push_number(&mut self, number: i32) -> Result<(), AllocError>
        ensures { OnOk result (self.new ≡ self.old ++ literal_text (integer number)) }
    {
        let mut buffer = Buffer::new();
        let digits = buffer.format(number.unsigned_abs());
        self.push_str(digits)
    }

    // Adds a value as values are told.
    #[tactic(auto, using(moo_value::proofs::Written::text_literal, crate::proofs::Digits::text_behind))]
    fn push_plain_literal(&mut self, value: &Value) -> Result<(), AllocError>
        ensures { OnOk result (self.new ≡ self.old ++ literal value.now) }
    {
        value.know();
        let alloc = *self.characters.allocator();
        let literal = Literal(value);
        // Nothing is left of the line where the writing fails.
        let mut characters = mem::replace(&mut self.characters, String::new(alloc));
        write!(characters, "{literal}")?;
        self.characters = characters;
        Ok(())
    }

    /// The line as a text.
    pub fn into_text(self) -> Result<Text, AllocError>
        ensures { IfOk result (λ t. t ≡ self) }
    {
        Text::from_string(self.characters)
    }
}
