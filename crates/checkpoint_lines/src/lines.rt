//! The lines of a text.
ghost use Rattle.std.specs.Prelude.{◌≡◌, ◌≤◌, ◌<◌, ◌^◌, ◌≤ℤ◌, ℕ, ℤ, Bool, List, [], ◌∷◌, ◌++◌, length, IsTrue, codes};
ghost use Rattle.std.specs.List.{list_all};
ghost use Rattle.std.specs.Fmt.{signed_decimal};
ghost use Rattle.spec_value.specs.Datum as datum;
ghost use Rattle.spec_value.specs.Datum.{in_number_range, is_text};
ghost use Rattle.spec_value.specs.Literal.{literal};
ghost use Rattle.spec_program.specs.Tree.{Program};
ghost use Rattle.spec_program.specs.Trees.{is_tree};
ghost use Rattle.spec_program.specs.Spelling.{canonical_lines};
ghost use Rattle.spec_world.specs.Checkpoint as written;
ghost use Rattle.spec_world.specs.Checkpoint.{fields, counted, object_text, list_literal, object_list, text_list, with_line_ends};
ghost use Rattle.spec_checkpoint.specs.Lines.{is_line, are_lines};
ghost use Rattle.line_fields.specs.Fields.{Field, all_spelled, is_word, are_fields};
ghost use Rattle.spec_faults.specs.Plain.{is_integer};
ghost use Rattle.spec_faults.specs.Forms as form;
ghost use Rattle.spec_faults.specs.Awaited.{Awaited, one, code, Whose, behind_code};
ghost use Rattle.checkpoint_lines.specs.declared.fault.DecodeError.TheVariants.{Line};
ghost use Rattle.checkpoint_lines.specs.Rows.{row_fields, Left, Reads};
ghost use Rattle.checkpoint_lines.specs.Told.{HasRoom, NextLine, NextRow, NextWith, NextLines, Tells, IsCount, Ends};

use crate::fault::{DecodeError, FaultKind};
use crate::program::program_in;
use crate::row::Row;
use line_fields::cut::cut_at;
use line_fields::fields::{split, split_first};
use moo_compiler::program::Program as Compiled;
use moo_value::text::Text;
use quick_reader::room::Room;
use std::alloc::Global;

/// What is left of a text, each of whose lines ends with a line feed.
#[derive(Clone, Copy)]
pub struct Lines<'a> {
    left: &'a [u8],
    count: usize,
}

impl<'a> Lines<'a> {
    /// All of a text.
    pub fn new(text: &'a [u8]) -> Lines<'a>
        ensures left { result.left.now ≡ text.now }
        ensures none { result.count ≡ 0 }
        ensures room { HasRoom result }
    {
        Lines {
            left: text,
            count: 0,
        }
    }

    /// What stands behind so many lines of a text.
    pub fn behind(left: &'a [u8], count: usize) -> Lines<'a>
        ensures left { result.left.now ≡ left.now }
        ensures count { result.count ≡ count }
    {
        Lines { left, count }
    }

    /// What is left.
    pub fn left(&self) -> &'a [u8]
        ensures { result.now ≡ self.now.left.now }
    {
        self.left
    }

    /// Whether the same is left of both, behind as many lines.
    pub fn is_at(&self, other: &Lines<'_>) -> bool
        ensures { IsTrue result → (self.now.left.now ≡ other.now.left.now) × (self.now.count ≡ other.now.count) }
    {
        self.count == other.count && are_same(self.left, other.left)
    }

    /// A fault of the line that was read last.
    pub fn fault(&self, kind: FaultKind) -> DecodeError
        ensures { result ≡ Line self.now.count kind }
    {
        DecodeError::Line {
            line: self.count,
            kind,
        }
    }

    /// The next line, without its line feed.
    ///
    /// Fault Ended where it has none.
    pub fn next_line(&mut self) -> Result<&'a [u8], DecodeError>
        ensures reads { (t : datum.Text) (rest : List datum.Text) → IsTrue (is_line t) → Left self.old (t ∷ rest) → Reads result self.new rest (λ line. (line.now ≡ t) × (length rest < 2 ^ 63)) }
        ensures tells { NextLine result self.old self.new }
    {
        let count = self.count.saturating_add(1);
        let Some((line, rest)) = cut_at(self.left, b'\n') else {
            return Err(DecodeError::Line {
                line: count,
                kind: FaultKind::Ended,
            });
        };
        self.left = rest;
        self.count = count;
        Ok(line)
    }

    /// The next line, in fields.
    ///
    /// Fault Line where a field is empty.
    pub fn next_row(&mut self, alloc: Global) -> Result<Row<'a>, DecodeError>
        ensures reads { (f : Field) (fs : List Field) (rest : List datum.Text) → IsTrue (are_fields (f ∷ fs)) → Left self.old (fields (all_spelled (f ∷ fs)) ∷ rest) → Reads result self.new rest (λ row. (row_fields row ≡ all_spelled (f ∷ fs)) × (length rest < 2 ^ 63)) }
        ensures tells { NextRow result self.old self.new }
    {
        let line = self.next_line()?;
        let fields = split(alloc, line)?;
        Row::new(self.count, fields)
    }

    /// The next line, which has this word and so many fields behind it.
    ///
    /// Fault Line where it is another.
    pub fn next_with(
        &mut self,
        alloc: Global,
        word: &[u8],
        count: usize,
    ) -> Result<Row<'a>, DecodeError>
        ensures reads { (fs : List Field) (rest : List datum.Text) → IsTrue (is_word word.now) → IsTrue (are_fields fs) → length fs ≡ count → Left self.old (fields (word.now ∷ all_spelled fs) ∷ rest) → Reads result self.new rest (λ row. (row_fields row ≡ word.now ∷ all_spelled fs) × (length rest < 2 ^ 63)) }
        ensures tells { NextWith result self.old self.new word.now count }
    {
        let line = self.next_line()?;
        let fields = split_first(alloc, line, count)?;
        let row = Row::new(self.count, fields)?;
        if row.has(word, count) {
            Ok(row)
        } else {
            Err(row.fault(FaultKind::Line))
        }
    }

    /// The number of the next line, which has this word before it; it is at least the first and at most the second number.
    ///
    /// Fault Number where it is another.
    pub fn next_number(
        &mut self,
        alloc: Global,
        word: &[u8],
        least: u64,
        most: u64,
    ) -> Result<u64, DecodeError>
        ensures reads { (n : ℕ) (rest : List datum.Text) → IsTrue (is_word word.now) → least ≤ n → n ≤ most → Left self.old (counted word.now n ∷ rest) → Reads result self.new rest (λ m. m ≡ n) }
        ensures tells { Tells result self.old self.new (one (form.word word.now ∷ form.number least most ∷ []) ∷ []) (λ _. []) }
    {
        let row = self.next_with(alloc, word, 1)?;
        row.number(1, least, most)
    }

    /// The integer of the next line, which has this word before it; it is at least the first and at most the second number.
    pub fn next_integer(
        &mut self,
        alloc: Global,
        word: &[u8],
        least: i32,
        most: i32,
    ) -> Result<i32, DecodeError>
        ensures reads { (z : ℤ) (rest : List datum.Text) → IsTrue (is_word word.now) → IsTrue (in_number_range z) → least ≤ℤ z → z ≤ℤ most → Left self.old (fields (word.now ∷ signed_decimal z ∷ []) ∷ rest) → Reads result self.new rest (λ y. y ≡ z) }
        ensures tells { Tells result self.old self.new (one (form.word word.now ∷ form.other (is_integer least most) ∷ []) ∷ []) (λ _. []) }
    {
        let row = self.next_with(alloc, word, 1)?;
        row.integer(1, least, most)
    }

    /// How many of something follow, by the next line, which has this word before the count.
    pub fn next_count(&mut self, alloc: Global, word: &[u8]) -> Result<u64, DecodeError>
        ensures reads { (n : ℕ) (rest : List datum.Text) → IsTrue (is_word word.now) → n ≤ length rest → Left self.old (counted word.now n ∷ rest) → Reads result self.new rest (λ m. m ≡ n) }
        ensures tells { (a : Awaited) (after : ℕ → List Awaited) → IsCount a word.now after → Tells result self.old self.new (a ∷ []) after }
    {
        let row = self.next_with(alloc, word, 1)?;
        row.count(1)
    }

    /// The flag of the next line, which has this word before it.
    pub fn next_flag(&mut self, alloc: Global, word: &[u8]) -> Result<bool, DecodeError>
        ensures reads { (b : Bool) (rest : List datum.Text) → IsTrue (is_word word.now) → Left self.old (fields (word.now ∷ written.flag b ∷ []) ∷ rest) → Reads result self.new rest (λ c. c ≡ b) }
        ensures tells { Tells result self.old self.new (one (form.word word.now ∷ form.flag ∷ []) ∷ []) (λ _. []) }
    {
        let row = self.next_with(alloc, word, 1)?;
        row.flag(1)
    }

    /// The object of the next line, which has this word before it.
    pub fn next_object(&mut self, alloc: Global, word: &[u8]) -> Result<i32, DecodeError>
        ensures reads { (z : ℤ) (rest : List datum.Text) → IsTrue (is_word word.now) → IsTrue (in_number_range z) → Left self.old (fields (word.now ∷ object_text z ∷ []) ∷ rest) → Reads result self.new rest (λ y. y ≡ z) }
        ensures tells { Tells result self.old self.new (one (form.word word.now ∷ form.object_number ∷ []) ∷ []) (λ _. []) }
    {
        let row = self.next_with(alloc, word, 1)?;
        row.object(1)
    }

    /// The text of the next line, which has this word before it.
    pub fn next_text(&mut self, alloc: Global, word: &[u8]) -> Result<Text, DecodeError>
        ensures reads { (t : datum.Text) (rest : List datum.Text) → IsTrue (is_word word.now) → IsTrue (is_text t) → Left self.old (fields (word.now ∷ literal (datum.text t) ∷ []) ∷ rest) → Reads result self.new rest (λ u. u ≡ t) }
        ensures tells { Tells result self.old self.new (one (form.word word.now ∷ form.string ∷ []) ∷ []) (λ _. []) }
    {
        let row = self.next_with(alloc, word, 1)?;
        row.text(alloc, 1)
    }

    /// The objects of the next line, which has this word before them.
    pub fn next_objects(&mut self, alloc: Global, word: &[u8]) -> Result<Vec<i32>, DecodeError>
        ensures reads { (os : List ℤ) (rest : List datum.Text) → IsTrue (is_word word.now) → IsTrue (list_all in_number_range os) → Left self.old (fields (word.now ∷ list_literal (object_list os) ∷ []) ∷ rest) → Reads result self.new rest (λ v. v.items ≡ os) }
        ensures tells { Tells result self.old self.new (one (form.word word.now ∷ form.objects ∷ []) ∷ []) (λ _. []) }
    {
        let row = self.next_with(alloc, word, 1)?;
        row.objects(alloc, 1)
    }

    /// The texts of the next line, which has this word before them.
    pub fn next_texts(&mut self, alloc: Global, word: &[u8]) -> Result<Vec<Text>, DecodeError>
        ensures reads { (ts : List datum.Text) (rest : List datum.Text) → IsTrue (is_word word.now) → IsTrue (list_all is_text ts) → Left self.old (fields (word.now ∷ list_literal (text_list ts) ∷ []) ∷ rest) → Reads result self.new rest (λ v. v.items ≡ ts) }
        ensures tells { Tells result self.old self.new (one (form.word word.now ∷ form.strings ∷ []) ∷ []) (λ _. []) }
    {
        let row = self.next_with(alloc, word, 1)?;
        row.texts(alloc, 1)
    }

    /// The program that so many next lines spell.
    ///
    /// Fault Code, of the first of them, where they are no program's spelling.
    pub fn next_program(
        &mut self,
        alloc: Global,
        room: &mut Room,
        count: u64,
    ) -> Result<Compiled, DecodeError>
        ensures reads { (p : Program) (rest : List datum.Text) → IsTrue (is_tree p) → count ≡ length (canonical_lines p) → Left self.old (canonical_lines p ++ rest) → Reads result self.new rest (λ program. program ≡ p) }
        ensures tells { (whose : Whose) → Tells result self.old self.new (code count [] whose ∷ []) (behind_code whose) }
    {
        let line = self.count.saturating_add(1);
        let text = self.next_lines(count)?;
        let found = program_in(alloc, room, text)?;
        match found {
            Some(program) => Ok(program),
            None => Err(DecodeError::Line {
                line,
                kind: FaultKind::Code,
            }),
        }
    }

    // So many lines, with their line feeds.
    fn next_lines(&mut self, count: u64) -> Result<&'a [u8], DecodeError>
        ensures reads { (ts rest : List datum.Text) → IsTrue (are_lines ts) → count ≡ length ts → Left self.old (ts ++ rest) → Reads result self.new rest (λ text. text.now ≡ with_line_ends ts) }
        ensures tells { NextLines result self.old self.new count }
    {
        let text = self.left;
        'lines: for _line in 0..count {
            self.next_line()?;
        }
        let length = text.len().saturating_sub(self.left.len());
        Ok(&text[..length])
    }

    /// The last line, and that nothing stands behind it.
    pub fn end(&mut self, alloc: Global) -> Result<(), DecodeError>
        ensures reads { Left self.old (codes "end" ∷ []) → Reads result self.new [] (λ _. Unit {0}) }
        ensures tells { Ends result self.old self.new (one form.end_form ∷ []) }
    {
        self.next_with(alloc, b"end", 0)?;
        if self.left.is_empty() {
            return Ok(());
        }
        let line = self.count.saturating_add(1);
        let kind = match cut_at(self.left, b'\n') {
            Some(_) => FaultKind::Line,
            None => FaultKind::Ended,
        };
        Err(DecodeError::Line { line, kind })
    }
}

// Long texts are sooner compared so than by `==`.
fn are_same(text: &[u8], other: &[u8]) -> bool
    ensures { IsTrue result → text.now ≡ other.now }
{
    text.len() == other.len() && text.starts_with(other)
}
