//! A line in fields.
ghost use Rattle.std.specs.Prelude.{◌≡◌, ◌==◌, ◌&&◌, ◌≤◌, ◌<◌, ◌^◌, ◌≤ℤ◌, ℕ, suc, ℤ, Bool, List, map, length, Some, Ok, IsTrue, IfOk, codes};
ghost use Rattle.std.specs.Option.{ok_or};
ghost use Rattle.std.specs.List.{list_all, list_any};
ghost use Rattle.std.specs.Fmt.{decimal, signed_decimal};
ghost use Rattle.spec_value.specs.Datum as datum;
ghost use Rattle.spec_value.specs.Datum.{Datum, in_number_range, is_text, same_text};
ghost use Rattle.spec_value.specs.Literal as text_of;
ghost use Rattle.spec_world.specs.World.{Object, Slot, Verb};
ghost use Rattle.spec_world.specs.Checkpoint as written;
ghost use Rattle.line_fields.specs.Bits.{flags_of, bits_of_slot, bits_of_verb};
ghost use Rattle.line_fields.specs.Values.{is_readable, are_places};
ghost use Rattle.spec_faults.specs.Plain.{number_of, is_number, is_integer, is_object, is_flag, are_flags, are_bits, is_path, path_in};
ghost use Rattle.spec_faults.specs.Literals.{value_of, is_literal, any, is_string, is_object_value, is_list_of};
ghost use Rattle.checkpoint_lines.specs.Gives.{Gives};
ghost use Rattle.checkpoint_lines.specs.Rows.{row_fields};
ghost use Rattle.checkpoint_lines.specs.declared.fault.FaultKind.TheVariants as kind;
ghost use Rattle.checkpoint_lines.specs.Told.{row_fault, is_cut, Checks, NewRow};
ghost use Rattle.spec_faults.specs.Cutting.{field_at, is_filled};

use crate::fault::{DecodeError, FaultKind};
use line_fields::bits::{
    ObjectFlags, SlotBits, VerbBits, flag, object_flags, slot_bits, verb_bits,
};
use line_fields::fields::is_single;
use line_fields::held::{literal, objects_in, text_literal, texts_in};
use line_fields::number::{integer_between, natural, object, path};
use moo_value::text::Text;
use moo_value::value::Value;
use std::alloc::Global;

// The greatest count of what follows.
const GREATEST_COUNT: u64 = 9_223_372_036_854_775_807;

/// A line in fields. The first has index 0; where no field is, it counts as one without a byte. The last may be several: then it is none
/// of those that are read here, and the line's fault is Line.
#[derive(Drop)]
pub struct Row<'a> {
    line: usize,
    fields: Vec<&'a [u8]>,
}

impl<'a> Row<'a> {
    /// The line of this number with these fields.
    ///
    /// Fault Line where one is empty.
    pub fn new(line: usize, fields: Vec<&'a [u8]>) -> Result<Row<'a>, DecodeError>
        ensures reads { IsTrue (list_all is_filled (map (λ b. b.now) fields.entry.items)) → Gives result (λ row. row_fields row ≡ map (λ b. b.now) fields.entry.items) }
        ensures tells { NewRow result line (map (λ b. b.now) fields.entry.items) }
    {
        if has_empty(&fields) {
            return Err(DecodeError::Line {
                line,
                kind: FaultKind::Line,
            });
        }
        Ok(Row { line, fields })
    }

    /// A fault of this line: Line where what stands as its last field is several.
    pub fn fault(&self, kind: FaultKind) -> DecodeError
        ensures { result ≡ row_fault self.now kind }
    {
        let kind = if self.is_cut() { kind } else { FaultKind::Line };
        DecodeError::Line {
            line: self.line,
            kind,
        }
    }

    // Whether the last field is no more than one.
    fn is_cut(&self) -> bool
        ensures { result ≡ is_cut (row_fields self.now) }
    {
        match self.fields.as_slice() {
            [.., last] => is_single(last),
            [] => true,
        }
    }

    // What was found, or a fault of this line.
    fn known<T>(&self, found: Option<T>, kind: FaultKind) -> Result<T, DecodeError>
        ensures { result ≡ ok_or found (row_fault self.now kind) }
    {
        match found {
            Some(found) => Ok(found),
            None => Err(self.fault(kind)),
        }
    }

    /// A field.
    pub fn field(&self, index: usize) -> &'a [u8]
        ensures { result.now ≡ field_at (row_fields self.now) index }
    {
        match self.fields.get(index) {
            Some(field) => *field,
            None => &[],
        }
    }

    /// How many fields there are.
    pub fn len(&self) -> usize
        ensures { result ≡ length (row_fields self.now) }
    {
        self.fields.len()
    }

    /// Whether the first field is a word, with so many fields behind it.
    pub fn has(&self, word: &[u8], count: usize) -> bool
        ensures { result ≡ (length (row_fields self.now) == suc count && same_text (field_at (row_fields self.now) 0) word.now) }
    {
        self.fields.len() == count.saturating_add(1) && self.field(0) == word
    }

    /// A number that is at least the first and at most the second. Else fault Number.
    pub fn number(&self, index: usize, least: u64, most: u64) -> Result<u64, DecodeError>
        ensures reads { (n : ℕ) → least ≤ n → n ≤ most → field_at (row_fields self.now) index ≡ decimal n → result ≡ Ok n }
        ensures tells { Checks result self.now kind.Number (is_number least most (field_at (row_fields self.now) index)) }
        ensures said { IfOk result (λ n. number_of (field_at (row_fields self.now) index) ≡ Some n) }
    {
        self.known(natural(self.field(index), least, most), FaultKind::Number)
    }

    /// How many of something follow. Else fault Number.
    pub fn count(&self, index: usize) -> Result<u64, DecodeError>
        ensures reads { (n : ℕ) → n < 2 ^ 63 → field_at (row_fields self.now) index ≡ decimal n → result ≡ Ok n }
        ensures tells { Checks result self.now kind.Number (is_number 0 9223372036854775807 (field_at (row_fields self.now) index)) }
        ensures said { IfOk result (λ n. number_of (field_at (row_fields self.now) index) ≡ Some n) }
    {
        self.number(index, 0, GREATEST_COUNT)
    }

    /// An integer that is at least the first and at most the second. Else fault Number.
    pub fn integer(&self, index: usize, least: i32, most: i32) -> Result<i32, DecodeError>
        ensures reads { (z : ℤ) → IsTrue (in_number_range z) → least ≤ℤ z → z ≤ℤ most → field_at (row_fields self.now) index ≡ signed_decimal z → result ≡ Ok z }
        ensures tells { Checks result self.now kind.Number (is_integer least most (field_at (row_fields self.now) index)) }
    {
        self.known(
            integer_between(self.field(index), least, most),
            FaultKind::Number,
        )
    }

    /// An object, `#` before its number. Else fault Number.
    pub fn object(&self, index: usize) -> Result<i32, DecodeError>
        ensures reads { (z : ℤ) → IsTrue (in_number_range z) → field_at (row_fields self.now) index ≡ written.object_text z → result ≡ Ok z }
        ensures tells { Checks result self.now kind.Number (is_object (field_at (row_fields self.now) index)) }
    {
        self.known(object(self.field(index)), FaultKind::Number)
    }

    /// A flag, 0 or 1. Else fault Number.
    pub fn flag(&self, index: usize) -> Result<bool, DecodeError>
        ensures reads { (b : Bool) → field_at (row_fields self.now) index ≡ written.flag b → result ≡ Ok b }
        ensures tells { Checks result self.now kind.Number (is_flag (field_at (row_fields self.now) index)) }
    {
        self.known(flag(self.field(index)), FaultKind::Number)
    }

    /// The flags of an object. Else fault Number.
    pub fn object_flags(&self, index: usize) -> Result<ObjectFlags, DecodeError>
        ensures reads { (x : Object) → field_at (row_fields self.now) index ≡ written.flags_text x → result ≡ Ok (flags_of x) }
        ensures tells { Checks result self.now kind.Number (are_flags 6 (field_at (row_fields self.now) index)) }
    {
        self.known(object_flags(self.field(index)), FaultKind::Number)
    }

    /// The bits of a slot. Else fault Number.
    pub fn slot_bits(&self, index: usize) -> Result<SlotBits, DecodeError>
        ensures reads { (s : Slot) → field_at (row_fields self.now) index ≡ written.slot_bits s → result ≡ Ok (bits_of_slot s) }
        ensures tells { Checks result self.now kind.Number (are_bits (codes "rwc") (field_at (row_fields self.now) index)) }
    {
        self.known(slot_bits(self.field(index)), FaultKind::Number)
    }

    /// The bits of a verb. Else fault Number.
    pub fn verb_bits(&self, index: usize) -> Result<VerbBits, DecodeError>
        ensures reads { (v : Verb) → field_at (row_fields self.now) index ≡ written.verb_bits v → result ≡ Ok (bits_of_verb v) }
        ensures tells { Checks result self.now kind.Number (are_bits (codes "rwxd") (field_at (row_fields self.now) index)) }
    {
        self.known(verb_bits(self.field(index)), FaultKind::Number)
    }

    /// The path to a call, the outermost part first: its part numbers with dots between them, or 0 for none. Else fault Number.
    pub fn path(&self, alloc: Global, index: usize) -> Result<Vec<usize>, DecodeError>
        ensures reads { (ns : List ℕ) → IsTrue (are_places ns) → field_at (row_fields self.now) index ≡ written.path (map decimal ns) → Gives result (λ v. v.items ≡ ns) }
        ensures tells { Checks result self.now kind.Number (is_path (field_at (row_fields self.now) index)) }
        ensures said { IfOk result (λ v. path_in (field_at (row_fields self.now) index) ≡ v.items) }
    {
        let found = path(alloc, self.field(index))?;
        self.known(found, FaultKind::Number)
    }

    /// A value, by its literal. Else fault Value.
    pub fn value(&self, alloc: Global, index: usize) -> Result<Value, DecodeError>
        ensures reads { (v : Datum) → IsTrue (is_readable v) → field_at (row_fields self.now) index ≡ text_of.literal v → Gives result (λ x. x ≡ v) }
        ensures tells { Checks result self.now kind.Value (is_literal any (field_at (row_fields self.now) index)) }
        ensures said { IfOk result (λ v. value_of (field_at (row_fields self.now) index) ≡ Some v) }
    {
        let found = literal(alloc, self.field(index))?;
        self.known(found, FaultKind::Value)
    }

    /// A text, by its literal. Else fault Value.
    pub fn text(&self, alloc: Global, index: usize) -> Result<Text, DecodeError>
        ensures reads { (t : datum.Text) → IsTrue (is_text t) → field_at (row_fields self.now) index ≡ text_of.literal (datum.text t) → Gives result (λ x. x ≡ t) }
        ensures tells { Checks result self.now kind.Value (is_literal is_string (field_at (row_fields self.now) index)) }
    {
        let found = text_literal(alloc, self.field(index))?;
        self.known(found, FaultKind::Value)
    }

    /// A list of objects, by its literal. Else fault Value.
    pub fn objects(&self, alloc: Global, index: usize) -> Result<Vec<i32>, DecodeError>
        ensures reads { (os : List ℤ) → IsTrue (list_all in_number_range os) → field_at (row_fields self.now) index ≡ written.list_literal (written.object_list os) → Gives result (λ v. v.items ≡ os) }
        ensures tells { Checks result self.now kind.Value (is_literal (is_list_of is_object_value) (field_at (row_fields self.now) index)) }
    {
        let value = self.value(alloc, index)?;
        let found = objects_in(alloc, &value)?;
        self.known(found, FaultKind::Value)
    }

    /// A list of texts, by its literal. Else fault Value.
    pub fn texts(&self, alloc: Global, index: usize) -> Result<Vec<Text>, DecodeError>
        ensures reads { (ts : List datum.Text) → IsTrue (list_all is_text ts) → field_at (row_fields self.now) index ≡ written.list_literal (written.text_list ts) → Gives result (λ v. v.items ≡ ts) }
        ensures tells { Checks result self.now kind.Value (is_literal (is_list_of is_string) (field_at (row_fields self.now) index)) }
    {
        let value = self.value(alloc, index)?;
        let found = texts_in(alloc, &value)?;
        self.known(found, FaultKind::Value)
    }
}

fn has_empty(fields: &[&[u8]]) -> bool
    ensures { result ≡ list_any (λ b. length b.now == 0) fields.now }
{
    fields.iter().any(|field| field.is_empty())
}
