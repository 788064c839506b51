//! The operands of a verb under way.
ghost use Rattle.std.specs.Prelude.{◌≡◌, ◌<◌, ◌≤◌, ◌+◌, ◌^◌, [], ◌∷◌, length, drop, take, reverse, map, OnOk, OnErr, MatchOption, IfOk, vec_len, vec_capacity};
ghost use Rattle.moo_value.specs.Answers.{answer_of};
ghost use Rattle.spec_moo.specs.Effects.Lists.{first_held, length_in};
ghost use Rattle.moo_code.specs.Performing.{onto, from_height};
ghost use Rattle.moo_program.specs.Drafting.{known_of};
ghost use Rattle.moo_code.specs.Machine.{lowest};

use crate::moo_machine::lengths::length;
use moo_program::moo_bytecode::operation::KnownCodes;
use moo_value::answer::Answer;
use moo_value::error::MooError;
use moo_value::value::Value;
use std::alloc::{AllocError, Global};
use std::marker::Model;

/// Operands, the newest on top.
#[derive(Drop)]
pub struct Operands {
    values: Vec<Value>,
}

impl Model for Operands {
    ghost use Rattle.std.specs.Prelude.{List, reverse};
    ghost use Rattle.std.specs.Coded.{coded_list};
    ghost use Rattle.spec_value.specs.Datum.{Datum};
    ghost use Rattle.spec_value.specs.DatumCode.{datum_code};

    ghost Value = { List Datum };

    ghost coded = { coded_list datum_code };

    ghost view = { λ a. reverse a.values.items };
}

impl Operands {
    /// No operand.
    pub fn new(alloc: Global) -> Operands
        ensures { result ≡ [] }
    {
        Operands {
            values: Vec::new(alloc),
        }
    }

    /// Puts a value on top.
    #[inline(always)]
    pub fn push(&mut self, value: Value) -> Result<(), AllocError>
        ensures ok { OnOk result (self.new ≡ value ∷ self.old) }
        ensures err { OnErr result (self.new ≡ self.old) }
    {
        if self.values.len() == self.values.capacity() {
            make_room(&mut self.values)?;
        }
        self.values.push_reserved(value);
        Ok(())
    }

    /// Takes the value on top.
    #[inline(always)]
    pub fn pop(&mut self) -> Option<Value>
        ensures { MatchOption result ((self.old ≡ []) × (self.new ≡ [])) (λ x. self.old ≡ x ∷ self.new) }
    {
        self.values.pop()
    }

    /// Puts codes of handlers that are known before any part is begun.
    pub fn push_codes(&mut self, alloc: Global, codes: &[KnownCodes]) -> Result<(), AllocError>
        ensures { OnOk result (self.new ≡ onto (map known_of codes.now) self.old) }
    {
        for code in codes {
            let value = known(alloc, *code)?;
            self.push(value)?;
        }
        Ok(())
    }

    /// How many there are.
    #[inline(always)]
    pub fn len(&self) -> usize
        ensures { result ≡ length self.now }
    {
        self.values.len()
    }

    /// Lets go of so many on top, or of all.
    #[tactic(auto, using(crate::proofs::Taken::dropped))]
    pub fn forget(&mut self, count: usize)
        ensures { self.new ≡ drop count self.old }
    {
        let stay = self.values.len().saturating_sub(count);
        self.values.truncate(stay);
    }

    /// Lets go of all.
    #[inline(always)]
    pub fn clear(&mut self)
        ensures { self.new ≡ [] }
    {
        self.values.clear();
    }

    /// Lets go of all but so many at the bottom.
    pub fn keep_lowest(&mut self, count: usize)
        ensures { self.new ≡ lowest count self.old }
    {
        let more = self.len().saturating_sub(count);
        self.forget(more);
    }

    /// The values that a construct holds above so many operands, the deepest first, whatever stands above them.
    #[tactic(auto, using(crate::proofs::Taken::some_held, crate::proofs::Taken::none_held))]
    pub fn held(&self, height: usize, count: usize) -> Option<&[Value]>
        requires { height + count < 2 ^ 64 }
        ensures { MatchOption result (length (lowest (height + count) self.now) < count)
            (λ held. (count ≤ length (lowest (height + count) self.now)) × (held.now ≡ reverse (take count (lowest (height + count) self.now)))) }
    {
        let more = self.values.len().saturating_sub(height + count);
        let whole = self.values.len() - more;
        if whole < count {
            return None;
        }
        Some(&self.values[whole - count..whole])
    }

    /// The length of the operand with so many below it, for `$`.
    pub fn length_at(&self, height: usize) -> Answer
        ensures { answer_of result ≡ length_in (first_held (from_height height self.now)) }
    {
        match self.above(height) {
            [value, ..] => length(value),
            [] => Err(MooError::TypeMismatch),
        }
    }

    /// Those above so many others, the deepest first.
    #[tactic(auto, using(crate::proofs::Counted::stored_above))]
    pub fn above(&self, height: usize) -> &[Value]
        ensures { result.now ≡ from_height height self.now }
    {
        let start = height.min(self.values.len());
        &self.values[start..]
    }

    /// So many on top, the deepest first.
    #[tactic(auto, using(crate::proofs::Taken::some_top))]
    pub fn top(&self, count: usize) -> Option<&[Value]>
        ensures { MatchOption result (length self.now < count) (λ held. (count ≤ length self.now) × (held.now ≡ reverse (take count self.now))) }
    {
        let whole = self.values.len();
        if whole < count {
            return None;
        }
        Some(&self.values[whole - count..whole])
    }
}

// Room for some more.
#[cold]
#[inline(never)]
fn make_room(values: &mut Vec<Value>) -> Result<(), AllocError>
    ensures items { values.new.items ≡ values.old.items }
    ensures room { OnOk result (vec_len values.new < vec_capacity values.new) }
{
    values.reserve(8)?;
    Ok(())
}

// Codes that are known: all of them, or none yet.
fn known(alloc: Global, code: KnownCodes) -> Result<Value, AllocError>
    ensures { IfOk result (λ v. v ≡ known_of code) }
{
    match code {
        KnownCodes::All => Ok(Value::integer(0)),
        KnownCodes::Empty => Value::list(Vec::new(alloc)),
    }
}
