//! `$` in brackets: the length of what they index.
ghost use Rattle.std.specs.Prelude.{◌≡◌, ◌<◌, ◌+◌, ◌^◌, [], IfOk};
ghost use Rattle.spec_value.specs.PureBuiltins.{length_of as length_meant};
ghost use Rattle.moo_value.specs.Answers.{answer_of};
ghost use Rattle.moo_code.specs.Instruction.{length_of, nothing, operand_at};
ghost use Rattle.moo_task.specs.Shown.{Around, shown, performs_of};

use crate::moo_machine::call::Call;
use crate::moo_machine::verb::{Did, State};
use moo_value::answer::Answer;
use moo_value::error::MooError;
use moo_value::value::{Shown, Value};
use std::alloc::AllocError;

/// The length of a text or a list, else `E_TYPE`.
#[tactic(auto, using(crate::proofs::Counted::items_counted))]
pub fn length(value: &Value) -> Answer
    ensures { answer_of result ≡ length_meant value.now }
{
    match value.shown() {
        Shown::Text(text) => Ok(Value::count(text.len())),
        Shown::List(items) => Ok(Value::count(items.len())),
        _ => Err(MooError::TypeMismatch),
    }
}

#[tactic(auto, using(crate::proofs::Next::next_place), unfolding(moo_code::specs::Machine::does, moo_code::specs::Performing::performed))]
impl State {
    /// `$` outside of brackets.
    pub fn length_of_nothing(&mut self, call: &Call) -> Result<Did, AllocError>
        requires { self.old.place + 1 < 2 ^ 64 }
        ensures { IfOk result (λ d. (a : Around) → performs_of a call.now (length_of nothing) [] self.old ≡ shown a call.now d self.new) }
    {
        if self.ticks == 0 {
            return Ok(Did::RanOut);
        }
        self.ticks -= 1;
        let did = self.answers(call, Err(MooError::TypeMismatch))?;
        Ok(did)
    }

    /// `$` of the operand with so many below it.
    pub fn length_of_operand(&mut self, call: &Call, height: usize) -> Result<Did, AllocError>
        requires { self.old.place + 1 < 2 ^ 64 }
        ensures { IfOk result (λ d. (a : Around) → performs_of a call.now (length_of (operand_at height)) [] self.old ≡ shown a call.now d self.new) }
    {
        if self.ticks == 0 {
            return Ok(Did::RanOut);
        }
        self.ticks -= 1;
        let answer = self.operands.length_at(height);
        let did = self.answers(call, answer)?;
        Ok(did)
    }
}
