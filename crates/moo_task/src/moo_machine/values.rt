//! Instructions of expressions on the operands alone.
ghost use Rattle.std.specs.Prelude.{◌≡◌, ◌<◌, ◌+◌, ◌^◌, ◌∷◌, [], IfOk};
ghost use Rattle.spec_world.specs.World.{Call as CallOf};
ghost use Rattle.spec_value.specs.Answer.{gives};
ghost use Rattle.moo_value.specs.Answers.{answer_of};
ghost use Rattle.moo_value.specs.Operators.{unary_of, binary_of};
ghost use Rattle.moo_code.specs.Instruction.{push as push_of, one as one_of, two as two_of, and_then as and_then_of, or_else as or_else_of, choose as choose_of, chosen as chosen_of, make_list as make_list_of, take_item as take_item_of, take_range as take_range_of, caught_value as caught_value_of};
ghost use Rattle.moo_task.specs.Shown.{Around, shown, performs_of, answered_of};

use crate::moo_machine::call::Call;
use crate::moo_machine::verb::{Did, State};
use moo_arith::arithmetic::unary;
use moo_arith::binary::binary;
use moo_arith::index::{index, range};
use moo_value::answer::{Answer, limited};
use moo_value::error::MooError;
use moo_value::operator::{BinaryOperator, UnaryOperator};
use moo_value::value::Value;
use std::alloc::{AllocError, Global};

#[tactic(auto, using(crate::proofs::Next::next_place), unfolding(moo_code::specs::Machine::does, moo_code::specs::Performing::performed))]
impl State {
    /// Goes on with one more operand.
    #[inline]
    pub fn goes_on(&mut self, value: Value) -> Result<Did, AllocError>
        requires { self.old.place + 1 < 2 ^ 64 }
        ensures { IfOk result (λ d. (a : Around) (c : CallOf) → answered_of a c (gives value) self.old ≡ shown a c d self.new) }
    {
        self.operands.push(value)?;
        self.place += 1;
        Ok(Did::Went)
    }

    /// Goes on with what an operation answered; without the d bit an error is a value.
    #[inline]
    pub fn answers(&mut self, call: &Call, answer: Answer) -> Result<Did, AllocError>
        requires { self.old.place + 1 < 2 ^ 64 }
        ensures { IfOk result (λ d. (a : Around) → answered_of a call.now (answer_of answer) self.old ≡ shown a call.now d self.new) }
    {
        match answer {
            Ok(value) => self.goes_on(value),
            Err(error) if call.debug => Ok(Did::Raised(error)),
            Err(error) => self.goes_on(Value::error(error)),
        }
    }

    /// Puts a literal.
    pub fn push(&mut self, value: Value) -> Result<Did, AllocError>
        requires { self.old.place + 1 < 2 ^ 64 }
        ensures { IfOk result (λ d. (a : Around) (c : CallOf) → performs_of a c (push_of value) [] self.old ≡ shown a c d self.new) }
    {
        self.operands.push(value)?;
        self.place += 1;
        Ok(Did::Went)
    }

    /// The list that was made.
    pub fn make_list(&mut self, call: &Call) -> Result<Did, AllocError>
        requires { self.old.place + 1 < 2 ^ 64 }
        ensures { IfOk result (λ d. (a : Around) → performs_of a call.now make_list_of [] self.old ≡ shown a call.now d self.new) }
    {
        let Some(list) = self.operands.pop() else {
            return Ok(Did::LacksOperand);
        };
        if self.ticks == 0 {
            return Ok(Did::RanOut);
        }
        self.ticks -= 1;
        let did = self.answers(call, limited(list))?;
        Ok(did)
    }

    /// An operator before an operand.
    pub fn unary(&mut self, call: &Call, operator: UnaryOperator) -> Result<Did, AllocError>
        requires { self.old.place + 1 < 2 ^ 64 }
        ensures { IfOk result (λ d. (a : Around) → performs_of a call.now (one_of (unary_of operator)) [] self.old ≡ shown a call.now d self.new) }
    {
        let Some(value) = self.operands.pop() else {
            return Ok(Did::LacksOperand);
        };
        if self.ticks == 0 {
            return Ok(Did::RanOut);
        }
        self.ticks -= 1;
        let did = self.answers(call, unary(operator, &value))?;
        Ok(did)
    }

    /// An operator between two operands.
    pub fn binary(
        &mut self,
        alloc: Global,
        call: &Call,
        operator: BinaryOperator,
    ) -> Result<Did, AllocError>
        requires { self.old.place + 1 < 2 ^ 64 }
        ensures { IfOk result (λ d. (a : Around) → performs_of a call.now (two_of (binary_of operator)) [] self.old ≡ shown a call.now d self.new) }
    {
        let Some(right) = self.operands.pop() else {
            return Ok(Did::LacksOperand);
        };
        let Some(left) = self.operands.pop() else {
            return Ok(Did::LacksOperand);
        };
        if self.ticks == 0 {
            return Ok(Did::RanOut);
        }
        self.ticks -= 1;
        let answer = binary(alloc, operator, &left, &right)?;
        let did = self.answers(call, answer)?;
        Ok(did)
    }

    /// An item of a list, or a character of a text.
    pub fn take_item(&mut self, alloc: Global, call: &Call) -> Result<Did, AllocError>
        requires { self.old.place + 1 < 2 ^ 64 }
        ensures { IfOk result (λ d. (a : Around) → performs_of a call.now take_item_of [] self.old ≡ shown a call.now d self.new) }
    {
        let Some(place) = self.operands.pop() else {
            return Ok(Did::LacksOperand);
        };
        let Some(base) = self.operands.pop() else {
            return Ok(Did::LacksOperand);
        };
        if self.ticks == 0 {
            return Ok(Did::RanOut);
        }
        self.ticks -= 1;
        let answer = index(alloc, &base, &place)?;
        let did = self.answers(call, answer)?;
        Ok(did)
    }

    /// A part of a list or a text.
    pub fn take_range(&mut self, alloc: Global, call: &Call) -> Result<Did, AllocError>
        requires { self.old.place + 1 < 2 ^ 64 }
        ensures { IfOk result (λ d. (a : Around) → performs_of a call.now take_range_of [] self.old ≡ shown a call.now d self.new) }
    {
        let Some(last) = self.operands.pop() else {
            return Ok(Did::LacksOperand);
        };
        let Some(first) = self.operands.pop() else {
            return Ok(Did::LacksOperand);
        };
        let Some(base) = self.operands.pop() else {
            return Ok(Did::LacksOperand);
        };
        if self.ticks == 0 {
            return Ok(Did::RanOut);
        }
        self.ticks -= 1;
        let answer = range(alloc, &base, &first, &last)?;
        let did = self.answers(call, answer)?;
        Ok(did)
    }

    /// On to the second operand where the first is true, and else with it to a place.
    pub fn and_then(&mut self, place: usize) -> Result<Did, AllocError>
        requires { self.old.place + 1 < 2 ^ 64 }
        ensures { IfOk result (λ d. (a : Around) (c : CallOf) → performs_of a c and_then_of ((0, place) ∷ []) self.old ≡ shown a c d self.new) }
    {
        let Some(value) = self.operands.pop() else {
            return Ok(Did::LacksOperand);
        };
        if self.ticks == 0 {
            return Ok(Did::RanOut);
        }
        self.ticks -= 1;
        if value.is_true() {
            self.place += 1;
        } else {
            self.operands.push(value)?;
            self.place = place;
        }
        Ok(Did::Went)
    }

    /// With the first operand to a place where it is true, and else on to the second.
    pub fn or_else(&mut self, place: usize) -> Result<Did, AllocError>
        requires { self.old.place + 1 < 2 ^ 64 }
        ensures { IfOk result (λ d. (a : Around) (c : CallOf) → performs_of a c or_else_of ((0, place) ∷ []) self.old ≡ shown a c d self.new) }
    {
        let Some(value) = self.operands.pop() else {
            return Ok(Did::LacksOperand);
        };
        if self.ticks == 0 {
            return Ok(Did::RanOut);
        }
        self.ticks -= 1;
        if value.is_true() {
            self.operands.push(value)?;
            self.place = place;
        } else {
            self.place += 1;
        }
        Ok(Did::Went)
    }

    /// On to the first arm where the condition is true, and else to the second one.
    pub fn choose(&mut self, place: usize) -> Result<Did, AllocError>
        requires { self.old.place + 1 < 2 ^ 64 }
        ensures { IfOk result (λ d. (a : Around) (c : CallOf) → performs_of a c choose_of ((3, place) ∷ []) self.old ≡ shown a c d self.new) }
    {
        let Some(value) = self.operands.pop() else {
            return Ok(Did::LacksOperand);
        };
        if self.ticks == 0 {
            return Ok(Did::RanOut);
        }
        self.ticks -= 1;
        if value.is_true() {
            self.place += 1;
        } else {
            self.place = place;
        }
        Ok(Did::Went)
    }

    /// From the first arm to the end.
    pub fn chosen(&mut self, place: usize) -> Result<Did, AllocError>
        requires { self.old.place + 1 < 2 ^ 64 }
        ensures { IfOk result (λ d. (a : Around) (c : CallOf) → performs_of a c chosen_of ((0, place) ∷ []) self.old ≡ shown a c d self.new) }
    {
        let Some(value) = self.operands.pop() else {
            return Ok(Did::LacksOperand);
        };
        self.operands.push(value)?;
        self.place = place;
        Ok(Did::Went)
    }

    /// From a caught expression, which has a value, to the end; its codes go.
    pub fn caught_value(&mut self, place: usize) -> Result<Did, AllocError>
        requires { self.old.place + 1 < 2 ^ 64 }
        ensures { IfOk result (λ d. (a : Around) (c : CallOf) → performs_of a c caught_value_of ((0, place) ∷ []) self.old ≡ shown a c d self.new) }
    {
        let Some(value) = self.operands.pop() else {
            return Ok(Did::LacksOperand);
        };
        let Some(_codes) = self.operands.pop() else {
            return Ok(Did::LacksOperand);
        };
        self.operands.push(value)?;
        self.place = place;
        Ok(Did::Went)
    }
}
