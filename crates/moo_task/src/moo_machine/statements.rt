//! Instructions of statements on the operands alone.
ghost use Rattle.std.specs.Prelude.{◌≡◌, ◌<◌, ◌+◌, ◌^◌, ◌∷◌, [], ℕ, ◌==◌, false, map, IfOk};
ghost use Rattle.spec_world.specs.World.{Call as CallOf};
ghost use Rattle.moo_code.specs.Instruction.{pop as pop_of, return_top as return_top_of, return_zero as return_zero_of, test as test_of, test_last as test_last_of, test_loop as test_loop_of, leave_loops as leave_loops_of, continue_loops as continue_loops_of, finish as finish_of, finish_body as finish_body_of, begin_part, end_finally as end_finally_of};
ghost use Rattle.moo_program.specs.Drafting.{known_of};
ghost use Rattle.moo_task.specs.Shown.{Around, shown, performs_of};

use crate::moo_machine::held::ended_value;
use crate::moo_machine::leaving::Leaving;
use crate::moo_machine::left::left_in;
use crate::moo_machine::verb::{Did, State};
use moo_program::moo_bytecode::operation::KnownCodes;
use moo_value::value::Value;
use std::alloc::{AllocError, Global};

#[tactic(auto, using(crate::proofs::Next::next_place, crate::proofs::Operations::lacks, crate::proofs::Operations::finishes, crate::proofs::Operations::begins_free, crate::proofs::Operations::begins_paid, crate::proofs::Operations::begins_unpaid), unfolding(moo_code::specs::Machine::does, moo_code::specs::Performing::performed))]
impl State {
    /// The value of an expression statement goes.
    pub fn pop(&mut self) -> Did
        requires { self.old.place + 1 < 2 ^ 64 }
        ensures { (a : Around) (c : CallOf) → performs_of a c pop_of [] self.old ≡ shown a c result self.new }
    {
        let Some(_value) = self.operands.pop() else {
            return Did::LacksOperand;
        };
        self.place += 1;
        Did::Went
    }

    /// The verb returns a value.
    pub fn return_top(&mut self) -> Did
        ensures { (a : Around) (c : CallOf) → performs_of a c return_top_of [] self.old ≡ shown a c result self.new }
    {
        let Some(value) = self.operands.pop() else {
            return Did::LacksOperand;
        };
        if self.ticks == 0 {
            return Did::RanOut;
        }
        self.ticks -= 1;
        Did::Left(Leaving::Returned(value))
    }

    /// The verb returns 0.
    pub fn return_zero(&mut self) -> Did
        ensures { (a : Around) (c : CallOf) → performs_of a c return_zero_of [] self.old ≡ shown a c result self.new }
    {
        if self.ticks == 0 {
            return Did::RanOut;
        }
        self.ticks -= 1;
        Did::Left(Leaving::Returned(Value::integer(0)))
    }

    /// A `break`.
    pub fn leave_loops(&mut self, loops: u32) -> Did
        ensures { (a : Around) (c : CallOf) → performs_of a c (leave_loops_of loops) [] self.old ≡ shown a c result self.new }
    {
        Did::Left(Leaving::Broken(loops))
    }

    /// A `continue`.
    pub fn continue_loops(&mut self, loops: u32) -> Did
        ensures { (a : Around) (c : CallOf) → performs_of a c (continue_loops_of loops) [] self.old ≡ shown a c result self.new }
    {
        Did::Left(Leaving::Continued(loops))
    }

    /// Of `if`: on to the body where the condition is true, and else to a place. The first condition takes a tick.
    pub fn test(&mut self, first: bool, place: usize) -> Did
        requires { self.old.place + 1 < 2 ^ 64 }
        ensures { (a : Around) (c : CallOf) (m n : ℕ) → (n == m) ≡ false → performs_of a c (test_of first m n) ((n, place) ∷ []) self.old ≡ shown a c result self.new }
    {
        let Some(condition) = self.operands.pop() else {
            return Did::LacksOperand;
        };
        if first {
            if self.ticks == 0 {
                return Did::RanOut;
            }
            self.ticks -= 1;
        }
        if condition.is_true() {
            self.place += 1;
        } else {
            self.place = place;
        }
        Did::Went
    }

    /// The same where nothing follows.
    pub fn test_last(&mut self, first: bool, part: usize, place: usize) -> Did
        requires { self.old.place + 1 < 2 ^ 64 }
        ensures { (a : Around) (c : CallOf) → performs_of a c (test_last_of first part) ((0, place) ∷ []) self.old ≡ shown a c result self.new }
    {
        let Some(condition) = self.operands.pop() else {
            return Did::LacksOperand;
        };
        if first {
            if self.ticks == 0 {
                return Did::RanOut;
            }
            self.ticks -= 1;
        }
        if condition.is_true() && part > 0 {
            self.place += 1;
        } else {
            self.place = place;
        }
        Did::Went
    }

    /// Of `while`: on to the body where the condition is true, for a tick, and else to the end.
    pub fn test_loop(&mut self, place: usize) -> Did
        requires { self.old.place + 1 < 2 ^ 64 }
        ensures { (a : Around) (c : CallOf) → performs_of a c test_loop_of ((0, place) ∷ []) self.old ≡ shown a c result self.new }
    {
        let Some(condition) = self.operands.pop() else {
            return Did::LacksOperand;
        };
        if condition.is_true() {
            if self.ticks == 0 {
                return Did::RanOut;
            }
            self.ticks -= 1;
            self.place += 1;
        } else {
            self.place = place;
        }
        Did::Went
    }

    /// On to the first part, which is next.
    pub fn begin_first(&mut self) -> Did
        requires { self.old.place + 1 < 2 ^ 64 }
        ensures { (a : Around) (c : CallOf) → performs_of a c (begin_part 0 0 1 []) [] self.old ≡ shown a c result self.new }
    {
        self.place += 1;
        Did::Went
    }

    /// To a part at a place, above so many operands that stay, perhaps for a tick.
    pub fn begin(&mut self, ticks: u8, operands: usize, place: usize) -> Did
        ensures { (a : Around) (c : CallOf) (m : ℕ) → performs_of a c (begin_part ticks operands m []) ((m, place) ∷ []) self.old ≡ shown a c result self.new }
    {
        if self.operands.len() < operands {
            return Did::LacksOperand;
        }
        if ticks == 0 {
            self.place = place;
            return Did::Went;
        }
        if self.ticks == 0 {
            return Did::RanOut;
        }
        self.ticks -= 1;
        self.place = place;
        Did::Went
    }

    /// The same above the codes of handlers that are known before any part is begun.
    #[tactic(auto, using(crate::proofs::Operations::lacks, crate::proofs::Operations::begins_above_free, crate::proofs::Operations::begins_above_paid, crate::proofs::Operations::begins_above_unpaid))]
    pub fn begin_above(
        &mut self,
        alloc: Global,
        ticks: u8,
        operands: usize,
        codes: &[KnownCodes],
        place: usize,
    ) -> Result<Did, AllocError>
        ensures { IfOk result (λ d. (a : Around) (c : CallOf) (m : ℕ)
            → performs_of a c (begin_part ticks operands m (map known_of codes.now)) ((m, place) ∷ []) self.old ≡ shown a c d self.new) }
    {
        if self.operands.len() < operands {
            return Ok(Did::LacksOperand);
        }
        if ticks == 0 {
            self.operands.push_codes(alloc, codes)?;
            self.place = place;
            return Ok(Did::Went);
        }
        if self.ticks == 0 {
            return Ok(Did::RanOut);
        }
        self.ticks -= 1;
        self.operands.push_codes(alloc, codes)?;
        self.place = place;
        Ok(Did::Went)
    }

    /// To the end, without so many held values.
    pub fn finish(&mut self, held: usize, place: usize) -> Did
        ensures { (a : Around) (c : CallOf) → performs_of a c (finish_of held) ((0, place) ∷ []) self.old ≡ shown a c result self.new }
    {
        if self.operands.len() < held {
            return Did::LacksOperand;
        }
        self.operands.forget(held);
        self.place = place;
        Did::Went
    }

    /// The body of a finally part is left by its end.
    pub fn finish_body(&mut self, alloc: Global) -> Result<Did, AllocError>
        requires { self.old.place + 1 < 2 ^ 64 }
        ensures { IfOk result (λ d. (a : Around) (c : CallOf) → performs_of a c finish_body_of [] self.old ≡ shown a c d self.new) }
    {
        let left = ended_value(alloc)?;
        self.operands.push(left)?;
        self.place += 1;
        Ok(Did::Went)
    }

    /// After the second part of `try finally`: what left the body leaves it now, if anything did.
    #[tactic(auto, using(crate::proofs::Next::next_place, crate::proofs::Operations::lacks, crate::proofs::Operations::goes_on_leaving, crate::proofs::Operations::goes_on_behind))]
    pub fn end_finally(&mut self, alloc: Global) -> Result<Did, AllocError>
        requires { self.old.place + 1 < 2 ^ 64 }
        ensures { IfOk result (λ d. (a : Around) (c : CallOf) → performs_of a c end_finally_of [] self.old ≡ shown a c d self.new) }
    {
        let Some(value) = self.operands.pop() else {
            return Ok(Did::LacksOperand);
        };
        let left = left_in(alloc, &value)?;
        let Some(leaving) = left else {
            self.place += 1;
            return Ok(Did::Went);
        };
        Ok(Did::Left(leaving))
    }
}
