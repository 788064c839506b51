//! Variables, in the slots of their names.
ghost use Rattle.std.specs.Prelude.{◌≡◌, ◌<◌, ◌+◌, ◌^◌, [], length, slice_get, slice_set, Some, IfOk};
ghost use Rattle.spec_value.specs.Datum.{Text as TextOf};
ghost use Rattle.spec_world.specs.World.{Call as CallOf};
ghost use Rattle.spec_moo.specs.Effects.Access.{valued};
ghost use Rattle.moo_value.specs.Answers.{answer_of};
ghost use Rattle.moo_code.specs.Slots.{in_slot};
ghost use Rattle.moo_code.specs.Instruction.{load as load_of, store as store_of, store_default as store_default_of, in_variable};
ghost use Rattle.moo_task.specs.Shown.{Around, Names, shown, performs_of};

use crate::moo_machine::call::Call;
use crate::moo_machine::verb::{Did, State};
use moo_value::answer::Answer;
use moo_value::error::MooError;
use moo_value::value::Value;
use std::alloc::AllocError;

#[tactic(auto, using(crate::proofs::Next::next_place, crate::proofs::InSlots::slot_is_given), unfolding(moo_code::specs::Machine::does, moo_code::specs::Performing::performed))]
impl State {
    /// What a slot holds.
    pub fn variable(&self, slot: usize) -> Result<Answer, AllocError>
        ensures { IfOk result (λ r. answer_of r ≡ valued (in_slot (slice_get self.now.slots.items slot))) }
    {
        match self.slots.get(slot) {
            Some(Some(value)) => Ok(Ok(value.clone()?)),
            _ => Ok(Err(MooError::VariableNotFound)),
        }
    }

    /// The value of a variable.
    pub fn load(&mut self, call: &Call, slot: usize) -> Result<Did, AllocError>
        requires { self.old.place + 1 < 2 ^ 64 }
        ensures { IfOk result (λ d. (a : Around) (x : TextOf) → Names a slot x → performs_of a call.now (load_of x) [] self.old ≡ shown a call.now d self.new) }
    {
        let answer = self.variable(slot)?;
        let did = self.answers(call, answer)?;
        Ok(did)
    }

    /// A variable gets the value that stays on top.
    pub fn store(&mut self, slot: usize) -> Result<Did, AllocError>
        requires place { self.old.place + 1 < 2 ^ 64 }
        requires slot { slot < length self.old.slots.items }
        ensures { IfOk result (λ d. (a : Around) (c : CallOf) (x : TextOf) → Names a slot x → performs_of a c (store_of (in_variable x)) [] self.old ≡ shown a c d self.new) }
    {
        let Some(value) = self.operands.pop() else {
            return Ok(Did::LacksOperand);
        };
        if self.ticks == 0 {
            return Ok(Did::RanOut);
        }
        self.ticks -= 1;
        let stays = value.clone()?;
        self.operands.push(stays)?;
        self.slots[slot] = Some(value);
        self.place += 1;
        Ok(Did::Went)
    }

    /// A variable gets its default.
    pub fn store_default(&mut self, slot: usize) -> Did
        requires place { self.old.place + 1 < 2 ^ 64 }
        requires slot { slot < length self.old.slots.items }
        ensures { (a : Around) (c : CallOf) (x : TextOf) → Names a slot x → performs_of a c (store_default_of x) [] self.old ≡ shown a c result self.new }
    {
        let Some(value) = self.operands.pop() else {
            return Did::LacksOperand;
        };
        self.slots[slot] = Some(value);
        self.place += 1;
        Did::Went
    }
}
