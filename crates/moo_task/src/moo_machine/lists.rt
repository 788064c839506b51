//! Instructions that make lists of what is held.
ghost use Rattle.std.specs.Prelude.{◌≡◌, ◌<◌, ◌+◌, ◌^◌, ℕ, IfOk, if◌then◌else◌};
ghost use Rattle.spec_world.specs.World.{Call as CallOf};
ghost use Rattle.spec_moo.specs.Held.{before_list, listed};
ghost use Rattle.moo_value.specs.Errors.{code_of};
ghost use Rattle.moo_code.specs.Instruction.{open_list as open_list_of, receive as receive_of, Unraised, never, as_value};
ghost use Rattle.moo_task.specs.Shown.{Around, shown, act_of, fails_of};

use crate::moo_machine::call::Call;
use crate::moo_machine::verb::{Did, State};
use moo_value::error::MooError;
use moo_value::value::{Shown, Value};
use std::alloc::{AllocError, Global};

#[tactic(auto, using(crate::proofs::Next::next_place))]
impl State {
    /// An error, with the end of its construct: it is raised by the d bit, or where it always is; else its code is the value.
    pub fn fails(
        &mut self,
        call: &Call,
        always: bool,
        end: usize,
        error: MooError,
    ) -> Result<Did, AllocError>
        ensures { IfOk result (λ d. (a : Around) → fails_of a call.now (if always then never else as_value) end (code_of error) self.old ≡ shown a call.now d self.new) }
    {
        if call.debug || always {
            return Ok(Did::Raised(error));
        }
        self.operands.push(Value::error(error))?;
        self.place = end;
        Ok(Did::Went)
    }

    /// An empty list is put.
    pub fn open_list(&mut self, alloc: Global) -> Result<Did, AllocError>
        requires { self.old.place + 1 < 2 ^ 64 }
        ensures { IfOk result (λ d. (a : Around) (c : CallOf) → act_of a c open_list_of self.old ≡ shown a c d self.new) }
    {
        let list = Value::list(Vec::new(alloc))?;
        self.operands.push(list)?;
        self.place += 1;
        Ok(Did::Went)
    }

    /// A list begins above a value.
    pub fn receive_before_list(&mut self, alloc: Global) -> Result<Did, AllocError>
        requires { self.old.place + 1 < 2 ^ 64 }
        ensures { IfOk result (λ d. (a : Around) (c : CallOf) (end : ℕ) (u : Unraised) → act_of a c (receive_of before_list 1 end u) self.old ≡ shown a c d self.new) }
    {
        let Some(value) = self.operands.pop() else {
            return Ok(Did::LacksOperand);
        };
        let Some(first) = self.operands.pop() else {
            return Ok(Did::LacksOperand);
        };
        let list = Value::list(Vec::new(alloc))?;
        self.operands.push(first)?;
        self.operands.push(value)?;
        self.operands.push(list)?;
        self.place += 1;
        Ok(Did::Went)
    }

    /// A value is put at the end of the list that is held alone below it.
    pub fn receive_listed(
        &mut self,
        call: &Call,
        always: bool,
        end: usize,
    ) -> Result<Did, AllocError>
        requires { self.old.place + 1 < 2 ^ 64 }
        ensures { IfOk result (λ d. (a : Around) → act_of a call.now (receive_of listed 1 end (if always then never else as_value)) self.old ≡ shown a call.now d self.new) }
    {
        let Some(value) = self.operands.pop() else {
            return Ok(Did::LacksOperand);
        };
        let Some(mut list) = self.operands.pop() else {
            return Ok(Did::LacksOperand);
        };
        let Shown::List(_) = list.shown() else {
            let did = self.fails(call, always, end, MooError::TypeMismatch)?;
            return Ok(did);
        };
        list.push(value)?;
        self.operands.push(list)?;
        self.place += 1;
        Ok(Did::Went)
    }
}
