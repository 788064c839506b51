//! How the value of a part is received beside what its construct holds.
ghost use Rattle.std.specs.Prelude.{◌≡◌, ◌<◌, ◌≤◌, ◌+◌, ◌^◌, ◌∷◌, length, IfOk, MatchOption};
ghost use Rattle.spec_value.specs.Datum.{of_list, list as list_of};
ghost use Rattle.spec_moo.specs.Held.{beside, before_list, listed, spliced};
ghost use Rattle.moo_value.specs.Errors.{code_of};
ghost use Rattle.moo_code.specs.Instruction.{receive as receive_of};
ghost use Rattle.moo_code.specs.Operands.{IsNoList};
ghost use Rattle.moo_program.specs.Drafting.{way_of, unraised_of};
ghost use Rattle.moo_task.specs.Shown.{Around, shown, act_of, fails_of};

use crate::moo_machine::call::Call;
use crate::moo_machine::verb::{Did, State};
use moo_program::moo_bytecode::operation::{Unraised, Way};
use moo_value::error::MooError;
use moo_value::value::{Shown, Value};
use std::alloc::{AllocError, Global};

// The items of a list.
fn items_in(value: &Value) -> Option<&[Value]>
    ensures { MatchOption result (IsNoList value.now) (λ items. value.now ≡ list_of (of_list items.now)) }
{
    match value.shown() {
        Shown::List(items) => Some(items),
        _ => None,
    }
}

#[tactic(auto, using(crate::proofs::Next::next_place))]
impl State {
    // An error, with the end of its construct, by what is done where it is not raised.
    pub(crate) fn refuses(
        &mut self,
        call: &Call,
        unraised: Unraised,
        end: usize,
        error: MooError,
    ) -> Result<Did, AllocError>
        ensures { IfOk result (λ d. (a : Around) → fails_of a call.now (unraised_of unraised) end (code_of error) self.old ≡ shown a call.now d self.new) }
    {
        if call.debug {
            return Ok(Did::Raised(error));
        }
        match unraised {
            Unraised::AsValue => self.operands.push(Value::error(error))?,
            Unraised::Skipped => {}
            Unraised::Never => return Ok(Did::Raised(error)),
        }
        self.place = end;
        Ok(Did::Went)
    }

    /// The value of a part is received beside so many held values: as one more of them, before a list that begins, at the end of the list that is
    /// held last, or its items there. A list that has no other owner grows in place.
    pub fn receive(
        &mut self,
        alloc: Global,
        call: &Call,
        way: Way,
        unraised: Unraised,
        held: usize,
        end: usize,
    ) -> Result<Did, AllocError>
        requires { self.old.place + 1 < 2 ^ 64 }
        ensures { IfOk result (λ d. (a : Around) → act_of a call.now (receive_of (way_of way) held end (unraised_of unraised)) self.old ≡ shown a call.now d self.new) }
    {
        match way {
            Way::Beside => self.receives_beside(call, unraised, held, end),
            Way::BeforeList => self.receives_before_list(alloc, call, unraised, held, end),
            Way::Listed => self.receives_listed(call, unraised, held, end),
            Way::Spliced => self.receives_spliced(call, unraised, held, end),
        }
    }

    #[tactic(auto, using(crate::proofs::Next::next_place, crate::proofs::Received::beside_received, crate::proofs::Received::received_short))]
    fn receives_beside(
        &mut self,
        call: &Call,
        unraised: Unraised,
        held: usize,
        end: usize,
    ) -> Result<Did, AllocError>
        requires { self.old.place + 1 < 2 ^ 64 }
        ensures { IfOk result (λ d. (a : Around) → act_of a call.now (receive_of beside held end (unraised_of unraised)) self.old ≡ shown a call.now d self.new) }
    {
        let Some(value) = self.operands.pop() else {
            return Ok(Did::LacksOperand);
        };
        if self.operands.len() < held {
            return Ok(Did::LacksOperand);
        }
        self.operands.push(value)?;
        self.place += 1;
        Ok(Did::Went)
    }

    #[tactic(auto, using(crate::proofs::Next::next_place, crate::proofs::Received::before_received, crate::proofs::Received::received_short))]
    fn receives_before_list(
        &mut self,
        alloc: Global,
        call: &Call,
        unraised: Unraised,
        held: usize,
        end: usize,
    ) -> Result<Did, AllocError>
        requires { self.old.place + 1 < 2 ^ 64 }
        ensures { IfOk result (λ d. (a : Around) → act_of a call.now (receive_of before_list held end (unraised_of unraised)) self.old ≡ shown a call.now d self.new) }
    {
        let Some(value) = self.operands.pop() else {
            return Ok(Did::LacksOperand);
        };
        if self.operands.len() < held {
            return Ok(Did::LacksOperand);
        }
        self.operands.push(value)?;
        let list = Value::list(Vec::new(alloc))?;
        self.operands.push(list)?;
        self.place += 1;
        Ok(Did::Went)
    }

    #[tactic(auto, using(crate::proofs::Next::next_place, crate::proofs::Received::listed_received, crate::proofs::Received::listed_refused, crate::proofs::Received::listed_alone, crate::proofs::Received::received_short))]
    fn receives_listed(
        &mut self,
        call: &Call,
        unraised: Unraised,
        held: usize,
        end: usize,
    ) -> Result<Did, AllocError>
        requires { self.old.place + 1 < 2 ^ 64 }
        ensures { IfOk result (λ d. (a : Around) → act_of a call.now (receive_of listed held end (unraised_of unraised)) self.old ≡ shown a call.now d self.new) }
    {
        let Some(value) = self.operands.pop() else {
            return Ok(Did::LacksOperand);
        };
        if self.operands.len() < held {
            return Ok(Did::LacksOperand);
        }
        if held == 0 {
            let did = self.refuses(call, unraised, end, MooError::TypeMismatch)?;
            return Ok(did);
        }
        let Some(mut list) = self.operands.pop() else {
            return Ok(Did::LacksOperand);
        };
        let Some(_) = items_in(&list) else {
            self.operands.forget(held - 1);
            let did = self.refuses(call, unraised, end, MooError::TypeMismatch)?;
            return Ok(did);
        };
        list.push(value)?;
        self.operands.push(list)?;
        self.place += 1;
        Ok(Did::Went)
    }

    #[tactic(auto, using(crate::proofs::Next::next_place, crate::proofs::Received::splice_refused, crate::proofs::Received::received_short))]
    fn receives_spliced(
        &mut self,
        call: &Call,
        unraised: Unraised,
        held: usize,
        end: usize,
    ) -> Result<Did, AllocError>
        requires { self.old.place + 1 < 2 ^ 64 }
        ensures { IfOk result (λ d. (a : Around) → act_of a call.now (receive_of spliced held end (unraised_of unraised)) self.old ≡ shown a call.now d self.new) }
    {
        let Some(value) = self.operands.pop() else {
            return Ok(Did::LacksOperand);
        };
        if self.operands.len() < held {
            return Ok(Did::LacksOperand);
        }
        let Some(between) = items_in(&value) else {
            self.operands.forget(held);
            let did = self.refuses(call, unraised, end, MooError::TypeMismatch)?;
            return Ok(did);
        };
        let did = self.joins(call, unraised, held, end, between)?;
        Ok(did)
    }

    // Items that were taken from the top come to the end of the list that is held last.
    #[tactic(auto, using(crate::proofs::Next::next_place, crate::proofs::Received::spliced_received, crate::proofs::Received::spliced_refused, crate::proofs::Received::spliced_alone, crate::proofs::Received::joined_at_end, crate::proofs::Counted::items_counted))]
    fn joins(
        &mut self,
        call: &Call,
        unraised: Unraised,
        held: usize,
        end: usize,
        between: &[Value],
    ) -> Result<Did, AllocError>
        requires place { self.old.place + 1 < 2 ^ 64 }
        requires held { held ≤ length self.old.operands }
        ensures { IfOk result (λ d. (a : Around)
            → act_of a call.now (receive_of spliced held end (unraised_of unraised)) (record (self.old) { operands = list_of (of_list between.now) ∷ self.old.operands })
            ≡ shown a call.now d self.new) }
    {
        if held == 0 {
            let did = self.refuses(call, unraised, end, MooError::TypeMismatch)?;
            return Ok(did);
        }
        let Some(mut list) = self.operands.pop() else {
            return Ok(Did::LacksOperand);
        };
        let Some(items) = items_in(&list) else {
            self.operands.forget(held - 1);
            let did = self.refuses(call, unraised, end, MooError::TypeMismatch)?;
            return Ok(did);
        };
        let count = items.len();
        list.replace_part(count, count, between)?;
        self.operands.push(list)?;
        self.place += 1;
        Ok(Did::Went)
    }
}
