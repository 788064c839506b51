//! Instructions on parts of variables: `$` of one, and assignments to one.
ghost use Rattle.std.specs.Prelude.{◌≡◌, ◌<◌, ◌+◌, ◌^◌, [], length, IfOk};
ghost use Rattle.spec_value.specs.Datum.{Text as TextOf};
ghost use Rattle.moo_code.specs.Instruction.{length_of, target_at, store as store_of, in_variable};
ghost use Rattle.moo_program.specs.Meaning.{bracketed};
ghost use Rattle.moo_task.specs.Shown.{Around, Names, shown, performs_of};

use crate::moo_stores::slots::{length_in_slot, put_in_slot};
use crate::moo_targets::parts::count_in;
use moo_program::instruction::Bracket;
use moo_task::moo_machine::call::Call;
use moo_task::moo_machine::verb::{Did, State};
use std::alloc::{AllocError, Global};

/// `$` in brackets behind a part of a variable, where the values in the brackets before begin above so many operands.
pub fn length_of_part(
    alloc: Global,
    state: &mut State,
    call: &Call,
    slot: usize,
    brackets: &[Bracket],
    height: usize,
) -> Result<Did, AllocError>
    requires { state.old.place + 1 < 2 ^ 64 }
    ensures { IfOk result (λ d. (a : Around) (x : TextOf) → Names a slot x
        → performs_of a call.now (length_of (target_at (bracketed brackets.now (in_variable x)) height)) [] state.old
        ≡ shown a call.now d state.new) }
{
    if state.ticks == 0 {
        return Ok(Did::RanOut);
    }
    state.ticks -= 1;
    let values = state.operands.above(height);
    let answer = length_in_slot(alloc, state.slots.as_slice(), slot, brackets, values)?;
    let did = state.answers(call, answer)?;
    Ok(did)
}

/// An item or a range of what a variable holds gets the value that stays on top, above the values in the brackets, which go.
pub fn store_part(
    alloc: Global,
    state: &mut State,
    call: &Call,
    slot: usize,
    brackets: &[Bracket],
) -> Result<Did, AllocError>
    requires place { state.old.place + 1 < 2 ^ 64 }
    requires slot { slot < length state.old.slots.items }
    ensures { IfOk result (λ d. (a : Around) (x : TextOf) → Names a slot x
        → performs_of a call.now (store_of (bracketed brackets.now (in_variable x))) [] state.old ≡ shown a call.now d state.new) }
{
    if brackets.is_empty() {
        let did = state.store(slot)?;
        return Ok(did);
    }
    let count = count_in(brackets);
    if state.operands.len() <= count {
        return Ok(Did::LacksOperand);
    }
    if state.ticks == 0 {
        return Ok(Did::RanOut);
    }
    let Some(values) = state.operands.top(count + 1) else {
        return Ok(Did::LacksOperand);
    };
    let value = values[count].clone()?;
    let stays = value.clone()?;
    match put_in_slot(alloc, &mut state.slots, slot, brackets, values, value)? {
        Ok(()) => {
            state.operands.forget(count + 1);
            state.ticks -= 1;
            let did = state.goes_on(stays)?;
            Ok(did)
        }
        Err(error) => {
            state.operands.forget(count + 1);
            state.ticks -= 1;
            let did = state.answers(call, Err(error))?;
            Ok(did)
        }
    }
}
