//! How these instructions are told from others.
ghost use Rattle.std.specs.Prelude.{◌≡◌, ◌<◌, ◌+◌, ◌^◌, [], List, length, IfOk, OnOk, MatchOption};
ghost use Rattle.spec_program.specs.Tree.{Program};
ghost use Rattle.moo_code.specs.Instruction.{length_of, target_at, store as store_of};
ghost use Rattle.moo_code.specs.Names.{names_of};
ghost use Rattle.moo_program.specs.Meaning.{shape_meant};
ghost use Rattle.moo_task.specs.Shown.{Around, shown, performs_of};
ghost use Rattle.moo_task.specs.Performing.{HasNames, IsDone};
ghost use Rattle.local_code.specs.Giving.{AreWithin};

use crate::moo_stores::parts::{length_of_part, store_part};
use crate::moo_stores::scatter::{scatter, scatter_on};
use crate::moo_stores::shares::are_within;
use moo_program::instruction::{Instruction, Scatter, Shape};
use moo_task::moo_machine::call::Call;
use moo_task::moo_machine::verb::{Did, State};
use moo_task::perform::slot_there;
use std::alloc::{AllocError, Global};

/// Performs an instruction on a part of a variable, or of a scattering assignment. None: it is another one.
pub fn assignment(
    alloc: Global,
    state: &mut State,
    call: &Call,
    names: usize,
    instruction: &Instruction,
) -> Result<Option<Did>, AllocError>
    requires { state.old.place + 1 < 2 ^ 64 }
    ensures { IfOk result (λ o. MatchOption o (state.new ≡ state.old) (λ d.
        (a : Around) (bodies : List Program) → HasNames a names → IsDone a bodies call.now instruction.now state.old d state.new)) }
{
    match instruction {
        Instruction::LengthOfTarget(shape, height) => {
            let did = length_of_target(alloc, state, call, names, shape, *height as usize)?;
            Ok(did)
        }
        Instruction::StorePart(shape) => {
            let did = store(alloc, state, call, names, shape)?;
            Ok(did)
        }
        Instruction::Scatter(items) => {
            let items: &Scatter = items;
            all_there(state, names, items)?;
            let did = scatter(alloc, state, call, items)?;
            Ok(Some(did))
        }
        Instruction::ScatterOn {
            scatter: items,
            number,
            end,
        } => {
            let did = scatter_on(alloc, state, call, items, *number as usize, *end as usize)?;
            Ok(Some(did))
        }
        _ => Ok(None),
    }
}

// `$` of a variable or of a part of one.
#[inline(never)]
fn length_of_target(
    alloc: Global,
    state: &mut State,
    call: &Call,
    names: usize,
    shape: &Shape,
    height: usize,
) -> Result<Option<Did>, AllocError>
    requires { state.old.place + 1 < 2 ^ 64 }
    ensures { IfOk result (λ o. MatchOption o (state.new ≡ state.old) (λ d. (a : Around) → HasNames a names
        → performs_of a call.now (length_of (target_at (shape_meant (names_of a.program) shape.now) height)) [] state.old
        ≡ shown a call.now d state.new)) }
{
    let Some(variable) = shape.variable else {
        return Ok(None);
    };
    let slot = slot_there(state, names, variable)?;
    let did = length_of_part(alloc, state, call, slot, shape.brackets.as_slice(), height)?;
    Ok(Some(did))
}

// An assignment to a variable or to a part of one.
fn store(
    alloc: Global,
    state: &mut State,
    call: &Call,
    names: usize,
    shape: &Shape,
) -> Result<Option<Did>, AllocError>
    requires { state.old.place + 1 < 2 ^ 64 }
    ensures { IfOk result (λ o. MatchOption o (state.new ≡ state.old) (λ d. (a : Around) → HasNames a names
        → performs_of a call.now (store_of (shape_meant (names_of a.program) shape.now)) [] state.old ≡ shown a call.now d state.new)) }
{
    let Some(variable) = shape.variable else {
        return Ok(None);
    };
    let slot = slot_there(state, names, variable)?;
    let did = store_part(alloc, state, call, slot, shape.brackets.as_slice())?;
    Ok(Some(did))
}

// Tests that there are slots for the variables of a scattering assignment, which a program has among those of its names.
fn all_there(state: &State, names: usize, scatter: &Scatter) -> Result<(), AllocError>
    ensures count { OnOk result (length state.now.slots.items ≡ names) }
    ensures within { OnOk result (AreWithin (length state.now.slots.items) scatter.now.items.items) }
{
    let count = state.slots.len();
    if count == names && are_within(scatter.items.as_slice(), count) {
        Ok(())
    } else {
        Err(AllocError)
    }
}
