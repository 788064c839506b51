//! Instructions of scattering assignments.
ghost use Rattle.std.specs.Prelude.{◌≡◌, ◌<◌, ◌+◌, ◌^◌, ◌∷◌, length, map, IfOk};
ghost use Rattle.moo_code.specs.Instruction.{scatter as scatter_of, scatter_on as scatter_on_of};
ghost use Rattle.moo_code.specs.Machine.{place_for};
ghost use Rattle.moo_code.specs.Names.{names_of};
ghost use Rattle.moo_program.specs.Meaning.{slot_meant, part_meant};
ghost use Rattle.moo_task.specs.Shown.{Around, shown, performs_of};
ghost use Rattle.local_code.specs.Giving.{AreWithin};

use crate::moo_stores::shares::{give, next_default, shares};
use crate::moo_stores::wanted::next_wanted;
use moo_program::instruction::{Part, Scatter};
use moo_task::moo_machine::call::Call;
use moo_task::moo_machine::verb::{Did, State};
use std::alloc::{AllocError, Global};

// Where the part with a number begins, if it is one of these, and else the place behind.
fn part_place(parts: &[Part], number: usize, behind: usize) -> usize
    ensures { result ≡ place_for behind (map part_meant parts.now) number }
{
    for part in parts {
        if part.number as usize == number {
            return part.place as usize;
        }
    }
    behind
}

// The same with the end of the construct, which has the number 0.
fn part_or_end(parts: &[Part], number: usize, end: usize, behind: usize) -> usize
    ensures { result ≡ place_for behind ((0, end) ∷ map part_meant parts.now) number }
{
    if number == 0 {
        end
    } else {
        part_place(parts, number, behind)
    }
}

/// The list on top, which stays, is scattered among variables; then comes the default of the first item that wants it, or the end.
#[inline(never)]
pub fn scatter(
    alloc: Global,
    state: &mut State,
    call: &Call,
    scatter: &Scatter,
) -> Result<Did, AllocError>
    requires place { state.old.place + 1 < 2 ^ 64 }
    requires slots { AreWithin (length state.old.slots.items) scatter.now.items.items }
    ensures { IfOk result (λ d. (a : Around) → length state.old.slots.items ≡ length (names_of a.program)
        → performs_of a call.now (scatter_of (map (slot_meant (names_of a.program)) scatter.now.items.items))
        (map part_meant scatter.now.defaults.items) state.old
        ≡ shown a call.now d state.new) }
{
    let Some(list) = state.operands.pop() else {
        return Ok(Did::LacksOperand);
    };
    if state.ticks == 0 {
        return Ok(Did::RanOut);
    }
    state.ticks -= 1;
    let items = scatter.items.as_slice();
    let defaults = scatter.defaults.as_slice();
    let behind = state.place + 1;
    match shares(alloc, items, &list)? {
        Ok(shares) => {
            let given = shares.as_slice();
            give(&mut state.slots, items, given)?;
            let number = next_default(0, items, given);
            state.operands.push(list)?;
            state.place = part_place(defaults, number, behind);
            Ok(Did::Went)
        }
        Err(error) => {
            let end = part_place(defaults, 0, behind);
            let did = state.fails(call, false, end, error)?;
            Ok(did)
        }
    }
}

/// After the default of the item with a number, or at the beginning of them: then comes the next one that is wanted, or the end.
#[inline(never)]
pub fn scatter_on(
    alloc: Global,
    state: &mut State,
    call: &Call,
    scatter: &Scatter,
    number: usize,
    end: usize,
) -> Result<Did, AllocError>
    requires { state.old.place + 1 < 2 ^ 64 }
    ensures { IfOk result (λ d. (a : Around)
        → performs_of a call.now (scatter_on_of (map (slot_meant (names_of a.program)) scatter.now.items.items) number)
        ((0, end) ∷ map part_meant scatter.now.defaults.items) state.old
        ≡ shown a call.now d state.new) }
{
    let Some(list) = state.operands.pop() else {
        return Ok(Did::LacksOperand);
    };
    if let Some(place) = next_wanted(scatter, number, &list) {
        state.operands.push(list)?;
        state.place = place;
        return Ok(Did::Went);
    }
    let items = scatter.items.as_slice();
    let defaults = scatter.defaults.as_slice();
    let behind = state.place + 1;
    match shares(alloc, items, &list)? {
        Ok(shares) => {
            let given = shares.as_slice();
            let next = next_default(number, items, given);
            state.operands.push(list)?;
            state.place = part_or_end(defaults, next, end, behind);
            Ok(Did::Went)
        }
        Err(error) => {
            let did = state.fails(call, false, end, error)?;
            Ok(did)
        }
    }
}
