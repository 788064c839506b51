//! Copies of what waits. Values, texts, programs and what a command line gave are shared with the copies.
ghost use Rattle.std.specs.Prelude.{◌≡◌, ◌∷◌, IfOk, OnOk};
ghost use Rattle.moo_task.specs.Effects.{waiting_of};
ghost use Rattle.moo_task.specs.Frames.{kept_of, native_of, outer_of};

use crate::effect::Waiting;
use crate::frame::{Frame, Outer};
use crate::moo_machine::call::Call;
use crate::moo_machine::operands::Operands;
use crate::moo_machine::verb::State;
use crate::native::Native;
use crate::outers::Outers;
use moo_value::items::copied;
use moo_value::value::Value;
use std::alloc::{AllocError, Global};

/// A copy of why a task waits.
pub fn copy_waiting(waiting: &Waiting) -> Result<Waiting, AllocError>
    ensures { IfOk result (λ copy. waiting_of copy ≡ waiting_of waiting.now) }
{
    match waiting {
        Waiting::Forked(due) => Ok(Waiting::Forked(*due)),
        Waiting::Timed(due, value) => Ok(Waiting::Timed(*due, value.clone()?)),
        Waiting::Idle => Ok(Waiting::Idle),
        Waiting::ReadingOn(connection) => Ok(Waiting::ReadingOn(*connection)),
    }
}

/// A copy of all that waits.
#[tactic(auto, using(crate::proofs::Stacks::one_copied))]
pub fn copy_outers(alloc: Global, outers: &Outers) -> Result<Outers, AllocError>
    ensures { IfOk result (λ copy. copy ≡ outers.now) }
{
    let mut copy = Outers::new(alloc);
    let stack = outers.as_slice();
    for outer in stack {
        push_copy(alloc, &mut copy, outer)?;
    }
    Ok(copy)
}

// A copy of what waits comes before others.
fn push_copy(alloc: Global, outers: &mut Outers, outer: &Outer) -> Result<(), AllocError>
    ensures { OnOk result (outers.new ≡ outer_of outer.now ∷ outers.old) }
{
    match outer {
        Outer::Verb(frame) => {
            let frame = copy_frame(alloc, frame)?;
            outers.push_verb(frame)
        }
        Outer::Native(native) => {
            let native = copy_native(alloc, native)?;
            outers.push_native(native)
        }
    }
}

fn copy_frame(alloc: Global, frame: &Frame) -> Result<Frame, AllocError>
    ensures { IfOk result (λ copy. kept_of copy ≡ kept_of frame.now) }
{
    let state = &frame.state;
    Ok(Frame {
        call: copy_call(&frame.call)?,
        start: frame.start.clone()?,
        program: frame.program.clone()?,
        further: frame.further.clone()?,
        state: State {
            place: state.place,
            operands: copy_operands(alloc, &state.operands)?,
            slots: copy_slots(alloc, &state.slots)?,
            ticks: state.ticks,
        },
    })
}

fn copy_native(alloc: Global, native: &Native) -> Result<Native, AllocError>
    ensures { IfOk result (λ copy. native_of copy ≡ native_of native.now) }
{
    Ok(Native {
        name: native.name,
        stage: native.stage,
        arguments: copied(alloc, &native.arguments)?,
    })
}

/// A copy of who runs which verb.
pub fn copy_call(call: &Call) -> Result<Call, AllocError>
    ensures { IfOk result (λ copy. copy ≡ call.now) }
{
    Ok(Call {
        this: call.this,
        caller: call.caller,
        definer: call.definer,
        programmer: call.programmer,
        verb: call.verb.clone()?,
        debug: call.debug,
    })
}

fn copy_operands(alloc: Global, operands: &Operands) -> Result<Operands, AllocError>
    ensures { IfOk result (λ copy. copy ≡ operands.now) }
{
    let mut copy = Operands::new(alloc);
    let values = operands.above(0);
    for value in values {
        copy.push(value.clone()?)?;
    }
    Ok(copy)
}

fn copy_slots(alloc: Global, slots: &[Option<Value>]) -> Result<Vec<Option<Value>>, AllocError>
    ensures { IfOk result (λ copy. copy.items ≡ slots.now) }
{
    let mut copy = Vec::with_capacity(alloc, slots.len())?;
    for slot in slots {
        copy.push(copy_slot(slot)?)?;
    }
    Ok(copy)
}

fn copy_slot(slot: &Option<Value>) -> Result<Option<Value>, AllocError>
    ensures { IfOk result (λ copy. copy ≡ slot.now) }
{
    match slot {
        Some(value) => Ok(Some(value.clone()?)),
        None => Ok(None),
    }
}
