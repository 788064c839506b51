//! Instructions on parts of properties.
ghost use Rattle.std.specs.Prelude.{◌≡◌, ◌<◌, ◌+◌, ◌^◌, length, IfOk, OnOk};
ghost use Rattle.moo_code.specs.Instruction.{in_property, length_of, target_at, store};
ghost use Rattle.moo_program.specs.Meaning.{bracketed};
ghost use Rattle.moo_value.specs.Answers.{answer_of};
ghost use Rattle.rules.specs.Lines.{AreAgreeing};
ghost use Rattle.view.specs.Law.{Goes, Lasts};
ghost use Rattle.running.specs.Worlds.{Does, answer_stored};
ghost use Rattle.local_code.specs.Targets.{count_in as count_in_of};

use crate::moo_objects::properties::store_property;
use crate::property_parts::parts::{length_there, write_part};
use local_code::moo_targets::parts::count_in;
use moo_program::instruction::Bracket;
use moo_task::moo_machine::call::Call;
use moo_task::moo_machine::verb::{Did, State};
use moo_value::answer::Answer;
use moo_value::error::MooError;
use moo_value::value::Value;
use std::alloc::{AllocError, Global};
use view::law::View;

/// `$` in brackets behind a part of a property, where the values of its object, its name and the brackets before begin above so
/// many operands.
pub fn length_of_part<V: View>(
    alloc: Global,
    view: &mut V,
    call: &Call,
    state: &mut State,
    brackets: &[Bracket],
    height: usize,
) -> Result<Did, AllocError>
    requires place { state.old.place + 1 < 2 ^ 64 }
    requires home { V.holds view.old (V.home view.old) }
    requires well_formed { AreAgreeing V.holds V.now view.old }
    ensures lasts { Lasts V.holds V.home V.anchor view.old view.new result }
    ensures left { IfOk result (λ d. Goes V.holds V.now view.old view.new
        (Does (length_of (target_at (bracketed brackets.now in_property) height)) call.now state.old d state.new)) }
    ensures well_formed { OnOk result (AreAgreeing V.holds V.now view.new) }
{
    if state.ticks == 0 {
        return Ok(Did::RanOut);
    }
    state.ticks -= 1;
    let values = state.operands.above(height);
    let answer = length_there(alloc, view, call.programmer, brackets, values)?;
    let did = state.answers(call, answer)?;
    Ok(did)
}

/// An item or a range of what a property holds gets the value that stays on top, above those of its object, its name and the
/// brackets, which go. Without brackets the property itself gets it.
pub fn store_part<V: View>(
    alloc: Global,
    view: &mut V,
    call: &Call,
    state: &mut State,
    brackets: &[Bracket],
) -> Result<Did, AllocError>
    requires place { state.old.place + 1 < 2 ^ 64 }
    requires home { V.holds view.old (V.home view.old) }
    requires well_formed { AreAgreeing V.holds V.now view.old }
    ensures lasts { Lasts V.holds V.home V.anchor view.old view.new result }
    ensures left { IfOk result (λ d. Goes V.holds V.now view.old view.new
        (Does (store (bracketed brackets.now in_property)) call.now state.old d state.new)) }
    ensures well_formed { OnOk result (AreAgreeing V.holds V.now view.new) }
{
    if brackets.is_empty() {
        let did = store_property(alloc, view, call, state)?;
        return Ok(did);
    }
    let count = count_in(brackets).saturating_add(2);
    if state.operands.len() <= count {
        return Ok(Did::LacksOperand);
    }
    if state.ticks == 0 {
        return Ok(Did::RanOut);
    }
    let did = store_paid(alloc, view, call, state, brackets, count)?;
    Ok(did)
}

// The same where all operands are there, so many below the assigned value, and a tick.
fn store_paid<V: View>(
    alloc: Global,
    view: &mut V,
    call: &Call,
    state: &mut State,
    brackets: &[Bracket],
    count: usize,
) -> Result<Did, AllocError>
    requires place { state.old.place + 1 < 2 ^ 64 }
    requires home { V.holds view.old (V.home view.old) }
    requires well_formed { AreAgreeing V.holds V.now view.old }
    requires brackets { 0 < length brackets.now }
    requires count { count ≡ count_in_of brackets.now + 2 }
    requires room { count + 1 < 2 ^ 64 }
    requires operands { count < length state.old.operands }
    requires ticks { 0 < state.old.ticks }
    ensures lasts { Lasts V.holds V.home V.anchor view.old view.new result }
    ensures left { IfOk result (λ d. Goes V.holds V.now view.old view.new
        (Does (store (bracketed brackets.now in_property)) call.now state.old d state.new)) }
    ensures well_formed { OnOk result (AreAgreeing V.holds V.now view.new) }
{
    let Some(values) = state.operands.top(count + 1) else {
        return Ok(Did::LacksOperand);
    };
    let value = values[count].clone()?;
    let stays = value.clone()?;
    let written = write_part(alloc, view, call.programmer, brackets, values, value)?;
    state.operands.forget(count + 1);
    state.ticks -= 1;
    let did = state.answers(call, assigned(written, stays))?;
    Ok(did)
}

// What an assignment answers: the value that was assigned.
fn assigned(written: Result<(), MooError>, value: Value) -> Answer
    ensures { answer_of result ≡ answer_stored written value }
{
    match written {
        Ok(()) => Ok(value),
        Err(error) => Err(error),
    }
}
