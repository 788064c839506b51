//! Calls of functions.
ghost use Rattle.std.specs.Prelude.{◌≡◌, ◌<◌, ◌+◌, ◌^◌, false, codes, IfOk, OnOk};
ghost use Rattle.spec_value.specs.Datum.{Data, list, same_text};
ghost use Rattle.rules.specs.Lines.{AreAgreeing};
ghost use Rattle.view.specs.Law.{Goes, Lasts};
ghost use Rattle.spec_moo.specs.Scene.{Scene};
ghost use Rattle.moo_task.specs.Outcomes.{led, natively_at, Keeps};
ghost use Rattle.moo_task.specs.declared.effect.NativeEffect.{NativeEffect};
ghost use Rattle.local_code.specs.Scenes.{led_at};
ghost use Rattle.running.specs.Calls.{AreArguments, calls_function_at, calls_native_at};

use crate::moo_asking::asking::pass;
use moo_task::deeds::Deeds;
use moo_task::effect::NativeEffect;
use moo_task::outcome::Outcome;
use moo_task::running::Running;
use moo_value::answer::WEIGHT_LIMIT;
use moo_value::error::MooError;
use moo_value::text::Text;
use moo_value::value::{Shown, Value};
use std::alloc::{AllocError, Global};
use step_deeds::natives::Natives;
use view::law::View;

// Why a value is no list of arguments: it is no list, or weighs too much.
fn refused(arguments: &Value) -> Option<MooError>
    ensures { AreArguments result arguments.now }
{
    match arguments.shown() {
        Shown::List(_) if arguments.weight() <= WEIGHT_LIMIT => None,
        Shown::List(_) => Some(MooError::LimitExceeded),
        _ => Some(MooError::TypeMismatch),
    }
}

/// Whether a name is that of `pass`, which calls a verb.
pub fn is_pass(name: &Text) -> bool
    ensures { result ≡ same_text name.now (codes "pass") }
{
    name.as_str() == "pass"
}

/// A call of a function, with its list of arguments on top: `pass` calls a verb.
pub fn call<V: View, N: Natives>(
    alloc: Global,
    view: &mut V,
    natives: &mut N,
    deeds: &mut Deeds,
    task: &mut Running,
    name: &Text,
) -> Result<Outcome, AllocError>
    requires home { V.holds view.old (V.home view.old) }
    requires well_formed { AreAgreeing V.holds V.now view.old }
    requires place { task.old.frame.state.place + 1 < 2 ^ 64 }
    ensures lasts { Lasts V.holds V.home V.anchor view.old view.new result }
    ensures calls { IfOk result (λ o. Goes V.holds V.now view.old view.new (λ before after.
        calls_function_at name.now deeds.old before task.old ≡ led_at o deeds.new after task.new)) }
    ensures player { IfOk result (λ o. task.new.player ≡ task.old.player) }
    ensures well_formed { OnOk result (AreAgreeing V.holds V.now view.new) }
{
    let passes = is_pass(name);
    if passes {
        return pass(alloc, view, task);
    }
    call_function(alloc, view, natives, deeds, task, name)
}

/// A call of a built-in function other than `pass`, with its list of arguments on top.
pub fn call_function<V: View, N: Natives>(
    alloc: Global,
    view: &mut V,
    natives: &mut N,
    deeds: &mut Deeds,
    task: &mut Running,
    name: &Text,
) -> Result<Outcome, AllocError>
    requires home { V.holds view.old (V.home view.old) }
    requires well_formed { AreAgreeing V.holds V.now view.old }
    requires place { task.old.frame.state.place + 1 < 2 ^ 64 }
    ensures lasts { Lasts V.holds V.home V.anchor view.old view.new result }
    ensures calls { IfOk result (λ o. Goes V.holds V.now view.old view.new (λ before after.
        same_text name.now (codes "pass") ≡ false → calls_function_at name.now deeds.old before task.old ≡ led_at o deeds.new after task.new)) }
    ensures keeps { IfOk result (λ o. Keeps o task.old task.new) }
    ensures well_formed { OnOk result (AreAgreeing V.holds V.now view.new) }
{
    let Some(arguments) = task.frame.state.operands.pop() else {
        return Ok(Outcome::LacksOperand);
    };
    if task.frame.state.ticks == 0 {
        return Ok(Outcome::RanOut);
    }
    task.frame.state.ticks -= 1;
    let end = task.frame.state.place + 1;
    if let Some(error) = refused(&arguments) {
        let outcome = task.fails(alloc, end, error)?;
        return Ok(outcome);
    }
    let outcome = call_native(alloc, view, natives, deeds, task, end, name, arguments)?;
    Ok(outcome)
}

// What a built-in function does with these arguments.
fn call_native<V: View, N: Natives>(
    alloc: Global,
    view: &mut V,
    natives: &mut N,
    deeds: &mut Deeds,
    task: &mut Running,
    end: usize,
    name: &Text,
    arguments: Value,
) -> Result<Outcome, AllocError>
    requires home { V.holds view.old (V.home view.old) }
    requires well_formed { AreAgreeing V.holds V.now view.old }
    ensures lasts { Lasts V.holds V.home V.anchor view.old view.new result }
    ensures calls { IfOk result (λ o. Goes V.holds V.now view.old view.new (λ before after.
        (args : Data) → arguments ≡ list args → calls_native_at name.now args end deeds.old before task.old ≡ led_at o deeds.new after task.new)) }
    ensures keeps { IfOk result (λ o. Keeps o task.old task.new) }
    ensures well_formed { OnOk result (AreAgreeing V.holds V.now view.new) }
{
    let items = arguments.into_items(alloc)?;
    let effect = natives.call(alloc, view, deeds, task, name, items)?;
    let outcome = led_by_effect(alloc, task, end, effect)?;
    Ok(outcome)
}

// Where the effect of a built-in function leads, whose call ends at a place. A value comes first.
#[inline(always)]
fn led_by_effect(
    alloc: Global,
    task: &mut Running,
    end: usize,
    effect: NativeEffect,
) -> Result<Outcome, AllocError>
    ensures led { IfOk result (λ o. (s : Scene) → natively_at task.old s end effect ≡ led o s task.new) }
    ensures keeps { IfOk result (λ o. Keeps o task.old task.new) }
{
    match effect {
        NativeEffect::Answers(Ok(value)) => led_by_value(alloc, task, end, value),
        _ => task.natively(alloc, end, effect),
    }
}

// The same of a value.
#[tactic(auto, unfolding(moo_code::specs::Machine::natively_does))]
#[inline(always)]
fn led_by_value(
    alloc: Global,
    task: &mut Running,
    end: usize,
    value: Value,
) -> Result<Outcome, AllocError>
    ensures led { IfOk result (λ o. (s : Scene) → natively_at task.old s end (NativeEffect.Answers (Ok value)) ≡ led o s task.new) }
    ensures keeps { IfOk result (λ o. Keeps o task.old task.new) }
{
    if value.weight() > WEIGHT_LIMIT {
        return task.natively(alloc, end, NativeEffect::Answers(Ok(value)));
    }
    task.frame.state.operands.push(value)?;
    task.frame.state.place = end;
    Ok(Outcome::On)
}
