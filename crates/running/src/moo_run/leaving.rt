//! Out of verbs, into what waits for them.
ghost use Rattle.std.specs.Prelude.{◌≡◌, ℕ, IfOk, OnOk};
ghost use Rattle.moo_task.specs.Meant.{leaving_meant};
ghost use Rattle.spec_moo.specs.Leaving.{returned, broken, continued};
ghost use Rattle.rules.specs.Lines.{AreAgreeing};
ghost use Rattle.view.specs.Law.{Goes, Lasts};
ghost use Rattle.moo_task.specs.Frames.{native_of};
ghost use Rattle.local_code.specs.Scenes.{led_at, IsSettled};
ghost use Rattle.local_code.specs.Steps.{out_at, into_native_at, leaves_at, Falls};

use local_code::moo_unwind::offer::Offer;
use local_code::moo_unwind::outward::{offer, raise_out, resume};
use moo_task::deeds::Deeds;
use moo_task::frame::Outer;
use moo_task::moo_machine::leaving::Leaving;
use moo_task::native::Native;
use moo_task::outcome::{End, Outcome};
use moo_task::running::Running;
use moo_value::value::Value;
use std::alloc::{AllocError, Global};
use step_deeds::natives::Natives;
use view::law::View;

/// A leaving goes out of the verb that runs, into what waits for it.
pub fn out_of_verb<V: View, N: Natives>(
    alloc: Global,
    view: &mut V,
    natives: &mut N,
    deeds: &mut Deeds,
    task: &mut Running,
    leaving: Leaving,
) -> Result<Outcome, AllocError>
    requires home { V.holds view.old (V.home view.old) }
    requires well_formed { AreAgreeing V.holds V.now view.old }
    ensures lasts { Lasts V.holds V.home V.anchor view.old view.new result }
    ensures out { IfOk result (λ o. Goes V.holds V.now view.old view.new (λ before after.
        out_at (leaving_meant leaving) deeds.old before task.old ≡ led_at o deeds.new after task.new)) }
    ensures falls { IfOk result (λ o. Falls o task.old task.new) }
    ensures well_formed { OnOk result (AreAgreeing V.holds V.now view.new) }
{
    match leaving {
        Leaving::Failed(failure) => raise_out(task, failure),
        Leaving::Returned(value) => give_out(alloc, view, natives, deeds, task, value),
        Leaving::Broken(_) => give_zero(alloc, view, natives, deeds, task),
        Leaving::Continued(_) => give_zero(alloc, view, natives, deeds, task),
    }
}

// What a `break` or a `continue` is that leaves its verb: 0 for what waits.
fn give_zero<V: View, N: Natives>(
    alloc: Global,
    view: &mut V,
    natives: &mut N,
    deeds: &mut Deeds,
    task: &mut Running,
) -> Result<Outcome, AllocError>
    requires home { V.holds view.old (V.home view.old) }
    requires well_formed { AreAgreeing V.holds V.now view.old }
    ensures lasts { Lasts V.holds V.home V.anchor view.old view.new result }
    ensures broken { IfOk result (λ o. Goes V.holds V.now view.old view.new (λ before after.
        (n : ℕ) → out_at (broken n) deeds.old before task.old ≡ led_at o deeds.new after task.new)) }
    ensures continued { IfOk result (λ o. Goes V.holds V.now view.old view.new (λ before after.
        (n : ℕ) → out_at (continued n) deeds.old before task.old ≡ led_at o deeds.new after task.new)) }
    ensures falls { IfOk result (λ o. Falls o task.old task.new) }
    ensures well_formed { OnOk result (AreAgreeing V.holds V.now view.new) }
{
    let zero = Value::integer(0);
    let outcome = give_out(alloc, view, natives, deeds, task, zero)?;
    Ok(outcome)
}

// A value for what waits.
#[tactic(auto, using(local_code::proofs::Out::done_out, local_code::proofs::Out::verb_out))]
fn give_out<V: View, N: Natives>(
    alloc: Global,
    view: &mut V,
    natives: &mut N,
    deeds: &mut Deeds,
    task: &mut Running,
    value: Value,
) -> Result<Outcome, AllocError>
    requires home { V.holds view.old (V.home view.old) }
    requires well_formed { AreAgreeing V.holds V.now view.old }
    ensures lasts { Lasts V.holds V.home V.anchor view.old view.new result }
    ensures out { IfOk result (λ o. Goes V.holds V.now view.old view.new (λ before after.
        out_at (returned value) deeds.old before task.old ≡ led_at o deeds.new after task.new)) }
    ensures falls { IfOk result (λ o. Falls o task.old task.new) }
    ensures well_formed { OnOk result (AreAgreeing V.holds V.now view.new) }
{
    match task.outer.pop() {
        None => Ok(Outcome::Ends(End::Done(value))),
        Some(Outer::Verb(frame)) => {
            resume(task, frame);
            let end = task.frame.call_end()?;
            let outcome = task.goes(end, value)?;
            Ok(outcome)
        }
        Some(Outer::Native(native)) => {
            give_native(alloc, view, natives, deeds, task, native, value)
        }
    }
}

// A value for a built-in function that waited, which goes on for the verb that called it.
#[tactic(auto, using(local_code::proofs::Out::native_out, local_code::proofs::Out::native_alone, local_code::proofs::Out::native_double))]
fn give_native<V: View, N: Natives>(
    alloc: Global,
    view: &mut V,
    natives: &mut N,
    deeds: &mut Deeds,
    task: &mut Running,
    native: Native,
    value: Value,
) -> Result<Outcome, AllocError>
    requires home { V.holds view.old (V.home view.old) }
    requires well_formed { AreAgreeing V.holds V.now view.old }
    ensures lasts { Lasts V.holds V.home V.anchor view.old view.new result }
    ensures out { IfOk result (λ o. Goes V.holds V.now view.old view.new (λ before after.
        into_native_at (native_of native) value deeds.old before task.old ≡ led_at o deeds.new after task.new)) }
    ensures falls { IfOk result (λ o. Falls o task.old task.new) }
    ensures well_formed { OnOk result (AreAgreeing V.holds V.now view.new) }
{
    match task.outer.pop() {
        Some(Outer::Verb(frame)) => {
            resume(task, frame);
            let end = task.frame.call_end()?;
            let effect = natives.resume(alloc, view, deeds, task, native, value)?;
            let outcome = task.natively(alloc, end, effect)?;
            Ok(outcome)
        }
        _ => Ok(Outcome::Ends(End::Done(value))),
    }
}

/// An outcome that is no leaving: a leaving goes out of parts and verbs until something takes it, or the task ends.
#[tactic(auto, using(local_code::proofs::Out::leavings_fall))]
pub fn settle<V: View, N: Natives>(
    alloc: Global,
    view: &mut V,
    natives: &mut N,
    deeds: &mut Deeds,
    task: &mut Running,
    outcome: Outcome,
) -> Result<Outcome, AllocError>
    requires home { V.holds view.old (V.home view.old) }
    requires well_formed { AreAgreeing V.holds V.now view.old }
    ensures lasts { Lasts V.holds V.home V.anchor view.old view.new result }
    ensures out { IfOk result (λ o. Goes V.holds V.now view.old view.new (λ before after.
        led_at outcome deeds.old before task.old ≡ led_at o deeds.new after task.new)) }
    ensures settled { IfOk result IsSettled }
    ensures player { IfOk result (λ o. task.new.player ≡ task.old.player) }
    ensures well_formed { OnOk result (AreAgreeing V.holds V.now view.new) }
{
    let mut outcome = outcome;
    'leaving: while let Outcome::Leaves(leaving) = outcome {
        outcome = leave_part(alloc, view, natives, deeds, task, leaving)?;
    }
    Ok(outcome)
}

// A leaving goes to the handlers of the verb that runs, and then out of it.
fn leave_part<V: View, N: Natives>(
    alloc: Global,
    view: &mut V,
    natives: &mut N,
    deeds: &mut Deeds,
    task: &mut Running,
    leaving: Leaving,
) -> Result<Outcome, AllocError>
    requires home { V.holds view.old (V.home view.old) }
    requires well_formed { AreAgreeing V.holds V.now view.old }
    ensures lasts { Lasts V.holds V.home V.anchor view.old view.new result }
    ensures out { IfOk result (λ o. Goes V.holds V.now view.old view.new (λ before after.
        leaves_at leaving deeds.old before task.old ≡ led_at o deeds.new after task.new)) }
    ensures falls { IfOk result (λ o. Falls o task.old task.new) }
    ensures well_formed { OnOk result (AreAgreeing V.holds V.now view.new) }
{
    let offered = offer(alloc, task, leaving)?;
    match offered {
        Offer::Taken => Ok(Outcome::On),
        Offer::LacksOperand => Ok(Outcome::LacksOperand),
        Offer::Passed(leaving) => { out_of_verb(alloc, view, natives, deeds, task, leaving) }
    }
}
