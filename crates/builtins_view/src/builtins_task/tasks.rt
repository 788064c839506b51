//! What a task knows and does of itself.
ghost use Rattle.std.specs.Prelude.{◌≡◌, ◌+◌, ℕ, min, [], ◌∷◌, IfOk};
ghost use Rattle.spec_value.specs.Datum.{integer, text as text_value};
ghost use Rattle.spec_value.specs.Literal.{to_text};
ghost use Rattle.spec_world.specs.World.{World};
ghost use Rattle.spec_moo.specs.NativeEffect.{Caller};
ghost use Rattle.spec_moo.specs.Natives.Tasks.{ticks_left_row, time_row, raise_row, task_id_row, suspend_row};
ghost use Rattle.moo_task.specs.Meant.{failure_meant};
ghost use Rattle.moo_task.specs.Deeds.{scene_of};
ghost use Rattle.moo_task.specs.Effects.{effect_of};
ghost use Rattle.moo_task.specs.declared.deeds.Deeds.{Deeds as TheDeeds};
ghost use Rattle.moo_task.specs.declared.effect.NativeEffect.TheVariants.{Answers, Complains};
ghost use Rattle.builtins_view.specs.Done.{Does};

use crate::builtins_task::ids::own_id;
use moo_task::deeds::Deeds;
use moo_task::effect::{NativeEffect, Waiting};
use moo_task::moo_machine::leaving::Failure;
use moo_value::answer::Answer;
use moo_value::error::MooError;
use moo_value::text::Text;
use moo_value::value::Value;
use moo_value::write::to_str;
use std::alloc::{AllocError, Global};

/// No moment is later, in seconds.
pub const LAST_MOMENT: u32 = 2147483647;

/// `ticks_left`: how many ticks the task has left. No task has more than an integer says.
pub fn ticks_left(deeds: &Deeds, ticks: u32) -> Result<Answer, AllocError>
    ensures { IfOk result (λ a. (w : World) (c : Caller) →
        ticks_left_row (scene_of deeds.now w ticks) c [] ≡ effect_of (Answers a) (scene_of deeds.now w ticks)) }
{
    let _known = deeds.number;
    match i32::try_from(ticks) {
        Ok(ticks) => Ok(Ok(Value::integer(ticks))),
        Err(_) => Err(AllocError),
    }
}

/// `time`: the moment of the step, in seconds. No step's moment is more than an integer says.
pub fn time(deeds: &Deeds) -> Result<Answer, AllocError>
    ensures { IfOk result (λ a. Does (λ s c. time_row s c []) deeds.now (Answers a) deeds.now) }
{
    match i32::try_from(deeds.moment) {
        Ok(moment) => Ok(Ok(Value::integer(moment))),
        Err(_) => Err(AllocError),
    }
}

/// `task_id`: the id of the task. `E_QUOTA` where it has none and the step has none left.
pub fn task_id(deeds: &mut Deeds) -> Result<Answer, AllocError>
    ensures { IfOk result (λ a. Does (λ s c. task_id_row s c []) deeds.old (Answers a) deeds.new) }
{
    match own_id(deeds)? {
        Some(id) => Ok(Ok(Value::integer(id))),
        None => Ok(Err(MooError::LimitExceeded)),
    }
}

/// `suspend` without a time: the task waits until it is resumed. `E_QUOTA` where it has no id and the step has none left.
pub fn suspend(deeds: &mut Deeds) -> Result<NativeEffect, AllocError>
    ensures { IfOk result (λ e. Does (λ s c. suspend_row s c []) deeds.old e deeds.new) }
{
    match own_id(deeds)? {
        Some(_) => Ok(NativeEffect::Waits(Waiting::Idle)),
        None => Ok(NativeEffect::Answers(Err(MooError::LimitExceeded))),
    }
}

/// `suspend` for so many seconds. `E_INVARG` where they are negative, else `E_QUOTA` where the task has no id and the step has none
/// left.
pub fn suspend_for(deeds: &mut Deeds, seconds: i32) -> Result<NativeEffect, AllocError>
    ensures { IfOk result (λ e. Does (λ s c. suspend_row s c (integer seconds ∷ [])) deeds.old e deeds.new) }
{
    let Ok(seconds) = u32::try_from(seconds) else {
        return Ok(NativeEffect::Answers(Err(MooError::InvalidArgument)));
    };
    let due = moment_after(deeds.moment, seconds);
    match own_id(deeds)? {
        Some(_) => Ok(NativeEffect::Waits(Waiting::Timed(due, Value::integer(0)))),
        None => Ok(NativeEffect::Answers(Err(MooError::LimitExceeded))),
    }
}

/// So many seconds after a moment, or the last moment.
pub fn moment_after(moment: u32, seconds: u32) -> u32
    ensures { result ≡ min (moment + seconds) 2147483647 }
{
    match moment.checked_add(seconds) {
        Some(due) => due.min(LAST_MOMENT),
        None => LAST_MOMENT,
    }
}

/// `raise`: an error of any code, with the code's text as its message.
pub fn raise(alloc: Global, code: Value) -> Result<Failure, AllocError>
    ensures { IfOk result (λ f. (d : TheDeeds) → Does (λ s c. raise_row s c (code ∷ [])) d (Complains f) d) }
{
    let message = text_of(alloc, &code)?;
    Ok(failure(alloc, code, message, Value::integer(0)))
}

/// `raise` with a message.
pub fn raise_told(alloc: Global, code: Value, message: Text) -> Failure
    ensures { (d : TheDeeds) → Does (λ s c. raise_row s c (code ∷ text_value message ∷ [])) d (Complains result) d }
{
    failure(alloc, code, message, Value::integer(0))
}

/// `raise` with a message and a value.
pub fn raise_with(alloc: Global, code: Value, message: Text, value: Value) -> Failure
    ensures { (d : TheDeeds) → Does (λ s c. raise_row s c (code ∷ text_value message ∷ value ∷ [])) d (Complains result) d }
{
    failure(alloc, code, message, value)
}

// An error that has come by no verb.
fn failure(alloc: Global, code: Value, message: Text, value: Value) -> Failure
    ensures { failure_meant result ≡ record { code = code; message = message; value = value; traceback = [] } }
{
    Failure {
        code,
        message,
        value,
        traceback: Vec::new(alloc),
    }
}

#[tactic(auto, using(moo_value::proofs::Written::text_shown))]
fn text_of(alloc: Global, value: &Value) -> Result<Text, AllocError>
    ensures { IfOk result (λ t. t ≡ to_text value.now) }
{
    value.know();
    let text = to_str(alloc, value)?;
    Text::from_string(text)
}
