//! The verb that called the one that runs.
ghost use Rattle.std.specs.Prelude.{◌≡◌, []};
ghost use Rattle.spec_moo.specs.Scene.{Scene};
ghost use Rattle.spec_moo.specs.Pending.{calls_of, caller_of};
ghost use Rattle.spec_moo.specs.Natives.Tasks.{first_of, programmer_of, caller_perms_row};
ghost use Rattle.moo_code.specs.Machine.{entries};
ghost use Rattle.moo_task.specs.Effects.{effect_of};
ghost use Rattle.moo_task.specs.Frames.{outers_of};
ghost use Rattle.moo_task.specs.Outcomes.{pending_of};
ghost use Rattle.moo_task.specs.declared.effect.NativeEffect.TheVariants.{Answers};

use moo_task::frame::Outer;
use moo_task::running::Running;
use moo_value::answer::Answer;
use moo_value::value::Value;

/// The programmer where there is no verb.
const NOBODY: i32 = -1;

/// `caller_perms`: the programmer of the verb that called this one, -1 where none did.
pub fn caller_perms(task: &Running) -> Answer
    ensures { (s : Scene) → caller_perms_row s (caller_of (pending_of task.now)) [] ≡ effect_of (Answers result) s }
{
    let programmer = innermost_programmer(task.outer.as_slice());
    Ok(Value::object(programmer))
}

// The programmer of the innermost verb that waits.
#[tactic(auto, using(crate::proofs::Calling::verb_calls, crate::proofs::Calling::native_waits, crate::proofs::Calling::all_wait, crate::proofs::Calling::none_calls))]
fn innermost_programmer(stack: &[Outer]) -> i32
    ensures { result ≡ programmer_of (first_of (calls_of (entries (outers_of stack.now)))) }
{
    let mut left = stack.len();
    'each: while left > 0 {
        left -= 1;
        if let Outer::Verb(frame) = &stack[left] {
            return frame.call.programmer;
        }
    }
    NOBODY
}
