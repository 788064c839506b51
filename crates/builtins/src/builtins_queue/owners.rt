//! Who controls a task.
ghost use Rattle.std.specs.Prelude.{◌≡◌};
ghost use Rattle.spec_moo.specs.Natives.Tasks.{task_programmer};

use moo_task::task::Task;

/// The programmer of a task's innermost verb.
#[tactic(auto, using(crate::proofs::Controlling::programmer_is))]
pub(crate) fn programmer_of(task: &Task) -> i32
    ensures { result ≡ task_programmer task.now }
{
    let call = task.call();
    call.programmer
}
