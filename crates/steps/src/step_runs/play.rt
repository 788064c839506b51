//! Steps that run one task.
ghost use Rattle.std.specs.Prelude.{◌≡◌, IfOk};
ghost use Rattle.spec_moo.specs.Pending.{Pending};
ghost use Rattle.spec_moo.specs.Steps.Running.{run as run_of, came_to};
ghost use Rattle.moo_task.specs.Deeds.{scene_of};
ghost use Rattle.moo_task.specs.Outcomes.{ticks_of};
ghost use Rattle.view.specs.Law.{Goes, Lasts};
ghost use Rattle.steps.specs.StepsPerformed.{ComesTo};
ghost use Rattle.steps.specs.Ready.{AreReady};
ghost use Rattle.steps.specs.Tasks.{MayRun};

use crate::step_runs::run::run_task;
use crate::step_tasks::finish::Finish;
use moo_task::deeds::Deeds;
use moo_task::running::Running;
use std::alloc::{AllocError, Global};
use step_deeds::natives::Natives;
use view::law::View;

/// Runs a task, which is all that a step then does.
#[inline(always)]
pub fn play_task<V: View, N: Natives>(
    alloc: Global,
    view: &mut V,
    natives: &mut N,
    deeds: &mut Deeds,
    task: Running,
) -> Result<Finish, AllocError>
    requires home { V.holds view.old (V.home view.old) }
    requires ready { AreReady V.holds V.now view.old deeds.old }
    requires runs { (p : Pending) × MayRun task p }
    ensures lasts { Lasts V.holds V.home V.anchor view.old view.new result }
    ensures played { IfOk result (λ o. (p : Pending) → MayRun task p → Goes V.holds V.now view.old view.new
        (λ before after. ComesTo (came_to (run_of (scene_of deeds.old before (ticks_of task)) p)) after deeds.new o)) }
{
    run_task(alloc, view, natives, deeds, task)
}
