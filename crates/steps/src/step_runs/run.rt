//! Tasks that run until they stop.
ghost use Rattle.std.specs.Prelude.{◌≡◌, ◌-◌, IfOk};
ghost use Rattle.spec_moo.specs.Pending.{Pending};
ghost use Rattle.spec_moo.specs.Steps.Running.{run as run_of};
ghost use Rattle.moo_task.specs.Deeds.{scene_of};
ghost use Rattle.moo_task.specs.Outcomes.{ticks_of};
ghost use Rattle.view.specs.Law.{Goes, Lasts};
ghost use Rattle.steps.specs.StepsPerformed.{HasValue};
ghost use Rattle.steps.specs.Ready.{AreReady};
ghost use Rattle.steps.specs.Stops.{HasRun, left_at};
ghost use Rattle.steps.specs.Tasks.{MayRun};

use crate::step_runs::ending::after_stop;
use crate::step_tasks::finish::Finish;
use local_code::moo_run::stopped::Stop;
use moo_task::deeds::Deeds;
use moo_task::running::Running;
use running::moo_run::run::run;
use std::alloc::{AllocError, Global};
use step_deeds::natives::Natives;
use view::law::View;

/// Runs a task until it stops, and does what its end does.
#[inline(always)]
pub fn run_task<V: View, N: Natives>(
    alloc: Global,
    view: &mut V,
    natives: &mut N,
    deeds: &mut Deeds,
    mut task: Running,
) -> Result<Finish, AllocError>
    requires home { V.holds view.old (V.home view.old) }
    requires ready { AreReady V.holds V.now view.old deeds.old }
    requires runs { (p : Pending) × MayRun task p }
    ensures lasts { Lasts V.holds V.home V.anchor view.old view.new result }
    ensures ran { IfOk result (λ r. (p : Pending) → MayRun task p → Goes V.holds V.now view.old view.new
        (λ before after. HasRun (run_of (scene_of deeds.old before (ticks_of task)) p) after deeds.new r)) }
    ensures ready { IfOk result (λ r. HasValue r.ending → AreReady V.holds V.now view.new deeds.new) }
{
    let player = task.player;
    let given = task.frame.state.ticks;
    let stop = run(alloc, view, natives, deeds, &mut task)?;
    let ticks = given.saturating_sub(left(&stop, task.frame.state.ticks));
    let ending = after_stop(alloc, view, natives, deeds, player, task, stop)?;
    Ok(Finish { ending, ticks })
}

// The ticks that are left: none where a charge found none.
#[inline(always)]
fn left(stop: &Stop, ticks_left: u32) -> u32
    ensures { result ≡ left_at stop.now ticks_left }
{
    match stop {
        Stop::OutOfTicks(_) => 0,
        Stop::Ends(_) | Stop::Waits(_) => ticks_left,
    }
}
