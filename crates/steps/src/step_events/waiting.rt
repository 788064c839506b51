//! Tasks that waited and go on.
ghost use Rattle.std.specs.Prelude.{◌≡◌, Some, IfOk};
ghost use Rattle.spec_value.specs.Table.{at};
ghost use Rattle.spec_world.specs.World.{World};
ghost use Rattle.spec_world.specs.Step.{Step as StepOf};
ghost use Rattle.spec_moo.specs.Steps.Running.{gone_on};
ghost use Rattle.spec_moo.specs.Steps.Events.{resumed, with_own_task, read_by as read_by_of, ready_at, ready_run as ready_run_of, is_due as is_due_of, foreground_ticks};
ghost use Rattle.moo_task.specs.Deeds.{scene_of};
ghost use Rattle.view.specs.Law.{Goes, Lasts};
ghost use Rattle.steps.specs.StepsPerformed.{ComesTo};
ghost use Rattle.steps.specs.Ready.{AreReady};
ghost use Rattle.steps.specs.Opens.{IsOpening};

use crate::step_runs::play::play_task;
use crate::step_tasks::finish::Finish;
use crate::step_tasks::opening::{FOREGROUND_TICKS, QUEUED_TICKS};
use crate::step_tasks::system::SYSTEM;
use moo_task::deeds::Deeds;
use moo_task::task::Task;
use moo_value::value::Value;
use std::alloc::{AllocError, Global};
use step_deeds::natives::Natives;
use task_step::outcome::Ending;
use view::law::View;
use view::readers::{read_task, write_task};

/// A task that is due goes on. Nothing happens where it is not there, or not due.
#[inline(never)]
pub fn ready<V: View, N: Natives>(
    alloc: Global,
    view: &mut V,
    natives: &mut N,
    deeds: &mut Deeds,
    id: i32,
) -> Result<Finish, AllocError>
    requires home { V.holds view.old (V.home view.old) }
    requires ready { AreReady V.holds V.now view.old deeds.old }
    ensures lasts { Lasts V.holds V.home V.anchor view.old view.new result }
    ensures played { IfOk result (λ o. (s : StepOf) → IsOpening s deeds.old → Goes V.holds V.now view.old view.new
        (λ before after. ComesTo (ready_at s before id (at before.tasks id)) after deeds.new o)) }
{
    let task = read_task(view, id)?;
    match task {
        Some(task) => {
            let outcome = ready_run(alloc, view, natives, deeds, id, &task)?;
            Ok(outcome)
        }
        None => Ok(Finish::idle(Ending::Absent)),
    }
}

// A task that is there goes on, if it is due.
fn ready_run<V: View, N: Natives>(
    alloc: Global,
    view: &mut V,
    natives: &mut N,
    deeds: &mut Deeds,
    id: i32,
    task: &Task,
) -> Result<Finish, AllocError>
    requires home { V.holds view.old (V.home view.old) }
    requires ready { AreReady V.holds V.now view.old deeds.old }
    requires there { (w : World) → V.holds view.old w → at (V.now view.old w).tasks id ≡ Some task.now }
    ensures lasts { Lasts V.holds V.home V.anchor view.old view.new result }
    ensures played { IfOk result (λ o. (s : StepOf) → IsOpening s deeds.old → Goes V.holds V.now view.old view.new
        (λ before after. ComesTo (ready_run_of s before id task.now (is_due_of s.moment task.now.waiting)) after deeds.new o)) }
{
    let due = is_due(task, deeds.moment);
    if !due {
        return Ok(Finish::idle(Ending::Early));
    }
    let value = Value::object(SYSTEM);
    let outcome = resume(alloc, view, natives, deeds, id, task, value, QUEUED_TICKS)?;
    Ok(outcome)
}

/// The task that reads on a connection has a line's value.
#[inline(never)]
pub fn read_by<V: View, N: Natives>(
    alloc: Global,
    view: &mut V,
    natives: &mut N,
    deeds: &mut Deeds,
    id: i32,
    value: Value,
) -> Result<Finish, AllocError>
    requires home { V.holds view.old (V.home view.old) }
    requires ready { AreReady V.holds V.now view.old deeds.old }
    ensures lasts { Lasts V.holds V.home V.anchor view.old view.new result }
    ensures played { IfOk result (λ o. Goes V.holds V.now view.old view.new
        (λ before after. ComesTo (read_by_of (scene_of deeds.old before foreground_ticks) id value (at before.tasks id)) after deeds.new o)) }
{
    let task = read_task(view, id)?;
    match task {
        Some(task) => {
            let outcome = resume(
                alloc,
                view,
                natives,
                deeds,
                id,
                &task,
                value,
                FOREGROUND_TICKS,
            )?;
            Ok(outcome)
        }
        None => Ok(Finish::nothing()),
    }
}

// A task goes on with a value and so many ticks, and is in the queue no more.
fn resume<V: View, N: Natives>(
    alloc: Global,
    view: &mut V,
    natives: &mut N,
    deeds: &mut Deeds,
    id: i32,
    task: &Task,
    value: Value,
    ticks: u32,
) -> Result<Finish, AllocError>
    requires home { V.holds view.old (V.home view.old) }
    requires ready { AreReady V.holds V.now view.old deeds.old }
    requires there { (w : World) → V.holds view.old w → at (V.now view.old w).tasks id ≡ Some task.now }
    ensures lasts { Lasts V.holds V.home V.anchor view.old view.new result }
    ensures played { IfOk result (λ o. Goes V.holds V.now view.old view.new (λ before after.
        ComesTo (resumed (with_own_task (scene_of deeds.old before ticks) id) (gone_on task.now task.now.waiting value)) after deeds.new o)) }
{
    let running = task.go_on(alloc, value, ticks)?;
    write_task(view, id, None)?;
    deeds.task = Some(id);
    let outcome = play_task(alloc, view, natives, deeds, running)?;
    Ok(outcome)
}

// Whether a task is due at a moment.
fn is_due(task: &Task, moment: u32) -> bool
    ensures { result ≡ is_due_of moment task.now.waiting }
{
    match task.due() {
        Some(due) => due <= moment,
        None => false,
    }
}
