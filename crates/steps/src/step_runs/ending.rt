//! What the end of a task does.
ghost use Rattle.std.specs.Prelude.{◌≡◌, ◌∷◌, List, IfOk};
ghost use Rattle.spec_world.specs.World.{Entry};
ghost use Rattle.spec_world.specs.WellFormed.{FramesStand};
ghost use Rattle.spec_moo.specs.Pending.{out_of_ticks, waiting as waiting_with};
ghost use Rattle.spec_moo.specs.Steps.Running.{waiting_result};
ghost use Rattle.moo_code.specs.Machine.{verb};
ghost use Rattle.moo_code.specs.Stands.{AllWait};
ghost use Rattle.moo_task.specs.Effects.{waiting_of};
ghost use Rattle.moo_task.specs.Frames.{kept_of};
ghost use Rattle.moo_task.specs.Outcomes.{end_of, running_kept};
ghost use Rattle.moo_task.specs.Keeping.{HasStopped};
ghost use Rattle.task_step.specs.OutcomeView.{result_of};
ghost use Rattle.view.specs.Law.{Goes, Lasts};
ghost use Rattle.steps.specs.Stops.{CanBeKept, Settles, SettlesAs};

use local_code::moo_run::stopped::Stop;
use moo_task::deeds::Deeds;
use moo_task::effect::Waiting;
use moo_task::frame::Frame;
use moo_task::moo_machine::leaving::{Failure, Traced};
use moo_task::outcome::End;
use moo_task::outers::Outers;
use moo_task::room::Room;
use moo_task::running::Running;
use moo_task::task::Task;
use moo_task::task_telling::lines::{failure_lines, out_of_ticks_lines};
use std::alloc::{AllocError, Global};
use step_deeds::natives::Natives;
use step_deeds::queue::enqueue;
use step_deeds::telling::tell;
use task_step::outcome::Ending;
use view::law::View;

/// What the end of a task does: one that waits is put into the queue at its id, if it has one; else its player is told why it stopped.
#[inline(always)]
pub fn after_stop<V: View, N: Natives>(
    alloc: Global,
    view: &mut V,
    natives: &mut N,
    deeds: &mut Deeds,
    player: i32,
    task: Running,
    stop: Stop,
) -> Result<Ending, AllocError>
    requires home { V.holds view.old (V.home view.old) }
    requires kept { CanBeKept stop (verb (running_kept task) ∷ task.outer) }
    ensures lasts { Lasts V.holds V.home V.anchor view.old view.new result }
    ensures settles { IfOk result (λ e. Goes V.holds V.now view.old view.new
        (λ before after. Settles player stop (verb (running_kept task) ∷ task.outer) e deeds.old before deeds.new after)) }
{
    match stop {
        Stop::Ends(end) => {
            leave(natives, task);
            let ending = ended(alloc, view, deeds, player, end)?;
            Ok(ending)
        }
        Stop::OutOfTicks(verbs) => {
            let ending = ran_out(alloc, view, deeds, player, &verbs)?;
            Ok(ending)
        }
        Stop::Waits(waiting) => {
            let Running {
                player: _,
                frame,
                outer,
            } = task;
            let ending = waits(alloc, view, deeds, player, waiting, frame, outer)?;
            Ok(ending)
        }
    }
}

// A task that has ended leaves its room.
#[inline(always)]
fn leave<N: Natives>(natives: &mut N, task: Running) {
    let Running {
        player: _,
        frame,
        outer: _outer,
    } = task;
    natives.leave_room(Room::left(frame));
}

// A task that has ended by itself.
#[inline(always)]
fn ended<V: View>(
    alloc: Global,
    view: &mut V,
    deeds: &mut Deeds,
    player: i32,
    end: End,
) -> Result<Ending, AllocError>
    requires home { V.holds view.old (V.home view.old) }
    ensures lasts { Lasts V.holds V.home V.anchor view.old view.new result }
    ensures settles { IfOk result (λ e. Goes V.holds V.now view.old view.new
        (λ before after. SettlesAs player (end_of end) e deeds.old before deeds.new after)) }
{
    match end {
        End::Done(value) => Ok(Ending::Value(value)),
        End::Raised(failure) => {
            let ending = failed(alloc, view, deeds, player, failure)?;
            Ok(ending)
        }
        End::Killed => Ok(Ending::Killed),
    }
}

// An error came out of a task.
#[inline(never)]
fn failed<V: View>(
    alloc: Global,
    view: &mut V,
    deeds: &mut Deeds,
    player: i32,
    failure: Failure,
) -> Result<Ending, AllocError>
    requires home { V.holds view.old (V.home view.old) }
    ensures lasts { Lasts V.holds V.home V.anchor view.old view.new result }
    ensures settles { IfOk result (λ e. Goes V.holds V.now view.old view.new
        (λ before after. SettlesAs player (end_of (End.Raised failure)) e deeds.old before deeds.new after)) }
{
    let lines = failure_lines(alloc, &failure)?;
    tell(view, deeds, player, lines)?;
    let Failure {
        code,
        message: _,
        value: _,
        traceback: _,
    } = failure;
    Ok(Ending::Raised(code))
}

// A task had no tick left.
#[inline(never)]
fn ran_out<V: View>(
    alloc: Global,
    view: &mut V,
    deeds: &mut Deeds,
    player: i32,
    verbs: &[Traced],
) -> Result<Ending, AllocError>
    requires home { V.holds view.old (V.home view.old) }
    ensures lasts { Lasts V.holds V.home V.anchor view.old view.new result }
    ensures settles { IfOk result (λ e. Goes V.holds V.now view.old view.new
        (λ before after. SettlesAs player (out_of_ticks verbs.now) e deeds.old before deeds.new after)) }
{
    let lines = out_of_ticks_lines(alloc, verbs)?;
    tell(view, deeds, player, lines)?;
    Ok(Ending::OutOfTicks)
}

// A task waits.
#[inline(never)]
fn waits<V: View>(
    alloc: Global,
    view: &mut V,
    deeds: &mut Deeds,
    player: i32,
    waiting: Waiting,
    frame: Frame,
    outer: Outers,
) -> Result<Ending, AllocError>
    requires home { V.holds view.old (V.home view.old) }
    requires kept { HasStopped (waiting_of waiting) (verb (kept_of frame) ∷ outer) }
    ensures lasts { Lasts V.holds V.home V.anchor view.old view.new result }
    ensures settles { IfOk result (λ e. Goes V.holds V.now view.old view.new (λ before after. (es : List Entry)
        → AllWait es (verb (kept_of frame) ∷ outer) → FramesStand es
        → SettlesAs player (waiting_with (waiting_of waiting) es) e deeds.old before deeds.new after)) }
{
    let ending = waiting_ending(&waiting);
    let Some(id) = deeds.task else {
        return Ok(ending);
    };
    let task = Task::stopped(alloc, player, waiting, frame, outer)?;
    enqueue(view, deeds, id, task)?;
    Ok(ending)
}

// How a task ended that waits.
fn waiting_ending(waiting: &Waiting) -> Ending
    ensures { result_of result ≡ waiting_result (waiting_of waiting.now) }
{
    match waiting {
        Waiting::ReadingOn(_) => Ending::Reading,
        Waiting::Forked(_) | Waiting::Timed(_, _) | Waiting::Idle => Ending::Suspended,
    }
}
