//! A leaving at the handlers of the verb that runs, and errors on their way out of it, into the verbs that wait.
ghost use Rattle.std.specs.Prelude.{◌≡◌, IfOk};
ghost use Rattle.spec_moo.specs.Scene.{Scene};
ghost use Rattle.spec_moo.specs.Leaving.{failed};
ghost use Rattle.moo_task.specs.Meant.{failure_meant};
ghost use Rattle.moo_task.specs.Outcomes.{led, Keeps};
ghost use Rattle.local_code.specs.Steps.{out_in, offered_in, raised_into_in, resumed, Falls};

use crate::moo_unwind::offer::Offer;
use crate::moo_unwind::unwind::leave;
use moo_task::frame::{Frame, Outer};
use moo_task::moo_machine::leaving::{Failure, Leaving};
use moo_task::outcome::{End, Outcome};
use moo_task::running::Running;
use std::alloc::{AllocError, Global};
use std::mem;

/// A leaving is offered to the handlers of the verb that runs. Their variables are among those of its program; that it has a slot for each is tested
/// while it runs.
pub fn offer(alloc: Global, task: &mut Running, leaving: Leaving) -> Result<Offer, AllocError>
    ensures offered { IfOk result (λ o. (s : Scene) → led (Outcome.Leaves leaving) s task.old ≡ offered_in o s task.new) }
    ensures player { task.new.player ≡ task.old.player }
    ensures outer { task.new.outer ≡ task.old.outer }
{
    if task.frame.state.slots.len() != task.frame.names() {
        return Err(AllocError);
    }
    let handlers = task.frame.program.handlers();
    let offered = leave(alloc, &mut task.frame.state, handlers, leaving)?;
    Ok(offered)
}

/// An error for the innermost verb that waits; built-in functions let it pass.
pub fn raise_out(task: &mut Running, failure: Failure) -> Result<Outcome, AllocError>
    ensures out { IfOk result (λ o. (s : Scene) → out_in (failed (failure_meant failure)) s task.old ≡ led o s task.new) }
    ensures falls { IfOk result (λ o. Falls o task.old task.new) }
{
    'out: while let Some(outer) = task.outer.pop() {
        if let Outer::Verb(frame) = outer {
            return raise_into(task, frame, failure);
        }
    }
    Ok(Outcome::Ends(End::Raised(failure)))
}

// An error for a verb that waited.
fn raise_into(task: &mut Running, frame: Frame, failure: Failure) -> Result<Outcome, AllocError>
    ensures out { IfOk result (λ o. (s : Scene) → raised_into_in frame (failure_meant failure) s task.old ≡ led o s task.new) }
    ensures keeps { IfOk result (λ o. Keeps o task.old task.new) }
{
    let mut failure = failure;
    resume(task, frame);
    failure.come_by(task.player, &task.frame.call)?;
    Ok(Outcome::Leaves(Leaving::Failed(failure)))
}

/// A verb that waited runs again, with the ticks that are left. The one that ran leaves its room.
#[inline(always)]
pub fn resume(task: &mut Running, frame: Frame)
    ensures { task.new ≡ resumed task.old frame }
{
    let ticks = task.frame.state.ticks;
    let left = mem::replace(&mut task.frame, frame);
    task.frame.state.ticks = ticks;
    task.outer.leave_room(left);
}
