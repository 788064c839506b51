//! Tasks that wait.
ghost use Rattle.std.specs.Prelude.{◌≡◌, IfOk, IsTrue};
ghost use Rattle.spec_world.specs.WellFormed.{TaskStands};
ghost use Rattle.moo_code.specs.Machine.{entries};
ghost use Rattle.moo_task.specs.Effects.{waiting_of};
ghost use Rattle.moo_task.specs.Frames.{outer_of};
ghost use Rattle.moo_task.specs.Keeping.{BeginsAlone};
ghost use Rattle.moo_task.specs.Waits.{due_at};
ghost use Rattle.world_checks.specs.TaskChecksTasks.{is_fork as is_fork_of, entries_fit as entries_fit_of, moment_fits as moment_fits_of, ForkStands, BeginsFitting, BeginsFound};

use crate::piece_checks::fit::beginning_fits;
use crate::task_checks::outers::outers_fit;
use moo_task::effect::Waiting;
use moo_task::frame::Outer;
use moo_task::outers::Outers;
use moo_task::task::Task;
use std::alloc::{AllocError, Global};

// The greatest moment, in seconds.
const LAST_MOMENT: u32 = 2147483647;

/// Whether what waits of a task fits: a verb stands first and last and no two built-in functions stand together, there are at
/// most 50 verbs, and each verb and built-in function holds what it may hold.
#[tactic(auto, using(crate::proofs::TaskTold::fork_told, crate::proofs::TaskTold::fork_found, crate::proofs::TaskTold::outers_told, crate::proofs::TaskTold::outers_found))]
pub fn entries_fit(alloc: Global, task: &Task) -> Result<bool, AllocError>
    ensures tells { IfOk result (λ fit. IsTrue fit → IsTrue (entries_fit_of task.now.entries)) }
    ensures finds { IfOk result (λ fit. IsTrue (entries_fit_of task.now.entries) → IsTrue fit) }
{
    if is_fork(task.waiting()) {
        Ok(fork_fits(task.verbs()))
    } else {
        let fit = outers_fit(alloc, task.verbs())?;
        Ok(fit)
    }
}

// What waits is known to be one verb at its beginning.
#[tactic(auto, using(crate::proofs::Forks::one_stored, crate::proofs::Forks::alone_fits, crate::proofs::Forks::alone_found, crate::proofs::Forks::one_alone))]
fn fork_fits(outers: &Outers) -> bool
    ensures tells { IsTrue result → BeginsAlone outers.now → IsTrue (entries_fit_of (entries outers.now)) }
    ensures finds { BeginsAlone outers.now → IsTrue (entries_fit_of (entries outers.now)) → IsTrue result }
{
    let [only] = outers.as_slice() else {
        return false;
    };
    begins_fitting(only)
}

fn begins_fitting(outer: &Outer) -> bool
    ensures tells { IsTrue result → BeginsFitting (outer_of outer.now) }
    ensures finds { BeginsFound (outer_of outer.now) → IsTrue result }
{
    match outer {
        Outer::Verb(frame) => beginning_fits(frame),
        Outer::Native(_) => false,
    }
}

fn is_fork(waiting: &Waiting) -> bool
    ensures { result ≡ is_fork_of (waiting_of waiting.now) }
{
    match waiting {
        Waiting::Forked(_) => true,
        _ => false,
    }
}

/// Whether the moment at which a task is due, if it waits for one, is in range.
pub fn moment_fits(task: &Task) -> bool
    ensures { result ≡ moment_fits_of (due_at task.now.waiting) }
{
    match task.due() {
        Some(due) => due <= LAST_MOMENT,
        None => true,
    }
}

/// What is known of every task: its verbs stand at calls, or its only one at its beginning if it was forked.
#[tactic(auto, using(crate::proofs::TaskTold::task_stands, crate::proofs::TaskTold::fork_is))]
pub fn know_places(task: &Task)
    ensures places { TaskStands task.now task.now.waiting }
    ensures fork { ForkStands task.now.waiting task.now.entries }
{
    let _verbs = task.verbs();
}
