//! Where an instruction leads a task.
ghost use Rattle.std.specs.Prelude.{◌≡◌, IfOk};
ghost use Rattle.spec_moo.specs.Scene.{Scene};
ghost use Rattle.moo_task.specs.Shown.{shown};
ghost use Rattle.moo_task.specs.declared.moo_machine.verb.Did.{Did};
ghost use Rattle.moo_task.specs.Outcomes.{around, led};
ghost use Rattle.running.specs.Called.{shown_called, HasList};

use crate::moo_objects::calling::Called;
use moo_program::program::Program;
use moo_task::moo_machine::leaving::Leaving;
use moo_task::moo_machine::raising::raised;
use moo_task::moo_machine::verb::Did;
use moo_task::outcome::Outcome;
use moo_task::running::{MOST_WAITING, Running};
use moo_value::error::MooError;
use rules::inherit::verb::FoundVerb;
use std::alloc::{AllocError, Global};

/// Where what an instruction did leads the task.
#[inline(always)]
pub fn led_by(alloc: Global, task: &Running, did: Did) -> Result<Outcome, AllocError>
    ensures { IfOk result (λ o. (s : Scene) → shown (around task.now s) task.now.frame.call did task.now.frame.state ≡ led o s task.now) }
{
    match did {
        Did::Went => Ok(Outcome::On),
        Did::Raised(error) => led_by_error(alloc, task, error),
        Did::Left(leaving) => Ok(Outcome::Leaves(leaving)),
        Did::RanOut => Ok(Outcome::RanOut),
        Did::LacksOperand => Ok(Outcome::LacksOperand),
    }
}

// Where an error leads the task.
#[cold]
#[inline(never)]
fn led_by_error(alloc: Global, task: &Running, error: MooError) -> Result<Outcome, AllocError>
    ensures { IfOk result (λ o. (s : Scene) → shown (around task.now s) task.now.frame.call (Did.Raised error) task.now.frame.state ≡ led o s task.now) }
{
    let failure = raised(alloc, error, task.player, &task.frame.call)?;
    Ok(Outcome::Leaves(Leaving::Failed(failure)))
}

/// Where a call of a verb leads the task: into the verb that was found, if one was.
#[inline(always)]
pub fn led_by_call(alloc: Global, task: &mut Running, called: Called) -> Result<Outcome, AllocError>
    requires { HasList called }
    ensures led { IfOk result (λ o. (s : Scene) →
        shown_called (around task.old s) task.old.frame.call called task.old.frame.state ≡ led o s task.new) }
    ensures player { IfOk result (λ o. task.new.player ≡ task.old.player) }
{
    match called {
        Called::Went(did) => led_by(alloc, task, did),
        Called::Entered(call, found, arguments) => {
            let program = program_of(&found)?;
            if task.outer.verbs() >= MOST_WAITING {
                let end = task.frame.call_end()?;
                let outcome = task.enter(alloc, None, end, call, program, arguments)?;
                return Ok(outcome);
            }
            task.enter_verb(alloc, call, program, arguments)?;
            Ok(Outcome::On)
        }
    }
}

// The program of a verb that was found.
fn program_of(found: &FoundVerb) -> Result<Program, AllocError>
    ensures { IfOk result (λ p. p ≡ (found.now.verb).program) }
{
    let verb = found.verb();
    verb.program.whole()
}
