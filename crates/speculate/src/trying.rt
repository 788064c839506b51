//! A step tried on a world, which stays as it is.
ghost use Rattle.std.specs.Prelude.{◌≡◌, IsTrue, IfOk, IfSome};
ghost use Rattle.spec_world.specs.Questions.{apply_all};
ghost use Rattle.spec_world.specs.Step.{in_range};
ghost use Rattle.spec_moo.specs.Steps.{play1};
ghost use Rattle.view.specs.Sound.{IsSound};

use crate::room::Room;
use std::alloc::{AllocError, Global};
use std::mem;
use task_run::step::run_step;
use task_step::outcome::Outcome;
use task_step::step::Step;
use view::changes::Changes;
use world::alone::Alone;
use world::draft::Draft;
use world::worlds::World;

/// What a step makes of the world, in the room of an earlier one: its outcome, the changes, and the records with them, where they were made. The world stays
/// as it is.
#[inline(always)]
pub(crate) fn try_on(
    alloc: Global,
    world: &World,
    room: &mut Room,
    step: &Step,
) -> Result<(Outcome, Changes, Option<Draft>), AllocError>
    requires { IsTrue (in_range step.now) }
    ensures played { IfOk result (λ r. play1 world.now.plain step.now ≡ (apply_all r.1 world.now.plain, r.0)) }
    ensures sound { IfOk result (λ r. IsSound (apply_all r.1 world.now.plain)) }
    ensures after { IfOk result (λ r. IfSome r.2 (λ d. d ≡ apply_all r.1 world.now.plain)) }
{
    let changes = mem::replace(&mut room.changes, Changes::new(alloc));
    let mut view = Alone::over(alloc, world, changes);
    let outcome = run_step(alloc, &mut view, &mut room.task, step)?;
    let (changes, after) = view.finish();
    Ok((outcome, changes, after))
}
