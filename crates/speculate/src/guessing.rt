//! Making a guess.
ghost use Rattle.std.specs.Prelude.{◌≡◌, IsTrue, IfOk};
ghost use Rattle.spec_world.specs.Questions.{Agrees};
ghost use Rattle.spec_world.specs.Step.{in_range};
ghost use Rattle.speculate.specs.Right.{IsRight};

use crate::guesses::Guess;
use crate::watched::Watched;
use std::alloc::{AllocError, Global};
use std::snapshot::Snapshot as Remembered;
use task_run::rooms::Rooms;
use task_run::step::run_step;
use task_step::step::Step;
use world::shared::SharedSnapshot;

/// Runs a step on a snapshot, which stays as it is. The guess is right for every world, whatever became of it since.
pub fn guess(alloc: Global, snapshot: &SharedSnapshot, step: &Step) -> Result<Guess, AllocError>
    requires { IsTrue (in_range step.now) }
    ensures step { IfOk result (λ g. g.step ≡ step.now) }
    ensures right { IfOk result (λ g. IsRight g) }
    ensures agrees { IfOk result (λ g. Agrees snapshot.now g.reads) }
    ensures before { IfOk result (λ g. g.before ≡ snapshot.now) }
{
    let mut rooms = Rooms::new();
    guess_in(alloc, &mut rooms, snapshot, step, 0)
}

/// The same in the room of an earlier step, by a worker.
pub(crate) fn guess_in(
    alloc: Global,
    rooms: &mut Rooms,
    snapshot: &SharedSnapshot,
    step: &Step,
    maker: usize,
) -> Result<Guess, AllocError>
    requires { IsTrue (in_range step.now) }
    ensures step { IfOk result (λ g. g.step ≡ step.now) }
    ensures right { IfOk result (λ g. IsRight g) }
    ensures agrees { IfOk result (λ g. Agrees snapshot.now g.reads) }
    ensures before { IfOk result (λ g. g.before ≡ snapshot.now) }
{
    let mut view = Watched::over(alloc, snapshot);
    let outcome = run_step(alloc, &mut view, rooms, step)?;
    let found = view.finish()?;
    let (reads, changes, slots) = found;
    Ok(Guess {
        step: step.clone()?,
        reads,
        changes,
        outcome,
        slots,
        maker,
        before: Remembered::of(snapshot),
    })
}
