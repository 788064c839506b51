//! The gate through which guesses are made.
ghost use Rattle.std.specs.Prelude.{◌≡◌, ◌<◌, IsTrue, IfOk, IfSome, length};
ghost use Rattle.spec_world.specs.Step.{AllInRange, in_range};

use crate::desk::Desk;
use crate::guesses::Guess;
use crate::guessing::{guess, guess_in};
use std::alloc::{AllocError, Global};
use task_step::step::Step;
use world::shared::SharedSnapshot;

/// Makes every guess of a list, each on the thread of the worker that took its position. It may answer want of memory at will;
/// the step is then run when its turn comes.
pub trait Gate: Sync {
    /// A guess for the step at this position of the list, on this snapshot.
    fn guess(
        &self,
        alloc: Global,
        position: usize,
        snapshot: &SharedSnapshot,
        step: &Step,
    ) -> Result<Guess, AllocError>
        requires { IsTrue (in_range step.now) }
        ensures { IfOk result (λ g. g.before ≡ snapshot.now) };

    /// Whether it does nothing but guess, so that nobody misses a guess that is not asked for: one worker then tries each step on the world itself. Any other
    /// gate is asked for each guess.
    #[inline(always)]
    fn is_free(&self) -> bool {
        false
    }
}

/// The gate that only guesses.
#[derive(Drop)]
pub struct Free;

impl Gate for Free {
    fn guess(
        &self,
        alloc: Global,
        _position: usize,
        snapshot: &SharedSnapshot,
        step: &Step,
    ) -> Result<Guess, AllocError> {
        guess(alloc, snapshot, step)
    }

    #[inline(always)]
    fn is_free(&self) -> bool {
        true
    }
}

/// The gate's guess for the step at a position, if it gives one. Where it does nothing but guess, the guess is made in the room of an earlier one.
pub(crate) fn guess_at<G: Gate>(
    alloc: Global,
    gate: &G,
    desk: &mut Desk,
    snapshot: &SharedSnapshot,
    steps: &[Step],
    at: usize,
) -> Option<Guess>
    requires range { AllInRange steps.now }
    requires at { at < length steps.now }
    ensures { IfSome result (λ g. g.before ≡ snapshot.now) }
{
    if gate.is_free() {
        return guess_in(alloc, &mut desk.rooms, snapshot, &steps[at], desk.who).ok();
    }
    gate.guess(alloc, at, snapshot, &steps[at]).ok()
}
