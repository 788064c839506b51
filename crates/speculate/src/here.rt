//! A list on the caller's thread alone, without a board, without a lock and without threads.
ghost use Rattle.std.specs.Prelude.{◌≡◌, ◌≤◌, ◌+◌, [], ◌∷◌, length, take, vec_len, vec_capacity, IsTrue, IfOk, IfErr, IfSome, OnOk, OnErr, MatchOption};
ghost use Rattle.spec_world.specs.Questions.{apply_all};
ghost use Rattle.spec_world.specs.Step.{AllInRange, in_range};
ghost use Rattle.spec_moo.specs.Steps.{play1, play};
ghost use Rattle.view.specs.Sound.{IsSound};
ghost use Rattle.speculate.specs.BoardState.{runs};

use crate::gate::Gate;
use crate::guesses::Guess;
use crate::held::Mark;
use crate::report::Report;
use crate::room::Room;
use crate::sight::shared;
use crate::trying::try_on;
use std::alloc::{AllocError, Global};
use task_run::list::play_step;
use task_step::outcome::Outcome;
use task_step::partial::{Partial, Refusal, refused};
use task_step::step::Step;
use view::changes::Changes;
use world::draft::Draft;
use world::worlds::World;

/// Plays the steps one after another, each guessed or, where the gate is free, tried on the world that those before it left. After want of memory, the first part was run.
pub(crate) fn play_here<G: Gate>(
    alloc: Global,
    gate: &G,
    mut world: World,
    steps: &[Step],
) -> Result<Report, Partial>
    requires { AllInRange steps.now }
    ensures ok { IfOk result (λ r. play world.plain steps.now ≡ (r.world.plain, r.outcomes.items)) }
    ensures count { IfOk result (λ r. (length r.outcomes.items ≡ length steps.now) × (length r.marks.items ≡ length steps.now)) }
    ensures part { IfErr result (λ p. play world.plain (take p.count steps.now) ≡ (p.world.plain, p.outcomes.items)) }
    ensures err { IfErr result (λ p. (p.count ≡ length p.outcomes.items) × (p.count ≤ length steps.now) × (p.refusal ≡ Refusal.Memory)) }
    ensures views { IfOk result (λ r. world.opened + runs r.marks.items ≤ r.world.opened) }
{
    let (mut outcomes, mut marks) = match places(alloc, steps.len()) {
        Ok(places) => places,
        Err(_) => return Err(refused(alloc, Refusal::Memory, world)),
    };
    let mut room = Room::new(alloc);
    for (at, step) in steps.iter().enumerate() {
        match step_here(alloc, gate, &mut world, &mut room, step, at) {
            Ok((outcome, mark)) => {
                outcomes.push_reserved(outcome);
                marks.push_reserved(mark);
            }
            Err(_) => {
                let count = outcomes.len();
                return Err(Partial {
                    refusal: Refusal::Memory,
                    world,
                    outcomes,
                    count,
                });
            }
        }
    }
    Ok(Report {
        world,
        outcomes,
        marks,
    })
}

/// Room for the outcomes and the marks.
pub(crate) fn places(alloc: Global, count: usize) -> Result<(Vec<Outcome>, Vec<Mark>), AllocError>
    ensures empty { IfOk result (λ r. (r.0.items ≡ []) × (r.1.items ≡ [])) }
    ensures none { IfOk result (λ r. (vec_len r.0 ≡ 0) × (vec_len r.1 ≡ 0)) }
    ensures room { IfOk result (λ r. (count ≤ vec_capacity r.0) × (count ≤ vec_capacity r.1)) }
{
    let outcomes = Vec::with_capacity(alloc, count)?;
    let marks = Vec::with_capacity(alloc, count)?;
    Ok((outcomes, marks))
}

// One step: it is guessed or tried, and kept, or it is run on the world. After an error the world is as it was.
#[inline(always)]
fn step_here<G: Gate>(
    alloc: Global,
    gate: &G,
    world: &mut World,
    room: &mut Room,
    step: &Step,
    at: usize,
) -> Result<(Outcome, Mark), AllocError>
    requires { IsTrue (in_range step.now) }
    ensures ok { IfOk result (λ r. play1 world.old.plain step.now ≡ (world.new.plain, r.0)) }
    ensures err { OnErr result (world.new.plain ≡ world.old.plain) }
    ensures views { IfOk result (λ r. world.new.opened ≡ world.old.opened + runs (r.1 ∷ [])) }
{
    match keep_here(alloc, gate, world, room, step, at) {
        Some(outcome) => Ok((outcome, Mark::Kept)),
        None => run_here(alloc, world, step),
    }
}

// Where the step can be guessed or tried on the world as it is, the world becomes what the step makes of it.
#[inline(always)]
fn keep_here<G: Gate>(
    alloc: Global,
    gate: &G,
    world: &mut World,
    room: &mut Room,
    step: &Step,
    at: usize,
) -> Option<Outcome>
    requires { IsTrue (in_range step.now) }
    ensures { MatchOption result (world.new ≡ world.old) (λ o. (play1 world.old.plain step.now ≡ (world.new.plain, o)) × (world.new.opened ≡ world.old.opened)) }
{
    if gate.is_free() {
        return keep_tried(alloc, world, room, step);
    }
    keep_guessed(alloc, gate, world, step, at)
}

// The same by the gate's guess on the world as it is.
#[inline(never)]
fn keep_guessed<G: Gate>(
    alloc: Global,
    gate: &G,
    world: &mut World,
    step: &Step,
    at: usize,
) -> Option<Outcome>
    requires { IsTrue (in_range step.now) }
    ensures { MatchOption result (world.new ≡ world.old) (λ o. (play1 world.old.plain step.now ≡ (world.new.plain, o)) × (world.new.opened ≡ world.old.opened)) }
{
    world.know();
    let Some(guess) = guess_here(alloc, gate, world, step, at) else {
        return None;
    };
    if !guess.is_for(step) {
        return None;
    }
    guess.know();
    match guess.keep(world) {
        Ok((outcome, _changes, _spent)) => Some(outcome),
        Err(_) => None,
    }
}

// The gate's guess on the world as it is, which shares the world's records until it is let go.
fn guess_here<G: Gate>(
    alloc: Global,
    gate: &G,
    world: &World,
    step: &Step,
    at: usize,
) -> Option<Guess>
    requires { IsTrue (in_range step.now) }
    ensures { IfSome result (λ g. g.before ≡ world.now.plain) }
{
    let Ok(snapshot) = shared(alloc, world) else {
        return None;
    };
    gate.guess(alloc, at, &snapshot, step).ok()
}

// The same by the step itself, without a guess. It leaves its room.
#[inline(always)]
fn keep_tried(alloc: Global, world: &mut World, room: &mut Room, step: &Step) -> Option<Outcome>
    requires { IsTrue (in_range step.now) }
    ensures { MatchOption result (world.new ≡ world.old) (λ o. (play1 world.old.plain step.now ≡ (world.new.plain, o)) × (world.new.opened ≡ world.old.opened)) }
{
    let Ok((outcome, changes, after)) = try_on(alloc, world, room, step) else {
        return None;
    };
    let done = take_over(world, &changes, after);
    room.changes = changes;
    match done {
        Ok(()) => Some(outcome),
        Err(_) => None,
    }
}

/// The world has these changes, which these records have too, where they were made. After want of memory nothing has changed.
#[inline(always)]
pub(crate) fn take_over(
    world: &mut World,
    changes: &Changes,
    after: Option<Draft>,
) -> Result<(), AllocError>
    requires sound { IsSound (apply_all changes.now world.old.plain) }
    requires after { IfSome after (λ d. d ≡ apply_all changes.now world.old.plain) }
    ensures plain { OnOk result (world.new.plain ≡ apply_all changes.now world.old.plain) }
    ensures opened { OnOk result (world.new.opened ≡ world.old.opened) }
    ensures err { OnErr result (world.new ≡ world.old) }
{
    match after {
        Some(draft) => {
            world.replace(draft);
            Ok(())
        }
        None => world.change(changes),
    }
}

// The step is run on the world.
#[inline(never)]
fn run_here(alloc: Global, world: &mut World, step: &Step) -> Result<(Outcome, Mark), AllocError>
    requires { IsTrue (in_range step.now) }
    ensures ok { IfOk result (λ r. play1 world.old.plain step.now ≡ (world.new.plain, r.0)) }
    ensures err { OnErr result (world.new.plain ≡ world.old.plain) }
    ensures views { IfOk result (λ r. world.new.opened ≡ world.old.opened + runs (r.1 ∷ [])) }
{
    let outcome = play_step(alloc, world, step)?;
    Ok((outcome, Mark::Lost))
}
