//! The commit of one position.
ghost use Rattle.std.specs.Prelude.{◌≡◌, ◌≢◌, ◌↔◌, ◌+◌, IsTrue, IfOk, IfErr, IfSome, OnOk, OnErr};
ghost use Rattle.spec_world.specs.Questions.{Agrees, apply_all};
ghost use Rattle.spec_world.specs.Step.{in_range};
ghost use Rattle.view.specs.Sound.{IsSound};
ghost use Rattle.speculate.specs.BoardState.{FitsStep};
ghost use Rattle.speculate.specs.Right.{IsRight, after_guess};
ghost use Rattle.speculate.specs.Progress.{Ran, Committed, IsUndone};
ghost use Rattle.speculate.specs.Known.{KnowsFresh};
ghost use Rattle.speculate.specs.Verbs.{SameVerbs, IsWithin, KnowsVerbs};

use crate::guesses::{Guess, Spent, leave_verbs};
use crate::held::{Held, Mark};
use crate::room::Room;
use crate::stamps::Stamps;
use crate::trying::try_on;
use std::alloc::{AllocError, Global};
use task_step::outcome::Outcome;
use task_step::step::Step;
use view::changes::Changes;
use world::count::Count;
use world::draft::Draft;
use world::live::Live;
use world::worlds::World;

/// A step that is committed: its outcome, how it came, whether it is known to have left all verbs as they were, its changes, and what is left of its guess.
#[derive(Drop)]
pub(crate) struct Done {
    pub(crate) outcome: Outcome,
    pub(crate) mark: Mark,
    pub(crate) leaves_verbs: bool,
    pub(crate) changes: Changes,
    pub(crate) spent: Option<Spent>,
}

/// Commits a step on the world, as its position says, where so many steps are committed, and no verb has changed since so many of them. After want of
/// memory the world is as it was, what was held is given back, and a run that was undone is counted.
pub(crate) fn commit(
    alloc: Global,
    world: &mut World,
    undone: &mut Count,
    stamps: &Stamps,
    held: Held,
    step: &Step,
    since: usize,
    count: usize,
) -> Result<Done, Held>
    requires range { IsTrue (in_range step.now) }
    requires fits { FitsStep step.now held }
    requires some { held ≢ Held.Empty }
    requires steady { KnowsVerbs held since count world.old.plain }
    requires fresh { KnowsFresh held count stamps.now world.old.plain }
    ensures ok { IfOk result (λ d. Committed world.old step.now held world.new d.outcome d.mark × (undone.new ≡ undone.old)) }
    ensures verbs { IfOk result (λ d. IsTrue d.leaves_verbs → SameVerbs world.old.plain world.new.plain) }
    ensures changes { IfOk result (λ d. world.new.plain ≡ apply_all d.changes world.old.plain) }
    ensures err { IfErr result (λ h. (h ≡ held) × IsUndone world.old undone.old world.new undone.new) }
{
    match held {
        Held::Empty => unreachable!(),
        Held::Loss => run(alloc, world, undone, Held::Loss, step, Mark::Lost),
        Held::Holds(guess, seen) => {
            world.know();
            if does_agree(world, stamps, &guess, seen, since, count) {
                keep(world, guess, seen)
            } else {
                let held = Held::Holds(guess, seen);
                run(alloc, world, undone, held, step, Mark::Rerun)
            }
        }
    }
}

// Whether a guess agrees with the world, at which it looks where the stamps do not tell.
fn does_agree(
    world: &World,
    stamps: &Stamps,
    guess: &Guess,
    seen: Option<usize>,
    since: usize,
    count: usize,
) -> bool
    requires steady { KnowsVerbs (Held.Holds guess.now seen) since count world.now.plain }
    requires fresh { KnowsFresh (Held.Holds guess.now seen) count stamps.now world.now.plain }
    ensures { IsTrue result ↔ Agrees world.now.plain guess.now.reads }
{
    if is_known(world, stamps, guess, seen, count) {
        return true;
    }
    guess.agrees_at(world, is_steady(seen, since, count))
}

// Whether a guess is known to agree with the world without a look at it.
#[inline(always)]
fn is_known(
    world: &World,
    stamps: &Stamps,
    guess: &Guess,
    seen: Option<usize>,
    count: usize,
) -> bool
    requires { KnowsFresh (Held.Holds guess.now seen) count stamps.now world.now.plain }
    ensures { IsTrue result → Agrees world.now.plain guess.now.reads }
{
    world.know();
    match seen {
        Some(seen) => seen <= count && guess.is_fresh(stamps, seen),
        None => false,
    }
}

// Whether no verb has changed since the steps that were committed when a guess was made.
fn is_steady(seen: Option<usize>, since: usize, count: usize) -> bool
    ensures { IsTrue result → IsWithin seen since count }
{
    match seen {
        Some(seen) => since <= seen && seen <= count,
        None => false,
    }
}

// A guess that agrees is kept.
fn keep(world: &mut World, guess: Guess, seen: Option<usize>) -> Result<Done, Held>
    requires agrees { Agrees world.old.plain guess.reads }
    requires sound { IsSound (after_guess guess world.old.plain) }
    ensures ok { IfOk result (λ d. (world.new ≡ record { plain = after_guess guess world.old.plain; opened = world.old.opened }) × (d.outcome ≡ guess.outcome) × (d.mark ≡ Mark.Kept)) }
    ensures verbs { IfOk result (λ d. IsTrue d.leaves_verbs → SameVerbs world.old.plain world.new.plain) }
    ensures changes { IfOk result (λ d. world.new.plain ≡ apply_all d.changes world.old.plain) }
    ensures err { IfErr result (λ h. (h ≡ Held.Holds guess seen) × (world.new ≡ world.old)) }
{
    let leaves_verbs = guess.leaves_verbs();
    match guess.keep(world) {
        Ok((outcome, changes, spent)) => Ok(Done {
            outcome,
            mark: Mark::Kept,
            leaves_verbs,
            changes,
            spent: Some(spent),
        }),
        Err(guess) => Err(Held::Holds(guess, seen)),
    }
}

// The step is run on the world, and its changes are made through a view that is opened on it.
fn run(
    alloc: Global,
    world: &mut World,
    undone: &mut Count,
    held: Held,
    step: &Step,
    mark: Mark,
) -> Result<Done, Held>
    requires { IsTrue (in_range step.now) }
    ensures ok { IfOk result (λ d. Ran world.old step.now world.new d.outcome × (d.mark ≡ mark) × (undone.new ≡ undone.old)) }
    ensures verbs { IfOk result (λ d. IsTrue d.leaves_verbs → SameVerbs world.old.plain world.new.plain) }
    ensures changes { IfOk result (λ d. world.new.plain ≡ apply_all d.changes world.old.plain) }
    ensures err { IfErr result (λ h. (h ≡ held) × IsUndone world.old undone.old world.new undone.new) }
{
    let mut room = Room::new(alloc);
    let Ok((outcome, changes, after)) = try_on(alloc, world, &mut room, step) else {
        return Err(held);
    };
    if put_through(world, &changes, after).is_err() {
        undone.tick();
        return Err(held);
    }
    Ok(Done {
        outcome,
        mark,
        leaves_verbs: leave_verbs(&changes),
        changes,
        spent: held.into_spent(),
    })
}

// The world has these changes, which these records have too, where they were made, through a view that is opened on it. After want of memory it is as it was,
// but for that view.
fn put_through(world: &mut World, changes: &Changes, after: Option<Draft>) -> Result<(), AllocError>
    requires sound { IsSound (apply_all changes.now world.old.plain) }
    requires after { IfSome after (λ d. d ≡ apply_all changes.now world.old.plain) }
    ensures ok { OnOk result (world.new.plain ≡ apply_all changes.now world.old.plain) }
    ensures err { OnErr result (world.new.plain ≡ world.old.plain) }
    ensures opened { world.new.opened ≡ world.old.opened + 1 }
{
    Live::open(world).keep_with(changes, after)
}
