//! Guesses.
ghost use Rattle.std.specs.Prelude.{◌≡◌, ◌↔◌, ◌+◌, map, IsTrue, IfOk, IfErr};
ghost use Rattle.spec_world.specs.World.{World as Plain};
ghost use Rattle.spec_world.specs.Questions.{Question as Asked, ask, Agrees, apply_all};
ghost use Rattle.view.specs.Sound.{IsSound};
ghost use Rattle.view.specs.Meanings.{change_of};
ghost use Rattle.speculate.specs.Fresh.{IsFresh};
ghost use Rattle.speculate.specs.Right.{IsRight, after_guess};
ghost use Rattle.speculate.specs.Verbs.{SameVerbs, leaves_verbs as leaves_verbs_of, all_leave_verbs as all_leave};

use crate::slots_read::SlotsRead;
use crate::stamps::Stamps;
use std::marker::Model;
use std::snapshot::Snapshot as Remembered;
use task_step::outcome::Outcome;
use task_step::step::Step;
use view::change::Change;
use view::changes::Changes;
use view::part::Part;
use world::seen::Seen;
use world::shared::SharedSnapshot;
use world::worlds::World;

/// What a step reads, changes and answers, found on a snapshot. It is so on each world that gives the answers that were read.
#[derive(Drop)]
pub struct Guess {
    pub(crate) step: Step,
    pub(crate) reads: Seen,
    pub(crate) changes: Changes,
    pub(crate) outcome: Outcome,
    // The objects on which slots were asked for.
    pub(crate) slots: SlotsRead,
    // The worker that made it.
    pub(crate) maker: usize,
    // The world on which it was found.
    pub(crate) before: Remembered<SharedSnapshot>,
}

/// What is left of a guess whose step is committed, to be let go where nobody waits for it. Its changes are there, unless they were made.
#[derive(Drop)]
pub(crate) struct Spent {
    step: Step,
    reads: Seen,
    stale: Option<Changes>,
    pub(crate) maker: usize,
}

/// What is left of a guess whose step is committed, and the changes that were made.
#[derive(Drop)]
pub(crate) struct Remains {
    changes: Changes,
    step: Step,
    reads: Seen,
    stale: Option<Changes>,
}

impl Spent {
    /// The same with the changes that were made.
    pub(crate) fn with(self, changes: Changes) -> Remains {
        let Spent {
            step,
            reads,
            stale,
            maker: _,
        } = self;
        Remains {
            changes,
            step,
            reads,
            stale,
        }
    }
}

impl Model for Guess {
    ghost use Rattle.spec_world.specs.Questions.{Agrees};
    ghost use Rattle.speculate.specs.Fresh.{Covers};
    ghost use Rattle.speculate.specs.Right.{Guessed, guessed_code, IsRight};

    ghost Value = { Guessed };

    ghost coded = { guessed_code };

    ghost view = { λ g. record { step = g.step; reads = g.reads; changes = g.changes; outcome = g.outcome; before = g.before.value } };

    ghost invariant = { λ g. IsRight record { step = g.step; reads = g.reads; changes = g.changes; outcome = g.outcome; before = g.before.value }
        × Agrees g.before.value g.reads × Covers g.before.value g.reads g.slots };
}

impl Guess {
    /// A guess is right, and the world on which it was found agrees with it.
    pub fn know(&self)
        ensures right { IsRight self.now }
        ensures agrees { Agrees self.now.before self.now.reads }
    {
        let _step = &self.step;
    }

    /// Whether it is a guess for this step.
    pub fn is_for(&self, step: &Step) -> bool
        ensures { IsTrue result ↔ self.now.step ≡ step.now }
    {
        self.step.same(step)
    }

    /// Whether the world gives the answers that were read.
    pub fn agrees(&self, world: &World) -> bool
        ensures { IsTrue result ↔ Agrees world.now.plain self.now.reads }
    {
        world.agrees(&self.reads)
    }

    /// The same, where the verbs may be known to be those of the world on which it was found: programs need not be compared then. Else they are compared
    /// last.
    #[tactic(auto, using(crate::proofs::Verbs::agrees_by_rest, crate::proofs::Verbs::rest_agrees))]
    pub(crate) fn agrees_at(&self, world: &World, has_same_verbs: bool) -> bool
        requires { IsTrue has_same_verbs → SameVerbs self.now.before world.now.plain }
        ensures { IsTrue result ↔ Agrees world.now.plain self.now.reads }
    {
        self.know();
        if !world.agrees_besides(&self.reads) {
            return false;
        }
        has_same_verbs || world.agrees(&self.reads)
    }

    /// Whether it agrees with each sound world that answers all that is fresh since so many steps as the one on which it was found. It looks at no world.
    #[inline(always)]
    #[tactic(auto, using(crate::proofs::Stamped::fresh_agrees))]
    pub(crate) fn is_fresh(&self, stamps: &Stamps, seen: usize) -> bool
        ensures { IsTrue result → (w : Plain) → IsSound w → ((q : Asked) → IsFresh stamps.now q seen → ask w q ≡ ask self.now.before q) → Agrees w self.now.reads }
    {
        stamps.cover(&self.slots, seen)
    }

    /// Whether none of its changes is to verbs.
    pub(crate) fn leaves_verbs(&self) -> bool
        ensures { IsTrue result → (w : Plain) → SameVerbs w (after_guess self.now w) }
    {
        leave_verbs(&self.changes)
    }

    /// The world has the changes, which come with what is left of the guess, and the guess's outcome is the step's. After want of memory nothing has changed.
    pub(crate) fn keep(self, world: &mut World) -> Result<(Outcome, Changes, Spent), Guess>
        requires agrees { Agrees world.old.plain self.reads }
        requires sound { IsSound (after_guess self world.old.plain) }
        ensures ok { IfOk result (λ r. (world.new ≡ record { plain = after_guess self world.old.plain; opened = world.old.opened }) × (r.0 ≡ self.outcome)) }
        ensures changes { IfOk result (λ r. r.1 ≡ self.changes) }
        ensures err { IfErr result (λ g. (g ≡ self) × (world.new ≡ world.old)) }
    {
        if world.change(&self.changes).is_err() {
            return Err(self);
        }
        let Guess {
            step,
            reads,
            changes,
            outcome,
            slots: _,
            maker,
            before: _,
        } = self;
        let spent = Spent {
            step,
            reads,
            stale: None,
            maker,
        };
        Ok((outcome, changes, spent))
    }

    /// What is left of a guess that is not kept.
    pub(crate) fn into_spent(self) -> Spent {
        let Guess {
            step,
            reads,
            changes,
            outcome: _,
            slots: _,
            maker,
            before: _,
        } = self;
        Spent {
            step,
            reads,
            stale: Some(changes),
            maker,
        }
    }
}

/// Whether none of the changes is to verbs.
#[tactic(auto, using(crate::proofs::Verbs::verbs_stay))]
pub(crate) fn leave_verbs(changes: &Changes) -> bool
    ensures { IsTrue result → (w : Plain) → SameVerbs w (apply_all changes.now w) }
{
    all_leave_verbs(changes.as_slice())
}

// Whether no change is to verbs.
fn all_leave_verbs(changes: &[Change]) -> bool
    ensures { IsTrue result → IsTrue (all_leave (map change_of changes.now)) }
{
    for change in changes {
        if !leaves_verbs(change) {
            return false;
        }
    }
    true
}

fn leaves_verbs(change: &Change) -> bool
    ensures { result ≡ leaves_verbs_of (change_of change.now) }
{
    match change {
        Change::Part(_, Part::Verbs(_)) => false,
        Change::Object(_, _) => false,
        _ => true,
    }
}
