//! The board of a list: one world, and what each position that is not committed yet holds.
ghost use Rattle.std.specs.Prelude.{◌≡◌, ◌≤◌, ◌<◌, ◌↔◌, ◌⊎◌, ◌≢◌, [], true, false, IsTrue, IsErrOf, IfOk, IfErr, IfSome, OnOk, OnErr, length, replicate, suc, ◌+◌, ◌^◌, if◌then◌else◌, Some, None, All, slice_get};
ghost use Rattle.spec_world.specs.Step.{RunsOn, AllInRange};
ghost use Rattle.speculate.specs.BoardState.{IsHonest, IsFree, opened_on, with_held, world_after};
ghost use Rattle.speculate.specs.Progress.{Commits, Advances, AdvancesInPart, IsNextHeld, StaysPut, SameRun, ready, rest, AllHeld};

use crate::commit::{Done, commit};
use crate::desk::Desk;
use crate::guesses::{Guess, Remains, Spent};
use crate::held::{Held, Mark, put_back, take_out};
use crate::list::MOST_WORKERS;
use crate::luck::Luck;
use crate::report::Report;
use crate::sight::{Sight, shared};
use crate::stamps::Stamps;
use std::alloc::{AllocError, Global};
use std::marker::Model;
use std::mem;
use std::snapshot::Snapshot as Remembered;
use task_step::list::may_play;
use task_step::outcome::Outcome;
use task_step::partial::Refusal;
use task_step::step::Step;
use view::changes::Changes;
use world::count::Count;
use world::worlds::{Snapshot, World};

// How many steps are guessed first, whatever comes of it.
const TRIED: usize = 4096;
// How many steps are run at once without guesses where these seldom hold.
const STRETCH: usize = 1024;
/// A list of steps under way. The steps are committed in their order: what is committed is what they do one after another.
#[derive(Drop)]
pub struct Board {
    base: Remembered<World>,
    steps: Vec<Step>,
    world: World,
    outcomes: Vec<Outcome>,
    marks: Vec<Mark>,
    held: Vec<Held>,
    undone: Count,
    // No verb has changed since so many steps were committed.
    since: usize,
    // What is left of the guesses of each worker that were committed, until it is handed out.
    remains: Vec<Vec<Remains>>,
    // How far ahead of what is committed a guess may be made, as far as is known.
    reach: usize,
    // Since when answers are what they are.
    stamps: Stamps,
    // Whether guesses hold, as far as is known.
    luck: Luck,
}

impl Model for Board {
    ghost use Rattle.std.specs.Prelude.{length};
    ghost use Rattle.speculate.specs.BoardState.{BoardState, IsHonest};
    ghost use Rattle.speculate.specs.BoardCode.{board_code};
    ghost use Rattle.speculate.specs.Known.{AreStamped};

    ghost Value = { BoardState };

    ghost coded = { board_code };

    ghost view = { λ b. record {
      base = b.base.value;
      steps = b.steps.items;
      world = b.world;
      outcomes = b.outcomes.items;
      marks = b.marks.items;
      held = b.held.items;
      undone = b.undone;
      since = b.since;
    } };

    ghost invariant = { λ b. IsHonest record {
      base = b.base.value;
      steps = b.steps.items;
      world = b.world;
      outcomes = b.outcomes.items;
      marks = b.marks.items;
      held = b.held.items;
      undone = b.undone;
      since = b.since;
    } × AreStamped b.base.value.plain b.steps.items (length b.outcomes.items) b.world.plain b.stamps };
}

/// Why a guess or a loss was refused.
#[derive(Clone, Copy, PartialEq, Eq, Debug)]
pub enum Refused {
    /// The list has no such position.
    Position,
    /// The position is committed, or holds a guess or a loss.
    Taken,
    /// The guess is for another step.
    Step,
}

impl Board {
    /// A board with nothing committed and nothing held. Refused are, in this order, steps whose numbers do not run on from the world's next
    /// one or that are out of range, and want of memory; the world is handed back as it was.
    pub fn new(alloc: Global, world: World, steps: Vec<Step>) -> Result<Board, (Refusal, World)>
        ensures ok { IfOk result (λ b. b ≡ opened_on world steps.items) }
        ensures err { IfErr result (λ e. e.1 ≡ world) }
        ensures right { IfOk result (λ b. RunsOn world.plain steps.items × AllInRange steps.items) }
        ensures numbers { IfErr result (λ e. e.0 ≡ Refusal.Numbers ↔ ¬ (RunsOn world.plain steps.items × AllInRange steps.items)) }
        ensures memory { IfErr result (λ e. e.0 ≢ Refusal.Workers) }
    {
        world.know();
        if !may_play(world.next(), steps.as_slice()) {
            return Err((Refusal::Numbers, world));
        }
        match places(alloc, steps.len()) {
            Ok((outcomes, marks, held)) => Ok(Board {
                base: Remembered::of(&world),
                steps,
                world,
                outcomes,
                marks,
                held,
                undone: Count::zero(),
                since: 0,
                remains: none_left(alloc),
                reach: 0,
                stamps: Stamps::new(alloc),
                luck: Luck::new(),
            }),
            Err(_) => Err((Refusal::Memory, world)),
        }
    }

    /// The world after the steps that are committed.
    pub fn snapshot(&self) -> Result<Snapshot, AllocError>
        ensures { IfOk result (λ s. s ≡ self.now.world.plain) }
    {
        self.world.snapshot()
    }

    /// How many steps are committed.
    pub fn count(&self) -> usize
        ensures count { result ≡ length self.now.outcomes }
        ensures honest { IsHonest self.now }
    {
        self.outcomes.len()
    }

    // Whether a position is not committed yet and holds nothing.
    fn is_free(&self, position: usize) -> bool
        ensures { IsTrue result ↔ IsFree self.now position }
    {
        if position < self.outcomes.len() {
            return false;
        }
        match self.held.get(position) {
            Some(held) => held.is_empty(),
            None => false,
        }
    }

    // Whether a guess is for the step at a position.
    fn is_for(&self, position: usize, guess: &Guess) -> bool
        ensures { IsTrue result ↔ slice_get self.now.steps position ≡ Some guess.now.step }
    {
        match self.steps.get(position) {
            Some(step) => guess.is_for(step),
            None => false,
        }
    }

    /// A guess for the step at a position that holds nothing yet. A refused one is handed back, and the board is as it was.
    pub fn post(&mut self, position: usize, guess: Guess) -> Result<(), (Refused, Guess)>
        ensures ok { OnOk result (IsFree self.old position × (slice_get self.old.steps position ≡ Some guess.step) × (self.new ≡ with_held self.old position (Held.Holds guess None))) }
        ensures err { IfErr result (λ e. (self.new ≡ self.old) × (e.1 ≡ guess)) }
        ensures position { IfErr result (λ e. e.0 ≡ Refused.Position ↔ length self.old.steps ≤ position) }
        ensures taken { IfErr result (λ e. e.0 ≡ Refused.Taken ↔ (position < length self.old.steps) × (¬ IsFree self.old position)) }
        ensures step { IfErr result (λ e. e.0 ≡ Refused.Step ↔ IsFree self.old position × (¬ (slice_get self.old.steps position ≡ Some guess.step))) }
    {
        if position >= self.steps.len() {
            return Err((Refused::Position, guess));
        }
        if !self.is_free(position) {
            return Err((Refused::Taken, guess));
        }
        if !self.is_for(position, &guess) {
            return Err((Refused::Step, guess));
        }
        guess.know();
        self.held[position] = Held::Holds(guess, None);
        Ok(())
    }

    /// No guess comes for a position that holds nothing yet. Where it is refused, the board is as it was.
    pub fn lose(&mut self, position: usize) -> Result<(), Refused>
        ensures ok { OnOk result (IsFree self.old position × (self.new ≡ with_held self.old position Held.Loss)) }
        ensures err { OnErr result (self.new ≡ self.old) }
        ensures position { IsErrOf result Refused.Position ↔ length self.old.steps ≤ position }
        ensures taken { IsErrOf result Refused.Taken ↔ (position < length self.old.steps) × (¬ IsFree self.old position) }
        ensures step { ¬ IsErrOf result Refused.Step }
        ensures after { ¬ IsFree self.new position }
    {
        if position >= self.steps.len() {
            return Err(Refused::Position);
        }
        if !self.is_free(position) {
            return Err(Refused::Taken);
        }
        self.held[position] = Held::Loss;
        Ok(())
    }

    // Whether the next position holds something.
    #[tactic(auto, using(crate::proofs::Places::ready_past_end, crate::proofs::Places::ready_empty))]
    fn is_next_held(&self) -> bool
        ensures no { result ≡ false → ready (rest self.now) ≡ 0 }
        ensures yes { result ≡ true → IsNextHeld self.now }
    {
        match self.held.get(self.outcomes.len()) {
            Some(held) => !held.is_empty(),
            None => false,
        }
    }

    // Commits the next position, which holds something.
    fn commit_held(&mut self, alloc: Global) -> Result<(), AllocError>
        requires { IsNextHeld self.old }
        ensures ok { OnOk result (Commits self.old self.new) }
        ensures err { OnErr result (StaysPut self.old self.new) }
    {
        let at = self.outcomes.len();
        if self.outcomes.reserve(1).is_err() {
            return Err(AllocError);
        }
        if self.marks.reserve(1).is_err() {
            return Err(AllocError);
        }
        let held = take_out(&mut self.held, at);
        let distance = held.distance(at);
        match commit(
            alloc,
            &mut self.world,
            &mut self.undone,
            &self.stamps,
            held,
            &self.steps[at],
            self.since,
            at,
        ) {
            Ok(done) => {
                let Done {
                    outcome,
                    mark,
                    leaves_verbs,
                    changes,
                    spent,
                } = done;
                self.outcomes.push_reserved(outcome);
                self.marks.push_reserved(mark);
                self.since = since_after(leaves_verbs, self.since, at);
                self.stamps.stamp(changes.as_slice(), at + 1);
                keep_remains(&mut self.remains, changes, spent);
                self.reach = reach_after(self.reach, mark, distance);
                self.luck.see(mark);
                Ok(())
            }
            Err(held) => {
                put_back(&mut self.held, at, held);
                Err(AllocError)
            }
        }
    }

    // Commits the next position, if it holds something.
    fn commit_next(&mut self, alloc: Global) -> Result<bool, AllocError>
        ensures stuck { IfOk result (λ b. b ≡ false → (self.new ≡ self.old) × (ready (rest self.old) ≡ 0)) }
        ensures done { IfOk result (λ b. b ≡ true → Commits self.old self.new) }
        ensures err { OnErr result (StaysPut self.old self.new) }
    {
        if !self.is_next_held() {
            return Ok(false);
        }
        match self.commit_held(alloc) {
            Ok(()) => Ok(true),
            Err(error) => Err(error),
        }
    }

    /// Commits from the next position on, as far as each holds a guess or a loss, and answers how many. After want of memory what was
    /// committed stands.
    pub fn advance(&mut self, alloc: Global) -> Result<usize, AllocError>
        ensures ok { IfOk result (λ k. (k ≡ ready (rest self.old)) × Advances k self.old self.new) }
        ensures err { OnErr result (AdvancesInPart self.old self.new) }
        ensures same { (self.new.base ≡ self.old.base) × (self.new.steps ≡ self.old.steps) }
        ensures honest { IsHonest self.new }
    {
        let from = self.count();
        'next: while self.commit_next(alloc)? {}
        Ok(self.count() - from)
    }

    // Posts a guess that was found on the world after so many steps. One that is refused is let go.
    fn post_seen(&mut self, position: usize, guess: Guess, seen: usize) -> bool
        requires { guess.before ≡ world_after self.old.base.plain self.old.steps seen }
        ensures { (self.new.base ≡ self.old.base) × (self.new.steps ≡ self.old.steps) }
    {
        if !self.is_free(position) {
            return false;
        }
        if !self.is_for(position, &guess) {
            return false;
        }
        guess.know();
        self.held[position] = Held::Holds(guess, Some(seen));
        true
    }

    // Posts guesses, each with its position, that were found on the world after so many steps.
    fn post_all(&mut self, mut found: Vec<(usize, Guess)>, seen: usize)
        requires { All (λ f. f.1.before ≡ world_after self.old.base.plain self.old.steps seen) found.items }
        ensures { (self.new.base ≡ self.old.base) × (self.new.steps ≡ self.old.steps) }
    {
        'found: while let Some((position, guess)) = found.pop() {
            let _ = self.post_seen(position, guess, seen);
        }
    }

    // Loses each position from the first up to the end that holds nothing.
    fn lose_free(&mut self, first: usize, end: usize)
        ensures { (self.new.base ≡ self.old.base) × (self.new.steps ≡ self.old.steps) }
    {
        'at: for at in first..end {
            self.fill(at);
        }
    }

    /// Posts guesses, each with its position, and the number of steps that were committed when they were made; from the first position up to the end it
    /// loses what holds nothing then. Then it commits as far as each position holds something, and where guesses seldom hold a stretch of what follows, without
    /// guesses. Want of memory is no answer, since what is left is committed at the end. It hands out what is left of the worker's guesses.
    pub(crate) fn hand_in_all(
        &mut self,
        alloc: Global,
        desk: &mut Desk,
        first: usize,
        end: usize,
        found: Vec<(usize, Guess)>,
        seen: usize,
    )
        requires { All (λ f. f.1.before ≡ world_after self.old.base.plain self.old.steps seen) found.items }
        ensures { (self.new.base ≡ self.old.base) × (self.new.steps ≡ self.old.steps) }
    {
        self.post_all(found, seen);
        self.lose_free(first, end);
        let _ = self.advance(alloc);
        if !self.is_hopeful() {
            self.play_stretch(alloc);
        }
        self.hand_out(desk);
    }

    // A worker has what is left of its guesses, in place of an empty list.
    fn hand_out(&mut self, desk: &mut Desk)
        ensures { self.new ≡ self.old }
    {
        if desk.who < self.remains.len() {
            mem::swap(&mut self.remains[desk.who], &mut desk.remains);
        }
    }

    // Loses what holds nothing of a stretch of positions that are not committed yet, and commits it.
    fn play_stretch(&mut self, alloc: Global)
        ensures { (self.new.base ≡ self.old.base) × (self.new.steps ≡ self.old.steps) }
    {
        let from = self.count();
        let end = from.saturating_add(STRETCH).min(self.steps.len());
        self.lose_free(from, end);
        let _ = self.advance(alloc);
        self.luck = Luck::new();
    }

    /// What a worker sees that is to go so far ahead of what is committed, and farther where guesses held so far ahead. None after want of memory.
    pub(crate) fn sight(&self, alloc: Global, ahead: usize) -> Option<Sight>
        ensures { IfSome result (λ s. s.snapshot ≡ world_after self.now.base.plain self.now.steps s.count) }
    {
        let count = self.count();
        let Ok(snapshot) = shared(alloc, &self.world) else {
            return None;
        };
        let limit = count.saturating_add(ahead.max(self.reach));
        Some(Sight {
            snapshot,
            count,
            limit,
        })
    }

    // Whether guesses are worth their while: the list is young, or of the last guesses not less than every fourth was kept.
    fn is_hopeful(&self) -> bool {
        self.marks.len() < TRIED || self.luck.is_good()
    }

    /// Loses each position that is not committed yet and holds nothing.
    pub(crate) fn lose_rest(&mut self)
        ensures same { SameRun self.old self.new }
        ensures full { AllHeld (rest self.new) }
        ensures honest { IsHonest self.new }
    {
        let from = self.count();
        let end = self.steps.len();
        'rest: for at in from..end {
            self.fill(at);
        }
        let _ = self.count();
    }

    // Loses a position, if it is free.
    fn fill(&mut self, at: usize)
        ensures one { (self.new ≡ self.old) ⊎ (self.new ≡ with_held self.old at Held.Loss) }
        ensures after { ¬ IsFree self.new at }
    {
        match self.lose(at) {
            Ok(()) => {}
            Err(_) => {}
        }
    }

    /// The world, the outcomes and the marks of what is committed.
    pub fn take(self) -> Report
        ensures world { result.world ≡ self.world }
        ensures outcomes { result.outcomes.items ≡ self.outcomes }
        ensures marks { result.marks.items ≡ self.marks }
    {
        let Board {
            base: _,
            steps: _,
            world,
            outcomes,
            marks,
            held: _,
            undone: _,
            since: _,
            remains: _,
            reach: _,
            stamps: _,
            luck: _,
        } = self;
        Report {
            world,
            outcomes,
            marks,
        }
    }
}

// How far ahead guesses may be made, once one from this distance came so: a quarter farther than the farthest that was kept, and no farther than the last that
// was not.
fn reach_after(reach: usize, mark: Mark, distance: usize) -> usize {
    match mark {
        Mark::Kept => reach.max(distance.saturating_add(distance / 4)),
        Mark::Rerun => reach.min(distance),
        Mark::Lost => reach,
    }
}

// Keeps what is left of a guess for its maker, if there is memory for it.
fn keep_remains(all: &mut Vec<Vec<Remains>>, changes: Changes, spent: Option<Spent>) {
    if let Some(spent) = spent
        && spent.maker < all.len()
    {
        let own = &mut all[spent.maker];
        if own.reserve(1).is_ok() {
            own.push_reserved(spent.with(changes));
        }
    }
}

// Nothing is left of the guesses of any worker. After want of memory nothing is kept.
fn none_left(alloc: Global) -> Vec<Vec<Remains>> {
    let mut all = Vec::new(alloc);
    for _ in 0..MOST_WORKERS {
        if all.reserve(1).is_ok() {
            all.push_reserved(Vec::new(alloc));
        }
    }
    all
}

// Room for the outcomes and the marks, and the positions, which hold nothing.
fn places(alloc: Global, count: usize) -> Result<(Vec<Outcome>, Vec<Mark>, Vec<Held>), AllocError>
    ensures { IfOk result (λ r. (r.0.items ≡ []) × (r.1.items ≡ []) × (r.2.items ≡ replicate count Held.Empty)) }
{
    Ok((
        Vec::with_capacity(alloc, count)?,
        Vec::with_capacity(alloc, count)?,
        empties(alloc, count)?,
    ))
}

fn empties(alloc: Global, count: usize) -> Result<Vec<Held>, AllocError>
    ensures { IfOk result (λ v. v.items ≡ replicate count Held.Empty) }
{
    let mut held = Vec::with_capacity(alloc, count)?;
    for _ in 0..count {
        held.push(Held::Empty)?;
    }
    Ok(held)
}

// Since how many steps no verb has changed, once the step at a position is committed.
fn since_after(leaves_verbs: bool, since: usize, at: usize) -> usize
    requires { at + 1 < 2 ^ 64 }
    ensures { result ≡ (if leaves_verbs then since else suc at) }
{
    if leaves_verbs { since } else { at + 1 }
}
