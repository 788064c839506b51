//! The board of one list, under a lock.
ghost use Rattle.std.specs.Prelude.{◌≡◌, All, IfSome};
ghost use Rattle.std.specs.Coded.{Coded-set, coded_list};
ghost use Rattle.spec_world.specs.StepCode.{step_code};
ghost use Rattle.world.specs.Counted.{counted_code};
ghost use Rattle.speculate.specs.BoardState.{world_after};

use crate::board::Board;
use crate::desk::Desk;
use crate::guesses::Guess;
use crate::sight::Sight;
use std::alloc::Global;
use std::hint::spin_loop;
use std::marker::{Brand, PhantomData};
use std::sync::{Mutex, MutexGuard, Wait};
use std::thread::yield_now;

// How often the lock is tried before other threads are let run, and how often then before a thread sleeps; and how long it is left alone between two tries.
const TRIES: usize = 256;

const YIELDS: usize = 4096;

const PAUSES: usize = 8;

/// Which list is played: the world that it began with, and its steps. Each call that plays one picks it.
pub trait Run: Send + Sync {
    ghost use Rattle.std.specs.Prelude.{List};
    ghost use Rattle.spec_world.specs.Step.{Step as Meant};
    ghost use Rattle.world.specs.Counted.{Counted};

    ghost base: { Counted };

    ghost steps: { List Meant };
}

impl Run for Brand {
    ghost use Rattle.std.specs.Prelude.{[], negsuc, false};

    ghost base = { record { plain = record { objects = []; tasks = []; links = []; greatest = negsuc 0; next = 1; ending = false }; opened = 0 } };

    ghost steps = { [] };
}

// A board of the list `J`.
#[derive(Drop)]
struct Tied<J: Run> {
    board: Board,
    of: PhantomData<J>,
    ghost base_is: { board.base ≡ J.base } by { Coded-set counted_code _ _ },
    ghost steps_are: { board.steps ≡ J.steps } by { Coded-set (coded_list step_code) _ _ },
}

/// The board of the list `J`, for several workers. Whenever it is got it is honest, and of this list.
#[derive(Drop)]
pub struct SharedBoard<J: Run> {
    board: Mutex<Tied<J>>,
}

impl<J: Run> SharedBoard<J> {
    /// Puts the board of the list under a lock.
    pub fn new(board: Board) -> SharedBoard<J>
        requires base { board.base ≡ J.base }
        requires steps { board.steps ≡ J.steps }
    {
        SharedBoard {
            board: Mutex::new(Tied {
                board,
                of: PhantomData,
            }),
        }
    }

    // The board, as soon as nobody else has it. Who has it gives it back soon, so it is tried for a while before the thread sleeps.
    #[inline(never)]
    fn lock<R: Wait>(&self, rt: &R) -> MutexGuard<'_, Tied<J>> {
        for _ in 0..TRIES {
            if let Some(tied) = self.board.try_lock() {
                return tied;
            }
            pause();
        }
        for _ in 0..YIELDS {
            if let Some(tied) = self.board.try_lock() {
                return tied;
            }
            yield_now();
        }
        self.board.lock(rt)
    }

    /// What a worker sees of the board. None after want of memory.
    pub fn look<R: Wait>(&self, rt: &R, alloc: Global, ahead: usize) -> Option<Sight>
        ensures { IfSome result (λ s. s.snapshot ≡ world_after J.base.plain J.steps s.count) }
    {
        let tied = self.lock(rt);
        tied.board.sight(alloc, ahead)
    }

    /// Posts guesses, each with its position, and the number of steps that were committed when they were made, and loses what holds nothing then from the
    /// first position up to the end. Then it commits as far as each position holds something, and looks at the board again.
    pub(crate) fn hand_in<R: Wait>(
        &self,
        rt: &R,
        alloc: Global,
        desk: &mut Desk,
        first: usize,
        end: usize,
        found: Vec<(usize, Guess)>,
        seen: usize,
        ahead: usize,
    ) -> Option<Sight>
        requires { All (λ f. f.1.before ≡ world_after J.base.plain J.steps seen) found.items }
        ensures { IfSome result (λ s. s.snapshot ≡ world_after J.base.plain J.steps s.count) }
    {
        let sight = self.hand_in_locked(rt, alloc, desk, first, end, found, seen, ahead);
        desk.remains.clear();
        sight
    }

    // The same. What is left of the worker's guesses that are committed lies on its desk then, so that it is let go when the lock is free again.
    #[inline(always)]
    fn hand_in_locked<R: Wait>(
        &self,
        rt: &R,
        alloc: Global,
        desk: &mut Desk,
        first: usize,
        end: usize,
        found: Vec<(usize, Guess)>,
        seen: usize,
        ahead: usize,
    ) -> Option<Sight>
        requires { All (λ f. f.1.before ≡ world_after J.base.plain J.steps seen) found.items }
        ensures { IfSome result (λ s. s.snapshot ≡ world_after J.base.plain J.steps s.count) }
    {
        let mut tied = self.lock(rt);
        tied.board.hand_in_all(alloc, desk, first, end, found, seen);
        tied.board.sight(alloc, ahead)
    }

    /// The board, when no worker has it any more.
    pub fn into_board(self) -> Board
        ensures base { result.base ≡ J.base }
        ensures steps { result.steps ≡ J.steps }
    {
        let SharedBoard { board } = self;
        board.into_inner().board
    }
}

// Leaves the lock alone for a moment.
fn pause() {
    for _ in 0..PAUSES {
        spin_loop();
    }
}
