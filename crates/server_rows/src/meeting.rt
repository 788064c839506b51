//! Two that have to meet: each waits for the other, for so many turns at most; and a gate at which two workers do.
use speculate::gate::Gate;
use speculate::guesses::Guess;
use speculate::guessing::guess;
use std::alloc::{AllocError, Global};
use std::hint;
use std::sync::atomic::{AtomicBool, AtomicU64, Ordering};
use task_step::step::Step;
use world::shared::SharedSnapshot;

/// How many turns one waits for the other.
const TURNS: u64 = 10_000_000;

/// The first waits, after it has begun, until the second has answered, which waits until the first has begun.
#[derive(Drop)]
pub struct Meeting {
    begun: AtomicBool,
    answered: AtomicBool,
    missed: AtomicBool,
}

impl Meeting {
    /// Nobody has come yet.
    pub fn new() -> Meeting {
        Meeting {
            begun: AtomicBool::new(false),
            answered: AtomicBool::new(false),
            missed: AtomicBool::new(false),
        }
    }

    /// The first begins, and waits for the answer of the second.
    pub fn begin(&self) {
        self.begun.store(true, Ordering::SeqCst);
        self.wait_for(&self.answered);
    }

    /// The second waits until the first has begun.
    pub fn wait(&self) {
        self.wait_for(&self.begun);
    }

    /// The second has answered.
    pub fn answer(&self) {
        self.answered.store(true, Ordering::SeqCst);
    }

    /// Whether both came, and neither waited in vain.
    pub fn was_held(&self) -> bool {
        self.begun.load(Ordering::SeqCst)
            && self.answered.load(Ordering::SeqCst)
            && !self.missed.load(Ordering::SeqCst)
    }

    fn wait_for(&self, flag: &AtomicBool) {
        for _ in 0..TURNS {
            if flag.load(Ordering::SeqCst) {
                return;
            }
            hint::spin_loop();
        }
        self.missed.store(true, Ordering::SeqCst);
    }
}

/// The guess of position 0 waits until that of position 1 has its answer, which waits until that of position 0 has begun.
#[derive(Drop)]
pub struct MeetingGate {
    meeting: Meeting,
    calls: AtomicU64,
    refuses: bool,
}

impl MeetingGate {
    /// A gate that answers want of memory to position 1, or does not.
    pub fn new(refuses: bool) -> MeetingGate {
        MeetingGate {
            meeting: Meeting::new(),
            calls: AtomicU64::new(0),
            refuses,
        }
    }

    /// Whether both workers met.
    pub fn was_held(&self) -> bool {
        self.meeting.was_held()
    }

    /// How many guesses were asked for.
    pub fn calls(&self) -> u64 {
        self.calls.load(Ordering::SeqCst)
    }
}

impl Gate for MeetingGate {
    fn guess(
        &self,
        alloc: Global,
        position: usize,
        snapshot: &SharedSnapshot,
        step: &Step,
    ) -> Result<Guess, AllocError> {
        self.calls.fetch_add(1, Ordering::SeqCst);
        match position {
            0 => {
                self.meeting.begin();
                guess(alloc, snapshot, step)
            }
            1 => {
                self.meeting.wait();
                let answer = guess(alloc, snapshot, step);
                self.meeting.answer();
                if self.refuses {
                    Err(AllocError)
                } else {
                    answer
                }
            }
            _ => guess(alloc, snapshot, step),
        }
    }
}
