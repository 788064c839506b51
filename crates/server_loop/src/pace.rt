//! How long lists are expected to take, and how long the loop looks for more behind one.
use task_step::outcome::Outcome;

/// The ticks from which on a list is worth several workers: starting their threads takes about as long.
const WORTH_WORKERS: u64 = 5000;

/// How many times the mean so far counts beside that of a new list.
const WEIGHT: u64 = 7;

/// The most steps of a list behind which the loop looks for more before it waits. Behind a longer one it waits at once: what comes meanwhile makes the next
/// list a long one too, which costs less a step.
const FEW_STEPS: usize = 2;

/// How many times it looks. A client that answers at once is then not waited for: waking the loop takes about as long as some ten of these looks.
const LOOKS: u32 = 64;

/// How many ticks a step took lately, and how many times more the loop looks before it waits.
#[derive(Clone, Copy, Debug)]
pub struct Pace {
    mean: u64,
    looks: u32,
}

impl Pace {
    /// Nothing was run yet.
    pub fn new() -> Pace {
        Pace { mean: 0, looks: 0 }
    }

    /// Whether so many steps are expected to be worth several workers.
    pub fn is_long(&self, steps: usize) -> bool {
        (steps as u64).saturating_mul(self.mean) >= WORTH_WORKERS
    }

    /// Learns from the outcomes of a list.
    pub fn learn(&mut self, outcomes: &[Outcome]) {
        let mut sum = 0u64;
        'outcome: for outcome in outcomes {
            sum = sum.saturating_add(u64::from(outcome.ticks));
        }
        let mean = sum / (outcomes.len() as u64).max(1);
        self.mean = self.mean.saturating_mul(WEIGHT).saturating_add(mean) / (WEIGHT + 1);
        self.looks = if outcomes.len() <= FEW_STEPS {
            LOOKS
        } else {
            0
        };
    }

    /// Whether the loop looks once more before it waits.
    pub fn looks_again(&mut self) -> bool {
        let looks = self.looks > 0;
        self.looks = self.looks.saturating_sub(1);
        looks
    }
}
