//! Whether guesses are worth their while.
use crate::held::Mark;

// Of so many guesses at least, and half as many at most, it is known how many were kept.
const KNOWN: usize = 128;

/// How many of the last guesses were kept, and how many were not.
#[derive(Drop)]
pub(crate) struct Luck {
    kept: usize,
    rerun: usize,
}

impl Luck {
    /// Nothing is known.
    pub(crate) fn new() -> Luck {
        Luck { kept: 0, rerun: 0 }
    }

    /// One step more.
    #[inline(always)]
    pub(crate) fn see(&mut self, mark: Mark) {
        match mark {
            Mark::Kept => self.kept = self.kept.saturating_add(1),
            Mark::Rerun => self.rerun = self.rerun.saturating_add(1),
            Mark::Lost => {}
        }
        if self.kept.saturating_add(self.rerun) >= KNOWN {
            self.kept /= 2;
            self.rerun /= 2;
        }
    }

    /// Whether not less than every fourth was kept.
    #[inline(always)]
    pub(crate) fn is_good(&self) -> bool {
        self.rerun <= self.kept.saturating_mul(3)
    }
}

/// Whether lanes are worth another try: after each that failed they are left alone for more stretches.
#[derive(Drop)]
pub(crate) struct Hope {
    wait: u32,
    next_wait: u32,
}

// For so many stretches at most.
const LONGEST_WAIT: u32 = 64;

impl Hope {
    /// Nothing has failed.
    pub(crate) fn new() -> Hope {
        Hope {
            wait: 0,
            next_wait: 1,
        }
    }

    /// Whether they are to be tried in the next stretch.
    pub(crate) fn is_there(&mut self) -> bool {
        if self.wait == 0 {
            return true;
        }
        self.wait -= 1;
        false
    }

    /// They failed.
    pub(crate) fn lose(&mut self) {
        self.wait = self.next_wait;
        self.next_wait = self.next_wait.saturating_mul(2).min(LONGEST_WAIT);
    }

    /// They did not fail.
    pub(crate) fn win(&mut self) {
        self.next_wait = 1;
    }
}
