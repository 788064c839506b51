//! Lines in few bytes: most are the same as the one before.

ghost use Rattle.std.specs.Prelude.{◌≡◌, ◌∷◌, [], OnOk};
ghost use Rattle.reader_frames.specs.ListView.{Takes};

use crate::list::{put, take};
use std::alloc::{AllocError, Global};
use std::marker::Model;

// A line, and how many times more.
#[derive(Clone, Copy)]
struct Run {
    line: u64,
    more: u64,
}

/// Lines, the newest first.
#[derive(Drop)]
pub struct Lines {
    // The newest ones are this line, so many times.
    line: u64,
    count: u64,
    // These have the newest last.
    older: Vec<Run>,
}

impl Model for Lines {
    ghost use Rattle.std.specs.Prelude.{ℕ, List, ◌++◌, replicate, reverse};
    ghost use Rattle.reader_frames.specs.LinesView.{lines_in};

    ghost Value = { List ℕ };

    ghost view = { λ a. replicate a.count a.line ++ lines_in (reverse a.older.items) };
}

impl Lines {
    /// No lines.
    pub fn none(alloc: Global) -> Lines
        ensures { result ≡ [] }
    {
        Lines {
            line: 0,
            count: 0,
            older: Vec::new(alloc),
        }
    }

    // Another line than the newest ones.
    #[inline(never)]
    fn push_other(&mut self, line: u64) -> Result<(), AllocError>
        ensures { OnOk result (self.new ≡ line ∷ self.old) }
    {
        if 0 < self.count {
            let run = Run {
                line: self.line,
                more: self.count - 1,
            };
            put(&mut self.older, run)?;
        }
        self.line = line;
        self.count = 1;
        Ok(())
    }

    /// One more line.
    #[inline(always)]
    pub fn push(&mut self, line: u64) -> Result<(), AllocError>
        ensures { OnOk result (self.new ≡ line ∷ self.old) }
    {
        if line == self.line && self.count < u64::MAX {
            self.count += 1;
            return Ok(());
        }
        self.push_other(line)
    }

    /// Takes the newest line.
    #[inline(always)]
    pub fn pop(&mut self) -> Option<u64>
        ensures { Takes self.old result self.new }
    {
        if 0 < self.count {
            self.count -= 1;
            return Some(self.line);
        }
        let run = take(&mut self.older)?;
        self.line = run.line;
        self.count = run.more;
        Some(run.line)
    }
}
